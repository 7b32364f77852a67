//! Mounts that are among some.

ghost use Rattle.std.specs.Prelude.{◌≡◌, false};
ghost use Rattle.std.specs.Bool.{OnTrue};
ghost use Rattle.std.specs.List.Sorted.{IsNonDecreasing};
ghost use Rattle.am_names.specs.Numbers.{is_among};

use crate::number::MountId;

/// Whether the mount is one of these.
pub fn is_among(mount: MountId, mounts: &[MountId]) -> bool
    ensures { result ≡ is_among mounts.now mount }
{
    mounts.iter().copied().any(|other| other == mount)
}

/// Whether the mount is lower or higher than all of these, which stand in order of number. Most
/// are, where new ones go.
fn is_beyond(mounts: &[MountId], mount: MountId) -> bool
    requires { IsNonDecreasing mounts.now }
    ensures { OnTrue result (is_among mounts.now mount ≡ false) }
{
    let Some(first) = mounts.first() else {
        return true;
    };
    let Some(last) = mounts.last() else {
        return true;
    };
    if mount < *first {
        return true;
    }
    *last < mount
}

/// Whether the mount is one of these, which stand in order of number: looks by halves.
pub fn is_found(mount: MountId, mounts: &[MountId]) -> bool
    requires { IsNonDecreasing mounts.now }
    ensures { result ≡ is_among mounts.now mount }
{
    if is_beyond(mounts, mount) {
        return false;
    }
    let number = mount.0;
    mounts
        .binary_search_by_key(&number, |other| other.0)
        .is_ok()
}

/// Whether the mounts stand in order of number, so that `is_found` may look.
pub fn are_ordered(mounts: &[MountId]) -> bool
    ensures { OnTrue result (IsNonDecreasing mounts.now) }
{
    mounts.is_sorted()
}
