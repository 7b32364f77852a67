//! Which mounts are in use, as a walker's crate knows.

ghost use Rattle.std.specs.Prelude.{◌≡◌, ℕ, Bool};
ghost use Rattle.std.specs.List.{list_any};

use am_names::MountId;

/// Tells which mounts are in use, so that they may not be removed (Linux: `propagate_mount_busy`).
pub trait InUse {
    ghost uses: { Self → ℕ → Bool };

    fn in_use(&self, mount: MountId) -> bool
        ensures { result ≡ uses self.now mount };
}

/// Whether one of these mounts is in use.
pub fn is_used<U: InUse>(in_use: &U, mounts: &[MountId]) -> bool
    ensures { result ≡ list_any (U.uses in_use.now) mounts.now }
{
    mounts.iter().copied().any(|mount| in_use.in_use(mount))
}
