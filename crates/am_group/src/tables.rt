//! Look-ups of rows, and of peer groups among others.

ghost use Rattle.std.specs.List.Sorted.{IsNonDecreasing};
ghost use Rattle.std.specs.Bool.{OnTrue};
ghost use Rattle.std.specs.Prelude.{◌≡◌, ◌↔◌, Some, false, IsTrue, IfSome};
ghost use Rattle.am_group.specs.Propagation.{member_row, group_row};
ghost use Rattle.am_names.specs.{is_among};
ghost use Rattle.am_group.specs.Invariant.{RiseFrom, GroupsRise};

use am_names::{GroupId, GroupRow, MemberRow, MountId};

/// The mount's row, where it stands at the place of its number. Mounts are numbered from 1 on, so
/// that those below which none was removed do.
fn row_in_place(members: &[MemberRow], mount: MountId) -> Option<MemberRow>
    requires { RiseFrom 0 members.now }
    ensures { IfSome result (λ row. member_row members.now mount ≡ Some row) }
{
    let place = (mount.0 as usize).saturating_sub(1);
    match members.get(place) {
        Some(row) if row.mount == mount => Some(*row),
        Some(_) | None => None,
    }
}

/// The mount's row, where none went of the mounts from it to the newest.
fn row_from_end(members: &[MemberRow], mount: MountId) -> Option<MemberRow>
    requires { RiseFrom 0 members.now }
    ensures { IfSome result (λ row. member_row members.now mount ≡ Some row) }
{
    let newest = members.last()?;
    let newer = newest.mount.0.saturating_sub(mount.0) as usize;
    let place = (members.len() - 1).saturating_sub(newer);
    let row = members.get(place)?;
    if row.mount == mount { Some(*row) } else { None }
}

/// The mount's row. The rows rise by number, so that halves of them are left out at a time.
fn row_by_halves(members: &[MemberRow], mount: MountId) -> Option<MemberRow>
    requires { RiseFrom 0 members.now }
    ensures { result ≡ member_row members.now mount }
{
    let number = mount.0;
    match members.binary_search_by_key(&number, |row| row.mount.0) {
        Ok(at) => Some(members[at]),
        Err(_) => None,
    }
}

/// The mount's row, which is looked for at its place from the newest, and at that of its number,
/// first.
pub fn member_row(members: &[MemberRow], mount: MountId) -> Option<MemberRow>
    requires { RiseFrom 0 members.now }
    ensures { result ≡ member_row members.now mount }
{
    if let Some(row) = row_from_end(members, mount) {
        return Some(row);
    }
    if let Some(row) = row_in_place(members, mount) {
        return Some(row);
    }
    row_by_halves(members, mount)
}

/// Whether the peer group is lower or higher than all of these, which stand in order of number. Of
/// many groups and a few new ones most are.
fn is_beyond(groups: &[GroupId], group: GroupId) -> bool
    requires { IsNonDecreasing groups.now }
    ensures { OnTrue result (is_among groups.now group ≡ false) }
{
    let Some(first) = groups.first() else {
        return true;
    };
    let Some(last) = groups.last() else {
        return true;
    };
    if group < *first {
        return true;
    }
    *last < group
}

/// Whether the peer group is one of these, which stand in order of number.
pub fn is_among(groups: &[GroupId], group: GroupId) -> bool
    requires { IsNonDecreasing groups.now }
    ensures { result ≡ is_among groups.now group }
{
    if is_beyond(groups, group) {
        return false;
    }
    let number = group.0;
    groups
        .binary_search_by_key(&number, |other| other.0)
        .is_ok()
}

/// The peer group with its master. The rows rise by number, as those of the mounts.
pub fn group_row(groups: &[GroupRow], group: GroupId) -> Option<GroupRow>
    requires { GroupsRise groups.now }
    ensures { result ≡ group_row groups.now group }
{
    let number = group.0;
    match groups.binary_search_by_key(&number, |row| row.group.0) {
        Ok(at) => Some(groups[at]),
        Err(_) => None,
    }
}

/// Whether both are the same mount with the same propagation.
fn is_same_member(row: &MemberRow, other: &MemberRow) -> bool
    ensures { IsTrue result ↔ (row.now ≡ other.now) }
{
    row.mount == other.mount
        && row.group() == other.group()
        && row.master() == other.master()
        && row.is_unbindable() == other.is_unbindable()
}

/// Whether these are the same mounts in the same order.
pub fn are_same_members(members: &[MemberRow], others: &[MemberRow]) -> bool
    ensures { IsTrue result ↔ (members.now ≡ others.now) }
{
    members.len() == others.len()
        && members
            .iter()
            .zip(others)
            .all(|(row, other)| is_same_member(row, other))
}

/// Whether both are the same peer group with the same master.
fn is_same_group(row: &GroupRow, other: &GroupRow) -> bool
    ensures { IsTrue result ↔ (row.now ≡ other.now) }
{
    row.group == other.group && row.master == other.master
}

/// Whether these are the same peer groups in the same order.
pub fn are_same_groups(groups: &[GroupRow], others: &[GroupRow]) -> bool
    ensures { IsTrue result ↔ (groups.now ≡ others.now) }
{
    groups.len() == others.len()
        && groups
            .iter()
            .zip(others)
            .all(|(row, other)| is_same_group(row, other))
}
