//! Rows of mounts and of peer groups that are left out: what goes is found by its number.

ghost use Rattle.std.specs.Prelude.{◌≡◌, ◌≤◌, ◌+◌, ◌-◌, ◌++◌, ◌==◌, Some, filter, map, zip, not, nat_le, length, take, drop, option_map, IfSome};
ghost use Rattle.std.specs.Bool.{OnTrue};
ghost use Rattle.std.specs.List.{list_all, position_or_len, slice_get};
ghost use Rattle.std.specs.List.Sorted.{IsNonDecreasing};
ghost use Rattle.am_names.specs.{is_among};
ghost use Rattle.am_group.specs.Invariant.{RiseFrom, GroupsRise};

use crate::tables::is_among as is_live;
use am_names::{GroupId, GroupRow, MemberRow, MountId, are_ordered, is_among, is_found};
use am_ordered::Rows;

/// So few are looked for one by one, and of more all rows are gone through.
const FEW: usize = 4;

/// Leaves out the mount's row, which is found by halves.
fn leave_one_out(members: &mut Rows<MemberRow>, mount: MountId)
    requires { RiseFrom 0 members.old.rows }
    ensures { members.new.rows ≡ filter (λ row. not (row.mount == mount)) members.old.rows }
{
    let number = mount.0;
    if let Ok(at) = members
        .as_slice()
        .binary_search_by_key(&number, |row| row.mount.0)
    {
        members.take_out(at);
    }
}

/// Leaves out the rows of these mounts, one after another.
fn leave_each_out(members: &mut Rows<MemberRow>, gone: &[MountId])
    requires { RiseFrom 0 members.old.rows }
    ensures { members.new.rows ≡
        filter (λ row. not (is_among gone.now row.mount)) members.old.rows }
{
    for mount in gone {
        leave_one_out(members, *mount);
    }
}

/// Whether the mount is the newest of these, which stands last.
fn is_newest(members: &[MemberRow], mount: MountId) -> bool
    ensures { OnTrue result
        (option_map (λ row. row.mount) (slice_get members.now (length members.now - 1)) ≡
        Some mount) }
{
    match members.last() {
        Some(row) => row.mount == mount,
        None => false,
    }
}

/// Leaves out the rows of these mounts from the last of them on, as long as they are the newest.
/// The answer tells how many of them are left.
fn take_newest_out(members: &mut Rows<MemberRow>, gone: &[MountId]) -> usize
    requires { RiseFrom 0 members.old.rows }
    ensures rising { RiseFrom 0 members.new.rows }
    ensures within { result ≤ length gone.now }
    ensures same { filter (λ r. not (is_among (take result gone.now) r.mount)) members.new.rows ≡
        filter (λ row. not (is_among gone.now row.mount)) members.old.rows }
{
    let mut count = gone.len();
    while count > 0 {
        let before = count - 1;
        if !is_newest(members.as_slice(), gone[before]) {
            return count;
        }
        let _row = members.pop();
        count = before;
    }
    count
}

/// How many rows have a lower number.
fn rows_below(rows: &[MemberRow], mount: MountId) -> usize
    requires { RiseFrom 0 rows.now }
    ensures exact { result ≡ position_or_len (λ row. nat_le mount row.mount) rows.now }
    ensures bound { result ≤ length rows.now }
{
    rows.partition_point(|row| row.mount.0 < mount.0)
}

/// Whether these rows and these mounts go together in pairs.
fn are_pairs(rows: &[MemberRow], mounts: &[MountId]) -> bool
    ensures { result ≡ list_all (λ pair. pair.0.mount == pair.1) (zip rows.now mounts.now) }
{
    rows.iter()
        .zip(mounts.iter())
        .all(|(row, mount)| row.mount == *mount)
}

/// Whether these are the rows of the mounts. The last is looked at first.
fn are_rows_of(rows: &[MemberRow], mounts: &[MountId]) -> bool
    requires { length rows.now ≡ length mounts.now }
    ensures { OnTrue result (map (λ row. row.mount) rows.now ≡ mounts.now) }
{
    match (rows.last(), mounts.last()) {
        (Some(row), Some(mount)) => row.mount == *mount && are_pairs(rows, mounts),
        _ => false,
    }
}

/// Whether the rows from this place on are those of the mounts, as many as there are.
fn stand_at(rows: &[MemberRow], at: usize, mounts: &[MountId]) -> bool
    requires { at ≤ length rows.now }
    ensures within { OnTrue result (at + length mounts.now ≤ length rows.now) }
    ensures rows { OnTrue result
        (map (λ row. row.mount) (take (length mounts.now) (drop at rows.now)) ≡ mounts.now) }
{
    let behind = &rows[at..];
    let count = mounts.len();
    count <= behind.len() && are_rows_of(&behind[..count], mounts)
}

/// The place from which on the rows of these mounts stand side by side.
fn place_of_block(rows: &[MemberRow], gone: &[MountId]) -> Option<usize>
    requires { RiseFrom 0 rows.now }
    ensures within { IfSome result (λ at. at + length gone.now ≤ length rows.now) }
    ensures left { IfSome result (λ at. take at rows.now ++ drop (at + length gone.now) rows.now ≡
        filter (λ row. not (is_among gone.now row.mount)) rows.now) }
{
    let first = *gone.first()?;
    let at = rows_below(rows, first);
    if stand_at(rows, at, gone) {
        Some(at)
    } else {
        None
    }
}

/// Leaves out the rows of these mounts: one after another where they are few, and all at once where
/// they stand side by side; else all rows are gone through.
fn leave_these_out(members: &mut Rows<MemberRow>, gone: &[MountId])
    requires { RiseFrom 0 members.old.rows }
    ensures { members.new.rows ≡
        filter (λ row. not (is_among gone.now row.mount)) members.old.rows }
{
    if gone.len() <= FEW {
        leave_each_out(members, gone);
    } else if let Some(at) = place_of_block(members.as_slice(), gone) {
        members.take_range(at, gone.len());
    } else if are_ordered(gone) {
        members.retain(|row| !is_found(row.mount, gone));
    } else {
        members.retain(|row| !is_among(row.mount, gone));
    }
}

/// Leaves out the rows of these mounts, the newest first.
pub fn leave_out(members: &mut Rows<MemberRow>, gone: &[MountId])
    requires { RiseFrom 0 members.old.rows }
    ensures { members.new.rows ≡
        filter (λ row. not (is_among gone.now row.mount)) members.old.rows }
{
    let left = take_newest_out(members, gone);
    leave_these_out(members, &gone[..left]);
}

/// Whether the mount is one of these, by halves where they stand in order.
pub fn is_one(mount: MountId, mounts: &[MountId], ordered: bool) -> bool
    requires { OnTrue ordered (IsNonDecreasing mounts.now) }
    ensures { result ≡ is_among mounts.now mount }
{
    if ordered {
        is_found(mount, mounts)
    } else {
        is_among(mount, mounts)
    }
}

/// Leaves out the peer group's row, which is found by halves.
fn drop_one(groups: &mut Rows<GroupRow>, group: GroupId)
    requires { GroupsRise groups.old.rows }
    ensures { groups.new.rows ≡ filter (λ row. not (row.group == group)) groups.old.rows }
{
    let number = group.0;
    if let Ok(at) = groups
        .as_slice()
        .binary_search_by_key(&number, |row| row.group.0)
    {
        groups.take_out(at);
    }
}

/// Leaves out the rows of these peer groups, one after another.
fn drop_each(groups: &mut Rows<GroupRow>, lost: &[GroupId])
    requires { GroupsRise groups.old.rows }
    ensures { groups.new.rows ≡
        filter (λ row. not (is_among lost.now row.group)) groups.old.rows }
{
    for group in lost {
        drop_one(groups, *group);
    }
}

/// Whether the peer group is the newest of these, which stands last.
fn is_newest_group(groups: &[GroupRow], group: GroupId) -> bool
    ensures { OnTrue result
        (option_map (λ row. row.group) (slice_get groups.now (length groups.now - 1)) ≡
        Some group) }
{
    match groups.last() {
        Some(row) => row.group == group,
        None => false,
    }
}

/// Leaves out the rows of these peer groups from the last of them on, as long as they are the
/// newest. The answer tells how many of them are left.
fn drop_newest(groups: &mut Rows<GroupRow>, lost: &[GroupId]) -> usize
    requires { GroupsRise groups.old.rows }
    ensures rising { GroupsRise groups.new.rows }
    ensures within { result ≤ length lost.now }
    ensures same { filter (λ row. not (is_among (take result lost.now) row.group)) groups.new.rows ≡
        filter (λ row. not (is_among lost.now row.group)) groups.old.rows }
{
    let mut count = lost.len();
    while count > 0 {
        let before = count - 1;
        if !is_newest_group(groups.as_slice(), lost[before]) {
            return count;
        }
        let _row = groups.pop();
        count = before;
    }
    count
}

/// How many rows have a lower number.
fn groups_below(rows: &[GroupRow], group: GroupId) -> usize
    requires { GroupsRise rows.now }
    ensures exact { result ≡ position_or_len (λ row. nat_le group row.group) rows.now }
    ensures bound { result ≤ length rows.now }
{
    rows.partition_point(|row| row.group.0 < group.0)
}

/// Whether these rows and these peer groups go together in pairs.
fn are_group_pairs(rows: &[GroupRow], groups: &[GroupId]) -> bool
    ensures { result ≡ list_all (λ pair. pair.0.group == pair.1) (zip rows.now groups.now) }
{
    rows.iter()
        .zip(groups.iter())
        .all(|pair| pair.0.group == *pair.1)
}

/// Whether these are the rows of the peer groups. The last is looked at first.
fn are_rows_of_groups(rows: &[GroupRow], groups: &[GroupId]) -> bool
    requires { length rows.now ≡ length groups.now }
    ensures { OnTrue result (map (λ row. row.group) rows.now ≡ groups.now) }
{
    match (rows.last(), groups.last()) {
        (Some(row), Some(group)) => row.group == *group && are_group_pairs(rows, groups),
        _ => false,
    }
}

/// Whether the rows from this place on are those of the peer groups, as many as there are.
fn groups_stand_at(rows: &[GroupRow], at: usize, groups: &[GroupId]) -> bool
    requires { at ≤ length rows.now }
    ensures within { OnTrue result (at + length groups.now ≤ length rows.now) }
    ensures rows { OnTrue result
        (map (λ row. row.group) (take (length groups.now) (drop at rows.now)) ≡ groups.now) }
{
    let behind = &rows[at..];
    let count = groups.len();
    count <= behind.len() && are_rows_of_groups(&behind[..count], groups)
}

/// The place from which on the rows of these peer groups stand side by side.
fn place_of_groups(rows: &[GroupRow], lost: &[GroupId]) -> Option<usize>
    requires { GroupsRise rows.now }
    ensures within { IfSome result (λ at. at + length lost.now ≤ length rows.now) }
    ensures left { IfSome result (λ at. take at rows.now ++ drop (at + length lost.now) rows.now ≡
        filter (λ row. not (is_among lost.now row.group)) rows.now) }
{
    let first = *lost.first()?;
    let at = groups_below(rows, first);
    if groups_stand_at(rows, at, lost) {
        Some(at)
    } else {
        None
    }
}

/// Leaves out the rows of these peer groups in one look over all.
fn drop_many(groups: &mut Rows<GroupRow>, lost: &[GroupId])
    requires { IsNonDecreasing lost.now }
    ensures { groups.new.rows ≡
        filter (λ row. not (is_among lost.now row.group)) groups.old.rows }
{
    groups.retain(|row| !is_live(lost, row.group));
}

/// Leaves out the rows of these peer groups, the newest first, few of the others one by one, and more
/// of them all at once where they stand side by side.
pub fn drop_groups(groups: &mut Rows<GroupRow>, lost: &[GroupId])
    requires rising { GroupsRise groups.old.rows }
    requires ordered { IsNonDecreasing lost.now }
    ensures { groups.new.rows ≡
        filter (λ row. not (is_among lost.now row.group)) groups.old.rows }
{
    let left = drop_newest(groups, lost);
    let others = &lost[..left];
    if left <= FEW {
        drop_each(groups, others);
    } else if let Some(at) = place_of_groups(groups.as_slice(), others) {
        groups.take_range(at, others.len());
    } else {
        drop_many(groups, others);
    }
}
