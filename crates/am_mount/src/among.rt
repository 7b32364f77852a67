//! Mounts that are among some.

ghost use Rattle.std.specs.Prelude.{◌≡◌, ◌==◌, ◌<◌, ◌≤◌, ◌+◌, ◌-◌, ◌/◌, ◌⊎◌, ◌↔◌, ◌++◌, length, take, drop, map, filter, zip, not, option_map, IsTrue, IfSome};
ghost use Rattle.std.specs.Bool.{OnTrue};
ghost use Rattle.std.specs.List.{list_all, slice_get};
ghost use Rattle.am_names.specs.{is_among};
ghost use Rattle.am_mount.specs.Near.{most_moved, rows_below, AreNumberedAlike, AreNumberedFrom};
ghost use Rattle.am_mount.specs.Rows.{IsRising};

use am_names::{MountId, MountRow, are_ordered, is_among, is_found};
use am_ordered::Rows;

/// Leaves out the mount's row, which is found by halves.
fn leave_one_out(rows: &mut Rows<MountRow>, mount: MountId)
    requires { IsRising rows.old.rows }
    ensures { rows.new.rows ≡ filter (λ row. not (row.mount == mount)) rows.old.rows }
{
    let number = mount.0;
    if let Ok(at) = rows
        .as_slice()
        .binary_search_by_key(&number, |row| row.mount.0)
    {
        rows.take_out(at);
    }
}

/// Leaves out the rows of these mounts, one after another.
fn leave_each_out(rows: &mut Rows<MountRow>, gone: &[MountId])
    requires { IsRising rows.old.rows }
    ensures { rows.new.rows ≡ filter (λ row. not (is_among gone.now row.mount)) rows.old.rows }
{
    for mount in gone {
        leave_one_out(rows, *mount);
    }
}

/// How many rows have a lower number.
fn rows_below(rows: &[MountRow], mount: MountId) -> usize
    requires { IsRising rows.now }
    ensures exact { result ≡ rows_below rows.now mount }
    ensures bound { result ≤ length rows.now }
{
    rows.partition_point(|row| row.mount.0 < mount.0)
}

/// So many rows move at most where one of these mounts is taken out, which stand in order.
fn most_moved(rows: &[MountRow], gone: &[MountId]) -> usize
    requires rising { IsRising rows.now }
    requires some { 0 < length gone.now }
    ensures { result ≡ most_moved rows.now gone.now }
{
    let others = gone.len() - 1;
    let in_front = rows_below(rows, gone[others]).saturating_sub(others);
    let behind = rows.len() - rows_below(rows, gone[0]);
    in_front.min(behind)
}

/// So few mounts are taken out one after another wherever they stand.
const FEW: usize = 4;

/// Whether the mounts are few, or stand so near to an end that no more rows move than there are
/// where they are taken out one after another.
fn are_few_or_near(rows: &[MountRow], gone: &[MountId]) -> bool
    requires { IsRising rows.now }
    ensures { IsTrue result ↔ ((length gone.now ≤ 4) ⊎
        (most_moved rows.now gone.now ≤ length rows.now / length gone.now)) }
{
    gone.len() <= FEW || most_moved(rows, gone) <= rows.len() / gone.len()
}

/// Whether these rows and these mounts go together in pairs.
fn are_pairs(rows: &[MountRow], mounts: &[MountId]) -> bool
    ensures { result ≡ list_all (λ pair. pair.0.mount == pair.1) (zip rows.now mounts.now) }
{
    rows.iter()
        .zip(mounts.iter())
        .all(|pair| pair.0.mount == *pair.1)
}

/// Whether the mounts are numbered one after another, from this number on.
fn are_numbered_from(first: u64, mounts: &[MountId]) -> bool
    ensures { OnTrue result (AreNumberedFrom first mounts.now) }
{
    let mut next = first;
    for mount in mounts {
        if mount.0 != next {
            return false;
        }
        match next.checked_add(1) {
            Some(number) => next = number,
            None => return false,
        }
    }
    true
}

/// Whether the mounts are numbered one after another, from that of the first row on.
fn are_numbered_alike(rows: &[MountRow], mounts: &[MountId]) -> bool
    ensures { OnTrue result (AreNumberedAlike rows.now mounts.now) }
{
    match rows.first() {
        Some(row) => are_numbered_from(row.mount.0, mounts),
        None => false,
    }
}

/// Whether the last row is that of the last mount.
fn end_alike(rows: &[MountRow], mounts: &[MountId]) -> bool
    ensures { OnTrue result (option_map (λ row. row.mount) (slice_get rows.now (length rows.now - 1)) ≡
        slice_get mounts.now (length mounts.now - 1)) }
{
    match (rows.last(), mounts.last()) {
        (Some(row), Some(mount)) => row.mount == *mount,
        _ => false,
    }
}

/// Whether these are the rows of the mounts. The last is looked at first. Where the mounts are
/// numbered one after another, rows that rise from the first of them to the last are theirs.
fn are_rows_of(rows: &[MountRow], mounts: &[MountId]) -> bool
    requires rising { IsRising rows.now }
    requires len { length rows.now ≡ length mounts.now }
    ensures { OnTrue result (map (λ row. row.mount) rows.now ≡ mounts.now) }
{
    if !end_alike(rows, mounts) {
        return false;
    }
    if are_numbered_alike(rows, mounts) {
        return true;
    }
    are_pairs(rows, mounts)
}

/// Whether the rows from this place on are those of the mounts, as many as there are.
fn stand_at(rows: &[MountRow], at: usize, mounts: &[MountId]) -> bool
    requires rising { IsRising rows.now }
    requires within { at ≤ length rows.now }
    ensures { OnTrue result
        (map (λ row. row.mount) (take (length mounts.now) (drop at rows.now)) ≡ mounts.now) }
{
    let behind = &rows[at..];
    let count = mounts.len();
    count <= behind.len() && are_rows_of(&behind[..count], mounts)
}

/// The place from which on the rows of these mounts stand side by side.
fn place_of_block(rows: &[MountRow], gone: &[MountId]) -> Option<usize>
    requires { IsRising rows.now }
    ensures within { IfSome result (λ at. at + length gone.now ≤ length rows.now) }
    ensures left { IfSome result (λ at. take at rows.now ++ drop (at + length gone.now) rows.now ≡
        filter (λ row. not (is_among gone.now row.mount)) rows.now) }
{
    let first = *gone.first()?;
    let at = rows_below(rows, first);
    if stand_at(rows, at, gone) {
        Some(at)
    } else {
        None
    }
}

/// Leaves out the rows of these mounts, one after another where they are few or near to an end, and
/// in one piece where they stand side by side, where those on the shorter side move; else all rows
/// are gone through. In mounts that stand in order it looks by halves.
pub fn leave_out(rows: &mut Rows<MountRow>, gone: &[MountId])
    requires { IsRising rows.old.rows }
    ensures { rows.new.rows ≡ filter (λ row. not (is_among gone.now row.mount)) rows.old.rows }
{
    if are_few_or_near(rows.as_slice(), gone) {
        leave_each_out(rows, gone);
    } else if let Some(at) = place_of_block(rows.as_slice(), gone) {
        rows.take_range(at, gone.len());
    } else if are_ordered(gone) {
        rows.retain(|row| !is_found(row.mount, gone));
    } else {
        rows.retain(|row| !is_among(row.mount, gone));
    }
}
