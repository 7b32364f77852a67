//! How far the mounts of a world are those of a mountinfo.

ghost use Rattle.std.specs.Prelude.{◌≡◌, ℕ, List, Option};
ghost use Rattle.std.specs.List.{slice_get};
ghost use Rattle.am_group.specs.{member_row};
ghost use Rattle.am_mount.specs.{mount_row};
ghost use Rattle.am_propagate.specs.MountTable.{MountTable};
ghost use Rattle.am_import.specs.declared.likeness.Row.{Row};
ghost use Rattle.am_import.specs.Likeness.{first_unlike, has_group, has_master, has_namespace, has_path, has_shown, is_on, is_unbindable, parent_place, same_bool, same_number, seat_in, stands_for, unlike_found, unlike_row, unlikeness};
ghost use Rattle.am_import.specs.Firsts.{AreFirsts};
ghost use Rattle.am_import.specs.Told.{AreTold};

use crate::firsts::{place_of, shown_place};
use crate::told::Told;
use am_mount_lines::MountLine;
use am_mountinfo::masters::master_of;
use am_mountinfo::peers::group_of;
use am_names::{GroupId, MountId, MountRow, Position};
use am_world::World;
use std::collections::BTreeMap;

/// A line of a mountinfo, and the mount of a world that stands for it.
#[derive(Drop)]
pub struct Row {
    pub line: MountLine,
    pub seat: Option<u64>,
}

/// In what the mount that stands for a line is first unlike it.
#[derive(Clone, Copy, Debug, PartialEq, Eq)]
pub enum Unlike {
    /// No mount stands for it.
    Missing,
    /// Its namespace stands for another one.
    Namespace,
    /// It is mounted on another mount.
    Parent,
    /// It has another path.
    Path,
    /// Its file system stands for what another line shows.
    FileSystem,
    /// Its peer group stands for another one, or for none.
    PeerGroup,
    /// So does its master.
    Master,
    /// It is to be bound, or not.
    Unbindable,
}

fn same_number(one: Option<usize>, other: Option<usize>) -> bool
    ensures { result ≡ same_number one other }
{
    match (one, other) {
        (None, None) => true,
        (Some(a), Some(b)) => a == b,
        _ => false,
    }
}

/// Whether a number that was found stands for a wanted one.
fn stands_for(
    wanted: Option<u64>,
    wanted_places: &BTreeMap<u64, usize>,
    found: Option<u64>,
    found_places: &BTreeMap<u64, usize>,
) -> bool
    ensures { (ws fs : List (Option ℕ)) → AreFirsts wanted_places.now ws → AreFirsts found_places.now fs
        → result ≡ stands_for wanted ws found fs }
{
    match (wanted, found) {
        (None, None) => true,
        (Some(a), Some(b)) => same_number(place_of(wanted_places, a), place_of(found_places, b)),
        _ => false,
    }
}

/// The number of a line's namespace.
fn space_of(line: &MountLine) -> u64
    ensures { result ≡ line.now.space }
{
    u64::from(line.space)
}

/// The number of a mount's namespace.
fn ns_of(row: &MountRow) -> u64
    ensures { result ≡ row.now.ns }
{
    u64::from(row.ns.0)
}

fn has_namespace(told: &Told<'_>, line: &MountLine, row: &MountRow) -> bool
    ensures { (t : MountTable) (rows : List Row) → AreTold told.now t rows
        → result ≡ has_namespace t rows line.now row.now }
{
    stands_for(
        Some(space_of(line)),
        &told.spaces,
        Some(ns_of(row)),
        &told.namespaces,
    )
}

/// Where the line of the mount stands that the line's is mounted on.
fn parent_place(told: &Told<'_>, rows: &[Row], line: &MountLine) -> Option<usize>
    ensures { (t : MountTable) → AreTold told.now t rows.now → result ≡ parent_place rows.now line.now }
{
    if line.parent == line.number {
        return None;
    }
    let place = place_of(&told.numbers, line.parent)?;
    let row = rows.get(place)?;
    if row.line.space == line.space {
        return Some(place);
    }
    None
}

/// The mount that stands for the line at a place.
fn seat_at(rows: &[Row], place: usize) -> Option<u64>
    ensures { result ≡ seat_in (slice_get rows.now place) }
{
    rows.get(place)?.seat
}

/// Whether a mount is on the one that stands for the line at a place, or nowhere if there is no place.
fn is_on(rows: &[Row], place: Option<usize>, mountpoint: &Option<Position>) -> bool
    ensures { result ≡ is_on rows.now place mountpoint.now }
{
    match (place, mountpoint) {
        (None, None) => true,
        (Some(place), Some(position)) => seat_at(rows, place) == Some(position.mount.0),
        _ => false,
    }
}

fn has_path(told: &Told<'_>, line: &MountLine, mount: MountId) -> bool
    ensures { (t : MountTable) (rows : List Row) → AreTold told.now t rows → result ≡ has_path t line.now mount }
{
    told.paths.path(mount) == line.path.text()
}

fn has_shown<'a>(told: &Told<'a>, line: &'a MountLine, row: &MountRow) -> bool
    ensures { (t : MountTable) (rows : List Row) → AreTold told.now t rows → result ≡ has_shown t rows line.now row.now }
{
    same_number(
        shown_place(&told.shown, line.shown.as_slice()),
        place_of(&told.file_systems, u64::from(row.fs.0)),
    )
}

fn number_of(group: Option<GroupId>) -> Option<u64>
    ensures { result ≡ group }
{
    Some(group?.0)
}

fn has_group(world: &World, told: &Told<'_>, line: &MountLine, mount: MountId) -> bool
    ensures { (rows : List Row) → AreTold told.now world.now.kernel.table rows
        → result ≡ has_group world.now.kernel.table rows line.now mount }
{
    stands_for(
        line.group,
        &told.groups,
        number_of(group_of(world, mount)),
        &told.peers,
    )
}

fn has_master(world: &World, told: &Told<'_>, line: &MountLine, mount: MountId) -> bool
    ensures { (rows : List Row) → AreTold told.now world.now.kernel.table rows
        → result ≡ has_master world.now.kernel.table rows line.now mount }
{
    stands_for(
        line.master,
        &told.groups,
        number_of(master_of(world, mount)),
        &told.peers,
    )
}

fn is_unbindable(world: &World, mount: MountId) -> bool
    ensures { result ≡ is_unbindable (member_row world.now.kernel.table.groups.members mount) }
{
    match world.member(mount) {
        Some(member) => member.is_unbindable(),
        None => false,
    }
}

fn first_unlike(
    namespace: bool,
    parent: bool,
    path: bool,
    shown: bool,
    group: bool,
    master: bool,
    unbindable: bool,
) -> Option<Unlike>
    ensures { result ≡ first_unlike namespace parent path shown group master unbindable }
{
    if !namespace {
        return Some(Unlike::Namespace);
    }
    if !parent {
        return Some(Unlike::Parent);
    }
    if !path {
        return Some(Unlike::Path);
    }
    if !shown {
        return Some(Unlike::FileSystem);
    }
    if !group {
        return Some(Unlike::PeerGroup);
    }
    if !master {
        return Some(Unlike::Master);
    }
    if !unbindable {
        return Some(Unlike::Unbindable);
    }
    None
}

fn same_bool(one: bool, other: bool) -> bool
    ensures { result ≡ same_bool one other }
{
    if one { other } else { !other }
}

fn unlike_found<'a>(
    world: &World,
    told: &Told<'a>,
    rows: &'a [Row],
    line: &'a MountLine,
    mount: MountId,
    row: &MountRow,
) -> Option<Unlike>
    requires { AreTold told.now world.now.kernel.table rows.now }
    ensures { result ≡ unlike_found world.now.kernel.table rows.now line.now mount row.now }
{
    first_unlike(
        has_namespace(told, line, row),
        is_on(rows, parent_place(told, rows, line), &row.mountpoint),
        has_path(told, line, mount),
        has_shown(told, line, row),
        has_group(world, told, line, mount),
        has_master(world, told, line, mount),
        same_bool(line.is_unbindable, is_unbindable(world, mount)),
    )
}

fn unlike_row<'a>(
    world: &World,
    told: &Told<'a>,
    rows: &'a [Row],
    line: &'a MountLine,
    mount: MountId,
) -> Option<Unlike>
    requires { AreTold told.now world.now.kernel.table rows.now }
    ensures { result ≡ unlike_row world.now.kernel.table rows.now line.now mount
        (mount_row world.now.kernel.table.rows mount) }
{
    match world.mount_row(mount) {
        Some(row) => unlike_found(world, told, rows, line, mount, row),
        None => Some(Unlike::Missing),
    }
}

/// In what the mount that stands for a line is first unlike it; none where it is like it in all.
pub(crate) fn unlikeness<'a>(
    world: &World,
    told: &Told<'a>,
    rows: &'a [Row],
    row: &'a Row,
) -> Option<Unlike>
    requires { AreTold told.now world.now.kernel.table rows.now }
    ensures { result ≡ unlikeness world.now.kernel.table rows.now row.now }
{
    match row.seat {
        Some(mount) => unlike_row(world, told, rows, &row.line, MountId(mount)),
        None => Some(Unlike::Missing),
    }
}
