//! What is looked up of lines and the mounts that stand for them.

ghost use Rattle.std.specs.Prelude.{◌≡◌, IfOk};
ghost use Rattle.am_group.specs.{group_of};
ghost use Rattle.am_import.specs.Likeness.{fs_of, groups_of, ns_of, numbers_of, of_seat, spaces_of, told_of};
ghost use Rattle.am_import.specs.Told.{AreTold};

use crate::firsts::{first_places, first_shown};
use crate::likeness::Row;
use am_mountinfo::paths::Paths;
use am_names::MountId;
use am_world::World;
use std::alloc::{AllocError, Global};
use std::collections::BTreeMap;

/// Where the numbers and texts of lines, and of the mounts that stand for them, first stand.
pub(crate) struct Told<'a> {
    pub spaces: BTreeMap<u64, usize>,
    pub numbers: BTreeMap<u64, usize>,
    pub groups: BTreeMap<u64, usize>,
    pub shown: BTreeMap<&'a [u8], usize>,
    pub namespaces: BTreeMap<u64, usize>,
    pub file_systems: BTreeMap<u64, usize>,
    pub peers: BTreeMap<u64, usize>,
    pub paths: Paths,
}

// Written by hand, it is proved here once, and not in each function that lets one go.
impl<'a> Drop for Told<'a> {
    fn drop(self) {
        let Told {
            spaces,
            numbers,
            groups,
            shown,
            namespaces,
            file_systems,
            peers,
            paths,
        } = self;
        drop(spaces);
        drop(numbers);
        drop(groups);
        drop(shown);
        drop(namespaces);
        drop(file_systems);
        drop(peers);
        drop(paths);
    }
}

/// The namespace of the mount that stands for a line.
fn ns_of(world: &World, seat: Option<u64>) -> Option<u64>
    ensures { result ≡ of_seat (ns_of world.now.kernel.table) seat }
{
    let row = world.mount_row(MountId(seat?))?;
    Some(u64::from(row.ns.0))
}

/// Its file system.
fn fs_of(world: &World, seat: Option<u64>) -> Option<u64>
    ensures { result ≡ of_seat (fs_of world.now.kernel.table) seat }
{
    let row = world.mount_row(MountId(seat?))?;
    Some(u64::from(row.fs.0))
}

/// Its peer group.
fn peers_of(world: &World, seat: Option<u64>) -> Option<u64>
    ensures { result ≡ of_seat (group_of world.now.kernel.table.groups) seat }
{
    let group = am_mountinfo::peers::group_of(world, MountId(seat?))?;
    Some(group.0)
}

fn spaces(alloc: Global, rows: &[Row]) -> Result<Vec<Option<u64>>, AllocError>
    ensures { IfOk result (λ found. found.items ≡ spaces_of rows.now) }
{
    rows.iter()
        .map(|row| Some(u64::from(row.line.space)))
        .collect(alloc)
}

fn numbers(alloc: Global, rows: &[Row]) -> Result<Vec<Option<u64>>, AllocError>
    ensures { IfOk result (λ found. found.items ≡ numbers_of rows.now) }
{
    rows.iter().map(|row| Some(row.line.number)).collect(alloc)
}

fn groups(alloc: Global, rows: &[Row]) -> Result<Vec<Option<u64>>, AllocError>
    ensures { IfOk result (λ found. found.items ≡ groups_of rows.now) }
{
    rows.iter().map(|row| row.line.group).collect(alloc)
}

fn namespaces(alloc: Global, world: &World, rows: &[Row]) -> Result<Vec<Option<u64>>, AllocError>
    ensures { IfOk result (λ found. found.items ≡ told_of (ns_of world.now.kernel.table) rows.now) }
{
    rows.iter().map(|row| ns_of(world, row.seat)).collect(alloc)
}

fn file_systems(alloc: Global, world: &World, rows: &[Row]) -> Result<Vec<Option<u64>>, AllocError>
    ensures { IfOk result (λ found. found.items ≡ told_of (fs_of world.now.kernel.table) rows.now) }
{
    rows.iter().map(|row| fs_of(world, row.seat)).collect(alloc)
}

fn peers(alloc: Global, world: &World, rows: &[Row]) -> Result<Vec<Option<u64>>, AllocError>
    ensures { IfOk result (λ found. found.items ≡ told_of (group_of world.now.kernel.table.groups) rows.now) }
{
    rows.iter()
        .map(|row| peers_of(world, row.seat))
        .collect(alloc)
}

impl<'a> Told<'a> {
    /// Those of these lines and of the mounts of a world.
    pub fn of(alloc: Global, world: &World, rows: &'a [Row]) -> Result<Told<'a>, AllocError>
        ensures { IfOk result (λ told. AreTold told world.now.kernel.table rows.now) }
    {
        Ok(Told {
            spaces: first_places(alloc, &spaces(alloc, rows)?)?,
            numbers: first_places(alloc, &numbers(alloc, rows)?)?,
            groups: first_places(alloc, &groups(alloc, rows)?)?,
            shown: first_shown(alloc, rows)?,
            namespaces: first_places(alloc, &namespaces(alloc, world, rows)?)?,
            file_systems: first_places(alloc, &file_systems(alloc, world, rows)?)?,
            peers: first_places(alloc, &peers(alloc, world, rows)?)?,
            paths: Paths::of(alloc, world.mounts())?,
        })
    }
}
