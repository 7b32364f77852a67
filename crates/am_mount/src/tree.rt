//! The rows of all mounts.

ghost use Rattle.std.specs.Prelude.{◌≡◌, ◌==◌, ◌&&◌, ◌≤◌, ◌-◌, ◌++◌, ◌↔◌, ℕ, [], take, length, filter, not, option_map, find, ◌∷◌, IsTrue, Some, IfOk, IfSome, IfNone, OnOk, OnErr};
ghost use Rattle.std.specs.Bool.{OnTrue};
ghost use Rattle.std.specs.List.{Contains, slice_get};
ghost use Rattle.std.specs.List.Sorted.{IsStrictlyIncreasing};
ghost use Rattle.std.specs.Option.{option_copied};
ghost use Rattle.std.specs.List.{list_any};
ghost use Rattle.am_names.specs.{IsCanonical, names_of, is_among};
ghost use Rattle.am_mount.specs.Families.{placed_found};
ghost use Rattle.am_mount.specs.Family.{one_placed};
ghost use Rattle.am_mount.specs.Found.{stands_at, stands_alone};
ghost use Rattle.am_mount.specs.Indexed.{AreIndexed};
ghost use Rattle.am_mount.specs.Siblings.{placed_of};
ghost use Rattle.am_mount.specs.Rows.{last_of, IsRising, next_of, mount_row, mounts_where, is_in, is_child, has_fs, is_at, top_of, root_of, HasRow, IsIn, IsOn, IsTop, HasNoMountAt};

use crate::among::leave_out;
use crate::family::Family;
use crate::indexes::Indexes;
use crate::siblings::{Child, Siblings};
use am_names::{FsId, MountId, MountRow, NsId, bucket};
use am_ordered::Rows;
use std::alloc::{AllocError, Global};
use std::marker::Model;

/// A set of mount rows, no two with the same number (Linux: the mounts of all namespaces).
pub struct Tree {
    rows: Rows<MountRow>,
    indexes: Indexes,
}

// Written by hand, it is proved here once: a derived one is proved field by field in each function
// of the crates above that lets the rows go at an early return.
impl Drop for Tree {
    fn drop(self) {
        let Tree { rows, indexes } = self;
        drop(rows);
        drop(indexes);
    }
}

impl Model for Tree {
    ghost use Rattle.std.specs.Prelude.{List};
    ghost use Rattle.am_names.specs.{MountRow};
    ghost use Rattle.am_mount.specs.View.{IsOrdered};

    ghost Value = { List MountRow };

    ghost view = { λ t. t.rows.rows };

    ghost invariant = { IsOrdered };
}

/// Whether these are the same mounts in the same order.
fn are_same(rows: &[MountRow], others: &[MountRow]) -> bool
    ensures { IsTrue result ↔ (rows.now ≡ others.now) }
{
    rows.len() == others.len()
        && rows
            .iter()
            .zip(others)
            .all(|(row, other)| row.is_same(other))
}

fn is_at(mount: MountId, place: &[u8], row: &MountRow) -> bool
    requires { IsCanonical place.now }
    ensures { result ≡ is_at mount (names_of place.now) row.now }
{
    match &row.mountpoint {
        Some(position) => position.mount == mount && position.place.is_at(place),
        None => false,
    }
}

fn last_of(rows: &[MountRow]) -> Option<MountId>
    ensures { result ≡ option_map (λ row. row.mount) (slice_get rows.now (length rows.now - 1)) }
{
    match rows.last() {
        Some(row) => Some(row.mount),
        None => None,
    }
}

fn is_above(mount: MountId, last: &Option<MountId>) -> bool
    ensures { IsTrue result ↔ (next_of last.now ≤ mount) }
{
    match last {
        Some(last) => *last < mount,
        None => true,
    }
}

/// The mount's row, where it stands at the place of its number. Mounts are numbered from 1 on, so
/// that those below which none was removed do.
fn row_in_place(rows: &[MountRow], mount: MountId) -> Option<&MountRow>
    requires { IsRising rows.now }
    ensures { IfSome result (λ row. mount_row rows.now mount ≡ Some row.now) }
{
    let place = (mount.0 as usize).saturating_sub(1);
    match rows.get(place) {
        Some(row) if row.mount == mount => Some(row),
        Some(_) | None => None,
    }
}

/// The mount's row, where none went of the mounts from it to the newest.
fn row_from_end(rows: &[MountRow], mount: MountId) -> Option<&MountRow>
    requires { IsRising rows.now }
    ensures { IfSome result (λ row. mount_row rows.now mount ≡ Some row.now) }
{
    let newest = rows.last()?;
    let newer = newest.mount.0.saturating_sub(mount.0) as usize;
    let place = (rows.len() - 1).saturating_sub(newer);
    match rows.get(place) {
        Some(row) if row.mount == mount => Some(row),
        Some(_) | None => None,
    }
}

/// The mount's row. The rows rise by number, so that halves of them are left out at a time.
fn row_by_halves(rows: &[MountRow], mount: MountId) -> Option<&MountRow>
    requires { IsRising rows.now }
    ensures { option_copied result ≡ mount_row rows.now mount }
{
    let number = mount.0;
    match rows.binary_search_by_key(&number, |row| row.mount.0) {
        Ok(at) => Some(&rows[at]),
        Err(_) => None,
    }
}

/// The mount's row, which is looked for at its place from the newest, and at that of its number,
/// first.
fn mount_row(rows: &[MountRow], mount: MountId) -> Option<&MountRow>
    requires { IsRising rows.now }
    ensures { option_copied result ≡ mount_row rows.now mount }
{
    if let Some(row) = row_from_end(rows, mount) {
        return Some(row);
    }
    if let Some(row) = row_in_place(rows, mount) {
        return Some(row);
    }
    row_by_halves(rows, mount)
}

/// Whether the mount is mounted at this place of that one.
fn stands_at(rows: &[MountRow], parent: MountId, place: &[u8], mount: MountId) -> bool
    requires rising { IsRising rows.now }
    requires canonical { IsCanonical place.now }
    ensures { result ≡ stands_at rows.now parent (names_of place.now) mount }
{
    match mount_row(rows, mount) {
        Some(row) => is_at(parent, place, row),
        None => false,
    }
}

/// The last of these mounts that is mounted at this place of that one.
fn last_at(rows: &[MountRow], parent: MountId, place: &[u8], mounts: &[MountId]) -> Option<MountId>
    requires rising { IsRising rows.now }
    requires canonical { IsCanonical place.now }
    ensures { result ≡
        last_of (filter (λ m. stands_at rows.now parent (names_of place.now) m) mounts.now) }
{
    let mut left = mounts.len();
    while left > 0 {
        left -= 1;
        let mount = mounts[left];
        if stands_at(rows, parent, place, mount) {
            return Some(mount);
        }
    }
    None
}

/// Whether the child is at a place of this bucket, and mounted at this place of that mount.
fn child_stands_at(
    rows: &[MountRow],
    parent: MountId,
    place: &[u8],
    bucket: u64,
    child: &Child,
) -> bool
    requires rising { IsRising rows.now }
    requires canonical { IsCanonical place.now }
    ensures { result ≡ ((child.now.bucket == bucket) &&
        stands_at rows.now parent (names_of place.now) child.now.mount) }
{
    child.bucket == bucket && stands_at(rows, parent, place, child.mount)
}

/// The last of these mounts that is at a place of this bucket, and mounted at this place of that one.
fn last_of_siblings(
    rows: &[MountRow],
    parent: MountId,
    place: &[u8],
    bucket: u64,
    siblings: &Siblings,
) -> Option<MountId>
    requires rising { IsRising rows.now }
    requires canonical { IsCanonical place.now }
    ensures { result ≡ last_of (filter (λ m. stands_at rows.now parent (names_of place.now) m)
        (placed_of siblings.now.rows bucket)) }
{
    let children = siblings.as_slice();
    let mut left = children.len();
    while left > 0 {
        left -= 1;
        let child = &children[left];
        if child_stands_at(rows, parent, place, bucket, child) {
            return Some(child.mount);
        }
    }
    None
}

/// The mount, if it is at a place of this bucket, and mounted at this place of that one.
fn only_child(
    rows: &[MountRow],
    parent: MountId,
    place: &[u8],
    bucket: u64,
    child: &Child,
) -> Option<MountId>
    requires rising { IsRising rows.now }
    requires canonical { IsCanonical place.now }
    ensures { result ≡ last_of (filter (λ m. stands_at rows.now parent (names_of place.now) m)
        (one_placed (Some child.now) bucket)) }
{
    if child_stands_at(rows, parent, place, bucket, child) {
        Some(child.mount)
    } else {
        None
    }
}

/// The last mount of the family, if there is one, that is at a place of this bucket, and mounted at
/// this place of that one.
fn last_in(
    rows: &[MountRow],
    parent: MountId,
    place: &[u8],
    bucket: u64,
    family: Option<&Family>,
) -> Option<MountId>
    requires rising { IsRising rows.now }
    requires canonical { IsCanonical place.now }
    ensures { result ≡ last_of (filter (λ m. stands_at rows.now parent (names_of place.now) m)
        (placed_found (option_copied family.entry) bucket)) }
{
    match family {
        None | Some(Family::One(None)) => None,
        Some(Family::One(Some(child))) => only_child(rows, parent, place, bucket, child),
        Some(Family::Siblings(siblings)) => last_of_siblings(rows, parent, place, bucket, siblings),
        Some(Family::Many(several)) => last_at(rows, parent, place, several.places.list(bucket)),
    }
}

/// Whether the mount is mounted nowhere.
fn stands_alone(rows: &[MountRow], mount: MountId) -> bool
    requires { IsRising rows.now }
    ensures { result ≡ stands_alone rows.now mount }
{
    match mount_row(rows, mount) {
        Some(row) => row.mountpoint.is_none(),
        None => false,
    }
}

/// The first of these mounts that is mounted nowhere.
fn first_alone(rows: &[MountRow], mounts: &[MountId]) -> Option<MountId>
    requires { IsRising rows.now }
    ensures { result ≡ find (λ m. stands_alone rows.now m) mounts.now }
{
    mounts
        .iter()
        .copied()
        .find(|mount| stands_alone(rows, *mount))
}

/// Takes the rows of these mounts out of the indexes, the last first: the newest mounts stand at
/// the ends of their lists.
fn unlist(rows: &[MountRow], indexes: &mut Indexes, gone: &[MountId])
    requires rising { IsRising rows.now }
    requires indexed { AreIndexed rows.now indexes.old }
    ensures { AreIndexed (filter (λ row. not (is_among gone.now row.mount)) rows.now) indexes.new }
{
    let mut left = gone.len();
    while left > 0 {
        left -= 1;
        if let Some(row) = mount_row(rows, gone[left]) {
            indexes.remove(row);
        }
    }
}

/// The same rows once more.
fn copies(alloc: Global, rows: &[MountRow]) -> Result<Vec<MountRow>, AllocError>
    ensures { IfOk result (λ copies. copies.items ≡ rows.now) }
{
    let mut copies = Vec::with_capacity(alloc, rows.len())?;
    for row in rows {
        copies.push(row.copy(alloc)?)?;
    }
    Ok(copies)
}

impl Tree {
    /// No mount.
    pub fn new(alloc: Global) -> Tree
        ensures { result ≡ [] }
    {
        Tree {
            rows: Rows::new(alloc),
            indexes: Indexes::new(alloc),
        }
    }

    /// Watches the file systems that another one watches.
    fn watch_all(&mut self, other: &Tree) -> Result<(), AllocError>
        ensures { self.new ≡ self.old }
    {
        self.indexes.watch_all(&other.indexes)
    }

    /// The same mounts once more, of which the same are watched.
    pub fn copy(&self, alloc: Global) -> Result<Tree, AllocError>
        ensures { IfOk result (λ copy. copy ≡ self.now) }
    {
        let rows = copies(alloc, self.rows())?;
        let mut copy = Tree::new(alloc);
        copy.watch_all(self)?;
        copy.add_all(rows)?;
        Ok(copy)
    }

    /// Whether both have the same mounts, whichever are watched.
    pub fn is_same(&self, other: &Tree) -> bool
        ensures { IsTrue result ↔ (self.now ≡ other.now) }
    {
        are_same(self.rows(), other.rows())
    }

    /// All rows, in rising order of number.
    pub fn rows(&self) -> &[MountRow]
        ensures rows { result.now ≡ self.now }
        ensures rising { IsRising self.now }
    {
        self.rows.as_slice()
    }

    /// The row of the mount, if it is there.
    pub fn row(&self, mount: MountId) -> Option<&MountRow>
        ensures { option_copied result ≡ mount_row self.now mount }
    {
        mount_row(self.rows.as_slice(), mount)
    }

    /// Whether the numbers of these rows rise, and are above all that are there.
    pub fn can_add(&self, rows: &[MountRow]) -> bool
        ensures { IsTrue result ↔ IsRising (self.now ++ rows.now) }
    {
        let mut last = last_of(self.rows.as_slice());
        for row in rows {
            if !is_above(row.mount, &last) {
                return false;
            }
            last = Some(row.mount);
        }
        true
    }

    /// Adds a mount whose number is above all that are there.
    pub fn add(&mut self, row: MountRow) -> Result<(), AllocError>
        requires { IsRising (self.old ++ row ∷ []) }
        ensures ok { OnOk result (self.new ≡ self.old ++ row ∷ []) }
        ensures err { OnErr result (self.new ≡ self.old) }
    {
        self.rows.reserve(1)?;
        let places = self.indexes.make_room(&row)?;
        self.indexes.add(&row, places);
        self.rows.push_reserved(row);
        Ok(())
    }

    /// Takes the newest mount back.
    fn take_one_back(&mut self)
        ensures { self.new ≡ take (length self.old - 1) self.old }
    {
        if let Some(row) = self.rows.pop() {
            self.indexes.remove(&row);
        }
    }

    /// Adds new mounts, all or none. Their numbers are above all that are there: `can_add` tells.
    pub fn add_all(&mut self, rows: Vec<MountRow>) -> Result<(), AllocError>
        requires { IsRising (self.old ++ rows.items) }
        ensures ok { OnOk result (self.new ≡ self.old ++ rows.items) }
        ensures err { OnErr result (self.new ≡ self.old) }
    {
        let before = self.rows.len();
        for row in rows {
            if let Err(error) = self.add(row) {
                let added = self.rows.len().saturating_sub(before);
                self.take_back(added);
                return Err(error);
            }
        }
        Ok(())
    }

    /// Takes the newest mounts back, so many of them: those that `add` or `add_all` added last, where
    /// a later step of the same operation fails.
    pub fn take_back(&mut self, count: usize)
        ensures { self.new ≡ take (length self.old - count) self.old }
    {
        for _ in 0..count.min(self.rows.len()) {
            self.take_one_back();
        }
    }

    /// Whether the mount is the newest.
    fn is_newest(&self, mount: MountId) -> bool
        ensures newest { OnTrue result
            (option_map (λ row. row.mount) (slice_get self.now (length self.now - 1)) ≡
            Some mount) }
        ensures rising { IsRising self.now }
    {
        last_of(self.rows.as_slice()) == Some(mount)
    }

    /// Removes these mounts from the last of them on, as long as they are the newest. The answer
    /// tells how many of them are left.
    fn take_newest_back(&mut self, gone: &[MountId]) -> usize
        ensures within { result ≤ length gone.now }
        ensures same { filter (λ row. not (is_among (take result gone.now) row.mount)) self.new ≡
            filter (λ row. not (is_among gone.now row.mount)) self.old }
    {
        let mut count = gone.len();
        while count > 0 {
            let before = count - 1;
            if !self.is_newest(gone[before]) {
                return count;
            }
            self.take_one_back();
            count = before;
        }
        count
    }

    /// Removes these mounts, whichever they are.
    fn remove_each(&mut self, gone: &[MountId])
        ensures { self.new ≡ filter (λ row. not (is_among gone.now row.mount)) self.old }
    {
        unlist(self.rows.as_slice(), &mut self.indexes, gone);
        leave_out(&mut self.rows, gone);
    }

    /// Removes these mounts. Of the numbers that are no mount's, nothing comes.
    pub fn remove_all(&mut self, gone: &[MountId])
        ensures { self.new ≡ filter (λ row. not (is_among gone.now row.mount)) self.old }
    {
        let left = self.take_newest_back(gone);
        self.remove_each(&gone[..left]);
    }

    /// The top at a place of the mount: of the mounts there the most recently mounted. The
    /// place is told by its canonical text, as `Place::text` lends it.
    pub fn top(&self, mount: MountId, place: &[u8]) -> Option<MountId>
        requires { IsCanonical place.now }
        ensures exact { result ≡ top_of self.now mount (names_of place.now) }
        ensures greatest { IfSome result (IsTop self.now mount (names_of place.now)) }
        ensures free { IfNone result (HasNoMountAt self.now mount (names_of place.now)) }
    {
        let family = self.indexes.families.family(mount.0);
        last_in(self.rows.as_slice(), mount, place, bucket(place), family)
    }

    /// The root mount of the namespace.
    pub fn root_of(&self, ns: NsId) -> Option<MountId>
        ensures { result ≡ root_of self.now ns }
    {
        first_alone(self.rows.as_slice(), self.indexes.by_ns.list(ns.0 as u64))
    }

    /// Whether a mount is mounted on this one.
    pub fn has_children(&self, mount: MountId) -> bool
        ensures { result ≡ list_any (is_child mount) self.now }
    {
        !self.indexes.families.is_childless(mount.0)
    }

    /// Whether the namespace has mounts.
    pub fn has_mounts(&self, ns: NsId) -> bool
        ensures { result ≡ list_any (is_in ns) self.now }
    {
        !self.indexes.by_ns.list(ns.0 as u64).is_empty()
    }

    /// Watches a file system of which there was no mount yet: `mounts_with` knows its mounts from
    /// now on. Of another nothing comes.
    pub fn watch(&mut self, fs: FsId) -> Result<(), AllocError>
        ensures { self.new ≡ self.old }
    {
        self.indexes.watch(fs)
    }

    /// The mounts that show the file system, in rising order, if it is watched.
    pub fn mounts_with(&self, fs: FsId) -> Option<&[MountId]>
        ensures { IfSome result (λ mounts. mounts.now ≡ mounts_where (has_fs fs) self.now) }
    {
        self.indexes.by_fs.list(fs.0 as u64)
    }

    /// The mounts that are mounted on this one, at any place.
    pub fn children(&self, alloc: Global, mount: MountId) -> Result<Vec<MountId>, AllocError>
        ensures exact { IfOk result (λ v. v.items ≡ mounts_where (is_child mount) self.now) }
        ensures every { IfOk result (λ v. (m : ℕ) →
            Contains v.items m ↔ HasRow (IsOn mount) self.now m) }
        ensures rising { IfOk result (λ v. IsStrictlyIncreasing v.items) }
    {
        self.indexes.families.mounts(alloc, mount.0)
    }

    /// The mounts of the namespace.
    pub fn mounts_of(&self, alloc: Global, ns: NsId) -> Result<Vec<MountId>, AllocError>
        ensures exact { IfOk result (λ v. v.items ≡ mounts_where (is_in ns) self.now) }
        ensures every { IfOk result (λ v. (m : ℕ) →
            Contains v.items m ↔ HasRow (IsIn ns) self.now m) }
        ensures rising { IfOk result (λ v. IsStrictlyIncreasing v.items) }
    {
        Vec::from_slice(alloc, self.indexes.by_ns.list(ns.0 as u64))
    }
}
