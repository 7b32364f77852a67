//! The paths at which file systems were attached, found by their file systems.

ghost use Rattle.std.specs.Prelude.{◌≡◌, ◌<◌, ◌≤◌, ◌+◌, ◌^◌, ◌==◌, ◌↔◌, [], length, map, take, nat_eq, slice_get, None, IsTrue, IfOk, IfSome, OnOk};
ghost use Rattle.std.specs.List.{list_any, IsDistinct};
ghost use Rattle.std.specs.Map.{keys_of, lookup};
ghost use Rattle.std.specs.Option.{option_copied, option_map};
ghost use Rattle.indexmap.specs.IndexMap.{spare};
ghost use Rattle.am_names.specs.{same_names};
ghost use Rattle.am_ordered.specs.{insert_entry, shift_remove_entry};
ghost use Rattle.am_daemon.specs.Attachments.{AreOnce, known_at};
ghost use Rattle.am_daemon.specs.Known.{bucket_of, counted, CountsOneMore, AreCounts};
ghost use Rattle.am_daemon.specs.KnownAt.{known_row};
ghost use Rattle.am_daemon.specs.Points.{path_of};

use am_names::{FsId, Place, bucket};
use am_ordered::OrderedMap;
use indexmap::IndexMap;
use std::alloc::{AllocError, Global};
use std::marker::Model;

/// One path at most of each file system, in order of attaching.
#[derive(Drop)]
pub(crate) struct KnownTable {
    // By the numbers of the file systems.
    places: OrderedMap<u32, Place>,
    // How many of the paths are in each bucket; none has no entry.
    buckets: IndexMap<u64, usize>,
}

impl Model for KnownTable {
    ghost use Rattle.am_ordered.specs.RowTable.{RowTable};
    ghost use Rattle.am_state.specs.{KnownRow};

    ghost Value = { RowTable KnownRow };

    ghost use Rattle.am_daemon.specs.Known.{table_of, IsKnown};

    ghost view = { table_of };

    // No file system is there twice, and each path is counted.
    ghost invariant = { IsKnown };
}

/// Whether the place at this index is this path.
fn is_at_index(places: &OrderedMap<u32, Place>, index: usize, path: &Place) -> bool
    ensures { IfSome (slice_get places.now.entries index) (λ row.
        result ≡ same_names row.1 path.now) }
{
    match places.get_index(index) {
        Some((_, place)) => place.is_same(path),
        None => false,
    }
}

/// Whether any of the places is this path.
fn any_is_at(places: &OrderedMap<u32, Place>, path: &Place) -> bool
    ensures { result ≡ list_any (λ row. same_names row.1 path.now) places.now.entries }
{
    let mut left = places.len();
    while left > 0 {
        left -= 1;
        if is_at_index(places, left, path) {
            return true;
        }
    }
    false
}

/// The bucket of the path.
fn bucket_of(path: &Place) -> u64
    ensures { result ≡ bucket_of path.now }
{
    bucket(path.text())
}

/// How many paths are in the bucket.
fn counted(counts: &IndexMap<u64, usize>, bucket: u64) -> usize
    ensures { result ≡ counted counts.now.entries bucket }
{
    counts.get(&bucket).copied().unwrap_or(0)
}

/// One path more is in the bucket, and there is room to count it.
fn count_up(counts: &mut IndexMap<u64, usize>, bucket: u64)
    requires room { 0 < spare counts.old }
    requires small { counted counts.old.entries bucket < 2 ^ 63 }
    ensures counts { CountsOneMore bucket counts.old.entries counts.new.entries }
    ensures room { spare counts.old ≤ spare counts.new + 1 }
{
    let count = counted(counts, bucket) + 1;
    let _counted = counts.insert(bucket, count);
}

/// One path less is in the bucket.
fn count_down(counts: &mut IndexMap<u64, usize>, bucket: u64)
    requires { 0 < counted counts.old.entries bucket }
    ensures counts { CountsOneMore bucket counts.new.entries counts.old.entries }
    ensures room { spare counts.old ≤ spare counts.new }
{
    let count = counted(counts, bucket);
    if count == 1 {
        let _last = counts.swap_remove(&bucket);
    } else if let Some(others) = counts.get_mut(&bucket) {
        *others = count - 1;
    }
}

/// The path of the file system goes, if it has one.
fn take_out(places: &mut OrderedMap<u32, Place>, counts: &mut IndexMap<u64, usize>, fs: u32)
    requires { AreCounts counts.old.entries places.old.entries }
    ensures entries { places.new.entries ≡ shift_remove_entry (nat_eq fs) places.old.entries }
    ensures unique { IsDistinct nat_eq (keys_of places.old.entries) }
    ensures counts { AreCounts counts.new.entries places.new.entries }
    ensures room { places.old.room ≤ places.new.room }
    ensures counts_room { spare counts.old ≤ spare counts.new }
{
    let Some(path) = places.remove(&fs) else {
        return;
    };
    count_down(counts, bucket_of(&path));
}

/// This path of the file system goes last. There is room for it, and no other one of it.
fn put_in(
    places: &mut OrderedMap<u32, Place>,
    counts: &mut IndexMap<u64, usize>,
    fs: u32,
    path: Place,
)
    requires room { 1 ≤ places.old.room }
    requires counts_room { 0 < spare counts.old }
    requires fresh { lookup (nat_eq fs) places.old.entries ≡ None }
    requires counts { AreCounts counts.old.entries places.old.entries }
    ensures entries { places.new.entries ≡ insert_entry nat_eq places.old.entries fs path }
    ensures counts { AreCounts counts.new.entries places.new.entries }
    ensures room { places.old.room ≤ places.new.room + 1 }
    ensures counts_room { spare counts.old ≤ spare counts.new + 1 }
{
    // For the checker: a count is no greater than the number of paths.
    let _paths = places.len();
    count_up(counts, bucket_of(&path));
    places.insert_reserved(fs, path);
}

/// This row of the others goes behind those before it, for which there is room.
fn copy_row(
    alloc: Global,
    copies: &mut OrderedMap<u32, Place>,
    places: &OrderedMap<u32, Place>,
    index: usize,
) -> Result<(), AllocError>
    requires before { copies.old.entries ≡ take index places.now.entries }
    requires unique { IsDistinct nat_eq (keys_of places.now.entries) }
    requires room { 1 ≤ copies.old.room }
    ensures entries { OnOk result (copies.new.entries ≡ take (index + 1) places.now.entries) }
    ensures room { copies.old.room ≤ copies.new.room + 1 }
{
    let Some((fs, place)) = places.get_index(index) else {
        return Ok(());
    };
    copies.insert_reserved(*fs, place.copy(alloc)?);
    Ok(())
}

/// The same rows once more, with room for so many more.
fn copies_of(
    alloc: Global,
    places: &OrderedMap<u32, Place>,
    room: usize,
) -> Result<OrderedMap<u32, Place>, AllocError>
    requires { IsDistinct nat_eq (keys_of places.now.entries) }
    ensures entries { IfOk result (λ copies. copies.entries ≡ places.now.entries) }
    ensures room { IfOk result (λ copies. room ≤ copies.room) }
{
    let mut copies = OrderedMap::new(alloc);
    copies.reserve(places.len())?;
    for index in 0..places.len() {
        copy_row(alloc, &mut copies, places, index)?;
    }
    copies.reserve(room)?;
    Ok(copies)
}

/// Whether both have the same path of the same file system at this index, or both none.
fn is_same_at(
    places: &OrderedMap<u32, Place>,
    others: &OrderedMap<u32, Place>,
    index: usize,
) -> bool
    ensures { IsTrue result
        ↔ (slice_get places.now.entries index ≡ slice_get others.now.entries index) }
{
    match (places.get_index(index), others.get_index(index)) {
        (Some((fs, place)), Some((other_fs, other_place))) => {
            *fs == *other_fs && place.is_same(other_place)
        }
        (None, None) => true,
        (None, Some(_)) | (Some(_), None) => false,
    }
}

/// Whether these are the same paths of the same file systems, in the same order.
#[tactic(auto, using(am_names::proofs::Basics::one_more_alike))]
fn are_same(places: &OrderedMap<u32, Place>, others: &OrderedMap<u32, Place>) -> bool
    ensures { IsTrue result ↔ (places.now.entries ≡ others.now.entries) }
{
    if places.len() != others.len() {
        return false;
    }
    for index in 0..places.len() {
        if !is_same_at(places, others, index) {
            return false;
        }
    }
    true
}

/// A file system that the daemon was ever attached to, and the path of that.
#[derive(Clone, Copy)]
pub struct Known<'a> {
    pub fs: FsId,
    pub path: &'a Place,
}

impl KnownTable {
    /// No path.
    pub(crate) fn new(alloc: Global) -> KnownTable
        ensures { result.rows ≡ [] }
    {
        KnownTable {
            places: OrderedMap::new(alloc),
            buckets: IndexMap::new(alloc),
        }
    }

    /// The same paths once more, with no less room.
    pub(crate) fn copy(&self, alloc: Global) -> Result<KnownTable, AllocError>
        ensures rows { IfOk result (λ copy. copy.rows ≡ self.now.rows) }
        ensures room { IfOk result (λ copy. self.now.room ≤ copy.room) }
    {
        // No more paths take no memory than there is room for buckets.
        let room = self.buckets.capacity() - self.buckets.len();
        let mut buckets = self.buckets.clone()?;
        buckets.reserve(room)?;
        Ok(KnownTable {
            places: copies_of(alloc, &self.places, room)?,
            buckets,
        })
    }

    /// Whether both have the same paths in the same order.
    pub(crate) fn is_same(&self, other: &KnownTable) -> bool
        ensures { IsTrue result ↔ (self.now.rows ≡ other.now.rows) }
    {
        are_same(&self.places, &other.places)
    }

    /// How many there are.
    pub(crate) fn len(&self) -> usize
        ensures { result ≡ length self.now.rows }
    {
        self.places.len()
    }

    /// The path at this index, in order of attaching, with its file system.
    pub(crate) fn row(&self, index: usize) -> Option<Known<'_>>
        ensures { option_map known_row result ≡ slice_get self.now.rows index }
    {
        let (fs, path) = self.places.get_index(index)?;
        Some(Known {
            fs: FsId(*fs),
            path,
        })
    }

    /// The path of the file system.
    pub(crate) fn path(&self, fs: FsId) -> Option<&Place>
        ensures { option_copied result ≡ path_of self.now.rows fs }
    {
        self.places.get(&fs.0)
    }

    /// Whether the file system has a path. It has one at most.
    pub(crate) fn has(&self, fs: FsId) -> bool
        ensures exact { result ≡ list_any (λ row. row.fs == fs) self.now.rows }
        ensures once { AreOnce (map (λ row. row.fs) self.now.rows) }
    {
        self.places.contains_key(&fs.0)
    }

    /// Whether any file system has this path.
    pub(crate) fn is_at(&self, path: &Place) -> bool
        ensures { result ≡ list_any (λ row. same_names row.path path.now) self.now.rows }
    {
        if counted(&self.buckets, bucket_of(path)) == 0 {
            return false;
        }
        any_is_at(&self.places, path)
    }

    /// Makes room for one more path.
    pub(crate) fn reserve(&mut self) -> Result<(), AllocError>
        ensures rows { self.new.rows ≡ self.old.rows }
        ensures room { self.old.room ≤ self.new.room }
        ensures ok { OnOk result (1 ≤ self.new.room) }
    {
        self.places.reserve(1)?;
        self.buckets.reserve(1)
    }

    /// This path of the file system goes last, and any other one of it goes. There is room for it.
    pub(crate) fn know_reserved(&mut self, fs: FsId, path: Place)
        requires { 1 ≤ self.old.room }
        ensures rows { self.new.rows ≡ known_at fs path self.old.rows }
        ensures room { self.old.room ≤ self.new.room + 1 }
    {
        take_out(&mut self.places, &mut self.buckets, fs.0);
        put_in(&mut self.places, &mut self.buckets, fs.0, path);
    }
}
