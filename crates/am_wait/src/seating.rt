//! The key of the wait of each walker, found by hash.

ghost use Rattle.std.specs.Prelude.{ℕ, ◌≡◌, ◌≤◌, ◌<◌, ◌↔◌, [], length, get_or, All, IsTrue, IfOk, OnOk, if◌then◌else◌};
ghost use Rattle.std.specs.Option.{option_map};
ghost use Rattle.slab.specs.Slab.{get};
ghost use Rattle.indexmap.specs.IndexMap.{values};
ghost use Rattle.am_wait.specs.Calls.{failed_row};
ghost use Rattle.am_wait.specs.Seats.{key_of, with_seat, without_seat, among_keys, sits_at, its_wait, HasSameWait};

use crate::seats::{Seat, fail_wait, is_same_wait};
use am_names::{FsId, WaitRow, WalkerId};
use indexmap::IndexMap;
use slab::Slab;
use std::alloc::{AllocError, Global};
use std::marker::Model;

/// The walkers that have a wait, each with the key of it.
#[derive(Debug, Drop)]
pub struct Seating {
    /// The keys by the walkers' numbers, in any order.
    keys: IndexMap<u32, usize>,
}

impl Model for Seating {
    ghost use Rattle.am_wait.specs.Seating.{SeatTable};

    ghost Value = { SeatTable };

    ghost use Rattle.am_wait.specs.Seating.{table_of};

    ghost view = { table_of };
}

/// The wait at each of these keys fails, if it is on a token of the file system and was not
/// released.
fn fail_waits_at(slab: &mut Slab<WaitRow>, keys: &IndexMap<u32, usize>, fs: FsId)
    ensures { (key : ℕ) → get slab.new key ≡ (if among_keys (values keys.now) key
        then option_map (failed_row fs) (get slab.old key) else get slab.old key) }
{
    for key in keys.values() {
        fail_wait(slab, *key, fs);
    }
}

/// Whether the walker has the same wait in both slabs, by its seats.
fn is_same_wait_of(
    walker: WalkerId,
    seats: &Seating,
    slab: &Slab<WaitRow>,
    other: &Seating,
    others: &Slab<WaitRow>,
) -> bool
    ensures { IsTrue result
        ↔ HasSameWait slab.now seats.now.rows others.now other.now.rows walker }
{
    is_same_wait(&seats.wait_in(slab, walker), &other.wait_in(others, walker))
}

/// Whether the walker at this index has the same wait in both slabs, by its seats.
fn is_same_at(
    keys: &IndexMap<u32, usize>,
    seats: &Seating,
    slab: &Slab<WaitRow>,
    other: &Seating,
    others: &Slab<WaitRow>,
    index: usize,
) -> bool
    requires { index < length keys.now.entries }
    ensures { (d : ℕ × ℕ) → IsTrue result ↔ HasSameWait slab.now seats.now.rows others.now
        other.now.rows (get_or keys.now.entries index d).0 }
{
    match keys.get_index(index) {
        Some((walker, _)) => is_same_wait_of(WalkerId(*walker), seats, slab, other, others),
        None => true,
    }
}

/// Whether each walker that has a key has the same wait in both slabs, by its seats.
fn are_same_waits(
    keys: &IndexMap<u32, usize>,
    seats: &Seating,
    slab: &Slab<WaitRow>,
    other: &Seating,
    others: &Slab<WaitRow>,
) -> bool
    ensures { IsTrue result ↔ All (λ entry.
        HasSameWait slab.now seats.now.rows others.now other.now.rows entry.0) keys.now.entries }
{
    for index in 0..keys.len() {
        if !is_same_at(keys, seats, slab, other, others, index) {
            return false;
        }
    }
    true
}

impl Seating {
    /// No walker.
    pub fn new(alloc: Global) -> Seating
        ensures { result.rows ≡ [] }
    {
        Seating {
            keys: IndexMap::new(alloc),
        }
    }

    /// The same seats once more, with no less room.
    pub fn copy(&self) -> Result<Seating, AllocError>
        ensures rows { IfOk result (λ copy. copy.rows ≡ self.now.rows) }
        ensures room { IfOk result (λ copy. self.now.room ≤ copy.room) }
    {
        let mut keys = self.keys.clone()?;
        keys.reserve(self.keys.capacity() - self.keys.len())?;
        Ok(Seating { keys })
    }

    /// How many walkers there are.
    pub fn len(&self) -> usize
        ensures { result ≡ length self.now.rows }
    {
        self.keys.len()
    }

    /// The key of the wait of a walker.
    pub fn key_of(&self, walker: WalkerId) -> Option<usize>
        ensures { result ≡ key_of self.now.rows walker }
    {
        self.keys.get(&walker.0).copied()
    }

    /// The wait of a walker in this slab, by its seat.
    fn wait_in(&self, slab: &Slab<WaitRow>, walker: WalkerId) -> Option<WaitRow>
        ensures { result ≡ its_wait slab.now self.now.rows walker }
    {
        let Some(key) = self.key_of(walker) else {
            return None;
        };
        slab.get(key).copied()
    }

    /// Whether each walker that has a seat has the same wait in the other slab, by its seat there.
    pub fn are_same_waits(
        &self,
        slab: &Slab<WaitRow>,
        other: &Seating,
        others: &Slab<WaitRow>,
    ) -> bool
        ensures { IsTrue result
            ↔ All (λ seat. HasSameWait slab.now self.now.rows others.now other.now.rows seat.walker)
            self.now.rows }
    {
        are_same_waits(&self.keys, self, slab, other, others)
    }

    /// Room for one more walker.
    pub fn reserve(&mut self) -> Result<(), AllocError>
        ensures rows { self.new.rows ≡ self.old.rows }
        ensures room { OnOk result (1 ≤ self.new.room) }
    {
        self.keys.reserve(1)?;
        Ok(())
    }

    /// The walker has this seat.
    pub fn put(&mut self, seat: Seat)
        requires { 1 ≤ self.old.room }
        ensures { self.new.rows ≡ with_seat seat self.old.rows }
    {
        // There is room for it.
        let _put = self.keys.insert(seat.walker.0, seat.key);
    }

    /// The walker has no seat any more.
    pub fn take(&mut self, walker: WalkerId)
        ensures rows { self.new.rows ≡ without_seat walker self.old.rows }
        ensures room { self.old.room ≤ self.new.room }
    {
        let _taken = self.keys.swap_remove(&walker.0);
    }

    /// Each wait on a token of a file system that was not released has the status FAIL.
    pub fn fail_waits_of(&self, slab: &mut Slab<WaitRow>, fs: FsId)
        ensures { (key : ℕ) → get slab.new key ≡ (if sits_at self.now.rows key
            then option_map (failed_row fs) (get slab.old key) else get slab.old key) }
    {
        // For the checker: no walker has two keys.
        let _walkers = self.keys.len();
        fail_waits_at(slab, &self.keys, fs);
    }
}
