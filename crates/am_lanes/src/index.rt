//! Which lane a number has, which lanes are free, and in which the open tokens of a file system
//! stand, each found without a look at the others.

ghost use Rattle.std.specs.Prelude.{◌≡◌, ◌==◌, ◌&&◌, ℕ, true, false, cond, Some, None, OnOk};
ghost use Rattle.std.specs.Ordering.{nat_cmp};
ghost use Rattle.std.specs.BTreeMap.{get};
ghost use Rattle.std.specs.BTreeSet.{contains};
ghost use Rattle.am_lanes.specs.Bars.{is_of, is_in, has_ended};
ghost use Rattle.am_lanes.specs.Inside.{pair_cmp, is_open, IsEmptyIndex, IsWithFree, IsChanged, IsLeast, IsLeastIn};

use crate::holder::{Holder, Look, fs_of, has_ended};
use std::alloc::{AllocError, Global};
use std::collections::{BTreeMap, BTreeSet};

/// The index of a table of lanes.
#[derive(Drop)]
pub struct Index {
    /// The lane of each number.
    pub by_number: BTreeMap<u32, usize>,
    /// The lanes that are free.
    pub free: BTreeSet<usize>,
    /// The file system of each open token, with its lane.
    pub by_fs: BTreeSet<(u32, usize)>,
}

fn put_number(
    by_number: &mut BTreeMap<u32, usize>,
    lane: usize,
    old: &Option<Holder>,
    number: u32,
) -> Result<(), AllocError>
    ensures { OnOk result ((n : ℕ) → get nat_cmp by_number.new n
        ≡ cond (number == n) (Some lane) (cond (is_of n old.now) None (get nat_cmp by_number.old n))) }
{
    if let Some(before) = old {
        let _lane = by_number.remove(&before.number);
    }
    match by_number.insert(number, lane) {
        Ok(_) => Ok(()),
        Err(_) => Err(AllocError),
    }
}

fn put_free(free: &mut BTreeSet<usize>, lane: usize, is_free: bool) -> Result<(), AllocError>
    ensures { OnOk result ((l : ℕ) → contains nat_cmp free.new l
        ≡ cond (lane == l) is_free (contains nat_cmp free.old l)) }
{
    if is_free {
        return match free.insert(lane) {
            Ok(_) => Ok(()),
            Err(_) => Err(AllocError),
        };
    }
    let _there = free.remove(&lane);
    Ok(())
}

fn take_pair(by_fs: &mut BTreeSet<(u32, usize)>, lane: usize, old: &Option<Holder>)
    ensures { (fs l : ℕ) → contains pair_cmp by_fs.new (fs, l)
        ≡ cond (lane == l && is_open fs old.now) false (contains pair_cmp by_fs.old (fs, l)) }
{
    let Some(before) = old else {
        return;
    };
    let Some(fs) = fs_of(before.look) else {
        return;
    };
    let _there = by_fs.remove(&(fs, lane));
}

fn put_pair(by_fs: &mut BTreeSet<(u32, usize)>, lane: usize, look: Look) -> Result<(), AllocError>
    ensures { OnOk result ((fs l : ℕ) → contains pair_cmp by_fs.new (fs, l)
        ≡ cond (lane == l && is_in fs look) true (contains pair_cmp by_fs.old (fs, l))) }
{
    let Some(fs) = fs_of(look) else {
        return Ok(());
    };
    match by_fs.insert((fs, lane)) {
        Ok(_) => Ok(()),
        Err(_) => Err(AllocError),
    }
}

fn put_fs(
    by_fs: &mut BTreeSet<(u32, usize)>,
    lane: usize,
    old: &Option<Holder>,
    look: Look,
) -> Result<(), AllocError>
    ensures { OnOk result ((fs l : ℕ) → contains pair_cmp by_fs.new (fs, l)
        ≡ cond (lane == l && is_in fs look) true
        (cond (lane == l && is_open fs old.now) false (contains pair_cmp by_fs.old (fs, l)))) }
{
    take_pair(by_fs, lane, old);
    put_pair(by_fs, lane, look)
}

impl Index {
    /// There is no lane.
    pub fn new(alloc: Global) -> Index
        ensures { IsEmptyIndex result }
    {
        Index {
            by_number: BTreeMap::new(alloc),
            free: BTreeSet::new(alloc),
            by_fs: BTreeSet::new(alloc),
        }
    }

    /// There is one lane more, which is free.
    pub fn add(&mut self, lane: usize) -> Result<(), AllocError>
        ensures { OnOk result (IsWithFree lane self.old self.new) }
    {
        put_free(&mut self.free, lane, true)
    }

    /// The lane has another holder now. The index is no good where memory runs out.
    pub fn change(
        &mut self,
        lane: usize,
        old: &Option<Holder>,
        new: &Holder,
    ) -> Result<(), AllocError>
        ensures { OnOk result (IsChanged lane old.now new.now self.old self.new) }
    {
        put_number(&mut self.by_number, lane, old, new.number)?;
        put_free(&mut self.free, lane, has_ended(new.look))?;
        put_fs(&mut self.by_fs, lane, old, new.look)
    }

    /// The lane of the number.
    pub fn lane_of(&self, number: u32) -> Option<usize>
        ensures { result ≡ get nat_cmp self.now.by_number number }
    {
        self.by_number.get(&number).copied()
    }

    /// The first free lane.
    pub fn first_free(&self) -> Option<usize>
        ensures { IsLeast self.now.free result }
    {
        self.free.first().copied()
    }

    /// The first lane from this one on in which a token of the file system is open.
    pub fn next_in(&self, fs: u32, from: usize) -> Option<usize>
        ensures { IsLeastIn fs from self.now.by_fs result }
    {
        match self.by_fs.range((fs, from)..=(fs, usize::MAX)).next() {
            Some(pair) => Some(pair.1),
            None => None,
        }
    }
}
