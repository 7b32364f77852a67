//! The numbers that share a number.

ghost use Rattle.std.specs.Prelude.{◌≡◌, ◌<◌, ◌==◌, ℕ, false, nat_eq, [], None, Some, IfOk, IfSome, IfNone, OnOk, OnErr};
ghost use Rattle.std.specs.Vec.{vec_len, vec_capacity};
ghost use Rattle.std.specs.List.Sorted.{IsStrictlyIncreasing};
ghost use Rattle.indexmap.specs.IndexMap.{get, IsUnique, index_map_len};
ghost use Rattle.am_index.specs.Lists.{listed, number_at, but, with, HasRoom, ListsRise, SameLists, AddsTo, PutsInto, TakesFrom, DropsLast, Joins, Parts, Drops, KeepsOtherRoom};

use crate::near::place_of;
use indexmap::IndexMap;
use std::alloc::{AllocError, Global};

/// For each number those that have it, in rising order.
#[derive(Drop)]
pub struct Index {
    alloc: Global,
    lists: IndexMap<u64, Vec<u64>>,
    // Where the list stood that was looked up last.
    latest: usize,
}

/// Takes it out of a list that rises, in which it is found by halves.
fn take_out_by_halves(list: &mut Vec<u64>, item: u64)
    requires { IsStrictlyIncreasing list.old.items }
    ensures { list.new.items ≡ but item list.old.items }
{
    if let Ok(at) = list.binary_search(&item) {
        let _item = list.remove(at);
    }
}

/// Takes it out of a list that rises, at whose end the greatest stands.
fn take_out(list: &mut Vec<u64>, item: u64)
    requires { IsStrictlyIncreasing list.old.items }
    ensures { list.new.items ≡ but item list.old.items }
{
    if list.last().copied() == Some(item) {
        let _greatest = list.pop();
        return;
    }
    take_out_by_halves(list, item);
}

/// Puts it at its place of a list that rises, which is found by halves.
fn put_in(list: &mut Vec<u64>, item: u64)
    requires rising { IsStrictlyIncreasing list.old.items }
    requires room { vec_len list.old < vec_capacity list.old }
    ensures { list.new.items ≡ with item list.old.items }
{
    if let Err(at) = list.binary_search(&item) {
        let _put = list.insert(at, item);
    }
}

impl Index {
    /// No number.
    pub fn new(alloc: Global) -> Index
        ensures { (n : ℕ) → listed result n ≡ [] }
    {
        Index {
            alloc,
            lists: IndexMap::new(alloc),
            latest: 0,
        }
    }

    /// The same lists once more.
    #[tactic(auto, using(crate::proofs::CopyLemmas::same_lists))]
    pub fn copy(&self, alloc: Global) -> Result<Index, AllocError>
        ensures { IfOk result (SameLists self.now) }
    {
        Ok(Index {
            alloc,
            lists: self.lists.clone()?,
            latest: self.latest,
        })
    }

    /// Those that have the number.
    pub fn list(&self, number: u64) -> &[u64]
        ensures { result.now ≡ listed self.now number }
    {
        match self.lists.get(&number) {
            Some(list) => list.as_slice(),
            None => &[],
        }
    }

    /// The place of the number's list, if it has one. Those near the list that was looked up last
    /// are tried first.
    fn place_of(&mut self, number: u64) -> Option<usize>
        ensures lists { self.new.lists ≡ self.old.lists }
        ensures unique { IsUnique nat_eq self.new.lists }
        ensures within { IfSome result (λ place. place < index_map_len self.new.lists) }
        ensures there { IfSome result (λ place. number_at self.new place ≡ Some number) }
        ensures none { IfNone result (get nat_eq self.new.lists number ≡ None) }
    {
        let place = place_of(&self.lists, self.latest, number)?;
        self.latest = place;
        Some(place)
    }

    /// Begins the list of a number that has none.
    fn begin(&mut self, number: u64) -> Result<(), AllocError>
        requires { listed self.old number ≡ [] }
        ensures same { SameLists self.old self.new }
        ensures ok { OnOk result (HasRoom self.new number) }
    {
        let mut list = Vec::new(self.alloc);
        list.reserve(1)?;
        let (place, _) = self.lists.insert_full(number, list)?;
        self.latest = place;
        Ok(())
    }

    /// Makes room for one more that has the number.
    pub fn make_room(&mut self, number: u64) -> Result<(), AllocError>
        ensures same { SameLists self.old self.new }
        ensures ok { OnOk result (HasRoom self.new number) }
    {
        let Some(place) = self.place_of(number) else {
            return self.begin(number);
        };
        self.lists[place].reserve(1)?;
        Ok(())
    }

    /// Adds the last that has the number. There is room for it.
    pub fn add(&mut self, number: u64, item: u64)
        requires { HasRoom self.old number }
        ensures { AddsTo (λ n. nat_eq number n) item self.old self.new }
    {
        if let Some(place) = self.place_of(number) {
            self.lists[place].push_reserved(item);
        }
    }

    /// Puts one among those that have the number, whose list rises. There is room for it.
    pub fn put(&mut self, number: u64, item: u64)
        requires rising { IsStrictlyIncreasing (listed self.old number) }
        requires room { HasRoom self.old number }
        ensures { PutsInto (λ n. nat_eq number n) item self.old self.new }
    {
        if let Some(list) = self.lists.get_mut(&number) {
            put_in(list, item);
        }
    }

    /// Takes the last out of the list of the number, where there is one.
    pub fn drop_last(&mut self, number: u64)
        ensures { DropsLast (λ n. nat_eq number n) self.old self.new }
    {
        if let Some(list) = self.lists.get_mut(&number) {
            let _last = list.pop();
        }
    }

    /// Takes out one that has the number, whose list rises. A list that is empty then goes.
    pub fn remove(&mut self, number: u64, item: u64)
        requires { IsStrictlyIncreasing (listed self.old number) }
        ensures { TakesFrom (λ n. nat_eq number n) item self.old self.new }
    {
        let Some(place) = self.place_of(number) else {
            return;
        };
        let list = &mut self.lists[place];
        take_out(list, item);
        if list.is_empty() {
            let _gone = self.lists.swap_remove_index(place);
        }
    }

    /// Takes those that have the one number out of the list of the other, the last first: the
    /// newest stand at the ends of their lists.
    pub fn part(&mut self, from: u64, to: u64)
        requires rising { ListsRise self.old }
        requires others { (to == from) ≡ false }
        ensures { Parts from to self.old self.new }
    {
        let mut left = self.list(from).len();
        while left > 0 {
            left -= 1;
            let item = self.list(from)[left];
            self.remove(to, item);
        }
    }

    /// Puts those that have the one number into the list of the other too. Where there is no room
    /// for one of them, none is in it.
    pub fn join(&mut self, from: u64, to: u64) -> Result<(), AllocError>
        requires rising { ListsRise self.old }
        requires others { (to == from) ≡ false }
        ensures ok { OnOk result (Joins from to self.old self.new) }
        ensures err { OnErr result (Parts from to self.old self.new) }
    {
        let count = self.list(from).len();
        for at in 0..count {
            let item = self.list(from)[at];
            if let Err(error) = self.make_room(to) {
                self.part(from, to);
                return Err(error);
            }
            self.put(to, item);
        }
        Ok(())
    }

    /// Gives the list of the number up.
    pub fn drop_list(&mut self, number: u64)
        ensures lists { Drops number self.old self.new }
        ensures room { KeepsOtherRoom number self.old self.new }
    {
        let _given_up = self.lists.swap_remove(&number);
    }
}
