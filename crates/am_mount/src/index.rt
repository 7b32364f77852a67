//! The mounts that share a number.

ghost use Rattle.std.specs.Prelude.{◌≡◌, ◌<◌, ℕ, nat_eq, [], Some, IfOk, IfSome, IfNone};
ghost use Rattle.std.specs.Bool.{OnTrue};
ghost use Rattle.std.specs.List.Sorted.{IsStrictlyIncreasing};
ghost use Rattle.indexmap.specs.IndexMap.{IsUnique, index_map_len};
ghost use Rattle.am_mount.specs.Index.{listed, number_at, HasRoom, HasRoomAt, SameLists, AddsTo, TakesFrom};

use crate::few::Few;
use am_index::place_of;
use am_names::MountId;
use indexmap::IndexMap;
use std::alloc::{AllocError, Global};

/// For each number the mounts that have it, in rising order.
#[derive(Drop)]
pub struct Index {
    alloc: Global,
    lists: IndexMap<u64, Few>,
    // Where the list stood that was looked up last.
    latest: usize,
}

impl Index {
    /// No mount.
    pub fn new(alloc: Global) -> Index
        ensures { (n : ℕ) → listed result n ≡ [] }
    {
        Index {
            alloc,
            lists: IndexMap::new(alloc),
            latest: 0,
        }
    }

    /// The mounts that have the number.
    pub fn list(&self, number: u64) -> &[MountId]
        ensures { result.now ≡ listed self.now number }
    {
        match self.lists.get(&number) {
            Some(list) => list.as_slice(),
            None => &[],
        }
    }

    /// Whether no mount is listed.
    pub fn is_empty(&self) -> bool
        ensures { OnTrue result ((n : ℕ) → listed self.now n ≡ []) }
    {
        self.lists.is_empty()
    }

    /// The place of the number's list, if it has one. Those near the list that was looked up last
    /// are tried first.
    fn place_of(&mut self, number: u64) -> Option<usize>
        ensures lists { self.new.lists ≡ self.old.lists }
        ensures unique { IsUnique nat_eq self.new.lists }
        ensures within { IfSome result (λ place. place < index_map_len self.new.lists) }
        ensures there { IfSome result (λ place. number_at self.new place ≡ Some number) }
        ensures none { IfNone result (listed self.new number ≡ []) }
    {
        let place = place_of(&self.lists, self.latest, number)?;
        self.latest = place;
        Some(place)
    }

    /// Begins the list of a number that has none. The answer is the list's place.
    fn begin(&mut self, number: u64) -> Result<usize, AllocError>
        requires { listed self.old number ≡ [] }
        ensures same { SameLists self.old self.new }
        ensures ok { IfOk result (HasRoom self.new number) }
    {
        let (place, _) = self.lists.insert_full(number, Few::Empty)?;
        self.latest = place;
        Ok(place)
    }

    /// Makes room for one more mount that has the number. The answer is the place of its list, at
    /// which it stands until a mount is taken out.
    pub fn make_room(&mut self, number: u64) -> Result<usize, AllocError>
        ensures same { SameLists self.old self.new }
        ensures ok { IfOk result (HasRoom self.new number) }
    {
        let Some(place) = self.place_of(number) else {
            return self.begin(number);
        };
        self.lists[place].make_room(self.alloc)?;
        Ok(place)
    }

    /// Adds a mount to the list at this place, where there is room for it.
    pub fn add(&mut self, place: usize, mount: MountId)
        requires { HasRoomAt self.old place }
        ensures { (n : ℕ) → number_at self.old place ≡ Some n →
            AddsTo (λ k. nat_eq n k) mount self.old self.new }
    {
        if let Some(list) = self.lists.get_index_mut(place) {
            list.push_reserved(mount);
        }
    }

    /// Takes out a mount that has the number, whose list rises. A list that is empty then goes.
    pub fn remove(&mut self, number: u64, mount: MountId)
        requires { IsStrictlyIncreasing (listed self.old number) }
        ensures { TakesFrom (λ n. nat_eq number n) mount self.old self.new }
    {
        let Some(place) = self.place_of(number) else {
            return;
        };
        let list = &mut self.lists[place];
        list.take_out(mount);
        if list.as_slice().is_empty() {
            let _gone = self.lists.swap_remove_index(place);
        }
    }
}
