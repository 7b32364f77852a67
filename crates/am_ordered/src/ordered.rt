//! The map.

ghost use Rattle.std.specs.Prelude.{◌≡◌, ◌≤◌, ◌<◌, ◌+◌, ◌^◌, ◌↔◌, [], length, remove, take, slice_get, is_some, IsSome, IsNone, IsTrue, Some, IfOk, OnOk, OnErr, option_copied};
ghost use Rattle.std.specs.Bool.{Decides};
ghost use Rattle.std.specs.List.{IsDistinct};
ghost use Rattle.std.specs.Map.{keys_of, lookup};
ghost use Rattle.std.specs.Map.Iter.{deref_pair};
ghost use Rattle.std.specs.Option.{option_map};
ghost use Rattle.indexmap.specs.IndexMap.{insert_entry, shift_remove_entry};
ghost use Rattle.am_ordered.specs.Lookup.{IsUpdated};

use crate::order::{index_in_order, rename_last};
use indexmap::IndexMap;
use std::alloc::{AllocError, Global};
use std::collections::VecDeque;
use std::hash::Hash;
use std::marker::Model;

/// A value, with the turn in which its key came.
#[derive(Drop)]
pub struct Slot<V> {
    pub(crate) turn: u64,
    pub(crate) value: V,
}

/// A map in order of insertion. A removal moves one slot and the shorter side of the order, which
/// holds a number for each key.
#[derive(Drop)]
pub struct OrderedMap<K: Eq + Hash, V> {
    // In any order.
    slots: IndexMap<K, Slot<V>>,
    // The places of the slots, in order of insertion, so that their turns rise.
    order: VecDeque<usize>,
    // The turn of the next key.
    next: u64,
}

impl<K: Eq + Hash, V> Model for OrderedMap<K, V> {
    ghost use Rattle.am_ordered.specs.Capacity.{OrderedTable, table_code};

    ghost Value = { OrderedTable K V };

    ghost coded = { table_code K.code V.code };

    ghost use Rattle.am_ordered.specs.View.{table_of, IsOrdered};

    ghost view = { λ m. table_of m.slots m.order };

    // The order lists each slot once, and no key has two.
    ghost invariant = { λ m. IsOrdered K.eq m.slots m.order };
}

impl<K: Eq + Hash, V> OrderedMap<K, V> {
    /// No key.
    pub fn new(alloc: Global) -> OrderedMap<K, V>
        ensures { result.entries ≡ [] }
    {
        OrderedMap {
            slots: IndexMap::new(alloc),
            order: VecDeque::new(alloc),
            next: 0,
        }
    }

    /// How many keys there are.
    pub fn len(&self) -> usize
        ensures exact { result ≡ length self.now.entries }
        ensures bound { result < 2 ^ 63 }
    {
        self.order.len()
    }

    /// The key at this index, in order of insertion, with its value.
    pub fn get_index(&self, index: usize) -> Option<(&K, &V)>
        ensures { option_map deref_pair result ≡ slice_get self.now.entries index }
    {
        let place = self.order.get(index)?;
        let (key, slot) = self.slots.get_index(*place)?;
        Some((key, &slot.value))
    }

    /// The value of the key.
    pub fn get(&self, key: &K) -> Option<&V>
        ensures { option_copied result ≡ lookup (K.eq key.now) self.now.entries }
    {
        let slot = self.slots.get(key)?;
        Some(&slot.value)
    }

    /// Whether the key is there.
    pub fn contains_key(&self, key: &K) -> bool
        ensures { result ≡ is_some (lookup (K.eq key.now) self.now.entries) }
    {
        self.get(key).is_some()
    }

    /// Makes room for so many more keys.
    pub fn reserve(&mut self, count: usize) -> Result<(), AllocError>
        ensures entries { self.new.entries ≡ self.old.entries }
        ensures room { self.old.room ≤ self.new.room }
        ensures ok { OnOk result (count ≤ self.new.room) }
    {
        self.slots.reserve(count)?;
        self.order.reserve(count)
    }

    /// The turn in which the key came.
    fn turn_of(&self, key: &K) -> Option<u64>
        ensures found { is_some result ≡ is_some (lookup (K.eq key.now) self.now.entries) }
        ensures unique { IsDistinct K.eq (keys_of self.now.entries) }
    {
        let slot = self.slots.get(key)?;
        Some(slot.turn)
    }

    /// Writes the key's value, in the place of what was there.
    fn replace(&mut self, turn: u64, key: K, value: V)
    where
        K: Drop,
        V: Drop,
        requires { IsSome (lookup (K.eq key) self.old.entries) }
        ensures entries { self.new.entries ≡ insert_entry K.eq self.old.entries key value }
        ensures room { self.old.room ≤ self.new.room + 1 }
    {
        // The key is there, so that no room is taken.
        let _old = self.slots.insert(key, Slot { turn, value });
    }

    /// A new key goes last.
    fn append(&mut self, key: K, value: V)
    where
        K: Drop,
        V: Drop,
        requires fresh { IsNone (lookup (K.eq key) self.old.entries) }
        requires room { 1 ≤ self.old.room }
        ensures entries { self.new.entries ≡ insert_entry K.eq self.old.entries key value }
        ensures room { self.old.room ≤ self.new.room + 1 }
    {
        let turn = self.next;
        let place = self.slots.len();
        // There is room for it.
        let _none = self.slots.insert(key, Slot { turn, value });
        self.order.push_back_reserved(place);
        self.next = turn.wrapping_add(1);
    }

    /// Gives the key this value: one that is there keeps its index, and a new one goes last. No
    /// memory is taken for one that is there.
    pub fn insert(&mut self, key: K, value: V) -> Result<(), AllocError>
    where
        K: Drop,
        V: Drop,
        ensures ok { OnOk result (self.new.entries ≡ insert_entry K.eq self.old.entries key value) }
        ensures map { OnOk result
            (IsUpdated K.eq key (Some value) self.old.entries self.new.entries) }
        ensures err { OnErr result (self.new.entries ≡ self.old.entries) }
        ensures fresh { OnErr result (IsNone (lookup (K.eq key) self.old.entries)) }
        ensures room { self.old.room ≤ self.new.room + 1 }
        ensures unique { IsDistinct K.eq (keys_of self.old.entries) }
    {
        if let Some(turn) = self.turn_of(&key) {
            self.replace(turn, key, value);
            return Ok(());
        }
        self.reserve(1)?;
        self.append(key, value);
        Ok(())
    }

    /// Gives the key this value as `insert` does, and there is room for it.
    pub fn insert_reserved(&mut self, key: K, value: V)
    where
        K: Drop,
        V: Drop,
        requires { 1 ≤ self.old.room }
        ensures entries { self.new.entries ≡ insert_entry K.eq self.old.entries key value }
        ensures map { IsUpdated K.eq key (Some value) self.old.entries self.new.entries }
        ensures room { self.old.room ≤ self.new.room + 1 }
        ensures unique { IsDistinct K.eq (keys_of self.old.entries) }
    {
        if let Some(turn) = self.turn_of(&key) {
            self.replace(turn, key, value);
            return;
        }
        self.append(key, value);
    }

    /// Takes out the key at this index. Those behind it move up by one, and no memory is taken.
    pub fn remove_index(&mut self, index: usize) -> Option<(K, V)>
        ensures entry { result ≡ slice_get self.old.entries index }
        ensures entries { self.new.entries ≡ remove self.old.entries index }
        ensures room { self.old.room ≤ self.new.room }
        ensures unique { IsDistinct K.eq (keys_of self.old.entries) }
    {
        let place = self.order.remove(index)?;
        let (key, slot) = self.slots.swap_remove_index(place)?;
        rename_last(&self.slots, &mut self.order, place);
        Some((key, slot.value))
    }

    /// Takes out the key. Those behind it move up by one, and no memory is taken.
    pub fn remove(&mut self, key: &K) -> Option<V>
    where
        K: Drop,
        ensures value { result ≡ lookup (K.eq key.now) self.old.entries }
        ensures entries { self.new.entries ≡ shift_remove_entry (K.eq key.now) self.old.entries }
        ensures room { self.old.room ≤ self.new.room }
        ensures unique { IsDistinct K.eq (keys_of self.old.entries) }
    {
        let (place, _, slot) = self.slots.get_full(key)?;
        let index = index_in_order(&self.slots, &self.order, place, slot.turn)?;
        let (_, value) = self.remove_index(index)?;
        Some(value)
    }

    /// Puts the row at this index of another map behind those before it, for which there is room.
    fn copy_row(&mut self, other: &OrderedMap<K, V>, index: usize)
    where
        K: Copy,
        V: Copy,
        requires before { self.old.entries ≡ take index other.now.entries }
        requires unique { IsDistinct K.eq (keys_of other.now.entries) }
        requires room { 1 ≤ self.old.room }
        ensures entries { self.new.entries ≡ take (index + 1) other.now.entries }
        ensures room { self.old.room ≤ self.new.room + 1 }
    {
        if let Some((key, value)) = other.get_index(index) {
            self.append(*key, *value);
        }
    }

    /// The same map once more, with no less room.
    pub fn copy(&self, alloc: Global) -> Result<OrderedMap<K, V>, AllocError>
    where
        K: Copy,
        V: Copy,
        ensures entries { IfOk result (λ copy. copy.entries ≡ self.now.entries) }
        ensures room { IfOk result (λ copy. self.now.room ≤ copy.room) }
    {
        let mut copy = OrderedMap::new(alloc);
        copy.reserve(self.order.capacity())?;
        for index in 0..self.len() {
            copy.copy_row(self, index);
        }
        Ok(copy)
    }

    /// Whether both have the same key with the same value at this index, or both none.
    fn is_same_at(&self, other: &OrderedMap<K, V>, index: usize) -> bool
    where
        V: PartialEq,
        requires keys { (a b : K) → Decides (K.eq a b) (a ≡ b) }
        requires values { (a b : V) → Decides (V.eq a b) (a ≡ b) }
        ensures { IsTrue result
            ↔ (slice_get self.now.entries index ≡ slice_get other.now.entries index) }
    {
        match (self.get_index(index), other.get_index(index)) {
            (Some((key, value)), Some((other_key, other_value))) => {
                *key == *other_key && *value == *other_value
            }
            (None, None) => true,
            (None, Some(_)) | (Some(_), None) => false,
        }
    }

    /// Whether both have the same keys in the same order, each with the same value. Where `==` says
    /// of keys and of values whether they are the same, so does this of maps.
    #[tactic(auto, using(crate::proofs::SameLemmas::one_more_alike))]
    pub fn is_same(&self, other: &OrderedMap<K, V>) -> bool
    where
        V: PartialEq,
        requires keys { (a b : K) → Decides (K.eq a b) (a ≡ b) }
        requires values { (a b : V) → Decides (V.eq a b) (a ≡ b) }
        ensures { IsTrue result ↔ (self.now.entries ≡ other.now.entries) }
    {
        if self.len() != other.len() {
            return false;
        }
        for index in 0..self.len() {
            if !self.is_same_at(other, index) {
                return false;
            }
        }
        true
    }

    /// Takes out every key. No memory is taken.
    pub fn clear(&mut self)
    where
        K: Drop,
        V: Drop,
        ensures entries { self.new.entries ≡ [] }
        ensures room { self.old.room ≤ self.new.room }
    {
        self.slots.clear();
        self.order.clear();
    }
}
