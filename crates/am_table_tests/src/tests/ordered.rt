//! Ordered maps, call by call.

use am_ordered::OrderedMap;
use std::alloc::{AllocError, Global};

/// One call, with what it answers.
enum Call {
    Insert(u32, u32),
    InsertReserved(u32, u32),
    Remove(u32, Option<u32>),
    RemoveIndex(usize, Option<u32>),
    Get(u32, Option<u32>),
    Clear,
    /// It goes on as a copy of itself.
    Copy,
}

fn go_on_as_copy(alloc: Global, map: &mut OrderedMap<u32, u32>) -> Result<bool, AllocError> {
    let copy = map.copy(alloc)?;
    let is_same = copy.is_same(map);
    *map = copy;
    Ok(is_same)
}

fn answers(alloc: Global, map: &mut OrderedMap<u32, u32>, call: &Call) -> Result<bool, AllocError> {
    match call {
        Call::Insert(key, value) => {
            map.insert(*key, *value)?;
            Ok(true)
        }
        Call::InsertReserved(key, value) => {
            map.reserve(1)?;
            map.insert_reserved(*key, *value);
            Ok(true)
        }
        Call::Remove(key, value) => Ok(map.remove(key) == *value),
        Call::RemoveIndex(index, key) => Ok(map.remove_index(*index).map(|pair| pair.0) == *key),
        Call::Get(key, value) => {
            Ok(map.get(key).copied() == *value && map.contains_key(key) == value.is_some())
        }
        Call::Clear => {
            map.clear();
            Ok(true)
        }
        Call::Copy => go_on_as_copy(alloc, map),
    }
}

fn has_keys(map: &OrderedMap<u32, u32>, keys: &[u32]) -> bool {
    if map.len() != keys.len() {
        return false;
    }
    for (index, key) in keys.iter().enumerate() {
        if map.get_index(index).map(|pair| *pair.0) != Some(*key) {
            return false;
        }
    }
    true
}

static CALLS: [(Call, &[u32]); 22] = [
    (Call::Copy, &[]),
    (Call::Insert(5, 50), &[5]),
    (Call::Insert(3, 30), &[5, 3]),
    (Call::InsertReserved(9, 90), &[5, 3, 9]),
    (Call::Insert(1, 10), &[5, 3, 9, 1]),
    (Call::Insert(3, 31), &[5, 3, 9, 1]),
    (Call::Get(3, Some(31)), &[5, 3, 9, 1]),
    (Call::InsertReserved(5, 51), &[5, 3, 9, 1]),
    (Call::Remove(5, Some(51)), &[3, 9, 1]),
    (Call::Remove(5, None), &[3, 9, 1]),
    (Call::Insert(7, 70), &[3, 9, 1, 7]),
    (Call::Remove(9, Some(90)), &[3, 1, 7]),
    (Call::Copy, &[3, 1, 7]),
    (Call::Insert(5, 52), &[3, 1, 7, 5]),
    (Call::Copy, &[3, 1, 7, 5]),
    (Call::RemoveIndex(1, Some(1)), &[3, 7, 5]),
    (Call::RemoveIndex(2, Some(5)), &[3, 7]),
    (Call::Copy, &[3, 7]),
    (Call::RemoveIndex(2, None), &[3, 7]),
    (Call::Get(5, None), &[3, 7]),
    (Call::Clear, &[]),
    (Call::Insert(5, 53), &[5]),
];

fn all_answer(alloc: Global, map: &mut OrderedMap<u32, u32>) -> Result<bool, AllocError> {
    for (call, keys) in CALLS.iter() {
        if !answers(alloc, map, call)? || !has_keys(map, keys) {
            return Ok(false);
        }
    }
    Ok(true)
}

fn plays(alloc: Global) -> Result<bool, AllocError> {
    let mut map = OrderedMap::new(alloc);
    let all_answer = all_answer(alloc, &mut map);
    drop(map);
    all_answer
}

#[test]
fn keys_stay_in_order_of_insertion(rt: HostRuntime) {
    let played = plays(rt.alloc());
    assert!(rt; matches!(played, Ok(true)));
}
