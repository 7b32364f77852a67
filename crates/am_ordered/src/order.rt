//! The order of the places: where one stands in it, and what a removal changes.

ghost use Rattle.std.specs.Prelude.{◌≡◌, ◌≤◌, ◌==◌, map, position};
ghost use Rattle.am_ordered.specs.Order.{times, renamed, IsIndexOf};
ghost use Rattle.std.specs.VecDeque.{deque_capacity};
ghost use Rattle.indexmap.specs.IndexMap.{index_map_len};

use crate::ordered::Slot;
use indexmap::IndexMap;
use std::alloc::Global;
use std::collections::VecDeque;
use std::hash::Hash;

/// Whether what is at this place came before that turn.
fn is_before<K: Eq + Hash, V>(slots: &IndexMap<K, Slot<V>>, place: usize, turn: u64) -> bool {
    match slots.get_index(place) {
        Some((_, slot)) => slot.turn < turn,
        None => false,
    }
}

/// Where the place stands in the order, found by looking at each.
fn scanned_index(order: &VecDeque<usize>, place: usize) -> Option<usize>
    ensures { result ≡ position (λ other. other == place) order.now.items }
{
    order.iter().position(|other| *other == place)
}

/// Where the place stands in the order, if what is there has that turn or none is there.
pub(crate) fn index_in_order<K: Eq + Hash, V>(
    slots: &IndexMap<K, Slot<V>>,
    order: &VecDeque<usize>,
    place: usize,
    turn: u64,
) -> Option<usize>
    ensures { IsIndexOf place order.now.items result }
{
    let at = order.partition_point(|other| is_before(slots, *other, turn));
    if order.get(at).copied() == Some(place) {
        return Some(at);
    }
    // Turns begin anew after 2^64 of them.
    scanned_index(order, place)
}

/// What was last among the slots is at this place now: so says the order then.
pub(crate) fn rename_last<K: Eq + Hash, V>(
    slots: &IndexMap<K, Slot<V>>,
    order: &mut VecDeque<usize>,
    place: usize,
)
    requires within { place ≤ index_map_len slots.now }
    requires once { times (index_map_len slots.now) order.old.items ≤ 1 }
    ensures items { order.new.items
        ≡ map (renamed (index_map_len slots.now) place) order.old.items }
    ensures capacity { deque_capacity order.new ≡ deque_capacity order.old }
{
    let last = slots.len();
    let Some((_, slot)) = slots.get_index(place) else {
        return;
    };
    if let Some(at) = index_in_order(slots, order, last, slot.turn) {
        order[at] = place;
    }
}
