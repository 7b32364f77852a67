//! Whether two maps are the same, entry by entry.

ghost use Rattle.std.specs.Prelude.{◌≡◌, ◌↔◌, slice_get, IsTrue};
ghost use Rattle.std.specs.Bool.{Decides};

use indexmap::IndexMap;
use std::hash::Hash;

/// Whether both have the same key with the same value at this index, or both none.
fn is_same_at<K: Eq + Hash, V: PartialEq>(
    one: &IndexMap<K, V>,
    other: &IndexMap<K, V>,
    index: usize,
) -> bool
    requires keys { (a b : K) → Decides (K.eq a b) (a ≡ b) }
    requires values { (a b : V) → Decides (V.eq a b) (a ≡ b) }
    ensures { IsTrue result
        ↔ (slice_get one.now.entries index ≡ slice_get other.now.entries index) }
{
    match (one.get_index(index), other.get_index(index)) {
        (Some((key, value)), Some((other_key, other_value))) => {
            *key == *other_key && *value == *other_value
        }
        (None, None) => true,
        (None, Some(_)) | (Some(_), None) => false,
    }
}

/// Whether both have the same keys in the same order, each with the same value. Where `==` says of
/// keys and of values whether they are the same, so does this of maps.
#[tactic(auto, using(crate::proofs::SameLemmas::one_more_alike))]
pub fn are_same<K: Eq + Hash, V: PartialEq>(one: &IndexMap<K, V>, other: &IndexMap<K, V>) -> bool
    requires keys { (a b : K) → Decides (K.eq a b) (a ≡ b) }
    requires values { (a b : V) → Decides (V.eq a b) (a ≡ b) }
    ensures { IsTrue result ↔ (one.now.entries ≡ other.now.entries) }
{
    if one.len() != other.len() {
        return false;
    }
    for index in 0..one.len() {
        if !is_same_at(one, other, index) {
            return false;
        }
    }
    true
}
