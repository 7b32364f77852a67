//! Values by numbers, which are looked up one after another mostly.

ghost use Rattle.std.specs.Prelude.{◌≡◌, ◌<◌, ◌^◌, ◌↔◌, ℕ, nat_eq, None, IsTrue, IfSome, IfNone};
ghost use Rattle.indexmap.specs.IndexMap.{get, IsUnique, index_map_len};
ghost use Rattle.am_index.specs.Near.{StandsAt, IsBeside};

use indexmap::IndexMap;

/// Whether the number's value stands at this place.
fn is_at<V>(values: &IndexMap<u64, V>, place: usize, number: u64) -> bool
    ensures unique { IsUnique nat_eq values.now }
    ensures exact { IsTrue result ↔ StandsAt values.now number place }
{
    match values.as_slice().get_index(place) {
        Some((key, _value)) => *key == number,
        None => false,
    }
}

/// This place or one beside it, at which the number's value stands: values that came one after
/// another are looked up so mostly.
pub fn place_near<V>(values: &IndexMap<u64, V>, here: usize, number: u64) -> Option<usize>
    ensures unique { IfSome result (λ place. IsUnique nat_eq values.now) }
    ensures there { IfSome result (λ place. StandsAt values.now number place) }
    ensures beside { IfSome result (λ place. IsBeside here place) }
    ensures none { IfNone result ((place : ℕ) → place < 2 ^ 64 → IsBeside here place →
        StandsAt values.now number place → ⊥) }
{
    if is_at(values, here, number) {
        return Some(here);
    }
    let before = here.saturating_sub(1);
    if is_at(values, before, number) {
        return Some(before);
    }
    let behind = here.saturating_add(1);
    if is_at(values, behind, number) {
        return Some(behind);
    }
    None
}

/// The place of the number's value, if it has one. This place and those beside it are tried first.
pub fn place_of<V>(values: &IndexMap<u64, V>, here: usize, number: u64) -> Option<usize>
    ensures unique { IsUnique nat_eq values.now }
    ensures within { IfSome result (λ place. place < index_map_len values.now) }
    ensures there { IfSome result (λ place. StandsAt values.now number place) }
    ensures none { IfNone result (get nat_eq values.now number ≡ None) }
{
    if let Some(place) = place_near(values, here, number) {
        return Some(place);
    }
    let place = values.get_index_of(&number)?;
    Some(place)
}
