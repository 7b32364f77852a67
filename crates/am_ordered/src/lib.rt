//! A map in order of insertion, in which a removal doesn't move the other rows.
#![tactic(auto)]

mod order;
pub mod ordered;
pub mod rows;
mod same;

pub use ordered::OrderedMap;
pub use rows::Rows;
pub use same::are_same;
// A crate can name a map in a contract only if the types of its fields are exported.
#[doc(hidden)]
pub use ordered::Slot;
