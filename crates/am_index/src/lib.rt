//! Numbers by a number that they share: the mounts of a namespace, the members of a peer group, and
//! so on, each found without a look at the others.
#![tactic(auto)]

mod lists;
mod near;

pub use lists::Index;
pub use near::{place_near, place_of};
