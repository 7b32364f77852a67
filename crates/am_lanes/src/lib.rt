//! The lanes of a picture: who holds which, and whose bars end.
#![tactic(auto)]

mod holder;
mod index;
mod lanes;
pub mod law;

pub use holder::{Ending, Holder, Look, ends};
pub use lanes::Lanes;
pub use law::{bars_are_told, nobody_loses_a_lane};
