//! What every order of a scene comes to, as its questions ask: a scene is read and explored, and what
//! was found is written.
#![tactic(auto)]

pub mod explore;
mod finding;
pub mod law;
pub mod verdict;

pub use explore::{ExploreFault, explore_scene};
pub use verdict::Verdict;
