//! Mount rows: which mounts there are, where they are mounted, and which is the top at a place.
#![tactic(auto)]

mod among;
mod families;
mod family;
mod few;
mod index;
mod indexes;
mod siblings;
pub mod tree;
mod watched;

pub use tree::Tree;
