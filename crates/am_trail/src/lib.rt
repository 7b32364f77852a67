//! A list of which a part was handed on, and the program keeps no word of it.
#![tactic(auto)]

mod trail;

pub use trail::Trail;
