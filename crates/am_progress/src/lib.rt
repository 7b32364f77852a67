//! Nothing is stuck: what kernel and daemon can always do next, as theorems of the machine.
#![tactic(auto)]

pub mod laws;
