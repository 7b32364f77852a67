//! The world after a script, as /proc/PID/mountinfo tells the mounts of its namespaces (proc(5)).
#![tactic(auto)]

mod attachments;
mod lasting;
pub mod masters;
mod mount_line;
mod namespaces;
mod notes;
pub mod paths;
pub mod peers;
mod residents;
mod tables;
pub mod world_text;

pub use world_text::{world_script, write_world};
