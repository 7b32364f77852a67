//! The master map: which map serves which mount point (auto.master(5)). A text of lines
//! `mount-point map [options]` is read whole or not at all, and the first faulty line is told.
#![tactic(auto)]

pub mod entry;
pub mod fault;
pub mod master;
pub mod point;
mod points;
pub mod timeout;
pub mod words;

pub use entry::MasterEntry;
pub use fault::{MasterFault, MasterFaultKind};
pub use master::Master;
pub use point::Point;
