//! The automount daemon's half: what it is attached to, its book, and a job for each packet.
#![tactic(auto)]

pub mod acts;
pub mod attachments;
mod copies;
pub mod daemon;
pub mod deliveries;
pub mod fault;
mod held;
mod job_table;
mod known;
pub mod packets;
pub mod points;
pub mod recordings;
pub mod served;

pub use daemon::Daemon;
pub use fault::DaemonFault;
pub use known::Known;
pub use served::Point;
