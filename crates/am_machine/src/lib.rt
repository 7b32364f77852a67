//! Kernel and daemon as one machine: what each event comes to, and what is true of every run.
#![tactic(auto)]

pub mod answer;
pub mod entry;
pub mod event;
pub mod laws;
pub mod packet_bytes;

pub use answer::Answer;
pub use entry::Entry;
pub use event::Event;
pub use packet_bytes::{PacketBytes, keep_bytes};
