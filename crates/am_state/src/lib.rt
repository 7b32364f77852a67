//! What the kernel and the daemon keep, row by row, and what is observed of them.
#![tactic(auto)]

pub mod daemon_row;
pub mod kept_packet;
pub mod kept_trigger;
pub mod kernel_row;
pub mod obs;

pub use daemon_row::{HeldRow, KnownRow, Record, RecordRow};
pub use kept_packet::KeptPacket;
pub use kept_trigger::{KeptTrigger, keep_triggers};
pub use kernel_row::QueuedRow;
pub use obs::Obs;
