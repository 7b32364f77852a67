//! A world: kernel and daemon as one machine. Events in, answers out, and a trace of what was
//! observed.
#![tactic(auto)]

mod acts;
mod administration;
mod copies;
mod deliveries;
pub mod laws;
mod machine;
mod requests;
mod views;
mod walkers;
pub mod world;

pub use am_daemon::Known;
pub use am_expire::{Use, Uses};
pub use am_job::{Act, Book, Job};
pub use am_kernel::{Attached, WalkRow};
pub use am_machine::{Answer, Event, PacketBytes};
pub use am_state::{HeldRow, KeptPacket, KeptTrigger, Obs, QueuedRow, Record};
pub use am_trigger::{Autofs, Failure, Failures, Triggers};
pub use views::Last;
pub use world::{Ran, World, run};
