//! A world that threads share: each event is one step under a lock, and the history of all of them
//! is that of a single thread.
#![tactic(auto)]

mod bells;
mod caller;
mod chronicle;
mod desk;
mod gathering;
mod keep;
pub mod laws;
mod logbook;
mod matching;
mod notes;
mod opened;
mod opening;
mod parts;
mod shared;

pub use caller::{Caller, Receipt, share};
pub use gathering::{Gathered, gather};
pub use keep::Keep;
pub use logbook::Logbook;
pub use opened::Opened;
pub use opening::Opening;
pub use parts::{Applied, Parts};
pub use shared::{Shared, Taken, Uncalled};
