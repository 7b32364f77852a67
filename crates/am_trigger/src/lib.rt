//! The mount traps of all autofs file systems: where they are, which directories the daemon made,
//! when each was last used,
//! and what failed last at each.
#![tactic(auto)]

pub mod autofs;
pub mod failures;
mod file_systems;
pub mod triggers;

pub use autofs::{Autofs, place_of};
pub use failures::{Failure, Failures, Lasting};
pub use triggers::Triggers;
