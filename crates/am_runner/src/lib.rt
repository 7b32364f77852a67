//! Walkers, an expirer, workers of a daemon and who breaks it, as threads over one shared world.
#![tactic(auto)]

mod asking;
mod breakers;
mod calls;
mod parts;
mod plan;
mod run;
mod serving;
mod tally;
mod tasks;
mod threads;
mod walkers;
mod workers;

pub use breakers::breaker;
pub use plan::Run;
pub use run::{Ran, run_with};
pub use tally::Tally;
pub use threads::run_threads;
pub use walkers::{expirer, walker};
pub use workers::{Backend, Errand, Gate, daemon_worker};
