//! A script that builds the mounts that lines of a mountinfo tell, as far as events can; each is tried in a world.
//! Nothing is promised of which mounts it builds: whoever plays it sees which do.
#![tactic(auto)]

mod autofs;
mod copies;
mod head;
mod known;
mod order;
pub mod planner;
mod seats;
mod states;
mod targets;

pub use order::plan;
pub use planner::Plan;
