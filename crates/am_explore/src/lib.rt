//! Every order of a scene: what can happen where the events of several threads, and what the daemon
//! does, come in any order.
#![tactic(auto)]

mod answers;
pub mod begun;
pub mod choice;
pub mod laws;
pub mod led;
mod level;
pub mod question;
pub mod scene;
pub mod search;
pub mod standing;
pub mod watch;
mod world_line;
mod worlds;

pub use begun::{Begun, Made, begin, choices, make};
pub use choice::{Choice, Who};
pub use led::{Led, lead};
pub use question::{Question, Sought};
pub use scene::{Scene, Service, Thread};
pub use search::{Found, Seen, Tally, explore, explore_from};
pub use standing::{Heard, Progress};
pub use watch::{Unwatched, Watch};
