//! Scenes as texts: a script that leads to a world, the threads that go on from there, and what is
//! asked of every order of their events.
#![tactic(auto)]

mod answer_words;
pub mod asked;
pub mod fault;
mod gathered;
mod line;
mod number;
mod question_words;
mod service_words;
pub mod thread_name;
pub mod told;
mod way;

pub use asked::{Asked, Claim};
pub use fault::{SceneFault, SceneFaultKind};
pub use service_words::read_failure;
pub use thread_name::ThreadName;
pub use told::{Told, read_scene};
