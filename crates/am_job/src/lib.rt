//! The daemon's jobs and its book: a plan of acts for each packet, and what is mounted on each
//! trigger.
#![tactic(auto)]

pub mod act;
pub mod book;
pub mod job;
pub mod left;

pub use act::{Act, Outcome};
pub use book::Book;
pub use job::Job;
