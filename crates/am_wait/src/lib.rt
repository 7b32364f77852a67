//! Tokens and waiters: who waits on which notification until the daemon acknowledges it
//! (autofs.rst, "Communicating with autofs: the event pipe").
#![tactic(auto)]

mod held;
mod keys;
mod openings;
mod seating;
mod seats;
mod tokens;
pub mod waits;

pub use waits::Waits;
