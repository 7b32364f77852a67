//! What the program `automount_cli` does: its words, its streams and its exit status.
#![tactic(auto)]

pub mod args;
mod choices;
mod commands;
mod help;
mod hints;
mod number;
pub mod program;
pub mod reporter;
mod telling;
pub mod topics;

pub use args::{Args, ArgsFault, read_args};
pub use program::{run_program, run_words};
pub use reporter::Reporter;
pub use topics::Topic;
