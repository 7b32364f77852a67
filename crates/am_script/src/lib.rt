//! The script language: a text is read, its events are played on a world, and a line is
//! written for each answer.
#![tactic(auto)]

mod administrator_line;
pub mod answer_line;
mod daemon_line;
pub mod event_line;
mod event_word;
pub mod fault;
mod head_line;
mod heading;
mod input;
mod limits;
mod line;
mod line_words;
mod maps;
mod number;
pub mod output;
pub mod play;
mod player;
mod reading;
mod section;
mod turn;
pub mod visit;
mod walker_line;

pub use fault::{ScriptFault, ScriptFaultKind};
pub use play::{Summary, play_script, run_script};
pub use turn::Manner;
