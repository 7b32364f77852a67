//! The model for programs in C: each call that `dalvicna.h` declares.
#![tactic(auto)]

mod buffer;
pub mod entry;
pub mod error;
mod kept;
mod loose;
pub mod master_line;
pub mod packet;
pub mod place;
pub mod request;
pub mod script;
pub mod trace;
pub mod world;
