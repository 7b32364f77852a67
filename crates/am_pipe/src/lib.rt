//! The pipe from the kernel to the workers of the daemon
//! (autofs.rst, "Communicating with autofs: the event pipe"): one end puts notes, several ends take
//! them, and each may be in a thread of its own.
#![tactic(auto)]

mod ends;
mod line;
mod meter;
mod note;
mod rule;

pub use ends::{Closer, PutEnd, TakeEnd, gather, pipe};
pub use note::Note;
