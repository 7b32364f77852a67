//! Maps: which location a key stands for (autofs(5)). A text of lines `key [-options] location`
//! is read whole or not at all, and the first faulty line is told.
#![tactic(auto)]

pub mod entry;
pub mod fault;
pub mod kind;
pub mod map;
pub mod parts;
pub mod words;

pub use entry::Entry;
pub use fault::{MapFault, MapFaultKind};
pub use kind::MapKind;
pub use map::Map;
pub use words::key_text;
