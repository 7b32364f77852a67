//! Where a line that a reader refuses isn't as expected, and what was expected there.
#![tactic(auto)]

mod columns;
pub mod event;
pub mod expected;
mod fits;
mod head;
pub mod law;
mod map_line;
mod map_words;
mod master_words;
mod misfit;
mod number;
mod parameters;
pub mod script;
mod word;

pub use columns::column;
pub use event::event_slip;
pub use expected::{Expected, Slip};
pub use script::slip_in;
