//! What happened in a script, as a text to look at.
#![tactic(auto)]

pub mod count;
pub mod event_text;
pub mod obs_text;
pub mod trace;

pub use count::one_more;
pub use event_text::push_event;
pub use obs_text::push_observation;
pub use trace::{TraceStyle, trace_script};
