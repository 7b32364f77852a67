//! A world that is played event by event, and what is asked of it between events.
#![tactic(auto)]

pub mod played;
pub mod slip;

pub use played::{
    Session, begin, kind_at, next_act, no_event, play_line, take_line, tell_answer, tell_seen,
    tell_world, token_awaited,
};
pub use slip::slip_of;
