//! Entries of a history: each event with its answer.

use crate::answer::Answer;
use crate::event::Event;

/// An event, and what it came to.
#[derive(Drop)]
pub struct Entry {
    pub event: Event,
    pub answer: Answer,
}
