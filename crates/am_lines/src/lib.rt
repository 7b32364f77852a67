//! The lines and words of maps and of the master map (autofs(5), "SUN FORMAT").
//! Joined lines are put together in the caller's buffer; words are borrowed.
#![tactic(auto)]

pub mod digits;
pub mod lines;
pub mod words;

pub use digits::are_digits;
pub use lines::{Remainder, cut_at_line_feed, line_feed_place, next_line};
pub use words::{begins_with, cut_at_colon, first_word, next_word};
