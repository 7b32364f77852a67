//! Who is told how far a search is.

use crate::search::Tally;

/// Who is told how far a search is. What it does changes nothing of what is found.
pub trait Watch {
    /// One state more was looked at; so much was met up to now.
    fn saw(&mut self, tally: &Tally);
}

/// Nobody is told.
#[derive(Clone, Copy, Debug, PartialEq)]
pub struct Unwatched;

impl Watch for Unwatched {
    fn saw(&mut self, _tally: &Tally) {}
}
