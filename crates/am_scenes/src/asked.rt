//! What a scene asks.

use am_explore::Question;

/// Which answer to a question is as asked.
#[derive(Clone, Copy, Debug, PartialEq)]
pub enum Claim {
    /// `sometimes`: that there is an order whose end meets the question.
    Sometimes,
    /// `never`: that there is none. `always` is this too, of the question that asks for the opposite: that never does an
    /// order end without such a line.
    Never,
}

/// A question of a scene.
#[derive(Drop)]
pub struct Asked {
    /// The number of its line, from 1.
    pub line: u64,
    pub claim: Claim,
    pub question: Question,
}
