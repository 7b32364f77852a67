//! All ends of a pipe in one hand.

ghost use Rattle.std.specs.Prelude.{◌≡◌, ◌<◌, vec_len, All};

use am_names::{Attach, Token};
use am_pipe::{Note, PutEnd, TakeEnd, gather, pipe};
use std::alloc::{AllocError, Global};
use std::sync::Wait;

/// The ends of one pipe, and none is missing.
#[derive(Drop)]
pub struct Ends {
    pub put: PutEnd,
    pub takers: Vec<TakeEnd>,
    ghost all: { vec_len takers ≡ put.takers },
    ghost one: { All (λ t. t.pipe ≡ put.pipe) takers.items },
}

/// The note of a token.
pub fn note(token: u32) -> Note {
    let [low, ..] = token.to_le_bytes();
    Note {
        token: Token(token),
        attach: Attach(1),
        bytes: [low; 304],
    }
}

/// Whether it is the note of this token at this position.
pub fn is_note(found: &(u64, Note), position: u64, token: u32) -> bool {
    found.0 == position && found.1 == note(token)
}

impl Ends {
    pub fn put<R: Wait>(&mut self, rt: &R, token: u32) -> Result<(), Note> {
        self.put.put(rt, note(token))
    }

    /// Takes from the first take end.
    pub fn take<R: Wait>(&mut self, rt: &R) -> Option<(u64, Note)> {
        self.takers.first_mut()?.take(rt)
    }
}

fn ends_once(alloc: Global, capacity: usize, takers: usize) -> Result<Ends, AllocError>
    requires { (0 < capacity) × (0 < takers) }
{
    let (put, takers) = pipe(alloc, capacity, takers)?;
    Ok(Ends { put, takers })
}

/// A pipe, asked for once more where memory was refused.
pub fn ends_of(alloc: Global, capacity: usize, takers: usize) -> Result<Ends, AllocError>
    requires { (0 < capacity) × (0 < takers) }
{
    match ends_once(alloc, capacity, takers) {
        Ok(ends) => Ok(ends),
        Err(_) => ends_once(alloc, capacity, takers),
    }
}

fn gather_once<R: Wait>(rt: &R, alloc: Global, ends: Ends) -> Result<Vec<(u64, Note)>, Ends> {
    match gather(rt, alloc, ends.put, ends.takers) {
        Ok(left) => Ok(left),
        Err((put, takers)) => Err(Ends { put, takers }),
    }
}

/// What is left, asked for once more where memory was refused: nothing is lost by that.
pub fn left_in<R: Wait>(rt: &R, alloc: Global, ends: Ends) -> Result<Vec<(u64, Note)>, AllocError> {
    match gather_once(rt, alloc, ends) {
        Ok(left) => Ok(left),
        Err(ends) => gather_once(rt, alloc, ends).map_err(|_ends| AllocError),
    }
}
