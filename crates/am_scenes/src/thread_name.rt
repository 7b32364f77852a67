//! The names of threads.

ghost use Rattle.std.specs.Prelude.{◌≡◌, bytes_eq, IfOk};

use std::alloc::{AllocError, Global};
use std::marker::Model;

/// The name of a thread: a word, of any bytes but blanks and line feeds. Clauses see its bytes.
#[derive(Drop)]
pub struct ThreadName {
    bytes: Vec<u8>,
}

impl Model for ThreadName {
    ghost use Rattle.std.specs.Prelude.{ℕ, List};

    ghost Value = { List ℕ };

    ghost view = { λ n. n.bytes.items };
}

impl ThreadName {
    /// The name that this word is.
    pub(crate) fn of(alloc: Global, word: &[u8]) -> Result<ThreadName, AllocError>
        ensures { IfOk result (λ name. name ≡ word.now) }
    {
        Ok(ThreadName {
            bytes: Vec::from_slice(alloc, word)?,
        })
    }

    /// Its bytes.
    pub fn as_bytes(&self) -> &[u8]
        ensures { result.now ≡ self.now }
    {
        self.bytes.as_slice()
    }

    /// Whether this word is the name.
    pub fn is_named(&self, word: &[u8]) -> bool
        ensures { result ≡ bytes_eq self.now word.now }
    {
        self.as_bytes() == word
    }
}
