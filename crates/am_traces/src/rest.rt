//! What is left of a line that is read.

ghost use Rattle.std.specs.Prelude.{◌≡◌, ◌==◌, length};
ghost use Rattle.am_traces.specs.Parts.{miss, behind, end_cut, word_cut};

use crate::fault::{Expected, Miss};
use std::marker::Model;

/// The bytes that are left of a line.
#[derive(Drop)]
pub(crate) struct Rest<'a> {
    bytes: &'a [u8],
}

impl<'a> Model for Rest<'a> {
    ghost use Rattle.std.specs.Prelude.{ℕ, List};

    ghost Value = { List ℕ };

    ghost view = { λ r. r.bytes.now };
}

impl<'a> Rest<'a> {
    pub fn of(bytes: &'a [u8]) -> Rest<'a>
        ensures { result ≡ bytes.now }
    {
        Rest { bytes }
    }

    pub fn as_bytes(&self) -> &'a [u8]
        ensures { result.now ≡ self.now }
    {
        self.bytes
    }

    pub fn is_empty(&self) -> bool
        ensures { result ≡ (length self.now == 0) }
    {
        self.bytes.is_empty()
    }

    /// Something else was expected here.
    pub fn miss(&self, expected: Expected) -> Miss
        ensures { result ≡ miss expected self.now }
    {
        Miss {
            left: self.bytes.len(),
            expected,
        }
    }

    /// What stands behind these bytes, if it begins with them.
    pub fn behind(&self, word: &[u8]) -> Option<Rest<'a>>
        ensures { result ≡ behind word.now self.now }
    {
        match self.bytes.strip_prefix(word) {
            Some(bytes) => Some(Rest { bytes }),
            None => None,
        }
    }

    /// What stands behind these bytes, with which it is to begin.
    #[tactic(auto, unfolding(crate::specs::Parts::word_cut))]
    pub fn word(&self, word: &[u8], expected: Expected) -> Result<Rest<'a>, Miss>
        ensures { result ≡ word_cut word.now expected self.now }
    {
        match self.behind(word) {
            Some(rest) => Ok(rest),
            None => Err(self.miss(expected)),
        }
    }

    /// Nothing is to be left.
    #[tactic(auto, unfolding(crate::specs::Parts::end_cut))]
    pub fn end(&self) -> Result<(), Miss>
        ensures { result ≡ end_cut self.now }
    {
        if self.bytes.is_empty() {
            return Ok(());
        }
        Err(self.miss(Expected::End))
    }
}
