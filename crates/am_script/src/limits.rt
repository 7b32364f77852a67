//! The limits of a script, and how long its failures last.

ghost use Rattle.std.specs.Prelude.{◌≡◌, IfSome};
ghost use Rattle.am_names.specs.{IsInRange};
ghost use Rattle.am_lines.specs.{words_of};
ghost use Rattle.am_script.specs.Limits.{default_limits, limits_read, negative_read};

use crate::line_words::only_word;
use crate::number::{read_u32, read_u64};
use am_lines::next_word;
use am_names::{Limits, Seconds};

/// The limits of a script that has none.
pub fn default_limits() -> Limits
    ensures limits { result ≡ default_limits }
    ensures range { IsInRange result }
{
    Limits {
        mounts: 1_000_000,
        waiters: 1024,
        tokens: 4_294_967_295,
        negative: Seconds(0),
    }
}

/// The limits of the words behind `limits`.
pub fn read_limits(words: &[u8]) -> Option<Limits>
    ensures limits { result ≡ limits_read (words_of words.now) }
    ensures range { IfSome result IsInRange }
{
    let (mounts, words) = next_word(words)?;
    let (waiters, words) = next_word(words)?;
    let (tokens, words) = next_word(words)?;
    if let Some(_) = next_word(words) {
        return None;
    }
    let limits = Limits {
        mounts: read_u32(mounts)?,
        waiters: read_u32(waiters)?,
        tokens: read_u32(tokens)?,
        negative: Seconds(0),
    };
    if !limits.is_in_range() {
        return None;
    }
    Some(limits)
}

/// How long failures last, by the words behind `negative`.
#[tactic(auto, using(crate::proofs::LineWordsLemmas::no_negative))]
pub fn read_negative(words: &[u8]) -> Option<Seconds>
    ensures { result ≡ negative_read (words_of words.now) }
{
    let seconds = only_word(words)?;
    Some(Seconds(read_u64(seconds)?))
}
