//! The words of a line.

ghost use Rattle.std.specs.Prelude.{◌≡◌, map, bytes_eq, position, IfOk};
ghost use Rattle.am_lines.specs.{words_of};
ghost use Rattle.am_mount_lines.specs.Lines.{is_dash, word_at, last_word};

use am_lines::next_word;
use std::alloc::{AllocError, Global};

/// The words of a line.
pub(crate) fn words_in(alloc: Global, line: &[u8]) -> Result<Vec<&[u8]>, AllocError>
    ensures { IfOk result (λ words. map (λ word. word.now) words.items ≡ words_of line.now) }
{
    let mut words = Vec::new(alloc);
    let mut rest = line;
    while let Some((word, behind)) = next_word(rest) {
        words.push(word)?;
        rest = behind;
    }
    Ok(words)
}

pub(crate) fn is_word(word: &[u8], text: &[u8]) -> bool
    ensures { result ≡ bytes_eq word.now text.now }
{
    word == text
}

/// The word at a place, or nothing.
pub(crate) fn word_at<'a>(words: &[&'a [u8]], place: usize) -> &'a [u8]
    ensures { result.now ≡ word_at (map (λ word. word.now) words.now) place }
{
    match words.get(place) {
        Some(word) => word,
        None => &[],
    }
}

/// The last word, or nothing.
pub(crate) fn last_word<'a>(words: &[&'a [u8]]) -> &'a [u8]
    ensures { result.now ≡ last_word (map (λ word. word.now) words.now) }
{
    match words.last() {
        Some(word) => word,
        None => &[],
    }
}

/// Where the word stands that ends the optional fields.
pub(crate) fn dash_place(words: &[&[u8]]) -> Option<usize>
    ensures { result ≡ position is_dash (map (λ word. word.now) words.now) }
{
    words.iter().position(|word| is_word(word, b"-"))
}
