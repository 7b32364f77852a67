//! The lines of a text, and what tells them apart.

ghost use Rattle.std.specs.Prelude.{◌≡◌, ◌+◌, ◌<◌, ◌≤◌, ◌^◌, ◌∷◌, [], false, length, vec_len, drop, bytes_eq, IfNone, IfSome, option_copied};
ghost use Rattle.am_lines.specs.{words_of};
ghost use Rattle.am_script.specs.LineWords.{is_one};
ghost use Rattle.am_script.specs.Lines.{lines_of, lines_in, is_long, are_skipped};
ghost use Rattle.am_script.specs.Read.{cut_line, played};
ghost use Rattle.am_script.specs.Sections.{are_only};

use am_lines::{begins_with, cut_at_line_feed, line_feed_place, next_word};
use am_script::visit::Input;

pub(crate) fn is_word(word: &[u8], text: &[u8]) -> bool
    ensures { result ≡ bytes_eq word.now text.now }
{
    word == text
}

/// Whether this is the only word of the line.
pub(crate) fn is_only(text: &[u8], line: &[u8]) -> bool
    ensures { result ≡ are_only text.now (words_of line.now) }
{
    let Some((word, words)) = next_word(line) else {
        return false;
    };
    if let Some(_) = next_word(words) {
        return false;
    }
    is_word(word, text)
}

/// The word of a line, if it has no other.
pub(crate) fn only_word(words: &[u8]) -> Option<&[u8]>
    ensures none { IfNone result (is_one (words_of words.now) ≡ false) }
    ensures some { IfSome result (λ w. words_of words.now ≡ w.now ∷ []) }
{
    let (word, words) = next_word(words)?;
    if let Some(_) = next_word(words) {
        return None;
    }
    Some(word)
}

/// Whether the line has more than 8,192 bytes.
pub(crate) fn is_long(line: &[u8]) -> bool
    ensures { result ≡ is_long line.now }
{
    line.len() > 8192
}

/// Whether the line is blank or a comment.
pub(crate) fn is_skipped(line: &[u8]) -> bool
    ensures { result ≡ are_skipped (words_of line.now) }
{
    match next_word(line) {
        None => true,
        Some((word, _)) => begins_with(word, b'#'),
    }
}

/// The first line, without its line feed, and what stands behind that, if there is one.
pub(crate) fn split_line(text: &[u8]) -> (&[u8], Option<&[u8]>)
    ensures { lines_of text.now ≡ result.0.now ∷ lines_in (option_copied result.1) }
{
    cut_at_line_feed(text)
}

/// What stands behind the first line, if there is one.
fn behind_first(rest: Option<&[u8]>) -> Option<&[u8]>
    ensures { lines_in (option_copied result) ≡ drop 1 (lines_in (option_copied rest.entry)) }
{
    split_line(rest?).1
}

/// What stands behind the first so many lines, if something does.
pub(crate) fn behind_lines(text: &[u8], lines: u64) -> Option<&[u8]>
    ensures { lines_in (option_copied result) ≡ drop lines (lines_of text.now) }
{
    let mut rest = Some(text);
    for _ in 0..lines {
        rest = behind_first(rest);
    }
    rest
}

/// How many lines a text has.
pub(crate) fn count_lines(text: &[u8]) -> u64
    requires { length text.now < 2 ^ 62 }
    ensures { result ≡ length (lines_of text.now) }
{
    let mut rest = Some(text);
    let mut number = 0;
    while let Some(here) = rest {
        rest = split_line(here).1;
        number += 1;
    }
    number
}

/// The lines that were read whole: all of them, where the reader came to its end.
pub(crate) fn whole_lines(input: &Input) -> &[u8]
    ensures value { result.now ≡ played input.now.broke input.now.text.items }
    ensures few { length result.now ≤ vec_len input.now.text }
{
    let text = input.text.as_slice();
    match input.broke {
        None => text,
        Some(_) => &text[..text.len() - cut_line(text).len()],
    }
}

/// What stands behind the last line feed.
fn cut_line(text: &[u8]) -> &[u8]
    ensures line { result.now ≡ cut_line text.now }
    ensures short { length result.now ≤ length text.now }
{
    let mut rest = text;
    while let Some(after) = behind_line(rest) {
        rest = after;
    }
    rest
}

/// What stands behind the first line feed.
fn behind_line(text: &[u8]) -> Option<&[u8]>
    ensures none { IfNone result (cut_line text.now ≡ text.now) }
    ensures some { IfSome result (λ rest. cut_line text.now ≡ cut_line rest.now) }
    ensures shorter { IfSome result (λ rest. length rest.now < length text.now) }
{
    let at = line_feed_place(text)?;
    Some(&text[at + 1..])
}
