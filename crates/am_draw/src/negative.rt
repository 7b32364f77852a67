//! How long failures last, as the head of a script says it.

ghost use Rattle.std.specs.Prelude.{◌≡◌, ◌<◌, ◌≤◌, ◌∷◌, [], length, true, false, option_copied, IfNone, IfSome};
ghost use Rattle.am_lines.specs.{words_of};
ghost use Rattle.am_script.specs.{are_skipped, cut_line, is_limits, is_negative, lines_in, lines_of, negative_read, played, script_of, size_in};
ghost use Rattle.am_script.specs.Numbers.{is_numeral, u64_read};
ghost use Rattle.am_script.specs.LineWords.{is_one};
ghost use Rattle.am_draw.specs.HeadNegative.{said, negative_by, negative_in, LastFor};

use am_lines::{are_digits, begins_with, cut_at_line_feed, line_feed_place, next_word};
use am_names::Seconds;
use am_script::visit::Input;
use std::str;

/// For how many seconds failures last in the world of a script, as its head says.
pub(crate) fn negative_of(input: &Input) -> Seconds
    ensures { LastFor result (script_of input.now.broke input.now.text.items) }
{
    let text = input.text.as_slice();
    match input.broke {
        None => Seconds(negative_in(text)),
        Some(_) => Seconds(negative_in(&text[..text.len() - cut_line(text).len()])),
    }
}

/// So many as the lines of this text say.
fn negative_in(text: &[u8]) -> u64
    ensures { result ≡ negative_in (said (lines_of text.now)) }
{
    let Some((first, behind)) = next_said(Some(text)) else {
        return 0;
    };
    if !is_limits(first) {
        return negative_by(first);
    }
    let Some((second, _)) = next_said(behind) else {
        return 0;
    };
    negative_by(second)
}

/// The first of these lines that isn't skipped, and what stands behind it.
fn next_said<'a>(lines: Option<&'a [u8]>) -> Option<(&'a [u8], Option<&'a [u8]>)>
    ensures none { IfNone result (said (lines_in (option_copied lines.entry)) ≡ []) }
    ensures some { IfSome result (λ next. said (lines_in (option_copied lines.entry))
        ≡ words_of next.0.now ∷ said (lines_in (option_copied next.1))) }
{
    let mut rest = lines;
    while let Some(here) = rest {
        let (line, behind) = split_line(here);
        if !is_skipped(line) {
            return Some((line, behind));
        }
        rest = behind;
    }
    None
}

/// The first line, without its line feed, and what stands behind that, if there is one.
fn split_line(text: &[u8]) -> (&[u8], Option<&[u8]>)
    ensures lines { lines_of text.now ≡ result.0.now ∷ lines_in (option_copied result.1) }
    ensures shorter { size_in (option_copied result.1) ≤ length text.now }
{
    cut_at_line_feed(text)
}

/// Whether the line is blank or a comment.
fn is_skipped(line: &[u8]) -> bool
    ensures { result ≡ are_skipped (words_of line.now) }
{
    match next_word(line) {
        None => true,
        Some((word, _)) => begins_with(word, b'#'),
    }
}

fn is_limits(line: &[u8]) -> bool
    ensures { result ≡ is_limits (words_of line.now) }
{
    match next_word(line) {
        None => false,
        Some((word, _)) => word == b"limits".as_slice(),
    }
}

/// So many as the line says, if it says that.
fn negative_by(line: &[u8]) -> u64
    ensures { result ≡ negative_by (words_of line.now) }
{
    let Some((word, words)) = next_word(line) else {
        return 0;
    };
    if word != b"negative".as_slice() {
        return 0;
    }
    match read_negative(words) {
        None => 0,
        Some(seconds) => seconds,
    }
}

/// The number behind `negative`.
fn read_negative(words: &[u8]) -> Option<u64>
    ensures { result ≡ negative_read (words_of words.now) }
{
    let (word, others) = next_word(words)?;
    if let Some(_) = next_word(others) {
        return None;
    }
    read_number(word)
}

fn read_number(digits: &[u8]) -> Option<u64>
    ensures { result ≡ u64_read digits.now }
{
    numeral(digits)?.parse::<u64>().ok()
}

/// The text of a number without sign or leading zeros.
fn numeral(digits: &[u8]) -> Option<&str>
    ensures none { IfNone result (is_numeral digits.now ≡ false) }
    ensures some { IfSome result (λ text. (is_numeral digits.now ≡ true)
        × (text.now ≡ digits.now)) }
{
    if !is_numeral(digits) {
        return None;
    }
    match str::from_utf8(digits) {
        Ok(text) => Some(text),
        Err(_) => None,
    }
}

fn is_numeral(digits: &[u8]) -> bool
    ensures { result ≡ is_numeral digits.now }
{
    let [first, others @ ..] = digits else {
        return false;
    };
    if !are_digits(digits) {
        return false;
    }
    *first != b'0' || others.is_empty()
}

/// What stands behind the last line feed.
fn cut_line(text: &[u8]) -> &[u8]
    ensures line { result.now ≡ cut_line text.now }
    ensures short { length result.now ≤ length text.now }
{
    let mut rest = text;
    while let Some(behind) = behind_line(rest) {
        rest = behind;
    }
    rest
}

/// What stands behind the first line feed.
fn behind_line(text: &[u8]) -> Option<&[u8]>
    ensures none { IfNone result (cut_line text.now ≡ text.now) }
    ensures some { IfSome result (λ rest. cut_line text.now ≡ cut_line rest.now) }
    ensures shorter { IfSome result (λ rest. length rest.now < length text.now) }
{
    let at = line_feed_place(text)?;
    Some(&text[at + 1..])
}
