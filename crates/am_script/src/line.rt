//! The lines of a text.

ghost use Rattle.std.specs.Prelude.{◌≡◌, ◌+◌, ◌<◌, ◌≤◌, ◌∷◌, length, IfNone, IfSome, option_copied};
ghost use Rattle.am_lines.specs.{words_of};
ghost use Rattle.am_script.specs.Lines.{lines_of, lines_in, size_in, is_long, are_skipped, EndsNoLine, IsCut};
ghost use Rattle.am_script.specs.Read.{cut_line, cut_kind};

use crate::fault::ScriptFaultKind;
use am_lines::{begins_with, cut_at_line_feed, line_feed_place, next_word};

/// The first line, without its line feed, and what stands behind that, if there is one.
pub fn split_line(text: &[u8]) -> (&[u8], Option<&[u8]>)
    ensures lines { lines_of text.now ≡ result.0.now ∷ lines_in (option_copied result.1) }
    ensures shorter { size_in (option_copied result.1) + length result.0.now ≤ length text.now }
    ensures whole { IfNone result.1 (result.0.now ≡ text.now) }
{
    cut_at_line_feed(text)
}

/// The first line, and what stands behind its line feed, if it has one.
pub fn split_end(text: &[u8]) -> Option<(&[u8], &[u8])>
    ensures none { IfNone result (EndsNoLine text.now) }
    ensures some { IfSome result (λ parts. IsCut text.now parts.0.now parts.1.now) }
{
    let at = line_feed_place(text)?;
    Some((&text[..at], &text[at + 1..]))
}

/// What stands behind the last line feed.
pub fn cut_line(text: &[u8]) -> &[u8]
    ensures line { result.now ≡ cut_line text.now }
    ensures short { length result.now ≤ length text.now }
{
    let mut rest = text;
    while let Some(after) = behind_line(rest) {
        rest = after;
    }
    rest
}

/// What stands behind the first line feed.
fn behind_line(text: &[u8]) -> Option<&[u8]>
    ensures none { IfNone result (cut_line text.now ≡ text.now) }
    ensures some { IfSome result (λ rest. cut_line text.now ≡ cut_line rest.now) }
    ensures shorter { IfSome result (λ rest. length rest.now < length text.now) }
{
    let at = line_feed_place(text)?;
    Some(&text[at + 1..])
}

/// Whether the line has more than 8,192 bytes.
pub fn is_long(line: &[u8]) -> bool
    ensures { result ≡ is_long line.now }
{
    line.len() > 8192
}

/// Whether the line is blank or a comment.
pub fn is_skipped(line: &[u8]) -> bool
    ensures { result ≡ are_skipped (words_of line.now) }
{
    match next_word(line) {
        None => true,
        Some((word, _)) => begins_with(word, b'#'),
    }
}

/// A line that is too long is told before the fault that cuts it.
pub fn cut_kind(cut: &[u8], kind: ScriptFaultKind) -> ScriptFaultKind
    ensures { result ≡ cut_kind cut.now kind }
{
    if is_long(cut) {
        return ScriptFaultKind::LongLine;
    }
    kind
}
