//! The lines of a text, joined where a backslash stands before a line end.

ghost use Rattle.std.specs.Prelude.{◌≡◌, ◌+◌, ◌≤◌, ℕ, ◌∷◌, [], IfNone, IfSome, IfOk, length, position, false, true};
ghost use Rattle.std.specs.Option.{option_copied};
ghost use Rattle.std.specs.List.{slice_split};
ghost use Rattle.am_lines.specs.Lines.{Line, lines_from, raw_lines_in, is_line_feed, is_joined, before_backslash};
ghost use Rattle.am_lines.specs.Remainder.{lines_behind, raw_lines_behind};

use std::alloc::AllocError;

/// What stands behind a line.
#[derive(Clone, Copy)]
pub struct Remainder<'a> {
    /// How many raw lines the line was made of, at least 1.
    pub raw_lines: usize,
    /// The text behind it; none at the end.
    pub rest: Option<&'a [u8]>,
}

/// Puts the first line of a text into the buffer, joined with the raw lines on which it goes on.
/// What the buffer held goes; out of memory it holds a part of the line.
pub fn next_line<'a>(text: &'a [u8], line: &mut Vec<u8>) -> Result<Remainder<'a>, AllocError>
    ensures ok { IfOk result (λ behind. (n : ℕ) → lines_from n text.now
        ≡ record { number = n; bytes = line.new.items } ∷ lines_behind n behind) }
    ensures counted { IfOk result (λ behind. 1 ≤ behind.raw_lines) }
    ensures raw { IfOk result (λ behind.
        behind.raw_lines + raw_lines_behind behind ≡ raw_lines_in text.now) }
    ensures shorter { IfOk result (λ behind. IfSome behind.rest (λ rest.
        behind.raw_lines + length rest.now ≤ length text.now)) }
{
    line.clear();
    let mut rest = text;
    let mut raw_lines = 0;
    loop {
        let (raw, others) = cut_at_line_feed(rest);
        raw_lines += 1;
        let Some(front) = before_backslash(raw) else {
            line.extend_from_slice(raw)?;
            return Ok(Remainder {
                raw_lines,
                rest: others,
            });
        };
        line.extend_from_slice(front)?;
        let Some(next) = others else {
            return Ok(Remainder {
                raw_lines,
                rest: None,
            });
        };
        rest = next;
    }
}

/// What stands before the backslash at the end of a raw line, if there is one.
fn before_backslash(raw: &[u8]) -> Option<&[u8]>
    ensures none { IfNone result (is_joined raw.now ≡ false) }
    ensures joined { IfSome result (λ front. is_joined raw.now ≡ true) }
    ensures front { IfSome result (λ front. front.now ≡ before_backslash raw.now) }
{
    raw.strip_suffix(b"\\")
}

/// The first raw line, and what stands behind its line feed, if it has one.
pub fn cut_at_line_feed(text: &[u8]) -> (&[u8], Option<&[u8]>)
    ensures last { IfNone result.1 (slice_split is_line_feed text.now ≡ result.0.now ∷ []) }
    ensures cut { IfSome result.1 (λ rest.
        slice_split is_line_feed text.now ≡ result.0.now ∷ slice_split is_line_feed rest.now) }
    ensures whole { IfNone result.1 (result.0.now ≡ text.now) }
    ensures shorter { IfSome result.1 (λ rest.
        1 + length result.0.now + length rest.now ≤ length text.now) }
{
    match line_feed_place(text) {
        Some(at) => (&text[..at], Some(&text[at + 1..])),
        None => (text, None),
    }
}

/// Where the first raw line ends, if a line feed ends it.
pub fn line_feed_place(text: &[u8]) -> Option<usize>
    ensures { result ≡ position is_line_feed text.now }
{
    text.iter().position(|b| *b == b'\n')
}
