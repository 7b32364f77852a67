//! The words of a line.

ghost use Rattle.std.specs.Prelude.{◌≡◌, ◌<◌, ◌∷◌, [], ℕ, IfNone, IfSome, length, position};
ghost use Rattle.std.specs.List.{slice_split, before_first, after_first};
ghost use Rattle.am_lines.specs.Words.{is_blank, is_colon, words_of, begins_with, statement_of_words};

/// The first word of a line and what stands behind it, or none where no word is left.
pub fn next_word(line: &[u8]) -> Option<(&[u8], &[u8])>
    ensures none { IfNone result (words_of line.now ≡ []) }
    ensures some { IfSome result (λ cut. words_of line.now ≡ cut.0.now ∷ words_of cut.1.now) }
    ensures shorter { IfSome result (λ cut. length cut.1.now < length line.now) }
{
    let mut rest = line;
    while let Some((word, others)) = cut_at_blank(rest) {
        if !word.is_empty() {
            return Some((word, others));
        }
        rest = others;
    }
    if rest.is_empty() {
        return None;
    }
    Some((rest, &[]))
}

/// The first word of a line that says something, and what stands behind it.
/// None for a line without words, and for a comment, whose first word begins with `#`.
pub fn first_word(line: &[u8]) -> Option<(&[u8], &[u8])>
    ensures none { IfNone result ((n : ℕ) → statement_of_words n (words_of line.now) ≡ []) }
    ensures some { IfSome result (λ cut. (n : ℕ) → statement_of_words n (words_of line.now)
        ≡ record { number = n; first = cut.0.now; others = words_of cut.1.now } ∷ []) }
{
    let (word, others) = next_word(line)?;
    if begins_with(word, b'#') {
        return None;
    }
    Some((word, others))
}

/// Whether the first byte of a word is this one.
pub fn begins_with(word: &[u8], byte: u8) -> bool
    ensures { result ≡ begins_with byte word.now }
{
    match word {
        [first, ..] => *first == byte,
        [] => false,
    }
}

/// What stands before the first colon, and what stands behind it: nothing where there is none.
pub fn cut_at_colon(word: &[u8]) -> (&[u8], &[u8])
    ensures before { result.0.now ≡ before_first is_colon word.now }
    ensures behind { result.1.now ≡ after_first is_colon word.now }
{
    match colon_place(word) {
        Some(at) => (&word[..at], &word[at + 1..]),
        None => (word, &[]),
    }
}

fn colon_place(word: &[u8]) -> Option<usize>
    ensures { result ≡ position is_colon word.now }
{
    word.iter().position(|b| *b == b':')
}

/// What stands before the first blank and what stands behind it.
fn cut_at_blank(line: &[u8]) -> Option<(&[u8], &[u8])>
    ensures none { IfNone result (slice_split is_blank line.now ≡ line.now ∷ []) }
    ensures some { IfSome result (λ cut.
        slice_split is_blank line.now ≡ cut.0.now ∷ slice_split is_blank cut.1.now) }
    ensures shorter { IfSome result (λ cut. length cut.1.now < length line.now) }
{
    let at = blank_place(line)?;
    Some((&line[..at], &line[at + 1..]))
}

fn blank_place(line: &[u8]) -> Option<usize>
    ensures { result ≡ position is_blank line.now }
{
    line.iter().position(|b| *b == b' ' || *b == b'\t')
}
