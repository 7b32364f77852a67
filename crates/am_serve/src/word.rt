//! Words that are compared.

ghost use Rattle.std.specs.Prelude.{◌≡◌, bytes_eq};
ghost use Rattle.am_lines.specs.{words_of};
ghost use Rattle.am_script.specs.Sections.{are_only};

use am_lines::next_word;

pub(crate) fn is_word(word: &[u8], text: &[u8]) -> bool
    ensures { result ≡ bytes_eq word.now text.now }
{
    word == text
}

/// Whether this is the only word of the line.
pub(crate) fn is_only(text: &[u8], line: &[u8]) -> bool
    ensures { result ≡ are_only text.now (words_of line.now) }
{
    let Some((word, words)) = next_word(line) else {
        return false;
    };
    if let Some(_) = next_word(words) {
        return false;
    }
    is_word(word, text)
}
