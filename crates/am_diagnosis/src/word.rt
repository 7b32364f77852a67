//! Words that are compared.

ghost use Rattle.std.specs.Prelude.{◌≡◌, ◌||◌, bytes_eq};

pub(crate) fn is_word(word: &[u8], text: &[u8]) -> bool
    ensures { result ≡ bytes_eq word.now text.now }
{
    word == text
}

/// Whether the word is one of these.
pub(crate) fn is_either(word: &[u8], one: &[u8], other: &[u8]) -> bool
    ensures { result ≡ (bytes_eq word.now one.now || bytes_eq word.now other.now) }
{
    is_word(word, one) || is_word(word, other)
}
