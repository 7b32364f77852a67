//! The words of a line that has just so many.

ghost use Rattle.std.specs.Prelude.{◌≡◌, ◌∷◌, [], false, IfNone, IfSome};
ghost use Rattle.am_lines.specs.{words_of};
ghost use Rattle.am_script.specs.LineWords.{is_one, are_two, are_three, are_five};

use am_lines::next_word;

/// Five words of a line.
pub(crate) type FiveWords<'a> = (&'a [u8], &'a [u8], &'a [u8], &'a [u8], &'a [u8]);

/// The word of a line, if it has no other.
pub(crate) fn only_word(words: &[u8]) -> Option<&[u8]>
    ensures none { IfNone result (is_one (words_of words.now) ≡ false) }
    ensures some { IfSome result (λ w. words_of words.now ≡ w.now ∷ []) }
{
    let (word, words) = next_word(words)?;
    if let Some(_) = next_word(words) {
        return None;
    }
    Some(word)
}

/// The words of a line, if there are two.
pub(crate) fn two_words(words: &[u8]) -> Option<(&[u8], &[u8])>
    ensures none { IfNone result (are_two (words_of words.now) ≡ false) }
    ensures some { IfSome result (λ w. words_of words.now ≡ w.0.now ∷ w.1.now ∷ []) }
{
    let (first, words) = next_word(words)?;
    let (second, words) = next_word(words)?;
    if let Some(_) = next_word(words) {
        return None;
    }
    Some((first, second))
}

/// The words of a line, if there are three.
pub(crate) fn three_words(words: &[u8]) -> Option<(&[u8], &[u8], &[u8])>
    ensures none { IfNone result (are_three (words_of words.now) ≡ false) }
    ensures some { IfSome result (λ w. words_of words.now ≡ w.0.now ∷ w.1.now ∷ w.2.now ∷ []) }
{
    let (first, words) = next_word(words)?;
    let (second, words) = next_word(words)?;
    let (third, words) = next_word(words)?;
    if let Some(_) = next_word(words) {
        return None;
    }
    Some((first, second, third))
}

/// The words of a line, if there are five.
pub(crate) fn five_words(words: &[u8]) -> Option<FiveWords<'_>>
    ensures none { IfNone result (are_five (words_of words.now) ≡ false) }
    ensures some { IfSome result (λ w. words_of words.now ≡ w.0.now ∷ w.1.now ∷ w.2.now ∷ w.3.now ∷
        w.4.now ∷ []) }
{
    let (first, words) = next_word(words)?;
    let (second, words) = next_word(words)?;
    let (third, words) = next_word(words)?;
    let (fourth, words) = next_word(words)?;
    let (fifth, words) = next_word(words)?;
    if let Some(_) = next_word(words) {
        return None;
    }
    Some((first, second, third, fourth, fifth))
}
