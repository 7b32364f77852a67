//! Lines of the world's text.

ghost use Rattle.std.specs.Prelude.{◌≡◌, ◌↔◌, ◌∷◌, IsTrue, None, true, false, option_copied, IfOk};
ghost use Rattle.am_lines.specs.{words_of};
ghost use Rattle.am_script.specs.{lines_in, lines_of};
ghost use Rattle.am_world.specs.Capacity.{state_of};
ghost use Rattle.am_mountinfo.specs.WorldText.{IsText};
ghost use Rattle.am_explore.specs.WorldLines.{TextHas, has_line, word_fits, words_fit};

use am_lines::{cut_at_line_feed, next_word};
use am_mountinfo::write_world;
use am_world::World;
use std::alloc::{AllocError, Global};

/// Whether the word is the one that is sought; `*` is any.
fn word_fits(sought: &[u8], word: &[u8]) -> bool
    ensures { result ≡ word_fits sought.now word.now }
{
    sought == b"*".as_slice() || sought == word
}

/// Whether these words are those that are sought.
fn words_fit(sought: &[u8], words: &[u8]) -> bool
    ensures { result ≡ words_fit (words_of sought.now) (words_of words.now) }
{
    let mut sought = sought;
    let mut words = words;
    while let Some((one, others)) = next_word(sought) {
        let Some((word, behind)) = next_word(words) else {
            return false;
        };
        if !word_fits(one, word) {
            return false;
        }
        sought = others;
        words = behind;
    }
    next_word(words).is_none()
}

/// The first line of a text, without its line feed, and what stands behind that, if there is one.
fn split_line(text: &[u8]) -> (&[u8], Option<&[u8]>)
    ensures { lines_of text.now ≡ result.0.now ∷ lines_in (option_copied result.1) }
{
    cut_at_line_feed(text)
}

/// Whether a line of the text has the words that are sought.
fn has_line(sought: &[u8], text: &[u8]) -> bool
    ensures { result ≡ has_line sought.now text.now }
{
    let mut rest = Some(text);
    while let Some(here) = rest {
        let (line, below) = split_line(here);
        if words_fit(sought, line) {
            return true;
        }
        rest = below;
    }
    false
}

/// The text of the world, of all its namespaces.
fn text_of(alloc: Global, world: &World) -> Result<Vec<u8>, AllocError>
    ensures { IfOk result (λ text. IsText None (state_of world.now) text.items) }
{
    let mut text = Vec::new(alloc);
    match write_world(alloc, world, None, &mut text) {
        Ok(()) => Ok(text),
        Err(_) => Err(AllocError),
    }
}

/// Whether a line of the world's text has the words of the one that is sought.
fn text_has(alloc: Global, world: &World, sought: &[u8]) -> Result<bool, AllocError>
    ensures { IfOk result (TextHas sought.now (state_of world.now)) }
{
    let text = text_of(alloc, world)?;
    Ok(has_line(sought, text.as_slice()))
}

/// Whether a line of the world's text, as `write_world` writes it of all namespaces, has the words of the one that is
/// sought, of which `*` is any word.
pub(crate) fn shows(alloc: Global, world: &World, sought: &[u8]) -> Result<bool, AllocError>
    ensures { IfOk result
        (λ met. IsTrue met ↔ TextHas sought.now (state_of world.now) true) }
{
    let has = text_has(alloc, world, sought)?;
    Ok(has)
}

/// Whether no line of it has.
pub(crate) fn lacks(alloc: Global, world: &World, sought: &[u8]) -> Result<bool, AllocError>
    ensures { IfOk result
        (λ met. IsTrue met ↔ TextHas sought.now (state_of world.now) false) }
{
    let has = text_has(alloc, world, sought)?;
    Ok(!has)
}
