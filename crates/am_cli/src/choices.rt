//! Choices, as a word of a command line names them.

ghost use Rattle.std.specs.Prelude.{◌≡◌, ◌<◌, [], ◌∷◌, length, position, IfErr, IfNone, IfOk, IfSome, None, Some};
ghost use Rattle.std.specs.List.{slice_split};
ghost use Rattle.am_mount_lines.specs.Traps.{is_comma};
ghost use Rattle.am_cli.specs.Args.{RefusedFor};
ghost use Rattle.am_cli.specs.Choices.{behind, choice_read, choices_read, prefix_read};

use crate::args::ArgsFault;
use crate::number::read_u32;
use std::alloc::Global;

/// What stands before the first comma, and what stands behind it.
fn cut_at_comma(word: &[u8]) -> Option<(&[u8], &[u8])>
    ensures none { IfNone result (slice_split is_comma word.now ≡ word.now ∷ []) }
    ensures some { IfSome result (λ cut.
        slice_split is_comma word.now ≡ cut.0.now ∷ slice_split is_comma cut.1.now) }
    ensures shorter { IfSome result (λ cut. length cut.1.now < length word.now) }
{
    let at = comma_place(word)?;
    Some((&word[..at], &word[at + 1..]))
}

fn comma_place(word: &[u8]) -> Option<usize>
    ensures { result ≡ position is_comma word.now }
{
    word.iter().position(|b| *b == b',')
}

/// The number of a choice, from 1.
fn read_choice(word: &[u8]) -> Option<u32>
    ensures { result ≡ choice_read word.now }
{
    let number = read_u32(word)?;
    if number == 0 {
        return None;
    }
    Some(number)
}

/// Adds the number of a choice.
fn push_choice(choices: &mut Vec<u32>, word: &[u8]) -> Result<(), ArgsFault>
    ensures read { IfOk result
        (λ _. behind choices.old.items (choice_read word.now) ≡ Some choices.new.items) }
    ensures refused { IfErr result (RefusedFor (choice_read word.now ≡ None)) }
{
    let Some(number) = read_choice(word) else {
        return Err(ArgsFault::Usage);
    };
    match choices.push(number) {
        Ok(()) => Ok(()),
        Err(_) => Err(ArgsFault::NoMemory),
    }
}

/// The numbers of choices, which commas part.
fn read_choices(alloc: Global, word: &[u8]) -> Result<Vec<u32>, ArgsFault>
    ensures read { IfOk result
        (λ choices. choices_read (slice_split is_comma word.now) ≡ Some choices.items) }
    ensures refused { IfErr result
        (RefusedFor (choices_read (slice_split is_comma word.now) ≡ None)) }
{
    let mut choices = Vec::new(alloc);
    let mut left = word;
    while let Some((one, others)) = cut_at_comma(left) {
        if let Err(fault) = push_choice(&mut choices, one) {
            return Err(fault);
        }
        left = others;
    }
    match push_choice(&mut choices, left) {
        Ok(()) => Ok(choices),
        Err(fault) => Err(fault),
    }
}

/// The numbers of the choices that a word has; an empty one has none.
pub(crate) fn read_prefix(alloc: Global, word: &[u8]) -> Result<Vec<u32>, ArgsFault>
    ensures read { IfOk result (λ choices. prefix_read word.now ≡ Some choices.items) }
    ensures refused { IfErr result (RefusedFor (prefix_read word.now ≡ None)) }
{
    if word.is_empty() {
        return Ok(Vec::new(alloc));
    }
    read_choices(alloc, word)
}
