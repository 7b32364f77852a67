//! The first word of a line that isn't as expected.

ghost use Rattle.std.specs.Prelude.{◌≡◌};
ghost use Rattle.am_lines.specs.{words_of};
ghost use Rattle.am_diagnosis.specs.Misfits.{misfit_at, next_of, behind_outcome, behind_entry, behind_option, left_behind, misfit_of};

use crate::expected::Expected;
use crate::fits::{fits, may_end};
use crate::master_words::takes_next;
use crate::word::is_word;
use am_lines::{begins_with, next_word};

/// Which word of a line isn't as expected.
#[derive(Clone, Copy)]
pub(crate) struct Misfit {
    /// The word, from 0; the number of words where the line ends too early.
    pub place: usize,
    pub expected: Expected,
}

pub(crate) fn misfit_at(place: usize, expected: Expected) -> Misfit
    ensures { result ≡ misfit_at place expected }
{
    Misfit { place, expected }
}

/// What is expected next.
fn next_of(parameters: &[Expected]) -> Expected
    ensures { result ≡ next_of parameters.now }
{
    match parameters {
        [expected, ..] => *expected,
        [] => Expected::End,
    }
}

/// What is expected behind a word that is as expected.
fn left_behind<'a>(word: &[u8], parameters: &'a [Expected]) -> &'a [Expected]
    ensures { result.now ≡ left_behind word.now parameters.now }
{
    match parameters {
        [Expected::Outcome, others @ ..] => behind_outcome(word, others),
        [Expected::Entry, others @ ..] => behind_entry(word, others),
        [Expected::MasterOption, ..] => behind_option(word),
        [Expected::Timeout, ..] => &[Expected::MasterOption],
        [_, others @ ..] => others,
        [] => &[],
    }
}

/// The parameters behind the outcome of an act.
fn behind_outcome<'a>(word: &[u8], others: &'a [Expected]) -> &'a [Expected]
    ensures { result.now ≡ behind_outcome word.now others.now }
{
    if is_word(word, b"ok") { &[] } else { others }
}

/// The parameters behind the first word of an entry: none behind a location.
fn behind_entry<'a>(word: &[u8], others: &'a [Expected]) -> &'a [Expected]
    ensures { result.now ≡ behind_entry word.now others.now }
{
    if begins_with(word, b'-') { others } else { &[] }
}

/// The parameters behind an option of a master map.
fn behind_option(word: &[u8]) -> &'static [Expected]
    ensures { result.now ≡ behind_option word.now }
{
    if takes_next(word) {
        return &[Expected::Timeout];
    }
    &[Expected::MasterOption]
}

/// The first of these words, the first of which is the line's second, that isn't as the parameters
/// say.
pub(crate) fn misfit_of(parameters: &[Expected], words: &[u8]) -> Option<Misfit>
    ensures { result ≡ misfit_of 1 parameters.now (words_of words.now) }
{
    let mut parameters = parameters;
    let mut rest = words;
    let mut place = 1;
    while let Some((word, others)) = next_word(rest) {
        let expected = next_of(parameters);
        if !fits(expected, word) {
            return Some(misfit_at(place, expected));
        }
        parameters = left_behind(word, parameters);
        rest = others;
        place += 1;
    }
    let expected = next_of(parameters);
    if may_end(expected) {
        return None;
    }
    Some(misfit_at(place, expected))
}
