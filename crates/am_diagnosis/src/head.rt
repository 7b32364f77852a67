//! Where a line of a head isn't as expected, outside of its sections.

ghost use Rattle.std.specs.Prelude.{◌≡◌, ◌||◌};
ghost use Rattle.std.specs.List.{list_any};
ghost use Rattle.am_lines.specs.{words_of};
ghost use Rattle.am_script.specs.Lines.{lines_in};
ghost use Rattle.std.specs.Option.{option_copied};
ghost use Rattle.am_script.specs.Sections.{is_end};
ghost use Rattle.am_diagnosis.specs.Heads.{begins_with_word, part_misfit, is_section, misplaced, section_misfit};

use crate::expected::Expected;
use crate::misfit::{Misfit, misfit_at, misfit_of};
use crate::parameters::part_parameters;
use crate::word::is_word;
use am_lines::{cut_at_line_feed, next_word};

/// Where the line is no part of a head, wherever it stands.
pub(crate) fn part_misfit(line: &[u8]) -> Option<Misfit>
    ensures { result ≡ part_misfit (words_of line.now) }
{
    let Some((word, words)) = next_word(line) else {
        return Some(misfit_at(0, Expected::Part));
    };
    match part_parameters(word) {
        Some(parameters) => misfit_of(parameters, words),
        None => Some(misfit_at(0, Expected::Part)),
    }
}

/// Where the line, which stands above these, isn't what may stand there in a head.
pub(crate) fn section_misfit(line: &[u8], below: Option<&[u8]>) -> Misfit
    ensures { result ≡ section_misfit (words_of line.now) (lines_in (option_copied below.entry)) }
{
    if begins_with_word(b"limits", line) || begins_with_word(b"negative", line) {
        return misfit_at(0, Expected::Order);
    }
    match part_misfit(line) {
        Some(misfit) => misfit,
        None => misfit_at(0, misplaced(line, below)),
    }
}

/// What was expected in place of a part that can't stand there.
fn misplaced(line: &[u8], below: Option<&[u8]>) -> Expected
    ensures { result ≡ misplaced (words_of line.now) (lines_in (option_copied below.entry)) }
{
    if is_section(line) && !has_end(below) {
        return Expected::SectionEnd;
    }
    Expected::Order
}

/// Whether this is the first word of the line.
fn begins_with_word(text: &[u8], line: &[u8]) -> bool
    ensures { result ≡ begins_with_word text.now (words_of line.now) }
{
    match next_word(line) {
        Some((word, _)) => is_word(word, text),
        None => false,
    }
}

/// Whether the line opens a section.
fn is_section(line: &[u8]) -> bool
    ensures { result ≡ is_section (words_of line.now) }
{
    let Some((word, words)) = next_word(line) else {
        return false;
    };
    let Some((_name, words)) = next_word(words) else {
        return is_word(word, b"master");
    };
    if let Some(_) = next_word(words) {
        return false;
    }
    is_word(word, b"map")
}

/// Whether a line of this text, if there is one, ends a section.
fn has_end(text: Option<&[u8]>) -> bool
    ensures { result ≡ list_any is_end (lines_in (option_copied text.entry)) }
{
    let mut rest = text;
    while let Some(text) = rest {
        let (line, below) = cut_at_line_feed(text);
        if is_end(line) {
            return true;
        }
        rest = below;
    }
    false
}

/// Whether a line of a section ends it.
pub(crate) fn is_end(line: &[u8]) -> bool
    ensures { result ≡ is_end line.now }
{
    is_word(line, b"end")
}
