//! Where a line of a map or a master map isn't as expected.

ghost use Rattle.std.specs.Prelude.{◌≡◌, false, true, drop, IfOk, IfNone, IfSome};
ghost use Rattle.am_lines.specs.{words_of, is_joined, before_backslash};
ghost use Rattle.am_script.specs.Lines.{lines_of};
ghost use Rattle.am_diagnosis.specs.Maps.{joined_in, map_misfit, master_misfit};

use crate::expected::Expected;
use crate::head::is_end;
use crate::misfit::{Misfit, misfit_at, misfit_of};
use am_lines::{cut_at_line_feed, next_word};
use am_map::MapFaultKind;
use am_master::MasterFaultKind;
use std::alloc::{AllocError, Global};

/// The line of a section with which this text begins, joined with those on which it goes on.
pub(crate) fn joined_line(alloc: Global, text: &[u8]) -> Result<Vec<u8>, AllocError>
    ensures { IfOk result (λ line. line.items ≡ joined_in (lines_of text.now)) }
{
    let mut line = Vec::new(alloc);
    let mut rest = Some(text);
    while let Some(text) = rest {
        let (raw, below) = cut_at_line_feed(text);
        if is_end(raw) {
            return Ok(line);
        }
        let Some(front) = before_backslash(raw) else {
            line.extend_from_slice(raw)?;
            return Ok(line);
        };
        line.extend_from_slice(front)?;
        rest = below;
    }
    Ok(line)
}

/// What stands before the backslash at the end of a raw line, if there is one.
fn before_backslash(raw: &[u8]) -> Option<&[u8]>
    ensures none { IfNone result (is_joined raw.now ≡ false) }
    ensures joined { IfSome result (λ front. is_joined raw.now ≡ true) }
    ensures front { IfSome result (λ front. front.now ≡ before_backslash raw.now) }
{
    raw.strip_suffix(b"\\")
}

/// Where the line of a map isn't as expected, that has this fault.
pub(crate) fn map_misfit(kind: MapFaultKind, line: &[u8]) -> Option<Misfit>
    ensures { result ≡ map_misfit kind (words_of line.now) }
{
    match kind {
        MapFaultKind::BadKey => Some(misfit_at(0, Expected::Key)),
        MapFaultKind::NoMemory => None,
        _ => misfit_of(&[Expected::Entry, Expected::Location], behind_first(line)),
    }
}

/// Where the line of a master map isn't as expected, that has this fault.
pub(crate) fn master_misfit(kind: MasterFaultKind, line: &[u8]) -> Option<Misfit>
    ensures { result ≡ master_misfit kind (words_of line.now) }
{
    match kind {
        MasterFaultKind::BadPoint => Some(misfit_at(0, Expected::Point)),
        MasterFaultKind::Twice => Some(misfit_at(0, Expected::FreePoint)),
        MasterFaultKind::NoMemory => None,
        _ => misfit_of(&[Expected::Map, Expected::MasterOption], behind_first(line)),
    }
}

/// What stands behind the first word.
fn behind_first(line: &[u8]) -> &[u8]
    ensures { words_of result.now ≡ drop 1 (words_of line.now) }
{
    match next_word(line) {
        Some((_, words)) => words,
        None => &[],
    }
}
