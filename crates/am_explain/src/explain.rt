//! What is told below a fault.

ghost use Rattle.std.specs.Prelude.{◌≡◌, ◌<◌, ◌^◌, ◌++◌, ◌&&◌, IfOk, OnOk};
ghost use Rattle.am_lines.specs.{is_joined};
ghost use Rattle.am_script.specs.Lines.{lines_of};
ghost use Rattle.am_explain.specs.Help.{expected_at, first_line, HelpsWith, in_order, IsHelp, is_section_end, may_join, slip_text};

use crate::excerpt::put_place;
use crate::note::{note_of, put_note};
use am_diagnosis::{Expected, Slip, slip_in};
use am_lines::cut_at_line_feed;
use am_recall::Recalled;
use am_script::{ScriptFault, ScriptFaultKind};
use std::alloc::{AllocError, Global};

/// How many lines a script has at most of which a fault is explained.
pub(crate) const MOST_LINES: u64 = 4_611_686_018_427_387_904;

/// What is told below the fault with which a script stops: the line, its column and what was expected
/// there. Nothing where the fault has no place, where its line isn't recalled any more, and where
/// memory runs out.
pub fn help(alloc: Global, recalled: &Recalled, fault: ScriptFault) -> Vec<u8>
    ensures { HelpsWith recalled.now fault result.items }
{
    let Some(text) = recalled.text_from(fault.line) else {
        return Vec::new(alloc);
    };
    match help_from(alloc, text, recalled.is_ended(), fault) {
        Ok(help) => help,
        Err(_) => Vec::new(alloc),
    }
}

/// The same, of the text from the line of the fault on.
fn help_from(
    alloc: Global,
    text: &[u8],
    is_ended: bool,
    fault: ScriptFault,
) -> Result<Vec<u8>, AllocError>
    ensures { IfOk result (λ help. IsHelp is_ended fault (lines_of text.now) help.items) }
{
    let mut help = Vec::new(alloc);
    if MOST_LINES <= fault.line {
        return Ok(help);
    }
    let here = ScriptFault {
        line: 1,
        kind: fault.kind,
    };
    let Some(slip) = slip_in(alloc, text, here)? else {
        return Ok(help);
    };
    put_slip(&mut help, text, is_ended, fault, slip)?;
    Ok(help)
}

/// Puts what is told of a slip behind a text.
fn put_slip(
    help: &mut Vec<u8>,
    text: &[u8],
    is_ended: bool,
    fault: ScriptFault,
    slip: Slip,
) -> Result<(), AllocError>
    requires { fault.line < 2 ^ 62 }
    ensures { OnOk result (help.new.items ≡ help.old.items
        ++ slip_text is_ended fault (lines_of text.now) slip) }
{
    let line = first_line(text);
    let expected = expected_at(is_ended, slip.expected);
    let joined = goes_on(fault.kind, line);
    put_place(help, line, joined, slip.column, expected.words())?;
    let note = note_of(fault.line, text, is_section_end(expected));
    put_note(help, note)
}

pub(crate) fn first_line(text: &[u8]) -> &[u8]
    ensures { result.now ≡ first_line (lines_of text.now) }
{
    let (line, _below) = cut_at_line_feed(text);
    line
}

/// What was expected, where the reader is at its end or not.
fn expected_at(is_ended: bool, expected: Expected) -> Expected
    ensures { result ≡ expected_at is_ended expected }
{
    if is_ended {
        expected
    } else {
        in_order(expected)
    }
}

/// What was expected, where the end of a section may still follow.
fn in_order(expected: Expected) -> Expected
    ensures { result ≡ in_order expected }
{
    match expected {
        Expected::SectionEnd => Expected::Order,
        _ => expected,
    }
}

fn is_section_end(expected: Expected) -> bool
    ensures { result ≡ is_section_end expected }
{
    match expected {
        Expected::SectionEnd => true,
        _ => false,
    }
}

/// Whether the line of such a fault is joined with those below it.
fn goes_on(kind: ScriptFaultKind, line: &[u8]) -> bool
    ensures { result ≡ (may_join kind && is_joined line.now) }
{
    may_join(kind) && is_joined(line)
}

/// Whether the line of such a fault may be joined of several.
fn may_join(kind: ScriptFaultKind) -> bool
    ensures { result ≡ may_join kind }
{
    match kind {
        ScriptFaultKind::BadMaster { .. } => true,
        ScriptFaultKind::BadMap { .. } => true,
        ScriptFaultKind::NoSuchMap => true,
        _ => false,
    }
}

/// Whether the line goes on below.
fn is_joined(line: &[u8]) -> bool
    ensures { result ≡ is_joined line.now }
{
    match line.strip_suffix(b"\\") {
        Some(_) => true,
        None => false,
    }
}
