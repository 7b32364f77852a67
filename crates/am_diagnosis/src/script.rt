//! The slip of a fault of a script.

ghost use Rattle.std.specs.Prelude.{◌≡◌, IfOk, IfErr};
ghost use Rattle.std.specs.Option.{option_copied};
ghost use Rattle.am_script.specs.Lines.{lines_in, lines_of};
ghost use Rattle.am_diagnosis.specs.Scripts.{IsJoined, IsPlain, IsSlipIn, lines_at};

use crate::event::{event_slip, slip_of};
use crate::expected::{Expected, Slip};
use crate::head::{part_misfit, section_misfit};
use crate::map_line::{joined_line, map_misfit, master_misfit};
use crate::misfit::misfit_at;
use am_lines::cut_at_line_feed;
use am_script::{ScriptFault, ScriptFaultKind};
use std::alloc::{AllocError, Global};

/// The slip of the fault with which a script stops, in its text. None for a fault that no word has,
/// where the script has no line of that number, and where its line, of another script's fault, is
/// well formed. A line of a map or of the master map may be joined of several by backslashes: its
/// column counts on over the joined line. Only such lines take memory, to join them.
pub fn slip_in(alloc: Global, script: &[u8], fault: ScriptFault) -> Result<Option<Slip>, AllocError>
    ensures slip { IfOk result (IsSlipIn fault.kind (lines_at fault.line (lines_of script.now))) }
    ensures memory { IfErr result (λ _. IsJoined fault.kind) }
{
    match text_at(script, fault.line) {
        Some(text) => slip_at(alloc, fault.kind, text),
        None => Ok(None),
    }
}

/// The text from the line of this number on, from 1.
fn text_at(script: &[u8], number: u64) -> Option<&[u8]>
    ensures { lines_in (option_copied result) ≡ lines_at number (lines_of script.now) }
{
    if number == 0 {
        return None;
    }
    let mut rest = script;
    for _above in 0..number - 1 {
        let (_, below) = cut_at_line_feed(rest);
        let Some(text) = below else {
            return None;
        };
        rest = text;
    }
    Some(rest)
}

/// The slip of a fault at the first line of this text.
fn slip_at(alloc: Global, kind: ScriptFaultKind, text: &[u8]) -> Result<Option<Slip>, AllocError>
    ensures slip { IfOk result (IsSlipIn kind (lines_of text.now)) }
    ensures memory { IfErr result (λ _. IsJoined kind) }
{
    match kind {
        ScriptFaultKind::BadMaster { kind } => {
            let line = joined_line(alloc, text)?;
            Ok(slip_of(&line, master_misfit(kind, &line)))
        }
        ScriptFaultKind::BadMap { kind } => {
            let line = joined_line(alloc, text)?;
            Ok(slip_of(&line, map_misfit(kind, &line)))
        }
        ScriptFaultKind::NoSuchMap => {
            let line = joined_line(alloc, text)?;
            Ok(slip_of(&line, Some(misfit_at(1, Expected::KnownMap))))
        }
        _ => Ok(plain_slip(kind, text)),
    }
}

/// The slip of a fault at the first line of this text, if it isn't one of a map's line.
fn plain_slip(kind: ScriptFaultKind, text: &[u8]) -> Option<Slip>
    requires { IsPlain kind }
    ensures { IsSlipIn kind (lines_of text.now) result }
{
    let (line, below) = cut_at_line_feed(text);
    match kind {
        ScriptFaultKind::BadSection => slip_of(line, Some(section_misfit(line, below))),
        ScriptFaultKind::BadLimits => slip_of(line, part_misfit(line)),
        ScriptFaultKind::BadEvent => event_slip(line),
        ScriptFaultKind::LongLine => Some(Slip {
            column: 8193,
            expected: Expected::End,
        }),
        _ => None,
    }
}
