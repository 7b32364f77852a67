//! What is told below a fault of a scene.

ghost use Rattle.std.specs.Prelude.{◌≡◌, ◌<◌, ◌^◌, ◌++◌, List, ℕ, IfOk, OnOk};
ghost use Rattle.am_recall.specs.Recall.{IsOf};
ghost use Rattle.am_script.specs.Lines.{lines_of};
ghost use Rattle.am_diagnosis.specs.Scripts.{lines_at};
ghost use Rattle.am_explain.specs.SceneHelp.{IsSceneHelp, SceneHelpsWith, scene_slip_text, script_kind};

use crate::excerpt::put_place;
use crate::explain::{MOST_LINES, first_line, help};
use crate::note::{note_of, put_note};
use crate::scene_expected::SceneSlip;
use crate::scene_slip::scene_slip;
use am_recall::Recalled;
use am_scenes::{SceneFault, SceneFaultKind};
use am_script::{ScriptFault, ScriptFaultKind};
use std::alloc::{AllocError, Global};

/// What is told below the fault of a scene: its line, the column and what was expected there. A fault
/// that a script can have, too, is told as a script's. Nothing where the fault has no place, where its
/// line isn't recalled any more, and where memory runs out.
pub fn scene_help(alloc: Global, recalled: &Recalled, fault: SceneFault) -> Vec<u8>
    ensures { SceneHelpsWith recalled.now fault result.items }
{
    match script_kind(fault.kind) {
        Some(kind) => help(
            alloc,
            recalled,
            ScriptFault {
                line: fault.line,
                kind,
            },
        ),
        None => own_help(alloc, recalled, fault),
    }
}

/// The fault of a script that it is, if it is one.
fn script_kind(kind: SceneFaultKind) -> Option<ScriptFaultKind>
    ensures { result ≡ script_kind kind }
{
    match kind {
        SceneFaultKind::Script { kind } => Some(kind),
        _ => None,
    }
}

/// The same below a fault that a scene alone has.
fn own_help(alloc: Global, recalled: &Recalled, fault: SceneFault) -> Vec<u8>
    ensures { (text : List ℕ) → IsOf recalled.now text
        → IsSceneHelp fault (lines_at fault.line (lines_of text)) result.items }
{
    let Some(text) = recalled.text_from(fault.line) else {
        return Vec::new(alloc);
    };
    match own_help_from(alloc, text, fault) {
        Ok(help) => help,
        Err(_) => Vec::new(alloc),
    }
}

/// The same, of the text from the line of the fault on.
fn own_help_from(alloc: Global, text: &[u8], fault: SceneFault) -> Result<Vec<u8>, AllocError>
    ensures { IfOk result (λ help. IsSceneHelp fault (lines_of text.now) help.items) }
{
    let mut help = Vec::new(alloc);
    if MOST_LINES <= fault.line {
        return Ok(help);
    }
    let Some(slip) = scene_slip(fault.kind, text) else {
        return Ok(help);
    };
    put_scene_slip(&mut help, text, fault.line, slip)?;
    Ok(help)
}

/// Puts what is told of a slip at the first line of this text, which has this number, behind a text.
fn put_scene_slip(
    help: &mut Vec<u8>,
    text: &[u8],
    number: u64,
    slip: SceneSlip,
) -> Result<(), AllocError>
    requires { number < 2 ^ 62 }
    ensures { OnOk result (help.new.items ≡ help.old.items
        ++ scene_slip_text number (lines_of text.now) slip) }
{
    put_place(
        help,
        first_line(text),
        false,
        slip.column,
        slip.expected.words(),
    )?;
    let note = note_of(number, text, false);
    put_note(help, note)
}
