//! The lines of a head, up to its world.

ghost use Rattle.std.specs.Prelude.{◌≡◌, ◌≤◌, ◌^◌, IfOk, IfErr};
ghost use Rattle.am_script.specs.Played.{end_of_head};
ghost use Rattle.am_script.specs.Playing.{HeadTaken, HeadStops};

use crate::fault::{ScriptFault, ScriptFaultKind, fault_at};
use crate::heading::Heading;
use crate::play::Summary;
use am_world::World;
use std::alloc::Global;
use std::mem;

/// Takes a line of a head, and begins the world if the head ends with it.
pub(crate) fn take_head_line(
    alloc: Global,
    heading: &mut Heading,
    number: u64,
    line: &[u8],
) -> Result<Option<World>, ScriptFault>
    requires { number ≤ 2 ^ 62 }
    ensures ok { IfOk result (HeadTaken heading.old number line.now heading.new) }
    ensures err { IfErr result (HeadStops heading.old number line.now) }
{
    if !heading.take_line(alloc, number, line)? {
        return Ok(None);
    }
    let whole = mem::replace(heading, Heading::new(alloc));
    let world = whole.begin(alloc, number)?;
    Ok(Some(world))
}

/// The script ends within its head.
pub(crate) fn end_head(
    broke: Option<ScriptFaultKind>,
    section: Option<u64>,
    number: u64,
) -> Result<Summary, ScriptFault>
    ensures { result ≡ end_of_head broke section number }
{
    if let Some(kind) = broke {
        return Err(fault_at(number, kind));
    }
    if let Some(first) = section {
        return Err(fault_at(first, ScriptFaultKind::BadSection));
    }
    Ok(Summary {
        lines: 0,
        refused: 0,
    })
}
