//! A script for those who play it themselves: its world, and then its events one by one.

ghost use Rattle.std.specs.Prelude.{◌≡◌, ◌+◌, ◌<◌, ◌≤◌, ◌^◌, length, vec_len, option_copied, IfOk, IfErr, IfSome};
ghost use Rattle.am_script.specs.Lines.{lines_of, lines_in, size_in};
ghost use Rattle.am_script.specs.Maps.{opening_read};
ghost use Rattle.am_script.specs.Opened.{OpenedAs, NotOpened, NextOf, NoNext, IsWithin};
ghost use Rattle.am_script.specs.Read.{played, broken};
ghost use Rattle.am_script.specs.Script.{script_from, script_of, events_from, begun_by, head_ends, without_world};

use crate::fault::{ScriptFault, ScriptFaultKind};
use crate::heading::Heading;
pub use crate::input::{Input, read_all, read_at_most};
use crate::line::{cut_kind, cut_line, split_line};
pub use crate::turn::{close, read_line};
use am_world::{Event, World};
use std::alloc::Global;

/// The world that a script begins with, and the lines of its events.
#[derive(Drop)]
pub struct Opened<'a> {
    pub world: World,
    /// What stands behind the line `events`, if something does.
    pub rest: Option<&'a [u8]>,
    /// The number of the line `events`.
    pub line: u64,
    /// The fault behind the last line, where reading broke off.
    pub broke: Option<ScriptFaultKind>,
}

/// An event of a script.
#[derive(Drop)]
pub struct Found<'a> {
    pub event: Event,
    /// The number of its line.
    pub line: u64,
    /// What stands behind its line, if something does.
    pub rest: Option<&'a [u8]>,
}

/// Reads the head of a script, and begins its world. There is none where the script ends within
/// its head.
pub fn open_script<'a>(alloc: Global, input: &'a Input) -> Result<Option<Opened<'a>>, ScriptFault>
    requires { vec_len input.now.text < 2 ^ 62 }
    ensures ok { IfOk result (OpenedAs (broken input.now.broke input.now.text.items)
        (script_of input.now.broke input.now.text.items)) }
    ensures err { IfErr result (NotOpened (length (lines_of
        (played input.now.broke input.now.text.items))) (script_of input.now.broke
        input.now.text.items)) }
{
    let text = input.text.as_slice();
    match input.broke {
        None => open_text(alloc, text, None),
        Some(kind) => {
            let cut = cut_line(text);
            let kind = cut_kind(cut, kind);
            let whole = &text[..text.len() - cut.len()];
            open_text(alloc, whole, Some(kind))
        }
    }
}

fn open_text<'a>(
    alloc: Global,
    text: &'a [u8],
    broke: Option<ScriptFaultKind>,
) -> Result<Option<Opened<'a>>, ScriptFault>
    requires { length text.now < 2 ^ 62 }
    ensures ok { IfOk result (OpenedAs broke (script_from broke (lines_of text.now))) }
    ensures err { IfErr result (NotOpened (length (lines_of text.now))
        (script_from broke (lines_of text.now))) }
{
    let mut heading = Heading::new(alloc);
    let mut rest = Some(text);
    let mut number = 0;
    while let Some(here) = rest {
        let (line, after) = split_line(here);
        number += 1;
        match heading.take_line(alloc, number, line) {
            Ok(false) => rest = after,
            Ok(true) => return begin_behind(alloc, heading, after, number, broke),
            Err(fault) => {
                // It goes by a call, which is cheaper to check.
                drop(heading);
                return Err(fault);
            }
        }
    }
    let fault = head_fault(broke, heading.section(), number);
    drop(heading);
    match fault {
        None => Ok(None),
        Some(fault) => Err(fault),
    }
}

/// Begins the world of a head.
fn begin_behind<'a>(
    alloc: Global,
    heading: Heading,
    rest: Option<&'a [u8]>,
    line: u64,
    broke: Option<ScriptFaultKind>,
) -> Result<Option<Opened<'a>>, ScriptFault>
    requires first { 1 ≤ line }
    requires fits { line + size_in (option_copied rest) ≤ 2 ^ 63 }
    ensures ok { IfOk result (OpenedAs broke (begun_by (opening_read heading.said) line
        (events_from broke line (lines_in (option_copied rest.entry))))) }
    ensures err { IfErr result (NotOpened line (begun_by (opening_read heading.said) line
        (events_from broke line (lines_in (option_copied rest.entry))))) }
{
    match heading.begin(alloc, line) {
        Ok(world) => Ok(Some(Opened {
            world,
            rest,
            line,
            broke,
        })),
        Err(fault) => Err(fault),
    }
}

/// The fault of a script that ends within its head, if it is one.
fn head_fault(
    broke: Option<ScriptFaultKind>,
    section: Option<u64>,
    number: u64,
) -> Option<ScriptFault>
    ensures { head_ends broke section number ≡ without_world result }
{
    if let Some(kind) = broke {
        return Some(ScriptFault { line: number, kind });
    }
    let first = section?;
    Some(ScriptFault {
        line: first,
        kind: ScriptFaultKind::BadSection,
    })
}

/// The next event of these lines, of which the first is behind the line with this number. No
/// memory for an event is told at its line.
pub fn next_event<'a>(
    alloc: Global,
    rest: Option<&'a [u8]>,
    line: u64,
    broke: Option<ScriptFaultKind>,
) -> Result<Option<Found<'a>>, ScriptFault>
    requires { line + size_in (option_copied rest) ≤ 2 ^ 63 }
    ensures ok { IfOk result (NextOf broke (events_from broke line
        (lines_in (option_copied rest.entry)))) }
    ensures within { IfOk result (λ next. IfSome next (IsWithin
        (line + size_in (option_copied rest.entry)) (size_in (option_copied rest.entry)))) }
    ensures err { IfErr result (NoNext (events_from broke line
        (lines_in (option_copied rest.entry)))) }
{
    let mut rest = rest;
    let mut number = line;
    while let Some(here) = rest {
        let (text, after) = split_line(here);
        number += 1;
        match read_line(alloc, text) {
            Ok(None) => rest = after,
            Ok(Some(event)) => {
                return Ok(Some(Found {
                    event,
                    line: number,
                    rest: after,
                }));
            }
            Err(kind) => return Err(ScriptFault { line: number, kind }),
        }
    }
    match broke {
        None => Ok(None),
        Some(kind) => Err(ScriptFault { line: number, kind }),
    }
}
