//! The way to a scene is played: the events up to the scene's first line.

ghost use Rattle.std.specs.Prelude.{◌≡◌, ◌+◌, ◌≤◌, ◌^◌, Option, length, option_copied, IfOk, IfErr, OnOk};
ghost use Rattle.am_script.specs.{ScriptFaultKind};
ghost use Rattle.am_script.specs.Lines.{lines_in};
ghost use Rattle.am_script.specs.Script.{line_read};
ghost use Rattle.am_explore.specs.Answers.{is_no_memory};
ghost use Rattle.am_world.specs.Capacity.{state_of};
ghost use Rattle.am_scenes.specs.declared.fault.SceneFaultKind.TheVariants.{NoMemory};
ghost use Rattle.am_scenes.specs.Reading.{HasArrived, IsMade, LineLeads, LineStops, StopsIn};
ghost use Rattle.am_scenes.specs.Way.{begins_scene, is_scene_word, way_from};

use crate::fault::{SceneFault, SceneFaultKind, fault_at, kind_of_script};
use crate::line::{is_word, split_line};
use am_lines::next_word;
use am_machine::{Answer, Event};
use am_names::Errno;
use am_script::visit::read_line;
use am_world::World;
use std::alloc::Global;

/// Where the lines of the scene begin.
#[derive(Clone, Copy)]
pub struct Arrival<'a> {
    /// These lines, if there are any.
    pub rest: Option<&'a [u8]>,
    /// How many lines stand before them.
    pub line: u64,
}

/// Whether a line of a scene, outside of threads, begins with this word.
fn is_scene_word(word: &[u8]) -> bool
    ensures { result ≡ is_scene_word word.now }
{
    is_word(word, b"thread")
        || is_word(word, b"serve")
        || is_word(word, b"sometimes")
        || is_word(word, b"never")
        || is_word(word, b"always")
}

/// Whether the scene begins with this line.
fn begins_scene(line: &[u8]) -> bool
    ensures { result ≡ begins_scene line.now }
{
    match next_word(line) {
        None => false,
        Some((word, _)) => is_scene_word(word),
    }
}

/// Plays these events, behind so many lines, up to the first line of the scene.
pub(crate) fn play_way<'a>(
    alloc: Global,
    world: &mut World,
    rest: Option<&'a [u8]>,
    line: u64,
) -> Result<Arrival<'a>, SceneFault>
    requires { line + length (lines_in (option_copied rest)) ≤ 2 ^ 63 }
    ensures ok { IfOk result (HasArrived (state_of world.old) line
        (lines_in (option_copied rest.entry)) (state_of world.new)) }
    ensures err { IfErr result (λ fault. (broke : Option ScriptFaultKind) →
        StopsIn line (lines_in (option_copied rest.entry))
        (way_from broke line (lines_in (option_copied rest.entry))).scene fault) }
{
    let mut rest = rest;
    let mut number = line;
    while let Some(here) = rest {
        let (text, after) = split_line(here);
        if begins_scene(text) {
            return Ok(Arrival {
                rest: Some(here),
                line: number,
            });
        }
        number += 1;
        match play_line(alloc, world, text) {
            Ok(()) => rest = after,
            Err(kind) => return Err(fault_at(number, kind)),
        }
    }
    Ok(Arrival {
        rest: None,
        line: number,
    })
}

/// Plays a line of the way.
fn play_line(alloc: Global, world: &mut World, line: &[u8]) -> Result<(), SceneFaultKind>
    ensures ok { OnOk result (LineLeads (state_of world.old) (line_read line.now)
        (state_of world.new)) }
    ensures err { IfErr result (LineStops (line_read line.now)) }
{
    let read = read_line(alloc, line);
    let played = match &read {
        Ok(None) => Ok(()),
        Ok(Some(event)) => play(alloc, world, event),
        Err(kind) => Err(kind_of_script(*kind)),
    };
    // It goes by a call, which is cheaper to check.
    drop(read);
    played
}

/// Makes the step of an event. One for which memory runs out isn't passed over.
fn play(alloc: Global, world: &mut World, event: &Event) -> Result<(), SceneFaultKind>
    ensures ok { OnOk result (IsMade (state_of world.old) event.now (state_of world.new)) }
    ensures err { IfErr result (λ kind. kind ≡ NoMemory) }
{
    let answer = world.answer(alloc, event);
    let ran_out = is_no_memory(&answer);
    drop(answer);
    if ran_out {
        return Err(SceneFaultKind::NoMemory);
    }
    Ok(())
}

/// Whether memory ran out.
fn is_no_memory(answer: &Answer) -> bool
    ensures { result ≡ is_no_memory answer.now }
{
    match answer {
        Answer::Refused {
            errno: Errno::NoMemory,
        } => true,
        _ => false,
    }
}
