//! One line of events is played.

ghost use Rattle.std.specs.Prelude.{◌≡◌, ◌+◌, ◌<◌, ◌≤◌, ◌^◌, IfOk, IfErr, OnOk};
ghost use Rattle.am_script.specs.Script.{line_read, event_or_fault};
ghost use Rattle.am_script.specs.Forms.{Form, answers_alone};
ghost use Rattle.am_script.specs.Turns.{LineReadAs, LineAnswered, TurnDone, TurnStopped, Closes, counted};
ghost use Rattle.am_world.specs.Capacity.{state_of};

use crate::answer_line::{is_refused, put_answer};
use crate::event_line::read_event;
use crate::fault::{ScriptFault, ScriptFaultKind};
use crate::line::{is_long, is_skipped};
use crate::output::Output;
use crate::play::Summary;
use am_names::Errno;
use am_world::{Answer, Event, World};
use std::alloc::Global;
use std::io::Write;

/// A manner in which a script is played: what is written of each event.
pub trait Manner {
    ghost writes: { Self → Form };

    /// Plays the line of events with this number. It answers whether the event was refused, or none
    /// where the line is skipped.
    fn play_line<W: Write>(
        &self,
        alloc: Global,
        world: &mut World,
        number: u64,
        line: &[u8],
        output: &mut Output,
        writer: &mut W,
    ) -> Result<Option<bool>, ScriptFaultKind>
        ensures ok { IfOk result (TurnDone (writes self.now) (state_of world.old)
            (line_read line.now) (state_of world.new) number output.old output.new
            (W.contents writer.old) (W.contents writer.new)) }
        ensures err { IfErr result (TurnStopped (writes self.now) (state_of world.old)
            (line_read line.now) (state_of world.new) output.old output.new
            (W.contents writer.old) (W.contents writer.new)) };
}

/// Of each event the line of its answer is written.
pub(crate) struct AnswerLines;

impl Manner for AnswerLines {
    ghost writes = { λ manner. answers_alone };

    fn play_line<W: Write>(
        &self,
        alloc: Global,
        world: &mut World,
        number: u64,
        line: &[u8],
        output: &mut Output,
        writer: &mut W,
    ) -> Result<Option<bool>, ScriptFaultKind> {
        play_line(alloc, world, number, line, output, writer)
    }
}

/// Plays the line of events with this number, and puts out the line of the answer. It answers
/// whether the event was refused, or none where the line is skipped.
#[tactic(auto, using(crate::proofs::LineAnswers::turn_of_an_event, crate::proofs::LineAnswers::turn_of_no_event, crate::proofs::LineAnswers::turn_of_a_fault))]
fn play_line<W: Write>(
    alloc: Global,
    world: &mut World,
    number: u64,
    line: &[u8],
    output: &mut Output,
    writer: &mut W,
) -> Result<Option<bool>, ScriptFaultKind>
    ensures ok { IfOk result (TurnDone answers_alone (state_of world.old) (line_read line.now)
        (state_of world.new) number output.old output.new (W.contents writer.old)
        (W.contents writer.new)) }
    ensures err { IfErr result (TurnStopped answers_alone (state_of world.old)
        (line_read line.now) (state_of world.new) output.old output.new (W.contents writer.old)
        (W.contents writer.new)) }
{
    let Some(answer) = answer_event(alloc, world, line)? else {
        return Ok(None);
    };
    output.begin(number, writer);
    put_answer(output, &answer, writer);
    Ok(Some(is_refused(&answer)))
}

/// Makes the step of a line's event, if the line has one.
fn answer_event(
    alloc: Global,
    world: &mut World,
    line: &[u8],
) -> Result<Option<Answer>, ScriptFaultKind>
    ensures { LineAnswered (state_of world.old) (line_read line.now) (state_of world.new) result }
{
    let read = read_line(alloc, line);
    let answered = match &read {
        Ok(None) => Ok(None),
        Ok(Some(event)) => Ok(Some(world.answer(alloc, event))),
        // The event finds no memory before its step: it is refused, as a step refuses it.
        Err(ScriptFaultKind::NoMemory) => Ok(Some(Answer::Refused {
            errno: Errno::NoMemory,
        })),
        Err(kind) => Err(*kind),
    };
    // It goes by a call, which is cheaper to check.
    drop(read);
    answered
}

/// The event of a line, or none where the line is skipped.
pub fn read_line(alloc: Global, line: &[u8]) -> Result<Option<Event>, ScriptFaultKind>
    ensures { LineReadAs (line_read line.now) result }
{
    if is_long(line) {
        return Err(ScriptFaultKind::LongLine);
    }
    if is_skipped(line) {
        return Ok(None);
    }
    match read_event(alloc, line) {
        Ok(Some(event)) => Ok(Some(event)),
        Ok(None) => Err(ScriptFaultKind::BadEvent),
        Err(_) => Err(ScriptFaultKind::NoMemory),
    }
}

/// Gives to the writer what is kept, and answers how the script ends: as it says, but where the
/// writer doesn't take all, at the first answer that it didn't take whole.
pub fn close<W: Write>(
    output: &mut Output,
    ended: Result<Summary, ScriptFault>,
    writer: &mut W,
) -> Result<Summary, ScriptFault>
    ensures closes { Closes output.old ended (W.contents writer.old)
        (W.contents writer.new) result }
    ensures whole { OnOk result (result ≡ ended) }
{
    output.flush(writer);
    match output.lost {
        None => ended,
        Some(line) => Err(ScriptFault {
            line,
            kind: ScriptFaultKind::WriteFailed,
        }),
    }
}

/// Counts one more line, if there is one.
pub(crate) fn counted(summary: Summary, played: Option<bool>) -> Summary
    requires lines { summary.lines + 1 < 2 ^ 64 }
    requires refused { summary.refused ≤ summary.lines }
    ensures { result ≡ counted summary played }
{
    match played {
        None => summary,
        Some(refused) => Summary {
            lines: summary.lines + 1,
            refused: summary.refused + if refused { 1 } else { 0 },
        },
    }
}
