//! The trace of a script is printed.

ghost use Rattle.std.specs.Prelude.{◌≡◌, IfOk, IfErr};
ghost use Rattle.am_script.specs.{PlaysInput, StopsInput, Puts, IsAnswered, TurnDone, TurnStopped};
ghost use Rattle.am_script.specs.Script.{line_read};
ghost use Rattle.am_views.specs.Traced.{asked_line, number_part, told_line, shown_text, traced};
ghost use Rattle.am_world.specs.Capacity.{state_of};

use crate::event_text::put_event;
use crate::obs_text::put_seen;
use am_script::answer_line::{is_refused, put_number, put_text, put_word};
use am_script::output::Output;
use am_script::visit::read_line;
use am_script::{Manner, ScriptFault, ScriptFaultKind, Summary, play_script};
use am_world::{Answer, Event, Obs, World};
use std::alloc::Global;
use std::io::{Read, Write};

/// How the events of a trace are told.
#[derive(Clone, Copy, Debug, PartialEq, Eq)]
pub enum TraceStyle {
    /// Each behind the number of its line.
    WithNumbers,
    /// Without that, so that the traces of two scripts can be compared line by line.
    Plain,
}

/// Plays a script as it is read, as `run_script` does, and writes of each event its line, its
/// answer and what is seen of it. It has the faults of `run_script`, but that an event for whose
/// line there is no memory is one.
pub fn trace_script<R: Read, W: Write>(
    alloc: Global,
    style: TraceStyle,
    reader: &mut R,
    writer: &mut W,
) -> Result<Summary, ScriptFault>
    ensures ok { IfOk result (PlaysInput (traced style) (R.remaining reader.old)
        (R.remaining reader.new) (W.contents writer.old) (W.contents writer.new)) }
    ensures err { IfErr result (StopsInput (traced style) (R.remaining reader.old)
        (R.remaining reader.new) (W.contents writer.old) (W.contents writer.new)) }
{
    play_script(alloc, &style, reader, writer)
}

impl Manner for TraceStyle {
    ghost writes = { traced };

    fn play_line<W: Write>(
        &self,
        alloc: Global,
        world: &mut World,
        number: u64,
        line: &[u8],
        output: &mut Output,
        writer: &mut W,
    ) -> Result<Option<bool>, ScriptFaultKind> {
        trace_line(alloc, *self, world, number, line, output, writer)
    }
}

/// Plays the line of events with this number, and puts out what is printed of it.
fn trace_line<W: Write>(
    alloc: Global,
    style: TraceStyle,
    world: &mut World,
    number: u64,
    line: &[u8],
    output: &mut Output,
    writer: &mut W,
) -> Result<Option<bool>, ScriptFaultKind>
    ensures ok { IfOk result (TurnDone (traced style) (state_of world.old) (line_read line.now)
        (state_of world.new) number output.old output.new (W.contents writer.old)
        (W.contents writer.new)) }
    ensures err { IfErr result (TurnStopped (traced style) (state_of world.old)
        (line_read line.now) (state_of world.new) output.old output.new (W.contents writer.old)
        (W.contents writer.new)) }
{
    match read_line(alloc, line) {
        Ok(None) => Ok(None),
        Ok(Some(event)) => {
            let refused = show(alloc, style, world, number, &event, output, writer);
            // It goes by a call, which is cheaper to check.
            drop(event);
            Ok(Some(refused))
        }
        Err(kind) => Err(kind),
    }
}

/// Makes the step of an event, and puts out what is printed of it. It answers whether the event was
/// refused.
fn show<W: Write>(
    alloc: Global,
    style: TraceStyle,
    world: &mut World,
    line: u64,
    event: &Event,
    output: &mut Output,
    writer: &mut W,
) -> bool
    ensures { IsAnswered (traced style) (state_of world.old) event.now (state_of world.new) line
        output.old output.new (W.contents writer.old) (W.contents writer.new) result }
{
    let before = world.trace().len();
    let answer = world.step(alloc, event);
    output.begin(line, writer);
    put_shown(
        output,
        style,
        line,
        event,
        &answer,
        world.seen_since(before),
        writer,
    );
    // It is written, and the world needn't keep it.
    world.let_go(alloc);
    is_refused(&answer)
}

#[tactic(auto, using(am_script::proofs::Pieces::puts_three))]
fn put_shown<W: Write>(
    output: &mut Output,
    style: TraceStyle,
    line: u64,
    event: &Event,
    answer: &Answer,
    seen: &[Obs],
    writer: &mut W,
)
    ensures { Puts output.old output.new
        (shown_text style (record {
          asked = record { line = line; event = event.now };
          answer = answer.now;
          seen = seen.now;
        })) (W.contents writer.old) (W.contents writer.new) }
{
    put_asked(output, style, line, event, writer);
    put_told(output, answer, seen, writer);
    put_seen(output, seen, writer);
}

#[tactic(auto, using(crate::proofs::FourPieces::puts_four))]
fn put_asked<W: Write>(
    output: &mut Output,
    style: TraceStyle,
    line: u64,
    event: &Event,
    writer: &mut W,
)
    ensures { Puts output.old output.new
        (asked_line style (record { line = line; event = event.now }))
        (W.contents writer.old) (W.contents writer.new) }
{
    put_line_number(output, style, line, writer);
    put_word(output, b": ", writer);
    put_event(output, event, writer);
    put_word(output, b"\n", writer);
}

#[tactic(auto, using(am_script::proofs::Pieces::puts_none))]
fn put_line_number<W: Write>(output: &mut Output, style: TraceStyle, line: u64, writer: &mut W)
    ensures { Puts output.old output.new (number_part style line) (W.contents writer.old)
        (W.contents writer.new) }
{
    match style {
        TraceStyle::WithNumbers => put_number(output, b"", line, writer),
        TraceStyle::Plain => {}
    }
}

#[tactic(auto, using(crate::proofs::FourPieces::puts_four))]
fn put_told<W: Write>(output: &mut Output, answer: &Answer, seen: &[Obs], writer: &mut W)
    ensures { Puts output.old output.new (told_line answer.now seen.now) (W.contents writer.old)
        (W.contents writer.new) }
{
    put_word(output, b"= ", writer);
    put_text(output, answer, writer);
    put_number(output, b" : ", seen.len() as u64, writer);
    put_word(output, b"\n", writer);
}
