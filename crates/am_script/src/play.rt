//! A script is played.

ghost use Rattle.std.specs.Prelude.{IfOk, IfErr};
ghost use Rattle.am_script.specs.Played.{PlaysInput, StopsInput};
ghost use Rattle.am_script.specs.Forms.{answers_alone};

use crate::fault::ScriptFault;
use crate::reading::Reading;
use crate::turn::{AnswerLines, Manner};
use std::alloc::Global;
use std::io::{Read, Write};

/// How a script went that was played to its end.
#[derive(Clone, Copy, Debug, PartialEq, Eq)]
pub struct Summary {
    /// The answer lines.
    pub lines: u64,
    /// Those that say that nothing was done.
    pub refused: u64,
}

/// Plays a script as it is read, on a world of its own, and writes of each event what this manner
/// does. It takes no memory for the script but for its head. The reader is asked for 4,096 bytes
/// each time, and only when all is written of the lines that were read.
///
/// The first fault ends it. A fault of the head leaves the writer as it was, and one behind
/// `events` what is written of all events before it. Where the reader fails, or was asked
/// 4,294,967,295 times, the lines that were read whole are played first; the fault comes at the
/// line behind them. No memory for the head or the world is told at the line that asked for it.
pub fn play_script<M: Manner, R: Read, W: Write>(
    alloc: Global,
    manner: &M,
    reader: &mut R,
    writer: &mut W,
) -> Result<Summary, ScriptFault>
    ensures ok { IfOk result (PlaysInput (M.writes manner.now) (R.remaining reader.old)
        (R.remaining reader.new) (W.contents writer.old) (W.contents writer.new)) }
    ensures err { IfErr result (StopsInput (M.writes manner.now) (R.remaining reader.old)
        (R.remaining reader.new) (W.contents writer.old) (W.contents writer.new)) }
{
    let mut reading = Reading::new(alloc);
    let ended = reading.play(alloc, manner, reader, writer);
    // It goes by a call, which is cheaper to check.
    drop(reading);
    ended
}

/// Plays a script as it is read, and writes the line of each answer.
pub fn run_script<R: Read, W: Write>(
    alloc: Global,
    reader: &mut R,
    writer: &mut W,
) -> Result<Summary, ScriptFault>
    ensures ok { IfOk result (PlaysInput answers_alone (R.remaining reader.old)
        (R.remaining reader.new) (W.contents writer.old) (W.contents writer.new)) }
    ensures err { IfErr result (StopsInput answers_alone (R.remaining reader.old)
        (R.remaining reader.new) (W.contents writer.old) (W.contents writer.new)) }
{
    play_script(alloc, &AnswerLines, reader, writer)
}
