//! A script that is played line by line.

ghost use Rattle.std.specs.Prelude.{◌≡◌, ◌+◌, ◌<◌, ◌≤◌, ◌^◌, [], Err, IfOk, IfErr, OnOk};
ghost use Rattle.am_script.specs.Turns.{Closes};

use crate::fault::{ScriptFault, ScriptFaultKind};
use crate::head_line::{end_head, take_head_line};
use crate::heading::Heading;
use crate::output::Output;
use crate::play::Summary;
use crate::turn::{Manner, close, counted};
use am_world::World;
use std::alloc::Global;
use std::io::Write;
use std::mem;

/// Where in its script a player is.
#[derive(Drop)]
pub(crate) enum Place {
    /// In the head.
    Head(Heading),
    /// Behind the line `events`.
    Events(World),
}

impl Place {
    ghost use Rattle.am_script.specs.Playing.{TakesInHead, StopsInHead};

    /// Takes a line of a head, and begins the world if the head ends with it. A function pays at
    /// entry for the size of its locals: a line of events isn't to pay for a world.
    fn take_in_head(&mut self, alloc: Global, number: u64, line: &[u8]) -> Result<(), ScriptFault>
        requires { number ≤ 2 ^ 62 }
        ensures ok { OnOk result (TakesInHead self.old number line.now self.new) }
        ensures err { IfErr result (StopsInHead self.old number line.now) }
    {
        match self {
            Place::Head(heading) => match take_head_line(alloc, heading, number, line) {
                Ok(None) => Ok(()),
                Ok(Some(world)) => {
                    // What was there goes by a call, which is cheaper to check.
                    drop(mem::replace(self, Place::Events(world)));
                    Ok(())
                }
                Err(fault) => Err(fault),
            },
            Place::Events(_) => Ok(()),
        }
    }
}

/// A script as far as its lines were played. What is written of them may be on its
/// way to the writer.
#[derive(Drop)]
pub(crate) struct Player {
    pub place: Place,
    /// How many lines were taken.
    pub number: u64,
    pub summary: Summary,
    pub output: Output,
    ghost lines: { summary.lines ≤ number },
    ghost refused: { summary.refused ≤ summary.lines },
}

impl Player {
    ghost use Rattle.am_script.specs.Playing.{PlayerStands, TakesLine, StopsAtLine, StopsAtLong, Flushes, LosesAnswer, EndsPlayed, EndsStopped};
    ghost use Rattle.am_script.specs.Forms.{Form};
    ghost use Rattle.std.specs.Prelude.{List, ℕ, Option, None};

    /// No line is taken yet.
    pub fn new(alloc: Global) -> Player
        ensures stands { (form : Form) (start : Option (List ℕ)) → PlayerStands form result [] start
            start }
        ensures number { result.number ≡ 0 }
        ensures written { result.output.bytes.items ≡ [] }
    {
        let heading = Heading::new(alloc);
        let output = Output::new();
        Player {
            place: Place::Head(heading),
            number: 0,
            summary: Summary {
                lines: 0,
                refused: 0,
            },
            output,
        }
    }

    /// Plays the next line. A fault ends the script: what is kept of its answers is written before.
    pub fn take_line<M: Manner, W: Write>(
        &mut self,
        alloc: Global,
        manner: &M,
        line: &[u8],
        writer: &mut W,
    ) -> Result<(), ScriptFault>
        requires { self.old.number < 2 ^ 62 }
        ensures ok { OnOk result (TakesLine (M.writes manner.now) self.old self.new line.now
            (W.contents writer.old) (W.contents writer.new)) }
        ensures err { IfErr result (StopsAtLine (M.writes manner.now) self.old line.now
            (W.contents writer.old) (W.contents writer.new)) }
        ensures number { OnOk result (self.new.number ≡ self.old.number + 1) }
    {
        self.number += 1;
        let number = self.number;
        match &mut self.place {
            Place::Head(_) => self.place.take_in_head(alloc, number, line),
            Place::Events(world) => {
                match manner.play_line(alloc, world, number, line, &mut self.output, writer) {
                    Ok(played) => {
                        self.summary = counted(self.summary, played);
                        Ok(())
                    }
                    Err(kind) => {
                        let fault = ScriptFault { line: number, kind };
                        Err(self.stop(fault, writer))
                    }
                }
            }
        }
    }

    /// The next line is too long.
    pub fn stop_long<W: Write>(&mut self, writer: &mut W) -> ScriptFault
        requires { self.old.number < 2 ^ 62 }
        ensures { StopsAtLong self.old (W.contents writer.old) (W.contents writer.new) result }
    {
        let fault = ScriptFault {
            line: self.number + 1,
            kind: ScriptFaultKind::LongLine,
        };
        self.stop(fault, writer)
    }

    /// Writes what is kept, and answers the fault that ends the script: this one, but where the
    /// writer doesn't take all, that.
    fn stop<W: Write>(&mut self, fault: ScriptFault, writer: &mut W) -> ScriptFault
        ensures { Closes self.old.output (Err fault) (W.contents writer.old) (W.contents writer.new)
            (Err result) }
    {
        self.output.flush(writer);
        match self.output.lost {
            None => fault,
            Some(line) => ScriptFault {
                line,
                kind: ScriptFaultKind::WriteFailed,
            },
        }
    }

    /// Writes what is kept.
    pub fn flush<W: Write>(&mut self, writer: &mut W) -> Result<(), ScriptFault>
        ensures ok { OnOk result (Flushes self.old self.new (W.contents writer.old)
            (W.contents writer.new)) }
        ensures err { IfErr result (LosesAnswer self.old (W.contents writer.old)
            (W.contents writer.new)) }
        ensures written { OnOk result (self.new.output.bytes.items ≡ []) }
        ensures number { self.new.number ≡ self.old.number }
    {
        self.output.flush(writer);
        match self.output.lost {
            None => Ok(()),
            Some(line) => Err(ScriptFault {
                line,
                kind: ScriptFaultKind::WriteFailed,
            }),
        }
    }

    /// No line follows: reading came to the end, or broke off.
    pub fn end<W: Write>(
        &mut self,
        broke: Option<ScriptFaultKind>,
        writer: &mut W,
    ) -> Result<Summary, ScriptFault>
        ensures whole { OnOk result (broke ≡ None) }
        ensures ok { IfOk result (EndsPlayed self.old broke (W.contents writer.old)
            (W.contents writer.new)) }
        ensures err { IfErr result (EndsStopped self.old broke (W.contents writer.old)
            (W.contents writer.new)) }
    {
        match &self.place {
            Place::Head(heading) => end_head(broke, heading.section(), self.number),
            Place::Events(_) => match broke {
                None => close(&mut self.output, Ok(self.summary), writer),
                Some(kind) => {
                    let line = self.number;
                    close(&mut self.output, Err(ScriptFault { line, kind }), writer)
                }
            },
        }
    }
}
