//! A session of which lines are read in pieces.

ghost use Rattle.std.specs.Io.KnownBytes.{Keeps, Consumes, IsAtEnd};
ghost use Rattle.std.specs.Prelude.{◌≡◌, ◌+◌, ◌-◌, ◌<◌, ◌≤◌, ◌^◌, [], List, ℕ, Option, length, take, IfErr, IfNone, IfSome, OnOk};
ghost use Rattle.am_script.specs.{EndsNoLine, IsCut, fault_at};
ghost use Rattle.am_script.specs.declared.fault.ScriptFaultKind.TheVariants.{ReadFailed};
ghost use Rattle.am_serve.specs.Keeping.{AreFew};
ghost use Rattle.am_serve.specs.Replies.{Loses, Sends};
ghost use Rattle.am_serve.specs.Reading.{AnswersHeld, EndsServed, IsHeld, LosesAmong, LosesHeld, LosesLast, ReadingStands, TakesBytes};
ghost use Rattle.am_serve.specs.Served.{ServesInput, StopsServing};

use crate::answering::{reply, reply_long};
use crate::held::Held;
use crate::service::Service;
use am_lines::line_feed_place;
use am_script::{ScriptFault, ScriptFaultKind};
use std::alloc::Global;
use std::io::{Read, Write};

/// How often a reader is asked, so that the numbers of lines fit.
const MOST_READS: u64 = 4_294_967_295;

/// How many bytes a reader is asked for.
const READ: usize = 4096;

/// Asks a reader once. It answers how many bytes came, 0 at the end, or nothing where the reader
/// failed.
fn read_once<R: Read>(reader: &mut R, buffer: &mut [u8; READ]) -> Option<usize>
    ensures bound { IfSome result (λ n. n ≤ length buffer.new) }
    ensures few { IfSome result (λ n. length (take n buffer.new) ≤ 4096) }
    ensures bytes { IfSome result (λ n. Consumes (R.remaining reader.old) (R.remaining reader.new)
        (take n buffer.new)) }
    ensures end { IfSome result (λ n. n ≡ 0 → IsAtEnd (R.remaining reader.new)) }
    ensures kept { IfNone result (Keeps (R.remaining reader.old) (R.remaining reader.new)) }
{
    match reader.read(buffer) {
        Ok(n) => Some(n),
        Err(_) => None,
    }
}

/// The first line, and what stands behind its line feed, if it has one.
fn split_end(text: &[u8]) -> Option<(&[u8], &[u8])>
    ensures none { IfNone result (EndsNoLine text.now) }
    ensures some { IfSome result (λ parts. IsCut text.now parts.0.now parts.1.now) }
{
    let at = line_feed_place(text)?;
    Some((&text[..at], &text[at + 1..]))
}

/// Answers the line that is held.
fn reply_held<W: Write>(
    alloc: Global,
    service: &mut Service,
    held: &Held,
    number: u64,
    writer: &mut W,
) -> Result<(), ScriptFault>
    requires { AreFew service.old (2 ^ 62 - 2) }
    ensures ok { OnOk result ((line : List ℕ) → IsHeld held.now line
        → Sends service.old line service.new (W.contents writer.old) (W.contents writer.new)) }
    ensures err { IfErr result (λ fault. (line : List ℕ) → IsHeld held.now line
        → Loses service.old line service.new number (W.contents writer.old) (W.contents writer.new) fault) }
    ensures few { (most : ℕ) → AreFew service.old most → AreFew service.new (most + 1) }
{
    if held.is_long {
        return reply_long(alloc, service, number, writer);
    }
    reply(alloc, service, number, held.bytes.as_slice(), writer)
}

/// A session as far as its lines were read. Those that were read whole are answered.
#[derive(Drop)]
pub(crate) struct Reading {
    pub service: Service,
    pub held: Held,
    /// How many lines were answered.
    pub number: u64,
}

impl Reading {
    /// Nothing is read yet.
    fn new(alloc: Global) -> Reading
        ensures stands { (start : Option (List ℕ)) → ReadingStands result [] start start }
        ensures number { result.number ≡ 0 }
        ensures few { AreFew result.service 0 }
    {
        Reading {
            service: Service::new(alloc),
            held: Held::new(),
            number: 0,
        }
    }

    /// Serves the lines that this reader has, from the first.
    fn play<R: Read, W: Write>(
        &mut self,
        alloc: Global,
        reader: &mut R,
        writer: &mut W,
    ) -> Result<(), ScriptFault>
        requires stands { ReadingStands self.old [] (W.contents writer.old) (W.contents writer.old) }
        requires number { self.old.number ≡ 0 }
        requires few { AreFew self.old.service 0 }
        ensures ok { OnOk result (ServesInput (R.remaining reader.old) (R.remaining reader.new)
            (W.contents writer.old) (W.contents writer.new)) }
        ensures err { IfErr result (StopsServing (R.remaining reader.old) (R.remaining reader.new)
            (W.contents writer.old) (W.contents writer.new)) }
    {
        let mut buffer = [0; READ];
        for _ in 0..MOST_READS {
            match read_once(reader, &mut buffer) {
                Some(0) => return self.end(alloc, writer),
                Some(n) => self.take_bytes(alloc, &buffer[..n], writer)?,
                None => return Err(self.broken()),
            }
        }
        Err(self.broken())
    }

    /// Answers the lines that end among these bytes.
    fn take_bytes<W: Write>(
        &mut self,
        alloc: Global,
        bytes: &[u8],
        writer: &mut W,
    ) -> Result<(), ScriptFault>
        requires fits { self.old.number + length bytes.now < 2 ^ 61 }
        requires few { AreFew self.old.service self.old.number }
        ensures ok { OnOk result (TakesBytes self.old self.new bytes.now (W.contents writer.old)
            (W.contents writer.new)) }
        ensures err { IfErr result (LosesAmong self.old bytes.now (W.contents writer.old)
            (W.contents writer.new)) }
        ensures number { OnOk result (self.new.number ≤ self.old.number + length bytes.now) }
        ensures few { OnOk result (AreFew self.new.service self.new.number) }
    {
        let mut rest = bytes;
        while let Some((end, after)) = split_end(rest) {
            self.held.hold(end);
            self.answer(alloc, writer)?;
            rest = after;
        }
        self.held.hold(rest);
        Ok(())
    }

    /// Answers the line that is held, which has ended.
    fn answer<W: Write>(&mut self, alloc: Global, writer: &mut W) -> Result<(), ScriptFault>
        requires fits { self.old.number < 2 ^ 61 }
        requires few { AreFew self.old.service self.old.number }
        ensures ok { OnOk result (AnswersHeld self.old self.new (W.contents writer.old)
            (W.contents writer.new)) }
        ensures err { IfErr result (LosesHeld self.old (W.contents writer.old)
            (W.contents writer.new)) }
        ensures number { OnOk result (self.new.number ≡ self.old.number + 1) }
        ensures few { OnOk result (AreFew self.new.service self.new.number) }
    {
        self.number += 1;
        let number = self.number;
        reply_held(alloc, &mut self.service, &self.held, number, writer)?;
        self.held.clear();
        Ok(())
    }

    /// The reader came to its end.
    fn end<W: Write>(&mut self, alloc: Global, writer: &mut W) -> Result<(), ScriptFault>
        requires fits { self.old.number < 2 ^ 61 }
        requires few { AreFew self.old.service self.old.number }
        ensures ok { OnOk result (EndsServed self.old (W.contents writer.old) (W.contents writer.new)) }
        ensures err { IfErr result (LosesLast self.old (W.contents writer.old)
            (W.contents writer.new)) }
    {
        if self.held.is_empty() {
            return Ok(());
        }
        self.answer(alloc, writer)
    }

    /// The reader failed: the fault comes at the line behind those that were read whole.
    fn broken(&self) -> ScriptFault
        requires { self.now.number < 2 ^ 61 }
        ensures { result ≡ fault_at (self.now.number + 1) ReadFailed }
    {
        ScriptFault {
            line: self.number + 1,
            kind: ScriptFaultKind::ReadFailed,
        }
    }
}

/// Serves a session: each line that the reader gives is answered by the reply to it, which is written
/// before the reader is asked again. It is asked for 4,096 bytes each time. Of a line at most 8,192
/// bytes are kept.
///
/// A fault ends it where the reader fails, or was asked 4,294,967,295 times, at the line behind those
/// that were read whole; or where the writer doesn't take a reply, at its line.
pub fn serve<R: Read, W: Write>(
    alloc: Global,
    reader: &mut R,
    writer: &mut W,
) -> Result<(), ScriptFault>
    ensures ok { OnOk result (ServesInput (R.remaining reader.old) (R.remaining reader.new)
        (W.contents writer.old) (W.contents writer.new)) }
    ensures err { IfErr result (StopsServing (R.remaining reader.old) (R.remaining reader.new)
        (W.contents writer.old) (W.contents writer.new)) }
{
    let mut reading = Reading::new(alloc);
    let ended = reading.play(alloc, reader, writer);
    // It goes by a call, which is cheaper to check.
    drop(reading);
    ended
}
