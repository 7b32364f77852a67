//! A script that is read in pieces.

ghost use Rattle.std.specs.Io.KnownBytes.{Keeps, Consumes, IsAtEnd};
ghost use Rattle.std.specs.Prelude.{◌≡◌, ◌+◌, ◌<◌, ◌≤◌, ◌^◌, ◌++◌, [], length, take, IsOk, IfOk, IfErr, OnOk, IfSome, IfNone};
ghost use Rattle.std.specs.Prelude.{List, ℕ, Option};

use crate::fault::{ScriptFault, ScriptFaultKind};
use crate::line::split_end;
use crate::play::Summary;
use crate::player::Player;
use crate::turn::Manner;
use arrayvec::ArrayVec;
use std::alloc::Global;
use std::io::{Read, Write};

/// How often a reader is asked, so that the numbers of lines fit.
const MOST_READS: u64 = 4_294_967_295;

/// How many bytes a reader is asked for.
const READ: usize = 4096;

/// Asks a reader once. It answers how many bytes came, 0 at the end, or nothing where the reader
/// failed.
fn read_once<R: Read>(reader: &mut R, buffer: &mut [u8; READ]) -> Option<usize>
    ensures bound { IfSome result (λ n. n ≤ length buffer.new) }
    ensures few { IfSome result (λ n. length (take n buffer.new) ≤ 4096) }
    ensures bytes { IfSome result (λ n. Consumes (R.remaining reader.old) (R.remaining reader.new)
        (take n buffer.new)) }
    ensures end { IfSome result (λ n. n ≡ 0 → IsAtEnd (R.remaining reader.new)) }
    ensures kept { IfNone result (Keeps (R.remaining reader.old) (R.remaining reader.new)) }
{
    match reader.read(buffer) {
        Ok(n) => Some(n),
        Err(_) => None,
    }
}

/// A script as far as it was read. Whole lines are played where they were read.
#[derive(Drop)]
pub(crate) struct Reading {
    pub player: Player,
    /// What was read of a line whose end wasn't.
    pub held: ArrayVec<u8, 8192>,
}

impl Reading {
    ghost use Rattle.am_script.specs.Playing.{TakesLine, StopsAtLine};
    ghost use Rattle.am_script.specs.Forms.{Form};
    ghost use Rattle.am_script.specs.Played.{PlaysInput, StopsInput};
    ghost use Rattle.am_script.specs.Reading.{ReadingStands, TakesBytes, StopsInBytes, EndsRead, StopsRead, BreaksRead};

    /// Nothing is read yet.
    pub fn new(alloc: Global) -> Reading
        ensures stands { (form : Form) (start : Option (List ℕ)) → ReadingStands form result []
            start start }
        ensures number { result.player.number ≡ 0 }
        ensures written { result.player.output.bytes.items ≡ [] }
    {
        let player = Player::new(alloc);
        let held = ArrayVec::new();
        Reading { player, held }
    }

    /// Plays the script that this reader has, from its beginning. The reader is asked only when no
    /// answer is held back.
    pub fn play<M: Manner, R: Read, W: Write>(
        &mut self,
        alloc: Global,
        manner: &M,
        reader: &mut R,
        writer: &mut W,
    ) -> Result<Summary, ScriptFault>
        requires stands { ReadingStands (M.writes manner.now) self.old [] (W.contents writer.old)
            (W.contents writer.old) }
        requires number { self.old.player.number ≡ 0 }
        requires written { self.old.player.output.bytes.items ≡ [] }
        ensures ok { IfOk result (PlaysInput (M.writes manner.now) (R.remaining reader.old) (R.remaining reader.new)
            (W.contents writer.old) (W.contents writer.new)) }
        ensures err { IfErr result (StopsInput (M.writes manner.now) (R.remaining reader.old) (R.remaining reader.new)
            (W.contents writer.old) (W.contents writer.new)) }
    {
        let mut buffer = [0; READ];
        for _ in 0..MOST_READS {
            match read_once(reader, &mut buffer) {
                Some(0) => return self.end(alloc, manner, writer),
                Some(n) => self.take_bytes(alloc, manner, &buffer[..n], writer)?,
                None => return self.break_off(alloc, manner, writer),
            }
        }
        self.break_off(alloc, manner, writer)
    }

    /// Plays the lines that end among these bytes, and writes their answers.
    fn take_bytes<M: Manner, W: Write>(
        &mut self,
        alloc: Global,
        manner: &M,
        bytes: &[u8],
        writer: &mut W,
    ) -> Result<(), ScriptFault>
        requires few { length bytes.now ≤ 4096 }
        requires fits { self.old.player.number + length bytes.now < 2 ^ 62 }
        ensures ok { OnOk result (TakesBytes (M.writes manner.now) self.old self.new bytes.now (W.contents writer.old)
            (W.contents writer.new)) }
        ensures err { IfErr result (StopsInBytes (M.writes manner.now) self.old bytes.now (W.contents writer.old)
            (W.contents writer.new)) }
        ensures written { OnOk result (self.new.player.output.bytes.items ≡ []) }
        ensures number { OnOk result (self.new.player.number
            ≤ self.old.player.number + length bytes.now) }
    {
        let mut rest = bytes;
        while let Some((end, after)) = split_end(rest) {
            self.take_end(alloc, manner, end, writer)?;
            rest = after;
        }
        if let Err(_) = self.held.try_extend_from_slice(rest) {
            return Err(self.player.stop_long(writer));
        }
        self.player.flush(writer)
    }

    /// Plays the line that ends with these bytes.
    fn take_end<M: Manner, W: Write>(
        &mut self,
        alloc: Global,
        manner: &M,
        end: &[u8],
        writer: &mut W,
    ) -> Result<(), ScriptFault>
        requires { self.old.player.number < 2 ^ 62 }
        ensures ok { OnOk result (TakesLine (M.writes manner.now) self.old.player self.new.player
            (self.old.held.items ++ end.now) (W.contents writer.old) (W.contents writer.new)) }
        ensures err { IfErr result (StopsAtLine (M.writes manner.now) self.old.player (self.old.held.items ++ end.now)
            (W.contents writer.old) (W.contents writer.new)) }
        ensures empty { OnOk result (self.new.held.items ≡ []) }
        ensures number { OnOk result (self.new.player.number ≡ self.old.player.number + 1) }
    {
        if self.held.is_empty() {
            return self.player.take_line(alloc, manner, end, writer);
        }
        if let Err(_) = self.held.try_extend_from_slice(end) {
            return Err(self.player.stop_long(writer));
        }
        self.player
            .take_line(alloc, manner, self.held.as_slice(), writer)?;
        self.held.clear();
        Ok(())
    }

    /// The reader came to its end.
    fn end<M: Manner, W: Write>(
        &mut self,
        alloc: Global,
        manner: &M,
        writer: &mut W,
    ) -> Result<Summary, ScriptFault>
        requires { self.old.player.number < 2 ^ 62 }
        ensures ok { IfOk result (EndsRead (M.writes manner.now) self.old (W.contents writer.old)
            (W.contents writer.new)) }
        ensures err { IfErr result (StopsRead (M.writes manner.now) self.old (W.contents writer.old)
            (W.contents writer.new)) }
    {
        self.player
            .take_line(alloc, manner, self.held.as_slice(), writer)?;
        self.player.end(None, writer)
    }

    /// The reader failed. The fault comes at the line behind those that were read whole.
    fn break_off<M: Manner, W: Write>(
        &mut self,
        alloc: Global,
        manner: &M,
        writer: &mut W,
    ) -> Result<Summary, ScriptFault>
        requires { self.old.player.number < 2 ^ 62 }
        ensures ok { ¬ IsOk result }
        ensures err { IfErr result (BreaksRead (M.writes manner.now) self.old (W.contents writer.old)
            (W.contents writer.new)) }
    {
        self.player.take_line(alloc, manner, b"", writer)?;
        self.player.end(Some(ScriptFaultKind::ReadFailed), writer)
    }
}
