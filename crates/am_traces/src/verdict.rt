//! Traces are judged by their laws.

ghost use Rattle.std.specs.Prelude.{◌≡◌, ◌≤◌, ◌+◌, ℕ, List, cond, true, IfNone, IfOk, IfErr, IfSome, OnErr, OnOk};
ghost use Rattle.std.specs.Io.KnownBytes.{Appends, Consumes, IsAtEnd};
ghost use Rattle.std.specs.List.{count_by};
ghost use Rattle.am_script.specs.{lines_of};
ghost use Rattle.am_traces.specs.Judged.{IsLineOf, IsNotTold, IsReadingFault, IsVerdict, JudgesInput, StopsJudging, judge_fault, verdict_line};
ghost use Rattle.am_traces.specs.Says.{is_indented, IsUnread};

use crate::fault::{Expected, TraceFault};
use crate::trace::{is_indented, read_trace};
use am_laws::{Law, first_breach};
use am_lines::cut_at_line_feed;
use am_script::output::write_bytes;
use itoa::Buffer;
use std::alloc::{AllocError, Global};
use std::io::{Error as IoError, ErrorKind, Read, Write};
use thiserror::Error;

/// What a trace comes to.
#[derive(Clone, Copy, Debug, PartialEq, Eq)]
pub enum Verdict {
    /// All laws hold.
    Lawful,
    /// A law fails at the observation on this line, counted from 1, and none fails above.
    Broken { line: usize, law: Law },
}

/// Why a verdict isn't written.
#[derive(Clone, Copy, Debug, PartialEq, Eq, Error)]
pub enum JudgeFault {
    /// The text is no trace: an indented line is that of no observation. The line is counted from
    /// 1, and so is the byte at which it doesn't go on as expected.
    #[error("line {line}, column {column}: {expected} expected")]
    BadLine {
        line: usize,
        column: usize,
        expected: Expected,
    },
    /// Out of memory.
    #[error("NoMemory")]
    NoMemory,
    /// The reader failed.
    #[error("ReadFailed")]
    ReadFailed,
    /// The writer didn't take the whole line.
    #[error("WriteFailed")]
    WriteFailed,
}

/// Of so many indented lines that are still to be passed over, how many are left behind this line;
/// none where it is the one behind them.
fn left_behind(line: &[u8], left: usize) -> Option<usize>
    ensures none { IfNone result ((is_indented line.now ≡ true) × (left ≡ 0)) }
    ensures some { IfSome result (λ fewer. left ≡ fewer + cond (is_indented line.now) 1 0) }
{
    if is_indented(line) {
        return left.checked_sub(1);
    }
    Some(left)
}

/// The number of the indented line before which so many stand, from 1.
fn indented_line(text: &[u8], place: usize) -> Option<usize>
    ensures none { IfNone result (count_by is_indented (lines_of text.now) ≤ place) }
    ensures some { IfSome result (IsLineOf (lines_of text.now) place) }
{
    let mut rest = text;
    let mut above = 0;
    let mut left = place;
    loop {
        let (line, behind) = cut_at_line_feed(rest);
        let Some(fewer) = left_behind(line, left) else {
            return Some(above + 1);
        };
        let Some(next) = behind else {
            return None;
        };
        rest = next;
        above += 1;
        left = fewer;
    }
}

/// Reads a trace, and judges it.
pub fn judge(alloc: Global, text: &[u8]) -> Result<Verdict, TraceFault>
    ensures ok { IfOk result (IsVerdict (lines_of text.now)) }
    ensures err { IfErr result (IsUnread (lines_of text.now)) }
{
    let seen = read_trace(alloc, text)?;
    let Some(breach) = first_breach(seen.as_slice()) else {
        return Ok(Verdict::Lawful);
    };
    match indented_line(text, breach.place) {
        Some(line) => Ok(Verdict::Broken {
            line,
            law: breach.law,
        }),
        // Each observation has its line.
        None => unreachable!(),
    }
}

/// The line that tells a verdict.
fn verdict_text(alloc: Global, verdict: Verdict) -> Result<Vec<u8>, AllocError>
    ensures { IfOk result (λ text. text.items ≡ verdict_line verdict) }
{
    let mut text = Vec::new(alloc);
    match verdict {
        Verdict::Lawful => text.extend_from_slice(b"lawful\n")?,
        Verdict::Broken { line, law } => {
            let mut digits = Buffer::new();
            text.extend_from_slice(b"line ")?;
            text.extend_from_slice(digits.format(line).as_bytes())?;
            text.extend_from_slice(b": ")?;
            text.extend_from_slice(law.sentence().as_bytes())?;
            text.extend_from_slice(b"\n")?;
        }
    }
    Ok(text)
}

fn reading_fault(error: &IoError) -> JudgeFault
    ensures { IsReadingFault result }
{
    match error.kind() {
        ErrorKind::OutOfMemory => JudgeFault::NoMemory,
        _ => JudgeFault::ReadFailed,
    }
}

fn trace_fault(fault: TraceFault) -> JudgeFault
    ensures { result ≡ judge_fault fault }
{
    match fault {
        TraceFault::BadLine {
            line,
            column,
            expected,
        } => JudgeFault::BadLine {
            line,
            column,
            expected,
        },
        TraceFault::NoMemory => JudgeFault::NoMemory,
    }
}

/// Reads to the end.
fn read_text<R: Read>(alloc: Global, reader: &mut R) -> Result<Vec<u8>, JudgeFault>
    ensures ok { IfOk result (λ text. Consumes (R.remaining reader.old) (R.remaining reader.new)
        text.items × IsAtEnd (R.remaining reader.new)) }
    ensures err { IfErr result IsReadingFault }
    ensures read { OnErr result ((text : List ℕ) × Consumes (R.remaining reader.old)
        (R.remaining reader.new) text) }
{
    let mut text = Vec::new(alloc);
    match reader.read_to_end(&mut text) {
        Ok(_) => Ok(text),
        Err(error) => Err(reading_fault(&error)),
    }
}

/// Writes the line that tells a verdict.
fn tell<W: Write>(alloc: Global, verdict: Verdict, writer: &mut W) -> Result<(), JudgeFault>
    ensures ok { OnOk result (Appends (W.contents writer.old) (W.contents writer.new)
        (verdict_line verdict)) }
    ensures err { IfErr result (IsNotTold verdict (W.contents writer.old)
        (W.contents writer.new)) }
{
    let Ok(line) = verdict_text(alloc, verdict) else {
        return Err(JudgeFault::NoMemory);
    };
    if write_bytes(writer, line.as_slice()) < line.len() {
        return Err(JudgeFault::WriteFailed);
    }
    Ok(())
}

/// Reads a trace to its end, judges it, and writes the line that tells what it comes to. Where
/// there is no verdict nothing is written, and where the writer fails a beginning of its line.
pub fn judge_trace<R: Read, W: Write>(
    alloc: Global,
    reader: &mut R,
    writer: &mut W,
) -> Result<Verdict, JudgeFault>
    ensures ok { IfOk result (JudgesInput (R.remaining reader.old) (R.remaining reader.new)
        (W.contents writer.old) (W.contents writer.new)) }
    ensures err { IfErr result (StopsJudging (R.remaining reader.old) (R.remaining reader.new)
        (W.contents writer.old) (W.contents writer.new)) }
{
    let text = read_text(alloc, reader)?;
    match judge(alloc, text.as_slice()) {
        Ok(verdict) => {
            tell(alloc, verdict, writer)?;
            Ok(verdict)
        }
        Err(fault) => Err(trace_fault(fault)),
    }
}
