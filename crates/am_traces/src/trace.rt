//! The observations of a trace, line by line.

ghost use Rattle.std.specs.Prelude.{◌≡◌, ◌<◌, ◌^◌, ◌+◌, List, Ok, Err, IfOk, IfErr, OnOk};
ghost use Rattle.am_script.specs.{lines_of};
ghost use Rattle.am_state.specs.{Obs};
ghost use Rattle.am_traces.specs.Observations.{line_read};
ghost use Rattle.am_traces.specs.Says.{is_indented, IsTraceOf, IsUnread};
ghost use Rattle.am_traces.specs.Texts.{fault_at, told_at, with_line, lines_read, onto, LineReadAs, IsReadAs, IsTaken, IsNotTaken};

use crate::fault::{Miss, TraceFault};
use crate::line::{Stop, read_line};
use am_lines::{begins_with, cut_at_line_feed};
use am_state::Obs;
use std::alloc::Global;

pub(crate) fn is_indented(line: &[u8]) -> bool
    ensures { result ≡ is_indented line.now }
{
    begins_with(line, b' ')
}

/// The fault of a line, of which so many stand above.
fn fault_at(above: usize, line: &[u8], miss: Miss) -> TraceFault
    requires { above + 1 < 2 ^ 64 }
    ensures { result ≡ fault_at above line.now miss }
{
    TraceFault::BadLine {
        line: above + 1,
        column: line.len().saturating_sub(miss.left) + 1,
        expected: miss.expected,
    }
}

/// The observation of an indented line.
fn read_at(alloc: Global, above: usize, line: &[u8]) -> Result<Obs, TraceFault>
    requires { above + 1 < 2 ^ 64 }
    ensures { LineReadAs (told_at above line.now (line_read line.now)) result }
{
    match read_line(alloc, line) {
        Ok(obs) => Ok(obs),
        Err(Stop::Missed { miss }) => Err(fault_at(above, line, miss)),
        Err(Stop::NoMemory) => Err(TraceFault::NoMemory),
    }
}

/// Puts the observation of a line behind these, if it is indented.
fn take_line(
    alloc: Global,
    above: usize,
    line: &[u8],
    seen: &mut Vec<Obs>,
) -> Result<(), TraceFault>
    requires { above + 1 < 2 ^ 64 }
    ensures ok { OnOk result (IsTaken above line.now seen.old.items seen.new.items) }
    ensures err { IfErr result (IsNotTaken above line.now) }
{
    if !is_indented(line) {
        return Ok(());
    }
    let obs = read_at(alloc, above, line)?;
    match seen.push(obs) {
        Ok(()) => Ok(()),
        Err(_) => Err(TraceFault::NoMemory),
    }
}

/// The observations of all lines.
fn read_lines(alloc: Global, text: &[u8]) -> Result<Vec<Obs>, TraceFault>
    ensures ok { IfOk result (λ seen. lines_read 0 (lines_of text.now) ≡ Ok seen.items) }
    ensures err { IfErr result (λ fault. IsReadAs (lines_read 0 (lines_of text.now)) fault) }
{
    let mut seen = Vec::new(alloc);
    let mut left = text;
    let mut above = 0;
    loop {
        let (line, behind) = cut_at_line_feed(left);
        take_line(alloc, above, line, &mut seen)?;
        match behind {
            Some(rest) => left = rest,
            None => return Ok(seen),
        }
        above += 1;
    }
}

/// Reads a trace back: the observations of its indented lines, in order. Lines that aren't
/// indented say none, whatever they are. The first indented line that isn't just what is printed
/// of an observation is a fault.
pub fn read_trace(alloc: Global, text: &[u8]) -> Result<Vec<Obs>, TraceFault>
    ensures ok { IfOk result (λ seen. IsTraceOf (lines_of text.now) seen.items) }
    ensures only { IfOk result (λ seen. (other : List Obs) → IsTraceOf (lines_of text.now) other →
        other ≡ seen.items) }
    ensures err { IfErr result (IsUnread (lines_of text.now)) }
{
    read_lines(alloc, text)
}
