//! Reads mountinfo, and writes a script.

ghost use Rattle.std.specs.Prelude.{◌≡◌, ◌+◌, ◌++◌, ◌∷◌, [], ℕ, List, ◌≤◌, true, false, cond, bytes_eq, length, map, option_copied, IfOk, IfErr, OnOk, OnErr};
ghost use Rattle.std.specs.Io.KnownBytes.{Consumes, IsAtEnd};
ghost use Rattle.am_lines.specs.{words_of};
ghost use Rattle.am_script.specs.{are_skipped, lines_in, lines_of, size_in};
ghost use Rattle.am_import.specs.declared.imports.ImportFault.TheVariants.{NoMemory};
ghost use Rattle.am_import.specs.Imported.{AreMountsOf, ImportsInput, IsImport, IsNotImported, IsReadingFault, IsUnread, StopsImporting, begins_space};
ghost use Rattle.am_import.specs.Notes.{notes_text};
ghost use Rattle.am_import.specs.Taken.{IsFaultAt, IsNotTaken, IsTaken};
ghost use Rattle.am_world.specs.Capacity.{state_of};

use crate::likeness::Row;
use crate::notes::push_notes;
use crate::replay::{Played, replayed};
use crate::told::Told;
use am_diagnosis::column;
use am_import_plan::plan;
use am_lines::{begins_with, cut_at_line_feed, next_word};
use am_mount_lines::{Expected, LineFault, MountLine, read_mount};
use am_script::output::write_bytes;
use std::alloc::{AllocError, Global};
use std::io::{Error as IoError, ErrorKind, Read, Write};
use thiserror::Error;

/// Why no script is written, or not to its end.
#[derive(Clone, Copy, Debug, PartialEq, Eq, Error)]
pub enum ImportFault {
    /// A line is none of a mountinfo. It is counted from 1, and so is the byte at which it doesn't go on as expected.
    #[error("line {line}, column {column}: {expected} expected")]
    BadLine {
        line: usize,
        column: usize,
        expected: Expected,
    },
    /// Out of memory.
    #[error("NoMemory")]
    NoMemory,
    /// The reader failed.
    #[error("ReadFailed")]
    ReadFailed,
    /// The script that was made is none, or one of its events is refused, though there is memory for all of them:
    /// nothing is written.
    #[error("NotPlayed")]
    NotPlayed,
    /// The writer didn't take the whole text.
    #[error("WriteFailed")]
    WriteFailed,
}

impl From<AllocError> for ImportFault {
    ghost use Rattle.std.specs.Prelude.{◌≡◌};
    ghost use Rattle.am_import.specs.declared.imports.ImportFault.TheVariants as faults;

    ghost from_gives = { λ _ fault. fault ≡ faults.NoMemory };

    fn from(_error: AllocError) -> ImportFault {
        ImportFault::NoMemory
    }
}

fn is_word(word: &[u8], text: &[u8]) -> bool
    ensures { result ≡ bytes_eq word.now text.now }
{
    word == text
}

/// Whether a line begins the mounts of another namespace.
fn begins_space(line: &[u8]) -> bool
    ensures { result ≡ begins_space line.now }
{
    let Some((mark, rest)) = next_word(line) else {
        return false;
    };
    match next_word(rest) {
        Some((word, _)) => is_word(mark, b"#") && is_word(word, b"namespace"),
        None => false,
    }
}

fn is_skipped(line: &[u8]) -> bool
    ensures { result ≡ are_skipped (words_of line.now) }
{
    match next_word(line) {
        Some((word, _)) => begins_with(word, b'#'),
        None => true,
    }
}

/// The mounts so far, and the namespace of the next.
#[derive(Drop)]
struct Mounts {
    lines: Vec<MountLine>,
    space: u32,
    /// Whether that has one already.
    is_used: bool,
}

impl Mounts {
    /// A heading begins another namespace, where this one has a mount.
    fn begin_space(&mut self) -> Result<(), ImportFault>
        ensures ok { OnOk result (self.new.space ≡ cond self.old.is_used (self.old.space + 1) self.old.space) }
        ensures used { OnOk result (self.new.is_used ≡ false) }
        ensures same { self.new.lines.items ≡ self.old.lines.items }
        ensures err { IfErr result (λ fault. fault ≡ NoMemory) }
    {
        if self.is_used {
            let Some(next) = self.space.checked_add(1) else {
                return Err(ImportFault::NoMemory);
            };
            self.space = next;
            self.is_used = false;
        }
        Ok(())
    }

    fn push(&mut self, line: MountLine) -> Result<(), ImportFault>
        ensures lines { OnOk result (self.new.lines.items ≡ self.old.lines.items ++ line ∷ []) }
        ensures space { self.new.space ≡ self.old.space }
        ensures used { OnOk result (self.new.is_used ≡ true) }
        ensures err { IfErr result (λ fault. fault ≡ NoMemory) }
    {
        if self.lines.push(line).is_err() {
            return Err(ImportFault::NoMemory);
        }
        self.is_used = true;
        Ok(())
    }
}

fn line_fault(number: usize, line: &[u8], fault: LineFault) -> ImportFault
    ensures { IsFaultAt number line.now fault result }
{
    match fault {
        LineFault::Misfit { misfit } => ImportFault::BadLine {
            line: number,
            column: column(line, misfit.place),
            expected: misfit.expected,
        },
        LineFault::NoMemory => ImportFault::NoMemory,
    }
}

/// Takes one line more, the one with this number.
fn take_line(
    alloc: Global,
    mounts: &mut Mounts,
    number: usize,
    line: &[u8],
) -> Result<(), ImportFault>
    ensures ok { OnOk result (IsTaken line.now mounts.old mounts.new) }
    ensures err { IfErr result (IsNotTaken number line.now) }
{
    if begins_space(line) {
        return mounts.begin_space();
    }
    if is_skipped(line) {
        return Ok(());
    }
    match read_mount(alloc, mounts.space, line) {
        Ok(mount) => mounts.push(mount),
        Err(fault) => Err(line_fault(number, line, fault)),
    }
}

/// The first line, without its line feed, and what stands after that, if there is one.
fn split_line(text: &[u8]) -> (&[u8], Option<&[u8]>)
    ensures lines { lines_of text.now ≡ result.0.now ∷ lines_in (option_copied result.1) }
    ensures shorter { size_in (option_copied result.1) + length result.0.now ≤ length text.now }
{
    cut_at_line_feed(text)
}

/// The mounts that the lines of a text tell.
fn read_lines(alloc: Global, text: &[u8]) -> Result<Vec<MountLine>, ImportFault>
    ensures ok { IfOk result (λ lines. AreMountsOf text.now lines.items) }
    ensures err { IfErr result (IsUnread (lines_of text.now)) }
{
    let mut mounts = Mounts {
        lines: Vec::new(alloc),
        space: 0,
        is_used: false,
    };
    let mut number = 0_usize;
    let mut rest = Some(text);
    while let Some(here) = rest {
        let (line, behind) = split_line(here);
        number += 1;
        take_line(alloc, &mut mounts, number, line)?;
        rest = behind;
    }
    Ok(mounts.lines)
}

fn reading_fault(error: &IoError) -> ImportFault
    ensures { IsReadingFault result }
{
    match error.kind() {
        ErrorKind::OutOfMemory => ImportFault::NoMemory,
        _ => ImportFault::ReadFailed,
    }
}

/// Reads to the end.
fn read_text<R: Read>(alloc: Global, reader: &mut R) -> Result<Vec<u8>, ImportFault>
    ensures ok { IfOk result (λ text. Consumes (R.remaining reader.old) (R.remaining reader.new)
        text.items × IsAtEnd (R.remaining reader.new)) }
    ensures err { IfErr result IsReadingFault }
    ensures read { OnErr result ((text : List ℕ) × Consumes (R.remaining reader.old)
        (R.remaining reader.new) text) }
{
    let mut text = Vec::new(alloc);
    match reader.read_to_end(&mut text) {
        Ok(_) => Ok(text),
        Err(error) => Err(reading_fault(&error)),
    }
}

/// Each line with the mount that stands for it.
fn rows_of(
    alloc: Global,
    lines: Vec<MountLine>,
    seats: &[Option<u64>],
) -> Result<Vec<Row>, AllocError>
    ensures { IfOk result (λ rows. map (λ row. row.line) rows.items ≡ lines.items) }
{
    let mut rows = Vec::with_capacity(alloc, lines.len())?;
    for line in lines {
        let seat = match seats.get(rows.len()) {
            Some(seat) => *seat,
            None => None,
        };
        rows.push(Row { line, seat })?;
    }
    Ok(rows)
}

/// The text that is written: the script, and what is told of each line.
fn told_of(alloc: Global, played: Played, rows: &[Row]) -> Result<Vec<u8>, AllocError>
    ensures { IfOk result (λ text. text.items ≡ played.script.items
        ++ notes_text (state_of played.world).kernel.table rows.now) }
{
    let Played { script, world } = played;
    let mut text = script;
    let told = Told::of(alloc, &world, rows)?;
    push_notes(&mut text, &world, &told, rows)?;
    Ok(text)
}

/// The import of a text.
fn imported(alloc: Global, text: &[u8]) -> Result<Vec<u8>, ImportFault>
    ensures ok { IfOk result (λ told. IsImport text.now told.items) }
    ensures err { IfErr result (IsNotImported text.now) }
{
    let lines = read_lines(alloc, text)?;
    let plan = plan(alloc, lines.as_slice())?;
    let rows = rows_of(alloc, lines, plan.seats.as_slice())?;
    let played = replayed(alloc, plan.script)?;
    Ok(told_of(alloc, played, rows.as_slice())?)
}

/// Reads mountinfo to its end, and writes a script that builds the same mounts, and behind it, in comments, for each
/// mount that was read the one that stands for it. Where there is no script nothing is written, and where the writer
/// fails a beginning of the text.
pub fn import<R: Read, W: Write>(
    alloc: Global,
    reader: &mut R,
    writer: &mut W,
) -> Result<(), ImportFault>
    ensures ok { OnOk result (ImportsInput (R.remaining reader.old) (R.remaining reader.new)
        (W.contents writer.old) (W.contents writer.new)) }
    ensures err { IfErr result (StopsImporting (R.remaining reader.old) (R.remaining reader.new)
        (W.contents writer.old) (W.contents writer.new)) }
{
    let text = read_text(alloc, reader)?;
    let told = imported(alloc, text.as_slice())?;
    if write_bytes(writer, told.as_slice()) < told.len() {
        return Err(ImportFault::WriteFailed);
    }
    Ok(())
}
