//! Answers on their way to the writer.

ghost use Rattle.std.specs.Prelude.{◌≡◌, ◌≤◌, [], nat_lt, find, take, length, None, OnSome};
ghost use Rattle.std.specs.Io.KnownBytes.{Appends};
ghost use Rattle.am_script.specs.Outputs.{line_at, lost_behind, owed_by, Settles, PutsOut};

use arrayvec::ArrayVec;
use std::io::Write;

/// Where the answer to a line ends among the bytes that are kept.
#[derive(Clone, Copy, Default)]
pub struct Mark {
    pub line: u64,
    pub end: usize,
}

/// Answers that are gathered before they are written. It takes no memory: a long answer goes to the
/// writer in pieces. Behind a fault of the writer nothing more is written.
#[derive(Drop)]
pub struct Output {
    /// What is kept.
    pub bytes: ArrayVec<u8, 8192>,
    /// The ends of all answers that are kept, but the last.
    pub marks: ArrayVec<Mark, 512>,
    /// The line that the last answer is of.
    pub line: u64,
    /// The line of the first answer that the writer didn't take whole.
    pub lost: Option<u64>,
}

impl Output {
    /// Nothing is answered yet.
    pub fn new() -> Output
        ensures bytes { result.bytes.items ≡ [] }
        ensures marks { result.marks.items ≡ [] }
        ensures lost { result.lost ≡ None }
    {
        Output {
            bytes: ArrayVec::new(),
            marks: ArrayVec::new(),
            line: 0,
            lost: None,
        }
    }

    /// What is put from here on is the answer to this line.
    pub fn begin<W: Write>(&mut self, line: u64, writer: &mut W)
        ensures line { self.new.line ≡ line }
        ensures settles { Settles self.old self.new (W.contents writer.old)
            (W.contents writer.new) }
    {
        if self.marks.is_full() {
            self.flush(writer);
            self.line = line;
            return;
        }
        let end = self.bytes.len();
        self.marks.push(Mark {
            line: self.line,
            end,
        });
        self.line = line;
    }

    /// Puts a text behind what is kept.
    pub fn put<W: Write>(&mut self, text: &[u8], writer: &mut W)
        ensures line { self.new.line ≡ self.old.line }
        ensures puts { PutsOut self.old self.new (owed_by self.old.line text.now)
            (W.contents writer.old) (W.contents writer.new) }
    {
        if let Ok(()) = self.bytes.try_extend_from_slice(text) {
            return;
        }
        self.flush(writer);
        if let Ok(()) = self.bytes.try_extend_from_slice(text) {
            return;
        }
        self.pass(text, writer);
    }

    /// Gives to the writer what is kept.
    pub fn flush<W: Write>(&mut self, writer: &mut W)
        ensures line { self.new.line ≡ self.old.line }
        ensures settles { Settles self.old self.new (W.contents writer.old)
            (W.contents writer.new) }
        ensures empty { self.new.bytes.items ≡ [] }
    {
        if self.lost.is_some() {
            self.clear();
            return;
        }
        let taken = write_bytes(writer, self.bytes.as_slice());
        self.lost = self.lost_behind(taken);
        self.clear();
    }

    /// Gives to the writer a text for which there is no room, where nothing is kept.
    fn pass<W: Write>(&mut self, text: &[u8], writer: &mut W)
        requires { self.old.bytes.items ≡ [] }
        ensures line { self.new.line ≡ self.old.line }
        ensures puts { PutsOut self.old self.new (owed_by self.old.line text.now)
            (W.contents writer.old) (W.contents writer.new) }
    {
        if self.lost.is_some() {
            return;
        }
        let taken = write_bytes(writer, text);
        if taken < text.len() {
            self.lost = Some(self.line);
        }
    }

    fn clear(&mut self)
        ensures bytes { self.new.bytes.items ≡ [] }
        ensures marks { self.new.marks.items ≡ [] }
        ensures line { self.new.line ≡ self.old.line }
        ensures lost { self.new.lost ≡ self.old.lost }
    {
        self.bytes.clear();
        self.marks.clear();
    }

    /// The line of the first byte that isn't among so many of those that are kept.
    fn lost_behind(&self, taken: usize) -> Option<u64>
        ensures { result ≡ lost_behind self.now.marks.items self.now.line self.now.bytes.items
            taken }
    {
        if taken < self.bytes.len() {
            return Some(line_at(self.marks.as_slice(), self.line, taken));
        }
        None
    }
}

/// The line of the byte at this place.
fn line_at(marks: &[Mark], line: u64, at: usize) -> u64
    ensures { result ≡ line_at marks.now line at }
{
    match mark_behind(marks, at) {
        Some(mark) => mark.line,
        None => line,
    }
}

/// The first mark behind this place.
fn mark_behind(marks: &[Mark], at: usize) -> Option<Mark>
    ensures { result ≡ find (λ mark. nat_lt at mark.end) marks.now }
{
    marks.iter().copied().find(|mark| at < mark.end)
}

/// Writes the bytes, and tells how many of them the writer took: all, unless it failed or took
/// none.
pub fn write_bytes<W: Write>(writer: &mut W, bytes: &[u8]) -> usize
    ensures bound { result ≤ length bytes.now }
    ensures taken { Appends (W.contents writer.old) (W.contents writer.new)
        (take result bytes.now) }
{
    let mut rest = bytes;
    while !rest.is_empty() {
        let taken = write_once(writer, rest);
        if taken == 0 {
            return bytes.len() - rest.len();
        }
        rest = &rest[taken..];
    }
    bytes.len()
}

/// Writes once, and tells how many bytes the writer took: none where it failed.
#[tactic(auto, using(crate::proofs::Writes::keeps_appends))]
fn write_once<W: Write>(writer: &mut W, bytes: &[u8]) -> usize
    ensures bound { result ≤ length bytes.now }
    ensures taken { Appends (W.contents writer.old) (W.contents writer.new)
        (take result bytes.now) }
{
    match writer.write(bytes) {
        Ok(taken) => taken,
        Err(_) => 0,
    }
}
