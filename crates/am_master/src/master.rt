//! A master map that has been read.

ghost use Rattle.std.specs.Prelude.{◌≡◌, ◌≤◌, ◌+◌, ◌∷◌, ◌++◌, ◌↔◌, [], length, IfOk, IfErr, OnOk, OnErr, IsOk, IsTrue, false};
ghost use Rattle.std.specs.Str.{bytes_eq};
ghost use Rattle.std.specs.List.{list_any};
ghost use Rattle.am_lines.specs.{words_of, statement_of_words, IsReached};
ghost use Rattle.am_master.specs.Fault.{IsFaultOr};
ghost use Rattle.am_names.specs.{IsCanonical, names_of};
ghost use Rattle.am_master.specs.Points.{line_at, texts_of};
ghost use Rattle.am_master.specs.declared.fault.MasterFaultKind.TheVariants.{NoMemory};
ghost use Rattle.am_master.specs.Grammar.{master_read, AreRows, ReadAs, is_taken, StandWithin};
ghost use Rattle.am_master.specs.Stored.{line_added};

use crate::entry::MasterEntry;
use crate::fault::{MasterFault, MasterFaultKind};
use crate::point::Point;
use crate::points::Points;
use crate::words::{ServedPointRef, is_direct, read_point, read_served};
use am_lines::{first_word, next_line};
use std::alloc::{AllocError, Global};
use std::marker::Model;

/// The lines of a master map, in their order.
#[derive(Debug, Drop)]
pub struct Master {
    entries: Vec<MasterEntry>,
    points: Points,
}

impl Model for Master {
    ghost use Rattle.std.specs.Prelude.{List};
    ghost use Rattle.am_master.specs.MasterRow.{MasterRow};
    ghost use Rattle.am_master.specs.Places.{ArePoints};

    ghost Value = { List MasterRow };

    ghost view = { λ m. m.entries.items };

    ghost invariant = { λ m. ArePoints m.points m.entries.items };
}

/// The same lines once more.
fn copies_of(alloc: Global, entries: &[MasterEntry]) -> Result<Vec<MasterEntry>, AllocError>
    ensures { IfOk result (λ copies. copies.items ≡ entries.now) }
{
    let mut copies = Vec::with_capacity(alloc, entries.len())?;
    for entry in entries {
        copies.push(entry.copy(alloc)?)?;
    }
    Ok(copies)
}

/// Whether these are the same lines.
fn are_same(entries: &[MasterEntry], others: &[MasterEntry]) -> bool
    ensures { IsTrue result ↔ (entries.now ≡ others.now) }
{
    entries.len() == others.len()
        && entries
            .iter()
            .zip(others)
            .all(|(entry, other)| entry.is_same(other))
}

impl Master {
    /// Reads a whole text, or tells its first faulty line.
    pub fn read(alloc: Global, text: &[u8]) -> Result<Master, MasterFault>
        ensures read { ReadAs (master_read text.now) result }
        ensures lines { IfOk result (StandWithin (length text.now + 1)) }
        ensures reached { IfErr result (λ fault. IsReached AreRows text.now fault.line) }
        ensures line { IfErr result (λ fault. fault.line ≤ length text.now + 1) }
    {
        let mut master = Master::new(alloc);
        let mut line = Vec::new(alloc);
        let mut rest = text;
        let mut number = 1;
        loop {
            let Ok(behind) = next_line(rest, &mut line) else {
                return Err(MasterFault {
                    line: number,
                    kind: MasterFaultKind::NoMemory,
                });
            };
            if let Err(kind) = master.read_line(alloc, line.as_slice(), number) {
                return Err(MasterFault { line: number, kind });
            }
            let Some(next) = behind.rest else {
                return Ok(master);
            };
            number += behind.raw_lines;
            rest = next;
        }
    }

    /// The same lines once more.
    pub fn copy(&self, alloc: Global) -> Result<Master, AllocError>
        ensures { IfOk result (λ copy. copy ≡ self.now) }
    {
        Ok(Master {
            entries: copies_of(alloc, self.entries.as_slice())?,
            points: self.points.copy()?,
        })
    }

    /// Whether both have the same lines.
    pub fn is_same(&self, other: &Master) -> bool
        ensures { IsTrue result ↔ (self.now ≡ other.now) }
    {
        are_same(self.entries(), other.entries())
    }

    /// The lines, in their order.
    pub fn entries(&self) -> &[MasterEntry]
        ensures { result.now ≡ self.now }
    {
        self.entries.as_slice()
    }

    /// The place, from 0, of the line whose point is the path of this canonical text. It is found
    /// by hash.
    pub fn line_at(&self, text: &[u8]) -> Option<usize>
        requires { IsCanonical text.now }
        ensures { result ≡ line_at self.now (names_of text.now) }
    {
        self.points.line_at(text)
    }

    /// No lines.
    fn new(alloc: Global) -> Master
        ensures { result ≡ [] }
    {
        Master {
            entries: Vec::new(alloc),
            points: Points::new(alloc),
        }
    }

    /// Adds what a line says, if it says something.
    fn read_line(
        &mut self,
        alloc: Global,
        line: &[u8],
        number: usize,
    ) -> Result<(), MasterFaultKind>
        ensures ok { OnOk result
            (line_added self.old (statement_of_words number (words_of line.now)) ≡ Ok self.new) }
        ensures err { IfErr result (λ fault. IsFaultOr fault
            (line_added self.old (statement_of_words number (words_of line.now)) ≡ Err fault)) }
    {
        let Some((first, others)) = first_word(line) else {
            return Ok(());
        };
        if is_direct(first) {
            let served = read_served(others)?;
            return in_memory(self.add(alloc, Point::Direct, &served, number));
        }
        let path = read_point(first)?;
        let Ok(place) = path.to_place(alloc) else {
            return Err(MasterFaultKind::NoMemory);
        };
        if self.has_point(place.text()) {
            return Err(MasterFaultKind::Twice);
        }
        let served = read_served(others)?;
        in_memory(self.add(alloc, Point::Indirect(place), &served, number))
    }

    /// Whether a line has the point of this canonical text.
    fn has_point(&self, text: &[u8]) -> bool
        ensures { result ≡ list_any (bytes_eq text.now) (texts_of self.now) }
    {
        self.points.has(text)
    }

    /// Adds a line behind the others.
    fn add(
        &mut self,
        alloc: Global,
        point: Point,
        served: &ServedPointRef<'_>,
        line: usize,
    ) -> Result<(), AllocError>
        requires { is_taken self.old point ≡ false }
        ensures ok { OnOk result (self.new ≡ self.old ++ record {
          point = point;
          map = served.now.map.now;
          timeout = served.now.timeout;
          line = line;
        } ∷ []) }
        ensures err { OnErr result (self.new ≡ self.old) }
    {
        let map = Vec::from_slice(alloc, served.map)?;
        self.entries.reserve(1)?;
        self.points.add(alloc, &point, self.entries.len())?;
        self.entries.push_reserved(MasterEntry {
            point,
            map,
            timeout: served.timeout,
            line,
        });
        Ok(())
    }
}

/// The fault of an addition that found no memory.
fn in_memory(added: Result<(), AllocError>) -> Result<(), MasterFaultKind>
    ensures ok { OnOk result (IsOk added) }
    ensures err { IfErr result (λ fault. fault ≡ NoMemory) }
{
    match added {
        Ok(()) => Ok(()),
        Err(_) => Err(MasterFaultKind::NoMemory),
    }
}
