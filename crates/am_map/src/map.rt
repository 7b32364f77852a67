//! A map that has been read.

ghost use Rattle.std.specs.Prelude.{◌≡◌, ◌≤◌, ◌+◌, ◌↔◌, [], ℕ, length, slice_get, is_some, IsTrue, IfOk, IfErr, OnOk, OnErr, find};
ghost use Rattle.std.specs.Option.{option_copied, option_map};
ghost use Rattle.am_lines.specs.{words_of, statements, statement_of_words, IsReached};
ghost use Rattle.am_map.specs.LookUp.{has_key, row_for, entry_for};
ghost use Rattle.am_map.specs.Fault.{IsFaultOr};
ghost use Rattle.am_map.specs.Grammar.{map_read, rows_read, AreRows, ReadAs, FindsFirst, keyed, entry_read};
ghost use Rattle.am_map.specs.Parts.{entry_of, lent_row};
ghost use Rattle.am_map.specs.Stored.{row_added, added, line_added};

use crate::entry::Entry;
use crate::fault::{MapFault, MapFaultKind};
use crate::kind::MapKind;
use crate::parts::EntryRef;
use crate::words::{key_text, read_entry, read_name, read_path};
use am_lines::{first_word, next_line};
use indexmap::IndexMap;
use std::alloc::{AllocError, Global};
use std::marker::Model;

/// The rows of a map, of those with one key the first.
#[derive(Drop)]
pub struct Map {
    rows: IndexMap<Vec<u8>, Entry>,
}

impl Model for Map {
    ghost use Rattle.std.specs.Prelude.{List};
    ghost use Rattle.am_map.specs.EntryText.{Row};
    ghost use Rattle.am_map.specs.Stored.{rows_by};

    ghost Value = { List Row };

    ghost view = { λ m. rows_by (λ key. key.items) m.rows.entries };
}

impl Map {
    /// Reads a whole text, or tells its first faulty line. A text without lines is an empty map.
    pub fn read(alloc: Global, text: &[u8], kind: MapKind) -> Result<Map, MapFault>
        ensures read { ReadAs (map_read kind text.now) result }
        ensures look_ups { IfOk result (FindsFirst (rows_read kind (statements text.now))) }
        ensures reached { IfErr result (λ fault. IsReached (AreRows kind) text.now fault.line) }
        ensures line { IfErr result (λ fault. fault.line ≤ length text.now + 1) }
    {
        let mut map = Map::new(alloc);
        let mut line = Vec::new(alloc);
        let mut rest = text;
        let mut number = 1;
        loop {
            let Ok(behind) = next_line(rest, &mut line) else {
                return Err(MapFault {
                    line: number,
                    kind: MapFaultKind::NoMemory,
                });
            };
            if let Err(kind) = map.read_line(alloc, line.as_slice(), kind) {
                return Err(MapFault { line: number, kind });
            }
            let Some(next) = behind.rest else {
                return Ok(map);
            };
            number += behind.raw_lines;
            rest = next;
        }
    }

    /// The same rows once more.
    #[tactic(auto, using(crate::proofs::CopyLemmas::same_rows))]
    pub fn copy(&self) -> Result<Map, AllocError>
        ensures { IfOk result (λ copy. copy ≡ self.now) }
    {
        Ok(Map {
            rows: self.rows.clone()?,
        })
    }

    /// The key and the entry at this index.
    fn row(&self, index: usize) -> Option<(&[u8], &Entry)>
        ensures { option_map lent_row result ≡ slice_get self.now index }
    {
        let (key, entry) = self.rows.get_index(index)?;
        Some((key.as_slice(), entry))
    }

    /// Whether both have the same row at this index, or both none.
    fn is_same_at(&self, other: &Map, index: usize) -> bool
        ensures { IsTrue result ↔ (slice_get self.now index ≡ slice_get other.now index) }
    {
        match (self.row(index), other.row(index)) {
            (Some((key, entry)), Some((other_key, other_entry))) => {
                key == other_key && entry.is_same(other_entry)
            }
            (None, None) => true,
            (None, Some(_)) | (Some(_), None) => false,
        }
    }

    /// How many rows there are.
    fn len(&self) -> usize
        ensures { result ≡ length self.now }
    {
        self.rows.len()
    }

    /// Whether both have the same rows in the same order.
    #[tactic(auto, using(am_names::proofs::Basics::one_more_alike))]
    pub fn is_same(&self, other: &Map) -> bool
        ensures { IsTrue result ↔ (self.now ≡ other.now) }
    {
        if self.len() != other.len() {
            return false;
        }
        for index in 0..self.len() {
            if !self.is_same_at(other, index) {
                return false;
            }
        }
        true
    }

    /// The entry of the first line with this key, else of the first `*` line, with each `&` of
    /// its host and its path replaced by the key (autofs(5), "Map Key Substitution" and "Wildcard
    /// Key"). A key of a direct map is the `key_text` of a path.
    pub fn look_up(&self, alloc: Global, key: &[u8]) -> Result<Option<Entry>, AllocError>
        ensures { IfOk result (λ found. found ≡ entry_for self.now key.now) }
    {
        match self.line_for(key) {
            Some(entry) => Ok(Some(entry.with_key(alloc, key)?)),
            None => Ok(None),
        }
    }

    /// Whether a look-up of this key finds an entry.
    pub fn has_entry(&self, key: &[u8]) -> bool
        ensures { result ≡ is_some (row_for self.now key.now) }
    {
        self.line_for(key).is_some()
    }

    /// The entry of the first line with this key, else of the first `*` line.
    fn line_for(&self, key: &[u8]) -> Option<&Entry>
        ensures { option_copied result ≡ option_map (λ row. row.entry) (row_for self.now key.now) }
    {
        match self.line_with(key) {
            Some(entry) => Some(entry),
            None => self.line_with(b"*"),
        }
    }

    /// The entry of the line with this key.
    fn line_with(&self, key: &[u8]) -> Option<&Entry>
        ensures { option_copied result
            ≡ option_map (λ row. row.entry) (find (has_key key.now) self.now) }
    {
        self.rows.get(key)
    }

    /// No rows.
    fn new(alloc: Global) -> Map
        ensures { result ≡ [] }
    {
        Map {
            rows: IndexMap::new(alloc),
        }
    }

    /// Adds the row of a line, if the line says something.
    fn read_line(&mut self, alloc: Global, line: &[u8], kind: MapKind) -> Result<(), MapFaultKind>
        ensures ok { OnOk result ((n : ℕ)
            → line_added kind self.old (statement_of_words n (words_of line.now)) ≡ Ok self.new) }
        ensures err { IfErr result (λ fault. IsFaultOr fault ((n : ℕ)
            → line_added kind self.old (statement_of_words n (words_of line.now)) ≡ Err fault)) }
    {
        let Some((first, others)) = first_word(line) else {
            return Ok(());
        };
        match kind {
            MapKind::Indirect => {
                read_name(first)?;
                self.read_row(alloc, first, others)
            }
            MapKind::Direct => {
                let path = read_path(first)?;
                let Ok(place) = path.to_place(alloc) else {
                    return Err(MapFaultKind::NoMemory);
                };
                self.read_row(alloc, key_text(place.text()), others)
            }
        }
    }

    /// Adds the row of a key and the words behind it.
    fn read_row(&mut self, alloc: Global, key: &[u8], others: &[u8]) -> Result<(), MapFaultKind>
        ensures ok { OnOk result
            (added self.old (keyed (Ok key.now) (entry_read (words_of others.now))) ≡ Ok self.new) }
        ensures err { IfErr result (λ fault. IsFaultOr fault
            (added self.old (keyed (Ok key.now) (entry_read (words_of others.now))) ≡ Err fault)) }
    {
        let entry = read_entry(others)?;
        match self.add(alloc, key, &entry) {
            Ok(()) => Ok(()),
            Err(_) => Err(MapFaultKind::NoMemory),
        }
    }

    /// Adds a row behind the others, unless there is one with its key.
    fn add(&mut self, alloc: Global, key: &[u8], entry: &EntryRef<'_>) -> Result<(), AllocError>
        ensures ok { OnOk result
            (self.new ≡ row_added self.old (record { key = key.now; entry = entry_of entry.now })) }
        ensures err { OnErr result (self.new ≡ self.old) }
    {
        if self.rows.contains_key(key) {
            return Ok(());
        }
        let key = Vec::from_slice(alloc, key)?;
        let entry = entry.copy(alloc)?;
        self.rows.insert(key, entry)?;
        Ok(())
    }
}
