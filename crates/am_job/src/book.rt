//! The daemon's book: what is mounted on each trigger.

ghost use Rattle.std.specs.Prelude.{◌≡◌, ◌≤◌, ◌+◌, ◌==◌, ◌↔◌, not, length, filter, remove, slice_get, if◌then◌else◌, [], Some, None, IsTrue, IfOk, IfSome, OnOk, OnErr};
ghost use Rattle.am_names.specs.{RefusedAs};
ghost use Rattle.am_job.specs.Book.{record_of, with_record, without_record, without_fs, IsRecorded, IsForgotten};

use am_names::{Errno, FsId, Name, Trigger};
use am_ordered::OrderedMap;
use am_state::{Record, RecordRow};
use std::alloc::{AllocError, Global};
use std::marker::Model;

/// What the daemon has written down of each trigger.
#[derive(Drop)]
pub struct Book {
    records: OrderedMap<Trigger, Record>,
}

impl Model for Book {
    ghost use Rattle.am_job.specs.Capacity.{BookTable};

    ghost Value = { BookTable };

    ghost use Rattle.am_job.specs.View.{table_of};

    ghost view = { table_of };
}

/// The record at this index goes if it is of the file system.
fn forget_index(records: &mut OrderedMap<Trigger, Record>, index: usize, fs: FsId)
    ensures entries { IfSome (slice_get records.old.entries index) (λ row. records.new.entries
        ≡ (if row.0.fs == fs then remove records.old.entries index else records.old.entries)) }
    ensures room { records.old.room ≤ records.new.room }
{
    if let Some((trigger, _)) = records.get_index(index) {
        if trigger.fs == fs {
            let _gone = records.remove_index(index);
        }
    }
}

/// The records of the file system go, the last first.
fn forget_fs(records: &mut OrderedMap<Trigger, Record>, fs: FsId)
    ensures entries { records.new.entries
        ≡ filter (λ row. not (row.0.fs == fs)) records.old.entries }
    ensures room { records.old.room ≤ records.new.room }
{
    let mut left = records.len();
    while left > 0 {
        left -= 1;
        forget_index(records, left, fs);
    }
}

impl Book {
    /// No record.
    pub fn new(alloc: Global) -> Book
        ensures { result.rows ≡ [] }
    {
        Book {
            records: OrderedMap::new(alloc),
        }
    }

    /// The same records once more, with no less room.
    pub fn copy(&self, alloc: Global) -> Result<Book, AllocError>
        ensures rows { IfOk result (λ copy. copy.rows ≡ self.now.rows) }
        ensures room { IfOk result (λ copy. self.now.room ≤ copy.room) }
    {
        Ok(Book {
            records: self.records.copy(alloc)?,
        })
    }

    /// Whether both have the same records in the same order.
    #[tactic(auto, using(am_names::proofs::SameTriggers::key_decides, crate::proofs::SameLemmas::record_decides))]
    pub fn is_same(&self, other: &Book) -> bool
        ensures { IsTrue result ↔ (self.now.rows ≡ other.now.rows) }
    {
        self.records.is_same(&other.records)
    }

    /// How many records there are.
    pub fn len(&self) -> usize
        ensures { result ≡ length self.now.rows }
    {
        self.records.len()
    }

    /// The record at this place, in order of making.
    pub fn row(&self, index: usize) -> Option<RecordRow>
        ensures { result ≡ slice_get self.now.rows index }
    {
        let (trigger, entry) = self.records.get_index(index)?;
        Some(RecordRow {
            trigger: *trigger,
            entry: *entry,
        })
    }

    /// What is written down of the trigger.
    pub fn record(&self, trigger: &Trigger) -> Option<Record>
        ensures { result ≡ record_of self.now.rows trigger.now }
    {
        self.records.get(trigger).copied()
    }

    /// Writes this record down for the trigger, in the place of what was written before.
    pub fn put(&mut self, trigger: Trigger, entry: Record) -> Result<(), Errno>
        ensures refusal { RefusedAs None result }
        ensures ok { OnOk result (self.new.rows ≡ with_record trigger entry self.old.rows) }
        ensures map { OnOk result (IsRecorded trigger (Some entry) self.old.rows self.new.rows) }
        ensures err { OnErr result (self.new.rows ≡ self.old.rows) }
    {
        // For the checker alone, which is to know the type of a key's name.
        let _name: Option<Name> = trigger.name;
        self.records.insert(trigger, entry)?;
        Ok(())
    }

    /// Makes room for so many more records.
    pub fn reserve(&mut self, count: usize) -> Result<(), Errno>
        ensures refusal { RefusedAs None result }
        ensures rows { self.new.rows ≡ self.old.rows }
        ensures room { self.old.room ≤ self.new.room }
        ensures ok { OnOk result (count ≤ self.new.room) }
    {
        self.records.reserve(count)?;
        Ok(())
    }

    /// Writes a record down as `put` does, and there is room for it.
    pub fn put_reserved(&mut self, trigger: Trigger, entry: Record)
        requires { 1 ≤ self.old.room }
        ensures rows { self.new.rows ≡ with_record trigger entry self.old.rows }
        ensures map { IsRecorded trigger (Some entry) self.old.rows self.new.rows }
        ensures room { self.old.room ≤ self.new.room + 1 }
    {
        // For the checker alone, which is to know the type of a key's name.
        let _name: Option<Name> = trigger.name;
        self.records.insert_reserved(trigger, entry);
    }

    /// Writes down that nothing is mounted on the trigger. It takes no memory.
    pub fn remove(&mut self, trigger: &Trigger)
        ensures rows { self.new.rows ≡ without_record trigger.now self.old.rows }
        ensures map { IsRecorded trigger.now None self.old.rows self.new.rows }
        ensures room { self.old.room ≤ self.new.room }
    {
        let _gone = self.records.remove(trigger);
    }

    /// Forgets a file system. It takes no memory.
    pub fn remove_fs(&mut self, fs: FsId)
        ensures rows { self.new.rows ≡ without_fs fs self.old.rows }
        ensures map { IsForgotten fs self.old.rows self.new.rows }
        ensures room { self.old.room ≤ self.new.room }
    {
        forget_fs(&mut self.records, fs);
    }

    /// Forgets everything. It takes no memory.
    pub fn clear(&mut self)
        ensures rows { self.new.rows ≡ [] }
        ensures room { self.old.room ≤ self.new.room }
    {
        self.records.clear();
    }
}
