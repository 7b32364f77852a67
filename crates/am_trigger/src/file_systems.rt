//! Each autofs, found by its number.

ghost use Rattle.std.specs.Prelude.{◌≡◌, ◌≤◌, ◌+◌, ◌++◌, ◌∷◌, ◌==◌, ◌↔◌, [], None, find, map, IsTrue, IfOk, OnOk};
ghost use Rattle.am_trigger.specs.Rows.{catatonic_row};

use crate::autofs::Autofs;
use am_names::FsId;
use am_ordered::are_same;
use indexmap::IndexMap;
use std::alloc::{AllocError, Global};
use std::marker::Model;

/// Each autofs, in order of adding.
#[derive(Drop)]
pub struct FileSystems {
    /// By their numbers.
    entries: IndexMap<u32, Autofs>,
    /// How many more there is surely room for.
    room: usize,
}

impl Model for FileSystems {
    ghost use Rattle.am_trigger.specs.FileSystemTable.{FileSystemTable};

    ghost Value = { FileSystemTable };

    ghost use Rattle.am_trigger.specs.FileSystemView.{file_systems_of, IsNumbered};

    ghost view = { file_systems_of };

    ghost invariant = { IsNumbered };
}

impl FileSystems {
    /// No autofs.
    pub fn new(alloc: Global) -> FileSystems
        ensures { result.rows ≡ [] }
    {
        FileSystems {
            entries: IndexMap::new(alloc),
            room: 0,
        }
    }

    /// The same once more, with as much room.
    pub fn copy(&self) -> Result<FileSystems, AllocError>
        ensures { IfOk result (λ copy. copy ≡ self.now) }
    {
        let mut entries = self.entries.clone()?;
        entries.reserve(self.room)?;
        Ok(FileSystems {
            entries,
            room: self.room,
        })
    }

    /// Whether both are the same, in the same order.
    #[tactic(auto, using(crate::proofs::SameLemmas::autofs_decides, crate::proofs::SameLemmas::known_by_values))]
    pub fn is_same(&self, other: &FileSystems) -> bool
        ensures { IsTrue result ↔ (self.now.rows ≡ other.now.rows) }
    {
        are_same(&self.entries, &other.entries)
    }

    /// The autofs of this number.
    pub fn get(&self, fs: FsId) -> Option<Autofs>
        ensures { result ≡ find (λ row. row.fs == fs) self.now.rows }
    {
        self.entries.get(&fs.0).copied()
    }

    /// Makes room for one more.
    pub fn reserve(&mut self) -> Result<(), AllocError>
        ensures rows { self.new.rows ≡ self.old.rows }
        ensures room { self.old.room ≤ self.new.room }
        ensures ok { OnOk result (1 ≤ self.new.room) }
    {
        self.entries.reserve(1)?;
        if self.room == 0 {
            self.room = 1;
        }
        Ok(())
    }

    /// One more, the last, for which there is room.
    pub fn push_reserved(&mut self, row: Autofs)
        requires room { 1 ≤ self.old.room }
        requires fresh { find (λ other. other.fs == row.fs) self.old.rows ≡ None }
        ensures rows { self.new.rows ≡ self.old.rows ++ row ∷ [] }
        ensures room { self.old.room ≡ self.new.room + 1 }
    {
        let number = row.fs.0;
        // There is room for it.
        let _none = self.entries.insert(number, row);
        self.room -= 1;
    }

    /// The file system becomes catatonic, or is so no longer.
    pub fn set_catatonic(&mut self, fs: FsId, catatonic: bool)
        ensures rows { self.new.rows ≡ map (catatonic_row fs catatonic) self.old.rows }
        ensures room { self.new.room ≡ self.old.room }
    {
        if let Some(row) = self.entries.get_mut(&fs.0) {
            row.catatonic = catatonic;
        }
    }
}
