//! The attachments that the daemon holds, found by their file systems.

ghost use Rattle.std.specs.Prelude.{◌≡◌, ◌≤◌, ◌+◌, ◌==◌, ◌&&◌, ◌↔◌, [], map, find, length, slice_get, IsTrue, IfOk, OnOk};
ghost use Rattle.std.specs.List.{list_any};
ghost use Rattle.std.specs.Option.{option_map};
ghost use Rattle.am_daemon.specs.Attachments.{AreOnce, held_as};

use am_names::{Attach, FsId};
use am_ordered::OrderedMap;
use am_state::HeldRow;
use std::alloc::{AllocError, Global};
use std::marker::Model;

/// One attachment at most of each file system, in order of attaching.
#[derive(Drop)]
pub(crate) struct HeldTable {
    // By the numbers of the file systems.
    attachments: OrderedMap<u32, Attach>,
}

impl Model for HeldTable {
    ghost use Rattle.am_ordered.specs.RowTable.{RowTable};
    ghost use Rattle.am_state.specs.{HeldRow};

    ghost Value = { RowTable HeldRow };

    ghost use Rattle.am_daemon.specs.Held.{table_of, IsHeld};

    ghost view = { table_of };

    // No file system is there twice.
    ghost invariant = { IsHeld };
}

impl HeldTable {
    /// No attachment.
    pub(crate) fn new(alloc: Global) -> HeldTable
        ensures { result.rows ≡ [] }
    {
        HeldTable {
            attachments: OrderedMap::new(alloc),
        }
    }

    /// The same attachments once more, with no less room.
    pub(crate) fn copy(&self, alloc: Global) -> Result<HeldTable, AllocError>
        ensures rows { IfOk result (λ copy. copy.rows ≡ self.now.rows) }
        ensures room { IfOk result (λ copy. self.now.room ≤ copy.room) }
    {
        Ok(HeldTable {
            attachments: self.attachments.copy(alloc)?,
        })
    }

    /// Whether both have the same attachments in the same order.
    pub(crate) fn is_same(&self, other: &HeldTable) -> bool
        ensures { IsTrue result ↔ (self.now.rows ≡ other.now.rows) }
    {
        self.attachments.is_same(&other.attachments)
    }

    /// The attachment to the file system. There is one at most.
    pub(crate) fn get(&self, fs: FsId) -> Option<Attach>
        ensures exact { result
            ≡ option_map (λ row. row.attach) (find (λ row. row.fs == fs) self.now.rows) }
        ensures once { AreOnce (map (λ row. row.fs) self.now.rows) }
    {
        self.attachments.get(&fs.0).copied()
    }

    /// How many there are.
    pub(crate) fn len(&self) -> usize
        ensures { result ≡ length self.now.rows }
    {
        self.attachments.len()
    }

    /// The attachment at this index, in order of attaching.
    pub(crate) fn row(&self, index: usize) -> Option<HeldRow>
        ensures { result ≡ slice_get self.now.rows index }
    {
        let (fs, attach) = self.attachments.get_index(index)?;
        Some(HeldRow {
            fs: FsId(*fs),
            attach: *attach,
        })
    }

    /// Whether this attachment to the file system is there.
    pub(crate) fn has(&self, fs: FsId, attach: Attach) -> bool
        ensures { result ≡ list_any (λ row. row.fs == fs && row.attach == attach) self.now.rows }
    {
        match self.get(fs) {
            Some(held) => held == attach,
            None => false,
        }
    }

    /// Makes room for one more attachment.
    pub(crate) fn reserve(&mut self) -> Result<(), AllocError>
        ensures rows { self.new.rows ≡ self.old.rows }
        ensures room { self.old.room ≤ self.new.room }
        ensures ok { OnOk result (1 ≤ self.new.room) }
    {
        self.attachments.reserve(1)
    }

    /// This attachment to the file system goes last, and any other one to it goes. There is room
    /// for it.
    pub(crate) fn hold_reserved(&mut self, fs: FsId, attach: Attach)
        requires { 1 ≤ self.old.room }
        ensures rows { self.new.rows ≡ held_as fs attach self.old.rows }
        ensures room { self.old.room ≤ self.new.room + 1 }
    {
        let _other = self.attachments.remove(&fs.0);
        self.attachments.insert_reserved(fs.0, attach);
    }

    /// No attachment is left. No memory is taken.
    pub(crate) fn clear(&mut self)
        ensures rows { self.new.rows ≡ [] }
        ensures room { self.old.room ≤ self.new.room }
    {
        self.attachments.clear();
    }
}
