//! The attachments of all autofs file systems, as a table.

ghost use Rattle.std.specs.Prelude.{◌≡◌, ◌<◌, ◌≤◌, ◌==◌, ◌++◌, ◌↔◌, ◌∷◌, [], map, find, Some, IsTrue, IfOk, OnOk};
ghost use Rattle.std.specs.List.{All};
ghost use Rattle.std.specs.Option.{option_map};
ghost use Rattle.am_kernel.specs.Rising.{RiseByFs};
ghost use Rattle.am_kernel.specs.Requests.{timeout_row};
ghost use Rattle.am_kernel.specs.Attachments.{reattached_row};

use crate::holder::{Holder, holder_of, renew};
use crate::row::Attached;
use am_names::{Attach, FsId};
use std::alloc::{AllocError, Global};
use std::collections::VecDeque;
use std::marker::Model;

/// The latest attachment of each autofs, in order of attaching. File systems are numbered in that
/// order, so that the rows rise by file system, and one is found by halves.
#[derive(Drop)]
pub struct AttachmentTable {
    rows: Vec<Attached>,
    // The same attachments in the order of their numbers, so that one is found by halves.
    holders: VecDeque<Holder>,
}

impl Model for AttachmentTable {
    ghost use Rattle.am_ordered.specs.RowTable.{RowTable};
    ghost use Rattle.am_kernel.specs.declared.row.Attached.{Attached};

    ghost Value = { RowTable Attached };

    ghost use Rattle.am_kernel.specs.AttachmentTable.{table_of, IsIndexed};

    ghost view = { table_of };

    ghost invariant = { IsIndexed };
}

/// The row of the file system.
fn row_of(rows: &[Attached], fs: FsId) -> Option<Attached>
    requires { RiseByFs rows.now }
    ensures { result ≡ find (λ row. row.fs == fs) rows.now }
{
    let number = fs.0;
    match rows.binary_search_by_key(&number, |row| row.fs.0) {
        Ok(at) => Some(rows[at]),
        Err(_) => None,
    }
}

/// The file system has this timeout.
fn set_timeout(rows: &mut Vec<Attached>, fs: FsId, timeout: u32)
    requires { RiseByFs rows.old.items }
    ensures { rows.new.items ≡ map (timeout_row fs timeout) rows.old.items }
{
    let number = fs.0;
    if let Ok(at) = rows.binary_search_by_key(&number, |row| row.fs.0) {
        rows[at].timeout = timeout;
    }
}

/// This attachment is the latest of the file system.
fn set_attach(rows: &mut Vec<Attached>, fs: FsId, attach: Attach)
    requires { RiseByFs rows.old.items }
    ensures { rows.new.items ≡ map (reattached_row fs attach) rows.old.items }
{
    let number = fs.0;
    if let Ok(at) = rows.binary_search_by_key(&number, |row| row.fs.0) {
        rows[at].attach = attach;
    }
}

/// Whether both are the same attachment with the same timeout.
fn is_same_row(row: &Attached, other: &Attached) -> bool
    ensures { IsTrue result ↔ (row.now ≡ other.now) }
{
    row.fs == other.fs && row.attach == other.attach && row.timeout == other.timeout
}

/// Whether these are the same attachments in the same order.
fn are_same(rows: &[Attached], others: &[Attached]) -> bool
    ensures { IsTrue result ↔ (rows.now ≡ others.now) }
{
    rows.len() == others.len()
        && rows
            .iter()
            .zip(others)
            .all(|(row, other)| is_same_row(row, other))
}

impl AttachmentTable {
    /// No autofs.
    pub fn new(alloc: Global) -> AttachmentTable
        ensures { result.rows ≡ [] }
    {
        AttachmentTable {
            rows: Vec::new(alloc),
            holders: VecDeque::new(alloc),
        }
    }

    /// The same attachments once more, with no less room.
    pub fn copy(&self, alloc: Global) -> Result<AttachmentTable, AllocError>
        ensures rows { IfOk result (λ copy. copy.rows ≡ self.now.rows) }
        ensures room { IfOk result (λ copy. self.now.room ≤ copy.room) }
    {
        let mut rows = Vec::with_capacity(alloc, self.rows.capacity())?;
        rows.extend_from_slice(self.rows.as_slice())?;
        let mut holders = self.holders.clone()?;
        holders.reserve(self.holders.capacity() - self.holders.len())?;
        Ok(AttachmentTable { rows, holders })
    }

    /// Whether both have the same attachments.
    pub fn is_same(&self, other: &AttachmentTable) -> bool
        ensures { IsTrue result ↔ (self.now.rows ≡ other.now.rows) }
    {
        are_same(self.as_slice(), other.as_slice())
    }

    /// The rows, in order of attaching.
    pub fn as_slice(&self) -> &[Attached]
        ensures { result.now ≡ self.now.rows }
    {
        self.rows.as_slice()
    }

    /// The latest attachment of the file system.
    pub fn get(&self, fs: FsId) -> Option<Attached>
        ensures row { result ≡ find (λ row. row.fs == fs) self.now.rows }
        ensures rising { RiseByFs self.now.rows }
    {
        row_of(self.rows.as_slice(), fs)
    }

    /// The file system whose latest attachment this is. There is one at most.
    pub fn holder(&self, attach: Attach) -> Option<FsId>
        ensures holder { result
            ≡ option_map (λ row. row.fs) (find (λ row. row.attach == attach) self.now.rows) }
        ensures alone { All (λ (row : Attached). row.attach ≡ attach → result ≡ Some row.fs)
            self.now.rows }
    {
        holder_of(&self.holders, attach)
    }

    /// Makes room for one more autofs.
    pub fn reserve(&mut self) -> Result<(), AllocError>
        ensures rows { self.new.rows ≡ self.old.rows }
        ensures room { OnOk result (1 ≤ self.new.room) }
    {
        self.rows.reserve(1)?;
        self.holders.reserve(1)
    }

    /// The first attachment of an autofs. Both numbers are above all that are there.
    pub fn push_reserved(&mut self, row: Attached)
        requires room { 1 ≤ self.old.room }
        requires above { All (λ (other : Attached). other.fs < row.fs) self.old.rows }
        requires latest { All (λ (other : Attached). other.attach < row.attach) self.old.rows }
        ensures { self.new.rows ≡ self.old.rows ++ row ∷ [] }
    {
        self.holders.push_back_reserved(Holder {
            attach: row.attach,
            fs: row.fs,
        });
        self.rows.push_reserved(row);
    }

    /// The file system has this timeout.
    pub fn set_timeout(&mut self, fs: FsId, timeout: u32)
        ensures { self.new.rows ≡ map (timeout_row fs timeout) self.old.rows }
    {
        set_timeout(&mut self.rows, fs, timeout);
    }

    /// This attachment is the latest of the file system. Its number is above all that are there,
    /// and no memory is taken.
    pub fn set_attach(&mut self, fs: FsId, attach: Attach)
        requires { All (λ (row : Attached). row.attach < attach) self.old.rows }
        ensures { self.new.rows ≡ map (reattached_row fs attach) self.old.rows }
    {
        if let Some(row) = row_of(self.rows.as_slice(), fs) {
            renew(&mut self.holders, row.attach, Holder { attach, fs });
        }
        set_attach(&mut self.rows, fs, attach);
    }
}
