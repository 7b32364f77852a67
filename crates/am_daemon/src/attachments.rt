//! What the daemon is attached to.

ghost use Rattle.std.specs.Prelude.{◌≡◌, ◌≤◌, ◌+◌, map, length, slice_get, None, OnOk, OnErr};
ghost use Rattle.std.specs.Option.{option_map};
ghost use Rattle.am_names.specs.{RefusedAs};
ghost use Rattle.am_daemon.specs.State.{rows_of};
ghost use Rattle.am_daemon.specs.KnownAt.{known_row};
ghost use Rattle.am_daemon.specs.Attachments.{is_attached, knows, attach_held, holds, attach_refusal, AreOnce, with_attachment, dead, reattach_refusal, reattached, all_mounted};

use crate::daemon::Daemon;
use crate::known::Known;
use am_job::Book;
use am_names::{Attach, Errno, FsId, MountId, Place, Trigger};
use am_state::{HeldRow, Record};
use std::alloc::Global;

/// Writes down that these mounts stand. There is room for it.
fn write_standing(book: &mut Book, standing: &[(Trigger, MountId)])
    requires { length standing.now ≤ book.old.room }
    ensures { book.new.rows ≡ all_mounted standing.now book.old.rows }
{
    for (trigger, mount) in standing {
        book.put_reserved(*trigger, Record::Mounted { mount: *mount });
    }
}

impl Daemon {
    /// Whether a file system was attached at this path.
    pub fn is_attached(&self, path: &Place) -> bool
        ensures { result ≡ is_attached (rows_of self.now) path.now }
    {
        self.known.is_at(path)
    }

    /// Whether the daemon was ever attached to this file system, which is then known at one path.
    pub fn knows(&self, fs: FsId) -> bool
        ensures exact { result ≡ knows (rows_of self.now) fs }
        ensures once { AreOnce (map (λ row. row.fs) self.now.known) }
    {
        self.known.has(fs)
    }

    /// The attachment that the daemon holds to this file system. There is one at most.
    pub fn attach_held(&self, fs: FsId) -> Option<Attach>
        ensures exact { result ≡ attach_held (rows_of self.now) fs }
        ensures once { AreOnce (map (λ row. row.fs) self.now.held) }
    {
        self.held.get(fs)
    }

    /// Whether the daemon holds this attachment to the file system.
    pub fn holds(&self, fs: FsId, attach: Attach) -> bool
        ensures { result ≡ holds (rows_of self.now) fs attach }
    {
        self.held.has(fs, attach)
    }

    /// How many attachments the daemon holds.
    pub fn held_count(&self) -> usize
        ensures { result ≡ length self.now.held }
    {
        self.held.len()
    }

    /// The attachment at this index that the daemon holds, in order of attaching.
    pub fn held_at(&self, index: usize) -> Option<HeldRow>
        ensures { result ≡ slice_get self.now.held index }
    {
        self.held.row(index)
    }

    /// To how many file systems the daemon was ever attached.
    pub fn known_count(&self) -> usize
        ensures { result ≡ length self.now.known }
    {
        self.known.len()
    }

    /// The file system at this index to which the daemon was ever attached, in order of attaching, and where.
    pub fn known_at(&self, index: usize) -> Option<Known<'_>>
        ensures { option_map known_row result ≡ slice_get self.now.known index }
    {
        self.known.row(index)
    }

    /// Makes room for one attachment.
    pub fn reserve_attach(&mut self) -> Result<(), Errno>
        ensures refusal { RefusedAs None result }
        ensures rows { rows_of self.new ≡ rows_of self.old }
        ensures room { self.old.attach_room ≤ self.new.attach_room }
        ensures ok { OnOk result (1 ≤ self.new.attach_room) }
    {
        self.known.reserve()?;
        self.held.reserve()?;
        Ok(())
    }

    /// The daemon is attached to the file system at this path, for which there is room: it holds
    /// this attachment to it and no other one, and knows no other path of it.
    pub fn attached_reserved(&mut self, fs: FsId, attach: Attach, path: Place)
        requires { 1 ≤ self.old.attach_room }
        ensures rows { rows_of self.new ≡ with_attachment fs attach path (rows_of self.old) }
        ensures room { self.old.attach_room ≤ self.new.attach_room + 1 }
    {
        self.known.know_reserved(fs, path);
        self.held.hold_reserved(fs, attach);
    }

    /// Why the daemon isn't to be attached at this path.
    fn attach_refusal(&self, path: &Place) -> Option<Errno>
        ensures { result ≡ attach_refusal path.now (rows_of self.now) }
    {
        if self.point(path).is_none() {
            return Some(Errno::ENOENT);
        }
        if self.is_attached(path) {
            return Some(Errno::EEXIST);
        }
        None
    }

    /// The daemon is attached to the file system at this path, which the master map serves: it
    /// holds this attachment to it and no other one, and knows no other path of it.
    pub fn attached(
        &mut self,
        alloc: Global,
        fs: FsId,
        attach: Attach,
        path: &Place,
    ) -> Result<(), Errno>
        ensures refusal { RefusedAs (attach_refusal path.now (rows_of self.old)) result }
        ensures ok { OnOk result (rows_of self.new
            ≡ with_attachment fs attach path.now (rows_of self.old)) }
        ensures err { OnErr result (rows_of self.new ≡ rows_of self.old) }
    {
        if let Some(errno) = self.attach_refusal(path) {
            return Err(errno);
        }
        let path = path.copy(alloc)?;
        self.reserve_attach()?;
        self.attached_reserved(fs, attach, path);
        Ok(())
    }

    /// The daemon dies: its book and its attachments are lost. It takes no memory.
    pub fn die(&mut self)
        ensures rows { rows_of self.new ≡ dead (rows_of self.old) }
        ensures room { self.old.attach_room ≤ self.new.attach_room }
    {
        self.book.clear();
        self.held.clear();
    }

    /// The daemon attaches again to a file system: it holds this attachment and no other one, and
    /// of the file system the book has the mounts that stand, and nothing else
    /// (autofs.rst, "Communicating with autofs: detecting the daemon").
    pub fn reattach(
        &mut self,
        fs: FsId,
        attach: Attach,
        standing: &[(Trigger, MountId)],
    ) -> Result<(), Errno>
        ensures refusal { RefusedAs (reattach_refusal fs (rows_of self.old)) result }
        ensures ok { OnOk result (rows_of self.new
            ≡ reattached fs attach standing.now (rows_of self.old)) }
        ensures err { OnErr result (rows_of self.new ≡ rows_of self.old) }
    {
        if !self.knows(fs) {
            return Err(Errno::ENOENT);
        }
        self.book.reserve(standing.len())?;
        self.held.reserve()?;
        self.held.hold_reserved(fs, attach);
        self.book.remove_fs(fs);
        write_standing(&mut self.book, standing);
        Ok(())
    }
}
