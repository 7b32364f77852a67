//! What the kernel's tables tell: attachments, walkers, and what paths and triggers lead to.

ghost use Rattle.std.specs.Prelude.{◌≡◌, is_some, IfOk, Ok};
ghost use Rattle.am_names.specs.{RefusedAs};
ghost use Rattle.am_trigger.specs.{autofs_of};
ghost use Rattle.am_walk.specs.{fault_of};
ghost use Rattle.am_kernel.specs.Lookups.{is_live, latest_attach, attach_of, fs_of_attach, is_attached_by, is_current, is_busy, position_at, is_on_autofs, is_root, is_trigger};

use crate::kernel::Kernel;
use crate::row::Attached;
use am_names::{
    AbsPath, Attach, Errno, FsId, MountId, NsId, Place, Position, Trigger, WalkerId,
    split_first_name,
};
use am_walk::position;
use std::alloc::Global;

/// Whether the place is a mount's root.
pub(crate) fn is_root(place: &Place) -> bool
    ensures { result ≡ is_root place.now }
{
    split_first_name(place.text()).is_none()
}

impl Kernel {
    /// Whether a daemon is attached: the autofs isn't catatonic (autofs.rst, "Catatonic mode").
    pub fn is_live(&self, fs: FsId) -> bool
        ensures { result ≡ is_live self.now fs }
    {
        match self.triggers.as_triggers().autofs(fs) {
            Some(row) => !row.catatonic,
            None => false,
        }
    }

    /// The latest attachment of this file system, also one that has ended.
    fn latest_attach(&self, fs: FsId) -> Option<Attach>
        ensures { result ≡ latest_attach self.now.attached fs }
    {
        let row = self.attached.get(fs)?;
        Some(row.attach)
    }

    /// The attachment of this file system, while a daemon is attached.
    pub fn attach_of(&self, fs: FsId) -> Option<Attach>
        ensures { result ≡ attach_of self.now fs }
    {
        if self.is_live(fs) {
            self.latest_attach(fs)
        } else {
            None
        }
    }

    /// Whether the row is of this attachment, and a daemon is attached.
    fn is_attached_by(&self, attach: Attach, row: Attached) -> bool
        ensures { result ≡ is_attached_by self.now attach row }
    {
        row.attach == attach && self.is_live(row.fs)
    }

    /// The file system of which this is the current attachment.
    pub fn fs_of_attach(&self, attach: Attach) -> Option<FsId>
        ensures { result ≡ fs_of_attach self.now attach }
    {
        let fs = self.attached.holder(attach)?;
        if !self.is_live(fs) {
            return None;
        }
        Some(fs)
    }

    /// Whether this is the current attachment of this file system.
    pub fn is_current(&self, fs: FsId, attach: Attach) -> bool
        ensures { result ≡ is_current self.now fs attach }
    {
        match self.attached.get(fs) {
            Some(row) => self.is_attached_by(attach, row),
            None => false,
        }
    }

    /// Whether the walker waits, or is inside a mount.
    pub fn is_busy(&self, walker: WalkerId) -> bool
        ensures { result ≡ is_busy self.now walker }
    {
        self.waits.wait_of(walker).is_some() || self.uses.mount_of_walker(walker).is_some()
    }

    /// Where an administrator's path leads.
    pub fn position(&self, alloc: Global, ns: NsId, path: &AbsPath<'_>) -> Result<Position, Errno>
        ensures refusal { RefusedAs (fault_of (position_at self.now ns path.now)) result }
        ensures ok { IfOk result (λ at. position_at self.now ns path.now ≡ Ok at) }
    {
        position(alloc, &self.subtree, self.triggers.as_triggers(), ns, path)
    }

    /// Whether the mount is one of an autofs.
    pub fn is_on_autofs(&self, mount: MountId) -> bool
        ensures { result ≡ is_on_autofs self.now mount }
    {
        match self.subtree.tree().row(mount) {
            Some(row) => self.triggers.as_triggers().autofs(row.fs).is_some(),
            None => false,
        }
    }

    /// Whether the file system is an autofs, live or not.
    pub(crate) fn is_autofs(&self, fs: FsId) -> bool
        ensures { result ≡ is_some (autofs_of self.now.triggers fs) }
    {
        self.triggers.as_triggers().autofs(fs).is_some()
    }

    /// The greatest number that was given to a file system.
    pub fn last_fs(&self) -> FsId
        ensures { result ≡ self.now.last_fs }
    {
        FsId(self.last_fs)
    }

    /// The greatest number that was given to an attachment; 0 for none.
    pub fn last_attach(&self) -> Attach
        ensures { result ≡ self.now.last_attach }
    {
        Attach(self.last_attach)
    }

    /// The greatest number that was given to a mount.
    pub fn last_mount(&self) -> MountId
        ensures { result ≡ self.now.table.last_mount }
    {
        self.subtree.last_mount()
    }

    /// Whether the trigger is one of an autofs: a name of an indirect one, or the root of a direct
    /// one. It may be catatonic.
    pub fn is_trigger(&self, trigger: &Trigger) -> bool
        ensures { result ≡ is_trigger self.now trigger.now }
    {
        match self.triggers.as_triggers().autofs(trigger.fs) {
            Some(row) if row.direct => trigger.name.is_none(),
            Some(_) => trigger.name.is_some(),
            None => false,
        }
    }
}
