//! The directories of indirect autofs file systems.

ghost use Rattle.std.specs.Prelude.{◌≡◌, OnOk, OnErr};
ghost use Rattle.am_names.specs.{RefusedAs, RefusedOnlyAs, IsCanonical, names_of};
ghost use Rattle.am_mount.specs.{has_fs, mounts_where};
ghost use Rattle.am_trigger.specs.{place_of};
ghost use Rattle.am_kernel.specs.Directories.{is_indirect, mkdir_refusal, with_directory, is_any_mounted_on, is_mountpoint, rmdir_refusal, without_directory};

use crate::kernel::Kernel;
use crate::table::{refuse, table};
use am_mount::Tree;
use am_names::{Attach, Errno, FsId, MountId, Name, Place, Trigger};
use am_trigger::place_of;
use std::alloc::Global;

/// Whether something is mounted at this place of one of these mounts.
fn is_any_mounted_on(tree: &Tree, mounts: &[MountId], place: &[u8]) -> bool
    requires { IsCanonical place.now }
    ensures { result ≡ is_any_mounted_on tree.now (names_of place.now) mounts.now }
{
    mounts
        .iter()
        .copied()
        .any(|mount| tree.top(mount, place).is_some())
}

/// Whether something is mounted at this place of a mount of this file system.
fn is_any_mounted_with(tree: &Tree, fs: FsId, place: &[u8]) -> bool
    requires { IsCanonical place.now }
    ensures { result ≡
        is_any_mounted_on tree.now (names_of place.now) (mounts_where (has_fs fs) tree.now) }
{
    tree.rows()
        .iter()
        .any(|row| row.fs == fs && tree.top(row.mount, place).is_some())
}

impl Kernel {
    /// Whether the trigger is a name in an indirect autofs.
    pub fn is_indirect(&self, trigger: &Trigger) -> bool
        ensures { result ≡ is_indirect self.now trigger.now }
    {
        match self.triggers.as_triggers().autofs(trigger.fs) {
            Some(row) => !row.direct && trigger.name.is_some(),
            None => false,
        }
    }

    /// Makes a directory for the daemon to mount on (autofs.rst, "Content").
    pub fn mkdir(&mut self, attach: Attach, trigger: Trigger) -> Result<(), Errno>
        ensures refusal { RefusedAs (mkdir_refusal self.old attach trigger) result }
        ensures ok { OnOk result (self.new ≡ with_directory trigger self.old) }
        ensures err { OnErr result (self.new ≡ self.old) }
    {
        table!(refuse; mkdir(self, attach, &trigger));
        self.triggers.mkdir(trigger)
    }

    /// Whether something is mounted on the trigger, at some mount of its file system. Its place is
    /// told by its canonical text.
    fn is_mountpoint(&self, trigger: &Trigger, place: &[u8]) -> bool
        requires canonical { IsCanonical place.now }
        requires place { names_of place.now ≡ place_of trigger.now }
        ensures { result ≡ is_mountpoint self.now trigger.now }
    {
        let tree = self.subtree.tree();
        match tree.mounts_with(trigger.fs) {
            Some(mounts) => is_any_mounted_on(tree, mounts, place),
            None => is_any_mounted_with(tree, trigger.fs, place),
        }
    }

    /// Removes a directory on which nothing is mounted.
    pub fn rmdir(&mut self, alloc: Global, attach: Attach, trigger: &Trigger) -> Result<(), Errno>
        ensures refusal { RefusedAs (rmdir_refusal self.old attach trigger.now) result }
        ensures ok { OnOk result (self.new ≡ without_directory trigger.now self.old) }
        ensures err { OnErr result (self.new ≡ self.old) }
    {
        table!(refuse; rmdir(self, attach, trigger));
        let place = place_of(alloc, trigger)?;
        if self.is_mountpoint(trigger, place.text()) {
            return Err(Errno::EBUSY);
        }
        self.triggers.rmdir(trigger)
    }
}
