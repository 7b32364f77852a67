//! New file systems: the mounts of them, and autofs that are attached.

ghost use Rattle.std.specs.Prelude.{◌≡◌, ◌<◌, ◌+◌, ◌∷◌, ◌++◌, [], IfOk, OnOk, OnErr};
ghost use Rattle.am_names.specs.{RefusedAs};
ghost use Rattle.am_state.specs.declared.obs.Obs.TheVariants.{Mounted};
ghost use Rattle.am_names.specs.declared.membership.Membership.TheVariants.{Private};
ghost use Rattle.am_propagate.specs.{mount_refusal, mounted};
ghost use Rattle.am_kernel.specs.State.{greatest_u32};
ghost use Rattle.am_kernel.specs.Lookups.{fs_refusal};
ghost use Rattle.am_kernel.specs.DaemonMounts.{new_fs_refusal, coming_in, coming, with_mount, attach_tests, attached_at, autofs_refusal, attaching, with_attached};

use crate::kernel::Kernel;
use crate::row::Attached;
use am_names::{AbsPath, Attach, Errno, FsId, MountId, MountIds, NsId, Position};
use am_propagate::Subtree;
use am_state::Obs;
use std::alloc::Global;

/// An autofs that was attached.
#[derive(Clone, Copy, Debug)]
pub struct NewAutofs {
    pub fs: FsId,
    pub attach: Attach,
    /// The daemon's mount of it.
    pub mount: MountId,
}

/// Mounts a file system, which propagates. It tells the mount itself.
fn mount_fs(
    subtree: &mut Subtree,
    alloc: Global,
    at: &Position,
    fs: FsId,
    seen: &mut Vec<Obs>,
) -> Result<MountId, Errno>
    ensures refusal { RefusedAs (mount_refusal at.now.mount subtree.old) result }
    ensures mount { IfOk result (λ mount. mount ≡ subtree.old.last_mount + 1) }
    ensures ok { OnOk result (subtree.new ≡ mounted at.now fs Private subtree.old) }
    ensures shown { OnOk result
        (seen.new.items ≡ seen.old.items ++ Mounted (coming_in subtree.old at.now.mount) ∷ []) }
    ensures err { OnErr result (subtree.new ≡ subtree.old) }
    ensures unseen { OnErr result (seen.new.items ≡ seen.old.items) }
{
    seen.reserve(1)?;
    let mounts = subtree.mount(alloc, at, fs)?;
    let mount = mounts[0];
    seen.push_reserved(Obs::Mounted {
        mounts: MountIds::of(mounts),
    });
    Ok(mount)
}

impl Kernel {
    /// Why no new file system could be mounted, if none could: their numbers are used up.
    fn fs_refusal(&self) -> Option<Errno>
        ensures { result ≡ fs_refusal self.now }
    {
        if self.last_fs == u32::MAX {
            return Some(Errno::ENOSPC);
        }
        None
    }

    /// Mounts a new file system, which propagates. It tells the mount itself.
    pub(crate) fn mount_new(
        &mut self,
        alloc: Global,
        at: &Position,
        seen: &mut Vec<Obs>,
    ) -> Result<MountId, Errno>
        ensures refusal { RefusedAs (new_fs_refusal self.old at.now.mount) result }
        ensures mount { IfOk result (λ mount. mount ≡ self.old.table.last_mount + 1) }
        ensures ok { OnOk result (self.new ≡ with_mount at.now self.old) }
        ensures shown { OnOk result
            (seen.new.items ≡ seen.old.items ++ Mounted (coming self.old at.now.mount) ∷ []) }
        ensures err { OnErr result (self.new ≡ self.old) }
        ensures unseen { OnErr result (seen.new.items ≡ seen.old.items) }
    {
        if let Some(errno) = self.fs_refusal() {
            return Err(errno);
        }
        let fs = self.last_fs + 1;
        let mount = mount_fs(&mut self.subtree, alloc, at, FsId(fs), seen)?;
        self.last_fs = fs;
        Ok(mount)
    }

    /// Mounts a new autofs with the next numbers, which are left.
    fn add_autofs(
        &mut self,
        alloc: Global,
        at: &Position,
        direct: bool,
        timeout: u32,
        seen: &mut Vec<Obs>,
    ) -> Result<NewAutofs, Errno>
        requires fs { self.old.last_fs < greatest_u32 }
        requires attach { self.old.last_attach < greatest_u32 }
        ensures refusal { RefusedAs (mount_refusal at.now.mount self.old.table) result }
        ensures fs { IfOk result (λ row. row.fs ≡ self.old.last_fs + 1) }
        ensures attach { IfOk result (λ row. row.attach ≡ self.old.last_attach + 1) }
        ensures mount { IfOk result (λ row. row.mount ≡ self.old.table.last_mount + 1) }
        ensures ok { OnOk result (self.new ≡ attached_at direct timeout self.old at.now) }
        ensures shown { OnOk result
            (seen.new.items ≡ seen.old.items ++ Mounted (coming self.old at.now.mount) ∷ []) }
        ensures err { OnErr result (self.new ≡ self.old) }
        ensures unseen { OnErr result (seen.new.items ≡ seen.old.items) }
    {
        let fs = FsId(self.last_fs + 1);
        let attach = Attach(self.last_attach + 1);
        self.triggers.reserve_fs()?;
        self.attached.reserve()?;
        self.subtree.watch(fs)?;
        let mount = mount_fs(&mut self.subtree, alloc, at, fs, seen)?;
        self.triggers.add_fs_reserved(fs, direct, mount);
        self.attached.push_reserved(Attached {
            fs,
            attach,
            timeout,
        });
        self.last_fs = fs.0;
        self.last_attach = attach.0;
        Ok(NewAutofs { fs, attach, mount })
    }

    /// Mounts a new autofs at a position, with an attachment for its daemon.
    fn attach_at(
        &mut self,
        alloc: Global,
        at: &Position,
        direct: bool,
        timeout: u32,
        seen: &mut Vec<Obs>,
    ) -> Result<NewAutofs, Errno>
        ensures refusal { RefusedAs (attach_tests self.old at.now) result }
        ensures fs { IfOk result (λ row. row.fs ≡ self.old.last_fs + 1) }
        ensures attach { IfOk result (λ row. row.attach ≡ self.old.last_attach + 1) }
        ensures mount { IfOk result (λ row. row.mount ≡ self.old.table.last_mount + 1) }
        ensures ok { OnOk result (self.new ≡ attached_at direct timeout self.old at.now) }
        ensures shown { OnOk result
            (seen.new.items ≡ seen.old.items ++ Mounted (coming self.old at.now.mount) ∷ []) }
        ensures err { OnErr result (self.new ≡ self.old) }
        ensures unseen { OnErr result (seen.new.items ≡ seen.old.items) }
    {
        if self.is_on_autofs(at.mount) {
            return Err(Errno::EPERM);
        }
        if self.last_attach == u32::MAX {
            return Err(Errno::ENOSPC);
        }
        if self.last_fs == u32::MAX {
            return Err(Errno::ENOSPC);
        }
        self.add_autofs(alloc, at, direct, timeout, seen)
    }

    /// Mounts a new autofs at a path of namespace 0, with an attachment for its daemon.
    pub fn attach_autofs(
        &mut self,
        alloc: Global,
        path: &AbsPath<'_>,
        direct: bool,
        timeout: u32,
        seen: &mut Vec<Obs>,
    ) -> Result<NewAutofs, Errno>
        ensures refusal { RefusedAs (autofs_refusal self.old path.now) result }
        ensures fs { IfOk result (λ row. row.fs ≡ self.old.last_fs + 1) }
        ensures attach { IfOk result (λ row. row.attach ≡ self.old.last_attach + 1) }
        ensures mount { IfOk result (λ row. row.mount ≡ self.old.table.last_mount + 1) }
        ensures ok { OnOk result (self.new ≡ with_attached path.now direct timeout self.old) }
        ensures shown { OnOk result
            (seen.new.items ≡ seen.old.items ++ attaching self.old path.now) }
        ensures err { OnErr result (self.new ≡ self.old) }
        ensures unseen { OnErr result (seen.new.items ≡ seen.old.items) }
    {
        let at = self.position(alloc, NsId(0), path)?;
        self.attach_at(alloc, &at, direct, timeout, seen)
    }
}
