//! What an administrator mounts, binds, unmounts and changes.

ghost use Rattle.std.specs.Prelude.{◌≡◌, ◌+◌, ◌∷◌, ◌++◌, [], Some, None, IfOk, OnOk, OnErr};
ghost use Rattle.am_names.specs.{RefusedAs};
ghost use Rattle.am_group.specs.{kind_of};
ghost use Rattle.am_propagate.specs.{mountpoint_of, unmounted};
ghost use Rattle.am_state.specs.declared.obs.Obs.TheVariants.{Unmounted};
ghost use Rattle.am_kernel.specs.Administration.{mount_refusal, mounting, with_plain, bind_refusal, with_bind, is_unbindable, is_parent_on_autofs, is_any_on_autofs, is_daemons, site_refusal, plain_umount_refusal, plain_gone, without_plain, plain_change_refusal, with_changed, kind_refusal, kind_at};

use crate::kernel::Kernel;
use crate::lookups::is_root;
use am_group::{Change, MountState};
use am_names::{AbsPath, Errno, MountId, MountIds, NsId, Position};
use am_state::Obs;
use std::alloc::Global;

impl Kernel {
    /// Mounts a new plain file system, which propagates. It tells the mount itself.
    pub fn mount_plain(
        &mut self,
        alloc: Global,
        ns: NsId,
        path: &AbsPath<'_>,
        seen: &mut Vec<Obs>,
    ) -> Result<MountId, Errno>
        ensures refusal { RefusedAs (mount_refusal self.old ns path.now) result }
        ensures mount { IfOk result (λ mount. mount ≡ self.old.table.last_mount + 1) }
        ensures ok { OnOk result (self.new ≡ with_plain ns path.now self.old) }
        ensures shown { OnOk result
            (seen.new.items ≡ seen.old.items ++ mounting self.old ns path.now) }
        ensures err { OnErr result (self.new ≡ self.old) }
        ensures unseen { OnErr result (seen.new.items ≡ seen.old.items) }
    {
        let at = self.position(alloc, ns, path)?;
        if self.is_on_autofs(at.mount) {
            return Err(Errno::EPERM);
        }
        self.mount_new(alloc, &at, seen)
    }

    /// Whether the mount can't be bound (sharedsubtree.rst, 5b).
    fn is_unbindable(&self, mount: MountId) -> bool
        ensures { result ≡ is_unbindable (kind_of self.now.table.groups mount) }
    {
        match self.subtree.groups().kind(mount) {
            Some(MountState::Unbindable) => true,
            Some(
                MountState::Shared
                | MountState::Slave
                | MountState::SharedSlave
                | MountState::Private,
            )
            | None => false,
        }
    }

    /// Mounts at one path what another has mounted (sharedsubtree.rst, 5b).
    pub fn bind(
        &mut self,
        alloc: Global,
        ns: NsId,
        from: &AbsPath<'_>,
        to: &AbsPath<'_>,
        seen: &mut Vec<Obs>,
    ) -> Result<MountId, Errno>
        ensures refusal { RefusedAs (bind_refusal self.old ns from.now to.now) result }
        ensures mount { IfOk result (λ mount. mount ≡ self.old.table.last_mount + 1) }
        ensures ok { OnOk result (self.new ≡ with_bind ns from.now to.now self.old) }
        ensures shown { OnOk result
            (seen.new.items ≡ seen.old.items ++ mounting self.old ns to.now) }
        ensures err { OnErr result (self.new ≡ self.old) }
        ensures unseen { OnErr result (seen.new.items ≡ seen.old.items) }
    {
        let source = self.position(alloc, ns, from)?;
        let target = self.position(alloc, ns, to)?;
        if !is_root(&source.place) {
            return Err(Errno::EINVAL);
        }
        if self.is_unbindable(source.mount) {
            return Err(Errno::EINVAL);
        }
        if self.is_on_autofs(target.mount) {
            return Err(Errno::EPERM);
        }
        seen.reserve(1)?;
        let mounts = self.subtree.bind(alloc, source.mount, &target)?;
        let mount = mounts[0];
        seen.push_reserved(Obs::Mounted {
            mounts: MountIds::of(mounts),
        });
        Ok(mount)
    }

    /// Whether the mount is mounted on one of an autofs.
    fn is_parent_on_autofs(&self, at: &Option<Position>) -> bool
        ensures { result ≡ is_parent_on_autofs self.now at.now }
    {
        match at {
            Some(at) => self.is_on_autofs(at.mount),
            None => false,
        }
    }

    /// Whether one of the mounts is one of an autofs.
    fn is_any_on_autofs(&self, mounts: &[MountId]) -> bool
        ensures { result ≡ is_any_on_autofs self.now mounts.now }
    {
        mounts.iter().copied().any(|mount| self.is_on_autofs(mount))
    }

    /// Whether only the daemon may unmount the mount, with these that would go.
    fn is_daemons(&self, mount: MountId, at: &Option<Position>, gone: &[MountId]) -> bool
        requires at { at.now ≡ mountpoint_of self.now.table mount }
        requires gone { gone.now ≡ unmounted self.now.table mount }
        ensures { result ≡ is_daemons self.now mount }
    {
        if self.is_on_autofs(mount) || self.is_parent_on_autofs(at) {
            return true;
        }
        self.is_any_on_autofs(gone)
    }

    /// Why an unmount of this mount, with these that would go, would be refused for what it is
    /// mounted on, if it would.
    fn site_refusal(&self, mount: MountId, gone: &[MountId]) -> Option<Errno>
        requires { gone.now ≡ unmounted self.now.table mount }
        ensures { result ≡ site_refusal self.now mount }
    {
        let Some(row) = self.subtree.tree().row(mount) else {
            return Some(Errno::EBUSY);
        };
        if row.mountpoint.is_none() {
            return Some(Errno::EBUSY);
        }
        if self.is_daemons(mount, &row.mountpoint, gone) {
            return Some(Errno::EPERM);
        }
        None
    }

    /// Unmounts the mount to which the path leads, and what was mounted with it
    /// (sharedsubtree.rst, 5f); all that went is told, in rising order.
    pub fn umount_plain(
        &mut self,
        alloc: Global,
        ns: NsId,
        path: &AbsPath<'_>,
        seen: &mut Vec<Obs>,
    ) -> Result<Vec<MountId>, Errno>
        ensures refusal { RefusedAs (plain_umount_refusal self.old ns path.now) result }
        ensures gone { IfOk result (λ v. v.items ≡ plain_gone self.old ns path.now) }
        ensures ok { OnOk result (self.new ≡ without_plain ns path.now self.old) }
        ensures shown { OnOk result
            (seen.new.items ≡ seen.old.items ++ Unmounted (plain_gone self.old ns path.now) ∷ []) }
        ensures err { OnErr result (self.new ≡ self.old) }
        ensures unseen { OnErr result (seen.new.items ≡ seen.old.items) }
    {
        let at = self.position(alloc, ns, path)?;
        if !is_root(&at.place) {
            return Err(Errno::EINVAL);
        }
        let gone = self.subtree.umount_takes(alloc, at.mount)?;
        if let Some(errno) = self.site_refusal(at.mount, gone.as_slice()) {
            return Err(errno);
        }
        self.umount_mount(alloc, at.mount, gone, seen)
    }

    /// Changes the state of the mount to which the path leads (sharedsubtree.rst, 5a).
    pub fn change(
        &mut self,
        alloc: Global,
        ns: NsId,
        path: &AbsPath<'_>,
        change: Change,
    ) -> Result<(), Errno>
        ensures refusal { RefusedAs (plain_change_refusal change self.old ns path.now) result }
        ensures ok { OnOk result (self.new ≡ with_changed change ns path.now self.old) }
        ensures err { OnErr result (self.new ≡ self.old) }
    {
        let target = self.position(alloc, ns, path)?;
        if !is_root(&target.place) {
            return Err(Errno::EINVAL);
        }
        self.subtree.change(change, target.mount)
    }

    /// The state of the mount to which the path leads.
    pub fn kind(&self, alloc: Global, ns: NsId, path: &AbsPath<'_>) -> Result<MountState, Errno>
        ensures refusal { RefusedAs (kind_refusal self.now ns path.now) result }
        ensures ok { IfOk result (λ kind. kind_at self.now ns path.now ≡ Some kind) }
    {
        let position = self.position(alloc, ns, path)?;
        if !is_root(&position.place) {
            return Err(Errno::EINVAL);
        }
        match self.subtree.groups().kind(position.mount) {
            Some(kind) => Ok(kind),
            None => Err(Errno::EINVAL),
        }
    }
}
