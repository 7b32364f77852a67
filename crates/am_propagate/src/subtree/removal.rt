//! Unmounts, and namespaces that are dropped.

ghost use Rattle.std.specs.Prelude.{◌≡◌, ◌||◌, ◌==◌, ◌∷◌, ℕ, Bool, true, false, Some, None, IfOk, IfErr, OnOk, OnErr};
ghost use Rattle.std.specs.List.{list_any, filter_map};
ghost use Rattle.std.specs.List.Sorted.{IsStrictlyIncreasing};
ghost use Rattle.std.specs.Option.{option_copied};
ghost use Rattle.am_names.specs.{RefusedAs, IsCanonical, names_of, MountRow, is_among};
ghost use Rattle.am_group.specs.{AddsNoReceivers, receivers_of};
ghost use Rattle.am_mount.specs.{is_child, mounts_where};
ghost use Rattle.am_propagate.specs.MountTable.{is_mount, mountpoint_of};
ghost use Rattle.am_propagate.specs.Removed.{is_bare, bare_top, goes_with, unmounted, umount_refusal, mounts_in, is_namespace, drop_refusal, removed, LeavesParents};

use crate::in_use::{InUse, is_used};
use crate::subtree::Subtree;
use am_names::{Errno, MountId, MountRow, NsId, Position};
use std::alloc::{AllocError, Global};

/// The same mounts in rising order, each once.
fn in_order(mut mounts: Vec<MountId>) -> Vec<MountId>
    ensures rising { IsStrictlyIncreasing result.items }
    ensures same { (m : ℕ) → is_among result.items m ≡ is_among mounts.items m }
{
    mounts.sort_unstable_by_key(|mount| mount.0);
    mounts.dedup();
    mounts
}

impl Subtree {
    fn has_children(&self, mount: MountId) -> bool
        ensures { result ≡ list_any (is_child mount) self.now.rows }
    {
        self.tree.has_children(mount)
    }

    /// Whether nothing is mounted on the mount.
    fn is_bare(&self, mount: MountId) -> bool
        ensures { result ≡ is_bare self.now mount }
    {
        !self.has_children(mount)
    }

    /// The top at the place of the mount, where nothing is mounted on it.
    fn bare_top(&self, mount: MountId, place: &[u8]) -> Option<MountId>
        requires { IsCanonical place.now }
        ensures { result ≡ bare_top self.now (names_of place.now) mount }
    {
        let top = self.tree.top(mount, place)?;
        if self.is_bare(top) { Some(top) } else { None }
    }

    /// The mount, and the tops that go with it at the same place of these.
    fn with_bare_tops(
        &self,
        alloc: Global,
        mount: MountId,
        place: &[u8],
        receivers: &[MountId],
    ) -> Result<Vec<MountId>, AllocError>
        requires { IsCanonical place.now }
        ensures { IfOk result (λ v. v.items ≡
            mount ∷ filter_map (bare_top self.now (names_of place.now)) receivers.now) }
    {
        let mut going = Vec::with_capacity(alloc, receivers.len() + 1)?;
        going.push(mount)?;
        for receiver in receivers {
            if let Some(top) = self.bare_top(*receiver, place) {
                going.push(top)?;
            }
        }
        Ok(going)
    }

    /// What an unmount of the mount, which is at this position, removes.
    fn unmounted(
        &self,
        alloc: Global,
        mount: MountId,
        position: &Position,
    ) -> Result<Vec<MountId>, Errno>
        requires { mountpoint_of self.now mount ≡ Some position.now }
        ensures refusal { RefusedAs None result }
        ensures exact { IfOk result (λ v. v.items ≡
            mounts_where (goes_with self.now mount (Some position.now)) self.now.rows) }
        ensures rising { IfOk result (λ v. IsStrictlyIncreasing v.items) }
    {
        let receivers = self.groups.receivers(alloc, position.mount)?;
        let going = self.with_bare_tops(alloc, mount, position.place.text(), receivers.as_slice())?;
        Ok(in_order(going))
    }

    /// The mount itself, if it is there.
    fn itself(&self, alloc: Global, mount: MountId) -> Result<Vec<MountId>, AllocError>
        ensures exact { IfOk result (λ v. v.items ≡
            mounts_where (goes_with self.now mount None) self.now.rows) }
        ensures rising { IfOk result (λ v. IsStrictlyIncreasing v.items) }
    {
        // For the checker: what the mounts keep is known where a field is named.
        let _tree = &self.tree;
        let mut found = Vec::new(alloc);
        if !self.is_mount(mount) {
            return Ok(found);
        }
        found.push(mount)?;
        Ok(found)
    }

    fn mountpoint_of(&self, mount: MountId) -> Option<&Position>
        ensures { option_copied result ≡ mountpoint_of self.now mount }
    {
        match self.tree.row(mount) {
            Some(row) => row.mountpoint.as_ref(),
            None => None,
        }
    }

    /// What an unmount of the mount removes, in rising order, also where `umount` refuses it.
    pub fn umount_takes(&self, alloc: Global, mount: MountId) -> Result<Vec<MountId>, Errno>
        ensures refusal { RefusedAs None result }
        ensures exact { IfOk result (λ v. v.items ≡ unmounted self.now mount) }
        ensures rising { IfOk result (λ v. IsStrictlyIncreasing v.items) }
    {
        match self.mountpoint_of(mount) {
            Some(position) => self.unmounted(alloc, mount, position),
            None => Ok(self.itself(alloc, mount)?),
        }
    }

    fn remove(&mut self, alloc: Global, gone: &[MountId]) -> Result<(), Errno>
        requires { LeavesParents gone.now self.old }
        ensures refusal { RefusedAs None result }
        ensures ok { OnOk result (self.new ≡ removed gone.now self.old) }
        ensures err { OnErr result (self.new ≡ self.old) }
        ensures law { AddsNoReceivers self.old.groups self.new.groups }
    {
        self.groups.leave(alloc, gone)?;
        self.tree.remove_all(gone);
        Ok(())
    }

    /// Where the mount is mounted, if nothing is mounted on it.
    fn bare_position(&self, mount: MountId) -> Result<&Position, Errno>
        ensures refusal { IfErr result (λ e. (uses : ℕ → Bool) →
            umount_refusal uses mount self.now ≡ Some e) }
        ensures here { IfOk result (λ position.
            mountpoint_of self.now mount ≡ Some position.now) }
        ensures bare { OnOk result (is_bare self.now mount ≡ true) }
    {
        let Some(row) = self.tree.row(mount) else {
            return Err(Errno::EINVAL);
        };
        let Some(position) = &row.mountpoint else {
            return Err(Errno::EBUSY);
        };
        if !self.is_bare(mount) {
            return Err(Errno::EBUSY);
        }
        Ok(position)
    }

    /// What an unmount of the mount removes, where `umount` would not refuse it.
    fn removable<U: InUse>(
        &self,
        alloc: Global,
        mount: MountId,
        in_use: &U,
    ) -> Result<Vec<MountId>, Errno>
        ensures refusal { RefusedAs (umount_refusal (U.uses in_use.now) mount self.now) result }
        ensures exact { IfOk result (λ v. v.items ≡ unmounted self.now mount) }
        ensures rising { IfOk result (λ v. IsStrictlyIncreasing v.items) }
        ensures bare { OnOk result (is_bare self.now mount ≡ true) }
    {
        let position = self.bare_position(mount)?;
        let gone = self.unmounted(alloc, mount, position)?;
        if is_used(in_use, gone.as_slice()) {
            return Err(Errno::EBUSY);
        }
        Ok(gone)
    }

    /// Why `umount` would refuse the mount, if it would.
    pub fn umount_refusal<U: InUse>(
        &self,
        alloc: Global,
        mount: MountId,
        in_use: &U,
    ) -> Result<Option<Errno>, Errno>
        ensures refusal { RefusedAs None result }
        ensures ok { IfOk result (λ first. first ≡
            umount_refusal (U.uses in_use.now) mount self.now) }
    {
        match self.removable(alloc, mount, in_use) {
            Ok(_) => Ok(None),
            Err(Errno::NoMemory) => Err(Errno::NoMemory),
            Err(first) => Ok(Some(first)),
        }
    }

    /// Unmounts the mount, and what was mounted with it on the mounts that receive from its
    /// parent (sharedsubtree.rst, 5f). The answer tells all that went, in rising order.
    pub fn umount<U: InUse>(
        &mut self,
        alloc: Global,
        mount: MountId,
        in_use: &U,
    ) -> Result<Vec<MountId>, Errno>
        ensures refusal { RefusedAs (umount_refusal (U.uses in_use.now) mount self.old) result }
        ensures gone { IfOk result (λ v. v.items ≡ unmounted self.old mount) }
        ensures rising { IfOk result (λ v. IsStrictlyIncreasing v.items) }
        ensures ok { OnOk result (self.new ≡ removed (unmounted self.old mount) self.old) }
        ensures err { OnErr result (self.new ≡ self.old) }
        ensures law { AddsNoReceivers self.old.groups self.new.groups }
    {
        let gone = self.removable(alloc, mount, in_use)?;
        self.remove(alloc, gone.as_slice())?;
        Ok(gone)
    }

    /// Unmounts as `umount` does, for a caller who has asked `umount_takes` what goes.
    pub fn umount_listed<U: InUse>(
        &mut self,
        alloc: Global,
        mount: MountId,
        gone: &[MountId],
        in_use: &U,
    ) -> Result<(), Errno>
        requires gone { gone.now ≡ unmounted self.old mount }
        ensures refusal { RefusedAs (umount_refusal (U.uses in_use.now) mount self.old) result }
        ensures ok { OnOk result (self.new ≡ removed (unmounted self.old mount) self.old) }
        ensures err { OnErr result (self.new ≡ self.old) }
        ensures law { AddsNoReceivers self.old.groups self.new.groups }
    {
        let _position = self.bare_position(mount)?;
        if is_used(in_use, gone) {
            return Err(Errno::EBUSY);
        }
        self.remove(alloc, gone)
    }

    /// Whether the namespace is there: it is as long as it has mounts.
    pub fn is_namespace(&self, ns: NsId) -> bool
        ensures { result ≡ is_namespace self.now ns }
    {
        self.tree.has_mounts(ns)
    }

    /// Drops a namespace: its mounts go, and nothing propagates. The answer tells them, in
    /// rising order.
    pub fn drop_namespace<U: InUse>(
        &mut self,
        alloc: Global,
        ns: NsId,
        in_use: &U,
    ) -> Result<Vec<MountId>, Errno>
        ensures refusal { RefusedAs (drop_refusal (U.uses in_use.now) ns self.old) result }
        ensures gone { IfOk result (λ v. v.items ≡ mounts_in self.old ns) }
        ensures rising { IfOk result (λ v. IsStrictlyIncreasing v.items) }
        ensures ok { OnOk result (self.new ≡ removed (mounts_in self.old ns) self.old) }
        ensures err { OnErr result (self.new ≡ self.old) }
        ensures law { AddsNoReceivers self.old.groups self.new.groups }
    {
        if ns == NsId(0) {
            return Err(Errno::EINVAL);
        }
        if !self.is_namespace(ns) {
            return Err(Errno::ENOENT);
        }
        let mounts = self.tree.mounts_of(alloc, ns)?;
        if is_used(in_use, mounts.as_slice()) {
            return Err(Errno::EBUSY);
        }
        self.remove(alloc, mounts.as_slice())?;
        Ok(mounts)
    }
}
