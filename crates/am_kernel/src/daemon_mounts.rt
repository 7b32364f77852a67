//! What the daemons mount on the triggers of their autofs file systems.

ghost use Rattle.std.specs.Prelude.{◌≡◌, ◌+◌, ◌∷◌, ◌++◌, [], flat_map, IfOk, OnOk, OnErr};
ghost use Rattle.am_names.specs.{RefusedAs};
ghost use Rattle.am_state.specs.declared.obs.Obs.TheVariants.{Mounted, Unmounted};
ghost use Rattle.am_propagate.specs.{umount_refusal, unmounted, removed};
ghost use Rattle.am_expire.specs.{is_used};
ghost use Rattle.am_kernel.specs.DaemonMounts.{coming, is_there, location_of, mounted_on, mount_on_refusal, with_mount_on, umount_from_refusal, gone_from, without_mounts, is_top_at, trigger_under, trigger_under_mount, standing_mount, standing_of, standing};

use crate::kernel::Kernel;
use crate::table::{refuse, table};
use am_expire::Uses;
use am_names::{Attach, Errno, FsId, MountId, MountIds, MountRow, Name, Position, Trigger};
use am_propagate::Subtree;
use am_state::Obs;
use am_trigger::{Autofs, place_of};
use std::alloc::{AllocError, Global};

/// Unmounts a mount with what was mounted with it, of which the caller has a list, and tells all
/// that went.
fn umount_of(
    subtree: &mut Subtree,
    uses: &Uses,
    alloc: Global,
    mount: MountId,
    gone: Vec<MountId>,
    seen: &mut Vec<Obs>,
) -> Result<Vec<MountId>, Errno>
    requires { gone.items ≡ unmounted subtree.old mount }
    ensures refusal { RefusedAs (umount_refusal (is_used uses.now) mount subtree.old) result }
    ensures gone { IfOk result (λ v. v.items ≡ unmounted subtree.old mount) }
    ensures ok { OnOk result (subtree.new ≡ removed (unmounted subtree.old mount) subtree.old) }
    ensures shown { OnOk result
        (seen.new.items ≡ seen.old.items ++ Unmounted (unmounted subtree.old mount) ∷ []) }
    ensures err { OnErr result (subtree.new ≡ subtree.old) }
    ensures unseen { OnErr result (seen.new.items ≡ seen.old.items) }
{
    seen.reserve(1)?;
    let mounts = MountIds::of(Vec::from_slice(alloc, gone.as_slice())?);
    subtree.umount_listed(alloc, mount, gone.as_slice(), uses)?;
    seen.push_reserved(Obs::Unmounted { mounts });
    Ok(gone)
}

impl Kernel {
    /// Whether the trigger is there: an indirect one once its directory is made.
    fn is_there(&self, trigger: &Trigger) -> bool
        ensures { result ≡ is_there self.now trigger.now }
    {
        match self.triggers.as_triggers().autofs(trigger.fs) {
            Some(row) if row.direct => trigger.name.is_none(),
            Some(_) => trigger.name.is_some() && self.triggers.as_triggers().made(trigger),
            None => false,
        }
    }

    /// The daemon's mount of the file system; 0, which no mount is, where there is none.
    fn location_of(&self, fs: FsId) -> MountId
        ensures { result ≡ location_of self.now fs }
    {
        match self.triggers.as_triggers().autofs(fs) {
            Some(row) => row.location,
            None => MountId(0),
        }
    }

    /// Mounts a new file system on a trigger, at the daemon's mount of its autofs.
    pub fn mount_on(
        &mut self,
        alloc: Global,
        attach: Attach,
        trigger: &Trigger,
        seen: &mut Vec<Obs>,
    ) -> Result<MountId, Errno>
        ensures refusal { RefusedAs (mount_on_refusal self.old attach trigger.now) result }
        ensures mount { IfOk result (λ mount. mount ≡ self.old.table.last_mount + 1) }
        ensures ok { OnOk result (self.new ≡ with_mount_on trigger.now self.old) }
        ensures shown { OnOk result (seen.new.items ≡
            seen.old.items ++
            Mounted (coming self.old (location_of self.old trigger.now.fs)) ∷ []) }
        ensures err { OnErr result (self.new ≡ self.old) }
        ensures unseen { OnErr result (seen.new.items ≡ seen.old.items) }
    {
        table!(refuse; mount_on(self, attach, trigger));
        let place = place_of(alloc, trigger)?;
        let location = self.location_of(trigger.fs);
        if self.subtree.tree().top(location, place.text()).is_some() {
            return Err(Errno::EBUSY);
        }
        let at = Position {
            mount: location,
            place,
        };
        self.mount_new(alloc, &at, seen)
    }

    /// What is mounted on the trigger at the daemon's mount.
    fn mounted_on(&self, alloc: Global, trigger: &Trigger) -> Result<Option<MountId>, AllocError>
        ensures { IfOk result (λ mount. mount ≡ mounted_on self.now trigger.now) }
    {
        let place = place_of(alloc, trigger)?;
        let location = self.location_of(trigger.fs);
        Ok(self.subtree.tree().top(location, place.text()))
    }

    /// Unmounts what is mounted on a trigger at the daemon's mount of its autofs, and what was
    /// mounted with it; all that went is told, in rising order.
    pub fn umount_from(
        &mut self,
        alloc: Global,
        attach: Attach,
        trigger: &Trigger,
        seen: &mut Vec<Obs>,
    ) -> Result<Vec<MountId>, Errno>
        ensures refusal { RefusedAs (umount_from_refusal self.old attach trigger.now) result }
        ensures gone { IfOk result (λ v. v.items ≡ gone_from self.old trigger.now) }
        ensures ok { OnOk result
            (self.new ≡ without_mounts (gone_from self.old trigger.now) self.old) }
        ensures shown { OnOk result
            (seen.new.items ≡ seen.old.items ++ Unmounted (gone_from self.old trigger.now) ∷ []) }
        ensures err { OnErr result (self.new ≡ self.old) }
        ensures unseen { OnErr result (seen.new.items ≡ seen.old.items) }
    {
        table!(refuse; umount_from(self, attach, trigger));
        let Some(mount) = self.mounted_on(alloc, trigger)? else {
            return Err(Errno::ENOENT);
        };
        let gone = self.subtree.umount_takes(alloc, mount)?;
        self.umount_mount(alloc, mount, gone, seen)
    }

    /// Unmounts a mount with what was mounted with it, of which the caller has a list, and tells
    /// all that went.
    pub(crate) fn umount_mount(
        &mut self,
        alloc: Global,
        mount: MountId,
        gone: Vec<MountId>,
        seen: &mut Vec<Obs>,
    ) -> Result<Vec<MountId>, Errno>
        requires { gone.items ≡ unmounted self.old.table mount }
        ensures refusal { RefusedAs (umount_refusal (is_used self.old.uses) mount self.old.table)
            result }
        ensures gone { IfOk result (λ v. v.items ≡ unmounted self.old.table mount) }
        ensures ok { OnOk result
            (self.new ≡ without_mounts (unmounted self.old.table mount) self.old) }
        ensures shown { OnOk result
            (seen.new.items ≡ seen.old.items ++ Unmounted (unmounted self.old.table mount) ∷ []) }
        ensures err { OnErr result (self.new ≡ self.old) }
        ensures unseen { OnErr result (seen.new.items ≡ seen.old.items) }
    {
        umount_of(&mut self.subtree, &self.uses, alloc, mount, gone, seen)
    }

    /// Whether the row is the top at its place of this mount.
    fn is_top_at(&self, location: MountId, row: &MountRow) -> bool
        ensures { result ≡ is_top_at self.now location row.now }
    {
        match &row.mountpoint {
            Some(at) if at.mount == location => {
                self.subtree.tree().top(location, at.place.text()) == Some(row.mount)
            }
            Some(_) | None => false,
        }
    }

    /// The trigger on which the row is mounted, if it is the top there at the daemon's mount.
    fn trigger_under(&self, autofs: &Autofs, row: &MountRow) -> Option<Trigger>
        ensures { result ≡ trigger_under self.now autofs.now row.now }
    {
        if !self.is_top_at(autofs.location, row) {
            return None;
        }
        match &row.mountpoint {
            Some(at) => autofs.trigger_in(&at.place),
            None => None,
        }
    }

    /// The trigger on which the mount is mounted, if it is the top there at the daemon's mount.
    fn trigger_under_mount(&self, autofs: &Autofs, mount: MountId) -> Option<Trigger>
        ensures { result ≡ trigger_under_mount self.now autofs.now mount }
    {
        match self.subtree.tree().row(mount) {
            Some(row) => self.trigger_under(autofs, row),
            None => None,
        }
    }

    /// Those of these mounts that stand on triggers of the autofs, with the triggers.
    fn standing_among(
        &self,
        alloc: Global,
        autofs: &Autofs,
        mounts: &[MountId],
    ) -> Result<Vec<(Trigger, MountId)>, AllocError>
        ensures { IfOk result (λ v. v.items ≡
            flat_map (standing_mount self.now autofs.now) mounts.now) }
    {
        let mut standing = Vec::new(alloc);
        for mount in mounts {
            if let Some(trigger) = self.trigger_under_mount(autofs, *mount) {
                // The checker wants the type of its name said too.
                let _name: Option<Name> = trigger.name;
                standing.push((trigger, *mount))?;
            }
        }
        Ok(standing)
    }

    /// The triggers of the autofs on which something is mounted, with their mounts: it looks at
    /// what is mounted on the daemon's mount.
    fn standing_of(
        &self,
        alloc: Global,
        autofs: &Autofs,
    ) -> Result<Vec<(Trigger, MountId)>, AllocError>
        ensures { IfOk result (λ v. v.items ≡ standing_of self.now autofs.now) }
    {
        let mounts = self.subtree.tree().children(alloc, autofs.location)?;
        self.standing_among(alloc, autofs, mounts.as_slice())
    }

    /// Each trigger of the autofs on which something is mounted at the daemon's mount, with that
    /// mount, in rising order of mounts.
    pub fn standing(&self, alloc: Global, fs: FsId) -> Result<Vec<(Trigger, MountId)>, AllocError>
        ensures { IfOk result (λ v. v.items ≡ standing self.now fs) }
    {
        match self.triggers.as_triggers().autofs(fs) {
            Some(autofs) => self.standing_of(alloc, &autofs),
            None => Ok(Vec::new(alloc)),
        }
    }
}
