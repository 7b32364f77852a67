//! What calls would answer: for whoever keeps a copy of the answer, and has to make it first.

ghost use Rattle.std.specs.Prelude.{◌≡◌, None, IfOk};
ghost use Rattle.am_names.specs.{RefusedAs};
ghost use Rattle.am_propagate.specs.{mounts_in};
ghost use Rattle.am_walk.specs.{fault_of};
ghost use Rattle.am_kernel.specs.Lookups.{position_at};
ghost use Rattle.am_kernel.specs.Administration.{plain_gone};
ghost use Rattle.am_kernel.specs.Previews.{arrived_at, arrival_of, arrival_again_of};

use crate::kernel::Kernel;
use am_names::{AbsPath, Errno, MountId, NsId, Position, Seconds, WalkerId};
use am_walk::{Stop, resolve};
use std::alloc::{AllocError, Global};

/// Where a walk arrives that stops so.
fn arrived_at(stop: Stop) -> Option<Position>
    ensures { result ≡ arrived_at stop }
{
    match stop {
        Stop::Arrive(at) => Some(at),
        Stop::Block(_) | Stop::Missing(_) | Stop::Refuse(_) => None,
    }
}

impl Kernel {
    /// The position at which a walk that begins now would arrive. The time is as for `walk`.
    /// Nothing changes.
    pub fn arrival(
        &self,
        alloc: Global,
        ns: NsId,
        path: &AbsPath<'_>,
        now: Seconds,
    ) -> Result<Option<Position>, AllocError>
        ensures { IfOk result (λ at. at ≡ arrival_of self.now ns path.now now) }
    {
        let walk = resolve(
            alloc,
            &self.subtree,
            self.triggers.as_triggers(),
            &self.waits,
            &self.failures,
            ns,
            path,
            self.moment(now),
            self.negative,
        )?;
        Ok(arrived_at(walk.stop))
    }

    /// The same of the walk of a walker that waits, as if it began again now.
    pub fn arrival_again(
        &self,
        alloc: Global,
        walker: WalkerId,
        now: Seconds,
    ) -> Result<Option<Position>, AllocError>
        ensures { IfOk result (λ at. at ≡ arrival_again_of self.now walker now) }
    {
        match self.walk_row(walker) {
            Some(row) => self.arrival(alloc, row.ns, &row.path.path(), now),
            None => Ok(None),
        }
    }

    /// What `umount_plain` would remove, in rising order, also where it would refuse to.
    pub fn umount_takes(
        &self,
        alloc: Global,
        ns: NsId,
        path: &AbsPath<'_>,
    ) -> Result<Vec<MountId>, Errno>
        ensures refusal { RefusedAs (fault_of (position_at self.now ns path.now)) result }
        ensures ok { IfOk result (λ v. v.items ≡ plain_gone self.now ns path.now) }
    {
        let at = self.position(alloc, ns, path)?;
        self.subtree.umount_takes(alloc, at.mount)
    }

    /// What `ns_drop` would remove, in rising order, also where it would refuse to.
    pub fn drop_takes(&self, alloc: Global, ns: NsId) -> Result<Vec<MountId>, Errno>
        ensures refusal { RefusedAs None result }
        ensures ok { IfOk result (λ v. v.items ≡ mounts_in self.now.table ns) }
    {
        Ok(self.subtree.tree().mounts_of(alloc, ns)?)
    }
}
