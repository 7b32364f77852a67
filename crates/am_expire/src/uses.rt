//! Which walkers are inside which mounts.

ghost use Rattle.std.specs.Prelude.{◌≡◌, ◌<◌, ◌^◌, ◌↔◌, length, slice_get, Some, IsTrue, IfOk, OnOk, OnErr};
ghost use Rattle.am_names.specs.{RefusedAs, RefusedOnlyAs};
ghost use Rattle.am_expire.specs.Uses.{no_uses, mount_of_walker, use_count, is_used, enter_refusal, entered, IsInToo, HasOneMore, leave_refusal, left, IsInNoMore};
ghost use Rattle.am_expire.specs.Counts.{counted, CountsOneMore};
ghost use Rattle.indexmap.specs.IndexMap.{spare};

use am_names::{Errno, MountId, WalkerId};
use am_ordered::OrderedMap;
use am_propagate::InUse;
use indexmap::IndexMap;
use std::alloc::{AllocError, Global};
use std::marker::Model;

/// A walker that is inside a mount, which is one use of the mount.
#[derive(Clone, Copy, Debug)]
pub struct Use {
    pub walker: WalkerId,
    pub mount: MountId,
}

/// The walkers that are inside mounts, each inside one, in order of entering.
#[derive(Drop)]
pub struct Uses {
    /// The mount of each walker, by the walker's number.
    mounts: OrderedMap<u32, MountId>,
    /// How many walkers are inside each mount, by the mount's number; none has no entry.
    counts: IndexMap<u64, usize>,
}

impl Model for Uses {
    ghost use Rattle.std.specs.Prelude.{List};
    ghost use Rattle.am_expire.specs.declared.uses.Use.{Use as Row};

    ghost Value = { List Row };

    ghost use Rattle.am_expire.specs.View.{rows_of, IsKept};

    ghost view = { rows_of };

    ghost invariant = { IsKept };
}

/// How many walkers are inside the mount.
fn counted(counts: &IndexMap<u64, usize>, mount: MountId) -> usize
    ensures { result ≡ counted counts.now.entries mount }
{
    counts.get(&mount.0).copied().unwrap_or(0)
}

/// One walker more is inside the mount, and there is room to count it.
fn count_up(counts: &mut IndexMap<u64, usize>, mount: MountId)
    requires room { 0 < spare counts.old }
    requires small { counted counts.old.entries mount < 2 ^ 63 }
    ensures { CountsOneMore mount counts.old.entries counts.new.entries }
{
    let count = counted(counts, mount) + 1;
    let _counted = counts.insert(mount.0, count);
}

/// One walker less is inside the mount.
fn count_down(counts: &mut IndexMap<u64, usize>, mount: MountId)
    requires { 0 < counted counts.old.entries mount }
    ensures { CountsOneMore mount counts.new.entries counts.old.entries }
{
    let count = counted(counts, mount);
    if count == 1 {
        let _last = counts.swap_remove(&mount.0);
    } else if let Some(others) = counts.get_mut(&mount.0) {
        *others = count - 1;
    }
}

impl Uses {
    /// Nobody is inside a mount.
    pub fn new(alloc: Global) -> Uses
        ensures { result ≡ no_uses }
    {
        Uses {
            mounts: OrderedMap::new(alloc),
            counts: IndexMap::new(alloc),
        }
    }

    /// The same uses once more.
    pub fn copy(&self, alloc: Global) -> Result<Uses, AllocError>
        ensures { IfOk result (λ copy. copy ≡ self.now) }
    {
        Ok(Uses {
            mounts: self.mounts.copy(alloc)?,
            counts: self.counts.clone()?,
        })
    }

    /// Whether the same walkers are inside the same mounts, and entered in the same order.
    pub fn is_same(&self, other: &Uses) -> bool
        ensures { IsTrue result ↔ (self.now ≡ other.now) }
    {
        self.mounts.is_same(&other.mounts)
    }

    /// The mount that the walker is inside of.
    pub fn mount_of_walker(&self, walker: WalkerId) -> Option<MountId>
        ensures { result ≡ mount_of_walker self.now walker }
    {
        self.mounts.get(&walker.0).copied()
    }

    /// How many walkers are inside mounts.
    pub fn len(&self) -> usize
        ensures { result ≡ length self.now }
    {
        self.mounts.len()
    }

    /// The walker at this place, in order of entering, and the mount that it is inside of.
    pub fn row(&self, index: usize) -> Option<Use>
        ensures { result ≡ slice_get self.now index }
    {
        let (walker, mount) = self.mounts.get_index(index)?;
        Some(Use {
            walker: WalkerId(*walker),
            mount: *mount,
        })
    }

    /// How many walkers are inside the mount.
    pub fn count(&self, mount: MountId) -> usize
        ensures { result ≡ use_count self.now mount }
    {
        counted(&self.counts, mount)
    }

    /// The walker enters the mount.
    pub fn enter(&mut self, walker: WalkerId, mount: MountId) -> Result<(), Errno>
        ensures refusal { RefusedAs (enter_refusal walker self.old) result }
        ensures ok { OnOk result (self.new ≡ entered walker mount self.old) }
        ensures map { OnOk result (IsInToo walker mount self.old self.new) }
        ensures count { OnOk result (HasOneMore mount self.old self.new) }
        ensures err { OnErr result (self.new ≡ self.old) }
    {
        if self.mount_of_walker(walker).is_some() {
            return Err(Errno::EINVAL);
        }
        self.mounts.reserve(1)?;
        self.counts.reserve(1)?;
        // For the checker: a count is no greater than the number of walkers.
        let _walkers = self.mounts.len();
        self.mounts.insert_reserved(walker.0, mount);
        count_up(&mut self.counts, mount);
        Ok(())
    }

    /// The walker leaves the mount that it is inside of, which is told.
    pub fn leave(&mut self, walker: WalkerId) -> Result<MountId, Errno>
        ensures refusal { RefusedOnlyAs (leave_refusal walker self.old) result }
        ensures mount { IfOk result (λ mount. mount_of_walker self.old walker ≡ Some mount) }
        ensures ok { OnOk result (self.new ≡ left walker self.old) }
        ensures map { OnOk result (IsInNoMore walker self.old self.new) }
        ensures count { IfOk result (λ mount. HasOneMore mount self.new self.old) }
        ensures err { OnErr result (self.new ≡ self.old) }
    {
        let Some(mount) = self.mount_of_walker(walker) else {
            return Err(Errno::EINVAL);
        };
        let _left = self.mounts.remove(&walker.0);
        count_down(&mut self.counts, mount);
        Ok(mount)
    }
}

impl InUse for Uses {
    ghost uses = { is_used };

    fn in_use(&self, mount: MountId) -> bool {
        0 < self.count(mount)
    }
}
