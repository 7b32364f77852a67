//! The kernel's half of an automounter.

ghost use Rattle.std.specs.Prelude.{◌≡◌, ◌↔◌, max, None, IsTrue, IfOk};
ghost use Rattle.am_names.specs.{RefusedAs};
ghost use Rattle.am_kernel.specs.State.{initial};
ghost use Rattle.am_kernel.specs.Same.{HaveSameTriggers, HaveSameWalks};
ghost use Rattle.am_kernel.specs.CallOutcome.{moment_of};

use crate::attachment_table::AttachmentTable;
use crate::copies::{Triggered, Walked, copy_triggered, copy_walked};
use crate::packet_queue::PacketQueue;
use crate::row::{Attached, WalkRow};
use crate::walks::Walks;
use am_expire::{OrderedTriggers, Uses};
use am_names::{Errno, Limits, Seconds};
use am_propagate::Subtree;
use am_state::QueuedRow;
use am_trigger::{Failures, Triggers};
use am_wait::Waits;
use std::alloc::{AllocError, Global};
use std::marker::Model;

/// The mounts of all namespaces, the autofs file systems with their triggers, tokens and pipes,
/// and the walkers.
#[derive(Drop)]
pub struct Kernel {
    pub(crate) subtree: Subtree,
    pub(crate) triggers: OrderedTriggers,
    pub(crate) failures: Failures,
    pub(crate) waits: Waits,
    pub(crate) uses: Uses,
    pub(crate) attached: AttachmentTable,
    pub(crate) walks: Walks,
    pub(crate) queue: PacketQueue,
    pub(crate) last_fs: u32,
    pub(crate) last_attach: u32,
    pub(crate) latest: Seconds,
    pub(crate) negative: Seconds,
}

impl Model for Kernel {
    ghost use Rattle.am_kernel.specs.State.{KernelState};

    ghost Value = { KernelState };

    ghost use Rattle.am_kernel.specs.View.{kernel_of, IsKept};

    ghost view = { kernel_of };

    ghost invariant = { IsKept };
}

/// The later of two moments.
fn later(one: Seconds, other: Seconds) -> Seconds
    ensures { result ≡ max one other }
{
    if one < other { other } else { one }
}

impl Kernel {
    /// Namespace 0 with its root; nothing is attached, and nobody walks.
    pub fn new(alloc: Global, limits: Limits) -> Result<Kernel, Errno>
        ensures refusal { RefusedAs None result }
        ensures ok { IfOk result (λ kernel. kernel ≡ initial limits) }
    {
        Ok(Kernel {
            subtree: Subtree::new(alloc, limits.mounts as u64)?,
            triggers: OrderedTriggers::new(alloc),
            failures: Failures::new(alloc),
            waits: Waits::new(alloc, limits.waiters, limits.tokens),
            uses: Uses::new(alloc),
            attached: AttachmentTable::new(alloc),
            walks: Walks::new(alloc),
            queue: PacketQueue::new(alloc),
            last_fs: 1,
            last_attach: 0,
            latest: Seconds(0),
            negative: limits.negative,
        })
    }

    /// The same kernel once more.
    pub fn copy(&self, alloc: Global) -> Result<Kernel, AllocError>
        ensures { IfOk result (λ copy. copy ≡ self.now) }
    {
        let first = copy_triggered(
            alloc,
            &self.subtree,
            &self.triggers,
            &self.failures,
            &self.waits,
        )?;
        let second = copy_walked(alloc, &self.uses, &self.attached, &self.walks, &self.queue)?;
        let Triggered {
            subtree,
            triggers,
            failures,
            waits,
        } = first;
        let Walked {
            uses,
            attached,
            walks,
            queue,
        } = second;
        Ok(Kernel {
            subtree,
            triggers,
            failures,
            waits,
            uses,
            attached,
            walks,
            queue,
            last_fs: self.last_fs,
            last_attach: self.last_attach,
            latest: self.latest,
            negative: self.negative,
        })
    }

    /// Whether the mounts and the triggers are the same, and who waits there.
    fn is_same_triggered(&self, other: &Kernel) -> bool
        ensures { IsTrue result ↔ HaveSameTriggers self.now other.now }
    {
        self.waits.is_same(&other.waits)
            && self.failures.is_same(&other.failures)
            && self.triggers.is_same(&other.triggers)
            && self.subtree.is_same(&other.subtree)
    }

    /// Whether the walkers, attachments and packets are the same.
    fn is_same_walked(&self, other: &Kernel) -> bool
        ensures { IsTrue result ↔ HaveSameWalks self.now other.now }
    {
        self.uses.is_same(&other.uses)
            && self.attached.is_same(&other.attached)
            && self.walks.is_same(&other.walks)
            && self.queue.is_same(&other.queue)
    }

    /// Whether both are the same kernel.
    #[tactic(auto, using(crate::proofs::SameLemmas::same_kernels, crate::proofs::SameLemmas::same_triggers, crate::proofs::SameLemmas::same_walks))]
    pub fn is_same(&self, other: &Kernel) -> bool
        ensures { IsTrue result ↔ (self.now ≡ other.now) }
    {
        self.last_fs == other.last_fs
            && self.last_attach == other.last_attach
            && self.latest == other.latest
            && self.negative == other.negative
            && self.is_same_walked(other)
            && self.is_same_triggered(other)
    }

    /// The mounts of all namespaces.
    pub fn subtree(&self) -> &Subtree
        ensures { result.now ≡ self.now.table }
    {
        &self.subtree
    }

    /// The open tokens, and who waits on them.
    pub fn waits(&self) -> &Waits
        ensures { result.now ≡ self.now.waits }
    {
        &self.waits
    }

    /// The walkers that are inside mounts.
    pub fn uses(&self) -> &Uses
        ensures { result.now ≡ self.now.uses }
    {
        &self.uses
    }

    /// The autofs file systems, the directories that daemons made, and the last uses.
    pub fn triggers(&self) -> &Triggers
        ensures { result.now.rows ≡ self.now.triggers }
    {
        self.triggers.as_triggers()
    }

    /// What failed last at each trigger.
    pub fn failures(&self) -> &Failures
        ensures { result.now.rows ≡ self.now.failures }
    {
        &self.failures
    }

    /// The latest moment of all walks, resumes and expiries that weren't refused.
    pub fn latest(&self) -> Seconds
        ensures { result ≡ self.now.latest }
    {
        self.latest
    }

    /// The timeout and the latest attachment of each autofs, in order of attaching.
    pub fn attached(&self) -> &[Attached]
        ensures { result.now ≡ self.now.attached }
    {
        self.attached.as_slice()
    }

    /// The walk that each waiting walker began, in order of waiting.
    pub fn walks(&self) -> &[WalkRow]
        ensures { result.now ≡ self.now.walks }
    {
        self.walks.as_slice()
    }

    /// The packets in the pipes, in order.
    pub fn packets(&self) -> &[QueuedRow]
        ensures { result.now ≡ self.now.queue }
    {
        self.queue.as_slice()
    }

    /// The moment of an event: its own, or the latest so far.
    pub(crate) fn moment(&self, now: Seconds) -> Seconds
        ensures { result ≡ moment_of self.now now }
    {
        later(self.latest, now)
    }
}
