//! The parts of a kernel once more.

ghost use Rattle.std.specs.Prelude.{◌≡◌, ◌≤◌, IfOk};

use crate::attachment_table::AttachmentTable;
use crate::packet_queue::PacketQueue;
use crate::walks::Walks;
use am_expire::{OrderedTriggers, Uses};
use am_propagate::Subtree;
use am_trigger::Failures;
use am_wait::Waits;
use std::alloc::{AllocError, Global};

/// The mounts and the triggers of a kernel, and who waits there.
#[derive(Drop)]
pub struct Triggered {
    pub subtree: Subtree,
    pub triggers: OrderedTriggers,
    pub failures: Failures,
    pub waits: Waits,
}

/// Who is inside of a kernel's mounts, its attachments, the walks of those who wait, and the packets.
#[derive(Drop)]
pub struct Walked {
    pub uses: Uses,
    pub attached: AttachmentTable,
    pub walks: Walks,
    pub queue: PacketQueue,
}

/// These mounts and triggers once more, with no less room for failures.
pub fn copy_triggered(
    alloc: Global,
    subtree: &Subtree,
    triggers: &OrderedTriggers,
    failures: &Failures,
    waits: &Waits,
) -> Result<Triggered, AllocError>
    ensures subtree { IfOk result (λ copy. copy.subtree ≡ subtree.now) }
    ensures triggers { IfOk result (λ copy. copy.triggers.rows ≡ triggers.now.rows) }
    ensures failures { IfOk result (λ copy. copy.failures.rows ≡ failures.now.rows) }
    ensures room { IfOk result (λ copy. failures.now.room ≤ copy.failures.room) }
    ensures waits { IfOk result (λ copy. copy.waits ≡ waits.now) }
{
    Ok(Triggered {
        subtree: subtree.copy(alloc)?,
        triggers: triggers.copy(alloc)?,
        failures: failures.copy(alloc)?,
        waits: waits.copy(alloc)?,
    })
}

/// These walkers, attachments and packets once more.
pub fn copy_walked(
    alloc: Global,
    uses: &Uses,
    attached: &AttachmentTable,
    walks: &Walks,
    queue: &PacketQueue,
) -> Result<Walked, AllocError>
    ensures uses { IfOk result (λ copy. copy.uses ≡ uses.now) }
    ensures attached { IfOk result (λ copy. copy.attached.rows ≡ attached.now.rows) }
    ensures walks { IfOk result (λ copy. copy.walks.rows ≡ walks.now.rows) }
    ensures queue { IfOk result (λ copy. copy.queue.rows ≡ queue.now.rows) }
{
    Ok(Walked {
        uses: uses.copy(alloc)?,
        attached: attached.copy(alloc)?,
        walks: walks.copy(alloc)?,
        queue: queue.copy(alloc)?,
    })
}
