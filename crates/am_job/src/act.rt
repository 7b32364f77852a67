//! What a daemon does, and what comes of it.

ghost use Rattle.std.specs.Prelude.{◌≡◌, ◌↔◌, IsTrue, IfOk};
ghost use Rattle.am_job.specs.declared.act.Act.TheVariants as acts;

use am_map::Entry;
use am_names::{FailNo, MountId, Status, Trigger};
use am_state::Record;
use std::alloc::{AllocError, Global};

/// One act of a daemon.
#[derive(Drop)]
pub enum Act {
    /// Make the directory of an indirect trigger.
    Mkdir {
        trigger: Trigger,
    },
    /// Mount what the entry says on the trigger.
    Mount {
        trigger: Trigger,
        entry: Entry,
    },
    /// Unmount what is mounted on the trigger.
    Umount {
        trigger: Trigger,
    },
    /// Remove the directory of an indirect trigger.
    Rmdir {
        trigger: Trigger,
    },
    /// Write down what is mounted on the trigger, or that nothing is.
    Record {
        trigger: Trigger,
        entry: Option<Record>,
    },
    /// Acknowledge the notification
    /// (autofs.rst, "Communicating with autofs: root directory ioctls").
    Reply {
        status: Status,
    },
}

/// What came of an act.
#[derive(Clone, Copy)]
pub enum Outcome {
    Done,
    /// A mount, of this number.
    Made { mount: MountId },
    /// It failed with this error.
    Failed(FailNo),
}

impl Act {
    /// The same act once more.
    pub fn copy(&self, alloc: Global) -> Result<Act, AllocError>
        ensures { IfOk result (λ act. act ≡ self.now) }
    {
        let act = match self {
            Act::Mkdir { trigger } => Act::Mkdir { trigger: *trigger },
            Act::Mount { trigger, entry } => Act::Mount {
                trigger: *trigger,
                entry: entry.copy(alloc)?,
            },
            Act::Umount { trigger } => Act::Umount { trigger: *trigger },
            Act::Rmdir { trigger } => Act::Rmdir { trigger: *trigger },
            Act::Record { trigger, entry } => Act::Record {
                trigger: *trigger,
                entry: *entry,
            },
            Act::Reply { status } => Act::Reply { status: *status },
        };
        Ok(act)
    }

    /// Whether both are the same act.
    pub fn is_same(&self, other: &Act) -> bool
        ensures { IsTrue result ↔ (self.now ≡ other.now) }
    {
        match self {
            Act::Mkdir { trigger } => is_mkdir(trigger, other),
            Act::Mount { trigger, entry } => is_mount(trigger, entry, other),
            Act::Umount { trigger } => is_umount(trigger, other),
            Act::Rmdir { trigger } => is_rmdir(trigger, other),
            Act::Record { trigger, entry } => is_record(trigger, entry, other),
            Act::Reply { status } => is_reply(*status, other),
        }
    }
}

fn is_mkdir(trigger: &Trigger, act: &Act) -> bool
    ensures { IsTrue result ↔ (acts.Mkdir trigger.now ≡ act.now) }
{
    match act {
        Act::Mkdir { trigger: other } => is_same_trigger(trigger, other),
        _ => false,
    }
}

fn is_mount(trigger: &Trigger, entry: &Entry, act: &Act) -> bool
    ensures { IsTrue result ↔ (acts.Mount trigger.now entry.now ≡ act.now) }
{
    match act {
        Act::Mount {
            trigger: other,
            entry: other_entry,
        } => is_same_trigger(trigger, other) && entry.is_same(other_entry),
        _ => false,
    }
}

fn is_umount(trigger: &Trigger, act: &Act) -> bool
    ensures { IsTrue result ↔ (acts.Umount trigger.now ≡ act.now) }
{
    match act {
        Act::Umount { trigger: other } => is_same_trigger(trigger, other),
        _ => false,
    }
}

fn is_rmdir(trigger: &Trigger, act: &Act) -> bool
    ensures { IsTrue result ↔ (acts.Rmdir trigger.now ≡ act.now) }
{
    match act {
        Act::Rmdir { trigger: other } => is_same_trigger(trigger, other),
        _ => false,
    }
}

fn is_record(trigger: &Trigger, entry: &Option<Record>, act: &Act) -> bool
    ensures { IsTrue result ↔ (acts.Record trigger.now entry.now ≡ act.now) }
{
    match act {
        Act::Record {
            trigger: other,
            entry: other_entry,
        } => is_same_trigger(trigger, other) && *entry == *other_entry,
        _ => false,
    }
}

fn is_reply(status: Status, act: &Act) -> bool
    ensures { IsTrue result ↔ (acts.Reply status ≡ act.now) }
{
    match act {
        Act::Reply { status: other } => status == *other,
        _ => false,
    }
}

/// Whether both are one trigger.
#[tactic(auto, using(am_names::proofs::SameTriggers::equal_by_same_trigger, am_names::proofs::SameTriggers::same_trigger_itself))]
fn is_same_trigger(trigger: &Trigger, other: &Trigger) -> bool
    ensures { IsTrue result ↔ (trigger.now ≡ other.now) }
{
    trigger.is_same(other)
}
