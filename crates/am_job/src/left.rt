//! The acts that a job has left.

ghost use Rattle.std.specs.Prelude.{◌≡◌, ◌↔◌, Some, None, IsTrue, IfOk};
ghost use Rattle.am_names.specs.declared.trigger.Trigger.{Trigger as TriggerRow};
ghost use Rattle.am_job.specs.declared.act.Act.TheVariants as acts;
ghost use Rattle.am_job.specs.declared.left.Later.TheVariants as later;
ghost use Rattle.am_job.specs.Left.{plan_left, after};
ghost use Rattle.am_job.specs.Plans.{reply, book_and_reply, at_directory, mount_entry, mounting, missing_plan, expire_plan, plan_for, rest_of};

use crate::act::{Act, Outcome};
use am_map::Entry;
use am_names::{FailNo, MountId, Status, TokenKind, Trigger};
use am_state::Record;
use std::alloc::{AllocError, Global};

/// What comes after the next act.
#[derive(Drop)]
pub enum Later {
    /// Nothing: that act acknowledges the notification.
    Nothing,
    /// Acknowledge it.
    Reply { status: Status },
    /// Write down that nothing is mounted, and acknowledge it.
    RecordNone { status: Status },
    /// Mount the entry on the directory.
    Mount { entry: Entry },
    /// By what comes of the mount: write it down, or remove its directory.
    AfterMount,
    /// By what comes of the unmount: remove the directory, or write down that the mount stays.
    AfterUmount { mount: MountId },
}

/// The acts that are left: the next, and what comes after it.
#[derive(Drop)]
pub enum Left {
    Ended,
    Next { act: Act, later: Later },
}

impl Later {
    /// The same once more.
    fn copy(&self, alloc: Global) -> Result<Later, AllocError>
        ensures { IfOk result (λ copy. copy ≡ self.now) }
    {
        let copy = match self {
            Later::Nothing => Later::Nothing,
            Later::Reply { status } => Later::Reply { status: *status },
            Later::RecordNone { status } => Later::RecordNone { status: *status },
            Later::Mount { entry } => Later::Mount {
                entry: entry.copy(alloc)?,
            },
            Later::AfterMount => Later::AfterMount,
            Later::AfterUmount { mount } => Later::AfterUmount { mount: *mount },
        };
        Ok(copy)
    }

    /// Whether both are the same.
    fn is_same(&self, other: &Later) -> bool
        ensures { IsTrue result ↔ (self.now ≡ other.now) }
    {
        match self {
            Later::Nothing => is_nothing(other),
            Later::Reply { status } => is_reply(*status, other),
            Later::RecordNone { status } => is_record_none(*status, other),
            Later::Mount { entry } => is_mount(entry, other),
            Later::AfterMount => is_after_mount(other),
            Later::AfterUmount { mount } => is_after_umount(*mount, other),
        }
    }
}

fn is_nothing(other: &Later) -> bool
    ensures { IsTrue result ↔ (later.Nothing ≡ other.now) }
{
    match other {
        Later::Nothing => true,
        _ => false,
    }
}

fn is_reply(status: Status, other: &Later) -> bool
    ensures { IsTrue result ↔ (later.Reply status ≡ other.now) }
{
    match other {
        Later::Reply { status: same } => status == *same,
        _ => false,
    }
}

fn is_record_none(status: Status, other: &Later) -> bool
    ensures { IsTrue result ↔ (later.RecordNone status ≡ other.now) }
{
    match other {
        Later::RecordNone { status: same } => status == *same,
        _ => false,
    }
}

fn is_mount(entry: &Entry, other: &Later) -> bool
    ensures { IsTrue result ↔ (later.Mount entry.now ≡ other.now) }
{
    match other {
        Later::Mount { entry: same } => entry.is_same(same),
        _ => false,
    }
}

fn is_after_mount(other: &Later) -> bool
    ensures { IsTrue result ↔ (later.AfterMount ≡ other.now) }
{
    match other {
        Later::AfterMount => true,
        _ => false,
    }
}

fn is_after_umount(mount: MountId, other: &Later) -> bool
    ensures { IsTrue result ↔ (later.AfterUmount mount ≡ other.now) }
{
    match other {
        Later::AfterUmount { mount: same } => mount == *same,
        _ => false,
    }
}

fn reply(status: Status) -> Left
    ensures { (trigger : TriggerRow) → plan_left trigger result ≡ reply status }
{
    Left::Next {
        act: Act::Reply { status },
        later: Later::Nothing,
    }
}

fn book_and_reply(trigger: &Trigger, entry: Option<Record>, status: Status) -> Left
    ensures { plan_left trigger.now result ≡ book_and_reply trigger.now entry status }
{
    Left::Next {
        act: Act::Record {
            trigger: *trigger,
            entry,
        },
        later: Later::Reply { status },
    }
}

/// The directory of an indirect trigger goes, and then it is written down that nothing is mounted.
fn without_directory(trigger: &Trigger, status: Status) -> Left
    ensures { plan_left trigger.now result ≡ at_directory trigger.now.name
        (acts.Rmdir trigger.now) (book_and_reply trigger.now None status) }
{
    if trigger.name.is_none() {
        return book_and_reply(trigger, None, status);
    }
    Left::Next {
        act: Act::Rmdir { trigger: *trigger },
        later: Later::RecordNone { status },
    }
}

fn mount_entry(trigger: &Trigger, entry: Entry) -> Left
    ensures { plan_left trigger.now result ≡ mount_entry trigger.now entry }
{
    Left::Next {
        act: Act::Mount {
            trigger: *trigger,
            entry,
        },
        later: Later::AfterMount,
    }
}

fn mounting(trigger: &Trigger, entry: Entry) -> Left
    ensures { plan_left trigger.now result ≡ mounting trigger.now entry }
{
    if trigger.name.is_none() {
        return mount_entry(trigger, entry);
    }
    Left::Next {
        act: Act::Mkdir { trigger: *trigger },
        later: Later::Mount { entry },
    }
}

fn missing(trigger: &Trigger, mounted: Option<MountId>, entry: Option<Entry>) -> Left
    ensures { plan_left trigger.now result ≡ missing_plan trigger.now mounted entry }
{
    if mounted.is_some() {
        return reply(Status::Ready);
    }
    match entry {
        Some(entry) => mounting(trigger, entry),
        None => book_and_reply(trigger, None, Status::Fail(FailNo::ENOENT)),
    }
}

fn expire(trigger: &Trigger, mounted: Option<MountId>) -> Left
    ensures { plan_left trigger.now result ≡ expire_plan trigger.now mounted }
{
    match mounted {
        Some(mount) => Left::Next {
            act: Act::Umount { trigger: *trigger },
            later: Later::AfterUmount { mount },
        },
        None => reply(Status::Fail(FailNo::ENOENT)),
    }
}

fn after_mount(trigger: &Trigger, outcome: Outcome) -> Left
    ensures { plan_left trigger.now result ≡ after trigger.now later.AfterMount outcome }
{
    match outcome {
        Outcome::Made { mount } => {
            book_and_reply(trigger, Some(Record::Mounted { mount }), Status::Ready)
        }
        Outcome::Failed(no) => without_directory(trigger, Status::Fail(no)),
        Outcome::Done => without_directory(trigger, Status::Fail(FailNo::ENOENT)),
    }
}

fn after_umount(trigger: &Trigger, mount: MountId, outcome: Outcome) -> Left
    ensures { plan_left trigger.now result ≡ after trigger.now (later.AfterUmount mount) outcome }
{
    match outcome {
        Outcome::Done | Outcome::Made { .. } => without_directory(trigger, Status::Ready),
        Outcome::Failed(no) => {
            book_and_reply(trigger, Some(Record::Mounted { mount }), Status::Fail(no))
        }
    }
}

impl Later {
    /// What is left when this has come of the act before.
    pub(crate) fn after(self, trigger: &Trigger, outcome: Outcome) -> Left
        ensures { plan_left trigger.now result ≡ after trigger.now self outcome }
    {
        match self {
            Later::Nothing => Left::Ended,
            Later::Reply { status } => reply(status),
            Later::RecordNone { status } => book_and_reply(trigger, None, status),
            Later::Mount { entry } => mount_entry(trigger, entry),
            Later::AfterMount => after_mount(trigger, outcome),
            Later::AfterUmount { mount } => after_umount(trigger, mount, outcome),
        }
    }
}

impl Left {
    /// The same acts once more.
    pub fn copy(&self, alloc: Global) -> Result<Left, AllocError>
        ensures { IfOk result (λ left. left ≡ self.now) }
    {
        match self {
            Left::Ended => Ok(Left::Ended),
            Left::Next { act, later } => Ok(Left::Next {
                act: act.copy(alloc)?,
                later: later.copy(alloc)?,
            }),
        }
    }

    /// Whether both are the same acts.
    pub fn is_same(&self, other: &Left) -> bool
        ensures { IsTrue result ↔ (self.now ≡ other.now) }
    {
        match (self, other) {
            (Left::Ended, Left::Ended) => true,
            (
                Left::Next { act, later },
                Left::Next {
                    act: other_act,
                    later: other_later,
                },
            ) => act.is_same(other_act) && later.is_same(other_later),
            (Left::Ended, Left::Next { .. }) | (Left::Next { .. }, Left::Ended) => false,
        }
    }

    /// The plan for a packet, by the kind of its token, by what the book says to be mounted on its
    /// trigger, and by the entry of its key.
    pub(crate) fn plan_for(
        kind: TokenKind,
        trigger: &Trigger,
        mounted: Option<MountId>,
        entry: Option<Entry>,
    ) -> Left
        ensures { plan_left trigger.now result ≡ plan_for kind trigger.now mounted entry }
    {
        match kind {
            TokenKind::Missing => missing(trigger, mounted, entry),
            TokenKind::Expire => expire(trigger, mounted),
        }
    }

    /// What is left when this has come of the next act.
    pub(crate) fn after(self, trigger: &Trigger, outcome: Outcome) -> Left
        ensures { plan_left trigger.now result ≡ rest_of outcome (plan_left trigger.now self) }
    {
        match self {
            Left::Ended => Left::Ended,
            Left::Next { later, .. } => later.after(trigger, outcome),
        }
    }
}
