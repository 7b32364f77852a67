//! A job: what the daemon does for one packet.

ghost use Rattle.std.specs.Prelude.{◌≡◌, ◌⊎◌, ◌↔◌, IsTrue, IfOk, IfSome, option_copied};
ghost use Rattle.am_job.specs.Job.{plan_of};
ghost use Rattle.am_job.specs.Laws.{AcknowledgesLast, RecordsFirst, IsLawful, ClaimsFollow, claimed_first};
ghost use Rattle.am_job.specs.Plans.{plan_for, next_of, rest_of, is_reply, claims};

use crate::act::{Act, Outcome};
use crate::left::Left;
use am_map::Entry;
use am_names::{Attach, JobId, MountId, TokenKind, Trigger};
use std::alloc::{AllocError, Global};
use std::marker::Model;
use std::mem;

/// What the daemon does for one packet: a plan of acts, each told by what came of the one before.
/// No memory is taken once it is made.
#[derive(Drop)]
pub struct Job {
    job: JobId,
    attach: Attach,
    trigger: Trigger,
    left: Left,
}

impl Model for Job {
    ghost use Rattle.am_job.specs.Job.{JobState};

    ghost Value = { JobState };

    ghost use Rattle.am_job.specs.JobView.{job_of, IsJob};

    ghost view = { job_of };

    ghost invariant = { IsJob };
}

impl Job {
    /// The job of a packet: by the kind of its token, by what the book says to be mounted on its
    /// trigger, and by the entry of its key, which is moved in.
    pub fn new(
        job: JobId,
        attach: Attach,
        trigger: Trigger,
        kind: TokenKind,
        mounted: Option<MountId>,
        entry: Option<Entry>,
    ) -> Job
        ensures token { result.token ≡ job }
        ensures attach { result.attach ≡ attach }
        ensures trigger { result.trigger ≡ trigger }
        ensures plan { plan_of result ≡ plan_for kind trigger mounted entry }
        ensures acknowledges { AcknowledgesLast (plan_of result) }
        ensures records { IsTrue (is_reply (plan_of result)) ⊎ RecordsFirst (plan_of result) }
        ensures claims { claims (plan_of result) ≡ claimed_first (plan_of result) mounted }
    {
        let left = Left::plan_for(kind, &trigger, mounted, entry);
        Job {
            job,
            attach,
            trigger,
            left,
        }
    }

    /// The same job once more.
    pub fn copy(&self, alloc: Global) -> Result<Job, AllocError>
        ensures { IfOk result (λ job. job ≡ self.now) }
    {
        Ok(Job {
            job: self.job,
            attach: self.attach,
            trigger: self.trigger,
            left: self.left.copy(alloc)?,
        })
    }

    /// Whether both are the same job, with the same acts left.
    #[tactic(auto, using(am_names::proofs::SameTriggers::equal_by_same_trigger, am_names::proofs::SameTriggers::same_trigger_itself))]
    pub fn is_same(&self, other: &Job) -> bool
        ensures { IsTrue result ↔ (self.now ≡ other.now) }
    {
        other.job == self.job
            && self.attach == other.attach
            && self.trigger.is_same(&other.trigger)
            && self.left.is_same(&other.left)
    }

    /// The number of the packet's token.
    pub fn job(&self) -> JobId
        ensures { result ≡ self.now.token }
    {
        self.job
    }

    /// The attachment under which the packet was queued; each act carries it.
    pub fn attach(&self) -> Attach
        ensures { result ≡ self.now.attach }
    {
        self.attach
    }

    /// The trigger that the packet is about.
    pub fn trigger(&self) -> Trigger
        ensures { result ≡ self.now.trigger }
    {
        self.trigger
    }

    /// The act that comes next; none where the notification is acknowledged.
    pub fn next(&self) -> Option<&Act>
        ensures exact { option_copied result ≡ next_of (plan_of self.now) }
        ensures laws { IsLawful (plan_of self.now) }
    {
        match &self.left {
            Left::Ended => None,
            Left::Next { act, .. } => Some(act),
        }
    }

    /// The next act is done, and this came of it.
    pub fn done(&mut self, outcome: Outcome)
        ensures plan { plan_of self.new ≡ rest_of outcome (plan_of self.old) }
        ensures claims { IfSome (next_of (plan_of self.old)) (λ a.
            ClaimsFollow a outcome (claims (plan_of self.old)) (plan_of self.new)) }
        ensures kept { self.new ≡ record self.old { left = self.new.left } }
    {
        let left = mem::replace(&mut self.left, Left::Ended);
        self.left = left.after(&self.trigger, outcome);
    }

    /// Whether all that is left is to acknowledge the notification.
    pub fn is_reply(&self) -> bool
        ensures { result ≡ is_reply (plan_of self.now) }
    {
        matches!(self.next(), Some(Act::Reply { .. }))
    }
}
