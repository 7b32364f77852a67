//! What failed last at each trigger, and how long that lasts.

ghost use Rattle.std.specs.Prelude.{◌≡◌, ◌≤◌, ◌+◌, ◌==◌, ◌↔◌, length, not, [], None, Some, filter, remove, slice_get, if◌then◌else◌, IsTrue, IfOk, IfSome, OnOk};
ghost use Rattle.am_names.specs.{RefusedAs};
ghost use Rattle.am_trigger.specs.Failures.{lasts, failure_of, failing, with_failure, without_failure, without_failures, IsFailed, IsMended};

use am_names::{Errno, FailNo, FsId, Name, Seconds, Trigger};
use am_ordered::OrderedMap;
use std::alloc::{AllocError, Global};
use std::marker::Model;

/// A notification was acknowledged with FAIL, with this error and at this moment.
#[derive(Clone, Copy, Debug, PartialEq)]
pub struct Failure {
    pub no: FailNo,
    pub at: Seconds,
}

impl Failure {
    /// Whether it lasts at this moment, where failures last so many seconds.
    pub fn lasts(&self, moment: Seconds, negative: Seconds) -> bool
        ensures { result ≡ lasts moment negative self.now }
    {
        // The sum of both seconds may be greater than a number of 64 bits.
        moment.0 < self.at.0 || moment.0 - self.at.0 < negative.0
    }
}

/// Each trigger at which something failed that was not made good since.
#[derive(Drop)]
pub struct Failures {
    rows: OrderedMap<Trigger, Failure>,
}

impl Model for Failures {
    ghost use Rattle.am_trigger.specs.FailureTable.{FailureTable};

    ghost Value = { FailureTable };

    ghost use Rattle.am_trigger.specs.FailureView.{failure_table_of};

    ghost view = { failure_table_of };
}

/// The failures as a walk meets them at a moment, where they last so many seconds.
#[derive(Clone, Copy)]
pub struct Lasting<'a> {
    pub failures: &'a Failures,
    pub moment: Seconds,
    pub negative: Seconds,
}

impl Lasting<'_> {
    /// The error of what failed last at the trigger, if that lasts.
    pub fn error(&self, trigger: &Trigger) -> Option<FailNo>
        ensures { result ≡ failing self.now.moment self.now.negative self.now.failures.now.rows
            trigger.now }
    {
        self.failures.failing(trigger, self.moment, self.negative)
    }
}

/// The row at this index goes if it is of the file system.
fn mend_index(rows: &mut OrderedMap<Trigger, Failure>, index: usize, fs: FsId)
    ensures entries { IfSome (slice_get rows.old.entries index) (λ row. rows.new.entries ≡
        (if row.0.fs == fs then remove rows.old.entries index else rows.old.entries)) }
    ensures room { rows.old.room ≤ rows.new.room }
{
    if let Some((trigger, _)) = rows.get_index(index) {
        if trigger.fs == fs {
            let _gone = rows.remove_index(index);
        }
    }
}

/// The rows of the file system go, the last first.
fn mend_fs(rows: &mut OrderedMap<Trigger, Failure>, fs: FsId)
    ensures entries { rows.new.entries ≡ without_failures fs rows.old.entries }
    ensures room { rows.old.room ≤ rows.new.room }
{
    let mut left = rows.len();
    while left > 0 {
        left -= 1;
        mend_index(rows, left, fs);
    }
}

impl Failures {
    /// Nothing failed.
    pub fn new(alloc: Global) -> Failures
        ensures { result.rows ≡ [] }
    {
        Failures {
            rows: OrderedMap::new(alloc),
        }
    }

    /// The same failures once more, with no less room.
    pub fn copy(&self, alloc: Global) -> Result<Failures, AllocError>
        ensures rows { IfOk result (λ copy. copy.rows ≡ self.now.rows) }
        ensures room { IfOk result (λ copy. self.now.room ≤ copy.room) }
    {
        Ok(Failures {
            rows: self.rows.copy(alloc)?,
        })
    }

    /// Whether the same failed at the same triggers, in the same order.
    #[tactic(auto, using(am_names::proofs::SameTriggers::key_decides, crate::proofs::SameLemmas::failure_decides))]
    pub fn is_same(&self, other: &Failures) -> bool
        ensures { IsTrue result ↔ (self.now.rows ≡ other.now.rows) }
    {
        self.rows.is_same(&other.rows)
    }

    /// At how many triggers something failed.
    pub fn len(&self) -> usize
        ensures { result ≡ length self.now.rows }
    {
        self.rows.len()
    }

    /// The trigger at this index, the latest last, and what failed there.
    pub fn row(&self, index: usize) -> Option<(Trigger, Failure)>
        ensures { result ≡ slice_get self.now.rows index }
    {
        let (trigger, failure) = self.rows.get_index(index)?;
        // The checker wants the type of its name said too.
        let _name: Option<Name> = trigger.name;
        Some((*trigger, *failure))
    }

    /// What failed last at the trigger.
    pub fn failure(&self, trigger: &Trigger) -> Option<Failure>
        ensures { result ≡ failure_of self.now.rows trigger.now }
    {
        self.rows.get(trigger).copied()
    }

    /// The error of what failed last at the trigger, if that lasts at this moment, where failures
    /// last so many seconds.
    pub fn failing(&self, trigger: &Trigger, moment: Seconds, negative: Seconds) -> Option<FailNo>
        ensures { result ≡ failing moment negative self.now.rows trigger.now }
    {
        let failure = self.failure(trigger)?;
        if failure.lasts(moment, negative) {
            Some(failure.no)
        } else {
            None
        }
    }

    /// Makes room for failures at so many more triggers.
    pub fn reserve(&mut self, count: usize) -> Result<(), Errno>
        ensures refusal { RefusedAs None result }
        ensures rows { self.new.rows ≡ self.old.rows }
        ensures room { self.old.room ≤ self.new.room }
        ensures ok { OnOk result (count ≤ self.new.room) }
    {
        self.rows.reserve(count)?;
        Ok(())
    }

    /// This is what failed last at the trigger, and there is room for it.
    pub fn put_reserved(&mut self, trigger: &Trigger, failure: Failure)
        requires { 1 ≤ self.old.room }
        ensures rows { self.new.rows ≡ with_failure trigger.now failure self.old.rows }
        ensures map { IsFailed trigger.now (Some failure) self.old.rows self.new.rows }
        ensures room { self.old.room ≤ self.new.room + 1 }
    {
        // The checker wants the type of its name said too.
        let _name: Option<Name> = trigger.name;
        let _before = self.rows.remove(trigger);
        self.rows.insert_reserved(*trigger, failure);
    }

    /// Nothing that failed at the trigger lasts. It takes no memory.
    pub fn remove(&mut self, trigger: &Trigger)
        ensures rows { self.new.rows ≡ without_failure trigger.now self.old.rows }
        ensures map { IsFailed trigger.now None self.old.rows self.new.rows }
        ensures room { self.old.room ≤ self.new.room }
    {
        let _gone = self.rows.remove(trigger);
    }

    /// Nothing that failed in the file system lasts. It takes no memory.
    pub fn remove_fs(&mut self, fs: FsId)
        ensures rows { self.new.rows ≡ without_failures fs self.old.rows }
        ensures map { IsMended fs self.old.rows self.new.rows }
        ensures room { self.old.room ≤ self.new.room }
    {
        mend_fs(&mut self.rows, fs);
    }
}
