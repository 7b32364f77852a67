//! Walkers that walk, and that are taken up again.

ghost use Rattle.std.specs.Prelude.{◌≡◌, ◌+◌, ◌<◌, ◌↔◌, [], IsTrue, IfOk, Some};
ghost use Rattle.std.specs.Option.{option_copied};
ghost use Rattle.am_kernel.specs.CallOutcome.{Yields, Proceeds};
ghost use Rattle.am_kernel.specs.Walks.{first_attempt, walk_at, walk_outcome};
ghost use Rattle.am_kernel.specs.Resumes.{failed, next_attempt, expiry_finished_as, walk_in, resume_at, resume_outcome, retry_failed, retry_for};
ghost use Rattle.am_kernel.specs.Waited.{wait_collected_as, waited_on, HasNoOpenWait};
ghost use Rattle.am_expire.specs.{mount_of_walker};

use crate::kernel::Kernel;
use crate::progress::{Attempt, Progress};
use crate::row::WalkRow;
use crate::waited::{Waited, collect_wait, end_walk, touch_expired, waited_on};
use am_names::{AbsPath, Errno, NsId, PipeState, Seconds, Status, TokenKind, WaitRow, WalkerId};
use am_state::Obs;
use std::alloc::{AllocError, Global};

/// The most walks that one call of `walk` leads to (Linux: MAXSYMLINKS).
const MAX_ATTEMPTS: u32 = 40;

impl WalkRow {
    /// The same row once more.
    pub(crate) fn copy(&self, alloc: Global) -> Result<WalkRow, AllocError>
        ensures { IfOk result (λ row. row ≡ self.now) }
    {
        Ok(WalkRow {
            walker: self.walker,
            ns: self.ns,
            path: self.path.copy(alloc)?,
            attempts: self.attempts,
        })
    }

    /// Whether both are the same walk of the same walker.
    pub(crate) fn is_same(&self, other: &WalkRow) -> bool
        ensures { IsTrue result ↔ (self.now ≡ other.now) }
    {
        self.walker == other.walker
            && self.ns == other.ns
            && self.attempts == other.attempts
            && self.path.is_same(&other.path)
    }

    /// The walk begins once more.
    fn next(&self, moment: Seconds) -> Attempt<'_>
        requires { self.now.attempts < 4294967295 }
        ensures { result ≡ next_attempt self.now moment }
    {
        Attempt {
            walker: self.walker,
            ns: self.ns,
            path: self.path.path(),
            attempts: self.attempts + 1,
            moment,
        }
    }
}

impl Kernel {
    /// An idle walker walks at this moment.
    fn walk_at(
        &mut self,
        alloc: Global,
        walker: WalkerId,
        ns: NsId,
        path: &AbsPath<'_>,
        moment: Seconds,
        pipe: PipeState,
        seen: &mut Vec<Obs>,
    ) -> Result<Progress, Errno>
        ensures { Yields (walk_at pipe self.old (first_attempt walker ns path.now moment))
            result self.old self.new seen.old.items seen.new.items }
    {
        if self.is_busy(walker) {
            return Err(Errno::EINVAL);
        }
        let attempt = Attempt {
            walker,
            ns,
            path: path.copy(),
            attempts: 1,
            moment,
        };
        self.attempt(alloc, &attempt, &Waited::Idle, pipe, seen)
    }

    /// An idle walker walks from the root of a namespace along a path. The time is in seconds: the
    /// moment is the latest so far, where that is greater. The pipe is that of any autofs whose
    /// daemon is to be notified.
    pub fn walk(
        &mut self,
        alloc: Global,
        walker: WalkerId,
        ns: NsId,
        path: &AbsPath<'_>,
        now: Seconds,
        pipe: PipeState,
        seen: &mut Vec<Obs>,
    ) -> Result<Progress, Errno>
        ensures { Yields (walk_outcome pipe self.old walker ns path.now now)
            result self.old self.new seen.old.items seen.new.items }
    {
        let moment = self.moment(now);
        let progress = self.walk_at(alloc, walker, ns, path, moment, pipe, seen)?;
        self.latest = moment;
        Ok(progress)
    }

    /// The walk that a walker began that waits.
    pub(crate) fn walk_row(&self, walker: WalkerId) -> Option<&WalkRow>
        ensures { option_copied result ≡ walk_in self.now.walks walker }
    {
        self.walks.get(walker)
    }

    /// The walker's wait is collected, and it is idle.
    fn end(
        &mut self,
        waited: &Waited,
        walker: WalkerId,
        moment: Seconds,
        told: Progress,
        seen: &mut Vec<Obs>,
    ) -> Result<Progress, Errno>
        requires { HasNoOpenWait waited.now walker self.old.waits }
        ensures { Yields (Proceeds told [] (wait_collected_as waited.now walker moment self.old))
            result self.old self.new seen.old.items seen.new.items }
    {
        self.triggers.reserve_uses(1)?;
        touch_expired(&mut self.triggers, waited, moment);
        collect_wait(&mut self.waits, waited, walker);
        end_walk(&mut self.walks, waited, walker);
        // The checker wants each argument used that a clause names.
        let _seen = seen;
        Ok(told)
    }

    /// The walker's wait is collected, and its walk fails.
    fn fail(
        &mut self,
        waited: &Waited,
        walker: WalkerId,
        moment: Seconds,
        errno: Errno,
        seen: &mut Vec<Obs>,
    ) -> Result<Progress, Errno>
        requires { HasNoOpenWait waited.now walker self.old.waits }
        ensures { Yields (failed errno (wait_collected_as waited.now walker moment self.old))
            result self.old self.new seen.old.items seen.new.items }
    {
        self.end(waited, walker, moment, Progress::Failed(errno), seen)
    }

    /// A walker that has no walk asked for an expiry, and is told how it went.
    fn finish_expiry(
        &mut self,
        wait: &WaitRow,
        status: Status,
        moment: Seconds,
        seen: &mut Vec<Obs>,
    ) -> Result<Progress, Errno>
        requires { HasNoOpenWait (waited_on wait.now) wait.now.walker self.old.waits }
        ensures { Yields (expiry_finished_as wait.now.kind status self.old wait.now moment)
            result self.old self.new seen.old.items seen.new.items }
    {
        let walker = wait.walker;
        let expiry = waited_on(wait);
        match (wait.kind, status) {
            (TokenKind::Missing, _) => Err(Errno::EINVAL),
            (TokenKind::Expire, Status::Ready) => {
                self.end(&expiry, walker, moment, Progress::Expired, seen)
            }
            (TokenKind::Expire, Status::Fail(no)) => {
                self.fail(&expiry, walker, moment, no.errno(), seen)
            }
        }
    }

    /// A walk that can't begin again fails; where memory ran out, nothing has come of it.
    fn fail_retry(
        &mut self,
        waited: &Waited,
        walker: WalkerId,
        moment: Seconds,
        errno: Errno,
        seen: &mut Vec<Obs>,
    ) -> Result<Progress, Errno>
        requires { HasNoOpenWait waited.now walker self.old.waits }
        ensures { Yields (retry_failed errno (wait_collected_as waited.now walker moment self.old))
            result self.old self.new seen.old.items seen.new.items }
    {
        match errno {
            Errno::NoMemory => Err(Errno::NoMemory),
            _ => self.fail(waited, walker, moment, errno, seen),
        }
    }

    /// A walk begins again, but not the 41st time, and fails where it can't.
    fn retry(
        &mut self,
        alloc: Global,
        wait: &WaitRow,
        moment: Seconds,
        pipe: PipeState,
        seen: &mut Vec<Obs>,
    ) -> Result<Progress, Errno>
        requires outside { mount_of_walker self.old.uses wait.now.walker ≡ None }
        requires free { HasNoOpenWait (waited_on wait.now) wait.now.walker self.old.waits }
        ensures { Yields
            (retry_for (walk_in self.old.walks wait.now.walker) pipe self.old wait.now moment)
            result self.old self.new seen.old.items seen.new.items }
    {
        let walker = wait.walker;
        let waited = waited_on(wait);
        let Some(row) = self.walk_row(walker) else {
            return Err(Errno::EINVAL);
        };
        if MAX_ATTEMPTS <= row.attempts {
            return self.fail(&waited, walker, moment, Errno::ELOOP, seen);
        }
        let row = row.copy(alloc)?;
        let attempt = row.next(moment);
        match self.attempt(alloc, &attempt, &waited, pipe, seen) {
            Ok(progress) => Ok(progress),
            Err(errno) => self.fail_retry(&waited, walker, moment, errno, seen),
        }
    }

    /// A walker that was released goes on at this moment.
    fn resume_at(
        &mut self,
        alloc: Global,
        walker: WalkerId,
        moment: Seconds,
        pipe: PipeState,
        seen: &mut Vec<Obs>,
    ) -> Result<Progress, Errno>
        ensures { Yields (resume_at pipe self.old walker moment)
            result self.old self.new seen.old.items seen.new.items }
    {
        if self.uses.mount_of_walker(walker).is_some() {
            return Err(Errno::EINVAL);
        }
        let Some(wait) = self.waits.wait_of(walker) else {
            return Err(Errno::EINVAL);
        };
        let Some(status) = wait.status else {
            return Err(Errno::NotReleased);
        };
        if self.walk_row(walker).is_none() {
            return self.finish_expiry(&wait, status, moment, seen);
        }
        match (wait.kind, status) {
            (TokenKind::Missing, Status::Fail(no)) => {
                self.fail(&Waited::OnMount, walker, moment, no.errno(), seen)
            }
            (TokenKind::Missing, Status::Ready) => self.retry(alloc, &wait, moment, pipe, seen),
            (TokenKind::Expire, _) => self.retry(alloc, &wait, moment, pipe, seen),
        }
    }

    /// A walker that was released goes on. After a mount that failed its walk fails, with the
    /// number of that failure; after one that came, and after an expiry, it begins again. Who asked
    /// for an expiry is told how it went. The time is as for `walk`.
    pub fn resume(
        &mut self,
        alloc: Global,
        walker: WalkerId,
        now: Seconds,
        pipe: PipeState,
        seen: &mut Vec<Obs>,
    ) -> Result<Progress, Errno>
        ensures { Yields (resume_outcome pipe self.old walker now)
            result self.old self.new seen.old.items seen.new.items }
    {
        let moment = self.moment(now);
        let progress = self.resume_at(alloc, walker, moment, pipe, seen)?;
        self.latest = moment;
        Ok(progress)
    }
}
