//! A walk begins: it arrives, joins those that wait, or has the daemon notified.

ghost use Rattle.std.specs.Prelude.{◌≡◌, ◌≤◌, ◌+◌, None, true, is_some, length, OnOk};
ghost use Rattle.am_names.specs.{RefusedAs};
ghost use Rattle.am_names.specs.declared.errno.Errno.TheVariants.{ENOENT};
ghost use Rattle.am_wait.specs.{token_of, reopen_refusal};
ghost use Rattle.am_walk.specs.{walk_of};
ghost use Rattle.am_expire.specs.{mount_of_walker};
ghost use Rattle.am_kernel.specs.Lookups.{scene_of, attach_of};
ghost use Rattle.am_kernel.specs.declared.progress.Progress.TheVariants.{Failed};
ghost use Rattle.am_kernel.specs.CallOutcome.{Yields, Proceeds};
ghost use Rattle.am_kernel.specs.Walks.{arrives, joins, notified, notifies, attempted_with};
ghost use Rattle.am_kernel.specs.Catatonic.{catatonic_observations, made_catatonic};
ghost use Rattle.am_kernel.specs.Waited.{wait_collected_as, HasNoOpenWait};

use crate::kernel::Kernel;
use crate::observations::{tell_passes, tell_queued};
use crate::packet::packet_for;
use crate::progress::{Attempt, Progress};
use crate::waited::{Waited, collect_wait, end_walk, touch_expired};
use am_names::{Attach, Errno, FsId, PipeState, Position, Token, TokenKind, Trigger};
use am_state::{KeptPacket, Obs, QueuedRow, keep_triggers};
use am_trigger::Failures;
use am_wait::Waits;
use am_walk::{Stop, Walk, resolve};
use std::alloc::Global;

/// Makes room for the failure of one more token.
pub fn reserve_failure(failures: &mut Failures, waits: &Waits) -> Result<(), Errno>
    ensures refusal { RefusedAs None result }
    ensures rows { failures.new.rows ≡ failures.old.rows }
    ensures room { failures.old.room ≤ failures.new.room }
    ensures ok { OnOk result (length waits.now.tokens + 1 ≤ failures.new.room) }
{
    failures.reserve(waits.token_count() + 1)
}

impl Kernel {
    /// The walk has come to the end of its path.
    fn arrive(
        &mut self,
        alloc: Global,
        attempt: &Attempt<'_>,
        waited: &Waited,
        at: Position,
        passed: &[Trigger],
        seen: &mut Vec<Obs>,
    ) -> Result<Progress, Errno>
        requires outside { mount_of_walker self.old.uses attempt.now.walker ≡ None }
        requires free { HasNoOpenWait waited.now attempt.now.walker self.old.waits }
        ensures { let base =
            wait_collected_as waited.now attempt.now.walker attempt.now.moment self.old in
            Yields (arrives base attempt.now at passed.now)
            result self.old self.new seen.old.items seen.new.items }
    {
        let walker = attempt.walker;
        let mount = at.mount;
        let kept = keep_triggers(alloc, passed)?;
        seen.reserve(passed.len() + 1)?;
        self.triggers.reserve_uses(passed.len() + 1)?;
        self.uses.enter(walker, mount)?;
        touch_expired(&mut self.triggers, waited, attempt.moment);
        self.triggers.touch_all_reserved(passed, attempt.moment);
        collect_wait(&mut self.waits, waited, walker);
        end_walk(&mut self.walks, waited, walker);
        tell_passes(seen, walker, kept);
        seen.push_reserved(Obs::Entered { walker, mount });
        Ok(Progress::Arrived(at))
    }

    /// The walker joins those that wait on an open token.
    fn join(
        &mut self,
        alloc: Global,
        attempt: &Attempt<'_>,
        waited: &Waited,
        token: Token,
        passed: &[Trigger],
        seen: &mut Vec<Obs>,
    ) -> Result<Progress, Errno>
        requires free { HasNoOpenWait waited.now attempt.now.walker self.old.waits }
        requires open { is_some (token_of self.old.waits.tokens token) ≡ true }
        ensures { let base =
            wait_collected_as waited.now attempt.now.walker attempt.now.moment self.old in
            Yields (joins base attempt.now token passed.now)
            result self.old self.new seen.old.items seen.new.items }
    {
        let walker = attempt.walker;
        let moment = attempt.moment;
        if self.waits.is_full_for(walker) {
            return Err(Errno::ENOSPC);
        }
        let row = attempt.to_row(alloc)?;
        let kept = keep_triggers(alloc, passed)?;
        seen.reserve(passed.len() + 1)?;
        self.triggers.reserve_uses(passed.len() + 1)?;
        self.walks.reserve()?;
        self.waits.rejoin(token, walker)?;
        touch_expired(&mut self.triggers, waited, moment);
        self.triggers.touch_all_reserved(passed, moment);
        self.walks.put(row);
        tell_passes(seen, walker, kept);
        seen.push_reserved(Obs::Waits { walker, token });
        Ok(Progress::Waits(token))
    }

    /// A token is opened, its packet is queued, and the walker waits on it.
    fn queue(
        &mut self,
        alloc: Global,
        attempt: &Attempt<'_>,
        waited: &Waited,
        trigger: &Trigger,
        attach: Attach,
        passed: &[Trigger],
        seen: &mut Vec<Obs>,
    ) -> Result<Progress, Errno>
        requires free { HasNoOpenWait waited.now attempt.now.walker self.old.waits }
        requires room { reopen_refusal attempt.now.walker self.old.waits ≡ None }
        ensures { let base =
            wait_collected_as waited.now attempt.now.walker attempt.now.moment self.old in
            Yields (notified base attempt.now trigger.now attach passed.now)
            result self.old self.new seen.old.items seen.new.items }
    {
        let walker = attempt.walker;
        let moment = attempt.moment;
        seen.reserve(passed.len() + 2)?;
        self.triggers.reserve_uses(passed.len() + 2)?;
        self.walks.reserve()?;
        self.queue.reserve()?;
        reserve_failure(&mut self.failures, &self.waits)?;
        let row = attempt.to_row(alloc)?;
        let kept = keep_triggers(alloc, passed)?;
        let unnumbered = packet_for(TokenKind::Missing, Token(0), walker, trigger);
        let mut packet = KeptPacket::new(alloc, &unnumbered)?;
        let token = self
            .waits
            .reopen(alloc, *trigger, TokenKind::Missing, walker)?;
        packet.set_token(token);
        let queued = QueuedRow {
            token,
            attach,
            packet: packet.to_packet(),
        };
        touch_expired(&mut self.triggers, waited, moment);
        self.triggers.touch_all_reserved(passed, moment);
        self.triggers.touch_reserved(trigger, moment);
        self.walks.put(row);
        tell_queued(seen, walker, kept, token, attach, packet);
        self.queue.push_reserved(queued);
        Ok(Progress::Waits(token))
    }

    /// Nobody reads the pipe any more: the walk fails.
    fn on_broken_pipe(
        &mut self,
        alloc: Global,
        attempt: &Attempt<'_>,
        waited: &Waited,
        fs: FsId,
        seen: &mut Vec<Obs>,
    ) -> Result<Progress, Errno>
        requires free { HasNoOpenWait waited.now attempt.now.walker self.old.waits }
        ensures { let base =
            wait_collected_as waited.now attempt.now.walker attempt.now.moment self.old in
            Yields
            (Proceeds (Failed ENOENT) (catatonic_observations fs base) (made_catatonic fs base))
            result self.old self.new seen.old.items seen.new.items }
    {
        let mut shown = self.catatonic_observations(alloc, fs)?;
        self.triggers.reserve_uses(1)?;
        seen.append(&mut shown)?;
        touch_expired(&mut self.triggers, waited, attempt.moment);
        collect_wait(&mut self.waits, waited, attempt.walker);
        end_walk(&mut self.walks, waited, attempt.walker);
        self.enter_catatonic(fs);
        Ok(Progress::Failed(Errno::ENOENT))
    }

    /// The daemon is to be notified: tokens are left, then waits, and then there is the pipe.
    fn notify(
        &mut self,
        alloc: Global,
        attempt: &Attempt<'_>,
        waited: &Waited,
        trigger: Trigger,
        passed: &[Trigger],
        pipe: PipeState,
        seen: &mut Vec<Obs>,
    ) -> Result<Progress, Errno>
        requires free { HasNoOpenWait waited.now attempt.now.walker self.old.waits }
        ensures { let base =
            wait_collected_as waited.now attempt.now.walker attempt.now.moment self.old in
            Yields (notifies (attach_of base trigger.fs) pipe base attempt.now trigger passed.now)
            result self.old self.new seen.old.items seen.new.items }
    {
        let Some(attach) = self.attach_of(trigger.fs) else {
            return Err(Errno::ENOENT);
        };
        if let Some(errno) = self.waits.reopen_refusal(attempt.walker) {
            return Err(errno);
        }
        match pipe {
            PipeState::Room => self.queue(alloc, attempt, waited, &trigger, attach, passed, seen),
            PipeState::Full => Err(Errno::EAGAIN),
            PipeState::Gone => self.on_broken_pipe(alloc, attempt, waited, trigger.fs, seen),
        }
    }

    /// A walk begins.
    pub(crate) fn attempt(
        &mut self,
        alloc: Global,
        attempt: &Attempt<'_>,
        waited: &Waited,
        pipe: PipeState,
        seen: &mut Vec<Obs>,
    ) -> Result<Progress, Errno>
        requires outside { mount_of_walker self.old.uses attempt.now.walker ≡ None }
        requires free { HasNoOpenWait waited.now attempt.now.walker self.old.waits }
        ensures { let base =
            wait_collected_as waited.now attempt.now.walker attempt.now.moment self.old in
            let walked =
            walk_of (scene_of self.old attempt.now.moment) attempt.now.ns attempt.now.path in
            Yields (attempted_with walked pipe base attempt.now)
            result self.old self.new seen.old.items seen.new.items }
    {
        let walk = resolve(
            alloc,
            &self.subtree,
            self.triggers.as_triggers(),
            &self.waits,
            &self.failures,
            attempt.ns,
            &attempt.path,
            attempt.moment,
            self.negative,
        )?;
        let Walk { stop, passed } = walk;
        match stop {
            Stop::Arrive(at) => self.arrive(alloc, attempt, waited, at, passed.as_slice(), seen),
            Stop::Block(token) => self.join(alloc, attempt, waited, token, passed.as_slice(), seen),
            Stop::Missing(trigger) => {
                self.notify(
                    alloc,
                    attempt,
                    waited,
                    trigger,
                    passed.as_slice(),
                    pipe,
                    seen,
                )
            }
            Stop::Refuse(errno) => Err(errno),
        }
    }
}
