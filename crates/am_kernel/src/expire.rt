//! A walker asks for the expiry of what was not used for long (autofs.rst, "Mountpoint expiry").

ghost use Rattle.std.specs.Prelude.{◌≡◌, None, IfOk};
ghost use Rattle.am_names.specs.{RefusedAs};
ghost use Rattle.am_names.specs.declared.errno.Errno.TheVariants.{ENOENT};
ghost use Rattle.am_wait.specs.{wait_of, open_refusal};
ghost use Rattle.am_kernel.specs.declared.progress.Progress.TheVariants.{Failed};
ghost use Rattle.am_kernel.specs.CallOutcome.{Yields, Proceeds};
ghost use Rattle.am_kernel.specs.Catatonic.{catatonic_observations, made_catatonic};
ghost use Rattle.am_kernel.specs.Expires.{attached_of, timeout_of, next_of, expires, expires_next, expire_at, expire_outcome};

use crate::attempt::reserve_failure;
use crate::kernel::Kernel;
use crate::observations::tell_queued;
use crate::packet::packet_for;
use crate::progress::Progress;
use crate::row::Attached;
use crate::table::{refuse, table};
use am_expire::pick;
use am_names::{
    Attach, Errno, FsId, Name, PipeState, Seconds, Token, TokenKind, Trigger, WalkerId,
};
use am_state::{KeptPacket, Obs, QueuedRow};
use std::alloc::Global;

impl Kernel {
    /// The attachment of the file system, also one that has ended.
    fn attached_of(&self, fs: FsId) -> Option<Attached>
        ensures { result ≡ attached_of self.now fs }
    {
        self.attached.get(fs)
    }

    /// The timeout of the file system, in seconds.
    fn timeout_of(&self, fs: FsId) -> u32
        ensures { result ≡ timeout_of self.now fs }
    {
        match self.attached_of(fs) {
            Some(row) => row.timeout,
            None => 0,
        }
    }

    /// The trigger of the file system that expires next, if one may.
    fn next_of(
        &self,
        alloc: Global,
        fs: FsId,
        moment: Seconds,
        immediate: bool,
    ) -> Result<Option<Trigger>, Errno>
        ensures refusal { RefusedAs None result }
        ensures ok { IfOk result (λ next. next ≡ next_of self.now fs moment immediate) }
    {
        let timeout = self.timeout_of(fs);
        pick(
            alloc,
            &self.subtree,
            &self.triggers,
            &self.waits,
            &self.uses,
            fs,
            timeout,
            moment,
            immediate,
        )
    }

    /// A token is opened for the trigger, its packet is queued, and the caller waits on it.
    fn queue_expiry(
        &mut self,
        alloc: Global,
        walker: WalkerId,
        trigger: &Trigger,
        attach: Attach,
        seen: &mut Vec<Obs>,
    ) -> Result<Progress, Errno>
        requires { open_refusal walker self.old.waits ≡ None }
        ensures { Yields (expires self.old walker trigger.now attach)
            result self.old self.new seen.old.items seen.new.items }
    {
        seen.reserve(2)?;
        self.queue.reserve()?;
        reserve_failure(&mut self.failures, &self.waits)?;
        let unnumbered = packet_for(TokenKind::Expire, Token(0), walker, trigger);
        let mut packet = KeptPacket::new(alloc, &unnumbered)?;
        let token = self.waits.open(alloc, *trigger, TokenKind::Expire, walker)?;
        packet.set_token(token);
        let queued = QueuedRow {
            token,
            attach,
            packet: packet.to_packet(),
        };
        tell_queued(seen, walker, Vec::new(alloc), token, attach, packet);
        self.queue.push_reserved(queued);
        Ok(Progress::Waits(token))
    }

    /// Nobody reads the pipe any more.
    fn hang_up_expiry(
        &mut self,
        alloc: Global,
        fs: FsId,
        seen: &mut Vec<Obs>,
    ) -> Result<Progress, Errno>
        ensures { Yields
            (Proceeds (Failed ENOENT) (catatonic_observations fs self.old)
            (made_catatonic fs self.old))
            result self.old self.new seen.old.items seen.new.items }
    {
        let mut shown = self.catatonic_observations(alloc, fs)?;
        seen.append(&mut shown)?;
        self.enter_catatonic(fs);
        Ok(Progress::Failed(Errno::ENOENT))
    }

    /// The daemon is to be notified: tokens are left, then waits, and then there is the pipe.
    fn notify_expiry(
        &mut self,
        alloc: Global,
        walker: WalkerId,
        trigger: Trigger,
        attach: Attach,
        pipe: PipeState,
        seen: &mut Vec<Obs>,
    ) -> Result<Progress, Errno>
        requires { wait_of self.old.waits.waits walker ≡ None }
        ensures { Yields (expires_next (Some trigger) pipe self.old walker attach)
            result self.old self.new seen.old.items seen.new.items }
    {
        if let Some(errno) = self.waits.open_refusal(walker) {
            return Err(errno);
        }
        match pipe {
            PipeState::Room => self.queue_expiry(alloc, walker, &trigger, attach, seen),
            PipeState::Full => Err(Errno::EAGAIN),
            PipeState::Gone => self.hang_up_expiry(alloc, trigger.fs, seen),
        }
    }

    /// A walker asks for an expiry at this moment.
    fn expire_at(
        &mut self,
        alloc: Global,
        walker: WalkerId,
        fs: FsId,
        moment: Seconds,
        immediate: bool,
        pipe: PipeState,
        seen: &mut Vec<Obs>,
    ) -> Result<Progress, Errno>
        ensures { Yields (expire_at pipe self.old walker fs moment immediate)
            result self.old self.new seen.old.items seen.new.items }
    {
        table!(refuse; expire(self, walker, fs));
        let Some(attach) = self.attach_of(fs) else {
            return Err(Errno::ENOENT);
        };
        let Some(trigger) = self.next_of(alloc, fs, moment, immediate)? else {
            return Err(Errno::EAGAIN);
        };
        // The checker wants the type of its name said too.
        let _name: Option<Name> = trigger.name;
        self.notify_expiry(alloc, walker, trigger, attach, pipe, seen)
    }

    /// An idle walker asks for the expiry of the trigger of an autofs that was not used for the
    /// longest time, at least for the timeout or else at once (AUTOFS_IOC_EXPIRE_MULTI). The time
    /// is as for `walk`. The walker waits until the daemon acknowledges it.
    pub fn expire(
        &mut self,
        alloc: Global,
        walker: WalkerId,
        fs: FsId,
        now: Seconds,
        immediate: bool,
        pipe: PipeState,
        seen: &mut Vec<Obs>,
    ) -> Result<Progress, Errno>
        ensures { Yields (expire_outcome pipe self.old walker fs now immediate)
            result self.old self.new seen.old.items seen.new.items }
    {
        let moment = self.moment(now);
        let progress = self.expire_at(alloc, walker, fs, moment, immediate, pipe, seen)?;
        self.latest = moment;
        Ok(progress)
    }
}
