//! What the daemon asks of an attached file system, packets that are read, and walkers that leave.

ghost use Rattle.std.specs.Prelude.{◌≡◌, ◌≤◌, ◌+◌, ◌++◌, Some, IfOk, OnOk, OnErr};
ghost use Rattle.am_names.specs.{RefusedAs, RefusedOnlyAs};
ghost use Rattle.am_expire.specs.{leave_refusal, mount_of_walker};
ghost use Rattle.am_kernel.specs.Requests.{token_fs, answer_refusal, settled, acknowledged, answering, timeout_refusal, with_timeout, queued_of, without_packet, leave_seen, without_use};

use crate::kernel::Kernel;
use crate::observations::tell_releases;
use crate::table::{refuse, table};
use am_names::{
    Attach, Errno, FsId, MountId, Name, Seconds, Status, Token, TokenKind, Trigger, WalkerId,
};
use am_state::{Obs, QueuedRow};
use am_trigger::{Failure, Failures};
use std::alloc::{AllocError, Global};

/// What comes of an acknowledgement for the trigger: a mount that failed lasts from this moment on,
/// and READY makes it good. What is acknowledged of an expiry leaves what was.
fn settle(
    failures: &mut Failures,
    kind: TokenKind,
    trigger: &Trigger,
    status: Status,
    moment: Seconds,
)
    requires { 1 ≤ failures.old.room }
    ensures rows { failures.new.rows ≡ settled kind trigger.now status moment failures.old.rows }
    ensures room { failures.old.room ≤ failures.new.room + 1 }
{
    match (kind, status) {
        (TokenKind::Missing, Status::Ready) => failures.remove(trigger),
        (TokenKind::Missing, Status::Fail(no)) => {
            failures.put_reserved(trigger, Failure { no, at: moment });
        }
        (TokenKind::Expire, _) => {}
    }
}

impl Kernel {
    /// The file system of an open token.
    fn token_fs(&self, token: Token) -> Option<FsId>
        ensures { result ≡ token_fs self.now token }
    {
        let trigger = self.waits.trigger_of(token)?;
        // The checker wants the type of its name said too.
        let _name: Option<Name> = trigger.name;
        Some(trigger.fs)
    }

    /// What will be seen of `answer` where it isn't refused: it takes no memory for that.
    pub fn answering_seen(
        &self,
        alloc: Global,
        token: Token,
        status: Status,
    ) -> Result<Vec<Obs>, AllocError>
        ensures { IfOk result (λ v. v.items ≡ answering token status self.now) }
    {
        let walkers = self.waits.waiters_of(alloc, token)?;
        let mut shown = Vec::new(alloc);
        shown.push(Obs::Answered { token, status })?;
        tell_releases(&mut shown, token, status, walkers.as_slice())?;
        Ok(shown)
    }

    /// The daemon acknowledges a notification: its token closes, and its waiters are released. A
    /// failure of a mount lasts, and READY to a mount makes it good. It takes no memory.
    pub fn answer(&mut self, attach: Attach, token: Token, status: Status) -> Result<(), Errno>
        ensures refusal { RefusedOnlyAs (answer_refusal self.old attach token) result }
        ensures ok { OnOk result (self.new ≡ acknowledged token status self.old) }
        ensures err { OnErr result (self.new ≡ self.old) }
    {
        table!(refuse; answer(self, attach, token));
        let Some((kind, trigger)) = self.waits.purpose_of(token) else {
            return Err(Errno::EINVAL);
        };
        self.waits.answer(token, status)?;
        settle(&mut self.failures, kind, &trigger, status, self.latest);
        Ok(())
    }

    /// Sets the timeout of an autofs, in seconds (autofs.rst, "Mountpoint expiry").
    pub fn set_timeout(&mut self, attach: Attach, fs: FsId, timeout: u32) -> Result<(), Errno>
        ensures refusal { RefusedOnlyAs (timeout_refusal self.old attach fs) result }
        ensures ok { OnOk result (self.new ≡ with_timeout fs timeout self.old) }
        ensures err { OnErr result (self.new ≡ self.old) }
    {
        table!(refuse; set_timeout(self, attach, fs));
        self.attached.set_timeout(fs, timeout);
        Ok(())
    }

    /// The packet of this token that is in a pipe.
    pub fn queued(&self, token: Token) -> Option<QueuedRow>
        ensures { result ≡ queued_of self.now.queue token }
    {
        self.queue.get(token)
    }

    /// The packet of this token has been read, and is in no pipe any more.
    pub fn take_packet(&mut self, token: Token)
        ensures { self.new ≡ without_packet token self.old }
    {
        self.queue.take(token);
    }

    /// The walker leaves the mount that it is inside of.
    pub fn leave(&mut self, walker: WalkerId, seen: &mut Vec<Obs>) -> Result<MountId, Errno>
        ensures refusal { RefusedAs (leave_refusal walker self.old.uses) result }
        ensures mount { IfOk result (λ mount. mount_of_walker self.old.uses walker ≡ Some mount) }
        ensures ok { OnOk result (self.new ≡ without_use walker self.old) }
        ensures shown { OnOk result
            (seen.new.items ≡ seen.old.items ++ leave_seen self.old walker) }
        ensures err { OnErr result (self.new ≡ self.old) }
        ensures unseen { OnErr result (seen.new.items ≡ seen.old.items) }
    {
        seen.reserve(1)?;
        let mount = self.uses.leave(walker)?;
        seen.push_reserved(Obs::Left { walker, mount });
        Ok(mount)
    }
}
