//! What the daemon asks of the kernel beside its jobs, its death, and attachments that end and
//! begin.

ghost use Rattle.std.specs.Prelude.{◌≡◌, Some};
ghost use Rattle.am_machine.specs.{refused, repeat_outcome, catatonic_outcome, admin_catatonic_outcome, timeout_outcome, die_outcome, reattach_outcome, record_outcome};
ghost use Rattle.am_world.specs.Machine.{whole_state, Yields};

use crate::machine::Machine;
use am_machine::Answer;
use am_names::{Attach, Errno, FsId, Token, Trigger};
use am_state::Obs;
use std::alloc::Global;

impl Machine {
    /// Why a reply that no job makes isn't taken.
    pub fn repeat(&self, attach: Attach, token: Token) -> Errno
        ensures { repeat_outcome (whole_state self.now) attach token ≡
            refused (whole_state self.now) result }
    {
        if self.kernel.fs_of_attach(attach).is_none() {
            return Errno::EPERM;
        }
        if self.kernel.waits().trigger_of(token).is_some() {
            return Errno::Stranger;
        }
        Errno::EINVAL
    }

    /// The daemon ends an attachment.
    pub fn catatonic(&mut self, alloc: Global, attach: Attach, fs: FsId) -> Result<Answer, Errno>
        ensures { Yields (catatonic_outcome (whole_state self.old) attach fs)
            (whole_state self.old) result (whole_state self.new) }
    {
        if !self.kernel.is_current(fs, attach) {
            return Err(Errno::EPERM);
        }
        let mut shown = self.kernel.closing_seen(alloc, fs)?;
        self.trace.append(&mut shown)?;
        self.kernel.catatonic(attach, fs)?;
        Ok(Answer::Done)
    }

    /// The administrator ends the attachment of an autofs.
    pub fn admin_catatonic(&mut self, alloc: Global, fs: FsId) -> Result<Answer, Errno>
        ensures { Yields (admin_catatonic_outcome (whole_state self.old) fs)
            (whole_state self.old) result (whole_state self.new) }
    {
        // Nothing is to be seen of what is no autofs.
        let mut shown = self.kernel.closing_seen(alloc, fs)?;
        self.trace.append(&mut shown)?;
        self.kernel.admin_catatonic(fs)?;
        Ok(Answer::Done)
    }

    /// The daemon sets the timeout of an autofs.
    pub fn set_timeout(&mut self, attach: Attach, fs: FsId, timeout: u32) -> Result<Answer, Errno>
        ensures { Yields (timeout_outcome (whole_state self.old) attach fs timeout)
            (whole_state self.old) result (whole_state self.new) }
    {
        self.kernel.set_timeout(attach, fs, timeout)?;
        Ok(Answer::Done)
    }

    /// The daemon dies.
    pub fn die(&mut self) -> Result<Answer, Errno>
        ensures { Yields (die_outcome (whole_state self.old))
            (whole_state self.old) result (whole_state self.new) }
    {
        self.trace.reserve(1)?;
        self.daemon.die();
        self.trace.push_reserved(Obs::Died);
        Ok(Answer::Done)
    }

    /// The daemon attaches again to a catatonic autofs.
    pub fn reattach(&mut self, alloc: Global, fs: FsId) -> Result<Answer, Errno>
        ensures { Yields (reattach_outcome (whole_state self.old) fs)
            (whole_state self.old) result (whole_state self.new) }
    {
        if let Some(errno) = self.kernel.pipe_refusal(fs) {
            return Err(errno);
        }
        let standing = self.kernel.standing(alloc, fs)?;
        self.trace.reserve(1)?;
        // A number is left for it.
        let attach = Attach(self.kernel.last_attach().0 + 1);
        self.daemon.reattach(fs, attach, standing.as_slice())?;
        let _attach = self.kernel.set_pipe(fs);
        self.trace.push_reserved(Obs::Reattached { fs, attach });
        Ok(Answer::Reattached { attach })
    }

    /// The daemon's book is read.
    pub fn read_book(&self, trigger: &Trigger) -> Result<Answer, Errno>
        ensures { Yields (record_outcome (whole_state self.now) trigger.now)
            (whole_state self.now) result (whole_state self.now) }
    {
        if !self.kernel.is_trigger(trigger) {
            return Err(Errno::EINVAL);
        }
        Ok(Answer::Record {
            entry: self.daemon.record(trigger),
        })
    }
}
