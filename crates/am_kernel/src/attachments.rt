//! A daemon that attaches again to an autofs.

ghost use Rattle.std.specs.Prelude.{◌≡◌, ◌+◌, false, IfOk, OnOk, OnErr};
ghost use Rattle.am_names.specs.{RefusedOnlyAs};
ghost use Rattle.am_trigger.specs.{with_catatonic};
ghost use Rattle.am_kernel.specs.Attachments.{pipe_refusal, with_pipe};

use crate::kernel::Kernel;
use crate::table::{finish_expiry, refuse, table};
use am_expire::OrderedTriggers;
use am_names::{Attach, Errno, FsId};

/// The file system is catatonic no longer; one that isn't known stays so.
fn make_live(triggers: &mut OrderedTriggers, fs: FsId)
    ensures { triggers.new.rows ≡ with_catatonic fs false triggers.old.rows }
{
    if triggers.as_triggers().autofs(fs).is_some() {
        let _known = triggers.set_catatonic(fs, false);
    }
}

impl Kernel {
    /// Why a daemon couldn't attach again, if it couldn't.
    pub fn pipe_refusal(&self, fs: FsId) -> Option<Errno>
        ensures { result ≡ pipe_refusal self.now fs }
    {
        table!(finish_expiry; set_pipe(self, fs));
        None
    }

    /// A daemon attaches again to an autofs that is catatonic. It has a new attachment, and nothing
    /// that failed lasts.
    pub fn set_pipe(&mut self, fs: FsId) -> Result<Attach, Errno>
        ensures refusal { RefusedOnlyAs (pipe_refusal self.old fs) result }
        ensures attach { IfOk result (λ attach. attach ≡ self.old.last_attach + 1) }
        ensures ok { OnOk result (self.new ≡ with_pipe fs self.old) }
        ensures err { OnErr result (self.new ≡ self.old) }
    {
        table!(refuse; set_pipe(self, fs));
        let attach = Attach(self.last_attach + 1);
        make_live(&mut self.triggers, fs);
        self.failures.remove_fs(fs);
        self.attached.set_attach(fs, attach);
        self.last_attach = attach.0;
        Ok(attach)
    }
}
