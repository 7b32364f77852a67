//! Catatonic mode: an attachment ends, and the file system is without a daemon (autofs.rst,
//! "Catatonic mode").

ghost use Rattle.std.specs.Prelude.{◌≡◌, ◌∷◌, ◌++◌, true, IfOk, OnOk, OnErr};
ghost use Rattle.am_names.specs.{RefusedOnlyAs};
ghost use Rattle.am_trigger.specs.{with_catatonic};
ghost use Rattle.am_kernel.specs.Catatonic.{catatonic_observations, made_catatonic, catatonic_refusal, admin_catatonic_refusal, made_catatonic_if_live, catatonic_observations_if_live};

use crate::kernel::Kernel;
use crate::observations::tell_releases;
use crate::table::{refuse, table};
use am_expire::OrderedTriggers;
use am_names::{Attach, Errno, FailNo, FsId, Status};
use am_state::Obs;
use std::alloc::{AllocError, Global};

/// The file system is catatonic, if it is known.
fn make_catatonic(triggers: &mut OrderedTriggers, fs: FsId)
    ensures { triggers.new.rows ≡ with_catatonic fs true triggers.old.rows }
{
    if triggers.as_triggers().autofs(fs).is_some() {
        let _known = triggers.set_catatonic(fs, true);
    }
}

impl Kernel {
    /// What is seen of a file system that becomes catatonic.
    pub(crate) fn catatonic_observations(
        &self,
        alloc: Global,
        fs: FsId,
    ) -> Result<Vec<Obs>, AllocError>
        ensures { IfOk result (λ v. v.items ≡ catatonic_observations fs self.now) }
    {
        let mut shown = Vec::new(alloc);
        shown.push(Obs::Catatonic { fs })?;
        let tokens = self.waits.tokens_of(alloc, fs)?;
        for token in tokens.iter() {
            let walkers = self.waits.waiters_of(alloc, *token)?;
            tell_releases(
                &mut shown,
                *token,
                Status::Fail(FailNo::ENOENT),
                walkers.as_slice(),
            )?;
        }
        Ok(shown)
    }

    /// The file system becomes catatonic (autofs.rst, "Catatonic mode").
    pub(crate) fn enter_catatonic(&mut self, fs: FsId)
        ensures { self.new ≡ made_catatonic fs self.old }
    {
        make_catatonic(&mut self.triggers, fs);
        self.failures.remove_fs(fs);
        self.waits.release_fs(fs);
        self.queue.take_fs(fs);
    }

    /// What will be seen of `admin_catatonic`, and of `catatonic` where it isn't refused: they take
    /// no memory for that.
    pub fn closing_seen(&self, alloc: Global, fs: FsId) -> Result<Vec<Obs>, AllocError>
        ensures { IfOk result (λ v. v.items ≡ catatonic_observations_if_live fs self.now) }
    {
        if self.is_live(fs) {
            self.catatonic_observations(alloc, fs)
        } else {
            Ok(Vec::new(alloc))
        }
    }

    /// The daemon ends its attachment: the file system becomes catatonic (autofs.rst, "Catatonic
    /// mode").
    pub fn catatonic(&mut self, attach: Attach, fs: FsId) -> Result<(), Errno>
        ensures refusal { RefusedOnlyAs (catatonic_refusal self.old attach fs) result }
        ensures ok { OnOk result (self.new ≡ made_catatonic fs self.old) }
        ensures err { OnErr result (self.new ≡ self.old) }
    {
        table!(refuse; catatonic(self, attach, fs));
        self.enter_catatonic(fs);
        Ok(())
    }

    /// The administrator ends it. An autofs that is catatonic stays as it is.
    pub fn admin_catatonic(&mut self, fs: FsId) -> Result<(), Errno>
        ensures refusal { RefusedOnlyAs (admin_catatonic_refusal self.old fs) result }
        ensures ok { OnOk result (self.new ≡ made_catatonic_if_live fs self.old) }
        ensures err { OnErr result (self.new ≡ self.old) }
    {
        table!(refuse; admin_catatonic(self, fs));
        if self.is_live(fs) {
            self.enter_catatonic(fs);
        }
        Ok(())
    }
}
