//! Requests of a daemon, and of whoever asks for an expiry, as one call.

ghost use Rattle.am_names.specs.{RefusedAs};
ghost use Rattle.am_kernel.specs.Requests.{answer_refusal, acknowledged, answering};
ghost use Rattle.am_kernel.specs.Catatonic.{catatonic_refusal, catatonic_observations, made_catatonic};
ghost use Rattle.am_kernel.specs.declared.request.Granted.TheVariants.{Done};
ghost use Rattle.am_kernel.specs.Granted.{Gives, IsGranted};

use crate::kernel::Kernel;
use crate::progress::Progress;
use am_names::{Attach, Errno, FsId, Status, Token};
use am_state::Obs;
use am_wire::Request;
use std::alloc::Global;

/// What a request gives that isn't refused.
#[derive(Debug, Drop)]
pub enum Granted {
    Done,
    /// How an expiry goes on.
    Progress(Progress),
    /// The new attachment.
    Attached(Attach),
}

impl Kernel {
    /// A notification is acknowledged, and what is seen of it is added.
    fn acknowledge(
        &mut self,
        alloc: Global,
        attach: Attach,
        token: Token,
        status: Status,
        seen: &mut Vec<Obs>,
    ) -> Result<Granted, Errno>
        ensures refusal { RefusedAs (answer_refusal self.old attach token) result }
        ensures gives { Gives Done (answering token status self.old)
            (acknowledged token status self.old)
            result self.old self.new seen.old.items seen.new.items }
    {
        let mut shown = self.answering_seen(alloc, token, status)?;
        seen.reserve(shown.len())?;
        self.answer(attach, token, status)?;
        // There is room for it.
        seen.append(&mut shown)?;
        Ok(Granted::Done)
    }

    /// An attachment ends, and what is seen of it is added.
    fn end_attachment(
        &mut self,
        alloc: Global,
        attach: Attach,
        fs: FsId,
        seen: &mut Vec<Obs>,
    ) -> Result<Granted, Errno>
        ensures refusal { RefusedAs (catatonic_refusal self.old attach fs) result }
        ensures gives { Gives Done (catatonic_observations fs self.old) (made_catatonic fs self.old)
            result self.old self.new seen.old.items seen.new.items }
    {
        let mut shown = self.catatonic_observations(alloc, fs)?;
        seen.reserve(shown.len())?;
        self.catatonic(attach, fs)?;
        seen.append(&mut shown)?;
        Ok(Granted::Done)
    }

    /// Makes the call that the request names, and adds what is seen of it (autofs.rst,
    /// "Communicating with autofs: root directory ioctls").
    pub fn request(
        &mut self,
        alloc: Global,
        request: Request,
        seen: &mut Vec<Obs>,
    ) -> Result<Granted, Errno>
        ensures { IsGranted request result self.old self.new seen.old.items seen.new.items }
    {
        match request {
            Request::Ready { attach, token } => {
                self.acknowledge(alloc, attach, token, Status::Ready, seen)
            }
            Request::Fail { attach, token, no } => {
                self.acknowledge(alloc, attach, token, Status::Fail(no), seen)
            }
            Request::Catatonic { attach, fs } => self.end_attachment(alloc, attach, fs, seen),
            Request::SetTimeout {
                attach,
                fs,
                timeout,
            } => {
                self.set_timeout(attach, fs, timeout)?;
                Ok(Granted::Done)
            }
            Request::SetPipe { fs } => Ok(Granted::Attached(self.set_pipe(fs)?)),
            Request::Expire {
                walker,
                fs,
                now,
                immediate,
                pipe,
            } => Ok(Granted::Progress(self.expire(alloc, walker, fs, now, immediate, pipe, seen)?)),
        }
    }
}
