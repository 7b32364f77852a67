//! What walkers do.

ghost use Rattle.std.specs.Prelude.{◌≡◌};
ghost use Rattle.am_machine.specs.{answer_of, walk_outcome, resume_outcome, expire_outcome, leave_outcome};
ghost use Rattle.am_world.specs.Machine.{whole_state, Yields};

use crate::machine::Machine;
use am_kernel::Progress;
use am_machine::Answer;
use am_names::{Errno, FsId, NsId, PipeState, Place, Seconds, WalkerId};
use std::alloc::Global;

/// The answer to a walk that goes on so.
fn answer_of(progress: Progress) -> Answer
    ensures { result ≡ answer_of progress }
{
    match progress {
        Progress::Arrived(position) => Answer::At { position },
        Progress::Waits(token) => Answer::Wait { token },
        Progress::Failed(errno) => Answer::Failed { errno },
        Progress::Expired => Answer::Expired,
    }
}

impl Machine {
    /// A walker begins a walk.
    pub fn walk(
        &mut self,
        alloc: Global,
        walker: WalkerId,
        ns: NsId,
        path: &Place,
        now: Seconds,
        pipe: PipeState,
    ) -> Result<Answer, Errno>
        ensures { Yields (walk_outcome (whole_state self.old) walker ns path.now now pipe)
            (whole_state self.old) result (whole_state self.new) }
    {
        let path = path.path();
        let came = self
            .kernel
            .walk(alloc, walker, ns, &path, now, pipe, &mut self.trace);
        match came {
            Ok(progress) => Ok(answer_of(progress)),
            Err(errno) => Err(errno),
        }
    }

    /// A walker that waits goes on.
    pub fn resume(
        &mut self,
        alloc: Global,
        walker: WalkerId,
        now: Seconds,
        pipe: PipeState,
    ) -> Result<Answer, Errno>
        ensures { Yields (resume_outcome (whole_state self.old) walker now pipe)
            (whole_state self.old) result (whole_state self.new) }
    {
        let progress = self
            .kernel
            .resume(alloc, walker, now, pipe, &mut self.trace)?;
        Ok(answer_of(progress))
    }

    /// A walker asks for an expiry.
    pub fn expire(
        &mut self,
        alloc: Global,
        walker: WalkerId,
        fs: FsId,
        now: Seconds,
        immediate: bool,
        pipe: PipeState,
    ) -> Result<Answer, Errno>
        ensures { Yields (expire_outcome (whole_state self.old) walker fs now immediate pipe)
            (whole_state self.old) result (whole_state self.new) }
    {
        let came = self
            .kernel
            .expire(alloc, walker, fs, now, immediate, pipe, &mut self.trace);
        match came {
            Ok(progress) => Ok(answer_of(progress)),
            Err(errno) => Err(errno),
        }
    }

    /// A walker leaves the mount that it is inside of.
    pub fn leave(&mut self, walker: WalkerId) -> Result<Answer, Errno>
        ensures { Yields (leave_outcome (whole_state self.old) walker)
            (whole_state self.old) result (whole_state self.new) }
    {
        let _mount = self.kernel.leave(walker, &mut self.trace)?;
        Ok(Answer::Done)
    }
}
