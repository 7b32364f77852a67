//! An answer twice: what owns memory is made before the event.

ghost use Rattle.std.specs.Prelude.{◌≡◌, IfOk};
ghost use Rattle.am_machine.specs.{outcome_of, umount_outcome, drop_outcome};
ghost use Rattle.am_world.specs.Machine.{whole_state};
ghost use Rattle.am_world.specs.Copies.{IsMadeAhead, arrival_told};

use crate::machine::Machine;
use am_machine::{Answer, Event};
use am_names::{Errno, MountIds, NsId, Place, Position};
use std::alloc::{AllocError, Global};

/// The answer of a walk that arrives there.
fn arrival_told(at: Option<Position>) -> Option<Answer>
    ensures { result ≡ arrival_told at }
{
    Some(Answer::At { position: at? })
}

/// The same answer once more. One that owns memory was made before.
pub fn second_copy(answer: &Answer, made_ahead: Option<Answer>) -> Answer
    requires { IsMadeAhead made_ahead answer.now }
    ensures { result ≡ answer.now }
{
    match answer {
        Answer::Attached { fs, attach, mount } => Answer::Attached {
            fs: *fs,
            attach: *attach,
            mount: *mount,
        },
        Answer::Mount { mount } => Answer::Mount { mount: *mount },
        Answer::Done => Answer::Done,
        Answer::Kind { kind } => Answer::Kind { kind: *kind },
        Answer::Namespace { ns } => Answer::Namespace { ns: *ns },
        Answer::Wait { token } => Answer::Wait { token: *token },
        Answer::Expired => Answer::Expired,
        Answer::Job { job } => Answer::Job { job: *job },
        Answer::DidMkdir => Answer::DidMkdir,
        Answer::DidMount { mount } => Answer::DidMount { mount: *mount },
        Answer::DidUmount => Answer::DidUmount,
        Answer::DidRmdir => Answer::DidRmdir,
        Answer::DidRecord => Answer::DidRecord,
        Answer::DidReply => Answer::DidReply,
        Answer::FailedMount => Answer::FailedMount,
        Answer::FailedUmount => Answer::FailedUmount,
        Answer::Reattached { attach } => Answer::Reattached { attach: *attach },
        Answer::Record { entry } => Answer::Record { entry: *entry },
        Answer::Refused { errno } => Answer::Refused { errno: *errno },
        Answer::Failed { errno } => Answer::Failed { errno: *errno },
        Answer::At { .. } | Answer::Gone { .. } => match made_ahead {
            Some(made_ahead) => made_ahead,
            // It was made.
            None => Answer::Done,
        },
    }
}

impl Machine {
    /// The answer to an unmount, if the path leads somewhere.
    fn umount_told(
        &self,
        alloc: Global,
        ns: NsId,
        path: &Place,
    ) -> Result<Option<Answer>, AllocError>
        ensures { IfOk result
            (λ made_ahead. IsMadeAhead made_ahead
            (umount_outcome (whole_state self.now) ns path.now).answer) }
    {
        match self.kernel.umount_takes(alloc, ns, &path.path()) {
            Ok(gone) => Ok(Some(Answer::Gone {
                mounts: MountIds::of(gone),
            })),
            Err(Errno::NoMemory) => Err(AllocError),
            Err(_) => Ok(None),
        }
    }

    /// The answer to the drop of a namespace.
    fn drop_told(&self, alloc: Global, ns: NsId) -> Result<Option<Answer>, AllocError>
        ensures { IfOk result
            (λ made_ahead. IsMadeAhead made_ahead (drop_outcome (whole_state self.now) ns).answer) }
    {
        match self.kernel.drop_takes(alloc, ns) {
            Ok(gone) => Ok(Some(Answer::Gone {
                mounts: MountIds::of(gone),
            })),
            Err(_) => Err(AllocError),
        }
    }

    /// The answer to an event, where it owns memory.
    pub fn made_ahead(&self, alloc: Global, event: &Event) -> Result<Option<Answer>, AllocError>
        ensures { IfOk result
            (λ made_ahead. IsMadeAhead made_ahead
            (outcome_of (whole_state self.now) event.now).answer) }
    {
        match event {
            Event::Umount { ns, path } => self.umount_told(alloc, *ns, path),
            Event::DropNamespace { ns } => self.drop_told(alloc, *ns),
            Event::Walk { ns, path, now, .. } => {
                Ok(arrival_told(self.kernel.arrival(alloc, *ns, &path.path(), *now)?))
            }
            Event::Resume { walker, now, .. } => {
                Ok(arrival_told(self.kernel.arrival_again(alloc, *walker, *now)?))
            }
            _ => Ok(None),
        }
    }
}
