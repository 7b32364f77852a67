//! What answers and events mean for the order of a scene.

ghost use Rattle.std.specs.Prelude.{◌≡◌, ◌≤◌, IfOk, length};
ghost use Rattle.am_explore.specs.Answers.{is_wait, is_refused, is_no_memory, is_not_released, is_step, is_resume, resumes};

use crate::choice::Who;
use am_machine::{Answer, Event};
use am_names::Errno;
use std::alloc::{AllocError, Global};

/// Whether the walker waits.
pub fn is_wait(answer: &Answer) -> bool
    ensures { result ≡ is_wait answer.now }
{
    match answer {
        Answer::Wait { .. } => true,
        _ => false,
    }
}

/// Whether nothing has changed.
pub fn is_refused(answer: &Answer) -> bool
    ensures { result ≡ is_refused answer.now }
{
    match answer {
        Answer::Refused { .. } => true,
        _ => false,
    }
}

/// Whether memory ran out.
pub fn is_no_memory(answer: &Answer) -> bool
    ensures { result ≡ is_no_memory answer.now }
{
    match answer {
        Answer::Refused {
            errno: Errno::NoMemory,
        } => true,
        _ => false,
    }
}

/// Whether the walker isn't released yet.
fn is_not_released(answer: &Answer) -> bool
    ensures { result ≡ is_not_released answer.now }
{
    match answer {
        Answer::Refused {
            errno: Errno::NotReleased,
        } => true,
        _ => false,
    }
}

/// Whether an event that is answered so is a step of an order.
pub fn is_step(who: Who, answer: &Answer) -> bool
    ensures { result ≡ is_step who answer.now }
{
    match who {
        Who::Thread { .. } => !is_not_released(answer),
        Who::Daemon => !is_refused(answer),
    }
}

/// Whether a waiting walker goes on.
pub fn is_resume(event: &Event) -> bool
    ensures { result ≡ is_resume event.now }
{
    match event {
        Event::Resume { .. } => true,
        _ => false,
    }
}

/// How many of these events come before one by which no walker goes on.
pub fn resumes(events: &[Event]) -> usize
    ensures count { result ≡ resumes events.now }
    ensures bound { result ≤ length events.now }
{
    let mut count = 0;
    for event in events {
        if !is_resume(event) {
            return count;
        }
        count += 1;
    }
    count
}

/// The same answer once more.
pub fn copy_answer(alloc: Global, answer: &Answer) -> Result<Answer, AllocError>
    ensures { IfOk result (λ copy. copy ≡ answer.now) }
{
    Ok(match answer {
        Answer::Attached { fs, attach, mount } => Answer::Attached {
            fs: *fs,
            attach: *attach,
            mount: *mount,
        },
        Answer::Mount { mount } => Answer::Mount { mount: *mount },
        Answer::Gone { mounts } => Answer::Gone {
            mounts: mounts.copy(alloc)?,
        },
        Answer::Done => Answer::Done,
        Answer::Kind { kind } => Answer::Kind { kind: *kind },
        Answer::Namespace { ns } => Answer::Namespace { ns: *ns },
        Answer::At { position } => Answer::At {
            position: position.copy(alloc)?,
        },
        Answer::Wait { token } => Answer::Wait { token: *token },
        Answer::Expired => Answer::Expired,
        Answer::Job { job } => Answer::Job { job: *job },
        Answer::DidMkdir => Answer::DidMkdir,
        Answer::DidMount { mount } => Answer::DidMount { mount: *mount },
        Answer::DidUmount => Answer::DidUmount,
        Answer::DidRmdir => Answer::DidRmdir,
        Answer::DidRecord => Answer::DidRecord,
        Answer::DidReply => Answer::DidReply,
        Answer::FailedMount => Answer::FailedMount,
        Answer::FailedUmount => Answer::FailedUmount,
        Answer::Reattached { attach } => Answer::Reattached { attach: *attach },
        Answer::Record { entry } => Answer::Record { entry: *entry },
        Answer::Refused { errno } => Answer::Refused { errno: *errno },
        Answer::Failed { errno } => Answer::Failed { errno: *errno },
    })
}

/// The same answers once more.
pub fn copies_of(alloc: Global, answers: &[Answer]) -> Result<Vec<Answer>, AllocError>
    ensures { IfOk result (λ copies. copies.items ≡ answers.now) }
{
    let mut copies = Vec::with_capacity(alloc, answers.len())?;
    for answer in answers {
        copies.push(copy_answer(alloc, answer)?)?;
    }
    Ok(copies)
}
