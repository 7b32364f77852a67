//! The calls of a thread, made again where memory runs out.

ghost use Rattle.std.specs.Prelude.{◌≡◌, IfOk, OnErr};
ghost use Rattle.am_machine.specs.declared.event.Event.TheVariants.{AdminCatatonic};
ghost use Rattle.am_machine.specs.declared.answer.Answer.TheVariants.{Refused};
ghost use Rattle.am_runner.specs.Calls.{Adds, IsCall, Makes, RanOut, is_arrival, is_done, is_wait};
ghost use Rattle.am_runner.specs.Calls.{job_of, reply_of};
ghost use Rattle.am_runner.specs.Roles.{GivesUp, is_given_up};
ghost use Rattle.am_trigger.specs.{autofs_of};

use am_machine::{Answer, Event};
use am_names::{Errno, FsId, JobId};
use am_shared::{Caller, Opened, Shared};
use std::alloc::{AllocError, Global};
use std::sync::Wait;
use std::thread;

/// How often a call is made where memory runs out each time.
pub const TRIES: u32 = 1_000;

/// What a thread goes by of the answer to a call.
#[derive(Clone, Copy)]
pub enum Reply {
    /// A walker has to wait.
    Wait,
    /// A walk has arrived.
    Arrived,
    /// A packet was taken up as this job.
    Job { job: JobId },
    /// The event was refused, or a walk can't go on.
    Refused,
    /// It is done.
    Done,
}

impl Reply {
    /// Whether a walker has to wait.
    pub fn is_wait(self) -> bool
        ensures { result ≡ is_wait self }
    {
        matches!(self, Reply::Wait)
    }

    /// Whether a walk has arrived.
    pub fn is_arrival(self) -> bool
        ensures { result ≡ is_arrival self }
    {
        matches!(self, Reply::Arrived)
    }

    /// Whether it is done.
    pub fn is_done(self) -> bool
        ensures { result ≡ is_done self }
    {
        matches!(self, Reply::Done)
    }

    /// The job as which a packet was taken up.
    pub fn job(self) -> Option<JobId>
        ensures { result ≡ job_of self }
    {
        match self {
            Reply::Job { job } => Some(job),
            _ => None,
        }
    }
}

/// The reply to a refusal; none where memory ran out.
fn refusal(errno: Errno) -> Option<Reply>
    ensures { result ≡ reply_of (Refused errno) }
{
    match errno {
        Errno::NoMemory => None,
        _ => Some(Reply::Refused),
    }
}

/// The reply to an answer; none where memory ran out.
fn reply_to(answer: &Answer) -> Option<Reply>
    ensures { result ≡ reply_of answer.now }
{
    match answer {
        Answer::Wait { .. } => Some(Reply::Wait),
        Answer::At { .. } => Some(Reply::Arrived),
        Answer::Job { job } => Some(Reply::Job { job: *job }),
        Answer::Refused { errno } => refusal(*errno),
        Answer::Failed { .. } => Some(Reply::Refused),
        _ => Some(Reply::Done),
    }
}

/// Makes an event, unless memory runs out.
fn call_once<L: Opened, R: Wait>(
    rt: &R,
    alloc: Global,
    caller: &mut Caller<L>,
    event: &Event,
) -> Result<Reply, AllocError>
    ensures ok { IfOk result (λ reply. Makes (IsCall event.now reply) caller.old.receipts caller.new.receipts) }
    ensures err { OnErr result (Adds (RanOut event.now) caller.old.receipts caller.new.receipts) }
{
    let event = event.copy(alloc)?;
    if caller.call(rt, alloc, event).is_err() {
        return Err(AllocError);
    }
    let Some(receipt) = caller.receipt() else {
        unreachable!()
    };
    reply_to(&receipt.answer).ok_or(AllocError)
}

/// Makes an event, and makes it again where memory runs out, up to 1,000 times. Tells the reply to
/// its answer.
pub fn call<L: Opened, R: Wait>(
    rt: &R,
    alloc: Global,
    caller: &mut Caller<L>,
    event: &Event,
) -> Result<Reply, AllocError>
    ensures ok { IfOk result (λ reply. Makes (IsCall event.now reply) caller.old.receipts caller.new.receipts) }
    ensures err { OnErr result (Adds (RanOut event.now) caller.old.receipts caller.new.receipts) }
{
    for _ in 0..TRIES {
        match call_once(rt, alloc, caller, event) {
            Ok(reply) => return Ok(reply),
            Err(_) => thread::yield_now(),
        }
    }
    Err(AllocError)
}

/// Has a file system made catatonic, for which room was kept, unless memory runs out all the same.
fn give_up_once<L: Opened, R: Wait>(
    rt: &R,
    alloc: Global,
    caller: &mut Caller<L>,
    fs: FsId,
) -> Result<Reply, AllocError>
    ensures ok { IfOk result
        (λ reply. Makes (IsCall (AdminCatatonic fs) reply) caller.old.receipts caller.new.receipts) }
    ensures err { OnErr result (Adds (RanOut (AdminCatatonic fs)) caller.old.receipts caller.new.receipts) }
{
    if caller.give_up(rt, alloc, fs).is_err() {
        return Err(AllocError);
    }
    let Some(receipt) = caller.receipt() else {
        unreachable!()
    };
    reply_to(&receipt.answer).ok_or(AllocError)
}

/// Whether nobody can wait at a file system: it is catatonic, or there is none.
fn is_given_up(shared: &Shared, fs: FsId) -> bool
    ensures { result ≡ is_given_up (autofs_of shared.now.world.kernel.triggers fs) }
{
    match shared.world().autofs(fs) {
        Some(autofs) => autofs.catatonic,
        None => true,
    }
}

/// Whether others have given it up.
fn is_given_up_by_others<L: Opened, R: Wait>(rt: &R, caller: &mut Caller<L>, fs: FsId) -> bool
    ensures { caller.new.receipts ≡ caller.old.receipts }
{
    caller.look(rt, |shared: &Shared| is_given_up(shared, fs))
}

/// Gives up where memory is short: the file system becomes catatonic, so that nobody waits for what isn't done. Where
/// there is no memory for that either it is tried again and again, until it is done or others have done it.
pub fn give_up<L: Opened, R: Wait>(rt: &R, alloc: Global, caller: &mut Caller<L>, fs: FsId)
    ensures { Makes (GivesUp fs) caller.old.receipts caller.new.receipts }
{
    for _ in rt.forever() {
        match give_up_once(rt, alloc, caller, fs) {
            Ok(_reply) => return,
            Err(_) => {
                if is_given_up_by_others(rt, caller, fs) {
                    return;
                }
            }
        }
        thread::yield_now();
    }
    unreachable!()
}
