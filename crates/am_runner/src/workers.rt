//! Who serves: the daemon's workers.

ghost use Rattle.std.specs.Prelude.{◌≡◌, true, IfOk, MatchBool, OnErr, OnOk};
ghost use Rattle.am_pipe.specs.{IsDrained};
ghost use Rattle.am_shared.specs.{keeps_events};
ghost use Rattle.am_runner.specs.declared.calls.Reply.TheVariants.{Done};
ghost use Rattle.am_runner.specs.Calls.{Adds, IsCall, Makes, RanOut};
ghost use Rattle.am_runner.specs.Roles.{IsAct, delivery, IsActOf, IsBrokenOff, IsEnd, IsGivenUp};
ghost use Rattle.am_runner.specs.Roles.{IsService, IsTried, IsWork, Serves};
ghost use Rattle.am_runner.specs.Tasks.{IsNextIn, IsSeen};

use crate::calls::{Reply, TRIES, call, give_up};
use crate::tasks::{Task, next_in};
use am_machine::{Event, PacketBytes};
use am_map::Entry;
use am_names::{FailNo, FsId, JobId, Place, Trigger};
use am_pipe::{Note, TakeEnd};
use am_shared::{Caller, Opened, Shared};
use std::alloc::{AllocError, Global};
use std::sync::Wait;
use std::thread;

/// What a worker passes with the token of a job, behind its delivery and before its first act. It
/// doesn't hold the lock there.
pub trait Gate {
    fn pass(&self, call: u32);
}

/// What a worker is to mount, and where.
#[derive(Clone, Copy)]
pub struct Errand<'a> {
    pub trigger: &'a Trigger,
    /// The path of the trigger: that at which the daemon was attached to its file system, and behind it the name of an
    /// indirect trigger.
    pub path: &'a Place,
    /// What the entry of the map says.
    pub entry: &'a Entry,
}

/// What mounts and unmounts for a worker, and tells with which number that failed, if it did. The
/// worker doesn't hold the lock meanwhile.
pub trait Backend {
    fn mount(&mut self, errand: &Errand<'_>) -> Result<(), FailNo>;

    /// Unmounts what is mounted on the trigger, at its path.
    fn umount(&mut self, trigger: &Trigger, path: &Place) -> Result<(), FailNo>;
}

/// Does without the lock what a task asks for. Tells the number of its failure, if it failed.
fn perform<B: Backend>(backend: &mut B, task: &Task) -> Option<FailNo> {
    match task {
        Task::Mount {
            trigger,
            path,
            entry,
        } => backend
            .mount(&Errand {
                trigger,
                path,
                entry,
            })
            .err(),
        Task::Umount { trigger, path } => backend.umount(trigger, path).err(),
        Task::Other => None,
        Task::Nowhere => Some(FailNo::ENOENT),
    }
}

/// The task of a job that comes next; none where there is no such job any more. Asked for again
/// where memory runs out.
fn next_task<L: Opened, R: Wait>(
    rt: &R,
    alloc: Global,
    caller: &mut Caller<L>,
    job: JobId,
) -> Result<Option<Task>, AllocError>
    requires keep { keeps_events L.keep ≡ true }
    ensures receipts { caller.new.receipts ≡ caller.old.receipts }
    ensures found { IfOk result (IsSeen L.opening caller.old.receipts job) }
{
    for _ in 0..TRIES {
        let found = caller.look(
            rt,
            |shared: &Shared| -> Result<Option<Task>, AllocError>
                ensures { IfOk result
                    (λ found. keeps_events shared.now.keep ≡ true → IsNextIn shared.now job found) }
            { next_in(alloc, shared, job) },
        );
        if found.is_ok() {
            return found;
        }
        thread::yield_now();
    }
    Err(AllocError)
}

/// Makes the next act of a job. Tells whether that is done; there may be none.
fn act<L: Opened, B: Backend, R: Wait>(
    rt: &R,
    alloc: Global,
    caller: &mut Caller<L>,
    job: JobId,
    backend: &mut B,
) -> Result<bool, AllocError>
    requires keep { keeps_events L.keep ≡ true }
    ensures ok { IfOk result (λ is_done. MatchBool is_done
        (Makes (IsAct job Done) caller.old.receipts caller.new.receipts)
        (Makes (IsEnd job) caller.old.receipts caller.new.receipts)) }
    ensures err { OnErr result (Adds (IsActOf job) caller.old.receipts caller.new.receipts) }
{
    let Some(task) = next_task(rt, alloc, caller, job)? else {
        return Ok(false);
    };
    let failure = perform(backend, &task);
    let reply = call(rt, alloc, caller, &Event::Act { job, failure })?;
    Ok(reply.is_done())
}

/// Makes the acts of a job one by one, until there are no more or one is refused.
fn finish<L: Opened, B: Backend, R: Wait>(
    rt: &R,
    alloc: Global,
    caller: &mut Caller<L>,
    job: JobId,
    backend: &mut B,
) -> Result<(), AllocError>
    requires keep { keeps_events L.keep ≡ true }
    ensures ok { OnOk result (Makes (IsWork job) caller.old.receipts caller.new.receipts) }
    ensures err { OnErr result (Adds (IsActOf job) caller.old.receipts caller.new.receipts) }
{
    for _ in rt.forever() {
        if !act(rt, alloc, caller, job, backend)? {
            return Ok(());
        }
    }
    unreachable!()
}

/// The event that delivers the packet of a note. Where memory runs out it is made again, as often as a call is.
fn delivery(alloc: Global, taken: &(u64, Note)) -> Result<Event, AllocError>
    ensures { IfOk result (λ event. event ≡ delivery taken.now) }
{
    let note = &taken.1;
    for _ in 0..TRIES {
        match PacketBytes::new(alloc, &note.bytes) {
            Ok(bytes) => return Ok(Event::Deliver {
                token: note.token,
                bytes: Some(bytes),
            }),
            Err(_) => thread::yield_now(),
        }
    }
    Err(AllocError)
}

/// Delivers the packet of a note.
fn deliver<L: Opened, R: Wait>(
    rt: &R,
    alloc: Global,
    caller: &mut Caller<L>,
    taken: &(u64, Note),
) -> Result<Reply, AllocError>
    ensures ok { IfOk result
        (λ reply. Makes (IsCall (delivery taken.now) reply) caller.old.receipts caller.new.receipts) }
    ensures err { OnErr result (Adds (RanOut (delivery taken.now)) caller.old.receipts caller.new.receipts) }
{
    let event = delivery(alloc, taken)?;
    call(rt, alloc, caller, &event)
}

/// Delivers the packet of a note, and does what its job asks for. A packet that is refused is given
/// up.
fn serve<L: Opened, G: Gate, B: Backend, R: Wait>(
    rt: &R,
    alloc: Global,
    caller: &mut Caller<L>,
    taken: &(u64, Note),
    gate: &G,
    backend: &mut B,
) -> Result<(), AllocError>
    requires keep { keeps_events L.keep ≡ true }
    ensures ok { OnOk result (Makes (IsService taken.now) caller.old.receipts caller.new.receipts) }
    ensures err { OnErr result (Makes (IsBrokenOff taken.now) caller.old.receipts caller.new.receipts) }
{
    let reply = deliver(rt, alloc, caller, taken)?;
    let Some(job) = reply.job() else {
        return Ok(());
    };
    gate.pass(job.0);
    finish(rt, alloc, caller, job, backend)
}

/// Serves a note, or gives up where memory runs out for good.
fn serve_or_give_up<L: Opened, G: Gate, B: Backend, R: Wait>(
    rt: &R,
    alloc: Global,
    caller: &mut Caller<L>,
    taken: &(u64, Note),
    fs: FsId,
    gate: &G,
    backend: &mut B,
) -> Result<(), AllocError>
    requires keep { keeps_events L.keep ≡ true }
    ensures ok { OnOk result (Makes (IsService taken.now) caller.old.receipts caller.new.receipts) }
    ensures err { OnErr result (Makes (IsGivenUp fs taken.now) caller.old.receipts caller.new.receipts) }
{
    match serve(rt, alloc, caller, taken, gate, backend) {
        Ok(()) => Ok(()),
        Err(_) => {
            give_up(rt, alloc, caller, fs);
            Err(AllocError)
        }
    }
}

/// Takes notes and serves them, until the pipe is closed and it finds none; it sleeps while there is none. Where
/// memory runs out for good, nobody is to wait for what isn't done: the file system becomes catatonic, as by its
/// administrator, which room was kept for. The worker goes on with the next note, and tells in the end that memory
/// ran out.
pub fn daemon_worker<L: Opened, G: Gate, B: Backend, R: Wait>(
    rt: &R,
    alloc: Global,
    caller: &mut Caller<L>,
    taker: &mut TakeEnd,
    fs: FsId,
    gate: &G,
    backend: &mut B,
) -> Result<(), AllocError>
    requires keep { keeps_events L.keep ≡ true }
    ensures pipe { taker.new.pipe ≡ taker.old.pipe }
    ensures over { taker.new.over ≡ true }
    ensures drained { IsDrained taker.new }
    ensures ok { OnOk result (Serves IsService taker.old.got taker.new.got caller.old.receipts caller.new.receipts) }
    ensures err { OnErr result
        (Serves (IsTried fs) taker.old.got taker.new.got caller.old.receipts caller.new.receipts) }
{
    let mut outcome = Ok(());
    for _ in rt.forever() {
        let Some(taken) = taker.wait(rt) else {
            return outcome;
        };
        match serve_or_give_up(rt, alloc, caller, &taken, fs, gate, backend) {
            Ok(()) => {}
            Err(_) => outcome = Err(AllocError),
        }
    }
    unreachable!()
}
