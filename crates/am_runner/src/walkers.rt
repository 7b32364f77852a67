//! Who walks, and who asks for expiries.

ghost use Rattle.std.specs.Prelude.{◌≡◌, IfOk, OnErr, OnOk};
ghost use Rattle.am_runner.specs.Calls.{Adds, AreMany, IsCall, IsOf, Makes, RanOut, has_to_wait};
ghost use Rattle.am_runner.specs.Roles.{GoesOn, IsExpiry, IsOfExpirer, IsOfSettling, IsOfRound};
ghost use Rattle.am_runner.specs.Roles.{IsRound, Settles, resume as resume_of, walk as walk_of};

use crate::calls::{Reply, call};
use am_machine::Event;
use am_names::{AbsPath, FsId, NsId, PipeState, Seconds, WalkerId};
use am_shared::{Caller, Opened, Shared};
use std::alloc::{AllocError, Global};
use std::sync::Wait;

/// Waits until the walker is released, and resumes.
fn resume<L: Opened, R: Wait>(
    rt: &R,
    alloc: Global,
    caller: &mut Caller<L>,
    walker: WalkerId,
) -> Result<Reply, AllocError>
    ensures ok { IfOk result
        (λ reply. Makes (IsCall (resume_of walker) reply) caller.old.receipts caller.new.receipts) }
    ensures err { OnErr result (Adds (RanOut (resume_of walker)) caller.old.receipts caller.new.receipts) }
{
    caller.wait_release(rt, walker, |_shared: &Shared| ());
    let resume = Event::Resume {
        walker,
        now: Seconds(0),
        pipe: PipeState::Room,
    };
    call(rt, alloc, caller, &resume)
}

/// Whether the walker has to wait.
fn has_to_wait(outcome: &Result<Reply, AllocError>) -> bool
    ensures { result ≡ has_to_wait outcome.now }
{
    match outcome {
        Ok(reply) => reply.is_wait(),
        Err(_) => false,
    }
}

/// Resumes until the answer is none to wait.
fn go_on<L: Opened, R: Wait>(
    rt: &R,
    alloc: Global,
    caller: &mut Caller<L>,
    walker: WalkerId,
) -> Result<Reply, AllocError>
    ensures ok { IfOk result (λ reply. Makes (GoesOn walker reply) caller.old.receipts caller.new.receipts) }
    ensures err { OnErr result (Adds (IsOf (resume_of walker)) caller.old.receipts caller.new.receipts) }
{
    for _ in rt.forever() {
        let outcome = resume(rt, alloc, caller, walker);
        if !has_to_wait(&outcome) {
            return outcome;
        }
    }
    unreachable!()
}

/// Makes an event of a walker, and resumes as long as the answer is a wait. Tells the last reply.
fn settle<L: Opened, R: Wait>(
    rt: &R,
    alloc: Global,
    caller: &mut Caller<L>,
    walker: WalkerId,
    event: &Event,
) -> Result<Reply, AllocError>
    ensures ok { IfOk result
        (λ reply. Makes (Settles event.now walker reply) caller.old.receipts caller.new.receipts) }
    ensures err { OnErr result (Adds (IsOfSettling event.now walker) caller.old.receipts caller.new.receipts) }
{
    let outcome = call(rt, alloc, caller, event);
    if has_to_wait(&outcome) {
        return go_on(rt, alloc, caller, walker);
    }
    outcome
}

/// Walks, and leaves where the walk arrives. A walk that is refused is over.
fn round<L: Opened, R: Wait>(
    rt: &R,
    alloc: Global,
    caller: &mut Caller<L>,
    walker: WalkerId,
    walk: &Event,
) -> Result<(), AllocError>
    ensures ok { OnOk result (Makes (IsRound walk.now walker) caller.old.receipts caller.new.receipts) }
    ensures err { OnErr result (Adds (IsOfRound walk.now walker) caller.old.receipts caller.new.receipts) }
{
    let reply = settle(rt, alloc, caller, walker, walk)?;
    if reply.is_arrival() {
        call(rt, alloc, caller, &Event::Leave { walker })?;
    }
    Ok(())
}

/// The event of a walk in the first namespace, at moment 0, where the pipe has room.
fn walk(alloc: Global, walker: WalkerId, path: &AbsPath<'_>) -> Result<Event, AllocError>
    ensures { IfOk result (λ event. event ≡ walk_of walker path.now) }
{
    Ok(Event::Walk {
        walker,
        ns: NsId(0),
        path: path.to_place(alloc)?,
        now: Seconds(0),
        pipe: PipeState::Room,
    })
}

/// Makes rounds: walks along a path in the first namespace, waits and resumes as long as the answer
/// is a wait, and leaves. Ends early where memory runs out for good.
pub fn walker<L: Opened, R: Wait>(
    rt: &R,
    alloc: Global,
    caller: &mut Caller<L>,
    walker: WalkerId,
    path: &AbsPath<'_>,
    rounds: u32,
) -> Result<(), AllocError>
    ensures ok { OnOk result (Makes (AreMany (IsRound (walk_of walker path.now) walker) rounds)
        caller.old.receipts caller.new.receipts) }
    ensures err { OnErr result
        (Adds (IsOfRound (walk_of walker path.now) walker) caller.old.receipts caller.new.receipts) }
{
    let walk = walk(alloc, walker, path)?;
    for _made in 0..rounds {
        round(rt, alloc, caller, walker, &walk)?;
    }
    Ok(())
}

/// Makes rounds: asks for an immediate expiry, and waits and resumes as long as the answer is a
/// wait. Ends early where memory runs out for good.
pub fn expirer<L: Opened, R: Wait>(
    rt: &R,
    alloc: Global,
    caller: &mut Caller<L>,
    walker: WalkerId,
    fs: FsId,
    rounds: u32,
) -> Result<(), AllocError>
    ensures ok { OnOk result (Makes (AreMany (IsExpiry walker fs) rounds) caller.old.receipts caller.new.receipts) }
    ensures err { OnErr result (Adds (IsOfExpirer walker fs) caller.old.receipts caller.new.receipts) }
{
    let expire = Event::Expire {
        walker,
        fs,
        now: Seconds(0),
        immediate: true,
        pipe: PipeState::Room,
    };
    for _made in 0..rounds {
        settle(rt, alloc, caller, walker, &expire)?;
    }
    Ok(())
}
