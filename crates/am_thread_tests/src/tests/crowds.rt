//! Threads that walk, serve, mount and expire, all at once. The history is one of a single thread.

ghost use Rattle.am_shared.specs.{opening_of};
ghost use Rattle.am_shared.specs.declared.keep.Keep.TheVariants as keeps;
ghost use Rattle.std.specs.Prelude.{◌≡◌, ◌<◌, []};

use crate::tests::sizes::number;
use crate::tests::worlds::{call, world_and_ends, world_of};
use am_machine::Entry;
use am_names::{JobId, Token, WalkerId};
use am_pipe::{PutEnd, pipe};
use am_shared::{Caller, Keep, Logbook, Opened, Opening, Shared, gather, share};
use am_state::Obs;
use am_world::laws::trace_holds;
use am_world::{Answer, Ran, World, run};
use std::alloc::{AllocError, Global};
use std::marker::Brand;
use std::process::Abort;
use std::sync::Wait;
use std::test::*;
use std::thread;
use std::thread::Threads;

/// Every key is mounted from one place.
const ANY: &[u8] = b"* srv:/any";

/// How many threads make how many calls, each of them, and how much of the trace is judged then:
/// the time for that grows faster than its length. The history is replayed, unless that is 0.
#[derive(Clone, Copy)]
struct Size {
    threads: u32,
    calls: u32,
    judged: u32,
    replayed: u32,
}

/// What the gate makes: 100,000 calls. `bench/crowds.py` has more made.
const GATE: Size = Size {
    threads: 8,
    calls: 12_500,
    judged: 600,
    replayed: 1,
};

fn all_calls(size: Size) -> u64 {
    (size.threads as u64).wrapping_mul(size.calls as u64)
}

/// The token of an answer that tells the walker to wait.
fn token_of(answer: &Answer) -> Option<u32> {
    match answer {
        Answer::Wait { token } => Some(token.0),
        _ => None,
    }
}

fn is_done<L: Opened>(caller: &Caller<L>, calls: u32) -> bool {
    caller.receipts().len() >= calls as usize
}

/// Makes the event of a line, unless the caller has made all its calls. Tells the token where the
/// walker is to wait.
fn makes<L: Opened, R: Wait>(
    rt: &R,
    alloc: Global,
    calls: u32,
    caller: &mut Caller<L>,
    line: &str,
) -> Option<u32> {
    if is_done(caller, calls) {
        return None;
    }
    let receipt = call(rt, alloc, caller, line.as_bytes())?;
    token_of(&receipt.answer)
}

/// Does the daemon's work for a token. Another thread may be at it too.
fn serves<L: Opened, R: Wait>(
    rt: &R,
    alloc: Global,
    calls: u32,
    caller: &mut Caller<L>,
    token: u32,
) -> Result<(), AllocError> {
    let deliver = format!(in alloc; "deliver {token}")?;
    makes(rt, alloc, calls, caller, deliver.as_str());
    let act = format!(in alloc; "act {token} ok")?;
    for _ in 0..4 {
        makes(rt, alloc, calls, caller, act.as_str());
    }
    Ok(())
}

/// Makes an event that may wait, does the daemon's work for it, and goes on.
fn goes_on<L: Opened, R: Wait>(
    rt: &R,
    alloc: Global,
    calls: u32,
    caller: &mut Caller<L>,
    line: &str,
    resume: &str,
) -> Result<(), AllocError> {
    if let Some(token) = makes(rt, alloc, calls, caller, line) {
        serves(rt, alloc, calls, caller, token)?;
        makes(rt, alloc, calls, caller, resume);
    }
    Ok(())
}

/// A walk to one of three keys, an expiry, and a mount that goes again. A walk that waited for
/// another thread's work goes on first.
fn round<L: Opened, R: Wait>(
    rt: &R,
    alloc: Global,
    calls: u32,
    caller: &mut Caller<L>,
    walker: u32,
    turn: u32,
) -> Result<(), AllocError> {
    let key = turn % 3;
    let walk = format!(in alloc; "walk {walker} 0 /auto/k{key} {turn} room")?;
    let resume = format!(in alloc; "resume {walker} {turn} room")?;
    let leave = format!(in alloc; "leave {walker}")?;
    let expire = format!(in alloc; "expire {walker} 2 {turn} immediate room")?;
    let mount = format!(in alloc; "mount 0 /m{walker}")?;
    let umount = format!(in alloc; "umount 0 /m{walker}")?;
    makes(rt, alloc, calls, caller, resume.as_str());
    goes_on(rt, alloc, calls, caller, walk.as_str(), resume.as_str())?;
    makes(rt, alloc, calls, caller, mount.as_str());
    makes(rt, alloc, calls, caller, leave.as_str());
    goes_on(rt, alloc, calls, caller, expire.as_str(), resume.as_str())?;
    makes(rt, alloc, calls, caller, umount.as_str());
    Ok(())
}

fn rounds<L: Opened, R: Wait>(
    rt: &R,
    alloc: Global,
    calls: u32,
    index: usize,
    caller: &mut Caller<L>,
) {
    let walker = u32::try_from(index).unwrap_or(0);
    for turn in 0..calls {
        if is_done(caller, calls) {
            return;
        }
        // Without memory a round ends early, and another comes.
        let _ = round(rt, alloc, calls, caller, walker, turn);
    }
}

/// What is left when all is over.
#[derive(Drop)]
struct End {
    count: u64,
    test: bool,
    /// One thread that makes the events of the history gets its answers, and comes to its world.
    is_replayed: bool,
    /// The laws hold of what was seen at first.
    is_lawful: bool,
}

fn are_answers(history: &[Entry], answers: &[Answer]) -> bool {
    for (entry, answer) in history.iter().zip(answers) {
        if !entry.answer.is_same(answer) {
            return false;
        }
    }
    history.len() == answers.len()
}

/// Whether a token has the same packet in the pipe, and its job as much to do.
fn is_same_token(one: &World, other: &World, token: u32) -> bool {
    let job = JobId(token);
    one.queued(Token(token)) == other.queued(Token(token))
        && one.next_act(job).is_some() == other.next_act(job).is_some()
}

fn are_same_tokens(one: &World, other: &World, last: u32) -> bool {
    for token in 0..last {
        if !is_same_token(one, other, token) {
            return false;
        }
    }
    true
}

fn are_same_waits(one: &World, other: &World, walkers: u32) -> bool {
    for walker in 0..walkers {
        if one.is_waiting(WalkerId(walker)) != other.is_waiting(WalkerId(walker)) {
            return false;
        }
    }
    true
}

/// Whether what can be asked of two worlds is the same: as much was seen, and the same packets,
/// jobs and waits are left.
fn are_same_worlds(one: &World, other: &World, size: Size) -> bool {
    let seen = one.trace().len();
    let last = u32::try_from(seen).unwrap_or(u32::MAX);
    seen == other.trace().len()
        && are_same_tokens(one, other, last)
        && are_same_waits(one, other, size.threads)
}

/// What one thread gets that makes these events on a new world.
fn replay(alloc: Global, history: &[Entry]) -> Result<Ran, AllocError> {
    let mut events = Vec::with_capacity(alloc, history.len())?;
    for entry in history {
        events.push(entry.event.copy(alloc)?)?;
    }
    let Ok(world) = world_of(alloc, ANY) else {
        return Err(AllocError);
    };
    run(alloc, world, events.as_slice()).map_err(|_world| AllocError)
}

fn is_replayed(alloc: Global, shared: &Shared, size: Size) -> Result<bool, AllocError> {
    if size.replayed == 0 {
        return Ok(true);
    }
    let ran = replay(alloc, shared.history())?;
    let are_told = are_answers(shared.history(), ran.answers.as_slice());
    Ok(are_told && are_same_worlds(shared.world(), &ran.world, size))
}

fn is_released(obs: &Obs) -> bool {
    matches!(obs, Obs::Released { .. })
}

/// So many observations, and some more: the row of releases that one event makes isn't cut.
fn first_seen(trace: &[Obs], count: usize) -> &[Obs] {
    let (_, rest) = trace.split_at(count.min(trace.len()));
    let row = rest.iter().take_while(|obs| is_released(*obs)).count();
    let (first, _) = trace.split_at(count.saturating_add(row).min(trace.len()));
    first
}

fn end_of(
    alloc: Global,
    shared: &Shared,
    size: Size,
    count: u64,
    test: bool,
) -> Result<End, AllocError> {
    let first = first_seen(shared.world().trace(), size.judged as usize);
    Ok(End {
        count,
        test,
        is_replayed: is_replayed(alloc, shared, size)?,
        is_lawful: trace_holds(first),
    })
}

fn attach<L: Opened, R: Wait>(rt: &R, alloc: Global, callers: &mut [Caller<L>]) -> bool {
    match callers.first_mut() {
        Some(first) => makes(rt, alloc, 1, first, "attach /auto").is_none(),
        None => false,
    }
}

fn crowd<L: Opened + Send + Sync, R: Threads + Wait + Abort + Sync>(
    rt: &R,
    alloc: Global,
    logbook: Logbook,
    begun: Opening,
    put: PutEnd,
    size: Size,
) -> Result<(), AllocError>
    requires logbook { L.logbook ≡ logbook }
    requires threads { (L.callers ≡ size.threads) × (0 < size.threads) }
    requires opening { L.opening ≡ opening_of begun }
    requires put { (put.sent ≡ []) × (L.pipe ≡ put.pipe) × (L.takers ≡ put.takers) × (L.room ≡ put.room) }
    requires keep { L.keep ≡ keeps.All }
{
    let mut callers = share::<L>(alloc, logbook, begun, put, size.threads, Keep::All)?;
    assert!(rt; attach(rt, alloc, callers.as_mut_slice()), "an autofs");
    thread::for_each_mut(
        rt,
        callers.as_mut_slice(),
        size.threads as usize,
        &|index, caller| rounds(rt, alloc, size.calls, index, caller),
    );
    let gathered = gather(rt, callers);
    let end = end_of(
        alloc,
        &gathered.shared,
        size,
        gathered.count,
        gathered.is_matched,
    )?;
    assert_eq!(rt; end.count, all_calls(size));
    assert!(rt; end.test, "each call has its receipt");
    assert!(rt; end.is_replayed, "the history is one of a single thread");
    assert!(rt; end.is_lawful, "the trace is lawful");
    Ok(())
}

fn size_of(rt: &HostRuntime) -> Size {
    Size {
        threads: number(rt, "CROWD_THREADS", GATE.threads),
        calls: number(rt, "CROWD_CALLS", GATE.calls),
        judged: number(rt, "CROWD_JUDGED", GATE.judged),
        replayed: number(rt, "CROWD_REPLAYED", GATE.replayed),
    }
}

#[test]
fn a_crowd(rt: HostRuntime) -> Result<(), Fail> {
    let alloc = rt.alloc();
    let size = size_of(&rt);
    assert!(rt; size.threads > 0, "a thread at least");
    let begun = world_and_ends(alloc, ANY)?;
    let (put, _takers) = pipe(alloc, 64, 1)?;
    let logbook = Logbook::new(alloc)?;
    crowd::<Brand, HostRuntime>(&rt, alloc, logbook, begun, put, size)?;
    Ok(())
}
