//! For the author of a daemon with threads: what becomes of the packets of a shared world, and who
//! waits for what isn't done.

ghost use Rattle.std.specs.Prelude.{◌≡◌, []};
ghost use Rattle.am_shared.specs.{opening_of};
ghost use Rattle.am_shared.specs.declared.keep.Keep.TheVariants as keeps;

use am_map::{Map, MapKind};
use am_master::Master;
use am_names::{AbsPath, FsId, Limits, NsId, PipeState, Place, Seconds, WalkerId};
use am_pipe::{Note, PutEnd, TakeEnd, pipe};
use am_shared::{Caller, Keep, Logbook, Opened, Opening, Shared, gather, share};
use am_world::{Answer, Event};
use std::alloc::{AllocError, Global};
use std::collections::VecDeque;
use std::marker::Brand;
use std::process::Abort;
use std::sync::Wait;
use std::test::Fail;

const LIMITS: Limits = Limits {
    mounts: 1_000_000,
    waiters: 1_024,
    tokens: u32::MAX,
    negative: Seconds(0),
};

/// How many walkers walk, each to a key of its own.
const WALKERS: u32 = 40;

/// An autofs at `/auto`, with a map in which each key is found.
fn opening(alloc: Global) -> Result<Opening, AllocError> {
    let master = Master::read(alloc, b"/auto auto.home").map_err(|_fault| AllocError)?;
    let map = Map::read(alloc, b"* srv:/&", MapKind::Indirect).map_err(|_fault| AllocError)?;
    let mut maps = Vec::new(alloc);
    maps.push(map)?;
    Opening::new(LIMITS, master, maps).ok_or(AllocError)
}

fn place(alloc: Global, path: &str) -> Result<Place, AllocError> {
    let path = AbsPath::read(path.as_bytes()).map_err(|_errno| AllocError)?;
    path.to_place(alloc)
}

fn attaches<L: Opened, R: Wait>(
    rt: &R,
    alloc: Global,
    caller: &mut Caller<L>,
) -> Result<bool, AllocError> {
    let path = place(alloc, "/auto")?;
    Ok(caller.call(rt, alloc, Event::Attach { path }).is_ok())
}

/// Whether a walker meets its mount trap, and has to wait.
fn waits<L: Opened, R: Wait>(
    rt: &R,
    alloc: Global,
    caller: &mut Caller<L>,
    walker: u32,
) -> Result<bool, AllocError> {
    let path = format!(in alloc; "/auto/k{walker}")?;
    let walk = Event::Walk {
        walker: WalkerId(walker),
        ns: NsId(0),
        path: place(alloc, path.as_str())?,
        now: Seconds(0),
        pipe: PipeState::Room,
    };
    if caller.call(rt, alloc, walk).is_err() {
        return Ok(false);
    }
    match caller.receipt() {
        Some(receipt) => Ok(matches!(receipt.answer, Answer::Wait { .. })),
        None => Ok(false),
    }
}

fn all_wait<L: Opened, R: Wait>(
    rt: &R,
    alloc: Global,
    caller: &mut Caller<L>,
) -> Result<bool, AllocError> {
    for walker in 1..=WALKERS {
        if !waits(rt, alloc, caller, walker)? {
            return Ok(false);
        }
    }
    Ok(true)
}

/// An event with which the notes that wait go into the pipe, as far as there is room.
fn moves_on<L: Opened, R: Wait>(rt: &R, alloc: Global, caller: &mut Caller<L>) -> bool {
    let walker = WalkerId(0);
    caller.call(rt, alloc, Event::Leave { walker }).is_ok()
}

/// Takes the next packets of the trace one by one, in its order, up to a token.
fn takes<L: Opened, R: Wait>(
    rt: &R,
    alloc: Global,
    caller: &mut Caller<L>,
    taker: &mut TakeEnd,
    last: u32,
) -> bool {
    for token in 1..=last {
        match taker.take(rt) {
            Some((position, note)) => {
                if note.token.0 != token || position != u64::from(token) {
                    return false;
                }
            }
            None => return false,
        }
        if !moves_on(rt, alloc, caller) {
            return false;
        }
    }
    true
}

/// Whether the notes that wait are those of the tokens behind this one.
fn are_behind(unsent: &VecDeque<Note>, last: u32) -> bool {
    let mut token = last;
    for note in unsent {
        token = token.wrapping_add(1);
        if note.token.0 != token {
            return false;
        }
    }
    token == WALKERS
}

/// What was taken comes first, then what is in the pipe, and then what waits: 30, 2 and 8.
fn plays<L: Opened, R: Wait + Abort>(
    rt: &R,
    alloc: Global,
    logbook: Logbook,
    begun: Opening,
    put: PutEnd,
    mut taker: TakeEnd,
) -> Result<(), AllocError>
    requires logbook { (L.logbook ≡ logbook) × (L.callers ≡ 1) }
    requires opening { L.opening ≡ opening_of begun }
    requires put { (put.sent ≡ []) × (L.pipe ≡ put.pipe) × (L.takers ≡ put.takers) × (L.room ≡ put.room) }
    requires keep { L.keep ≡ keeps.Events }
{
    let mut callers: Vec<Caller<L>> = share(alloc, logbook, begun, put, 1, Keep::Events)?;
    let caller = callers.first_mut().ok_or(AllocError)?;
    assert!(rt; attaches(rt, alloc, caller)?, "an autofs");
    assert!(rt; all_wait(rt, alloc, caller)?, "each walker waits");
    let unsent = caller.look(rt, |shared: &Shared| shared.unsent());
    assert!(rt; unsent == 38, "two packets are in the pipe");
    assert!(rt; takes(rt, alloc, caller, &mut taker, 30), "in order");
    let gathered = gather(rt, callers);
    assert!(rt; gathered.is_matched, "each event has its receipt");
    let parts = gathered.shared.into_parts();
    assert!(rt; parts.unsent.len() == 8, "what waits");
    assert!(rt; are_behind(&parts.unsent, 32), "behind those in the pipe");
    Ok(())
}

#[test]
fn packets_are_taken_left_or_unsent(rt: HostRuntime) -> Result<(), Fail> {
    let alloc = rt.alloc();
    let begun = opening(alloc)?;
    let (put, mut takers) = pipe(alloc, 2, 1)?;
    let taker = takers.pop().ok_or("a take end")?;
    let logbook = Logbook::new(alloc)?;
    plays::<Brand, HostRuntime>(&rt, alloc, logbook, begun, put, taker)?;
    Ok(())
}

/// Who gives up makes the file system catatonic, so that nobody waits there.
fn gives_up<L: Opened, R: Wait + Abort>(
    rt: &R,
    alloc: Global,
    logbook: Logbook,
    begun: Opening,
    put: PutEnd,
) -> Result<(), AllocError>
    requires logbook { (L.logbook ≡ logbook) × (L.callers ≡ 1) }
    requires opening { L.opening ≡ opening_of begun }
    requires put { (put.sent ≡ []) × (L.pipe ≡ put.pipe) × (L.takers ≡ put.takers) × (L.room ≡ put.room) }
    requires keep { L.keep ≡ keeps.Events }
{
    let mut callers: Vec<Caller<L>> = share(alloc, logbook, begun, put, 1, Keep::Events)?;
    let caller = callers.first_mut().ok_or(AllocError)?;
    assert!(rt; attaches(rt, alloc, caller)?, "an autofs");
    assert!(rt; waits(rt, alloc, caller, 7)?, "a walker waits");
    assert!(rt;
        caller.give_up(rt, alloc, FsId(2)).is_ok(),
        "it is given up"
    );
    let is_waiting = caller.wait_release(
        rt,
        WalkerId(7),
        |shared: &Shared| shared.world().is_waiting(WalkerId(7)),
    );
    assert!(rt; !is_waiting, "nobody waits");
    let gathered = gather(rt, callers);
    assert!(rt;
        gathered.count == 3 && gathered.is_matched,
        "it stands in the history"
    );
    Ok(())
}

#[test]
fn nobody_waits_where_it_is_given_up(rt: HostRuntime) -> Result<(), Fail> {
    let alloc = rt.alloc();
    let begun = opening(alloc)?;
    let (put, _takers) = pipe(alloc, 2, 1)?;
    let logbook = Logbook::new(alloc)?;
    gives_up::<Brand, HostRuntime>(&rt, alloc, logbook, begun, put)?;
    Ok(())
}
