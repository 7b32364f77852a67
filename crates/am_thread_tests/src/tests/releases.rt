//! A walker that waits in a thread of its own, until the daemon's thread has released it.

ghost use Rattle.am_shared.specs.{opening_of};
ghost use Rattle.am_shared.specs.declared.keep.Keep.TheVariants as keeps;
ghost use Rattle.std.specs.Prelude.{◌≡◌, []};

use crate::tests::worlds::{call, is_line, world_and_ends};
use am_names::{FsId, WalkerId};
use am_pipe::{PutEnd, pipe};
use am_shared::{Caller, Keep, Logbook, Opened, Opening, Shared, gather, share};
use std::alloc::{AllocError, Global};
use std::marker::Brand;
use std::process::Abort;
use std::sync::Wait;
use std::sync::atomic::{AtomicU32, Ordering};
use std::test::*;
use std::thread;
use std::thread::Threads;

fn answers<L: Opened, R: Wait>(
    rt: &R,
    alloc: Global,
    caller: &mut Caller<L>,
    line: &[u8],
    wanted: &[u8],
) -> bool {
    match call(rt, alloc, caller, line) {
        Some(receipt) => is_line(alloc, &receipt.answer, wanted),
        None => false,
    }
}

/// Once it is released, the walk goes on at once. Where the file system became catatonic meanwhile,
/// it fails with ENOENT.
fn walks<L: Opened, R: Wait>(
    rt: &R,
    alloc: Global,
    caller: &mut Caller<L>,
    is_served: bool,
) -> bool {
    let is_waiting = caller.wait_release(
        rt,
        WalkerId(7),
        |shared: &Shared| shared.world().is_waiting(WalkerId(7)),
    );
    if is_waiting {
        return false;
    }
    let wanted: &[u8] = if is_served { b"at 3 /\n" } else { b"fail 1\n" };
    answers(rt, alloc, caller, b"resume 7 101 room", wanted)
}

fn serves<L: Opened, R: Wait>(rt: &R, alloc: Global, caller: &mut Caller<L>) -> bool {
    answers(rt, alloc, caller, b"deliver 1", b"job 1\n")
        && answers(rt, alloc, caller, b"act 1 ok", b"did mkdir\n")
        && answers(rt, alloc, caller, b"act 1 ok", b"did mount 3\n")
        && answers(rt, alloc, caller, b"act 1 ok", b"did record\n")
        && answers(rt, alloc, caller, b"act 1 ok", b"did reply\n")
}

/// Serves the walk, or gives up.
fn serves_or_not<L: Opened, R: Wait>(
    rt: &R,
    alloc: Global,
    caller: &mut Caller<L>,
    is_served: bool,
) -> bool {
    if is_served {
        return serves(rt, alloc, caller);
    }
    caller.give_up(rt, alloc, FsId(2)).is_ok()
}

/// The first caller is the walker, and the second the daemon.
fn takes_part<L: Opened, R: Wait>(
    rt: &R,
    alloc: Global,
    done: &AtomicU32,
    index: usize,
    caller: &mut Caller<L>,
    is_served: bool,
) {
    let right = if index == 0 {
        walks(rt, alloc, caller, is_served)
    } else {
        serves_or_not(rt, alloc, caller, is_served)
    };
    if right {
        done.fetch_add(1, Ordering::SeqCst);
    }
}

fn begins<L: Opened, R: Wait>(rt: &R, alloc: Global, callers: &mut [Caller<L>]) -> bool {
    let Some(first) = callers.first_mut() else {
        return false;
    };
    answers(
        rt,
        alloc,
        first,
        b"attach /auto",
        b"fs 2 attach 1 mount 2\n",
    ) && answers(
        rt,
        alloc,
        first,
        b"walk 7 0 /auto/home 100 room",
        b"wait 1\n",
    )
}

fn released<L: Opened + Send + Sync, R: Threads + Wait + Abort + Sync>(
    rt: &R,
    alloc: Global,
    logbook: Logbook,
    begun: Opening,
    put: PutEnd,
    is_served: bool,
) -> Result<(), AllocError>
    requires logbook { (L.logbook ≡ logbook) × (L.callers ≡ 2) }
    requires opening { L.opening ≡ opening_of begun }
    requires put { (put.sent ≡ []) × (L.pipe ≡ put.pipe) × (L.takers ≡ put.takers) × (L.room ≡ put.room) }
    requires keep { L.keep ≡ keeps.Events }
{
    let mut callers = share::<L>(alloc, logbook, begun, put, 2, Keep::Events)?;
    assert!(rt;
        begins(rt, alloc, callers.as_mut_slice()),
        "the walker waits"
    );
    let done = AtomicU32::new(0);
    thread::for_each_mut(
        rt,
        callers.as_mut_slice(),
        2,
        &|index, caller| takes_part(rt, alloc, &done, index, caller, is_served),
    );
    assert_eq!(rt; done.load(Ordering::SeqCst), 2);
    let gathered = gather(rt, callers);
    let calls = if is_served { 8 } else { 4 };
    assert!(rt; gathered.count == calls && gathered.is_matched, "each call");
    Ok(())
}

fn plays<R: Threads + Wait + Abort + Sync>(
    rt: &R,
    alloc: Global,
    is_served: bool,
) -> Result<(), AllocError> {
    let begun = world_and_ends(alloc, b"home srv:/home")?;
    let (put, _takers) = pipe(alloc, 1, 1)?;
    let logbook = Logbook::new(alloc)?;
    released::<Brand, R>(rt, alloc, logbook, begun, put, is_served)
}

#[test]
fn a_walker_waits_for_its_release(rt: HostRuntime) -> Result<(), Fail> {
    plays(&rt, rt.alloc(), true)?;
    Ok(())
}

#[test]
fn nobody_waits_for_who_gave_up(rt: HostRuntime) -> Result<(), Fail> {
    plays(&rt, rt.alloc(), false)?;
    Ok(())
}
