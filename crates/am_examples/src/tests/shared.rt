//! For the author of tests with threads: callers of a shared world, and its history.

ghost use Rattle.std.specs.Prelude.{◌≡◌, []};
ghost use Rattle.am_shared.specs.{opening_of};
ghost use Rattle.am_shared.specs.declared.keep.Keep.TheVariants as keeps;

use am_master::Master;
use am_names::{Limits, Seconds};
use am_pipe::{PutEnd, pipe};
use am_shared::{Caller, Keep, Logbook, Opened, Opening, Shared, gather, share};
use am_world::{Answer, Event};
use std::alloc::{AllocError, Global};
use std::marker::Brand;
use std::process::Abort;
use std::sync::Wait;
use std::test::Fail;

const LIMITS: Limits = Limits {
    mounts: 1_000_000,
    waiters: 1_024,
    tokens: u32::MAX,
    negative: Seconds(0),
};

/// The history has one event, a death of the daemon, and it was answered by `Done`.
fn is_death(shared: &Shared) -> bool {
    match shared.history() {
        [entry] => matches!((&entry.event, &entry.answer), (Event::Die, Answer::Done)),
        _ => false,
    }
}

/// The first caller makes an event. Tells its position in the history.
fn dies<L: Opened, R: Wait>(rt: &R, alloc: Global, callers: &mut [Caller<L>]) -> Option<u64> {
    let caller = callers.first_mut()?;
    caller.call(rt, alloc, Event::Die).ok()
}

/// Shares a world between two callers, each of which may go to a thread of its own.
fn plays<L: Opened, R: Wait + Abort>(
    rt: &R,
    alloc: Global,
    logbook: Logbook,
    opening: Opening,
    put: PutEnd,
) -> Result<(), AllocError>
    requires logbook { (L.logbook ≡ logbook) × (L.callers ≡ 2) }
    requires opening { L.opening ≡ opening_of opening }
    requires put { (put.sent ≡ []) × (L.pipe ≡ put.pipe) × (L.takers ≡ put.takers) × (L.room ≡ put.room) }
    requires keep { L.keep ≡ keeps.Events }
{
    let mut callers: Vec<Caller<L>> = share(alloc, logbook, opening, put, 2, Keep::Events)?;
    let position = dies(rt, alloc, callers.as_mut_slice());
    assert!(rt; position == Some(1), "the first event");
    let gathered = gather(rt, callers);
    assert!(rt; gathered.count == 1, "one event");
    assert!(rt; is_death(&gathered.shared), "the history has the event");
    assert!(rt;
        gathered.is_matched,
        "each event of the history has one receipt"
    );
    Ok(())
}

#[test]
fn two_callers_share_a_world(rt: HostRuntime) -> Result<(), Fail> {
    let alloc = rt.alloc();
    let master = Master::read(alloc, b"")?;
    let opening = Opening::new(LIMITS, master, Vec::new(alloc));
    let opening = opening.ok_or("an empty master map has no maps")?;
    let (put, _takers) = pipe(alloc, 4, 1)?;
    let logbook = Logbook::new(alloc)?;
    plays::<Brand, HostRuntime>(&rt, alloc, logbook, opening, put)?;
    Ok(())
}

/// The second caller takes the history, which its callers go on with.
fn takes<L: Opened, R: Wait + Abort>(
    rt: &R,
    alloc: Global,
    logbook: Logbook,
    opening: Opening,
    put: PutEnd,
) -> Result<(), AllocError>
    requires logbook { (L.logbook ≡ logbook) × (L.callers ≡ 2) }
    requires opening { L.opening ≡ opening_of opening }
    requires put { (put.sent ≡ []) × (L.pipe ≡ put.pipe) × (L.takers ≡ put.takers) × (L.room ≡ put.room) }
    requires keep { L.keep ≡ keeps.Nothing }
{
    let mut callers: Vec<Caller<L>> = share(alloc, logbook, opening, put, 2, Keep::Nothing)?;
    dies(rt, alloc, callers.as_mut_slice());
    dies(rt, alloc, callers.as_mut_slice());
    let second = callers.last_mut().ok_or(AllocError)?;
    let taken = second.take_history(rt, alloc);
    assert!(rt; taken.before == 0, "nothing was taken before");
    assert!(rt; taken.entries.len() == 2, "both events");
    dies(rt, alloc, callers.as_mut_slice());
    let gathered = gather(rt, callers);
    assert!(rt; gathered.count == 3, "three events");
    assert!(rt; gathered.shared.taken() == 2, "two were taken");
    assert!(rt; is_death(&gathered.shared), "one is left");
    assert!(rt; gathered.is_matched, "and each has its receipt");
    Ok(())
}

#[test]
fn a_caller_takes_the_history(rt: HostRuntime) -> Result<(), Fail> {
    let alloc = rt.alloc();
    let master = Master::read(alloc, b"")?;
    let opening = Opening::new(LIMITS, master, Vec::new(alloc));
    let opening = opening.ok_or("an empty master map has no maps")?;
    let (put, _takers) = pipe(alloc, 4, 1)?;
    let logbook = Logbook::new(alloc)?;
    takes::<Brand, HostRuntime>(&rt, alloc, logbook, opening, put)?;
    Ok(())
}
