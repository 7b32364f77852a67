//! A run of walkers and workers of whom nobody needs to know more than how many there are.

ghost use Rattle.std.specs.Prelude.{◌≡◌, ◌+◌, ◌<◌, ◌^◌, true, vec_len, IfOk};
ghost use Rattle.am_shared.specs.{keeps_events, opening_of};
ghost use Rattle.am_runner.specs.Runs.{IsAuto, IsTally, IsTallyOf};

use crate::plan::Run;
use crate::run::run_with;
use crate::tally::{Tally, tally_of};
use crate::workers::{Backend, Errand, Gate};
use am_map::{Map, MapKind};
use am_master::Master;
use am_names::{FailNo, Limits, Place, Seconds, Trigger};
use am_shared::{Opening, Shared};
use std::alloc::{AllocError, Global};
use std::sync::Wait;
use std::thread::Threads;

const LIMITS: Limits = Limits {
    mounts: u32::MAX,
    waiters: 65_536,
    tokens: u32::MAX,
    negative: Seconds(0),
};

/// Nothing is held up.
struct Open;

impl Gate for Open {
    fn pass(&self, _call: u32) {}
}

/// All goes well.
#[derive(Drop)]
struct Succeeds;

impl Backend for Succeeds {
    fn mount(&mut self, _errand: &Errand<'_>) -> Result<(), FailNo> {
        Ok(())
    }

    fn umount(&mut self, _trigger: &Trigger, _path: &Place) -> Result<(), FailNo> {
        Ok(())
    }
}

/// An autofs at /auto, and a map in which each key is found.
fn opening(alloc: Global) -> Result<Opening, AllocError>
    ensures { IfOk result (λ opening. IsAuto (opening_of opening)) }
{
    let Ok(master) = Master::read(alloc, b"/auto auto.home") else {
        return Err(AllocError);
    };
    let Ok(map) = Map::read(alloc, b"* srv:/&", MapKind::Indirect) else {
        return Err(AllocError);
    };
    let mut maps = Vec::new(alloc);
    maps.push(map)?;
    Opening::new(LIMITS, master, maps).ok_or(AllocError)
}

/// So many backends.
fn backends(alloc: Global, workers: u32) -> Result<Vec<Succeeds>, AllocError>
    ensures { IfOk result (λ made. vec_len made ≡ workers) }
{
    let mut made = Vec::with_capacity(alloc, workers as usize)?;
    for _made in 0..workers {
        made.push_reserved(Succeeds);
    }
    Ok(made)
}

/// Runs so many walkers and workers, and an expirer, each walker and the expirer so many rounds.
/// It is out of memory too where a thread can't be started.
pub fn run_threads<R: Threads + Wait + Sync>(
    rt: &R,
    alloc: Global,
    walkers: u32,
    workers: u32,
    rounds: u32,
) -> Result<Tally, AllocError>
    requires workers { 0 < workers }
    requires callers { walkers + workers + 2 < 2 ^ 32 }
    ensures { IfOk result (IsTally walkers workers rounds) }
{
    let paths: [&[u8]; 2] = [b"/auto/k0", b"/auto/k1"];
    let run = Run {
        point: b"/auto",
        paths: &paths,
        walkers,
        rounds,
        breaks: 0,
        capacity: 64,
        watched: false,
    };
    let opening = opening(alloc)?;
    let backends = backends(alloc, workers)?;
    let ran = run_with(
        rt,
        alloc,
        opening,
        run,
        &Open,
        backends,
        |shared: &Shared| -> Tally
            ensures { keeps_events shared.now.keep ≡ true → IsTallyOf result shared.now }
        { tally_of(shared) },
    )?;
    if ran.found.rounds != walkers as u64 * rounds as u64 {
        return Err(AllocError);
    }
    Ok(ran.found)
}
