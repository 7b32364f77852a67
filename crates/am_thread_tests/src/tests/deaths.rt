//! The daemon dies, again and again, while walkers walk and workers serve. What is seen stays
//! lawful, and what fails has the number that the backend told.

use crate::tests::sizes::number;
use crate::tests::worlds::world_and_failures;
use am_machine::{Answer, Entry, Event};
use am_names::{Errno, FailNo, Place, Seconds, Trigger};
use am_runner::{Backend, Errand, Gate, Run, run_with};
use am_shared::Shared;
use am_world::laws::trace_holds;
use std::alloc::{AllocError, Global};
use std::process::Abort;
use std::sync::Wait;
use std::sync::atomic::{AtomicU32, Ordering};
use std::test::*;
use std::thread::Threads;

/// Every key is mounted from one place.
const ANY: &[u8] = b"* srv:/any";

static PATHS: [&[u8]; 3] = [b"/auto/k0", b"/auto/k1", b"/auto/k2"];

/// How many walkers make how many rounds beside how many workers, and how often the daemon dies.
#[derive(Clone, Copy)]
struct Size {
    walkers: u32,
    workers: u32,
    rounds: u32,
    breaks: u32,
}

/// What the gate makes. `bench/deaths.py` has more made.
const GATE: Size = Size {
    walkers: 4,
    workers: 2,
    rounds: 10,
    breaks: 10,
};

/// Nothing is held up.
struct Open;

impl Gate for Open {
    fn pass(&self, _call: u32) {}
}

/// One backend for all workers: every second mount fails, with one number and the other in turn.
#[derive(Drop)]
struct FailsInTurn<'a> {
    mounts: &'a AtomicU32,
}

impl Backend for FailsInTurn<'_> {
    fn mount(&mut self, _errand: &Errand<'_>) -> Result<(), FailNo> {
        match self.mounts.fetch_add(1, Ordering::SeqCst) % 4 {
            1 => Err(FailNo::EPERM),
            3 => Err(FailNo::ENOSPC),
            _ => Ok(()),
        }
    }

    fn umount(&mut self, _trigger: &Trigger, _path: &Place) -> Result<(), FailNo> {
        Ok(())
    }
}

/// What is left when all is over.
#[derive(Clone, Copy)]
struct End {
    is_lawful: bool,
    /// How many acts failed with one number, and with the other.
    failed: [usize; 2],
    /// How often the daemon died, and attached again.
    deaths: usize,
    reattachments: usize,
}

fn is_failed(entry: &Entry, no: FailNo) -> bool {
    match &entry.event {
        Event::Act { failure, .. } => *failure == Some(no),
        _ => false,
    }
}

fn is_out_of_memory(entry: &Entry) -> bool {
    match &entry.answer {
        Answer::Refused { errno } => *errno == Errno::NoMemory,
        _ => false,
    }
}

fn is_death(entry: &Entry) -> bool {
    matches!(entry.event, Event::Die) && !is_out_of_memory(entry)
}

fn is_reattachment(entry: &Entry) -> bool {
    matches!(entry.event, Event::Reattach { .. }) && !is_out_of_memory(entry)
}

/// How many acts failed with this number.
fn failed(history: &[Entry], no: FailNo) -> usize {
    history.iter().filter(|entry| is_failed(*entry, no)).count()
}

fn end_of(shared: &Shared) -> End {
    let history = shared.history();
    End {
        is_lawful: trace_holds(shared.world().trace()),
        failed: [
            failed(history, FailNo::EPERM),
            failed(history, FailNo::ENOSPC),
        ],
        deaths: history.iter().filter(|entry| is_death(*entry)).count(),
        reattachments: history
            .iter()
            .filter(|entry| is_reattachment(*entry))
            .count(),
    }
}

fn size_of(rt: &HostRuntime) -> Size {
    Size {
        walkers: number(rt, "DEATHS_WALKERS", GATE.walkers),
        workers: number(rt, "DEATHS_WORKERS", GATE.workers),
        rounds: number(rt, "DEATHS_ROUNDS", GATE.rounds),
        breaks: number(rt, "DEATHS_BREAKS", GATE.breaks),
    }
}

/// The daemon dies in a world in which a failure lasts so many seconds.
fn plays<R: Threads + Wait + Abort + Sync>(
    rt: &R,
    alloc: Global,
    size: Size,
    negative: Seconds,
) -> Result<(), AllocError> {
    let mounts = AtomicU32::new(0);
    let mut backends = Vec::new(alloc);
    for _ in 0..size.workers {
        backends.push(FailsInTurn { mounts: &mounts })?;
    }
    let run = Run {
        point: b"/auto",
        paths: &PATHS,
        walkers: size.walkers,
        rounds: size.rounds,
        breaks: size.breaks,
        capacity: 64,
        watched: true,
    };
    assert!(rt;
        !backends.is_empty() && backends.len() < 1_000,
        "some workers"
    );
    assert!(rt; run.walkers < 1_000, "some walkers");
    let opening = world_and_failures(alloc, ANY, negative)?;
    let end = run_with(
        rt,
        alloc,
        opening,
        run,
        &Open,
        backends,
        |shared| end_of(shared),
    )?
    .found;
    assert!(rt; end.is_lawful, "the trace is lawful");
    let mounts = mounts.load(Ordering::SeqCst) as usize;
    assert!(rt;
        end.failed[0] == (mounts + 2) / 4,
        "each first failure is told"
    );
    assert!(rt; end.failed[1] == mounts / 4, "each second failure is told");
    assert_eq!(rt; end.deaths, size.breaks as usize);
    assert_eq!(rt; end.reattachments, size.breaks as usize);
    Ok(())
}

#[test]
fn daemon_dies(rt: HostRuntime) -> Result<(), Fail> {
    plays(&rt, rt.alloc(), size_of(&rt), Seconds(0))?;
    Ok(())
}

/// All walks are made at moment 0, so a failure lasts until its file system is catatonic. Nobody
/// waits for ever where walks are refused meanwhile.
#[test]
fn daemon_dies_where_failures_last(rt: HostRuntime) -> Result<(), Fail> {
    plays(&rt, rt.alloc(), size_of(&rt), Seconds(1))?;
    Ok(())
}
