//! Walkers, workers and an expirer as threads.

ghost use Rattle.std.specs.Prelude.{◌<◌};

use crate::tests::worlds::world_and_ends;
use am_machine::{Answer, Entry, Event};
use am_names::{Errno, FailNo, Place, Trigger};
use am_runner::{Backend, Errand, Gate, Run, Tally, run_threads, run_with};
use am_shared::Shared;
use std::alloc::{AllocError, Global};
use std::process::Abort;
use std::sync::Wait;
use std::sync::atomic::{AtomicU32, Ordering};
use std::test::*;
use std::thread;
use std::thread::Threads;

static PATHS: [&[u8]; 2] = [b"/auto/k0", b"/auto/k1"];

/// How long one worker waits for the other, in turns.
const TURNS: u32 = 10_000_000;

/// Where two workers meet: at their gates, and in their backends. One that comes too late, or holds
/// the lock meanwhile, is missed.
#[derive(Drop)]
struct Meeting {
    gates: AtomicU32,
    mounts: AtomicU32,
    missed: AtomicU32,
}

/// Comes to a place, and waits until two have come.
fn comes(place: &AtomicU32) -> bool {
    place.fetch_add(1, Ordering::SeqCst);
    for _ in 0..TURNS {
        if place.load(Ordering::SeqCst) > 1 {
            return true;
        }
        thread::yield_now();
    }
    false
}

impl Meeting {
    fn at(&self, place: &AtomicU32) {
        if !comes(place) {
            self.missed.fetch_add(1, Ordering::SeqCst);
        }
    }
}

impl Gate for Meeting {
    fn pass(&self, call: u32) {
        if call <= 2 {
            self.at(&self.gates);
        }
    }
}

#[derive(Drop)]
struct Meets<'a> {
    meeting: &'a Meeting,
}

/// Whether a worker is told one of the walkers' paths.
fn is_path(path: &Place) -> bool {
    PATHS.iter().any(|text| path.text() == *text)
}

impl Backend for Meets<'_> {
    fn mount(&mut self, errand: &Errand<'_>) -> Result<(), FailNo> {
        if !is_path(errand.path) {
            self.meeting.missed.fetch_add(1, Ordering::SeqCst);
        }
        self.meeting.at(&self.meeting.mounts);
        Ok(())
    }

    fn umount(&mut self, _trigger: &Trigger, _path: &Place) -> Result<(), FailNo> {
        Ok(())
    }
}

fn is_refused(entry: &Entry, errno: Errno) -> bool {
    match &entry.answer {
        Answer::Refused { errno: other } => *other == errno,
        _ => false,
    }
}

fn is_expiry(entry: &Entry) -> bool {
    matches!(entry.event, Event::Expire { .. }) && !is_refused(entry, Errno::NoMemory)
}

/// What is left when all is over.
#[derive(Clone, Copy)]
struct End {
    /// No walker resumed before it was released.
    are_released: bool,
    /// How often an expiry was asked for.
    expiries: usize,
    /// How many notes wait for room in the pipe.
    unsent: usize,
}

fn end_of(shared: &Shared) -> End {
    let history = shared.history();
    End {
        are_released: !history
            .iter()
            .any(|entry| is_refused(entry, Errno::NotReleased)),
        expiries: history.iter().filter(|entry| is_expiry(*entry)).count(),
        unsent: shared.unsent(),
    }
}

/// Two walkers walk to a key each, and each of two workers serves one of them. So each worker comes
/// to its gate and to its mount while the other one is there. A key is mounted once more where it expires
/// before its walker, who was released, is inside.
fn two_at_once<R: Threads + Wait + Abort + Sync>(
    rt: &R,
    alloc: Global,
    capacity: usize,
) -> Result<(), AllocError>
    requires { 0 < capacity }
{
    let meeting = Meeting {
        gates: AtomicU32::new(0),
        mounts: AtomicU32::new(0),
        missed: AtomicU32::new(0),
    };
    let mut backends = Vec::new(alloc);
    backends.push(Meets { meeting: &meeting })?;
    backends.push(Meets { meeting: &meeting })?;
    let run = Run {
        point: b"/auto",
        paths: &PATHS,
        walkers: 2,
        rounds: 1,
        breaks: 0,
        capacity,
        watched: false,
    };
    let opening = world_and_ends(alloc, b"* srv:/any")?;
    let ran = run_with(
        rt,
        alloc,
        opening,
        run,
        &meeting,
        backends,
        |shared| end_of(shared),
    )?;
    assert_eq!(rt; meeting.missed.load(Ordering::SeqCst), 0);
    assert_eq!(rt; meeting.gates.load(Ordering::SeqCst), 2);
    assert!(rt;
        meeting.mounts.load(Ordering::SeqCst) >= 2,
        "each key is mounted"
    );
    assert_eq!(rt; ran.backends.len(), 2);
    assert!(rt; ran.left.is_empty(), "each note was taken");
    assert!(rt; ran.found.are_released, "no walker resumes too early");
    assert_eq!(rt; ran.found.expiries, 1);
    assert_eq!(rt; ran.found.unsent, 0);
    Ok(())
}

#[test]
fn two_at_once_with_room(rt: HostRuntime) -> Result<(), Fail> {
    two_at_once(&rt, rt.alloc(), 64)?;
    Ok(())
}

#[test]
fn two_at_once_with_one_place(rt: HostRuntime) -> Result<(), Fail> {
    two_at_once(&rt, rt.alloc(), 1)?;
    Ok(())
}

fn tally(count: u64) -> Tally {
    Tally {
        rounds: count,
        entered: count,
        left: count,
    }
}

#[test]
fn four_walkers_and_two_workers(rt: HostRuntime) -> Result<(), Fail> {
    let made = run_threads(&rt, rt.alloc(), 4, 2, 10)?;
    assert_eq!(rt; made, tally(40));
    Ok(())
}

#[test]
fn one_walker_and_one_worker(rt: HostRuntime) -> Result<(), Fail> {
    let made = run_threads(&rt, rt.alloc(), 1, 1, 3)?;
    assert_eq!(rt; made, tally(3));
    Ok(())
}
