//! A pipe whose ends are in threads of their own: one puts, and four take.

ghost use Rattle.std.specs.Prelude.{◌≡◌, ◌<◌, vec_len, length, All};

use crate::tests::ends::{Ends, ends_of, left_in, note};
use am_pipe::{Note, PutEnd, TakeEnd};
use std::alloc::{AllocError, Global};
use std::process::Abort;
use std::sync::Wait;
use std::sync::atomic::{AtomicBool, AtomicU64, Ordering};
use std::test::*;
use std::thread;
use std::thread::{Threads, join};

/// How many notes are put. The note at a position has the position as its token.
const NOTES: u32 = 100_000;

const TAKERS: usize = 4;

/// How often a put is tried. Where no thread takes, the test fails by that, and ends.
const TRIES: u32 = 10_000_000;

/// What the threads saw.
#[derive(Drop)]
struct Seen {
    /// How often each position was taken, the first at 0.
    times: Vec<AtomicU64>,
    /// Positions that didn't rise for their taker, and notes that are not those put there.
    wrong: AtomicU64,
    /// The last note was put.
    over: AtomicBool,
}

fn nothing_seen_once(alloc: Global) -> Result<Seen, AllocError> {
    let mut times = Vec::with_capacity(alloc, NOTES as usize)?;
    for _ in 0..NOTES {
        times.push(AtomicU64::new(0))?;
    }
    Ok(Seen {
        times,
        wrong: AtomicU64::new(0),
        over: AtomicBool::new(false),
    })
}

/// Asked for once more where memory was refused.
fn nothing_seen(alloc: Global) -> Result<Seen, AllocError> {
    match nothing_seen_once(alloc) {
        Ok(seen) => Ok(seen),
        Err(_) => nothing_seen_once(alloc),
    }
}

/// Whether this is the note that was put at its position.
fn is_as_put(position: u64, found: &Note) -> bool {
    match u32::try_from(position) {
        Ok(token) => *found == note(token),
        Err(_) => false,
    }
}

fn counter(seen: &Seen, position: u64) -> Option<&AtomicU64> {
    let index = usize::try_from(position.checked_sub(1)?).ok()?;
    seen.times.get(index)
}

/// Marks a note as taken, behind the position that its taker took last.
fn mark(seen: &Seen, last: u64, position: u64, found: &Note) {
    if position <= last || !is_as_put(position, found) {
        seen.wrong.fetch_add(1, Ordering::SeqCst);
    }
    match counter(seen, position) {
        Some(times) => times.fetch_add(1, Ordering::SeqCst),
        None => seen.wrong.fetch_add(1, Ordering::SeqCst),
    };
}

fn put_one<R: Wait>(rt: &R, put: &mut PutEnd, token: u32) -> bool
    ensures { (put.new.pipe ≡ put.old.pipe) × (put.new.takers ≡ put.old.takers) }
{
    for _ in 0..TRIES {
        if put.put(rt, note(token)).is_ok() {
            return true;
        }
        thread::yield_now();
    }
    false
}

fn put_all<R: Wait>(rt: &R, seen: &Seen, mut put: PutEnd) -> PutEnd
    ensures { (result.pipe ≡ put.pipe) × (result.takers ≡ put.takers) }
{
    for index in 0..NOTES {
        if !put_one(rt, &mut put, index + 1) {
            break;
        }
    }
    seen.over.store(true, Ordering::SeqCst);
    put
}

/// Takes until the last note was put, and may leave some.
fn take_from<R: Wait>(rt: &R, seen: &Seen, end: &mut TakeEnd)
    ensures { end.new.pipe ≡ end.old.pipe }
{
    let mut last = 0;
    for _ in rt.forever() {
        if seen.over.load(Ordering::SeqCst) {
            break;
        }
        match end.take(rt) {
            Some((position, found)) => {
                mark(seen, last, position, &found);
                last = position;
            }
            None => thread::yield_now(),
        }
    }
}

fn take_all<R: Threads + Wait + Sync>(rt: &R, seen: &Seen, mut takers: Vec<TakeEnd>) -> Vec<TakeEnd>
    ensures len { vec_len result ≡ vec_len takers }
    ensures pipe { (id : _) → All (λ t. t.pipe ≡ id) takers.items
        → All (λ t. t.pipe ≡ id) result.items }
{
    thread::for_each_mut(
        rt,
        takers.as_mut_slice(),
        TAKERS,
        &|_, end| take_from(rt, seen, end),
    );
    takers
}

fn share<R: Threads + Wait + Sync>(rt: &R, seen: &Seen, ends: Ends) -> Ends {
    let Ends { put, takers } = ends;
    let (put, takers) = join(
        rt,
        || -> PutEnd
            ensures { (result.pipe ≡ put.pipe) × (result.takers ≡ put.takers) }
        { put_all(rt, seen, put) },
        || -> Vec<TakeEnd>
            ensures len { vec_len result ≡ vec_len takers }
            ensures pipe { (id : _) → All (λ t. t.pipe ≡ id) takers.items
                → All (λ t. t.pipe ≡ id) result.items }
        { take_all(rt, seen, takers) },
    );
    Ends { put, takers }
}

fn mark_all(seen: &Seen, left: &[(u64, Note)]) {
    let mut last = 0;
    for (position, found) in left {
        mark(seen, last, *position, found);
        last = *position;
    }
}

fn once_each(seen: &Seen) -> bool {
    seen.times
        .iter()
        .all(|times| times.load(Ordering::SeqCst) == 1)
}

/// Each position is taken once, or is left: the positions rise, and each note is the one put there.
fn shares<R: Threads + Wait + Abort + Sync>(
    rt: &R,
    alloc: Global,
    capacity: usize,
) -> Result<(), AllocError>
    requires { 0 < capacity }
{
    let seen = nothing_seen(alloc)?;
    let ends = share(rt, &seen, ends_of(alloc, capacity, TAKERS)?);
    let left = left_in(rt, alloc, ends)?;
    assert!(rt;
        left.len() <= capacity,
        "no more is left than there is room for"
    );
    mark_all(&seen, left.as_slice());
    assert_eq!(rt; seen.wrong.load(Ordering::SeqCst), 0);
    assert!(rt; once_each(&seen), "each position once");
    Ok(())
}

#[test]
fn one_place_for_five_threads(rt: HostRuntime) -> Result<(), Fail> {
    shares(&rt, rt.alloc(), 1)?;
    Ok(())
}

#[test]
fn sixty_four_places_for_five_threads(rt: HostRuntime) -> Result<(), Fail> {
    shares(&rt, rt.alloc(), 64)?;
    Ok(())
}
