//! Events and answers by themselves: how large they are, a long list of them, and answers with
//! numbers that no script comes to.

use am_names::{JobId, MountId, MountIds};
use am_script::answer_line::push_answer;
use am_script::event_line::read_event;
use am_world::{Answer, Event, Obs};
use std::alloc::{AllocError, Global};
use std::mem::size_of;

/// Each reader hands its event on by value, so that a large one is copied many times, and a world
/// keeps all that is ever seen. An answer may have a place in itself, of 40 bytes where it is short.
fn are_small() -> bool {
    size_of::<Event>() <= 320 && size_of::<Answer>() <= 56 && size_of::<Obs>() <= 48
}

#[test]
fn events_are_small(rt: HostRuntime) {
    assert!(rt; are_small());
}

/// How many events a long list has.
const MANY: usize = 100_000;

fn copies_of(alloc: Global, event: &Event) -> Result<Vec<Event>, AllocError> {
    let mut events = Vec::with_capacity(alloc, MANY)?;
    for _ in 0..MANY {
        events.push(event.copy(alloc)?)?;
    }
    Ok(events)
}

fn has_many_walks(alloc: Global) -> Result<bool, AllocError> {
    match read_event(alloc, b"walk 7 1 /srv/data 100 room")? {
        Some(event) => Ok(copies_of(alloc, &event)?.len() == MANY),
        None => Ok(false),
    }
}

/// `bench/memory.py` tells how much memory it takes.
#[test]
fn a_long_list_of_walks(rt: HostRuntime) {
    let has = has_many_walks(rt.alloc());
    assert!(rt; matches!(has, Ok(true)));
}

fn is_written(alloc: Global, answer: &Answer, wanted: &[u8]) -> Result<bool, AllocError> {
    let mut line = Vec::new(alloc);
    push_answer(&mut line, answer)?;
    Ok(line.as_slice() == wanted)
}

fn gone(alloc: Global, numbers: &[u64]) -> Result<Answer, AllocError> {
    let mut mounts = Vec::new(alloc);
    for number in numbers {
        mounts.push(MountId(*number))?;
    }
    Ok(Answer::Gone {
        mounts: MountIds::of(mounts),
    })
}

fn are_rare_answers(alloc: Global) -> Result<bool, AllocError> {
    let job = Answer::Job {
        job: JobId(4_294_967_295),
    };
    let some = gone(alloc, &[3, 4, 18_446_744_073_709_551_615])?;
    let none = gone(alloc, &[])?;
    Ok(
        is_written(alloc, &job, b"job 4294967295\n")?
            && is_written(alloc, &some, b"gone 3 4 18446744073709551615\n")?
            && is_written(alloc, &none, b"gone\n")?,
    )
}

#[test]
fn rare_answers(rt: HostRuntime) {
    let are = are_rare_answers(rt.alloc());
    assert!(rt; matches!(are, Ok(true)));
}
