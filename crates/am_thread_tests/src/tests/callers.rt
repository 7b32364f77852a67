//! The events of one worked example, by callers in turn. Run with each allocation refused in turn
//! too: a call that finds no memory keeps no receipt, and goes on when it is made again.

ghost use Rattle.am_shared.specs.{opening_of};
ghost use Rattle.am_shared.specs.declared.keep.Keep.TheVariants as keeps;
ghost use Rattle.std.specs.Prelude.{◌≡◌, ◌<◌, []};

use crate::tests::worlds::{call, is_line, world_and_ends};
use am_names::Errno;
use am_pipe::{Note, PutEnd, TakeEnd, pipe};
use am_shared::{Caller, Keep, Logbook, Opened, Opening, Receipt, Shared, gather, share};
use am_world::Answer;
use std::alloc::{AllocError, Global};
use std::marker::Brand;
use std::process::Abort;
use std::sync::Wait;
use std::test::*;

const HOMES: &[u8] = b"home -fstype=nfs srv:/home\nwork srv:/work";

/// The line of an event, and that of its answer.
#[derive(Clone, Copy)]
struct Step(&'static [u8], &'static [u8]);

/// A walk meets a mount trap, and arrives once the daemon has mounted.
static SERVED: [Step; 10] = [
    Step(b"attach /auto", b"fs 2 attach 1 mount 2\n"),
    Step(b"walk 7 0 /auto/home 100 room", b"wait 1\n"),
    Step(b"resume 7 100 room", b"err 11\n"),
    Step(b"deliver 1", b"job 1\n"),
    Step(b"act 1 ok", b"did mkdir\n"),
    Step(b"act 1 ok", b"did mount 3\n"),
    Step(b"act 1 ok", b"did record\n"),
    Step(b"act 1 ok", b"did reply\n"),
    Step(b"resume 7 101 room", b"at 3 /\n"),
    Step(b"record 2 home", b"record mounted 3\n"),
];

/// The packet of token 1 up to the name's end, as `struct autofs_v5_packet` lays it out; zeros
/// follow.
static PACKET: [u8; 48] = [
    5, 0, 0, 0, 3, 0, 0, 0, 1, 0, 0, 0, 2, 0, 0, 0, 1, 0, 0, 0, 0, 0, 0, 0, 0, 0, 0, 0, 0, 0, 0, 0,
    7, 0, 0, 0, 7, 0, 0, 0, 4, 0, 0, 0, b'h', b'o', b'm', b'e',
];

fn is_out_of_memory(answer: &Answer) -> bool {
    match answer {
        Answer::Refused { errno } => *errno == Errno::NoMemory,
        _ => false,
    }
}

/// What came of a call: it was answered as it should be, or memory ran out in the world, at this
/// position of the history.
#[derive(Clone, Copy, PartialEq)]
enum Came {
    Right(u64),
    RanOut(u64),
    Wrong,
}

fn outcome_of(alloc: Global, receipt: &Receipt, wanted: &[u8]) -> Came {
    if is_out_of_memory(&receipt.answer) {
        return Came::RanOut(receipt.position);
    }
    if is_line(alloc, &receipt.answer, wanted) || is_line(alloc, &receipt.answer, wanted) {
        return Came::Right(receipt.position);
    }
    Came::Wrong
}

/// Calls once. Where there is no receipt, none was kept.
fn call_once<L: Opened, R: Wait>(
    rt: &R,
    alloc: Global,
    caller: &mut Caller<L>,
    step: &Step,
) -> Option<Came> {
    let kept = caller.receipts().len();
    if let Some(receipt) = call(rt, alloc, caller, step.0) {
        return Some(outcome_of(alloc, receipt, step.1));
    }
    if caller.receipts().len() != kept {
        return Some(Came::Wrong);
    }
    None
}

/// Calls, and calls again where there was no memory. Tells the position of the right answer.
fn call_in_the_end<L: Opened, R: Wait>(
    rt: &R,
    alloc: Global,
    caller: &mut Caller<L>,
    step: &Step,
    last: u64,
) -> Option<u64> {
    let mut last = last;
    for _ in 0..2 {
        match call_once(rt, alloc, caller, step) {
            Some(Came::Right(position)) if position == last.wrapping_add(1) => {
                return Some(position);
            }
            Some(Came::RanOut(position)) if position == last.wrapping_add(1) => last = position,
            Some(_) => return None,
            None => {}
        }
    }
    None
}

/// Each caller makes the next event in turn. Tells the position of the last.
fn plays<L: Opened, R: Wait + Abort>(rt: &R, alloc: Global, callers: &mut [Caller<L>]) -> u64 {
    let mut position = 0;
    let mut turn = 0_usize;
    for step in &SERVED {
        if turn >= callers.len() {
            turn = 0;
        }
        let Some(caller) = callers.get_mut(turn) else {
            panic!(rt; "no caller");
        };
        let Some(next) = call_in_the_end(rt, alloc, caller, step, position) else {
            panic!(rt; "a call behind {position}");
        };
        position = next;
        turn = turn.wrapping_add(1);
    }
    position
}

/// What is left when all is over: how many receipts there are, whether they match the history, and
/// how many events of the history met no want of memory.
#[derive(Drop)]
struct End {
    count: u64,
    test: bool,
    calls: usize,
}

fn end_of(shared: &Shared, count: u64, test: bool) -> End {
    let made = shared.history().iter();
    let calls = made
        .filter(|entry| !is_out_of_memory(&entry.answer))
        .count();
    End { count, test, calls }
}

fn is_packet(found: Option<(u64, Note)>) -> bool {
    let Some((position, note)) = found else {
        return false;
    };
    let (front, rest) = note.bytes.split_at(48);
    position == 1
        && note.token.0 == 1
        && note.attach.0 == 1
        && front == PACKET.as_slice()
        && rest.iter().all(|byte| *byte == 0)
}

/// Shares a world among so many callers, and plays the example.
fn played<L: Opened, R: Wait + Abort>(
    rt: &R,
    alloc: Global,
    logbook: Logbook,
    begun: Opening,
    put: PutEnd,
    callers: u32,
) -> Result<(), AllocError>
    requires logbook { L.logbook ≡ logbook }
    requires callers { (L.callers ≡ callers) × (0 < callers) }
    requires opening { L.opening ≡ opening_of begun }
    requires put { (put.sent ≡ []) × (L.pipe ≡ put.pipe) × (L.takers ≡ put.takers) × (L.room ≡ put.room) }
    requires keep { L.keep ≡ keeps.Events }
{
    let mut made = share::<L>(alloc, logbook, begun, put, callers, Keep::Events)?;
    let last = plays(rt, alloc, made.as_mut_slice());
    let gathered = gather(rt, made);
    let end = end_of(&gathered.shared, gathered.count, gathered.is_matched);
    assert!(rt; end.count == last, "the number of calls");
    assert!(rt; end.calls == SERVED.len(), "each call was made once");
    assert!(rt; end.test, "each call has its receipt");
    Ok(())
}

fn takes<R: Wait>(rt: &R, takers: &mut [TakeEnd]) -> Option<(u64, Note)> {
    takers.first_mut()?.take(rt)
}

fn plays_once<R: Wait + Abort>(rt: &R, alloc: Global, callers: u32) -> Result<(), AllocError>
    requires { 0 < callers }
{
    let begun = world_and_ends(alloc, HOMES)?;
    let (put, mut takers) = pipe(alloc, 4, 1)?;
    let logbook = Logbook::new(alloc)?;
    played::<Brand, R>(rt, alloc, logbook, begun, put, callers)?;
    let taken = takes(rt, takers.as_mut_slice());
    assert!(rt; is_packet(taken), "the packet of token 1");
    let more = takes(rt, takers.as_mut_slice());
    assert!(rt; more.is_none(), "one packet was queued");
    Ok(())
}

/// Played anew where there was no memory to share the world.
fn plays_in_the_end<R: Wait + Abort>(rt: &R, alloc: Global, callers: u32) -> Result<(), AllocError>
    requires { 0 < callers }
{
    match plays_once(rt, alloc, callers) {
        Ok(()) => Ok(()),
        Err(_) => plays_once(rt, alloc, callers),
    }
}

#[test]
fn one_caller(rt: HostRuntime) -> Result<(), Fail> {
    plays_in_the_end(&rt, rt.alloc(), 1)?;
    Ok(())
}

#[test]
fn two_callers_in_turn(rt: HostRuntime) -> Result<(), Fail> {
    plays_in_the_end(&rt, rt.alloc(), 2)?;
    Ok(())
}
