//! A history that its callers take while they make it. The pieces and what is left are the whole.

ghost use Rattle.am_shared.specs.{opening_of};
ghost use Rattle.am_shared.specs.declared.keep.Keep.TheVariants as keeps;
ghost use Rattle.std.specs.Prelude.{◌≡◌, [], vec_len, IfOk};

use crate::tests::worlds::{call, world_and_ends};
use am_machine::Entry;
use am_pipe::{PutEnd, pipe};
use am_shared::{Caller, Keep, Logbook, Opened, Opening, Receipt, Taken, gather, share};
use std::alloc::{AllocError, Global};
use std::marker::Brand;
use std::process::Abort;
use std::sync::Wait;
use std::test::*;
use std::thread;
use std::thread::Threads;

/// How many threads there are, and how many events each of them makes.
const THREADS: u32 = 4;

const EVENTS: u32 = 50;

/// A caller, with what it took.
#[derive(Drop)]
struct Part<L: Opened> {
    caller: Caller<L>,
    pieces: Vec<Taken>,
}

/// A mount comes, or goes again.
fn makes<L: Opened, R: Wait>(
    rt: &R,
    alloc: Global,
    part: &mut Part<L>,
    thread: usize,
    turn: u32,
) -> Result<bool, AllocError> {
    let word = if turn % 2 == 0 { "mount" } else { "umount" };
    let line = format!(in alloc; "{word} 0 /m{thread}")?;
    Ok(call(rt, alloc, &mut part.caller, line.as_bytes()).is_some())
}

fn takes<L: Opened, R: Wait>(rt: &R, alloc: Global, part: &mut Part<L>) -> Result<(), AllocError>
    requires { L.keep ≡ keeps.Nothing }
{
    part.pieces.reserve(1)?;
    part.pieces
        .push_reserved(part.caller.take_history(rt, alloc));
    Ok(())
}

/// Makes events, and takes the history behind every third of them. Without memory a thread makes
/// fewer.
fn takes_part<L: Opened, R: Wait>(
    rt: &R,
    alloc: Global,
    thread: usize,
    part: &mut Part<L>,
) -> Result<(), AllocError>
    requires { L.keep ≡ keeps.Nothing }
{
    for turn in 0..EVENTS {
        makes(rt, alloc, part, thread, turn)?;
        if turn % 3 == 2 {
            takes(rt, alloc, part)?;
        }
    }
    Ok(())
}

fn is_entry(receipt: &Receipt, position: u64, entry: &Entry) -> bool {
    receipt.position == position
        && receipt.event.is_same(&entry.event)
        && receipt.answer.is_same(&entry.answer)
}

/// Whether a receipt tells of the entry at its position.
fn is_told<L: Opened>(parts: &[Part<L>], position: u64, entry: &Entry) -> bool {
    for part in parts {
        for receipt in part.caller.receipts() {
            if is_entry(receipt, position, entry) {
                return true;
            }
        }
    }
    false
}

/// The piece that begins behind so many entries, unless nothing is in it.
fn piece_behind<L: Opened>(parts: &[Part<L>], before: u64) -> Option<&[Entry]> {
    for part in parts {
        for piece in &part.pieces {
            if piece.before == before && !piece.entries.is_empty() {
                return Some(piece.entries.as_slice());
            }
        }
    }
    None
}

/// How many entries the pieces have, one behind the other. None where no receipt tells one of them.
fn told_in_order<L: Opened>(parts: &[Part<L>]) -> Option<u64> {
    let mut before = 0_u64;
    // A piece has an event, and one event more comes behind those of the threads.
    for _ in 0..THREADS * EVENTS + 2 {
        let Some(piece) = piece_behind(parts, before) else {
            return Some(before);
        };
        for entry in piece {
            before = before.checked_add(1)?;
            if !is_told(parts, before, entry) {
                return None;
            }
        }
    }
    None
}

fn entries_in<L: Opened>(parts: &[Part<L>]) -> u64 {
    let mut entries = 0_u64;
    for part in parts {
        for piece in &part.pieces {
            entries = entries.wrapping_add(piece.entries.len() as u64);
        }
    }
    entries
}

fn parts_of<L: Opened>(alloc: Global, callers: Vec<Caller<L>>) -> Result<Vec<Part<L>>, AllocError> {
    let mut parts = Vec::with_capacity(alloc, callers.len())?;
    for caller in callers {
        parts.push(Part {
            caller,
            pieces: Vec::new(alloc),
        })?;
    }
    Ok(parts)
}

/// The callers again, without what they took.
fn callers_of<L: Opened>(alloc: Global, parts: Vec<Part<L>>) -> Result<Vec<Caller<L>>, AllocError>
    ensures { IfOk result (λ callers. vec_len callers ≡ vec_len parts) }
{
    let mut callers = Vec::with_capacity(alloc, parts.len())?;
    for part in parts {
        callers.push_reserved(part.caller);
    }
    Ok(callers)
}

/// Each thread takes part, and then one makes an event that nobody takes.
fn all_take<L: Opened + Send + Sync, R: Threads + Wait + Abort + Sync>(
    rt: &R,
    alloc: Global,
    logbook: Logbook,
    begun: Opening,
    put: PutEnd,
) -> Result<(), AllocError>
    requires logbook { (L.logbook ≡ logbook) × (L.callers ≡ 4) }
    requires opening { L.opening ≡ opening_of begun }
    requires put { (put.sent ≡ []) × (L.pipe ≡ put.pipe) × (L.takers ≡ put.takers) × (L.room ≡ put.room) }
    requires keep { L.keep ≡ keeps.Nothing }
{
    let callers = share::<L>(alloc, logbook, begun, put, THREADS, Keep::Nothing)?;
    let mut parts = parts_of(alloc, callers)?;
    thread::for_each_mut(
        rt,
        parts.as_mut_slice(),
        THREADS as usize,
        &|thread, part| -> ()
            requires { L.keep ≡ keeps.Nothing }
        {
            // Without memory a thread ends early.
            let _ = takes_part(rt, alloc, thread, part);
        },
    );
    let mut last = parts.pop().ok_or(AllocError)?;
    let is_made = makes(rt, alloc, &mut last, 3, 1)?;
    parts.push(last)?;
    let taken = told_in_order(parts.as_slice());
    assert!(rt;
        taken == Some(entries_in(parts.as_slice())),
        "the pieces are in order"
    );
    let callers = callers_of(alloc, parts)?;
    if callers.len() != 4 {
        return Err(AllocError);
    }
    let gathered = gather(rt, callers);
    let shared = gathered.shared;
    assert!(rt; taken == Some(shared.taken()), "so many were taken");
    assert!(rt; !is_made || !shared.history().is_empty(), "one is left");
    let left = shared.history().len() as u64;
    assert!(rt;
        taken == gathered.count.checked_sub(left),
        "the others are left"
    );
    assert!(rt; shared.count() == gathered.count, "each call");
    assert!(rt; gathered.is_matched, "each has its receipt");
    Ok(())
}

#[test]
fn a_history_is_taken_in_pieces(rt: HostRuntime) -> Result<(), Fail> {
    let alloc = rt.alloc();
    let begun = world_and_ends(alloc, b"* srv:/any")?;
    let (put, _takers) = pipe(alloc, 1, 1)?;
    let logbook = Logbook::new(alloc)?;
    all_take::<Brand, HostRuntime>(&rt, alloc, logbook, begun, put)?;
    Ok(())
}
