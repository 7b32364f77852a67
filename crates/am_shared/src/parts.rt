//! What a shared world is made of, and an event more.

ghost use Rattle.std.specs.Prelude.{◌≡◌, ◌≤◌, ◌<◌, ◌+◌, ◌^◌, IfSome, OnOk, length, vec_len, vec_capacity};
ghost use Rattle.std.specs.VecDeque.{deque_len, deque_capacity};
ghost use Rattle.am_world.specs.Capacity.{state_of};
ghost use Rattle.am_shared.specs.Keeping.{handed_before};
ghost use Rattle.am_shared.specs.Notes.{IsFlushedSince};
ghost use Rattle.am_shared.specs.Parts.{HasRoom, IsCounted, sharing_of};
ghost use Rattle.am_shared.specs.Sharing.{Applies, IsKept, all_taken, left_of};

use crate::keep::Keep;
use crate::notes::{collect, flush};
use am_machine::{Answer, Entry, Event};
use am_pipe::{Note, PutEnd};
use am_trail::Trail;
use am_world::World;
use std::alloc::{AllocError, Global};
use std::collections::VecDeque;
use std::mem;
use std::sync::Wait;

/// What a shared world is made of.
#[derive(Drop)]
pub struct Parts {
    pub world: World,
    /// The events that were taken, of which the program keeps no word.
    pub taken: Trail<Entry>,
    /// How many they are.
    pub before: u64,
    /// The events that happened to the world since, each with its answer.
    pub history: Vec<Entry>,
    pub put: PutEnd,
    /// The notes that found no room in the pipe, in order.
    pub unsent: VecDeque<Note>,
    pub keep: Keep,
}

/// An event that was made: its position in the history, from 1, and its answer.
#[derive(Drop)]
pub struct Applied {
    pub position: u64,
    pub answer: Answer,
}

/// Room for so many events.
pub fn reserve(parts: &mut Parts, events: usize) -> Result<(), AllocError>
    requires { IsCounted parts.old }
    ensures room { OnOk result (HasRoom parts.new events) }
    ensures same { sharing_of parts.new ≡ sharing_of parts.old }
    ensures counted { IsCounted parts.new }
{
    parts.history.reserve(events)?;
    parts.unsent.reserve(events)?;
    Ok(())
}

/// How many events there were.
pub fn count(parts: &Parts) -> u64
    requires { IsCounted parts.now }
    ensures number { result ≡ parts.now.before + vec_len parts.now.history }
    ensures all { result ≡ length (sharing_of parts.now).history }
{
    parts.before + parts.history.len() as u64
}

/// The position of the next event, if it fits.
pub fn next(parts: &Parts) -> Option<u64>
    requires { IsCounted parts.now }
    ensures { IfSome result (λ position.
        (position ≡ parts.now.before + vec_len parts.now.history + 1) × (position < 2 ^ 64)) }
{
    count(parts).checked_add(1)
}

/// Takes the events that are left.
pub fn take(alloc: Global, parts: &mut Parts) -> Vec<Entry>
    requires counted { IsCounted parts.old }
    ensures entries { result.items ≡ left_of (sharing_of parts.old) }
    ensures taken { sharing_of parts.new ≡ all_taken (sharing_of parts.old) }
    ensures counted { IsCounted parts.new }
{
    let entries = mem::replace(&mut parts.history, Vec::new(alloc));
    parts.taken = parts.taken.and(&entries);
    parts.before += entries.len() as u64;
    entries
}

/// Lets go what was observed before, unless all of it is kept.
fn let_go(alloc: Global, keep: Keep, world: &mut World)
    ensures trace { world.new.trace ≡ world.old.trace }
    ensures same { state_of world.new ≡ state_of world.old }
    ensures handed { world.new.handed ≡ handed_before keep world.old }
{
    if !keep.has_seen() {
        world.let_go(alloc);
    }
}

/// Makes an event, which has this position, and puts the note that it comes with.
pub fn make<R: Wait>(
    rt: &R,
    alloc: Global,
    parts: &mut Parts,
    event: Event,
    position: u64,
) -> Applied
    requires kept { IsKept (sharing_of parts.old) }
    requires room { HasRoom parts.old 1 }
    requires counted { IsCounted parts.old }
    requires position { (position ≡ parts.old.before + vec_len parts.old.history + 1)
        × (position < 2 ^ 64) }
    ensures counted { IsCounted parts.new }
    ensures kept { IsKept (sharing_of parts.new) }
    ensures one { Applies (sharing_of parts.old) (sharing_of parts.new)
        event result.position result.answer }
    ensures flushed { IsFlushedSince parts.old.put.looks parts.new.put parts.new.unsent.items }
{
    let_go(alloc, parts.keep, &mut parts.world);
    let seen = parts.world.trace().len();
    let (kept, answer) = parts.world.step_pair(alloc, &event);
    parts.history.push_reserved(Entry {
        event,
        answer: kept,
    });
    collect(&mut parts.unsent, parts.world.trace(), seen);
    flush(rt, &mut parts.put, &mut parts.unsent);
    Applied { position, answer }
}
