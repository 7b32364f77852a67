//! The notes of what the kernel queued, on their way into the pipe.

ghost use Rattle.std.specs.Prelude.{◌≡◌, ◌≤◌, ◌+◌, ◌++◌, length, drop};
ghost use Rattle.std.specs.VecDeque.{deque_len, deque_capacity};
ghost use Rattle.am_shared.specs.Notes.{note as note_of, note_at, notes_of, IsFlushedSince};

use am_names::{Attach, Token};
use am_pipe::{Note, PutEnd};
use am_state::Obs;
use am_wire::{Packet, write};
use std::collections::VecDeque;
use std::sync::Wait;

/// The note of a queued packet.
fn note(token: Token, attach: Attach, packet: &Packet) -> Note
    ensures { result ≡ note_of token attach packet.now }
{
    let mut bytes = [0; 304];
    write(packet, &mut bytes);
    Note {
        token,
        attach,
        bytes,
    }
}

/// The note of an observation, if it is that of a queued packet.
fn note_at(obs: &Obs) -> Option<Note>
    ensures { result ≡ note_at obs.now }
{
    match obs {
        Obs::Queued {
            token,
            attach,
            packet,
        } => Some(note(*token, *attach, &packet.to_packet())),
        _ => None,
    }
}

/// The notes of what was seen join those that wait to be put.
fn collect_all(unsent: &mut VecDeque<Note>, seen: &[Obs])
    requires { deque_len unsent.old + length (notes_of seen.now) ≤ deque_capacity unsent.old }
    ensures { unsent.new.items ≡ unsent.old.items ++ notes_of seen.now }
{
    for obs in seen {
        if let Some(note) = note_at(obs) {
            unsent.push_back_reserved(note);
        }
    }
}

/// The notes of a trace, from a place on, wait behind those that wait already.
pub fn collect(unsent: &mut VecDeque<Note>, trace: &[Obs], from: usize)
    requires from { from ≤ length trace.now }
    requires room { deque_len unsent.old + length (notes_of (drop from trace.now))
        ≤ deque_capacity unsent.old }
    ensures { unsent.new.items ≡ unsent.old.items ++ notes_of (drop from trace.now) }
{
    let (_, seen) = trace.split_at(from);
    collect_all(unsent, seen);
}

/// Puts the notes that wait, in order, until the pipe is full.
pub fn flush<R: Wait>(rt: &R, put: &mut PutEnd, unsent: &mut VecDeque<Note>)
    ensures notes { put.new.sent ++ unsent.new.items ≡ put.old.sent ++ unsent.old.items }
    ensures flushed { IsFlushedSince put.old.looks put.new unsent.new.items }
    ensures put { (put.new.pipe ≡ put.old.pipe) × (put.new.takers ≡ put.old.takers)
        × (put.new.room ≡ put.old.room) }
{
    let count = unsent.len();
    for _i in 0..count {
        let Some(first) = unsent.front().copied() else {
            return;
        };
        if put.put(rt, first).is_err() {
            return;
        }
        unsent.pop_front();
    }
}
