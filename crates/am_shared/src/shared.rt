//! What lies under the lock.

ghost use Rattle.std.specs.Prelude.{◌≡◌, ◌+◌, ◌≤◌, [], length, drop, true, false, IfOk, IfErr, OnOk};
ghost use Rattle.am_machine.specs.{initial_state_of};
ghost use Rattle.am_world.specs.Capacity.{state_of};
ghost use Rattle.am_shared.specs.Keeping.{handed_before, keeps_events, keeps_seen};
ghost use Rattle.am_shared.specs.Notes.{IsFlushedSince};
ghost use Rattle.am_shared.specs.Sharing.{IsShared, Applies, all_taken, left_of};
ghost use Rattle.am_shared.specs.Opening.{opening_of};
ghost use Rattle.am_shared.specs.Parts.{sharing_of};

use crate::keep::Keep;
use crate::opening::Opening;
use crate::parts::{Applied, Parts, count, make, next, reserve, take};
use am_machine::{Entry, Event};
use am_pipe::PutEnd;
use am_state::Obs;
use am_trail::Trail;
use am_world::World;
use std::alloc::{AllocError, Global};
use std::collections::VecDeque;
use std::marker::Model;
use std::sync::Wait;

/// For so many observations there is room ahead, beside twice as many as were seen.
const AHEAD: usize = 1_024;

/// A world, the history of its events, the put end of the pipe, and the notes that wait for room in
/// the pipe. Room is kept ahead for an event that is to be made where memory is short.
#[derive(Drop)]
pub struct Shared {
    parts: Parts,
    ballast: Vec<Obs>,
}

impl Model for Shared {
    ghost use Rattle.am_shared.specs.Parts.{IsCounted, sharing_of};
    ghost use Rattle.am_shared.specs.Sharing.{IsKept, Sharing};

    ghost Value = { Sharing };

    ghost view = { λ s. sharing_of s.parts };

    ghost invariant = { λ s. IsKept (sharing_of s.parts) × IsCounted s.parts };
}

/// The event was not made, as memory ran out. It comes back.
#[derive(Drop)]
pub struct Uncalled {
    pub event: Event,
}

/// Events that were taken of a history, each with its answer, in order, and how many were taken before them.
#[derive(Drop)]
pub struct Taken {
    pub before: u64,
    pub entries: Vec<Entry>,
}

impl Shared {
    /// The initial world of an opening, to which nothing has happened, and what it is to keep.
    pub fn new(
        alloc: Global,
        opening: Opening,
        put: PutEnd,
        keep: Keep,
    ) -> Result<Shared, AllocError>
        requires put { put.sent ≡ [] }
        ensures history { IfOk result (λ s. (s.history ≡ []) × (s.taken ≡ 0)) }
        ensures world { IfOk result
            (λ s. state_of s.world ≡ initial_state_of (opening_of opening)) }
        ensures put { IfOk result (λ s. s.put ≡ put) }
        ensures keep { IfOk result (λ s. s.keep ≡ keep) }
    {
        let Opening {
            limits,
            master,
            maps,
        } = opening;
        let Ok(world) = World::new(alloc, limits, master, maps) else {
            return Err(AllocError);
        };
        let ballast = Vec::with_capacity(alloc, AHEAD * 2)?;
        Ok(Shared {
            parts: Parts {
                world,
                taken: Trail::new(),
                before: 0,
                history: Vec::new(alloc),
                put,
                unsent: VecDeque::new(alloc),
                keep,
            },
            ballast,
        })
    }

    /// The world as it is now.
    pub fn world(&self) -> &World
        ensures { result.now ≡ self.now.world }
    {
        &self.parts.world
    }

    /// The events so far, each with its answer, but for those that were taken. Where they are kept
    /// these are all.
    pub fn history(&self) -> &[Entry]
        ensures left { result.now ≡ left_of self.now }
        ensures whole { keeps_events self.now.keep ≡ true → result.now ≡ self.now.history }
        ensures shared { IsShared self.now }
    {
        // What a world keeps is known where its trace is read.
        let _ = self.parts.world.trace();
        self.parts.history.as_slice()
    }

    /// How many events there were, those that were taken among them.
    pub fn count(&self) -> u64
        ensures { result ≡ length self.now.history }
    {
        count(&self.parts)
    }

    /// How many of the first of them were taken.
    pub fn taken(&self) -> u64
        ensures count { result ≡ self.now.taken }
        ensures within { self.now.taken ≤ length self.now.history }
    {
        self.parts.before
    }

    /// Takes the events that `history` has, each with its answer. The world keeps them no longer, and
    /// is the same in all else: they stay part of what each law speaks of. It takes no memory.
    pub fn take_history(&mut self, alloc: Global) -> Vec<Entry>
        requires { keeps_events self.old.keep ≡ false }
        ensures entries { result.items ≡ left_of self.old }
        ensures taken { self.new ≡ all_taken self.old }
    {
        take(alloc, &mut self.parts)
    }

    /// What was observed: all of it where that is kept, and else what was of the last event.
    pub fn seen(&self) -> &[Obs]
        ensures seen { result.now ≡ drop self.now.world.handed self.now.world.trace }
        ensures whole { keeps_seen self.now.keep ≡ true → result.now ≡ self.now.world.trace }
    {
        self.parts.world.trace()
    }

    /// How many observations `seen` will have before those of the next event.
    pub(crate) fn seen_before(&self) -> usize
        ensures { handed_before self.now.keep self.now.world + result ≡ length self.now.world.trace }
    {
        let seen = self.parts.world.trace();
        if self.parts.keep.has_seen() {
            seen.len()
        } else {
            0
        }
    }

    /// How many notes wait for room in the pipe.
    pub fn unsent(&self) -> usize
        ensures { result ≡ length self.now.unsent }
    {
        self.parts.unsent.len()
    }

    /// The world, its history, but for what was taken of it, the put end of the pipe, and the notes that
    /// wait for room in it.
    pub fn into_parts(self) -> Parts
        ensures parts { sharing_of result ≡ self }
        ensures count { result.before ≡ self.taken }
        ensures shared { IsShared self }
    {
        let _ = self.parts.world.trace();
        let Shared { parts, ballast: _ } = self;
        parts
    }

    /// Room for the event after the next, and for what may be seen of it.
    fn keep_ahead(&mut self, alloc: Global) -> Result<(), AllocError>
        ensures { self.new ≡ self.old }
    {
        let seen = self.parts.world.trace().len();
        let wanted = seen.saturating_mul(2).saturating_add(AHEAD);
        if self.ballast.capacity() < wanted {
            // Until there is more, what was kept stays.
            self.ballast = Vec::with_capacity(alloc, wanted.saturating_mul(2))?;
        }
        Ok(())
    }

    /// Applies an event, by what is kept ahead or with as much kept ahead again.
    pub(crate) fn apply_with<R: Wait>(
        &mut self,
        rt: &R,
        alloc: Global,
        event: Event,
        is_ahead: bool,
    ) -> Result<Applied, Uncalled>
        ensures none { IfErr result (λ back. (back.event ≡ event) × (self.new ≡ self.old)) }
        ensures one { IfOk result
            (λ made. Applies self.old self.new event made.position made.answer) }
        ensures flushed { OnOk result
            (IsFlushedSince self.old.put.looks self.new.put self.new.unsent) }
    {
        if is_ahead {
            self.ballast = Vec::new(alloc);
        } else if self.keep_ahead(alloc).is_err() {
            return Err(Uncalled { event });
        }
        let events = if is_ahead { 1 } else { 2 };
        if reserve(&mut self.parts, events).is_err() {
            return Err(Uncalled { event });
        }
        let Some(position) = next(&self.parts) else {
            return Err(Uncalled { event });
        };
        Ok(make(rt, alloc, &mut self.parts, event, position))
    }

    /// Applies an event, and tells its position in the history, from 1, and its answer. Where there
    /// is no memory for the history, or for what is kept ahead, or the position doesn't fit, nothing
    /// was done.
    pub fn apply<R: Wait>(
        &mut self,
        rt: &R,
        alloc: Global,
        event: Event,
    ) -> Result<Applied, Uncalled>
        ensures none { IfErr result (λ back. (back.event ≡ event) × (self.new ≡ self.old)) }
        ensures one { IfOk result
            (λ made. Applies self.old self.new event made.position made.answer) }
        ensures flushed { OnOk result
            (IsFlushedSince self.old.put.looks self.new.put self.new.unsent) }
    {
        self.apply_with(rt, alloc, event, false)
    }

    /// Applies an event by the room that was kept ahead: one that wants no more is made even where
    /// memory is short. Room is kept ahead again by the next `apply`.
    pub fn apply_ahead<R: Wait>(
        &mut self,
        rt: &R,
        alloc: Global,
        event: Event,
    ) -> Result<Applied, Uncalled>
        ensures none { IfErr result (λ back. (back.event ≡ event) × (self.new ≡ self.old)) }
        ensures one { IfOk result
            (λ made. Applies self.old self.new event made.position made.answer) }
        ensures flushed { OnOk result
            (IsFlushedSince self.old.put.looks self.new.put self.new.unsent) }
    {
        self.apply_with(rt, alloc, event, true)
    }
}
