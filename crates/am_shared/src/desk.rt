//! What the lock of a shared world keeps.

ghost use Rattle.std.specs.Prelude.{◌≡◌, ◌<◌, ◌≤◌, ◌+◌, ◌++◌, [], ◌∷◌, Some, IfErr, IfOk, MatchResult, length};
ghost use Rattle.std.specs.Fn.{FnOnceReturnsAt};
ghost use mathlib.Core.List.{IsPrefix};
ghost use Rattle.am_machine.specs.{entry as entry_of, setup_of};
ghost use Rattle.am_world.specs.Capacity.{state_of};
ghost use Rattle.am_shared.specs.Calls.{StandsLast};
ghost use Rattle.am_shared.specs.Chronicle.{AreIn, caller as caller_with, keeper};
ghost use Rattle.am_shared.specs.declared.keep.Keep.TheVariants.{Nothing};
ghost use Rattle.am_shared.specs.Passes.{CallsOn, KeepsHistory, IsOn, view_of};
ghost use Rattle.am_shared.specs.Sharing.{Sharing, IsSharedFrom, all_taken, is_held_up, left_of};

use crate::bells::{Rung, rung_by};
use crate::chronicle::{History, Pass, meet, not_all, record};
use crate::opened::Opened;
use crate::shared::{Shared, Taken, Uncalled};
use am_machine::{Answer, Event};
use am_names::WalkerId;
use std::alloc::Global;
use std::marker::{Model, PhantomData};
use std::sync::Wait;

/// What lies under the lock: a shared world until all its callers are gathered, and the pass that
/// keeps its history. The world began with the opening, and its put end is that of the pipe.
#[derive(Drop)]
pub struct Desk<L: Opened> {
    pub(crate) shared: Option<Shared>,
    pub(crate) keeping: Pass,
    of: PhantomData<L>,
}

impl<L: Opened> Model for Desk<L> {
    ghost use Rattle.std.specs.Prelude.{◌≡◌, true, Option, MatchOption};
    ghost use Rattle.am_machine.specs.{setup_of};
    ghost use Rattle.am_world.specs.Capacity.{state_of};
    ghost use Rattle.am_shared.specs.Chronicle.{keeper};
    ghost use Rattle.am_shared.specs.Passes.{IsOn, view_of};
    ghost use Rattle.am_shared.specs.Sharing.{Sharing};

    ghost Value = { Option Sharing };

    ghost view = { λ d. d.shared };

    ghost invariant = { λ d. IsOn L.logbook d.keeping
        × ((view_of d.keeping).keeps ≡ true) × ((view_of d.keeping).made ≡ L.callers)
        × MatchOption d.shared ((view_of d.keeping).parts ≡ L.callers)
        (λ s. (view_of d.keeping ≡ keeper L.callers s.history)
        × (setup_of (state_of s.world) ≡ L.opening)
        × (s.put.pipe ≡ L.pipe) × (s.put.takers ≡ L.takers) × (s.put.room ≡ L.room)
        × (s.keep ≡ L.keep)) };
}

/// An event that was made: its position, its answer, and whose bells are to be rung.
#[derive(Drop)]
pub struct Made {
    pub position: u64,
    pub answer: Answer,
    pub released: Rung,
}

impl<L: Opened> Desk<L> {
    pub fn new(shared: Shared, keeping: Pass) -> Desk<L>
        requires keeper { KeepsHistory L.logbook keeping
            × (view_of keeping ≡ keeper L.callers shared.history) }
        requires opening { setup_of (state_of shared.world) ≡ L.opening }
        requires put { (shared.put.pipe ≡ L.pipe) × (shared.put.takers ≡ L.takers)
            × (shared.put.room ≡ L.room) }
        requires keep { shared.keep ≡ L.keep }
        ensures { result ≡ Some shared }
    {
        Desk {
            shared: Some(shared),
            keeping,
            of: PhantomData,
        }
    }

    /// Whether the walker has a wait that isn't acknowledged.
    pub fn is_held_up(&self, walker: WalkerId) -> bool
        ensures { result ≡ is_held_up walker self.now }
    {
        match &self.shared {
            Some(shared) => shared.world().is_waiting(walker),
            None => false,
        }
    }

    /// Applies an event, with what was kept ahead or without. It is the next of the history, and a
    /// call of the caller.
    pub fn apply<R: Wait>(
        &mut self,
        rt: &R,
        alloc: Global,
        event: Event,
        is_ahead: bool,
        history: &History,
        calling: &mut Pass,
    ) -> Result<Made, Uncalled>
        requires history { history.now.shared.table_id ≡ L.logbook }
        requires caller { CallsOn L.logbook calling.old }
        ensures caller { CallsOn L.logbook calling.new }
        ensures ok { IfOk result (λ made. StandsLast L.opening (view_of calling.old) (view_of calling.new)
            made.position (entry_of event made.answer)) }
        ensures mine { MatchResult result
            (λ made. (view_of calling.new).mine ≡ (view_of calling.old).mine
            ++ (made.position, entry_of event made.answer) ∷ [])
            (λ _. view_of calling.new ≡ view_of calling.old) }
        ensures event { IfErr result (λ back. back.event ≡ event) }
    {
        let Desk {
            shared,
            keeping,
            ..
        } = self;
        let Some(shared) = shared.as_mut() else {
            not_all(history, keeping, calling);
            unreachable!()
        };
        let seen = shared.seen_before();
        let made = shared.apply_with(rt, alloc, event, is_ahead)?;
        let Some(last) = shared.history().last() else {
            unreachable!()
        };
        record(history, keeping, calling, last);
        Ok(Made {
            position: made.position,
            answer: made.answer,
            released: rung_by(shared.world().seen_since(seen)),
        })
    }

    /// Takes the events that are left of the history, which has all calls of the caller, and begins with what it saw.
    pub fn take_history(&mut self, alloc: Global, history: &History, taking: &mut Pass) -> Taken
        requires keep { L.keep ≡ Nothing }
        requires history { history.now.shared.table_id ≡ L.logbook }
        requires caller { CallsOn L.logbook taking.old }
        ensures caller { CallsOn L.logbook taking.new
            × ((view_of taking.new).mine ≡ (view_of taking.old).mine) }
        ensures taken { (s : Sharing) × (self.old ≡ Some s) × (self.new ≡ Some (all_taken s))
            × IsSharedFrom L.opening s × AreIn s.history (view_of taking.old).mine
            × IsPrefix (view_of taking.old).seen s.history × ((view_of taking.new).seen ≡ s.history)
            × (result.before ≡ s.taken) × (result.entries.items ≡ left_of s)
            × (s.taken ≤ length s.history) }
    {
        let Desk {
            shared,
            keeping,
            ..
        } = self;
        let Some(shared) = shared.as_mut() else {
            not_all(history, keeping, taking);
            unreachable!()
        };
        meet(history, keeping, taking);
        // What a shared world keeps is known where its history is read.
        let _history = shared.history();
        let before = shared.taken();
        let entries = shared.take_history(alloc);
        Taken { before, entries }
    }

    /// Lends the shared world, whose history has all calls of the caller, and begins with what it saw.
    pub fn lend<T, F: FnOnce(&Shared) -> T>(
        &mut self,
        history: &History,
        calling: &mut Pass,
        f: F,
    ) -> T
        requires history { history.now.shared.table_id ≡ L.logbook }
        requires caller { CallsOn L.logbook calling.old }
        requires f { F.IsAlwaysCallable f }
        ensures same { self.new ≡ self.old }
        ensures caller { CallsOn L.logbook calling.new
            × ((view_of calling.new).mine ≡ (view_of calling.old).mine) }
        ensures lent { (s : Sharing) × (self.old ≡ Some s) × IsSharedFrom L.opening s
            × (s.keep ≡ L.keep) × AreIn s.history (view_of calling.old).mine
            × IsPrefix (view_of calling.old).seen s.history × ((view_of calling.new).seen ≡ s.history)
            × FnOnceReturnsAt F.FnOnce f s result }
    {
        let Desk {
            shared,
            keeping,
            ..
        } = self;
        let Some(shared) = shared.as_ref() else {
            not_all(history, keeping, calling);
            unreachable!()
        };
        meet(history, keeping, calling);
        // What a shared world keeps is known where its history is read.
        let _history = shared.history();
        f(shared)
    }
}
