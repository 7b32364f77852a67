//! All callers of a shared world in one hand.

ghost use Rattle.std.specs.Prelude.{◌≡◌, ◌↔◌, ◌+◌, ◌<◌, ◌++◌, ℕ, true, Some, IsTrue, vec_len, length};
ghost use Rattle.am_shared.specs.Calls.{all_calls};
ghost use Rattle.am_shared.specs.Chronicle.{AreIn, weigh, weigh_to};
ghost use Rattle.am_shared.specs.Matching.{count_in, AllAgreeLeft, EachAgreeLeft, EachRise, Matches};
ghost use Rattle.am_shared.specs.Passes.{CallsOn, IsOn, view_of};
ghost use Rattle.am_shared.specs.Sharing.{Sharing, IsSharedFrom, left_of};

use crate::caller::{Caller, Receipt};
use crate::chronicle::{History, Pass, hand_in, meet, not_all};
use crate::desk::Desk;
use crate::matching::{are_in_order, are_matched};
use crate::opened::Opened;
use crate::shared::Shared;
use std::sync::Wait;

/// A shared world whose callers are gathered.
#[derive(Drop)]
pub struct Gathered {
    pub shared: Shared,
    /// How many events the callers made.
    pub count: u64,
    /// The test of their receipts, of which those of events that were taken are compared no more.
    pub is_matched: bool,
}

/// All these callers hand their passes in.
fn hand_all_in<L: Opened>(callers: Vec<Caller<L>>, history: &History, keeping: &mut Pass)
    requires history { history.now.shared.table_id ≡ L.logbook }
    requires keeper { IsOn L.logbook keeping.old × ((view_of keeping.old).keeps ≡ true) }
    ensures on { IsOn L.logbook keeping.new }
    ensures keeper { ((view_of keeping.new).keeps ≡ true)
        × ((view_of keeping.new).made ≡ (view_of keeping.old).made)
        × ((view_of keeping.new).all ≡ (view_of keeping.old).all) }
    ensures parts { (view_of keeping.new).parts ≡ (view_of keeping.old).parts + vec_len callers }
    ensures mine { (view_of keeping.new).mine
        ≡ (view_of keeping.old).mine ++ all_calls callers.items }
    ensures rise { EachRise callers.items }
{
    for caller in callers {
        let Caller {
            lock: _,
            receipts: _,
            pass,
        } = caller;
        hand_in(history, keeping, pass);
    }
}

impl<L: Opened> Desk<L> {
    /// The test of the receipts of all callers, of whom the last is apart, against what is left of the
    /// history.
    fn are_matched(
        &mut self,
        in_order: bool,
        callers: &[Caller<L>],
        last: &[Receipt],
        history: &History,
        calling: &mut Pass,
    ) -> bool
        requires history { history.now.shared.table_id ≡ L.logbook }
        requires caller { CallsOn L.logbook calling.old }
        ensures same { self.new ≡ self.old }
        ensures caller { CallsOn L.logbook calling.new
            × ((view_of calling.new).mine ≡ (view_of calling.old).mine) }
        ensures test { (s : Sharing) × (self.old ≡ Some s) × (IsTrue result ↔
            (IsTrue in_order × EachAgreeLeft s.taken (left_of s) callers.entry.now
            × AllAgreeLeft s.taken (left_of s) last.entry.now)) }
    {
        let Desk {
            shared,
            keeping,
            ..
        } = self;
        let Some(shared) = shared.as_ref() else {
            not_all(history, keeping, calling);
            unreachable!()
        };
        are_matched(in_order, shared.taken(), shared.history(), callers, last)
    }

    /// Gives the shared world to who has all callers in hand, of whom the last is apart, and keeps
    /// their passes.
    fn take(&mut self, callers: Vec<Caller<L>>, mut last: Pass, history: &History) -> Shared
        requires all { vec_len callers + 1 ≡ L.callers }
        requires history { history.now.shared.table_id ≡ L.logbook }
        requires last { CallsOn L.logbook last }
        ensures taken { self.old ≡ Some result }
        ensures shared { IsSharedFrom L.opening result }
        ensures put { (result.put.pipe ≡ L.pipe) × (result.put.takers ≡ L.takers) × (result.put.room ≡ L.room) }
        ensures keep { result.keep ≡ L.keep }
        ensures calls { AreIn result.history (all_calls callers.items ++ (view_of last).mine) }
        ensures once { (h : ℕ → ℕ) → weigh h (all_calls callers.items ++ (view_of last).mine)
            ≡ weigh_to h (length result.history) }
        ensures rise { EachRise callers.items }
    {
        let Desk {
            shared,
            keeping,
            ..
        } = self;
        let Some(shared) = shared.take() else {
            not_all(history, keeping, &mut last);
            unreachable!()
        };
        hand_all_in(callers, history, keeping);
        hand_in(history, keeping, last);
        let _history = shared.history();
        shared
    }
}

/// Ends the work on a shared world: gives what lay under the lock, with the number of events that
/// all callers made and the test of their receipts, which is true. It takes no memory.
pub fn gather<L: Opened, R: Wait>(rt: &R, callers: Vec<Caller<L>>) -> Gathered
    requires { (vec_len callers ≡ L.callers) × (0 < vec_len callers) }
    ensures shared { IsSharedFrom L.opening result.shared }
    ensures put { (result.shared.put.pipe ≡ L.pipe) × (result.shared.put.takers ≡ L.takers)
        × (result.shared.put.room ≡ L.room) }
    ensures keep { result.shared.keep ≡ L.keep }
    ensures count { (result.count ≡ count_in callers.items)
        × (length result.shared.history ≡ count_in callers.items) }
    ensures matched { Matches result.shared.history callers.items }
    ensures test { IsTrue result.is_matched }
{
    let in_order = are_in_order(callers.as_slice());
    let mut callers = callers;
    let Some(last) = callers.pop() else {
        unreachable!()
    };
    let Caller {
        lock,
        receipts,
        mut pass,
    } = last;
    let mut desk = lock.desk.lock(rt);
    let is_matched = desk.are_matched(
        in_order,
        callers.as_slice(),
        receipts.as_slice(),
        &lock.history,
        &mut pass,
    );
    let shared = desk.take(callers, pass, &lock.history);
    let count = shared.count();
    Gathered {
        shared,
        count,
        is_matched,
    }
}
