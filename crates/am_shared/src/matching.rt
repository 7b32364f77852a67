//! The receipts of all callers against the history.

ghost use Rattle.std.specs.Prelude.{◌≡◌, ◌↔◌, ◌<◌, IsTrue};
ghost use Rattle.am_machine.specs.History.{entry as entry_of};
ghost use Rattle.am_shared.specs.Matching.{AgreesLeft, AllAgreeLeft, EachAgreeLeft, Rise, EachRise};
ghost use Rattle.am_shared.specs.Matching.{times, times_in, AtMostOnce, AllAway};

use crate::caller::{Caller, Receipt};
use crate::opened::Opened;
use am_machine::Entry;

/// Whether the entry has the event and the answer of the receipt.
fn is_entry(entry: &Entry, receipt: &Receipt) -> bool
    ensures { IsTrue result ↔ (entry.now ≡ entry_of receipt.now.event receipt.now.answer) }
{
    entry.event.is_same(&receipt.event) && entry.answer.is_same(&receipt.answer)
}

/// Whether what is left of the history, behind so many entries that were taken, has the receipt's event,
/// with its answer, at its position, unless that was taken.
fn agrees(taken: u64, left: &[Entry], receipt: &Receipt) -> bool
    ensures { IsTrue result ↔ AgreesLeft taken left.now receipt.now }
{
    if receipt.position == 0 {
        return false;
    }
    if receipt.position <= taken {
        return true;
    }
    match left.get((receipt.position - 1 - taken) as usize) {
        Some(entry) => is_entry(entry, receipt),
        None => false,
    }
}

/// Whether what is left has the event and the answer of each receipt at its position, unless that was
/// taken.
fn all_agree(taken: u64, left: &[Entry], receipts: &[Receipt]) -> bool
    ensures { IsTrue result ↔ AllAgreeLeft taken left.now receipts.now }
{
    for receipt in receipts {
        if !agrees(taken, left, receipt) {
            return false;
        }
    }
    true
}

/// Whether what is left has the event and the answer of each receipt at its position, unless that was
/// taken.
pub fn each_agree<L: Opened>(taken: u64, left: &[Entry], callers: &[Caller<L>]) -> bool
    ensures { IsTrue result ↔ EachAgreeLeft taken left.now callers.now }
{
    for caller in callers {
        if !all_agree(taken, left, caller.receipts()) {
            return false;
        }
    }
    true
}

/// Whether the receipts of all callers, of whom the last is apart, are in order, and what is left of the
/// history, behind so many entries that were taken, has the event and the answer of each of them at its
/// position, unless that was taken.
pub fn are_matched<L: Opened>(
    in_order: bool,
    taken: u64,
    left: &[Entry],
    callers: &[Caller<L>],
    last: &[Receipt],
) -> bool
    ensures { IsTrue result ↔
        (IsTrue in_order × EachAgreeLeft taken left.now callers.now × AllAgreeLeft taken left.now last.now) }
{
    if !in_order {
        return false;
    }
    if !each_agree(taken, left, callers) {
        return false;
    }
    all_agree(taken, left, last)
}

/// Whether the positions of the receipts rise.
fn rise(receipts: &[Receipt]) -> bool
    ensures { IsTrue result ↔ Rise 0 receipts.now }
{
    let mut low = 0;
    for receipt in receipts {
        if receipt.position <= low {
            return false;
        }
        low = receipt.position;
    }
    true
}

/// Whether the positions of each caller rise.
pub fn each_rise<L: Opened>(callers: &[Caller<L>]) -> bool
    ensures { IsTrue result ↔ EachRise callers.now }
{
    for caller in callers {
        if !rise(caller.receipts()) {
            return false;
        }
    }
    true
}

/// Whether a receipt has this position, among receipts whose positions rise.
fn has_position(receipts: &[Receipt], position: u64) -> bool
    requires { Rise 0 receipts.now }
    ensures { IsTrue result ↔ (0 < times position receipts.now) }
{
    let at = receipts.partition_point(|receipt| receipt.position < position);
    match receipts.get(at) {
        Some(receipt) => receipt.position == position,
        None => false,
    }
}

/// Whether no receipt of these callers has this position.
fn is_away<L: Opened>(position: u64, callers: &[Caller<L>]) -> bool
    requires { EachRise callers.now }
    ensures { IsTrue result ↔ (times_in position callers.now ≡ 0) }
{
    for caller in callers {
        if has_position(caller.receipts(), position) {
            return false;
        }
    }
    true
}

/// Whether none of the receipts' positions stands in any receipt of the callers.
fn all_away<L: Opened>(receipts: &[Receipt], callers: &[Caller<L>]) -> bool
    requires { EachRise callers.now }
    ensures { IsTrue result ↔ AllAway receipts.now callers.now }
{
    for receipt in receipts {
        if !is_away(receipt.position, callers) {
            return false;
        }
    }
    true
}

/// Whether no position stands in more than one receipt, where those of each caller rise. Each
/// position is searched for in the receipts of the callers behind its own.
pub fn at_most_once<L: Opened>(callers: &[Caller<L>]) -> bool
    requires { EachRise callers.now }
    ensures { IsTrue result ↔ AtMostOnce callers.now }
{
    let mut rest = callers;
    while let Some((caller, others)) = rest.split_first() {
        if !all_away(caller.receipts(), others) {
            return false;
        }
        rest = others;
    }
    true
}

/// Whether the positions of each caller rise, and none stands in more than one receipt.
pub fn are_in_order<L: Opened>(callers: &[Caller<L>]) -> bool
    ensures { IsTrue result ↔ (EachRise callers.now × AtMostOnce callers.now) }
{
    if !each_rise(callers) {
        return false;
    }
    at_most_once(callers)
}
