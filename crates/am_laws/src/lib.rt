//! The laws of a trace, decided. They are said of a list of observations alone, whatever list it
//! is, and look at no world.
#![tactic(auto)]

ghost use Rattle.std.specs.Prelude.{◌≡◌, ◌↔◌, IsTrue, [], ◌∷◌, ◌++◌, IfNone, IfSome, MatchOption, true, false};
ghost use Rattle.std.specs.List.{list_any, list_all};
ghost use Rattle.am_laws.specs.OneObservation.{queues};
ghost use Rattle.am_laws.specs.TraceLaws.{Lawful};
ghost use Rattle.am_laws.specs.Tests.{is_expiry, is_cause, ends_in_row, may_be_released, is_let_go, all_released, is_closed, is_lawful_at};
ghost use Rattle.am_laws.specs.Breaches.{IsFirstBreach, breach_from};
ghost use Rattle.am_laws.specs.Lately.{AreUpTo, Remembers, is_lawful_lately};

mod counts;
mod law;
mod one_observation;
mod settled;

use am_names::{FsId, Status, Token, Trigger, WalkerId};
use am_state::Obs;
use counts::{
    all_unused, asks, fs_of_token, has_delivered, has_queued, has_released, has_waits, is_in_queue,
    is_in_row, is_open,
};
use law::broken_law;
pub use law::{Breach, Law};
use one_observation::{closes_as, is_fs, is_released};
use settled::{greatest_with, is_greater, settled_at};

/// An open token that asks to expire the trigger is queued here.
fn is_expiry(seen: &[Obs], trigger: &Trigger, o: &Obs) -> bool
    ensures { result ≡ is_expiry seen.now trigger.now o.now }
{
    match o {
        Obs::Queued { token, .. } => asks(trigger, *token, seen) && is_open(*token, seen),
        _ => false,
    }
}

/// The token was open, and is closed here with this status.
fn is_cause(before: &[Obs], cause: &Obs, token: Token, status: Status) -> bool
    ensures { result ≡ is_cause before.now cause.now [] token status }
{
    closes_as(token, &fs_of_token(token, before), status, cause) && is_open(token, before)
}

/// These end in a row of releases, behind what closed the token with this status.
fn ends_in_row(seen: &[Obs], token: Token, status: Status) -> bool
    ensures { result ≡ ends_in_row [] seen.now token status }
{
    let mut rest = seen;
    while let Some((o, before)) = rest.split_last() {
        if !is_released(o) {
            return is_cause(before, o, token, status);
        }
        rest = before;
    }
    false
}

fn may_be_released(before: &[Obs], walker: WalkerId, token: Token, status: Status) -> bool
    ensures { result ≡ may_be_released before.now walker token status }
{
    has_waits(before, walker, token)
        && !has_released(before, walker, token)
        && ends_in_row(before, token, status)
}

/// Whoever waits on the token here is in the row of releases that follows.
fn is_let_go(token: Token, rest: &[Obs], o: &Obs) -> bool
    ensures { result ≡ is_let_go token rest.now o.now }
{
    match o {
        Obs::Waits { walker, token: k } => *k != token || is_in_row(*walker, token, rest),
        _ => true,
    }
}

fn all_released(before: &[Obs], token: Token, rest: &[Obs]) -> bool
    ensures { result ≡ all_released before.now token rest.now }
{
    before.iter().all(|o| is_let_go(token, rest, o))
}

/// If an open token of the file system is queued here, its waiters are all released.
fn is_closed(fs: FsId, before: &[Obs], rest: &[Obs], o: &Obs) -> bool
    ensures { result ≡ is_closed fs before.now rest.now o.now }
{
    match o {
        Obs::Queued { token, .. } => {
            if is_fs(&fs_of_token(*token, before), fs) && is_open(*token, before) {
                all_released(before, *token, rest)
            } else {
                true
            }
        }
        _ => true,
    }
}

fn all_closed(fs: FsId, before: &[Obs], rest: &[Obs]) -> bool
    ensures { result ≡ list_all (is_closed fs before.now rest.now) before.now }
{
    before.iter().all(|o| is_closed(fs, before, rest, o))
}

/// An open token asks to expire the trigger.
fn is_expiring(seen: &[Obs], trigger: &Trigger) -> bool
    ensures { result ≡ list_any (is_expiry seen.now trigger.now) seen.now }
{
    seen.iter().any(|o| is_expiry(seen, trigger, o))
}

/// Whether a packet of the token was queued, of which none is greater than the greatest.
fn was_queued(before: &[Obs], greatest: Token, token: Token) -> bool
    requires { AreUpTo greatest before.now }
    ensures { result ≡ list_any (queues token) before.now }
{
    if is_greater(token, greatest) {
        return false;
    }
    has_queued(before, token)
}

/// One place of a trace, after what was seen before it, of which the last part is what was seen
/// lately.
fn is_lawful_lately(before: &[Obs], lately: &[Obs], greatest: Token, o: &Obs, rest: &[Obs]) -> bool
    requires { AreUpTo greatest before.now }
    ensures { result ≡ is_lawful_lately before.now lately.now o.now rest.now }
{
    match o {
        Obs::Queued { token, .. } => !was_queued(before, greatest, *token),
        Obs::Waits { token, .. } => is_open(*token, lately),
        Obs::Answered { token, .. } => {
            is_open(*token, lately)
                && has_delivered(lately, *token)
                && all_released(lately, *token, rest)
        }
        Obs::Catatonic { fs } => all_closed(*fs, lately, rest),
        Obs::Released {
            walker,
            token,
            status,
        } => may_be_released(lately, *walker, *token, *status),
        Obs::Passed { trigger, .. } => !is_expiring(lately, &trigger.to_trigger()),
        Obs::Unmounted { mounts } => all_unused(before, mounts.as_slice()),
        Obs::Delivered {
            token,
            attach,
            packet,
        } => {
            is_in_queue(*token, *attach, &packet.to_packet(), lately)
                && !has_delivered(lately, *token)
        }
        Obs::Entered { .. }
        | Obs::Left { .. }
        | Obs::Mounted { .. }
        | Obs::Recorded { .. }
        | Obs::Reattached { .. }
        | Obs::Died => true,
    }
}

/// What is kept in mind of a trace while it is judged from its front.
#[derive(Clone, Copy)]
struct Past {
    /// No token that was queued before this place is open any more.
    settled: usize,
    /// No token that was queued is greater.
    greatest: Token,
}

impl Past {
    fn new() -> Past
        ensures { Remembers result.settled result.greatest [] }
    {
        Past {
            settled: 0,
            greatest: Token(0),
        }
    }

    /// Judges the next place, and keeps it in mind, if it is lawful.
    fn next(self, before: &[Obs], o: &Obs, rest: &[Obs]) -> Option<Past>
        requires { Remembers self.settled self.greatest before.now }
        ensures { MatchOption result
            (is_lawful_at before.now o.now rest.now ≡ false)
            (λ past. (is_lawful_at before.now o.now rest.now ≡ true)
            × Remembers past.settled past.greatest (before.now ++ o.now ∷ [])) }
    {
        let settled = settled_at(self.settled, before, o);
        if !is_lawful_lately(before, &before[settled..], self.greatest, o, rest) {
            return None;
        }
        Some(Past {
            settled,
            greatest: greatest_with(self.greatest, o),
        })
    }
}

/// The first place of a trace that isn't lawful.
fn breach_in(trace: &[Obs]) -> Option<Breach>
    ensures { result ≡ breach_from [] trace.now }
{
    let mut past = Past::new();
    for (i, o) in trace.iter().enumerate() {
        let before = &trace[..i];
        let rest = &trace[i + 1..];
        let Some(next) = past.next(before, o, rest) else {
            let law = broken_law(before, o, rest)?;
            return Some(Breach { place: i, law });
        };
        past = next;
    }
    None
}

/// The first observation of a trace that breaks a law, with that law: of several the first, in the
/// order of `Law`. None where the trace is lawful.
pub fn first_breach(trace: &[Obs]) -> Option<Breach>
    ensures none { IfNone result (Lawful trace.now) }
    ensures some { IfSome result (IsFirstBreach trace.now) }
{
    breach_in(trace)
}

/// Whether a trace is lawful: walkers wait on open tokens, and what closes a token releases all
/// its waiters at once, and nothing else any; no walk passes an expiring trigger; no mount in use is
/// unmounted; each packet is queued once, and delivered once before its token is answered.
pub fn trace_holds(trace: &[Obs]) -> bool
    ensures { IsTrue result ↔ Lawful trace.now }
{
    breach_in(trace).is_none()
}
