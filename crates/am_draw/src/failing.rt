//! The failures that last, and which lane each has.

ghost use Rattle.std.specs.Prelude.{◌≡◌, ◌≤◌, length, map, is_none, None, OnOk};
ghost use Rattle.std.specs.List.{list_any, position};
ghost use Rattle.am_draw.specs.Failures.{same_failure, lasting_in, is_failing, kept_failing, is_at, has_failing, empty_lane, with_failing, with_empty, newest, fresh};

use am_names::{Seconds, Trigger};
use am_world::{Failure, Failures, World};
use std::alloc::AllocError;

/// A failure that lasts, and has a lane.
#[derive(Clone, Copy)]
pub struct Failing {
    pub trigger: Trigger,
    pub failure: Failure,
    /// The number of the event behind which it lasts, from 1.
    pub since: u64,
}

/// Whether both tell the same error, of the same moment.
fn is_same(one: &Failure, other: &Failure) -> bool
    ensures { result ≡ same_failure one.now other.now }
{
    if one.no.number() != other.no.number() {
        return false;
    }
    one.at == other.at
}

/// What failed last at the trigger, if that lasts.
fn lasting_in(world: &World, negative: Seconds, trigger: &Trigger) -> Option<Failure>
    ensures { result ≡ lasting_in negative world.now.kernel trigger.now }
{
    let failure = world.failures().failure(trigger)?;
    if failure.lasts(world.latest(), negative) {
        Some(failure)
    } else {
        None
    }
}

/// Whether this is what lasts at its trigger.
pub(crate) fn is_failing(world: &World, negative: Seconds, held: &Failing) -> bool
    ensures { result ≡ is_failing negative world.now.kernel held.now }
{
    match lasting_in(world, negative, &held.trigger) {
        None => false,
        Some(other) => is_same(&other, &held.failure),
    }
}

/// Who holds the lane, if that lasts still.
fn kept(world: &World, negative: Seconds, lane: Option<Failing>) -> Option<Failing>
    ensures { result ≡ kept_failing negative world.now.kernel lane }
{
    let held = lane?;
    if is_failing(world, negative, &held) {
        Some(held)
    } else {
        None
    }
}

/// The lanes are left by those that last no longer.
pub(crate) fn end_failures(lanes: &mut Vec<Option<Failing>>, world: &World, negative: Seconds)
    ensures { lanes.new.items ≡ map (kept_failing negative world.now.kernel) lanes.old.items }
{
    for lane in lanes.iter_mut() {
        *lane = kept(world, negative, *lane);
    }
}

/// Nobody holds a lane any more.
pub(crate) fn empty_lanes(lanes: &mut Vec<Option<Failing>>)
    ensures { lanes.new.items ≡ map (λ lane. None) lanes.old.items }
{
    for lane in lanes.iter_mut() {
        *lane = None;
    }
}

fn first_empty(lanes: &[Option<Failing>]) -> Option<usize>
    ensures { result ≡ position (λ lane. is_none lane) lanes.now }
{
    lanes.iter().position(|lane| lane.is_none())
}

/// The first lane that nobody holds, or one behind all of them.
pub(crate) fn empty_lane(lanes: &[Option<Failing>]) -> usize
    ensures lane { result ≡ empty_lane lanes.now }
    ensures within { result ≤ length lanes.now }
{
    match first_empty(lanes) {
        Some(lane) => lane,
        None => lanes.len(),
    }
}

/// The failure takes the first lane that nobody holds.
pub(crate) fn take_lane(lanes: &mut Vec<Option<Failing>>, held: Failing)
    ensures { lanes.new.items ≡ with_failing held lanes.old.items }
{
    match first_empty(lanes.as_slice()) {
        Some(lane) => lanes[lane] = Some(held),
        None => (),
    }
}

fn has_empty(lanes: &[Option<Failing>]) -> bool
    ensures { result ≡ list_any (λ lane. is_none lane) lanes.now }
{
    lanes.iter().any(|lane| lane.is_none())
}

/// Where somebody holds each lane, one is added.
pub(crate) fn add_lane(lanes: &mut Vec<Option<Failing>>) -> Result<(), AllocError>
    ensures { OnOk result (lanes.new.items ≡ with_empty lanes.old.items) }
{
    if has_empty(lanes.as_slice()) {
        return Ok(());
    }
    lanes.push(None)?;
    Ok(())
}

fn is_at(lane: &Option<Failing>, trigger: &Trigger) -> bool
    ensures { result ≡ is_at trigger.now lane.now }
{
    match lane {
        None => false,
        Some(held) => held.trigger.is_same(trigger),
    }
}

fn has_failing(lanes: &[Option<Failing>], trigger: &Trigger) -> bool
    ensures { result ≡ has_failing trigger.now lanes.now }
{
    lanes.iter().any(|lane| is_at(lane, trigger))
}

/// What failed last of all.
fn newest(failures: &Failures) -> Option<(Trigger, Failure)>
    ensures { result ≡ newest failures.now.rows }
{
    failures.row(failures.len().saturating_sub(1))
}

/// What failed last of all, if it lasts and has no lane: it does so from the event with this number on.
pub(crate) fn fresh(
    world: &World,
    negative: Seconds,
    number: u64,
    lanes: &[Option<Failing>],
) -> Option<Failing>
    ensures { result ≡ fresh number negative world.now.kernel lanes.now }
{
    let (trigger, failure) = newest(world.failures())?;
    let held = Failing {
        trigger,
        failure,
        since: number,
    };
    if !is_failing(world, negative, &held) {
        return None;
    }
    if has_failing(lanes, &held.trigger) {
        return None;
    }
    Some(held)
}
