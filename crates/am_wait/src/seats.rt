//! The waits in the slab, each at the key of its walker.

ghost use Rattle.std.specs.Prelude.{ℕ, false, ◌≡◌, ◌≤◌, ◌==◌, ◌↔◌, length, None, Some, IsSome, IsTrue, All, IfOk, OnOk, if◌then◌else◌};
ghost use Rattle.std.specs.Option.{option_map};
ghost use Rattle.slab.specs.Slab.{get, HasRoomFor};
ghost use Rattle.am_names.specs.{RiseBy};
ghost use Rattle.am_wait.specs.Calls.{failed_row};
ghost use Rattle.am_wait.specs.Seats.{key_of, with_status, among_keys, with_seat, without_seat, frees, next_key, row_at, walkers_at, seat_at};

use crate::seating::Seating;
use am_names::{FailNo, FsId, Name, Status, TokenKind, Trigger, WaitRow, WalkerId};
use slab::Slab;
use std::alloc::{AllocError, Global};

/// A walker, and the key of its wait.
#[derive(Clone, Copy, Debug)]
pub struct Seat {
    pub walker: WalkerId,
    pub key: usize,
}

/// How many waits other walkers have.
pub fn waits_of_others(seats: &Seating, walker: WalkerId) -> usize
    requires rising { RiseBy (λ seat. seat.walker) 0 seats.now.rows }
    ensures { result ≡ length (without_seat walker seats.now.rows) }
{
    match seats.key_of(walker) {
        Some(_) => seats.len() - 1,
        None => seats.len(),
    }
}

/// The key that the next wait of a walker gets, once the wait that it has is taken away.
pub fn next_key(seats: &Seating, slab: &Slab<WaitRow>, walker: WalkerId) -> usize
    ensures { result ≡ next_key seats.now.rows slab.now walker }
{
    let Some(key) = seats.key_of(walker) else {
        return slab.vacant_key();
    };
    match slab.get(key) {
        Some(_) => key,
        None => slab.vacant_key(),
    }
}

/// The walkers whose waits are at these keys.
pub fn walkers_at(
    alloc: Global,
    slab: &Slab<WaitRow>,
    keys: &[usize],
) -> Result<Vec<WalkerId>, AllocError>
    requires { All (λ key. IsSome (get slab.now key)) keys.now }
    ensures { IfOk result (λ v. v.items ≡ walkers_at slab.now keys.now) }
{
    let mut walkers = Vec::new(alloc);
    for key in keys.iter() {
        if let Some(wait) = slab.get(*key) {
            walkers.push(wait.walker)?;
        }
    }
    Ok(walkers)
}

/// The walker whose wait is at this key, 0 for none.
fn walker_at(slab: &Slab<WaitRow>, key: usize) -> WalkerId
    ensures { result ≡ (row_at slab.now key).walker }
{
    match slab.get(key) {
        Some(wait) => wait.walker,
        None => WalkerId(0),
    }
}

/// Whether the walker whose wait is at this key is that of the other slab at the other key.
fn is_same_walker(slab: &Slab<WaitRow>, key: usize, others: &Slab<WaitRow>, other: usize) -> bool
    ensures { IsTrue result ↔ ((row_at slab.now key).walker ≡ (row_at others.now other).walker) }
{
    walker_at(slab, key) == walker_at(others, other)
}

/// Whether the walkers whose waits are at these keys are those of the other slab at the other keys,
/// in the same order.
pub fn are_same_walkers(
    slab: &Slab<WaitRow>,
    keys: &[usize],
    others: &Slab<WaitRow>,
    other_keys: &[usize],
) -> bool
    ensures { IsTrue result
        ↔ (walkers_at slab.now keys.now ≡ walkers_at others.now other_keys.now) }
{
    if keys.len() != other_keys.len() {
        return false;
    }
    for at in 0..keys.len() {
        if !is_same_walker(slab, keys[at], others, other_keys[at]) {
            return false;
        }
    }
    true
}

/// Whether both are none, or the same wait.
#[tactic(auto, using(am_names::proofs::SameTriggers::equal_by_same_trigger, am_names::proofs::SameTriggers::same_trigger_itself))]
pub fn is_same_wait(one: &Option<WaitRow>, other: &Option<WaitRow>) -> bool
    ensures { IsTrue result ↔ (one.now ≡ other.now) }
{
    match (one, other) {
        (None, None) => true,
        (Some(wait), Some(other)) => {
            wait.walker == other.walker
                && wait.token == other.token
                && wait.kind == other.kind
                && wait.status == other.status
                && wait.trigger.is_same(&other.trigger)
        }
        (None, Some(_)) | (Some(_), None) => false,
    }
}

/// The same waits at the same keys once more.
pub fn copy_of(slab: &Slab<WaitRow>) -> Result<Slab<WaitRow>, AllocError>
    ensures { IfOk result (λ copy. copy.slots ≡ slab.now.slots) }
{
    let copy = slab.clone()?;
    Ok(copy)
}

/// Room for one more wait.
pub fn make_room(seats: &mut Seating, slab: &mut Slab<WaitRow>) -> Result<(), AllocError>
    ensures seats { seats.new.rows ≡ seats.old.rows }
    ensures slots { slab.new.slots ≡ slab.old.slots }
    ensures next { slab.new.vacant_key ≡ slab.old.vacant_key }
    ensures room { OnOk result (1 ≤ seats.new.room) }
    ensures slab_room { OnOk result (HasRoomFor slab.new 1) }
{
    slab.reserve(1)?;
    seats.reserve()?;
    Ok(())
}

/// The wait at a key has the status.
fn set_status(slab: &mut Slab<WaitRow>, key: usize, status: Status)
    ensures this { get slab.new key ≡ option_map (with_status status) (get slab.old key) }
    ensures others { (other : ℕ) → (other == key) ≡ false → get slab.new other ≡
        get slab.old other }
{
    if let Some(row) = slab.get_mut(key) {
        row.status = Some(status);
    }
}

/// The wait at each of these keys has the status.
pub fn set_statuses(slab: &mut Slab<WaitRow>, keys: &[usize], status: Status)
    ensures { (key : ℕ) → get slab.new key ≡ (if among_keys keys.now key
        then option_map (with_status status) (get slab.old key) else get slab.old key) }
{
    for key in keys.iter() {
        set_status(slab, *key, status);
    }
}

fn failed_row(row: WaitRow, fs: FsId) -> WaitRow
    ensures { result ≡ failed_row fs row }
{
    if row.trigger.fs == fs && row.status.is_none() {
        WaitRow {
            status: Some(Status::Fail(FailNo::ENOENT)),
            ..row
        }
    } else {
        row
    }
}

/// The wait at a key fails, if it is on a token of the file system and was not released.
pub fn fail_wait(slab: &mut Slab<WaitRow>, key: usize, fs: FsId)
    ensures this { get slab.new key ≡ option_map (failed_row fs) (get slab.old key) }
    ensures others { (other : ℕ) → (other == key) ≡ false → get slab.new other ≡
        get slab.old other }
{
    if let Some(row) = slab.get_mut(key) {
        *row = failed_row(*row, fs);
    }
}

/// The wait of a walker goes, and its key is free.
pub fn take_wait(seats: &mut Seating, slab: &mut Slab<WaitRow>, walker: WalkerId)
    ensures seats { seats.new.rows ≡ without_seat walker seats.old.rows }
    ensures room { seats.old.room ≤ seats.new.room }
    ensures slab_room { HasRoomFor slab.old 1 → HasRoomFor slab.new 1 }
    ensures next { slab.new.vacant_key ≡ next_key seats.old.rows slab.old walker }
    ensures freed { (key : ℕ) → get slab.new key ≡ (if frees (key_of seats.old.rows walker) key
        then None else get slab.old key) }
{
    let Some(key) = seats.key_of(walker) else {
        return;
    };
    let _row = slab.try_remove(key);
    seats.take(walker);
}

/// A walker that has no wait has this one.
pub fn put_wait(seats: &mut Seating, slab: &mut Slab<WaitRow>, wait: WaitRow)
    requires room { 1 ≤ seats.old.room }
    requires slab_room { HasRoomFor slab.old 1 }
    ensures seats { seats.new.rows ≡ with_seat (seat_at wait.walker slab.old.vacant_key)
        seats.old.rows }
    ensures vacant { get slab.old slab.old.vacant_key ≡ None }
    ensures put { (key : ℕ) → get slab.new key ≡ (if slab.old.vacant_key == key then Some wait
        else get slab.old key) }
{
    let walker = wait.walker;
    // The checker wants the types in a wait said.
    let _name: Option<Name> = None;
    let _trigger: Option<Trigger> = None;
    let _kind: Option<TokenKind> = None;
    let _status: Option<Status> = None;
    let key = slab.insert_reserved(wait);
    seats.put(Seat { walker, key });
}
