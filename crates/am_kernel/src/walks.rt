//! The walks of those who wait.

ghost use Rattle.std.specs.Prelude.{◌≡◌, ◌≤◌, ◌<◌, ◌+◌, ◌-◌, ◌==◌, ◌∷◌, ◌++◌, ◌↔◌, [], ℕ, true, false, Some, cond, drop, length, position, is_some, IsTrue, IfOk, OnOk, vec_len, vec_capacity};
ghost use Rattle.std.specs.Option.{option_copied};
ghost use Rattle.indexmap.specs.IndexMap.{spare};
ghost use Rattle.am_kernel.specs.Walks.{without_walk};
ghost use Rattle.am_kernel.specs.Resumes.{walk_in};
ghost use Rattle.am_kernel.specs.WalkTable.{IsSingle, has_turn};

use crate::row::WalkRow;
use am_names::WalkerId;
use indexmap::IndexMap;
use std::alloc::{AllocError, Global};
use std::marker::Model;

/// The walk that each waiting walker began, in order of waiting.
#[derive(Drop)]
pub struct Walks {
    /// Walks that are over, and behind them those of the walkers that wait. A walk that is over
    /// stays until there are more of them than others: so the first of many goes at once.
    rows: Vec<WalkRow>,
    /// How many are over.
    over: usize,
    /// The walkers that wait, each with the turn in which it came: turns rise from row to row, and
    /// so a row is found by halves.
    turns: IndexMap<u32, u64>,
    /// The turn of the next walk.
    next: u64,
}

impl Model for Walks {
    ghost use Rattle.am_kernel.specs.WalkTable.{WalkTable};

    ghost Value = { WalkTable };

    ghost use Rattle.am_kernel.specs.WalkTable.{table_of, KeepsWalks};

    ghost view = { table_of };

    ghost invariant = { KeepsWalks };
}

/// The turn of a walker, if it is one of these.
fn turn_of(turns: &IndexMap<u32, u64>, walker: WalkerId) -> Option<u64>
    ensures { is_some result ≡ has_turn turns.now.entries walker }
{
    turns.get(&walker.0).copied()
}

/// The walker is among them with this turn, and there is room for it.
fn add_turn(turns: &mut IndexMap<u32, u64>, walker: WalkerId, turn: u64)
    requires { 0 < spare turns.old }
    ensures { (other : ℕ) →
        has_turn turns.new.entries other ≡
        cond (walker == other) true (has_turn turns.old.entries other) }
{
    let _added = turns.insert(walker.0, turn);
}

/// The walker is among them no longer.
fn take_turn(turns: &mut IndexMap<u32, u64>, walker: WalkerId)
    ensures among { (other : ℕ) →
        has_turn turns.new.entries other ≡
        cond (walker == other) false (has_turn turns.old.entries other) }
    ensures room { spare turns.old ≤ spare turns.new }
{
    let _taken = turns.swap_remove(&walker.0);
}

/// The rows behind those of walks that are over.
fn live(rows: &Vec<WalkRow>, over: usize) -> &[WalkRow]
    requires { over ≤ vec_len rows.now }
    ensures { result.now ≡ drop over rows.now.items }
{
    &rows[over..]
}

/// Whether the walker came before that turn.
fn is_before(turns: &IndexMap<u32, u64>, walker: WalkerId, turn: u64) -> bool {
    match turns.get(&walker.0) {
        Some(other) => *other < turn,
        None => false,
    }
}

/// The place of the walker's walk, found by looking at each.
fn scanned_place(rows: &[WalkRow], walker: WalkerId) -> Option<usize>
    ensures { result ≡ position (λ row. row.walker == walker) rows.now }
{
    rows.iter().position(|row| row.walker == walker)
}

/// Where the walk of that turn stands, if each that came before it and is over was among the first.
fn counted_place(rows: &[WalkRow], turns: &IndexMap<u32, u64>, turn: u64) -> usize {
    let Some(row) = rows.first() else {
        return 0;
    };
    let first = turn_of(turns, row.walker).unwrap_or(turn);
    turn.wrapping_sub(first) as usize
}

/// Whether the walker's walk is at this place.
fn is_at(rows: &[WalkRow], place: usize, walker: WalkerId) -> bool
    requires single { IsSingle rows.now }
    ensures { result ≡ true → position (λ row. row.walker == walker) rows.now ≡ Some place }
{
    let Some(row) = rows.get(place) else {
        return false;
    };
    row.walker == walker
}

/// The place of the walker's walk, which came in that turn if there is one: by its count from the
/// first, or by halves where walks between them are over.
fn place_of(
    rows: &[WalkRow],
    turns: &IndexMap<u32, u64>,
    walker: WalkerId,
    turn: u64,
) -> Option<usize>
    requires single { IsSingle rows.now }
    ensures { result ≡ position (λ row. row.walker == walker) rows.now }
{
    let counted = counted_place(rows, turns, turn);
    if is_at(rows, counted, walker) {
        return Some(counted);
    }
    let halved = rows.partition_point(|row| is_before(turns, row.walker, turn));
    if is_at(rows, halved, walker) {
        return Some(halved);
    }
    // Turns begin anew after 2^64 of them.
    scanned_place(rows, walker)
}

/// The walk of a walker, which came in that turn if there is one.
fn row_of<'a>(
    rows: &'a [WalkRow],
    turns: &IndexMap<u32, u64>,
    walker: WalkerId,
    turn: u64,
) -> Option<&'a WalkRow>
    requires single { IsSingle rows.now }
    ensures { option_copied result ≡ walk_in rows.now walker }
{
    let Some(place) = place_of(rows, turns, walker, turn) else {
        return None;
    };
    rows.get(place)
}

/// The first rows go.
fn cut(rows: &mut Vec<WalkRow>, count: usize)
    requires { count ≤ vec_len rows.old }
    ensures items { rows.new.items ≡ drop count rows.old.items }
    ensures len { vec_len rows.new ≤ vec_len rows.old }
    ensures capacity { vec_capacity rows.new ≡ vec_capacity rows.old }
{
    let left = rows.len() - count;
    rows.rotate_left(count);
    rows.truncate(left);
}

/// The first walk is over.
fn pass(rows: &mut Vec<WalkRow>, over: &mut usize)
    requires { over.old < vec_len rows.old }
    ensures rows { drop over.new rows.new.items ≡ drop (over.old + 1) rows.old.items }
    ensures within { over.new ≤ vec_len rows.new }
    ensures len { vec_len rows.new ≤ vec_len rows.old }
    ensures capacity { vec_capacity rows.new ≡ vec_capacity rows.old }
{
    let passed = *over + 1;
    if rows.len() - passed < passed {
        cut(rows, passed);
        *over = 0;
    } else {
        *over = passed;
    }
}

/// The walk of a walker, which came in that turn if there is one, is over.
fn take_row(
    rows: &mut Vec<WalkRow>,
    over: &mut usize,
    turns: &IndexMap<u32, u64>,
    walker: WalkerId,
    turn: u64,
)
    requires within { over.old ≤ vec_len rows.old }
    requires single { IsSingle (drop over.old rows.old.items) }
    ensures rows { drop over.new rows.new.items ≡
        without_walk walker (drop over.old rows.old.items) }
    ensures within { over.new ≤ vec_len rows.new }
    ensures len { vec_len rows.new ≤ vec_len rows.old }
    ensures capacity { vec_capacity rows.new ≡ vec_capacity rows.old }
{
    let Some(place) = place_of(live(rows, *over), turns, walker, turn) else {
        return;
    };
    if place == 0 {
        pass(rows, over);
    } else {
        let _row = rows.remove(*over + place);
    }
}

/// The same rows once more, with room for so many more.
fn copies_of(alloc: Global, rows: &[WalkRow], room: usize) -> Result<Vec<WalkRow>, AllocError>
    ensures items { IfOk result (λ copies. copies.items ≡ rows.now) }
    ensures room { IfOk result (λ copies. room ≤ vec_capacity copies - vec_len copies) }
{
    let mut copies = Vec::with_capacity(alloc, rows.len())?;
    for row in rows {
        copies.push(row.copy(alloc)?)?;
    }
    copies.reserve(room)?;
    Ok(copies)
}

/// Whether these are the same walks in the same order.
fn are_same(rows: &[WalkRow], others: &[WalkRow]) -> bool
    ensures { IsTrue result ↔ (rows.now ≡ others.now) }
{
    rows.len() == others.len()
        && rows
            .iter()
            .zip(others)
            .all(|(row, other)| row.is_same(other))
}

impl Walks {
    /// Nobody waits.
    pub fn new(alloc: Global) -> Walks
        ensures { result.rows ≡ [] }
    {
        Walks {
            rows: Vec::new(alloc),
            over: 0,
            turns: IndexMap::new(alloc),
            next: 0,
        }
    }

    /// The same walks once more, with no less room.
    pub fn copy(&self, alloc: Global) -> Result<Walks, AllocError>
        ensures rows { IfOk result (λ copy. copy.rows ≡ self.now.rows) }
        ensures room { IfOk result (λ copy. self.now.room ≤ copy.room) }
        ensures seats { IfOk result (λ copy. self.now.seats ≤ copy.seats) }
    {
        let room = self.rows.capacity() - self.rows.len();
        let rows = copies_of(alloc, live(&self.rows, self.over), room)?;
        let mut turns = self.turns.clone()?;
        turns.reserve(self.turns.capacity() - self.turns.len())?;
        Ok(Walks {
            rows,
            over: 0,
            turns,
            next: self.next,
        })
    }

    /// Whether both have the same walks.
    pub fn is_same(&self, other: &Walks) -> bool
        ensures { IsTrue result ↔ (self.now.rows ≡ other.now.rows) }
    {
        are_same(self.as_slice(), other.as_slice())
    }

    /// The walks, in order of waiting.
    pub fn as_slice(&self) -> &[WalkRow]
        ensures { result.now ≡ self.now.rows }
    {
        live(&self.rows, self.over)
    }

    /// The walk of a walker.
    pub fn get(&self, walker: WalkerId) -> Option<&WalkRow>
        ensures { option_copied result ≡ walk_in self.now.rows walker }
    {
        let turn = turn_of(&self.turns, walker)?;
        row_of(self.as_slice(), &self.turns, walker, turn)
    }

    /// Room for one more walk.
    pub fn reserve(&mut self) -> Result<(), AllocError>
        ensures rows { self.new.rows ≡ self.old.rows }
        ensures room { OnOk result (1 ≤ self.new.room) }
        ensures seats { OnOk result (1 ≤ self.new.seats) }
    {
        self.rows.reserve(1)?;
        self.turns.reserve(1)?;
        Ok(())
    }

    /// The walk of a walker is over.
    pub fn take(&mut self, walker: WalkerId)
        ensures rows { self.new.rows ≡ without_walk walker self.old.rows }
        ensures room { self.old.room ≤ self.new.room }
        ensures seats { self.old.seats ≤ self.new.seats }
    {
        let Some(turn) = turn_of(&self.turns, walker) else {
            return;
        };
        take_row(&mut self.rows, &mut self.over, &self.turns, walker, turn);
        take_turn(&mut self.turns, walker);
    }

    /// The walk of a walker that has none.
    fn push(&mut self, row: WalkRow)
        requires room { 1 ≤ self.old.room }
        requires seats { 1 ≤ self.old.seats }
        requires none { walk_in self.old.rows row.walker ≡ None }
        ensures { self.new.rows ≡ self.old.rows ++ row ∷ [] }
    {
        // The checker wants it said that there are as many rows as the length.
        let _rows = self.rows.as_slice();
        let turn = self.next;
        add_turn(&mut self.turns, row.walker, turn);
        self.rows.push_reserved(row);
        self.next = turn.wrapping_add(1);
    }

    /// The walk of a walker that waits, in place of the one that it had.
    pub fn put(&mut self, row: WalkRow)
        requires room { 1 ≤ self.old.room }
        requires seats { 1 ≤ self.old.seats }
        ensures { self.new.rows ≡ without_walk row.walker self.old.rows ++ row ∷ [] }
    {
        self.take(row.walker);
        self.push(row);
    }
}
