//! The daemon's jobs, as a table.

ghost use Rattle.std.specs.Prelude.{◌≡◌, ◌≤◌, ◌<◌, ◌+◌, ◌-◌, ◌==◌, ◌∷◌, ◌++◌, ◌↔◌, [], ℕ, true, false, None, Some, IsTrue, cond, map, set, get_or, drop, remove, find, position, is_some, IfOk, OnOk, vec_len, vec_capacity, length};
ghost use Rattle.std.specs.Option.{option_copied};
ghost use Rattle.indexmap.specs.IndexMap.{spare};
ghost use Rattle.am_daemon.specs.State.{JobPlan, job_plan};
ghost use Rattle.am_daemon.specs.Acts.{walked, is_ended, finished_in};
ghost use Rattle.am_daemon.specs.JobTable.{IsSingle, has_turn, tokens_of};

use am_job::{Job, Outcome};
use am_names::JobId;
use indexmap::IndexMap;
use std::alloc::{AllocError, Global};
use std::marker::Model;

/// The jobs that have not ended, in order of delivery. A token has one at most.
#[derive(Drop)]
pub struct JobTable {
    /// Jobs that ended, and behind them those that go on. One that ended as the first stays until
    /// there are more of them than others: so the first of many goes at once.
    rows: Vec<Job>,
    /// How many ended.
    over: usize,
    /// The tokens of the jobs that go on, each with the turn in which it came: turns rise from job
    /// to job, and so a job is found by halves.
    turns: IndexMap<u32, u64>,
    /// The turn of the next job.
    next: u64,
}

impl Model for JobTable {
    ghost use Rattle.am_daemon.specs.JobTable.{JobRows};

    ghost Value = { JobRows };

    ghost use Rattle.am_daemon.specs.JobTable.{table_of, KeepsJobs};

    ghost view = { table_of };

    ghost invariant = { KeepsJobs };
}

/// The turn of a token, if it is one of these.
fn turn_of(turns: &IndexMap<u32, u64>, job: JobId) -> Option<u64>
    ensures { is_some result ≡ has_turn turns.now.entries job }
{
    turns.get(&job.0).copied()
}

/// The token is among them with this turn, and there is room for it.
fn add_turn(turns: &mut IndexMap<u32, u64>, job: JobId, turn: u64)
    requires { 0 < spare turns.old }
    ensures { (other : ℕ) →
        has_turn turns.new.entries other ≡
        cond (job == other) true (has_turn turns.old.entries other) }
{
    let _added = turns.insert(job.0, turn);
}

/// The token is among them no longer.
fn take_turn(turns: &mut IndexMap<u32, u64>, job: JobId)
    ensures { (other : ℕ) →
        has_turn turns.new.entries other ≡
        cond (job == other) false (has_turn turns.old.entries other) }
{
    let _taken = turns.swap_remove(&job.0);
}

/// The jobs behind those that ended.
fn live(rows: &Vec<Job>, over: usize) -> &[Job]
    requires { over ≤ vec_len rows.now }
    ensures { result.now ≡ drop over rows.now.items }
{
    &rows[over..]
}

/// Whether the job came before that turn.
fn is_before(turns: &IndexMap<u32, u64>, job: JobId, turn: u64) -> bool {
    match turns.get(&job.0) {
        Some(other) => *other < turn,
        None => false,
    }
}

/// The place of the token's job, found by looking at each.
fn scanned_place(rows: &[Job], job: JobId) -> Option<usize>
    ensures { result ≡ position (λ row. row.token == job) rows.now }
{
    rows.iter().position(|row| row.job() == job)
}

/// Whether the token's job is at this place.
fn is_at(rows: &[Job], place: usize, job: JobId) -> bool
    requires single { IsSingle (tokens_of rows.now) }
    ensures { result ≡ true → position (λ row. row.token == job) rows.now ≡ Some place }
{
    let Some(row) = rows.get(place) else {
        return false;
    };
    row.job() == job
}

/// The place of the token's job, which came in that turn if there is one.
fn place_of(rows: &[Job], turns: &IndexMap<u32, u64>, job: JobId, turn: u64) -> Option<usize>
    requires single { IsSingle (tokens_of rows.now) }
    ensures { result ≡ position (λ row. row.token == job) rows.now }
{
    let halved = rows.partition_point(|row| is_before(turns, row.job(), turn));
    if is_at(rows, halved, job) {
        return Some(halved);
    }
    // Turns begin anew after 2^64 of them.
    scanned_place(rows, job)
}

/// The job at this place has left what comes after its next act. Tells whether that is nothing.
fn done_at(jobs: &mut [Job], at: usize, outcome: Outcome) -> bool
    requires { at < length jobs.old }
    ensures rows { (d : JobPlan) → map job_plan jobs.new
        ≡ set (map job_plan jobs.old) at (walked outcome (get_or (map job_plan jobs.old) at d)) }
    ensures ended { (d : JobPlan) → result
        ≡ is_ended (walked outcome (get_or (map job_plan jobs.old) at d)) }
    ensures len { length jobs.new ≡ length jobs.old }
{
    let row = &mut jobs[at];
    row.done(outcome);
    row.next().is_none()
}

/// The job at this place behind those that ended has left what comes after its next act. Tells
/// whether that is nothing.
fn walk_at(rows: &mut Vec<Job>, over: usize, at: usize, outcome: Outcome) -> bool
    requires { over + at < vec_len rows.old }
    ensures rows { (d : JobPlan) → map job_plan (drop over rows.new.items)
        ≡ set (map job_plan (drop over rows.old.items)) at
        (walked outcome (get_or (map job_plan (drop over rows.old.items)) at d)) }
    ensures ended { (d : JobPlan) → result
        ≡ is_ended (walked outcome (get_or (map job_plan (drop over rows.old.items)) at d)) }
    ensures len { vec_len rows.new ≡ vec_len rows.old }
    ensures capacity { vec_capacity rows.new ≡ vec_capacity rows.old }
{
    done_at(&mut rows[over..], at, outcome)
}

/// The first jobs go.
fn cut(rows: &mut Vec<Job>, count: usize)
    requires { count ≤ vec_len rows.old }
    ensures items { rows.new.items ≡ drop count rows.old.items }
    ensures len { vec_len rows.new ≤ vec_len rows.old }
    ensures capacity { vec_capacity rows.new ≡ vec_capacity rows.old }
{
    let left = rows.len() - count;
    rows.rotate_left(count);
    rows.truncate(left);
}

/// One more job has ended, the first of those that went on.
fn pass(rows: &mut Vec<Job>, over: &mut usize)
    requires { over.old < vec_len rows.old }
    ensures rows { drop over.new rows.new.items ≡ drop (over.old + 1) rows.old.items }
    ensures within { over.new ≤ vec_len rows.new }
    ensures len { vec_len rows.new ≤ vec_len rows.old }
    ensures capacity { vec_capacity rows.new ≡ vec_capacity rows.old }
{
    let passed = *over + 1;
    if rows.len() - passed < passed {
        cut(rows, passed);
        *over = 0;
    } else {
        *over = passed;
    }
}

/// The job at this place behind those that ended goes.
fn take_at(rows: &mut Vec<Job>, over: &mut usize, at: usize)
    requires { over.old + at < vec_len rows.old }
    ensures rows { drop over.new rows.new.items ≡ remove (drop over.old rows.old.items) at }
    ensures within { over.new ≤ vec_len rows.new }
    ensures len { vec_len rows.new ≤ vec_len rows.old }
    ensures capacity { vec_capacity rows.new ≡ vec_capacity rows.old }
{
    if at == 0 {
        pass(rows, over);
    } else {
        let _row = rows.remove(*over + at);
    }
}

/// The same jobs once more, with room for so many more.
fn copies_of(alloc: Global, rows: &[Job], room: usize) -> Result<Vec<Job>, AllocError>
    ensures items { IfOk result (λ copies. copies.items ≡ rows.now) }
    ensures room { IfOk result (λ copies. room ≤ vec_capacity copies - vec_len copies) }
{
    let mut copies = Vec::with_capacity(alloc, rows.len())?;
    for row in rows {
        copies.push(row.copy(alloc)?)?;
    }
    copies.reserve(room)?;
    Ok(copies)
}

/// Whether these are the same jobs in the same order.
fn are_same(rows: &[Job], others: &[Job]) -> bool
    ensures { IsTrue result ↔ (rows.now ≡ others.now) }
{
    rows.len() == others.len()
        && rows
            .iter()
            .zip(others)
            .all(|(row, other)| row.is_same(other))
}

impl JobTable {
    /// No job.
    pub fn new(alloc: Global) -> JobTable
        ensures { result.rows ≡ [] }
    {
        JobTable {
            rows: Vec::new(alloc),
            over: 0,
            turns: IndexMap::new(alloc),
            next: 0,
        }
    }

    /// The same jobs once more, with no less room.
    pub fn copy(&self, alloc: Global) -> Result<JobTable, AllocError>
        ensures rows { IfOk result (λ copy. copy.rows ≡ self.now.rows) }
        ensures room { IfOk result (λ copy. self.now.room ≤ copy.room) }
    {
        let room = self.rows.capacity() - self.rows.len();
        let rows = copies_of(alloc, live(&self.rows, self.over), room)?;
        let mut turns = self.turns.clone()?;
        turns.reserve(self.turns.capacity() - self.turns.len())?;
        Ok(JobTable {
            rows,
            over: 0,
            turns,
            next: self.next,
        })
    }

    /// Whether both have the same jobs.
    pub fn is_same(&self, other: &JobTable) -> bool
        ensures { IsTrue result ↔ (self.now.rows ≡ other.now.rows) }
    {
        are_same(self.as_slice(), other.as_slice())
    }

    /// The jobs, in order of delivery.
    pub fn as_slice(&self) -> &[Job]
        ensures { result.now ≡ self.now.rows }
    {
        live(&self.rows, self.over)
    }

    /// The place of the token's job.
    fn place_of(&self, job: JobId) -> Option<usize>
        ensures { result ≡ position (λ row. row.token == job) self.now.rows }
    {
        let turn = turn_of(&self.turns, job)?;
        place_of(self.as_slice(), &self.turns, job, turn)
    }

    /// The job of a token.
    pub fn get(&self, job: JobId) -> Option<&Job>
        ensures { option_copied result ≡ find (λ row. row.token == job) self.now.rows }
    {
        let place = self.place_of(job)?;
        self.as_slice().get(place)
    }

    /// Makes room for one more job.
    pub fn reserve(&mut self) -> Result<(), AllocError>
        ensures rows { self.new.rows ≡ self.old.rows }
        ensures room { OnOk result (1 ≤ self.new.room) }
    {
        self.rows.reserve(1)?;
        self.turns.reserve(1)?;
        Ok(())
    }

    /// A job goes last. Its token has none yet.
    pub fn push_reserved(&mut self, job: Job)
        requires room { 1 ≤ self.old.room }
        requires fresh { find (λ row. row.token == job.token) self.old.rows ≡ None }
        ensures { self.new.rows ≡ self.old.rows ++ job ∷ [] }
    {
        // The checker wants it said that there are as many jobs as the length.
        let _rows = self.rows.as_slice();
        let turn = self.next;
        add_turn(&mut self.turns, job.job(), turn);
        self.rows.push_reserved(job);
        self.next = turn.wrapping_add(1);
    }

    /// The job of a token has left what comes after its next act; it is gone where that is
    /// nothing. No memory is taken.
    pub fn go_on(&mut self, job: JobId, outcome: Outcome)
        ensures { map job_plan self.new.rows
            ≡ finished_in job outcome (map job_plan self.old.rows) }
    {
        let Some(at) = self.place_of(job) else {
            return;
        };
        if walk_at(&mut self.rows, self.over, at, outcome) {
            take_at(&mut self.rows, &mut self.over, at);
            take_turn(&mut self.turns, job);
        }
    }
}
