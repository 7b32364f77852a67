//! The ends of a pipe.

ghost use Rattle.std.specs.Prelude.{◌≡◌, ◌+◌, ◌^◌, ◌<◌, ◌≤◌, ◌⊎◌, ℕ, true, false, [], ◌∷◌, ◌++◌, IsTrue};
ghost use Rattle.std.specs.Prelude.{length, vec_len, vec_capacity, All};
ghost use Rattle.std.specs.Prelude.{IfOk, IfErr, IfSome, IfNone, OnOk, OnErr, MatchOption, ◌||◌};
ghost use Rattle.crossbeam_queue.specs.Passes.{IsPassOf, ruled_capacity};
ghost use Rattle.am_pipe.specs.Ends.{taken_by, AreAsPut, HasEachOnce, IsDrained, IsFull, fresh_taker, has_room};
ghost use Rattle.am_pipe.specs.Meter.{read_by};
ghost use Rattle.am_pipe.specs.Rule.{end_view, known, weigh, weigh_to};

use crate::line::Line;
use crate::meter::{
    CountsPut, CountsTake, Meter, MeterSeat, ReadsCount, ReadsEnd, ReadsPuts, ReadsTakes, Seats,
};
use crate::note::Note;
use crate::rule::{EndView, Ends, Put, Queue, Take, Whole};
use crossbeam_queue::Pass;
use std::alloc::{AllocError, Global};
use std::marker::Model;
use std::sync::{Arc, Wait};
use std::thread;

/// The end into which the kernel puts notes. A contract sees its pipe, for how many notes the pipe
/// has room, how many take ends it has, the notes that were put, in order, how often this end read
/// the number of takes that are over, and what it read last.
#[derive(Drop)]
pub struct PutEnd {
    line: Arc<Line>,
    pass: Pass<(u64, Note), EndView>,
    seat: MeterSeat,
    count: u64,
}

impl Model for PutEnd {
    ghost use Rattle.std.specs.Prelude.{◌≡◌, true, [], length};
    ghost use Rattle.std.specs.Arc.{arc_value};
    ghost use Rattle.crossbeam_queue.specs.Passes.{IsPassOf, ruled_capacity};
    ghost use Rattle.am_pipe.specs.Ends.{Putter};
    ghost use Rattle.am_pipe.specs.Meter.{read_by};
    ghost use Rattle.am_pipe.specs.Rule.{end_view, known};

    ghost Value = { Putter };

    ghost view = { λ s. record {
      pipe = s.pass.table_id;
      room = ruled_capacity (arc_value s.line).queue;
      takers = (known s.pass).made;
      sent = (known s.pass).sent;
      looks = (read_by s.seat).looks;
      freed = (read_by s.seat).freed;
    } };

    ghost invariant = { λ s. IsPassOf (arc_value s.line).queue s.pass
        × (s.seat.table_id ≡ (arc_value s.line).meter.shared.table_id)
        × (known s.pass ≡ end_view true (known s.pass).made 0 (known s.pass).sent [])
        × (s.count ≡ length (known s.pass).sent)
        × ((read_by s.seat).put ≡ length (known s.pass).sent) };
}

/// An end from which a worker of the daemon takes notes. A contract sees its pipe, what was taken
/// from this end, in order, whether it found the pipe closed, how often it looked how many puts and
/// takes are over, and what it read then.
#[derive(Drop)]
pub struct TakeEnd {
    line: Arc<Line>,
    pass: Pass<(u64, Note), EndView>,
    seat: MeterSeat,
}

impl Model for TakeEnd {
    ghost use Rattle.std.specs.Prelude.{◌≡◌, false, [], length};
    ghost use Rattle.std.specs.Arc.{arc_value};
    ghost use Rattle.crossbeam_queue.specs.Passes.{IsPassOf};
    ghost use Rattle.am_pipe.specs.Ends.{Taker};
    ghost use Rattle.am_pipe.specs.Meter.{read_by};
    ghost use Rattle.am_pipe.specs.Rule.{end_view, known};

    ghost Value = { Taker };

    ghost view = { λ s. record {
      pipe = s.pass.table_id;
      got = (known s.pass).got;
      over = (read_by s.seat).over;
      looks = (read_by s.seat).looks;
      seen = (read_by s.seat).seen;
      freed = (read_by s.seat).freed;
    } };

    ghost invariant = { λ s. IsPassOf (arc_value s.line).queue s.pass
        × (s.seat.table_id ≡ (arc_value s.line).meter.shared.table_id)
        × (known s.pass ≡ end_view false 0 1 [] (known s.pass).got)
        × ((read_by s.seat).took ≡ length (known s.pass).got) };
}

/// Closes a pipe, from any thread.
#[derive(Drop)]
pub struct Closer {
    line: Arc<Line>,
}

impl Closer {
    /// No take end of the pipe waits for a note any more. What was put, and what is put yet, can be
    /// taken.
    pub fn close<R: Wait>(&self, rt: &R) {
        self.line.close(rt);
    }
}

impl PutEnd {
    /// What closes this pipe.
    pub fn closer(&self) -> Result<Closer, AllocError> {
        Ok(Closer {
            line: Arc::try_clone(&self.line)?,
        })
    }

    /// Puts a note behind those that were put before, at the next position: the first note put has
    /// position 1. One who waits at a take end is woken. Where the pipe is full, or after 2^64 - 1
    /// notes, the note comes back. It may wait for a take that is under way.
    ///
    /// A refused put has read, in this call, how many takes were over, and the notes that were put
    /// and not taken then were as many as the pipe has room for.
    pub fn put<R: Wait>(&mut self, rt: &R, note: Note) -> Result<(), Note>
        ensures pipe { (self.new.pipe ≡ self.old.pipe) × (self.new.room ≡ self.old.room) }
        ensures takers { self.new.takers ≡ self.old.takers }
        ensures looked { self.old.looks < self.new.looks }
        ensures ok { OnOk result (self.new.sent ≡ self.old.sent ++ note ∷ []) }
        ensures err { IfErr result (λ back. (back ≡ note) × (self.new.sent ≡ self.old.sent)) }
        ensures full { OnErr result (IsFull self.new) }
    {
        put_in(
            rt,
            &self.line,
            &mut self.pass,
            &mut self.seat,
            self.count,
            note,
        )?;
        self.count += 1;
        self.line
            .meter
            .shared
            .fetch_add::<CountsPut>(&mut self.seat, 2, 1);
        self.line.tell_one(rt);
        Ok(())
    }
}

/// Puts a note behind so many, unless the takes that are over leave no room for it.
fn put_in<R: Wait>(
    rt: &R,
    line: &Line,
    pass: &mut Pass<(u64, Note), EndView>,
    seat: &mut MeterSeat,
    count: u64,
    note: Note,
) -> Result<(), Note>
    requires queue { IsPassOf line.now.queue pass.old × ((known pass.old).puts ≡ true) }
    requires count { count ≡ length (known pass.old).sent }
    requires seat { seat.old.table_id ≡ line.now.meter.shared.table_id }
    ensures queue { IsPassOf line.now.queue pass.new × (pass.new.table_id ≡ pass.old.table_id) }
    ensures seat { seat.new.table_id ≡ seat.old.table_id }
    ensures looked { (read_by seat.old).looks < (read_by seat.new).looks }
    ensures given { (read_by seat.new).put ≡ (read_by seat.old).put }
    ensures ok { OnOk result ((count + 1 < 2 ^ 64) × (known pass.new ≡ end_view true
        (known pass.old).made (known pass.old).parts ((known pass.old).sent ++ note ∷ [])
        (known pass.old).got)) }
    ensures err { IfErr result (λ back. (back ≡ note) × (known pass.new ≡ known pass.old)
        × (has_room count (read_by seat.new).freed (ruled_capacity line.now.queue) ≡ false)) }
{
    let room = line.queue.capacity() as u64;
    let mut note = note;
    for _ in rt.forever() {
        let taken = line.meter.shared.load::<ReadsCount>(seat, 0);
        if !has_room(count, taken, room) {
            return Err(note);
        }
        match line.queue.push_as::<Put, R>(rt, pass, (count + 1, note)) {
            Ok(()) => return Ok(()),
            // A take that is counted has made room.
            Err((_, back)) => note = back,
        }
    }
    unreachable!()
}

/// Whether a pipe has room for one note more, and a position for it.
fn has_room(put: u64, taken: u64, room: u64) -> bool
    ensures { result ≡ has_room put taken room }
{
    put < u64::MAX && (put < room || put - room < taken)
}

impl TakeEnd {
    /// Takes the oldest note out of the pipe, with its position; nothing where the pipe is empty.
    /// The positions that one end takes rise. It may wait for a put or a take that is under way.
    ///
    /// A take that finds nothing has read, in this call, how many puts were over, and after that how
    /// many takes were, and these were as many.
    pub fn take<R: Wait>(&mut self, rt: &R) -> Option<(u64, Note)>
        ensures pipe { self.new.pipe ≡ self.old.pipe }
        ensures got { MatchOption result (self.new.got ≡ self.old.got)
            (λ x. self.new.got ≡ self.old.got ++ x ∷ []) }
        ensures rising { IfSome result (λ x. All (λ y. y.0 < x.0) self.old.got) }
        ensures looked { IfNone result (self.old.looks < self.new.looks) }
        ensures drained { IfNone result (IsDrained self.new) }
        ensures looks { self.old.looks ≤ self.new.looks }
        ensures over { self.new.over ≡ self.old.over }
    {
        for _ in rt.forever() {
            if let Some(found) = self.line.queue.pop_as::<Take, R>(rt, &mut self.pass) {
                self.line
                    .meter
                    .shared
                    .fetch_add::<CountsTake>(&mut self.seat, 0, 1);
                return Some(found);
            }
            // Where a note was put and isn't taken yet, another end is about to count its take.
            if self.is_drained() {
                return None;
            }
            thread::yield_now();
        }
        unreachable!()
    }

    /// Reads how many puts are over, and then how many takes: whether these are as many.
    fn is_drained(&mut self) -> bool
        ensures same { (self.new.pipe ≡ self.old.pipe) × (self.new.got ≡ self.old.got)
            × (self.new.over ≡ self.old.over) }
        ensures looked { self.old.looks < self.new.looks }
        ensures drained { IsTrue result → IsDrained self.new }
    {
        let shared = &self.line.meter.shared;
        let put = shared.load::<ReadsPuts>(&mut self.seat, 2);
        let taken = shared.load::<ReadsTakes>(&mut self.seat, 0);
        put <= taken
    }

    /// Reads whether the pipe is closed.
    fn is_closed(&mut self) -> bool
        ensures same { (self.new.pipe ≡ self.old.pipe) × (self.new.got ≡ self.old.got)
            × (self.new.looks ≡ self.old.looks) }
        ensures over { self.new.over ≡ (result || self.old.over) }
    {
        let closed = self.line.meter.shared.load::<ReadsEnd>(&mut self.seat, 1);
        closed == 1
    }

    /// Takes the oldest note, and waits for one where the pipe is empty; nothing once the pipe is
    /// closed and what was put before is taken: it has read then, in this call, that as many takes as
    /// puts were over.
    pub fn wait<R: Wait>(&mut self, rt: &R) -> Option<(u64, Note)>
        ensures pipe { self.new.pipe ≡ self.old.pipe }
        ensures got { MatchOption result (self.new.got ≡ self.old.got)
            (λ x. self.new.got ≡ self.old.got ++ x ∷ []) }
        ensures rising { IfSome result (λ x. All (λ y. y.0 < x.0) self.old.got) }
        ensures over { IfNone result (self.new.over ≡ true) }
        ensures looked { IfNone result (self.old.looks < self.new.looks) }
        ensures drained { IfNone result (IsDrained self.new) }
    {
        for _ in rt.forever() {
            let moves = self.line.moves(rt);
            // Read before the take: what was put before the pipe was closed is found.
            let is_over = self.is_closed();
            if let Some(found) = self.take(rt) {
                return Some(found);
            }
            if is_over {
                return None;
            }
            self.line.wait_past(rt, moves);
        }
        unreachable!()
    }
}

/// A pipe with room for so many notes, and nothing in it: its put end, and so many take ends.
pub fn pipe(
    alloc: Global,
    capacity: usize,
    takers: usize,
) -> Result<(PutEnd, Vec<TakeEnd>), AllocError>
    requires { (0 < capacity) × (0 < takers) }
    ensures put { IfOk result (λ ends. (ends.0.sent ≡ []) × (ends.0.room ≡ capacity)
        × (ends.0.takers ≡ takers)) }
    ensures takers { IfOk result (λ ends. vec_len ends.1 ≡ takers) }
    ensures each { IfOk result (λ ends.
        All (λ t. t ≡ fresh_taker ends.0.pipe) ends.1.items) }
{
    let (queue, mut pass) = Queue::ruled(alloc, capacity)?;
    let (meter, mut seat) = Meter::of_words(alloc, &[0, 0, 0], &())?;
    let line = Arc::new(alloc, Line::new(queue, meter))?;
    let mut ends = Vec::with_capacity(alloc, takers)?;
    for _made in 0..takers {
        let theirs = Arc::try_clone(&line)?;
        let other = theirs.queue.another::<Ends>(&mut pass);
        let other_seat = theirs.meter.shared.split_seat::<Seats>(&mut seat);
        ends.push_reserved(TakeEnd {
            line: theirs,
            pass: other,
            seat: other_seat,
        });
    }
    let put = PutEnd {
        line,
        pass,
        seat,
        count: 0,
    };
    Ok((put, ends))
}

/// Takes what is left in a pipe, with all its ends in one hand: what its take ends took and what is
/// left are all notes that were put, each once. Where there is no memory the ends come back.
pub fn gather<R: Wait>(
    rt: &R,
    alloc: Global,
    put: PutEnd,
    takers: Vec<TakeEnd>,
) -> Result<Vec<(u64, Note)>, (PutEnd, Vec<TakeEnd>)>
    requires all { vec_len takers ≡ put.takers }
    requires pipe { All (λ t. t.pipe ≡ put.pipe) takers.items }
    ensures notes { IfOk result (λ left. AreAsPut put.sent (taken_by takers.items ++ left.items)) }
    ensures once { IfOk result (λ left.
        HasEachOnce (length put.sent) (taken_by takers.items ++ left.items)) }
    ensures err { IfErr result (λ ends. (ends.0 ≡ put) × (ends.1.items ≡ takers.items)) }
{
    let Ok(mut left) = Vec::with_capacity(alloc, put.line.queue.capacity()) else {
        return Err((put, takers));
    };
    let PutEnd {
        line,
        pass,
        seat: _,
        count: _,
    } = put;
    let mut pass = pass;
    for end in takers {
        give_up(&line.queue, &mut pass, end);
    }
    left = take_rest(rt, &line.queue, pass, left);
    Ok(left)
}

/// A take end is given up: the put end stands for it, and knows what was taken from it.
fn give_up(queue: &Queue, pass: &mut Pass<(u64, Note), EndView>, end: TakeEnd)
    requires queue { IsPassOf queue.now pass.old × (end.pipe ≡ pass.old.table_id) }
    requires puts { (known pass.old).puts ≡ true }
    ensures queue { IsPassOf queue.now pass.new × (pass.new.table_id ≡ pass.old.table_id) }
    ensures known { known pass.new ≡ end_view true (known pass.old).made
        ((known pass.old).parts + 1) (known pass.old).sent ((known pass.old).got ++ end.got) }
{
    let TakeEnd {
        line: _,
        pass: other,
        seat: _,
    } = end;
    queue.absorb::<Ends>(pass, other);
}

/// Takes what is left in the queue, by the pass that stands for all take ends.
fn take_rest<R: Wait>(
    rt: &R,
    queue: &Queue,
    mut pass: Pass<(u64, Note), EndView>,
    mut left: Vec<(u64, Note)>,
) -> Vec<(u64, Note)>
    requires queue { IsPassOf queue.now pass }
    requires whole { ((known pass).puts ≡ true) × ((known pass).parts ≡ (known pass).made) }
    requires room { (left.items ≡ []) × (ruled_capacity queue.now ≤ vec_capacity left) }
    ensures notes { AreAsPut (known pass).sent ((known pass).got ++ result.items) }
    ensures once { (h : ℕ → ℕ) → weigh h ((known pass).got ++ result.items)
        ≡ weigh_to h (length (known pass).sent) }
{
    let count = queue.len_as::<Whole, R>(rt, &mut pass);
    for _i in 0..count {
        match queue.pop_as::<Whole, R>(rt, &mut pass) {
            Some(x) => left.push_reserved(x),
            None => unreachable!(),
        }
    }
    queue.learn_as::<Whole>(&mut pass);
    left
}
