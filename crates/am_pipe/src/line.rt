//! What the ends of a pipe share.

ghost use Rattle.std.specs.Prelude.{◌≡◌};

use crate::meter::{Closes, Meter};
use crate::rule::Queue;
use std::sync::{Condvar, Mutex, Wait};

/// The queue of a pipe, its numbers, and what tells a take end that waits of a put. The moves are
/// counted, so that none falls between a look and a wait.
#[derive(Drop)]
pub struct Line {
    pub queue: Queue,
    pub meter: Meter,
    moves: Mutex<u64>,
    moved: Condvar,
    ghost wide: { meter.shared.table_id.words ≡ 3 },
}

impl Line {
    pub fn new(queue: Queue, meter: Meter) -> Line
        requires { meter.shared.table_id.words ≡ 3 }
        ensures { (result.queue ≡ queue) × (result.meter ≡ meter) }
    {
        Line {
            queue,
            meter,
            moves: Mutex::new(0),
            moved: Condvar::new(),
        }
    }

    /// How many moves there were. Asked for before the queue is looked at.
    pub fn moves<R: Wait>(&self, rt: &R) -> u64 {
        *self.moves.lock(rt)
    }

    /// Waits for a move behind so many.
    pub fn wait_past<R: Wait>(&self, rt: &R, seen: u64) {
        let _moves = self
            .moved
            .wait_while(rt, self.moves.lock(rt), |moves| *moves == seen);
    }

    fn count_move<R: Wait>(&self, rt: &R) {
        let mut moves = self.moves.lock(rt);
        *moves = moves.wrapping_add(1);
    }

    /// A note was put: one who waits is woken.
    pub fn tell_one<R: Wait>(&self, rt: &R) {
        self.count_move(rt);
        self.moved.notify_one();
    }

    /// The pipe is closed: all who wait are woken.
    pub fn close<R: Wait>(&self, rt: &R) {
        self.meter.shared.swap_new_seat::<Closes>(1, 1);
        self.count_move(rt);
        self.moved.notify_all();
    }
}
