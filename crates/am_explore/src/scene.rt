//! Scenes: what several threads do, each in its own order.

ghost use Rattle.std.specs.Prelude.{◌≡◌, drop};

use am_machine::Event;
use am_names::FailNo;
use std::marker::Model;

/// The events of one thread, in their order. One that resumes a walker is made again as long as its
/// answer is `wait`, and passed over where the walker doesn't wait: where the answer before it isn't
/// `wait`. Clauses see the list.
#[derive(Drop)]
pub struct Thread {
    pub events: Vec<Event>,
}

impl Model for Thread {
    ghost use Rattle.std.specs.Prelude.{List};
    ghost use Rattle.am_machine.specs.{Event};

    ghost Value = { List Event };

    ghost view = { λ t. t.events.items };
}

/// How the daemon serves: it takes any packet that is queued, and the next act of any job comes out in
/// any of these ways, without a failure or with one.
#[derive(Drop)]
pub struct Service {
    pub results: Vec<Option<FailNo>>,
}

/// Several threads, and the daemon, if it serves.
#[derive(Drop)]
pub struct Scene {
    pub threads: Vec<Thread>,
    pub daemon: Option<Service>,
}

/// The events behind the first so many.
fn behind(events: &[Event], before: usize) -> &[Event]
    ensures { result.now ≡ drop before events.now }
{
    match events.get(before..) {
        Some(later) => later,
        None => &[],
    }
}

impl Thread {
    /// All its events.
    pub(crate) fn all(&self) -> &[Event]
        ensures { result.now ≡ self.now }
    {
        self.events.as_slice()
    }

    /// The events behind the first so many.
    pub(crate) fn from(&self, next: usize) -> &[Event]
        ensures { result.now ≡ drop next self.now }
    {
        behind(self.all(), next)
    }
}
