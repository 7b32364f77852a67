//! What is saved of a session, and brought back.

ghost use Rattle.std.specs.Prelude.{◌≡◌, ◌+◌, ◌<◌, ◌≤◌, ◌^◌, ℕ, IfOk};
ghost use Rattle.am_serve.specs.Keeping.{AreFew, Attends, IsAgain, IsBack, IsSave};

use crate::complaints::Complaint;
use crate::hear::{hear, next_fault, no_room};
use crate::orders::{Order, order_of};
use crate::service::{Saved, Service};
use crate::stands::{Serving, Stand};
use crate::telling::Telling;
use am_session::Session;
use std::alloc::Global;
use std::mem;

/// Saves the world, in place of what was saved before.
fn save(alloc: Global, service: &mut Service) -> Telling
    requires { service.old.serving.lines < 2 ^ 62 }
    ensures saves { IsSave service.old.serving.stand service.old service.new result }
    ensures few { (most : ℕ) → AreFew service.old most → AreFew service.new most }
{
    let lines = service.serving.lines;
    let Stand::Playing { session } = &service.serving.stand else {
        return next_fault(lines, Complaint::NoWorld, None);
    };
    let Ok(world) = session.world.copy(alloc) else {
        return no_room(lines);
    };
    // What was there goes by a call, which is cheaper to check.
    drop(mem::replace(&mut service.saved, Some(Saved { world, lines })));
    Telling::Nothing
}

/// Brings the saved world back, which stays saved.
fn bring_back(alloc: Global, service: &mut Service) -> Telling
    requires { service.old.serving.lines < 2 ^ 62 }
    ensures back { IsBack service.old.saved service.old service.new result }
    ensures few { (most : ℕ) → AreFew service.old most → AreFew service.new most }
{
    let Some(saved) = &service.saved else {
        return next_fault(service.serving.lines, Complaint::NotSaved, None);
    };
    let Ok(world) = saved.world.copy(alloc) else {
        return no_room(service.serving.lines);
    };
    let session = Session {
        world,
        answer: None,
    };
    let serving = Serving {
        stand: Stand::Playing { session },
        lines: saved.lines,
    };
    drop(mem::replace(&mut service.serving, serving));
    Telling::Nothing
}

/// Takes a line, and answers what is told of it.
pub(crate) fn attend(alloc: Global, service: &mut Service, line: &[u8]) -> Telling
    requires { service.old.serving.lines < 2 ^ 62 }
    ensures attends { Attends service.old line.now service.new result }
    ensures few { (most : ℕ) → AreFew service.old most → AreFew service.new (most + 1) }
{
    match order_of(service.serving.stand.is_within(), line) {
        Order::Save => save(alloc, service),
        Order::Back => bring_back(alloc, service),
        Order::Other => hear(alloc, &mut service.serving, line),
    }
}
