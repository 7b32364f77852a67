//! What a shared world begins with, events that are read from their lines, and the calls that are
//! made.

use am_map::{Map, MapKind};
use am_master::Master;
use am_names::{Errno, Limits, Seconds};
use am_script::answer_line::push_answer;
use am_script::event_line::read_event;
use am_shared::{Caller, Opened, Opening, Receipt};
use am_world::{Answer, Event, World};
use std::alloc::{AllocError, Global};
use std::sync::Wait;

const LIMITS: Limits = Limits {
    mounts: 1_000_000,
    waiters: 1_024,
    tokens: u32::MAX,
    negative: Seconds(0),
};

/// An autofs at /auto.
const POINTS: &[u8] = b"/auto auto.home --timeout=10";

/// A world with an autofs at /auto, of this map, in which a failure lasts so many seconds.
pub fn world_and_failures(
    alloc: Global,
    map: &[u8],
    negative: Seconds,
) -> Result<Opening, AllocError> {
    let master = Master::read(alloc, POINTS).map_err(|_fault| AllocError)?;
    let map = Map::read(alloc, map, MapKind::Indirect).map_err(|_fault| AllocError)?;
    let mut maps = Vec::new(alloc);
    maps.push(map)?;
    Opening::new(Limits { negative, ..LIMITS }, master, maps).ok_or(AllocError)
}

/// The same world, in which no failure lasts.
pub fn world_and_ends(alloc: Global, map: &[u8]) -> Result<Opening, AllocError> {
    world_and_failures(alloc, map, Seconds(0))
}

/// The same world, for one thread.
pub fn world_of(alloc: Global, map: &[u8]) -> Result<World, Errno> {
    let Opening {
        limits,
        master,
        maps,
    } = world_and_ends(alloc, map)?;
    World::new(alloc, limits, master, maps)
}

/// The event of a line, read again where there was no memory for it.
fn event_in_the_end(alloc: Global, line: &[u8]) -> Option<Event> {
    match read_event(alloc, line) {
        Ok(event) => event,
        Err(_) => read_event(alloc, line).ok()?,
    }
}

/// Makes the event of a line, unless it is none or there is no memory.
pub fn call<'a, L: Opened, R: Wait>(
    rt: &R,
    alloc: Global,
    caller: &'a mut Caller<L>,
    line: &[u8],
) -> Option<&'a Receipt> {
    let event = event_in_the_end(alloc, line)?;
    let _position = caller.call(rt, alloc, event).ok()?;
    caller.receipt()
}

/// Whether the line of an answer is this.
pub fn is_line(alloc: Global, answer: &Answer, wanted: &[u8]) -> bool {
    let mut line = Vec::new(alloc);
    push_answer(&mut line, answer).is_ok() && line.as_slice() == wanted
}
