//! A world that C holds from call to call.

ghost use Rattle.std.specs.Prelude.{◌≡◌, [], None, Some, IfOk, IfErr, IfNone, IfSome};
ghost use Rattle.am_c.specs.Scripts.{namespace_where};
ghost use Rattle.am_session.specs.{IsBegun, NotBegun, Plays, TellsAnswer, TellsSeen, TellsWorld};
ghost use Rattle.am_c.specs.Sessions.{News, Uses, held_count};

use crate::kept::Kept;
use crate::loose::Loose;
use crate::script::{AmPlayed, fault_number, namespace_where, tell, tell_of};
use am_script::{ScriptFault, ScriptFaultKind};
use am_session::{Session, begin, no_event, play_line, tell_answer, tell_seen, tell_world};
use std::alloc::Global;
use std::mem;

/// The struct has no world.
const NO_WORLD: u8 = 254;

/// The struct has a world.
const HAS_WORLD: u8 = 255;

/// A world that C holds, or none. One call at a time may use it.
#[repr(C)]
#[derive(Drop)]
pub struct AmWorld {
    /// 1 where there is a world, else 0.
    pub held: u64,
    kept: Kept,
    ghost fits: { held ≡ held_count kept.inside },
}

impl AmWorld {
    fn none() -> AmWorld
        ensures { result.kept.inside ≡ None }
    {
        AmWorld {
            held: 0,
            kept: Kept::none(),
        }
    }

    fn of(session: Box<Session>) -> AmWorld
        ensures { result.kept.inside ≡ Some session.value }
    {
        AmWorld {
            held: 1,
            kept: Kept::of(Loose::of(session)),
        }
    }

    fn into_session(self, alloc: Global) -> Option<Box<Session>>
        ensures none { IfNone result (self.kept.inside ≡ None) }
        ensures some { IfSome result (λ session. self.kept.inside ≡ Some session.value) }
    {
        let AmWorld { held, kept } = self;
        if held == 0 {
            return None;
        }
        Some(kept.into_loose(alloc).into_box())
    }
}

/// Takes the session that C holds, if it holds one.
fn take(alloc: Global, world: &mut AmWorld) -> Option<Box<Session>>
    ensures none { IfNone result (world.old.kept.inside ≡ None) }
    ensures some { IfSome result (λ session. world.old.kept.inside ≡ Some session.value) }
    ensures empty { world.new.kept.inside ≡ None }
{
    mem::replace(world, AmWorld::none()).into_session(alloc)
}

/// Has C hold a session.
fn put(world: &mut AmWorld, session: Box<Session>)
    ensures { world.new.kept.inside ≡ Some session.value }
{
    *world = AmWorld::of(session);
}

/// Begins the world of a head, which ends with the line `events`. 0, or the number of the fault;
/// 255 where there is a world already.
#[unsafe(no_mangle)]
pub extern "C" fn am_new(
    alloc: Global,
    head: &[u8],
    world: &mut AmWorld,
    played: &mut AmPlayed,
) -> u8
    ensures { News head.now world.old.kept.inside
        (record { inside = world.old.kept.inside; buffer = []; told = played.old })
        (record { inside = world.new.kept.inside; buffer = []; told = played.new }) result }
{
    if world.held != 0 {
        return HAS_WORLD;
    }
    match begin_boxed(alloc, head) {
        Ok(session) => {
            put(world, session);
            *played = tell_of(alloc, head, 0, Ok(no_event()));
            0
        }
        Err(fault) => {
            *played = tell_of(alloc, head, 0, Err(fault));
            fault.kind.number()
        }
    }
}

fn begin_boxed(alloc: Global, head: &[u8]) -> Result<Box<Session>, ScriptFault>
    ensures ok { IfOk result (λ session. IsBegun head.now session.value) }
    ensures err { IfErr result (NotBegun head.now) }
{
    let session = begin(alloc, head)?;
    match Box::new(alloc, session) {
        Ok(session) => Ok(session),
        Err(_) => Err(ScriptFault {
            line: 1,
            kind: ScriptFaultKind::NoMemory,
        }),
    }
}

/// Plays the event of a line, and puts the line of its answer at the front of `out`. 0, or the
/// number of the fault; 254 where there is no world.
#[unsafe(no_mangle)]
pub extern "C" fn am_line(
    alloc: Global,
    world: &mut AmWorld,
    line: &[u8],
    out: &mut [u8],
    played: &mut AmPlayed,
) -> u8
    ensures { Uses (Plays line.now) line.now world.old.kept.inside
        (record { inside = world.old.kept.inside; buffer = out.old; told = played.old })
        (record { inside = world.new.kept.inside; buffer = out.new; told = played.new }) result }
{
    let Some(mut session) = take(alloc, world) else {
        return NO_WORLD;
    };
    let mut written = Vec::new(alloc);
    let went = play_line(alloc, &mut session, line, &mut written);
    *played = tell(alloc, line, &written, went, out);
    drop(written);
    put(world, session);
    fault_number(went)
}

/// So for the line of what was answered last; nothing where nothing was.
#[unsafe(no_mangle)]
pub extern "C" fn am_answer(
    alloc: Global,
    world: &mut AmWorld,
    out: &mut [u8],
    played: &mut AmPlayed,
) -> u8
    ensures { Uses TellsAnswer [] world.old.kept.inside
        (record { inside = world.old.kept.inside; buffer = out.old; told = played.old })
        (record { inside = world.new.kept.inside; buffer = out.new; told = played.new }) result }
{
    let Some(session) = take(alloc, world) else {
        return NO_WORLD;
    };
    let mut written = Vec::new(alloc);
    let went = tell_answer(&session, &mut written);
    *played = tell(alloc, b"", &written, went, out);
    drop(written);
    put(world, session);
    fault_number(went)
}

/// So for what the last event showed, in the lines of a trace.
#[unsafe(no_mangle)]
pub extern "C" fn am_observed(
    alloc: Global,
    world: &mut AmWorld,
    out: &mut [u8],
    played: &mut AmPlayed,
) -> u8
    ensures { Uses TellsSeen [] world.old.kept.inside
        (record { inside = world.old.kept.inside; buffer = out.old; told = played.old })
        (record { inside = world.new.kept.inside; buffer = out.new; told = played.new }) result }
{
    let Some(session) = take(alloc, world) else {
        return NO_WORLD;
    };
    let mut written = Vec::new(alloc);
    let went = tell_seen(&session, &mut written);
    *played = tell(alloc, b"", &written, went, out);
    drop(written);
    put(world, session);
    fault_number(went)
}

/// So for the world as it is; where it isn't of all namespaces, only for the mounts of one.
#[unsafe(no_mangle)]
pub extern "C" fn am_text(
    alloc: Global,
    world: &mut AmWorld,
    all: bool,
    namespace: u32,
    out: &mut [u8],
    played: &mut AmPlayed,
) -> u8
    ensures { Uses (TellsWorld (namespace_where all namespace)) [] world.old.kept.inside
        (record { inside = world.old.kept.inside; buffer = out.old; told = played.old })
        (record { inside = world.new.kept.inside; buffer = out.new; told = played.new }) result }
{
    let Some(session) = take(alloc, world) else {
        return NO_WORLD;
    };
    let only = namespace_where(all, namespace);
    let mut written = Vec::new(alloc);
    let went = tell_world(alloc, &session, only, &mut written);
    *played = tell(alloc, b"", &written, went, out);
    drop(written);
    put(world, session);
    fault_number(went)
}

/// Lets a world go, if there is one.
#[unsafe(no_mangle)]
pub extern "C" fn am_free(alloc: Global, world: &mut AmWorld)
    ensures { world.new.kept.inside ≡ None }
{
    drop(take(alloc, world));
}
