//! For the author of tests: a world, event by event.

ghost use Rattle.std.specs.Prelude.{◌≡◌, length};
ghost use Rattle.am_machine.specs.{Step, UnmountsNothingInUse};
ghost use Rattle.am_world.specs.Capacity.{state_of};

use am_job::Act;
use am_map::{Map, MapKind};
use am_master::Master;
use am_names::{
    AbsPath, Attach, Errno, FsId, JobId, Limits, MountId, NsId, PipeState, Place, Position,
    Seconds, Token, WalkerId,
};
use am_world::laws::{steps_unmount_nothing_in_use, trace_holds};
use am_world::{Answer, Event, Obs, Ran, World, run};
use std::alloc::{AllocError, Global};
use std::test::Fail;

const LIMITS: Limits = Limits {
    mounts: 1_000_000,
    waiters: 1_024,
    tokens: u32::MAX,
    negative: Seconds(0),
};

/// A world with the point `/auto`, whose map has the keys `home` and `work`.
fn world(alloc: Global) -> Result<World, Errno> {
    let Ok(master) = Master::read(alloc, b"/auto auto.home --timeout=10") else {
        return Err(Errno::NoMemory);
    };
    let Ok(map) = Map::read(
        alloc,
        b"home -fstype=nfs srv:/home\nwork srv:/work",
        MapKind::Indirect,
    ) else {
        return Err(Errno::NoMemory);
    };
    let maps = vec![in alloc; map]?;
    // `World::new` requires limits in their ranges, and a map for each line of the master map.
    if !LIMITS.is_in_range() || maps.len() != master.entries().len() {
        return Err(Errno::EINVAL);
    }
    World::new(alloc, LIMITS, master, maps)
}

fn place(alloc: Global, path: &[u8]) -> Result<Place, Errno> {
    Ok(AbsPath::read(path)?.to_place(alloc)?)
}

fn attach(alloc: Global) -> Result<Event, Errno> {
    let path = place(alloc, b"/auto")?;
    Ok(Event::Attach { path })
}

/// Walker 7 walks to `/auto/home` in namespace 0.
fn walk(alloc: Global) -> Result<Event, Errno> {
    Ok(Event::Walk {
        walker: WalkerId(7),
        ns: NsId(0),
        path: place(alloc, b"/auto/home")?,
        now: Seconds(100),
        pipe: PipeState::Room,
    })
}

fn deliver() -> Event {
    Event::Deliver {
        token: Token(1),
        bytes: None,
    }
}

fn act() -> Event {
    Event::Act {
        job: JobId(1),
        failure: None,
    }
}

fn resume(now: u64) -> Event {
    Event::Resume {
        walker: WalkerId(7),
        now: Seconds(now),
        pipe: PipeState::Room,
    }
}

/// The walker waits on token 1.
fn is_wait(answer: &Answer) -> bool {
    matches!(answer, Answer::Wait { token } if *token == Token(1))
}

/// Walker 7 was released.
fn is_release(seen: &Obs) -> bool {
    matches!(seen, Obs::Released { walker, .. } if *walker == WalkerId(7))
}

fn is_mkdir(act: Option<&Act>) -> bool {
    matches!(act, Some(Act::Mkdir { .. }))
}

/// The walk waits, its packet is queued, and the daemon begins by making the directory.
fn begins(alloc: Global, world: &mut World) -> Result<bool, Errno> {
    world.step(alloc, &attach(alloc)?);
    let waits = is_wait(&world.step(alloc, &walk(alloc)?));
    let queued = world.queued(Token(1)).is_some();
    world.step(alloc, &deliver());
    Ok(waits && queued && is_mkdir(world.next_act(JobId(1))))
}

#[test]
fn a_walk_waits_for_the_daemon(rt: HostRuntime) -> Result<(), Fail> {
    let mut world = world(rt.alloc())?;
    let begins = begins(rt.alloc(), &mut world);
    let is_waiting = world.is_waiting(WalkerId(7));
    drop(world);
    assert!(rt; begins?);
    assert!(rt; is_waiting);
    Ok(())
}

/// The walker asks too early, is served, and asks again.
fn events(alloc: Global) -> Result<Vec<Event>, Errno> {
    let (attach, walk) = (attach(alloc)?, walk(alloc)?);
    Ok(vec![in alloc;
        attach,
        walk,
        resume(100),
        deliver(),
        act(),
        act(),
        act(),
        act(),
        resume(101),
    ]?)
}

/// What these events come to.
fn answers(alloc: Global) -> Result<Vec<Answer>, Errno> {
    let position = Position {
        mount: MountId(3),
        place: Place::root(alloc),
    };
    Ok(vec![in alloc;
        Answer::Attached {
            fs: FsId(2),
            attach: Attach(1),
            mount: MountId(2),
        },
        Answer::Wait { token: Token(1) },
        Answer::Refused {
            errno: Errno::NotReleased,
        },
        Answer::Job { job: JobId(1) },
        Answer::DidMkdir,
        Answer::DidMount { mount: MountId(3) },
        Answer::DidRecord,
        Answer::DidReply,
        Answer::At { position },
    ]?)
}

fn are_same(answers: &[Answer], others: &[Answer]) -> bool {
    answers.len() == others.len()
        && answers
            .iter()
            .zip(others.iter())
            .all(|(answer, other)| answer.is_same(other))
}

/// The answers are those, the release is in the trace, and the laws hold of the trace.
fn is_served(alloc: Global, ran: &Ran) -> bool {
    let Ok(answers) = answers(alloc) else {
        return false;
    };
    let trace = ran.world.trace();
    are_same(ran.answers.as_slice(), answers.as_slice())
        && trace.iter().any(is_release)
        && trace_holds(trace)
}

/// The same, and then the run goes: by a call, which is cheaper to check.
fn ends_served(alloc: Global, ran: Ran) -> bool {
    let is_served = is_served(alloc, &ran);
    drop(ran);
    is_served
}

/// Whether the walk is served in a run from this world.
fn serves(alloc: Global, world: World, events: &[Event]) -> bool {
    match run(alloc, world, events) {
        Ok(ran) => ends_served(alloc, ran),
        Err(world) => {
            drop(world);
            false
        }
    }
}

#[test]
fn a_run_serves_the_walk(rt: HostRuntime) -> Result<(), Fail> {
    let events = events(rt.alloc())?;
    let world = world(rt.alloc())?;
    let is_served = serves(rt.alloc(), world, events.as_slice());
    assert!(rt; is_served);
    Ok(())
}

/// Makes an event, and gives its answer with what was observed of it, which the world doesn't keep.
fn observe(alloc: Global, world: &mut World, event: &Event) -> (Answer, Vec<Obs>)
    requires { world.old.handed ≡ length world.old.trace }
    ensures step { Step (state_of world.old) event.now result.0 result.1.items
        (state_of world.new) }
    ensures handed { world.new.handed ≡ length world.new.trace }
{
    let answer = world.step(alloc, event);
    (answer, world.hand_on(alloc))
}

/// Makes all events, and keeps what was observed in a list of its own.
fn observe_all(alloc: Global, world: &mut World, events: &[Event]) -> Result<Vec<Obs>, AllocError> {
    let mut all = world.hand_on(alloc);
    for event in events {
        let (answer, mut seen) = observe(alloc, world, event);
        drop(answer);
        all.append(&mut seen)?;
    }
    Ok(all)
}

/// Whether the list has a release and is lawful, and the world keeps nothing.
fn goes_on(alloc: Global, world: &mut World, events: &[Event]) -> Result<bool, AllocError> {
    let all = observe_all(alloc, world, events)?;
    let is_kept = world.trace().is_empty();
    Ok(is_kept && all.iter().any(is_release) && trace_holds(all.as_slice()))
}

#[test]
fn a_world_hands_on_what_was_observed(rt: HostRuntime) -> Result<(), Fail> {
    let events = events(rt.alloc())?;
    let mut world = world(rt.alloc())?;
    let goes_on = goes_on(rt.alloc(), &mut world, events.as_slice());
    drop(world);
    assert!(rt; goes_on?);
    Ok(())
}

/// Whether an event that isn't refused makes the one world another than the other, and both are the
/// same again once it has come to both. The other keeps nothing of what was observed.
fn tells_apart(alloc: Global, world: &mut World, other: &mut World, event: &Event) -> bool {
    let is_refused = matches!(world.step(alloc, event), Answer::Refused { .. });
    let is_same = world.is_same(other);
    other.answer(alloc, event);
    is_same == is_refused && world.is_same(other)
}

/// The walker leaves and comes back at the same moment: more was observed, and the halves are the same.
fn comes_back(alloc: Global, world: &mut World, other: &World) -> Result<bool, Errno> {
    world.step(alloc, &leave());
    let is_same = world.is_same(other);
    world.step(alloc, &walk(alloc)?);
    Ok(!is_same && world.is_same(other))
}

fn are_told_apart(
    alloc: Global,
    world: &mut World,
    other: &mut World,
    events: &[Event],
) -> Result<bool, Errno> {
    let mut are_told = world.is_same(other);
    for event in events {
        are_told = tells_apart(alloc, world, other, event) && are_told;
    }
    let comes_back = comes_back(alloc, world, other)?;
    Ok(are_told && comes_back)
}

/// The world beside another one, which the events have come to as well.
fn is_told_from_another(
    alloc: Global,
    world: &mut World,
    mut other: World,
    events: &[Event],
) -> Result<bool, Errno> {
    let are_told = are_told_apart(alloc, world, &mut other, events);
    drop(other);
    are_told
}

#[test]
fn worlds_are_the_same_where_their_halves_are(rt: HostRuntime) -> Result<(), Fail> {
    let events = events(rt.alloc())?;
    let other = world(rt.alloc())?;
    let mut world = world(rt.alloc())?;
    let is_told = is_told_from_another(rt.alloc(), &mut world, other, events.as_slice());
    drop(world);
    assert!(rt; is_told?);
    Ok(())
}

/// Makes an event. No mount goes that a walker is inside of, or on which one that stays is mounted.
fn make_event(alloc: Global, world: &mut World, event: &Event) -> Answer
    ensures { UnmountsNothingInUse (state_of world.old) (state_of world.new) }
{
    // The law, and that this world came by a run: both are known to the proof from here on.
    steps_unmount_nothing_in_use();
    world.trace();
    world.step(alloc, event)
}

fn mount(alloc: Global) -> Result<Event, Errno> {
    Ok(Event::Mount {
        ns: NsId(0),
        path: place(alloc, b"/srv")?,
    })
}

fn enter(alloc: Global) -> Result<Event, Errno> {
    Ok(Event::Walk {
        walker: WalkerId(7),
        ns: NsId(0),
        path: place(alloc, b"/srv")?,
        now: Seconds(100),
        pipe: PipeState::Room,
    })
}

fn umount(alloc: Global) -> Result<Event, Errno> {
    Ok(Event::Umount {
        ns: NsId(0),
        path: place(alloc, b"/srv")?,
    })
}

fn leave() -> Event {
    Event::Leave {
        walker: WalkerId(7),
    }
}

fn is_busy(answer: &Answer) -> bool {
    matches!(answer, Answer::Refused { errno } if *errno == Errno::EBUSY)
}

fn is_gone(answer: &Answer) -> bool {
    matches!(answer, Answer::Gone { .. })
}

/// The mount is refused to go while the walker is inside of it, and goes once it has left.
fn goes_when_left(alloc: Global, world: &mut World) -> Result<bool, Errno> {
    make_event(alloc, world, &mount(alloc)?);
    make_event(alloc, world, &enter(alloc)?);
    let umount = umount(alloc)?;
    let is_busy = is_busy(&make_event(alloc, world, &umount));
    make_event(alloc, world, &leave());
    let is_gone = is_gone(&make_event(alloc, world, &umount));
    Ok(is_busy && is_gone)
}

#[test]
fn a_mount_goes_when_it_is_left(rt: HostRuntime) -> Result<(), Fail> {
    let mut world = world(rt.alloc())?;
    let goes_when_left = goes_when_left(rt.alloc(), &mut world);
    drop(world);
    assert!(rt; goes_when_left?);
    Ok(())
}
