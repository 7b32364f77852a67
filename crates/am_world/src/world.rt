//! The world: what happens to it, event by event.

ghost use Rattle.std.specs.Prelude.{◌≡◌, ◌+◌, ◌↔◌, List, [], ◌∷◌, drop, length, None, IsTrue, IfOk, IfErr};
ghost use Rattle.std.specs.Option.{option_map, option_copied};
ghost use Rattle.am_names.specs.{RefusedAs, IsInRange};
ghost use Rattle.am_state.specs.{Obs};
ghost use Rattle.am_laws.specs.{Lawful};
ghost use Rattle.am_wait.specs.{wait_of, still_waits};
ghost use Rattle.am_kernel.specs.{queued_of};
ghost use Rattle.am_daemon.specs.{next_act_of, rows_of};
ghost use Rattle.am_machine.specs.{Agree, AreInStep, IsReached, IsTold, HasPaths, initial_state_of, entry, entries, Step, Run, GoesOnBy, packet_bytes};
ghost use Rattle.am_world.specs.Capacity.{state_of};
ghost use Rattle.am_world.specs.Machine.{told};
ghost use Rattle.am_world.specs.Traceless.{HaveEqualHalves};

use crate::copies::second_copy;
use crate::deliveries::bytes_of;
use crate::machine::Machine;
use am_daemon::Daemon;
use am_job::Act;
use am_kernel::Kernel;
use am_machine::{Answer, Event};
use am_map::Map;
use am_master::Master;
use am_names::{Errno, JobId, Limits, Token, WalkerId};
use am_state::Obs;
use am_trail::Trail;
use std::alloc::{AllocError, Global};
use std::marker::Model;
use std::mem;

/// A world: the kernel's half and the daemon's, and the trace of what was observed, but for what of
/// it was handed on.
pub struct World {
    pub(crate) machine: Machine,
    pub(crate) handed: Trail<Obs>,
}

// Written by hand, it is proved here once: a derived one is proved again in each crate that lets a
// world go, and field by field in each function that has one at an early return.
impl Drop for World {
    fn drop(self) {
        let World { machine, handed } = self;
        drop(machine);
        drop(handed);
    }
}

impl Model for World {
    ghost use Rattle.am_world.specs.Capacity.{WorldTable};

    ghost Value = { WorldTable };

    ghost use Rattle.am_world.specs.View.{view_of, IsSound};

    ghost view = { view_of };

    ghost invariant = { IsSound };
}

/// The answer to an event of which this came.
fn told(came: Result<Answer, Errno>) -> Answer
    ensures { result ≡ told came }
{
    match came {
        Ok(answer) => answer,
        Err(errno) => Answer::Refused { errno },
    }
}

/// Makes known that the paths of an event are names.
fn know_paths(event: &Event)
    ensures { HasPaths event.now }
{
    match event {
        Event::Attach { path } => {
            path.text();
        }
        Event::Mount { path, .. } => {
            path.text();
        }
        Event::Bind { from, to, .. } => {
            from.text();
            to.text();
        }
        Event::Umount { path, .. } => {
            path.text();
        }
        Event::Change { path, .. } => {
            path.text();
        }
        Event::Kind { path, .. } => {
            path.text();
        }
        Event::Walk { path, .. } => {
            path.text();
        }
        _ => {}
    }
}

/// The observations behind the first so many of these.
fn behind(seen: &[Obs], before: usize) -> &[Obs]
    ensures { result.now ≡ drop before seen.now }
{
    match seen.get(before..) {
        Some(rest) => rest,
        None => &[],
    }
}

impl World {
    /// The initial world of a master map, with the maps of its lines in their order.
    pub fn new(
        alloc: Global,
        limits: Limits,
        master: Master,
        maps: Vec<Map>,
    ) -> Result<World, Errno>
        requires limits { IsInRange limits }
        requires maps { length maps.items ≡ length master }
        ensures refusal { RefusedAs None result }
        ensures ok { IfOk result (λ world. state_of world ≡ initial_state_of (record {
          limits = limits;
          master = master;
          maps = maps.items;
        })) }
        ensures kept { IfOk result (λ world. world.handed ≡ 0) }
    {
        let daemon = Daemon::new(alloc, master, maps);
        let kernel = Kernel::new(alloc, limits)?;
        Ok(World {
            machine: Machine {
                kernel,
                daemon,
                trace: Vec::new(alloc),
            },
            handed: Trail::new(),
        })
    }

    /// The same world once more, which goes on by itself.
    pub fn copy(&self, alloc: Global) -> Result<World, AllocError>
        ensures state { IfOk result (λ copy. state_of copy ≡ state_of self.now) }
        ensures handed { IfOk result (λ copy. copy.handed ≡ self.now.handed) }
    {
        Ok(World {
            machine: self.machine.copy(alloc)?,
            handed: self.handed.and(&Vec::new(alloc)),
        })
    }

    /// Whether both halves are the same, whatever was observed: by each event both worlds come to the
    /// same (`laws::outcomes_read_no_trace`). It takes no memory.
    #[tactic(auto, using(crate::proofs::SameLemmas::same_halves, crate::proofs::SameLemmas::same_kernels, crate::proofs::SameLemmas::same_daemons))]
    pub fn is_same(&self, other: &World) -> bool
        ensures { IsTrue result ↔ HaveEqualHalves (state_of self.now) (state_of other.now) }
    {
        self.machine.kernel.is_same(&other.machine.kernel)
            && self.machine.daemon.is_same(&other.machine.daemon)
    }

    /// What was observed so far, but for what was handed on. All of it is lawful, the world is what it
    /// tells of it, and kernel and daemon agree. The world came by a run from its opening, so that
    /// each law of runs is one of it.
    pub fn trace(&self) -> &[Obs]
        ensures trace { result.now ≡ drop self.now.handed self.now.trace }
        ensures count { self.now.handed + length result.now ≡ length self.now.trace }
        ensures lawful { Lawful self.now.trace }
        ensures tells { IsTold (state_of self.now) }
        ensures reached { IsReached (state_of self.now) }
        ensures agree { Agree (state_of self.now) }
        ensures in_step { AreInStep (state_of self.now) }
    {
        self.machine.trace.as_slice()
    }

    /// What was observed behind the first so many observations that `trace` has.
    pub fn seen_since(&self, before: usize) -> &[Obs]
        ensures { result.now ≡ drop (self.now.handed + before) self.now.trace }
    {
        behind(self.machine.trace.as_slice(), before)
    }

    /// Hands on what `trace` has: the world keeps it no longer. It is the same in all else, and what
    /// was handed on stays part of what each law speaks of.
    pub fn hand_on(&mut self, alloc: Global) -> Vec<Obs>
        ensures seen { result.items ≡ drop self.old.handed self.old.trace }
        ensures handed { self.new.handed ≡ length self.new.trace }
        ensures trace { self.new.trace ≡ self.old.trace }
        ensures same { state_of self.new ≡ state_of self.old }
    {
        let seen = mem::replace(&mut self.machine.trace, Vec::new(alloc));
        self.handed = self.handed.and(&seen);
        seen
    }

    /// Hands on what `trace` has to nobody, and keeps its room for what is observed next.
    pub fn let_go(&mut self, alloc: Global)
        ensures handed { self.new.handed ≡ length self.new.trace }
        ensures trace { self.new.trace ≡ self.old.trace }
        ensures same { state_of self.new ≡ state_of self.old }
    {
        let mut seen = mem::replace(&mut self.machine.trace, Vec::new(alloc));
        self.handed = self.handed.and(&seen);
        seen.clear();
        self.machine.trace = seen;
    }

    /// The bytes of the queued packet of a token, if there is one.
    pub fn queued(&self, token: Token) -> Option<[u8; 304]>
        ensures { result ≡ option_map packet_bytes (queued_of self.now.kernel.queue token) }
    {
        let row = self.machine.kernel.queued(token)?;
        Some(bytes_of(&row))
    }

    /// The act of a job that comes next; none where there is no such job.
    pub fn next_act(&self, job: JobId) -> Option<&Act>
        ensures { option_copied result ≡ next_act_of job (rows_of self.now.daemon) }
    {
        self.machine.daemon.next_act(job)
    }

    /// Whether a walker waits on a token that isn't acknowledged yet.
    pub fn is_waiting(&self, walker: WalkerId) -> bool
        ensures { result ≡ still_waits (wait_of self.now.kernel.waits.waits walker) }
    {
        match self.machine.kernel.waits().wait_of(walker) {
            Some(wait) => wait.status.is_none(),
            None => false,
        }
    }

    /// One step of the machine.
    pub fn step(&mut self, alloc: Global, event: &Event) -> Answer
        ensures step { (seen : List Obs) ×
            Step (state_of self.old) event.now result seen (state_of self.new) }
        ensures kept { self.new.handed ≡ self.old.handed }
    {
        know_paths(event);
        told(self.machine.handle(alloc, event))
    }

    /// One step of the machine, of which nobody asks what was observed: that is handed on to nobody,
    /// with what `trace` had before.
    pub fn answer(&mut self, alloc: Global, event: &Event) -> Answer
        ensures step { (seen : List Obs) ×
            Step (state_of self.old) event.now result seen (state_of self.new) }
        ensures handed { self.new.handed ≡ length self.new.trace }
    {
        let answer = self.step(alloc, event);
        self.let_go(alloc);
        answer
    }

    /// One step of the machine, with its answer twice.
    pub fn step_pair(&mut self, alloc: Global, event: &Event) -> (Answer, Answer)
        ensures step { (seen : List Obs) ×
            Step (state_of self.old) event.now result.0 seen (state_of self.new) }
        ensures legal { GoesOnBy (entry event.now result.0 ∷ []) (state_of self.old)
            (state_of self.new) }
        ensures kept { self.new.handed ≡ self.old.handed }
        ensures same { result.1 ≡ result.0 }
    {
        let Ok(made_ahead) = self.machine.made_ahead(alloc, event) else {
            let errno = Errno::NoMemory;
            return (Answer::Refused { errno }, Answer::Refused { errno });
        };
        let answer = self.step(alloc, event);
        let other = second_copy(&answer, made_ahead);
        (answer, other)
    }
}

/// What a run leaves.
#[derive(Drop)]
pub struct Ran {
    pub world: World,
    pub answers: Vec<Answer>,
}

/// Makes a step for each event. Where the list of answers finds no memory, nothing runs.
pub fn run(alloc: Global, mut world: World, events: &[Event]) -> Result<Ran, World>
    ensures run { IfOk result
        (λ ran. Run (state_of world) events.now ran.answers.items (state_of ran.world)) }
    ensures legal { IfOk result (λ ran. GoesOnBy (entries events.now ran.answers.items)
        (state_of world) (state_of ran.world)) }
    ensures lawful { IfOk result (λ ran. Lawful ran.world.trace) }
    ensures reached { IfOk result (λ ran. IsReached (state_of ran.world)) }
    ensures agree { IfOk result (λ ran. Agree (state_of ran.world)) }
    ensures in_step { IfOk result (λ ran. AreInStep (state_of ran.world)) }
    ensures kept { IfOk result (λ ran. ran.world.handed ≡ world.handed) }
    ensures err { IfErr result (λ same. same ≡ world) }
{
    let Ok(mut answers) = Vec::with_capacity(alloc, events.len()) else {
        return Err(world);
    };
    for event in events {
        let answer = world.step(alloc, event);
        answers.push_reserved(answer);
    }
    // What every world keeps is known where its fields are read.
    let _ = &world.machine;
    Ok(Ran { world, answers })
}
