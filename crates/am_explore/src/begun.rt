//! A scene that has begun: what may come next in it, and what comes of that.

ghost use Rattle.std.specs.Prelude.{◌≡◌, ◌++◌, ◌↔◌, IsTrue, IfOk, OnOk, MatchOption, map};
ghost use Rattle.am_daemon.specs.{job_plan, rows_of};
ghost use Rattle.am_machine.specs.{Answer};
ghost use Rattle.am_world.specs.Capacity.{state_of};
ghost use Rattle.am_explore.specs.Choices.{next_of, thread_choices, deliveries, act_so, acts, daemon_choices};
ghost use Rattle.am_explore.specs.Levels.{IsLike};
ghost use Rattle.am_explore.specs.Orders.{Stand, stand_of, begun_at, choices_at, IsMade};
ghost use Rattle.am_explore.specs.Questions.{Meets};

use crate::answers::{is_no_memory, is_step};
use crate::choice::{Choice, Who};
use crate::question::{Question, has_answered, is_waiting};
use crate::scene::{Scene, Service, Thread};
use crate::standing::{Progress, are_same_standings, first_standings, moved, standings_again};
use crate::world_line::{lacks, shows};
use am_job::Job;
use am_machine::{Answer, Event};
use am_names::{FailNo, JobId, Token};
use am_state::QueuedRow;
use am_world::World;
use std::alloc::{AllocError, Global};

/// A scene that has begun: a world, and where each thread stands.
#[derive(Drop)]
pub struct Begun {
    world: World,
    threads: Vec<Progress>,
}

/// What came of a choice.
#[derive(Drop)]
pub struct Made {
    pub begun: Begun,
    pub answer: Answer,
}

/// The scene begins in a world, of which it gets a copy.
pub fn begin(alloc: Global, world: &World, scene: &Scene) -> Result<Begun, AllocError>
    ensures { IfOk result
        (λ begun. stand_of begun ≡ begun_at scene.now (state_of world.now)) }
{
    let threads = first_standings(alloc, scene.threads.as_slice())?;
    Ok(Begun {
        world: world.copy(alloc)?,
        threads,
    })
}

/// A choice of a thread.
fn of_thread(thread: usize, event: Event) -> Choice
    ensures { result ≡ (record { who = Who.Thread thread; event = event }) }
{
    Choice {
        who: Who::Thread { thread },
        event,
    }
}

/// Adds the first of the events that are left of a thread, if there is one.
fn push_next(
    alloc: Global,
    thread: usize,
    left: &[Event],
    choices: &mut Vec<Choice>,
) -> Result<(), AllocError>
    ensures { OnOk result (choices.new.items ≡ choices.old.items ++ next_of thread left.now) }
{
    if let [event, ..] = left {
        let choice = of_thread(thread, event.copy(alloc)?);
        choices.push(choice)?;
    }
    Ok(())
}

/// Adds the next event of each thread.
fn push_threads(
    alloc: Global,
    threads: &[Thread],
    standings: &[Progress],
    choices: &mut Vec<Choice>,
) -> Result<(), AllocError>
    ensures { OnOk result (choices.new.items ≡
        choices.old.items ++ thread_choices 0 threads.now standings.now) }
{
    for n in 0..threads.len().min(standings.len()) {
        let left = threads[n].from(standings[n].next());
        push_next(alloc, n, left, choices)?;
    }
    Ok(())
}

/// The daemon takes the packet of a token.
fn delivery(token: Token) -> Choice
    ensures { result ≡ (record { who = Who.Daemon; event = Event.Deliver token None }) }
{
    Choice {
        who: Who::Daemon,
        event: Event::Deliver { token, bytes: None },
    }
}

/// Adds the delivery of each packet that is queued.
fn push_deliveries(queue: &[QueuedRow], choices: &mut Vec<Choice>) -> Result<(), AllocError>
    ensures { OnOk result (choices.new.items ≡ choices.old.items ++ deliveries queue.now) }
{
    for row in queue {
        choices.push(delivery(row.token))?;
    }
    Ok(())
}

/// The next act of a job comes out so.
fn act_so(job: JobId, failure: Option<FailNo>) -> Choice
    ensures { result ≡ act_so job failure }
{
    Choice {
        who: Who::Daemon,
        event: Event::Act { job, failure },
    }
}

/// Adds the next act of a job, in each way in which it may come out.
fn push_acts_of(
    job: JobId,
    results: &[Option<FailNo>],
    choices: &mut Vec<Choice>,
) -> Result<(), AllocError>
    ensures { OnOk result (choices.new.items ≡
        choices.old.items ++ map (act_so job) results.now) }
{
    for failure in results {
        choices.push(act_so(job, *failure))?;
    }
    Ok(())
}

/// Adds the next act of each job, in each way in which it may come out.
fn push_acts(
    jobs: &[Job],
    results: &[Option<FailNo>],
    choices: &mut Vec<Choice>,
) -> Result<(), AllocError>
    ensures { OnOk result (choices.new.items ≡
        choices.old.items ++ acts results.now (map job_plan jobs.now)) }
{
    for job in jobs {
        push_acts_of(job.job(), results, choices)?;
    }
    Ok(())
}

/// Adds what the daemon may do, if it serves.
fn push_daemon(
    daemon: &Option<Service>,
    world: &World,
    choices: &mut Vec<Choice>,
) -> Result<(), AllocError>
    ensures { OnOk result (choices.new.items ≡
        choices.old.items
        ++ daemon_choices daemon.now world.now.kernel (rows_of world.now.daemon)) }
{
    match daemon {
        None => Ok(()),
        Some(service) => {
            push_deliveries(world.packets(), choices)?;
            push_acts(world.jobs(), service.results.as_slice(), choices)
        }
    }
}

/// What may come next: the next event of each thread, then each packet that is queued, then the next act
/// of each job, in each way in which it may come out. What is refused is among them.
pub fn choices(alloc: Global, scene: &Scene, begun: &Begun) -> Result<Vec<Choice>, AllocError>
    ensures { IfOk result
        (λ choices. choices.items ≡ choices_at scene.now (stand_of begun.now)) }
{
    let mut choices = Vec::new(alloc);
    push_threads(
        alloc,
        scene.threads.as_slice(),
        begun.threads.as_slice(),
        &mut choices,
    )?;
    push_daemon(&scene.daemon, &begun.world, &mut choices)?;
    Ok(choices)
}

/// Makes a choice. There is nothing where that is no step: the walker isn't released yet, or the daemon
/// is refused. What was begun stays as it is.
pub fn make(
    alloc: Global,
    scene: &Scene,
    begun: &Begun,
    choice: &Choice,
) -> Result<Option<Made>, AllocError>
    ensures { IfOk result (λ came. MatchOption came
        ((answer : Answer) (b : Stand) →
        IsMade scene.now (stand_of begun.now) choice.now answer b → ⊥)
        (λ made. IsMade scene.now (stand_of begun.now) choice.now
        made.answer (stand_of made.begun))) }
{
    let mut world = begun.world.copy(alloc)?;
    let answer = world.answer(alloc, &choice.event);
    if is_no_memory(&answer) {
        return Err(AllocError);
    }
    if !is_step(choice.who, &answer) {
        return Ok(None);
    }
    let threads = moved(
        alloc,
        choice.who,
        &answer,
        scene.threads.as_slice(),
        begun.threads.as_slice(),
    )?;
    Ok(Some(Made {
        begun: Begun { world, threads },
        answer,
    }))
}

impl Begun {
    /// The same once more.
    pub fn copy(&self, alloc: Global) -> Result<Begun, AllocError>
        ensures { IfOk result (λ copy. stand_of copy ≡ stand_of self.now) }
    {
        let threads = standings_again(alloc, self.threads.as_slice())?;
        Ok(Begun {
            world: self.world.copy(alloc)?,
            threads,
        })
    }

    /// The world, as it is now.
    pub fn world(&self) -> &World
        ensures { result.now ≡ self.now.world }
    {
        &self.world
    }

    /// Where each thread stands.
    pub fn threads(&self) -> &[Progress]
        ensures { result.now ≡ (stand_of self.now).threads }
    {
        &self.threads
    }

    /// Whether both stand alike, whatever was observed.
    pub(crate) fn is_like(&self, other: &Begun) -> bool
        ensures { IsTrue result ↔ IsLike (stand_of self.now) (stand_of other.now) }
    {
        are_same_standings(self.threads.as_slice(), other.threads.as_slice())
            && self.world.is_same(&other.world)
    }

    /// Whether the question is met here, at an end. One on the world's text takes memory for that.
    pub fn meets(
        &self,
        alloc: Global,
        scene: &Scene,
        question: &Question,
    ) -> Result<bool, AllocError>
        ensures { IfOk result
            (λ met. IsTrue met ↔ Meets scene.now question.now (stand_of self.now)) }
    {
        let standings = self.threads.as_slice();
        match question {
            Question::Answered {
                thread,
                event,
                sought,
            } => Ok(has_answered(standings, *thread, *event, sought)),
            Question::Waiting { thread } => {
                Ok(is_waiting(scene.threads.as_slice(), standings, *thread))
            }
            Question::Shows { line } => shows(alloc, &self.world, line.as_slice()),
            Question::Lacks { line } => lacks(alloc, &self.world, line.as_slice()),
        }
    }
}
