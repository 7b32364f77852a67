//! Where the threads of a scene stand.

ghost use Rattle.std.specs.Prelude.{◌≡◌, ◌↔◌, IsTrue, IfOk, drop};
ghost use Rattle.am_explore.specs.Standings.{next_after, first_of, went, moved, first_standings};
ghost use Rattle.am_explore.specs.Questions.{HasAnswer};

use crate::answers::{copy_answer, is_resume, is_wait, resumes};
use crate::choice::Who;
use crate::question::Sought;
use crate::scene::Thread;
use am_machine::Answer;
use std::alloc::{AllocError, Global};
use std::marker::Model;

/// What a thread was answered, and to which of its events, by its index.
#[derive(Drop)]
pub struct Heard {
    pub event: usize,
    pub answer: Answer,
}

/// How far a thread is, and what it was answered. Clauses see both.
#[derive(Drop)]
pub struct Progress {
    next: usize,
    heard: Vec<Heard>,
}

impl Model for Progress {
    ghost use Rattle.am_explore.specs.Standings.{Standing};

    ghost Value = { Standing };

    ghost view = { λ p. record { next = p.next; heard = p.heard.items } };
}

impl Heard {
    /// The same once more.
    fn copy(&self, alloc: Global) -> Result<Heard, AllocError>
        ensures { IfOk result (λ copy. copy ≡ self.now) }
    {
        Ok(Heard {
            event: self.event,
            answer: copy_answer(alloc, &self.answer)?,
        })
    }

    /// Whether both are the same answer to the same event.
    fn is_same(&self, other: &Heard) -> bool
        ensures { IsTrue result ↔ (self.now ≡ other.now) }
    {
        self.event == other.event && self.answer.is_same(&other.answer)
    }
}

/// The same answers once more.
fn copies_of(alloc: Global, heard: &[Heard]) -> Result<Vec<Heard>, AllocError>
    ensures { IfOk result (λ copies. copies.items ≡ heard.now) }
{
    let mut copies = Vec::with_capacity(alloc, heard.len())?;
    for one in heard {
        copies.push(one.copy(alloc)?)?;
    }
    Ok(copies)
}

/// Whether these are the same answers in the same order.
fn are_same(heard: &[Heard], others: &[Heard]) -> bool
    ensures { IsTrue result ↔ (heard.now ≡ others.now) }
{
    heard.len() == others.len()
        && heard
            .iter()
            .zip(others)
            .all(|(one, other)| one.is_same(other))
}

/// Whether one of these answers to this event is sought.
fn has_answer(event: usize, sought: &Sought, heard: &[Heard]) -> bool
    ensures { IsTrue result ↔ HasAnswer event sought.now heard.now }
{
    for one in heard {
        if one.event == event && sought.fits(&one.answer) {
            return true;
        }
    }
    false
}

/// The index of the event that a thread makes behind the one at this index, which is answered so.
fn next_after(next: usize, thread: &Thread, answer: &Answer) -> usize
    ensures { result ≡ next_after next (drop next thread.now) answer.now }
{
    let _count = thread.all().len();
    let [event, later @ ..] = thread.from(next) else {
        return next;
    };
    if !is_wait(answer) {
        return next + 1 + resumes(later);
    }
    if is_resume(event) { next } else { next + 1 }
}

impl Progress {
    /// A thread that has made none of its events.
    fn first(alloc: Global, thread: &Thread) -> Progress
        ensures { result ≡ first_of thread.now }
    {
        Progress {
            next: resumes(thread.all()),
            heard: Vec::new(alloc),
        }
    }

    /// The index of the event that the thread makes next.
    pub fn next(&self) -> usize
        ensures { result ≡ self.now.next }
    {
        self.next
    }

    /// What the thread was answered so far, the oldest first.
    pub fn heard(&self) -> &[Heard]
        ensures { result.now ≡ self.now.heard }
    {
        &self.heard
    }

    /// The same once more.
    pub(crate) fn copy(&self, alloc: Global) -> Result<Progress, AllocError>
        ensures { IfOk result (λ copy. copy ≡ self.now) }
    {
        Ok(Progress {
            next: self.next,
            heard: copies_of(alloc, self.heard.as_slice())?,
        })
    }

    /// Whether both threads are as far, and were answered the same.
    fn is_same(&self, other: &Progress) -> bool
        ensures { IsTrue result ↔ (self.now ≡ other.now) }
    {
        self.next == other.next && are_same(self.heard(), other.heard())
    }

    /// Whether one of the answers to this event is sought.
    pub(crate) fn has_answer(&self, event: usize, sought: &Sought) -> bool
        ensures { IsTrue result ↔ HasAnswer event sought.now self.now.heard }
    {
        has_answer(event, sought, self.heard())
    }

    /// The thread of these events, when its next one is answered so.
    fn went(&self, alloc: Global, thread: &Thread, answer: &Answer) -> Result<Progress, AllocError>
        ensures { IfOk result (λ progress. progress ≡ went thread.now answer.now self.now) }
    {
        let mut heard = copies_of(alloc, self.heard.as_slice())?;
        heard.push(Heard {
            event: self.next,
            answer: copy_answer(alloc, answer)?,
        })?;
        Ok(Progress {
            next: next_after(self.next, thread, answer),
            heard,
        })
    }
}

/// All threads at the beginning.
pub(crate) fn first_standings(
    alloc: Global,
    threads: &[Thread],
) -> Result<Vec<Progress>, AllocError>
    ensures { IfOk result (λ all. all.items ≡ first_standings threads.now) }
{
    let mut all = Vec::with_capacity(alloc, threads.len())?;
    for thread in threads {
        all.push(Progress::first(alloc, thread))?;
    }
    Ok(all)
}

/// The same once more.
pub(crate) fn standings_again(
    alloc: Global,
    standings: &[Progress],
) -> Result<Vec<Progress>, AllocError>
    ensures { IfOk result (λ copies. copies.items ≡ standings.now) }
{
    let mut copies = Vec::with_capacity(alloc, standings.len())?;
    for progress in standings {
        copies.push(progress.copy(alloc)?)?;
    }
    Ok(copies)
}

/// Whether all threads are as far, and were answered the same.
pub(crate) fn are_same_standings(standings: &[Progress], others: &[Progress]) -> bool
    ensures { IsTrue result ↔ (standings.now ≡ others.now) }
{
    standings.len() == others.len()
        && standings
            .iter()
            .zip(others)
            .all(|(one, other)| one.is_same(other))
}

/// All threads, when an event is answered so: the one whose event it is goes on.
pub(crate) fn moved(
    alloc: Global,
    who: Who,
    answer: &Answer,
    threads: &[Thread],
    standings: &[Progress],
) -> Result<Vec<Progress>, AllocError>
    ensures { IfOk result (λ all. all.items ≡ moved 0 who answer.now threads.now standings.now) }
{
    let mut all = Vec::with_capacity(alloc, standings.len())?;
    for n in 0..threads.len().min(standings.len()) {
        let progress = if who.is_of_thread(n) {
            standings[n].went(alloc, &threads[n], answer)?
        } else {
            standings[n].copy(alloc)?
        };
        all.push(progress)?;
    }
    Ok(all)
}
