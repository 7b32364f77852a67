//! What is asked of the end of an order.

ghost use Rattle.std.specs.Prelude.{◌≡◌, ◌↔◌, IsTrue, slice_get, List};
ghost use Rattle.std.specs.Option.{IsSomeAnd};
ghost use Rattle.am_machine.specs.{Event};
ghost use Rattle.am_explore.specs.Questions.{is_at, is_failed, Fits, HasAnswer, HasLeft};
ghost use Rattle.am_explore.specs.Standings.{Standing};

use crate::answers::{is_refused, is_wait};
use crate::scene::Thread;
use crate::standing::Progress;
use am_machine::Answer;

/// Which answers are sought.
#[derive(Drop)]
pub enum Sought {
    /// Any answer.
    Any,
    /// This one.
    Exactly { answer: Answer },
    /// That the walker waits, on whatever token.
    AnyWait,
    /// That the walk has arrived, wherever.
    AnyAt,
    /// That it is refused, with whatever error.
    AnyRefused,
    /// That it has failed, with whatever error.
    AnyFailed,
}

/// What is asked of the end of an order. `sometimes` is answered by an order that is found, `never` by
/// none that is.
#[derive(Drop)]
pub enum Question {
    /// An event of a thread, both by their indexes, has such an answer; a resume that was made again has
    /// several.
    Answered {
        thread: usize,
        event: usize,
        sought: Sought,
    },
    /// A thread has events left: at an end it can't go on.
    Waiting {
        thread: usize,
    },
    /// The world's text, as `am_mountinfo` writes it of all namespaces, has a line of these words, one by one, of which
    /// `*` is any word.
    Shows {
        line: Vec<u8>,
    },
    /// It has no such line.
    Lacks {
        line: Vec<u8>,
    },
}

/// Whether a walk has arrived.
fn is_at(answer: &Answer) -> bool
    ensures { result ≡ is_at answer.now }
{
    match answer {
        Answer::At { .. } => true,
        _ => false,
    }
}

/// Whether a walk has failed.
fn is_failed(answer: &Answer) -> bool
    ensures { result ≡ is_failed answer.now }
{
    match answer {
        Answer::Failed { .. } => true,
        _ => false,
    }
}

impl Sought {
    /// Whether the answer is one of those that are sought.
    pub fn fits(&self, answer: &Answer) -> bool
        ensures { IsTrue result ↔ Fits self.now answer.now }
    {
        match self {
            Sought::Any => true,
            Sought::Exactly { answer: same } => same.is_same(answer),
            Sought::AnyWait => is_wait(answer),
            Sought::AnyAt => is_at(answer),
            Sought::AnyRefused => is_refused(answer),
            Sought::AnyFailed => is_failed(answer),
        }
    }
}

/// Whether an event of a thread has such an answer.
pub(crate) fn has_answered(
    standings: &[Progress],
    thread: usize,
    event: usize,
    sought: &Sought,
) -> bool
    ensures { IsTrue result ↔ IsSomeAnd (slice_get standings.now thread)
        (λ (s : Standing). HasAnswer event sought.now s.heard) }
{
    match standings.get(thread) {
        Some(progress) => progress.has_answer(event, sought),
        None => false,
    }
}

/// Whether a thread has events left.
pub(crate) fn is_waiting(threads: &[Thread], standings: &[Progress], thread: usize) -> bool
    ensures { IsTrue result ↔ IsSomeAnd (slice_get standings.now thread)
        (λ (s : Standing). IsSomeAnd (slice_get threads.now thread)
        (λ (events : List Event). HasLeft events s)) }
{
    let Some(progress) = standings.get(thread) else {
        return false;
    };
    match threads.get(thread) {
        Some(events) => progress.next() < events.all().len(),
        None => false,
    }
}
