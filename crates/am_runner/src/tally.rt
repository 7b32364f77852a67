//! What a run came to.

ghost use Rattle.std.specs.Prelude.{◌≡◌, true};
ghost use Rattle.std.specs.List.{count_by};
ghost use Rattle.am_machine.specs.declared.answer.Answer.TheVariants.{Refused};
ghost use Rattle.am_shared.specs.{keeps_events};
ghost use Rattle.am_runner.specs.Runs.{is_out_of_memory, is_walk, is_round, enters, is_leave, is_told_done, leaves, IsTallyOf};

use am_machine::{Answer, Entry, Event};
use am_names::Errno;
use am_shared::Shared;

/// How often something was done in a run.
#[derive(Clone, Copy, PartialEq, Eq, Debug)]
pub struct Tally {
    /// Rounds that walkers made, those that were refused among them.
    pub rounds: u64,
    /// How often a walker entered a mount.
    pub entered: u64,
    /// How often a walker left a mount.
    pub left: u64,
}

/// Whether memory ran out.
fn is_no_memory(errno: Errno) -> bool
    ensures { result ≡ is_out_of_memory (Refused errno) }
{
    matches!(errno, Errno::NoMemory)
}

/// Whether the event was refused as memory ran out.
fn is_out_of_memory(answer: &Answer) -> bool
    ensures { result ≡ is_out_of_memory answer.now }
{
    match answer {
        Answer::Refused { errno } => is_no_memory(*errno),
        _ => false,
    }
}

/// Whether a walk begins.
fn is_walk(event: &Event) -> bool
    ensures { result ≡ is_walk event.now }
{
    matches!(event, Event::Walk { .. })
}

/// Whether a round begins here. Where memory runs out the same round begins once more.
#[tactic(auto, unfolding(crate::specs::Runs::is_round))]
fn is_round(entry: &Entry) -> bool
    ensures { result ≡ is_round entry.now }
{
    is_walk(&entry.event) && !is_out_of_memory(&entry.answer)
}

/// Whether a walker enters a mount by this event: its walk arrives.
fn enters(entry: &Entry) -> bool
    ensures { result ≡ enters entry.now }
{
    matches!(entry.answer, Answer::At { .. })
}

/// Whether a walker leaves.
fn is_leave(event: &Event) -> bool
    ensures { result ≡ is_leave event.now }
{
    matches!(event, Event::Leave { .. })
}

/// Whether it is done.
fn is_told_done(answer: &Answer) -> bool
    ensures { result ≡ is_told_done answer.now }
{
    matches!(answer, Answer::Done)
}

/// Whether a walker leaves a mount by this event.
#[tactic(auto, unfolding(crate::specs::Runs::leaves))]
fn leaves(entry: &Entry) -> bool
    ensures { result ≡ leaves entry.now }
{
    is_leave(&entry.event) && is_told_done(&entry.answer)
}

/// How many rounds stand in a history.
fn rounds_in(history: &[Entry]) -> usize
    ensures { result ≡ count_by is_round history.now }
{
    let mut rounds = 0;
    for entry in history {
        if is_round(entry) {
            rounds += 1;
        }
    }
    rounds
}

/// How often walkers entered a mount.
fn entered_in(history: &[Entry]) -> usize
    ensures { result ≡ count_by enters history.now }
{
    let mut entered = 0;
    for entry in history {
        if enters(entry) {
            entered += 1;
        }
    }
    entered
}

/// How often walkers left a mount.
fn left_in(history: &[Entry]) -> usize
    ensures { result ≡ count_by leaves history.now }
{
    let mut left = 0;
    for entry in history {
        if leaves(entry) {
            left += 1;
        }
    }
    left
}

/// The tally of a world, by the answers of its history, where all events are kept.
pub fn tally_of(shared: &Shared) -> Tally
    ensures { keeps_events shared.now.keep ≡ true → IsTallyOf result shared.now }
{
    let history = shared.history();
    Tally {
        rounds: rounds_in(history) as u64,
        entered: entered_in(history) as u64,
        left: left_in(history) as u64,
    }
}
