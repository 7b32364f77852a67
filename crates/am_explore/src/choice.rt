//! Choices: what may come next in a scene.

ghost use Rattle.std.specs.Prelude.{◌≡◌, IfOk};
ghost use Rattle.am_explore.specs.Standings.{is_of_thread};

use am_machine::Event;
use std::alloc::{AllocError, Global};

/// Whose event it is.
#[derive(Clone, Copy, Debug, PartialEq)]
pub enum Who {
    /// A thread of the scene, by its index.
    Thread { thread: usize },
    Daemon,
}

/// An event that may come next, and whose it is.
#[derive(Drop)]
pub struct Choice {
    pub who: Who,
    pub event: Event,
}

impl Who {
    /// Whether it is the thread at this index.
    pub(crate) fn is_of_thread(self, n: usize) -> bool
        ensures { result ≡ is_of_thread n self }
    {
        match self {
            Who::Thread { thread } => n == thread,
            Who::Daemon => false,
        }
    }
}

impl Choice {
    /// The same choice once more.
    pub fn copy(&self, alloc: Global) -> Result<Choice, AllocError>
        ensures { IfOk result (λ choice. choice ≡ self.now) }
    {
        Ok(Choice {
            who: self.who,
            event: self.event.copy(alloc)?,
        })
    }
}

/// The same choices once more.
pub(crate) fn copies_of(alloc: Global, choices: &[Choice]) -> Result<Vec<Choice>, AllocError>
    ensures { IfOk result (λ copies. copies.items ≡ choices.now) }
{
    let mut copies = Vec::with_capacity(alloc, choices.len())?;
    for choice in choices {
        copies.push(choice.copy(alloc)?)?;
    }
    Ok(copies)
}
