//! Why a text is no scene.

ghost use Rattle.std.specs.Prelude.{◌≡◌};
ghost use Rattle.am_scenes.specs.Faults.{fault_at, fault_of_script, kind_number, kind_of_script};
ghost use Rattle.am_scenes.specs.declared.fault.SceneFaultKind.TheVariants.{NoMemory};

use am_script::{ScriptFault, ScriptFaultKind};
use std::alloc::{AllocError, AllocFailed};
use thiserror::Error;

/// What is wrong with a scene, or with its reader.
#[derive(Clone, Copy, Debug, PartialEq, Error)]
pub enum SceneFaultKind {
    /// A script has this fault: in its head or on the way to the scene, or, of a scene's lines, that
    /// one is too long or reading broke off; `NoMemory` is never among these.
    #[error("{kind}")]
    Script { kind: ScriptFaultKind },
    /// The text ends before its line `events`.
    #[error("NoEvents")]
    NoEvents,
    /// A line of the scene, outside of threads, begins with none of its words.
    #[error("BadLine")]
    BadLine,
    /// A thread, or how the daemon serves, stands below a question.
    #[error("LateLine")]
    LateLine,
    /// Behind `thread` there isn't one word, the thread's name.
    #[error("BadThread")]
    BadThread,
    /// A thread above has the same name.
    #[error("ThreadTwice")]
    ThreadTwice,
    /// A thread has no line `end`.
    #[error("NoEnd")]
    NoEnd,
    /// A line of a thread is no event.
    #[error("BadThreadEvent")]
    BadThreadEvent,
    /// Behind `serve` there isn't `daemon` with failures, each `fail N`.
    #[error("BadService")]
    BadService,
    /// How the daemon serves is told above.
    #[error("ServiceTwice")]
    ServiceTwice,
    /// A question ends before it names a thread, or says what is asked of it.
    #[error("BadQuestion")]
    BadQuestion,
    /// A question names a thread that doesn't stand above.
    #[error("NoSuchThread")]
    NoSuchThread,
    /// Behind a question's thread stands neither `waiting` alone nor the number of one of its events,
    /// from 1.
    #[error("NoSuchEvent")]
    NoSuchEvent,
    /// The words behind a question's event are no answer that can be asked for.
    #[error("BadAnswer")]
    BadAnswer,
    /// Out of memory, for the scene or for an event that leads to it.
    #[error("NoMemory")]
    NoMemory,
}

impl SceneFaultKind {
    /// The number of the fault, from 1.
    pub fn number(self) -> u8
        ensures { result ≡ kind_number self }
    {
        match self {
            SceneFaultKind::Script { .. } => 1,
            SceneFaultKind::NoEvents => 2,
            SceneFaultKind::BadLine => 3,
            SceneFaultKind::LateLine => 4,
            SceneFaultKind::BadThread => 5,
            SceneFaultKind::ThreadTwice => 6,
            SceneFaultKind::NoEnd => 7,
            SceneFaultKind::BadThreadEvent => 8,
            SceneFaultKind::BadService => 9,
            SceneFaultKind::ServiceTwice => 10,
            SceneFaultKind::BadQuestion => 11,
            SceneFaultKind::NoSuchThread => 12,
            SceneFaultKind::NoSuchEvent => 13,
            SceneFaultKind::BadAnswer => 14,
            SceneFaultKind::NoMemory => 15,
        }
    }
}

impl From<AllocError> for SceneFaultKind {
    ghost from_gives = { λ _ kind. kind ≡ NoMemory };

    fn from(_error: AllocError) -> SceneFaultKind {
        SceneFaultKind::NoMemory
    }
}

impl<T: Drop> From<AllocFailed<T>> for SceneFaultKind {
    ghost from_gives = { λ _ kind. kind ≡ NoMemory };

    fn from(_error: AllocFailed<T>) -> SceneFaultKind {
        SceneFaultKind::NoMemory
    }
}

/// A fault, and the line of the text at which it is told, from 1.
#[derive(Clone, Copy, Debug, PartialEq, Error)]
#[error("line {line}: {kind}")]
pub struct SceneFault {
    pub line: u64,
    pub kind: SceneFaultKind,
}

/// The fault of this kind at this line.
pub(crate) fn fault_at(line: u64, kind: SceneFaultKind) -> SceneFault
    ensures { result ≡ fault_at line kind }
{
    SceneFault { line, kind }
}

/// A fault that a script can have, as a scene's.
pub(crate) fn kind_of_script(kind: ScriptFaultKind) -> SceneFaultKind
    ensures { result ≡ kind_of_script kind }
{
    match kind {
        ScriptFaultKind::NoMemory => SceneFaultKind::NoMemory,
        kind => SceneFaultKind::Script { kind },
    }
}

/// The same at its line.
pub(crate) fn fault_of_script(fault: ScriptFault) -> SceneFault
    ensures { result ≡ fault_of_script fault }
{
    fault_at(fault.line, kind_of_script(fault.kind))
}
