//! What is told of a line.

use crate::complaints::Complaint;
use crate::request::Question;
use am_diagnosis::Slip;
use am_group::MountState;
use am_names::Errno;

/// What is told of a line.
#[derive(Clone, Copy)]
pub enum Telling {
    Nothing,
    /// The answer to its event.
    Answer,
    /// What it asks.
    Asked {
        question: Question,
    },
    /// What an event `kind` would be answered.
    Kind {
        came: Result<MountState, Errno>,
    },
    /// What is wrong with it, or with the head that it ends.
    Fault {
        line: u64,
        complaint: Complaint,
        slip: Option<Slip>,
    },
}
