//! Why a text is no master map.

ghost use Rattle.std.specs.Prelude.{◌≡◌};
ghost use Rattle.am_master.specs.Fault.{fault_number};

use thiserror::Error;

/// What is wrong with a line: the fault of its first faulty word.
#[derive(Clone, Copy, Debug, PartialEq, Eq, Hash, Error)]
pub enum MasterFaultKind {
    /// The first word is neither `/-` nor a path other than the root.
    #[error("BadPoint")]
    BadPoint = 1,
    /// The line ends before its map, or the map has no name.
    #[error("NoMap")]
    NoMap,
    /// A map that is no file in the format of autofs(5).
    #[error("BadType")]
    BadType,
    /// A timeout without a number of seconds.
    #[error("BadTimeout")]
    BadTimeout,
    /// A mount point that a line above has.
    #[error("Twice")]
    Twice,
    /// Out of memory.
    #[error("NoMemory")]
    NoMemory,
}

impl MasterFaultKind {
    /// The number of this fault, from 1.
    pub fn number(self) -> u8
        ensures { result ≡ fault_number self }
    {
        self as u8
    }
}

/// The first faulty line of a text.
#[derive(Clone, Copy, Debug, PartialEq, Error)]
#[error("line {line}: {kind}")]
pub struct MasterFault {
    /// The first raw line of the line, from 1. Of `NoMemory` the line that was being read.
    pub line: usize,
    pub kind: MasterFaultKind,
}
