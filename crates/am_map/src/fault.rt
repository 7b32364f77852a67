//! Why a text is no map.

ghost use Rattle.std.specs.Prelude.{◌≡◌};
ghost use Rattle.am_map.specs.Fault.{fault_number};

use thiserror::Error;

/// What is wrong with a line: the fault of its first faulty word.
#[derive(Clone, Copy, Debug, PartialEq, Eq, Hash, Error)]
pub enum MapFaultKind {
    /// The first word is no key for this kind of map.
    #[error("BadKey")]
    BadKey = 1,
    /// A dash without options, or a byte that no word may hold.
    #[error("BadOption")]
    BadOption,
    /// The line ends before its location.
    #[error("NoLocation")]
    NoLocation,
    /// Not exactly one word `host:path`.
    #[error("BadLocation")]
    BadLocation,
    /// Out of memory.
    #[error("NoMemory")]
    NoMemory,
}

impl MapFaultKind {
    /// The number of this fault, from 1.
    pub fn number(self) -> u8
        ensures { result ≡ fault_number self }
    {
        self as u8
    }
}

/// The first faulty line of a text.
#[derive(Clone, Copy, Debug, PartialEq, Error)]
#[error("line {line}: {kind}")]
pub struct MapFault {
    /// The first raw line of the line, from 1. Of `NoMemory` the line that was being read.
    pub line: usize,
    pub kind: MapFaultKind,
}
