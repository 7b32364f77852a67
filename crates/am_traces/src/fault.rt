//! Why a text is no trace.

use thiserror::Error;

/// What a line of a trace was expected to go on with.
#[derive(Clone, Copy, Debug, PartialEq, Eq, Error)]
pub enum Expected {
    #[error("an observation behind two blanks")]
    Observation,
    #[error("a number")]
    Number,
    #[error("a token")]
    Token,
    #[error("an attachment")]
    Attach,
    #[error("a file system")]
    Fs,
    #[error("a mount")]
    Mount,
    #[error("ready or a failure")]
    Status,
    #[error("the type of a packet")]
    PacketType,
    #[error("a number of the packet")]
    PacketNumber,
    #[error("the name in the packet")]
    PacketName,
    #[error("direct or a name")]
    Key,
    #[error("an entry of the book")]
    Entry,
    #[error("the end of the line")]
    End,
}

/// Where a line isn't as expected.
#[derive(Clone, Copy, Debug, PartialEq, Eq)]
pub struct Miss {
    /// How many bytes of the line are left there.
    pub left: usize,
    pub expected: Expected,
}

/// Why a text is no trace.
#[derive(Clone, Copy, Debug, PartialEq, Eq, Error)]
pub enum TraceFault {
    /// An indented line is that of no observation. The line is counted from 1, and so is the byte
    /// at which it doesn't go on as expected.
    #[error("line {line}, column {column}: {expected} expected")]
    BadLine {
        line: usize,
        column: usize,
        expected: Expected,
    },
    /// Out of memory.
    #[error("NoMemory")]
    NoMemory,
}
