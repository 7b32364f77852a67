//! Why a script isn't played to its end.

ghost use Rattle.std.specs.Prelude.{◌≡◌};
ghost use Rattle.am_script.specs.Fault.{kind_number, fault_at};

use am_map::MapFaultKind;
use am_master::MasterFaultKind;
use thiserror::Error;

/// What is wrong with a script, or with its reader or writer.
#[derive(Clone, Copy, Debug, PartialEq, Eq, Hash, Error)]
pub enum ScriptFaultKind {
    /// The head isn't what a head is, or a section doesn't end.
    #[error("BadSection")]
    BadSection,
    /// The limits aren't three numbers in their ranges, or how long failures last isn't a number.
    #[error("BadLimits")]
    BadLimits,
    /// A line of the master section is no line of a master map; `NoMemory` is never among these.
    #[error("{kind}")]
    BadMaster { kind: MasterFaultKind },
    /// A line of a map section is no line of such a map; `NoMemory` is never among these.
    #[error("{kind}")]
    BadMap { kind: MapFaultKind },
    /// A line of the master section names a map that has no section.
    #[error("NoSuchMap")]
    NoSuchMap,
    /// A line behind `events` is no event.
    #[error("BadEvent")]
    BadEvent,
    /// A line has more than 8,192 bytes.
    #[error("LongLine")]
    LongLine,
    /// Out of memory for the script itself; an event that is refused has an answer.
    #[error("NoMemory")]
    NoMemory,
    /// The reader failed, or didn't come to its end.
    #[error("ReadFailed")]
    ReadFailed,
    /// The writer didn't take an answer line.
    #[error("WriteFailed")]
    WriteFailed,
    /// The namespace whose mounts are to be printed isn't there when the script has ended.
    #[error("NoSuchNamespace")]
    NoSuchNamespace,
}

impl ScriptFaultKind {
    /// The number of the fault, from 1.
    pub fn number(self) -> u8
        ensures { result ≡ kind_number self }
    {
        match self {
            ScriptFaultKind::BadSection => 1,
            ScriptFaultKind::BadLimits => 2,
            ScriptFaultKind::BadMaster { .. } => 3,
            ScriptFaultKind::BadMap { .. } => 4,
            ScriptFaultKind::NoSuchMap => 5,
            ScriptFaultKind::BadEvent => 6,
            ScriptFaultKind::LongLine => 7,
            ScriptFaultKind::NoMemory => 8,
            ScriptFaultKind::ReadFailed => 9,
            ScriptFaultKind::WriteFailed => 10,
            ScriptFaultKind::NoSuchNamespace => 11,
        }
    }
}

/// A fault, and the line of the script at which it is told, from 1.
#[derive(Clone, Copy, Debug, PartialEq, Eq, Hash, Error)]
#[error("line {line}: {kind}")]
pub struct ScriptFault {
    pub line: u64,
    pub kind: ScriptFaultKind,
}

/// The fault of this kind at this line.
pub(crate) fn fault_at(line: u64, kind: ScriptFaultKind) -> ScriptFault
    ensures { result ≡ fault_at line kind }
{
    ScriptFault { line, kind }
}
