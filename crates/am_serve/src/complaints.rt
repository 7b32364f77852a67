//! What may be wrong with a line, by the words that tell it.

ghost use Rattle.std.specs.Prelude.{◌≡◌};
ghost use Rattle.am_serve.specs.Words.{complaint_word, kind_word, map_word, master_word};

use am_map::MapFaultKind;
use am_master::MasterFaultKind;
use am_script::ScriptFaultKind;

/// What is wrong with a line.
#[derive(Clone, Copy, Debug, PartialEq, Eq)]
pub enum Complaint {
    /// A script has this fault.
    OfScript { kind: ScriptFaultKind },
    /// There is no world that could be asked.
    NoWorld,
    /// No world is saved that could be brought back.
    NotSaved,
    /// It begins with `?` or `!`, and is no question and no command.
    BadQuestion,
}

impl Complaint {
    /// The word that tells it.
    pub fn word(self) -> &'static str
        ensures { result.now ≡ complaint_word self }
    {
        match self {
            Complaint::OfScript { kind } => kind_word(kind),
            Complaint::NoWorld => "NoWorld",
            Complaint::NotSaved => "NotSaved",
            Complaint::BadQuestion => "BadQuestion",
        }
    }
}

fn map_word(kind: MapFaultKind) -> &'static str
    ensures { result.now ≡ map_word kind }
{
    match kind {
        MapFaultKind::BadKey => "BadKey",
        MapFaultKind::BadOption => "BadOption",
        MapFaultKind::NoLocation => "NoLocation",
        MapFaultKind::BadLocation => "BadLocation",
        MapFaultKind::NoMemory => "NoMemory",
    }
}

fn master_word(kind: MasterFaultKind) -> &'static str
    ensures { result.now ≡ master_word kind }
{
    match kind {
        MasterFaultKind::BadPoint => "BadPoint",
        MasterFaultKind::NoMap => "NoMap",
        MasterFaultKind::BadType => "BadType",
        MasterFaultKind::BadTimeout => "BadTimeout",
        MasterFaultKind::Twice => "Twice",
        MasterFaultKind::NoMemory => "NoMemory",
    }
}

/// The word that tells a fault of a script.
pub fn kind_word(kind: ScriptFaultKind) -> &'static str
    ensures { result.now ≡ kind_word kind }
{
    match kind {
        ScriptFaultKind::BadSection => "BadSection",
        ScriptFaultKind::BadLimits => "BadLimits",
        ScriptFaultKind::BadMaster { kind } => master_word(kind),
        ScriptFaultKind::BadMap { kind } => map_word(kind),
        ScriptFaultKind::NoSuchMap => "NoSuchMap",
        ScriptFaultKind::BadEvent => "BadEvent",
        ScriptFaultKind::LongLine => "LongLine",
        ScriptFaultKind::NoMemory => "NoMemory",
        ScriptFaultKind::ReadFailed => "ReadFailed",
        ScriptFaultKind::WriteFailed => "WriteFailed",
        ScriptFaultKind::NoSuchNamespace => "NoSuchNamespace",
    }
}
