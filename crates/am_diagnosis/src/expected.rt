//! What a line was expected to have.

ghost use Rattle.std.specs.Prelude.{◌≡◌, ◌≢◌, IfNone, IfSome};
ghost use Rattle.am_diagnosis.specs.declared.expected.Expected.{Expected};
ghost use Rattle.am_diagnosis.specs.Expectations.{expected_number, expected_words};

/// What a line was expected to have at a place (docs/FORMATS.md, "The head" and "Events").
#[derive(Clone, Copy, Debug, PartialEq, Eq)]
pub enum Expected {
    Event,
    Walker,
    Namespace,
    FileSystem,
    Token,
    Job,
    Attachment,
    Seconds,
    Moment,
    Path,
    Pipe,
    Expiry,
    Change,
    Reduced,
    Packet,
    Outcome,
    Failure,
    Status,
    Name,
    End,
    Part,
    Limit,
    Waits,
    Lasting,
    MapName,
    Order,
    SectionEnd,
    KnownMap,
    Point,
    FreePoint,
    Map,
    MasterOption,
    Timeout,
    Key,
    Entry,
    Location,
}

impl Expected {
    /// Its number, from 1 (docs/FORMATS.md, "Faults").
    pub fn number(self) -> u8
        ensures { result ≡ expected_number self }
    {
        match self {
            Expected::Event => 1,
            Expected::Walker => 2,
            Expected::Namespace => 3,
            Expected::FileSystem => 4,
            Expected::Token => 5,
            Expected::Job => 6,
            Expected::Attachment => 7,
            Expected::Seconds => 8,
            Expected::Moment => 9,
            Expected::Path => 10,
            Expected::Pipe => 11,
            Expected::Expiry => 12,
            Expected::Change => 13,
            Expected::Reduced => 14,
            Expected::Packet => 15,
            Expected::Outcome => 16,
            Expected::Failure => 17,
            Expected::Status => 18,
            Expected::Name => 19,
            Expected::End => 20,
            Expected::Part => 21,
            Expected::Limit => 22,
            Expected::Waits => 23,
            Expected::Lasting => 24,
            Expected::MapName => 25,
            Expected::Order => 26,
            Expected::SectionEnd => 27,
            Expected::KnownMap => 28,
            Expected::Point => 29,
            Expected::FreePoint => 30,
            Expected::Map => 31,
            Expected::MasterOption => 32,
            Expected::Timeout => 33,
            Expected::Key => 34,
            Expected::Entry => 35,
            Expected::Location => 36,
        }
    }

    /// What was expected, in words.
    pub fn words(self) -> &'static str
        ensures { result.now ≡ expected_words self }
    {
        match self {
            Expected::Event => "the word of an event",
            Expected::Walker => "a walker, a number below 2^32",
            Expected::Namespace => "a namespace, a number below 2^32",
            Expected::FileSystem => "a file system, a number below 2^32",
            Expected::Token => "a token, a number below 2^32",
            Expected::Job => "a job, a number below 2^32",
            Expected::Attachment => "an attachment, a number below 2^32",
            Expected::Seconds => "seconds, a number below 2^32",
            Expected::Moment => "a moment in seconds, a number below 2^64",
            Expected::Path => "a path, which begins with /",
            Expected::Pipe => "room, full or gone",
            Expected::Expiry => "idle or immediate",
            Expected::Change => "shared, slave, private or unbindable",
            Expected::Reduced => "reduced or the end of the line",
            Expected::Packet => "608 hex digits or the end of the line",
            Expected::Outcome => "ok or fail",
            Expected::Failure => "the number of an error, 1 to 9, or the end of the line",
            Expected::Status => "ready or fail",
            Expected::Name => "a name, or - for a direct trigger",
            Expected::End => "the end of the line",
            Expected::Part => "limits, negative, master, map or events",
            Expected::Limit => "a limit, a number from 1 to 4294967295",
            Expected::Waits => "the most waits, a number from 1 to 65536",
            Expected::Lasting => "how many seconds failures last, a number below 2^64",
            Expected::MapName => "the name of a map",
            Expected::Order => "a part of the head that may stand below those above it",
            Expected::SectionEnd => "a line that is just end, below this one",
            Expected::KnownMap => "the name of a map that has a section",
            Expected::Point => "/- or a path below /",
            Expected::FreePoint => "a mount point that no line above has",
            Expected::Map => "a map, its name or file:name",
            Expected::MasterOption =>
                "--timeout with seconds below 2^32, another option, or the end of the line",
            Expected::Timeout => "the seconds of a timeout, a number below 2^32",
            Expected::Key => "a key of this kind of map",
            Expected::Entry => "options behind a dash, or a location host:/path",
            Expected::Location => "a location host:/path",
        }
    }

    /// What has this number, if anything has.
    pub fn numbered(number: u32) -> Option<Expected>
        ensures some { IfSome result (λ expected. expected_number expected ≡ number) }
        ensures none { IfNone result ((expected : Expected) → expected_number expected ≢ number) }
    {
        match number {
            1 => Some(Expected::Event),
            2 => Some(Expected::Walker),
            3 => Some(Expected::Namespace),
            4 => Some(Expected::FileSystem),
            5 => Some(Expected::Token),
            6 => Some(Expected::Job),
            7 => Some(Expected::Attachment),
            8 => Some(Expected::Seconds),
            9 => Some(Expected::Moment),
            10 => Some(Expected::Path),
            11 => Some(Expected::Pipe),
            12 => Some(Expected::Expiry),
            13 => Some(Expected::Change),
            14 => Some(Expected::Reduced),
            15 => Some(Expected::Packet),
            16 => Some(Expected::Outcome),
            17 => Some(Expected::Failure),
            18 => Some(Expected::Status),
            19 => Some(Expected::Name),
            20 => Some(Expected::End),
            21 => Some(Expected::Part),
            22 => Some(Expected::Limit),
            23 => Some(Expected::Waits),
            24 => Some(Expected::Lasting),
            25 => Some(Expected::MapName),
            26 => Some(Expected::Order),
            27 => Some(Expected::SectionEnd),
            28 => Some(Expected::KnownMap),
            29 => Some(Expected::Point),
            30 => Some(Expected::FreePoint),
            31 => Some(Expected::Map),
            32 => Some(Expected::MasterOption),
            33 => Some(Expected::Timeout),
            34 => Some(Expected::Key),
            35 => Some(Expected::Entry),
            36 => Some(Expected::Location),
            _ => None,
        }
    }
}

/// Where a line isn't as expected.
#[derive(Clone, Copy, Debug, PartialEq, Eq)]
pub struct Slip {
    /// The byte of the line, from 1; one past the last byte where the line ends too early.
    pub column: usize,
    pub expected: Expected,
}
