//! The first fault of a text, and its line.

use crate::tests::table::{HEAD, Row, fault_of, fault_without_memory, hold};
use am_names::Errno;
use am_scenes::{SceneFault, SceneFaultKind};
use am_script::ScriptFaultKind;
use std::alloc::{AllocError, Global};

/// What goes in, and what comes out.
enum Text {
    /// Behind the eight lines of `HEAD`, this text has this fault at this line.
    Bad(&'static [u8], u64, SceneFaultKind),
    /// The same of a whole text.
    Whole(&'static [u8], u64, SceneFaultKind),
    /// The same where reading broke off behind the text.
    Broken(&'static [u8], ScriptFaultKind, u64, SceneFaultKind),
    /// The same where it broke off for want of memory, which is told at this line.
    NoMemory(&'static [u8], u64),
    /// Behind the text a line of so many letters `#` stands: the fault of this line, or none.
    Long(&'static [u8], usize, Option<u64>),
    /// The number of a fault, and its words at a line.
    Number(SceneFaultKind, u8, u64, &'static str),
}

/// Whether this fault was found.
fn is_at(found: Option<SceneFault>, line: u64, kind: SceneFaultKind) -> bool {
    found == Some(SceneFault { line, kind })
}

/// Whether want of memory is told at this line. Where memory runs out before, that may be told at another.
fn has_no_memory(alloc: Global, text: &[u8], line: u64) -> Result<bool, Errno> {
    let found = fault_without_memory(alloc, text)?;
    if is_at(found, line, SceneFaultKind::NoMemory) {
        return Ok(true);
    }
    match found {
        Some(fault) if fault.kind == SceneFaultKind::NoMemory => Err(Errno::NoMemory),
        _ => Ok(false),
    }
}

/// The text, and a line of so many letters behind it.
fn lengthened(alloc: Global, text: &[u8], count: usize) -> Result<Vec<u8>, AllocError> {
    let mut whole = Vec::new(alloc);
    whole.extend_from_slice(text)?;
    for _ in 0..count {
        whole.push(b'#')?;
    }
    Ok(whole)
}

fn is_long(alloc: Global, text: &[u8], count: usize, line: Option<u64>) -> Result<bool, Errno> {
    let whole = lengthened(alloc, text, count)?;
    let kind = SceneFaultKind::Script {
        kind: ScriptFaultKind::LongLine,
    };
    let found = fault_of(alloc, HEAD, whole.as_slice(), None)?;
    Ok(found == line.map(|line| SceneFault { line, kind }))
}

fn has_number(
    alloc: Global,
    kind: SceneFaultKind,
    number: u8,
    line: u64,
    words: &str,
) -> Result<bool, Errno> {
    let fault = SceneFault { line, kind };
    let told = fault.to_string(alloc)?;
    Ok(kind.number() == number && told.as_str() == words)
}

impl Row for Text {
    fn holds(&self, alloc: Global) -> Result<bool, Errno> {
        match self {
            Text::Bad(text, line, kind) => {
                Ok(is_at(fault_of(alloc, HEAD, text, None)?, *line, *kind))
            }
            Text::Whole(text, line, kind) => {
                Ok(is_at(fault_of(alloc, b"", text, None)?, *line, *kind))
            }
            Text::Broken(text, broke, line, kind) => {
                let found = fault_of(alloc, HEAD, text, Some(*broke))?;
                Ok(is_at(found, *line, *kind))
            }
            Text::NoMemory(text, line) => has_no_memory(alloc, text, *line),
            Text::Long(text, count, line) => is_long(alloc, text, *count, *line),
            Text::Number(kind, number, line, words) => {
                has_number(alloc, *kind, *number, *line, words)
            }
        }
    }
}

static WAY: [Text; 4] = [
    Text::Bad(
        b"frob\nthread\n",
        9,
        SceneFaultKind::Script {
            kind: ScriptFaultKind::BadEvent,
        },
    ),
    Text::Bad(
        b"# thread a\n\nleave 1\nend\n",
        12,
        SceneFaultKind::Script {
            kind: ScriptFaultKind::BadEvent,
        },
    ),
    Text::Bad(b"thread a\nend\nleave 1\n", 11, SceneFaultKind::BadLine),
    Text::Bad(b"serve daemon\nend\n", 10, SceneFaultKind::BadLine),
];

fn way_rows() -> &'static [Text] {
    &WAY
}

static HEADS: [Text; 4] = [
    Text::Whole(b"", 1, SceneFaultKind::NoEvents),
    Text::Whole(b"# nothing\nmaster\nend\n", 4, SceneFaultKind::NoEvents),
    Text::Whole(
        b"master\n",
        1,
        SceneFaultKind::Script {
            kind: ScriptFaultKind::BadSection,
        },
    ),
    Text::Whole(
        b"thread a\nend\n",
        1,
        SceneFaultKind::Script {
            kind: ScriptFaultKind::BadSection,
        },
    ),
];

fn heads_rows() -> &'static [Text] {
    &HEADS
}

static THREADS: [Text; 9] = [
    Text::Bad(b"thread\nend\n", 9, SceneFaultKind::BadThread),
    Text::Bad(b"thread a b\nend\n", 9, SceneFaultKind::BadThread),
    Text::Bad(
        b"thread a\nend\nthread b\nend\nthread a\nend\n",
        13,
        SceneFaultKind::ThreadTwice,
    ),
    Text::Bad(b"leave 1\nthread a\nleave 2\n", 10, SceneFaultKind::NoEnd),
    Text::Bad(
        b"thread a\nthread b\nend\n",
        10,
        SceneFaultKind::BadThreadEvent,
    ),
    Text::Bad(
        b"thread a\nleave 1\n\nend x\n",
        12,
        SceneFaultKind::BadThreadEvent,
    ),
    Text::Bad(
        b"thread a\nsometimes a 1 *\nend\n",
        10,
        SceneFaultKind::BadThreadEvent,
    ),
    Text::Bad(
        b"thread a\nend\nsometimes a waiting\nthread b\nend\n",
        12,
        SceneFaultKind::LateLine,
    ),
    Text::Bad(
        b"thread a\nend\nnever a waiting\n# x\nserve\n",
        13,
        SceneFaultKind::LateLine,
    ),
];

fn threads_rows() -> &'static [Text] {
    &THREADS
}

static SERVICES: [Text; 7] = [
    Text::Bad(b"serve\n", 9, SceneFaultKind::BadService),
    Text::Bad(b"serve nobody\n", 9, SceneFaultKind::BadService),
    Text::Bad(b"serve daemon fail\n", 9, SceneFaultKind::BadService),
    Text::Bad(b"serve daemon fail 1 fail\n", 9, SceneFaultKind::BadService),
    Text::Bad(b"serve daemon fail 10\n", 9, SceneFaultKind::BadService),
    Text::Bad(b"serve daemon ok 1\n", 9, SceneFaultKind::BadService),
    Text::Bad(
        b"serve daemon\nserve daemon fail 1\n",
        10,
        SceneFaultKind::ServiceTwice,
    ),
];

fn services_rows() -> &'static [Text] {
    &SERVICES
}

static QUESTIONS: [Text; 17] = [
    Text::Bad(b"sometimes\n", 9, SceneFaultKind::BadQuestion),
    Text::Bad(b"never a\n", 9, SceneFaultKind::NoSuchThread),
    Text::Bad(
        b"thread a\nleave 1\nend\nnever a\n",
        12,
        SceneFaultKind::BadQuestion,
    ),
    Text::Bad(
        b"thread a\nleave 1\nend\nnever b 1 *\n",
        12,
        SceneFaultKind::NoSuchThread,
    ),
    Text::Bad(
        b"thread a\nleave 1\nend\nnever a 0 *\n",
        12,
        SceneFaultKind::NoSuchEvent,
    ),
    Text::Bad(
        b"thread a\nleave 1\nend\nnever a 2 *\n",
        12,
        SceneFaultKind::NoSuchEvent,
    ),
    Text::Bad(
        b"thread a\nleave 1\nend\nthread b\nleave 1\nleave 2\nend\nnever a 2 *\n",
        16,
        SceneFaultKind::NoSuchEvent,
    ),
    Text::Bad(
        b"thread a\nleave 1\nend\nnever a waiting x\n",
        12,
        SceneFaultKind::NoSuchEvent,
    ),
    Text::Bad(
        b"thread a\nleave 1\nend\nnever a waiting\nnever a 01 *\n",
        13,
        SceneFaultKind::NoSuchEvent,
    ),
    // A thread's name is no line's first word.
    Text::Bad(
        b"thread 1\nleave 1\nend\nnever 1 0:1\n",
        12,
        SceneFaultKind::NoSuchEvent,
    ),
    Text::Bad(b"sometimes *x 1\n", 9, SceneFaultKind::NoSuchThread),
    Text::Bad(b"never -1\n", 9, SceneFaultKind::NoSuchThread),
    Text::Bad(b"always\n", 9, SceneFaultKind::BadQuestion),
    Text::Bad(b"always x 1\n", 9, SceneFaultKind::BadQuestion),
    Text::Bad(
        b"thread a\nend\nalways a waiting\n",
        11,
        SceneFaultKind::BadQuestion,
    ),
    Text::Bad(b"always 1\nthread a\nend\n", 10, SceneFaultKind::LateLine),
    Text::Bad(
        b"thread a\nalways 1\nend\n",
        10,
        SceneFaultKind::BadThreadEvent,
    ),
];

fn questions_rows() -> &'static [Text] {
    &QUESTIONS
}

static ANSWERS: [Text; 10] = [
    Text::Bad(
        b"thread a\nleave 1\nend\nnever a 1\n",
        12,
        SceneFaultKind::BadAnswer,
    ),
    Text::Bad(
        b"thread a\nleave 1\nend\nnever a 1 wait\n",
        12,
        SceneFaultKind::BadAnswer,
    ),
    Text::Bad(
        b"thread a\nleave 1\nend\nnever a 1 wait x\n",
        12,
        SceneFaultKind::BadAnswer,
    ),
    Text::Bad(
        b"thread a\nleave 1\nend\nnever a 1 ok\n",
        12,
        SceneFaultKind::BadAnswer,
    ),
    Text::Bad(
        b"thread a\nleave 1\nend\nnever a 1 job *\n",
        12,
        SceneFaultKind::BadAnswer,
    ),
    Text::Bad(
        b"thread a\nleave 1\nend\nnever a 1 at 1\n",
        12,
        SceneFaultKind::BadAnswer,
    ),
    Text::Bad(
        b"thread a\nleave 1\nend\nnever a 1 at 1 x\n",
        12,
        SceneFaultKind::BadAnswer,
    ),
    Text::Bad(
        b"thread a\nleave 1\nend\nnever a 1 err 13\n",
        12,
        SceneFaultKind::BadAnswer,
    ),
    Text::Bad(
        b"thread a\nleave 1\nend\nnever a 1 fail 0\n",
        12,
        SceneFaultKind::BadAnswer,
    ),
    Text::Bad(
        b"thread a\nleave 1\nend\nnever a 1 * *\n",
        12,
        SceneFaultKind::BadAnswer,
    ),
];

fn answers_rows() -> &'static [Text] {
    &ANSWERS
}

static LONG: [Text; 5] = [
    Text::Long(b"", 8192, None),
    Text::Long(b"", 8193, Some(9)),
    Text::Long(b"thread a\nend\n", 8192, None),
    Text::Long(b"thread a\nend\n", 8193, Some(11)),
    Text::Long(b"thread a\n", 8193, Some(10)),
];

fn long_rows() -> &'static [Text] {
    &LONG
}

static BROKEN: [Text; 6] = [
    Text::Broken(
        b"thread a\nend\nfrob",
        ScriptFaultKind::ReadFailed,
        11,
        SceneFaultKind::Script {
            kind: ScriptFaultKind::ReadFailed,
        },
    ),
    Text::Broken(
        b"thread a\n",
        ScriptFaultKind::ReadFailed,
        10,
        SceneFaultKind::Script {
            kind: ScriptFaultKind::ReadFailed,
        },
    ),
    Text::Broken(
        b"leave 1\n",
        ScriptFaultKind::ReadFailed,
        10,
        SceneFaultKind::Script {
            kind: ScriptFaultKind::ReadFailed,
        },
    ),
    Text::Broken(
        b"frob\nfrob",
        ScriptFaultKind::ReadFailed,
        9,
        SceneFaultKind::Script {
            kind: ScriptFaultKind::BadEvent,
        },
    ),
    Text::NoMemory(b"thread a\nend\nfrob", 11),
    Text::NoMemory(b"leave 1\n", 10),
];

fn broken_rows() -> &'static [Text] {
    &BROKEN
}

static NUMBERS: [Text; 15] = [
    Text::Number(
        SceneFaultKind::Script {
            kind: ScriptFaultKind::BadEvent,
        },
        1,
        3,
        "line 3: BadEvent",
    ),
    Text::Number(SceneFaultKind::NoEvents, 2, 1, "line 1: NoEvents"),
    Text::Number(SceneFaultKind::BadLine, 3, 1, "line 1: BadLine"),
    Text::Number(SceneFaultKind::LateLine, 4, 1, "line 1: LateLine"),
    Text::Number(SceneFaultKind::BadThread, 5, 1, "line 1: BadThread"),
    Text::Number(SceneFaultKind::ThreadTwice, 6, 1, "line 1: ThreadTwice"),
    Text::Number(SceneFaultKind::NoEnd, 7, 1, "line 1: NoEnd"),
    Text::Number(
        SceneFaultKind::BadThreadEvent,
        8,
        1,
        "line 1: BadThreadEvent",
    ),
    Text::Number(SceneFaultKind::BadService, 9, 1, "line 1: BadService"),
    Text::Number(SceneFaultKind::ServiceTwice, 10, 1, "line 1: ServiceTwice"),
    Text::Number(SceneFaultKind::BadQuestion, 11, 1, "line 1: BadQuestion"),
    Text::Number(SceneFaultKind::NoSuchThread, 12, 1, "line 1: NoSuchThread"),
    Text::Number(SceneFaultKind::NoSuchEvent, 13, 1, "line 1: NoSuchEvent"),
    Text::Number(SceneFaultKind::BadAnswer, 14, 1, "line 1: BadAnswer"),
    Text::Number(SceneFaultKind::NoMemory, 15, 7, "line 7: NoMemory"),
];

fn numbers_rows() -> &'static [Text] {
    &NUMBERS
}

#[test]
fn faults_of_scenes(rt: HostRuntime) {
    hold(&rt, rt.alloc(), "the way to a scene", way_rows());
    hold(&rt, rt.alloc(), "the head", heads_rows());
    hold(&rt, rt.alloc(), "threads", threads_rows());
    hold(&rt, rt.alloc(), "how the daemon serves", services_rows());
    hold(&rt, rt.alloc(), "questions", questions_rows());
    hold(
        &rt,
        rt.alloc(),
        "answers that are asked for",
        answers_rows(),
    );
    hold(&rt, rt.alloc(), "long lines", long_rows());
    hold(&rt, rt.alloc(), "reading breaks off", broken_rows());
    hold(
        &rt,
        rt.alloc(),
        "faults have their numbers and words",
        numbers_rows(),
    );
}
