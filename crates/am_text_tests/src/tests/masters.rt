//! Texts and what they are read as: an example after the manual page, each fault on each kind of
//! line, texts that are cut short, and a big master map.

use crate::tests::table::{Row, hold, joined, push_digits};
use am_master::{Master, MasterEntry, MasterFault, MasterFaultKind, Point};
use am_names::{AbsPath, Errno};
use std::alloc::Global;

/// The text of a point, none for `/-`, with the map, the timeout and the line.
type Said = (Option<&'static [u8]>, &'static [u8], u32, usize);

/// The first raw line of a fault, and its kind.
type At = Option<(usize, MasterFaultKind)>;

/// What goes in, and what comes out.
enum Text {
    /// A text is read as these entries.
    ReadAs(&'static [u8], &'static [Said]),
    /// The fault of the first line of a text.
    Bad(&'static [u8], MasterFaultKind),
    /// The line of a text on which a point of an earlier one stands, if there is one.
    TwiceAt(&'static [u8], Option<usize>),
    /// A line has this fault among all surroundings.
    FaultAmong(&'static [u8], MasterFaultKind),
    /// The text, cut at each of these bytes, is read as these entries and at most one more, or
    /// tells the fault of this line.
    Cut(&'static [u8], usize, usize, &'static [Said], usize),
    /// A text has so many entries.
    Counts(&'static [u8], usize),
    /// The place of the line of a text whose point is this path, if there is one.
    LineAt(&'static [u8], &'static [u8], Option<usize>),
    /// A text of so many lines has as many entries; the fault with one more line behind them.
    Big(u32, usize, &'static [u8], At),
    Number(MasterFaultKind, u8, &'static str),
    Told(usize, MasterFaultKind, &'static str),
}

/// What a text is read as, or its fault, or memory has run out.
fn read(alloc: Global, text: &[u8]) -> Result<Result<Master, MasterFault>, Errno> {
    match Master::read(alloc, text) {
        Err(fault) if fault.kind == MasterFaultKind::NoMemory => Err(Errno::NoMemory),
        read => Ok(read),
    }
}

fn says(entry: &MasterEntry, said: Said) -> bool {
    let (point, map, timeout, line) = said;
    let same_point = match (&entry.point, point) {
        (Point::Direct, None) => true,
        (Point::Indirect(place), Some(text)) => place.text() == text,
        _ => false,
    };
    same_point && entry.map.as_slice() == map && entry.timeout == timeout && entry.line == line
}

/// The first entries are these.
fn say(entries: &[MasterEntry], said: &[Said]) -> bool {
    if entries.len() < said.len() {
        return false;
    }
    for (entry, said) in entries.iter().zip(said) {
        if !says(entry, *said) {
            return false;
        }
    }
    true
}

fn is_read_as(alloc: Global, text: &[u8], said: &[Said]) -> Result<bool, Errno> {
    match read(alloc, text)? {
        Ok(master) => Ok(master.entries().len() == said.len() && say(master.entries(), said)),
        Err(_) => Ok(false),
    }
}

/// The line and the kind of the fault that a text has, if it has one.
fn has_fault(alloc: Global, text: &[u8], expected: At) -> Result<bool, Errno> {
    match (read(alloc, text)?, expected) {
        (Ok(_), None) => Ok(true),
        (Err(fault), Some((line, kind))) => Ok(fault.line == line && fault.kind == kind),
        _ => Ok(false),
    }
}

fn is_twice(alloc: Global, text: &[u8], line: Option<usize>) -> Result<bool, Errno> {
    match line {
        Some(line) => has_fault(alloc, text, Some((line, MasterFaultKind::Twice))),
        None => has_fault(alloc, text, None),
    }
}

/// What stands before a line and behind it, and the first raw line of the line.
static SURROUNDINGS: [(&[u8], &[u8], usize); 6] = [
    (b"", b"", 1),
    (b"", b"\n/k a\n/", 1),
    (b"/k a\n/- a\n", b"\n/m a\n/\n", 3),
    (b"# x\n\n/k a \\\n-t \\\n5\n", b"\n/ -", 6),
    (b"# x \\\n/\n \t\\\n\\\n", b"\n", 3),
    (b"/k a\n# x\n", b"\\", 3),
];

fn has_fault_among(alloc: Global, line: &[u8], kind: MasterFaultKind) -> Result<bool, Errno> {
    for (before, behind, at) in &SURROUNDINGS {
        let text = joined(alloc, [before, line, behind])?;
        if !has_fault(alloc, text.as_slice(), Some((*at, kind)))? {
            return Ok(false);
        }
    }
    Ok(true)
}

/// A text that is cut here has these entries and at most one more, or tells this line.
fn is_cut(alloc: Global, cut: &[u8], said: &[Said], next: usize) -> Result<bool, Errno> {
    match read(alloc, cut)? {
        Ok(master) => {
            let more = master.entries().len().saturating_sub(said.len());
            Ok(more <= 1 && say(master.entries(), said))
        }
        Err(fault) => Ok(fault.line == next),
    }
}

fn is_cut_at_each(
    alloc: Global,
    text: &[u8],
    from: usize,
    to: usize,
    said: &[Said],
    next: usize,
) -> Result<bool, Errno> {
    for len in from..to {
        let Some(cut) = text.get(..len) else {
            return Ok(false);
        };
        if !is_cut(alloc, cut, said, next)? {
            return Ok(false);
        }
    }
    Ok(true)
}

fn counts(alloc: Global, text: &[u8], count: usize) -> Result<bool, Errno> {
    match read(alloc, text)? {
        Ok(master) => Ok(master.entries().len() == count),
        Err(_) => Ok(false),
    }
}

fn has_line_at(
    alloc: Global,
    text: &[u8],
    path: &[u8],
    place: Option<usize>,
) -> Result<bool, Errno> {
    let path = AbsPath::read(path)?.to_place(alloc)?;
    match read(alloc, text)? {
        Ok(master) => Ok(master.line_at(path.text()) == place),
        Err(_) => Ok(false),
    }
}

/// A master map of lines `/mnt/k000 auto.map --timeout=10` and on.
fn big_text(alloc: Global, lines: u32) -> Result<Vec<u8>, Errno> {
    let mut text = Vec::new(alloc);
    for line in 0..lines {
        text.extend_from_slice(b"/mnt/k")?;
        push_digits(&mut text, line, &[100, 10, 1])?;
        text.extend_from_slice(b" auto.map --timeout=10\n")?;
    }
    Ok(text)
}

fn is_big(
    alloc: Global,
    lines: u32,
    count: usize,
    behind: &[u8],
    expected: At,
) -> Result<bool, Errno> {
    let mut text = big_text(alloc, lines)?;
    if !counts(alloc, text.as_slice(), count)? {
        return Ok(false);
    }
    text.extend_from_slice(behind)?;
    has_fault(alloc, text.as_slice(), expected)
}

fn has_number(alloc: Global, kind: MasterFaultKind, number: u8, word: &str) -> Result<bool, Errno> {
    let text = kind.to_string(alloc)?;
    Ok(kind.number() == number && text.as_str() == word)
}

fn is_told(alloc: Global, line: usize, kind: MasterFaultKind, words: &str) -> Result<bool, Errno> {
    let fault = MasterFault { line, kind };
    let text = fault.to_string(alloc)?;
    Ok(text.as_str() == words)
}

impl Row for Text {
    fn holds(&self, alloc: Global) -> Result<bool, Errno> {
        match self {
            Text::ReadAs(text, said) => is_read_as(alloc, text, said),
            Text::Bad(text, kind) => has_fault(alloc, text, Some((1, *kind))),
            Text::TwiceAt(text, line) => is_twice(alloc, text, *line),
            Text::FaultAmong(line, kind) => has_fault_among(alloc, line, *kind),
            Text::Cut(text, from, to, said, next) => {
                is_cut_at_each(alloc, text, *from, *to, said, *next)
            }
            Text::Counts(text, count) => counts(alloc, text, *count),
            Text::LineAt(text, path, place) => has_line_at(alloc, text, path, *place),
            Text::Big(lines, count, behind, expected) => {
                is_big(alloc, *lines, *count, behind, *expected)
            }
            Text::Number(kind, number, word) => has_number(alloc, *kind, *number, word),
            Text::Told(line, kind, words) => is_told(alloc, *line, *kind, words),
        }
    }
}

static TIMEOUTS: [Text; 2] = [
    Text::ReadAs(
        b"/auto file,sun:auto.home --timeout 60 -t 5 -fstype=nfs\n/- auto.direct\n/- auto.more",
        &[
            (Some(b"/auto"), b"auto.home", 5, 1),
            (None, b"auto.direct", 300, 2),
            (None, b"auto.more", 300, 3),
        ],
    ),
    Text::ReadAs(b"", &[]),
];

/// After the sample of auto.master(5).
static SAMPLE: [Text; 1] = [Text::ReadAs(
    b"# Sample master map\n\
/-        auto.data\n\
/home     /etc/auto.home\t--timeout=120\n\
/mnt/ \\\n  file:/etc/auto.mnt -t 0 ro\n\
\n\
//misc//x  auto.misc  --timeout 007\n",
    &[
        (None, b"auto.data", 300, 2),
        (Some(b"/home"), b"/etc/auto.home", 120, 3),
        (Some(b"/mnt"), b"/etc/auto.mnt", 0, 4),
        (Some(b"/misc/x"), b"auto.misc", 7, 7),
    ],
)];

static GOOD_LINES: [Text; 13] = [
    Text::ReadAs(b"/-/ m", &[(Some(b"/-"), b"m", 300, 1)]),
    Text::ReadAs(b"//- m", &[(Some(b"/-"), b"m", 300, 1)]),
    Text::ReadAs(b"/a\"$ a\"$\\x", &[(Some(b"/a\"$"), b"a\"$\\x", 300, 1)]),
    Text::ReadAs(b"/a file:b:c", &[(Some(b"/a"), b"b:c", 300, 1)]),
    Text::ReadAs(b"/a file:sun:", &[(Some(b"/a"), b"sun:", 300, 1)]),
    Text::ReadAs(b"/a #m", &[(Some(b"/a"), b"#m", 300, 1)]),
    Text::ReadAs(
        b"/a m --timeout=4294967295",
        &[(Some(b"/a"), b"m", 4_294_967_295, 1)],
    ),
    Text::ReadAs(
        b"/a m -t 0000000000000000000009",
        &[(Some(b"/a"), b"m", 9, 1)],
    ),
    Text::ReadAs(
        b"/a m -t5 -t=6 --timeouts=7 --timeou 8",
        &[(Some(b"/a"), b"m", 300, 1)],
    ),
    Text::ReadAs(
        b"/a m --timeout=5 -t 6 browse",
        &[(Some(b"/a"), b"m", 6, 1)],
    ),
    Text::ReadAs(b"/a m -t 6 --timeout=5", &[(Some(b"/a"), b"m", 5, 1)]),
    Text::ReadAs(b"/a m --timeout \\\n5\\", &[(Some(b"/a"), b"m", 5, 1)]),
    Text::ReadAs(
        b" \t\n# \\\n/ x\n\t/a\tm\r",
        &[(Some(b"/a"), b"m\r", 300, 4)],
    ),
];

static FAULTY_LINES: [Text; 30] = [
    Text::Bad(b"/ a", MasterFaultKind::BadPoint),
    Text::Bad(b"/// a", MasterFaultKind::BadPoint),
    Text::Bad(b"/", MasterFaultKind::BadPoint),
    Text::Bad(b"auto a", MasterFaultKind::BadPoint),
    Text::Bad(b"+auto.master", MasterFaultKind::BadPoint),
    Text::Bad(b"/a/.. -hosts -t", MasterFaultKind::BadPoint),
    Text::Bad(b"/a\0 a", MasterFaultKind::BadPoint),
    Text::Bad(b"/auto", MasterFaultKind::NoMap),
    Text::Bad(b"/-", MasterFaultKind::NoMap),
    Text::Bad(b"/auto file:", MasterFaultKind::NoMap),
    Text::Bad(b"/auto file: -t", MasterFaultKind::NoMap),
    Text::Bad(b"/auto file,sun:", MasterFaultKind::NoMap),
    Text::Bad(b"/auto -hosts", MasterFaultKind::BadType),
    Text::Bad(b"/auto -hosts -t", MasterFaultKind::BadType),
    Text::Bad(b"/- -file:a", MasterFaultKind::BadType),
    Text::Bad(b"/auto nis:x", MasterFaultKind::BadType),
    Text::Bad(b"/auto :x", MasterFaultKind::BadType),
    Text::Bad(b"/auto file,amd:x", MasterFaultKind::BadType),
    Text::Bad(b"/auto a --timeout=4294967296", MasterFaultKind::BadTimeout),
    Text::Bad(b"/auto a --timeout", MasterFaultKind::BadTimeout),
    Text::Bad(b"/auto a --timeout=", MasterFaultKind::BadTimeout),
    Text::Bad(b"/auto a --timeout=+7", MasterFaultKind::BadTimeout),
    Text::Bad(b"/auto a --timeout=-7", MasterFaultKind::BadTimeout),
    Text::Bad(b"/auto a --timeout=7s", MasterFaultKind::BadTimeout),
    Text::Bad(
        b"/auto a --timeout=99999999999999999999",
        MasterFaultKind::BadTimeout,
    ),
    Text::Bad(
        b"/auto a -t 18446744073709551617",
        MasterFaultKind::BadTimeout,
    ),
    Text::Bad(b"/auto a -t -fstype=nfs", MasterFaultKind::BadTimeout),
    Text::Bad(b"/auto a -t -t 5", MasterFaultKind::BadTimeout),
    Text::Bad(
        b"/auto a -t 5 -t x --timeout=6",
        MasterFaultKind::BadTimeout,
    ),
    Text::Bad(b"/- a -t", MasterFaultKind::BadTimeout),
];

/// Twice is a fault of the first word, so it comes before those of the others.
static TWO_LINES: [Text; 8] = [
    Text::TwiceAt(b"/auto a\n/auto/ b", Some(2)),
    Text::TwiceAt(b"/a a\n/a/ -hosts", Some(2)),
    Text::TwiceAt(b"# x\n/a a\n\n/\\\na b\n/ c", Some(4)),
    Text::TwiceAt(b"/a a\n/a", Some(2)),
    Text::TwiceAt(b"/a a\n/b b\n/c \\\nc\n//a a -t", Some(5)),
    Text::TwiceAt(b"/-/ a\n//- b", Some(2)),
    Text::TwiceAt(b"/- a\n/- a\n/-/ a\n/- a", None),
    Text::TwiceAt(b"/a a\n/a/a a\n/aa a\n/A a", None),
];

const POINTS: &[u8] = b"/- a\n/b/b b\n# x\n/- c\n/b/ d\n//a e";

/// A line is found by its point; what is below it, or a direct map, is no point of a line.
static LINES_AT: [Text; 8] = [
    Text::LineAt(POINTS, b"/b/b", Some(1)),
    Text::LineAt(POINTS, b"//b/b/", Some(1)),
    Text::LineAt(POINTS, b"/b", Some(3)),
    Text::LineAt(POINTS, b"/a", Some(4)),
    Text::LineAt(POINTS, b"/a/a", None),
    Text::LineAt(POINTS, b"/-", None),
    Text::LineAt(POINTS, b"/", None),
    Text::LineAt(b"", b"/a", None),
];

static FAULTS_AMONG_LINES: [Text; 4] = [
    Text::FaultAmong(b"/.. a", MasterFaultKind::BadPoint),
    Text::FaultAmong(b"/au\\\nto", MasterFaultKind::NoMap),
    Text::FaultAmong(b"/auto \\\n-hosts", MasterFaultKind::BadType),
    Text::FaultAmong(b"/auto a \\\n\\\n -t", MasterFaultKind::BadTimeout),
];

const WHOLE: &[u8] = b"/ann a -t 5\n# no\\\nte\n/bob file:b\\\n.c\n/- d --timeo\\\nut=1\n";

/// A text that ends too early keeps the entries of its whole lines, or tells the line that is cut.
static CUT: [Text; 3] = [
    Text::Cut(WHOLE, 0, 12, &[], 1),
    Text::Cut(WHOLE, 12, 37, &[(Some(b"/ann"), b"a", 5, 1)], 4),
    Text::Cut(
        WHOLE,
        37,
        56,
        &[(Some(b"/ann"), b"a", 5, 1), (Some(b"/bob"), b"b.c", 300, 4)],
        6,
    ),
];

/// Run with each allocation refused in turn: the only other answer is NoMemory.
static SMALL: [Text; 1] = [Text::Counts(
    b"/ann a\n/- b -t 5\n/bob c\n/cid \\\nd\n/dan e\n/eva f\n/- g\n",
    7,
)];

static BIG: [Text; 1] = [Text::Big(
    1_000,
    1_000,
    b"/mnt/k999 auto.map",
    Some((1_001, MasterFaultKind::Twice)),
)];

static FAULTS: [Text; 7] = [
    Text::Number(MasterFaultKind::BadPoint, 1, "BadPoint"),
    Text::Number(MasterFaultKind::NoMap, 2, "NoMap"),
    Text::Number(MasterFaultKind::BadType, 3, "BadType"),
    Text::Number(MasterFaultKind::BadTimeout, 4, "BadTimeout"),
    Text::Number(MasterFaultKind::Twice, 5, "Twice"),
    Text::Number(MasterFaultKind::NoMemory, 6, "NoMemory"),
    Text::Told(7, MasterFaultKind::Twice, "line 7: Twice"),
];

#[test]
fn texts_of_master_maps(rt: HostRuntime) {
    hold(
        &rt,
        rt.alloc(),
        "points maps and the last timeout",
        &TIMEOUTS,
    );
    hold(
        &rt,
        rt.alloc(),
        "a master map like that of the manual",
        &SAMPLE,
    );
    hold(&rt, rt.alloc(), "lines that are good", &GOOD_LINES);
    hold(
        &rt,
        rt.alloc(),
        "the first faulty word of a line",
        &FAULTY_LINES,
    );
    hold(&rt, rt.alloc(), "a point on two lines", &TWO_LINES);
    hold(&rt, rt.alloc(), "a line is found by its point", &LINES_AT);
    hold(
        &rt,
        rt.alloc(),
        "a fault is told at the first raw line of its line",
        &FAULTS_AMONG_LINES,
    );
    hold(&rt, rt.alloc(), "a text cut at every byte", &CUT);
    hold(&rt, rt.alloc(), "memory may run out anywhere", &SMALL);
    hold(&rt, rt.alloc(), "a master of 1000 lines", &BIG);
    hold(
        &rt,
        rt.alloc(),
        "faults have their numbers and words",
        &FAULTS,
    );
}
