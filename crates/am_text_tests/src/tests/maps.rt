//! Texts and what they are read as: examples after the manual page, each fault on each kind of
//! line, texts that are cut short, and a big map.

mod look_ups;

use crate::tests::maps::look_ups::{
    Line, Said, finds, finds_all, finds_lines, finds_none, good, look_up, read,
};
use crate::tests::table::{Row, hold, joined, push_digits, stretched};
use am_map::{Entry, Map, MapFault, MapFaultKind, MapKind, key_text};
use am_names::{AbsPath, Errno};
use std::alloc::Global;

/// The first raw line of a fault, and its kind.
type At = Option<(usize, MapFaultKind)>;

/// What goes in, and what comes out.
enum Text {
    /// In a map of this text these keys are looked up as their entries, and those are not found.
    LooksUp(&'static [u8], MapKind, &'static [Line], &'static [&'static [u8]]),
    /// A text without a fault.
    Good(&'static [u8]),
    /// The fault of the first line of a text.
    Bad(&'static [u8], MapKind, MapFaultKind),
    /// That of a line whose key has so many bytes.
    LongKey(usize, At),
    /// A line has this fault among all surroundings.
    FaultAmong(&'static [u8], MapFaultKind),
    /// The text, cut at each of these bytes, keeps the rows of so many of these keys, or tells the
    /// fault of this line.
    Cut(&'static [u8], usize, usize, &'static [&'static [u8]], usize),
    /// A map of so many lines, the last of which is looked up as often.
    Big(u32, &'static [u8], Said),
    /// Whether a map of the text has an entry for the key.
    HasEntry(&'static [u8], MapKind, &'static [u8], bool),
    /// The key of a path in a direct map.
    Key(&'static [u8], &'static [u8]),
    /// Whether two keys have the same entry.
    Same(&'static [u8], &'static [u8], &'static [u8], bool),
    /// The copy of the entry of a key is the same.
    Copied(&'static [u8], &'static [u8]),
    Number(MapFaultKind, u8, &'static str),
    Told(usize, MapFaultKind, &'static str),
}

fn looks_up(
    alloc: Global,
    text: &[u8],
    kind: MapKind,
    lines: &[Line],
    missing: &[&[u8]],
) -> Result<bool, Errno> {
    let map = good(alloc, text, kind)?;
    let finds = finds_among(alloc, &map, lines, missing);
    drop(map);
    finds
}

fn finds_among(alloc: Global, map: &Map, lines: &[Line], missing: &[&[u8]]) -> Result<bool, Errno> {
    Ok(finds_lines(alloc, map, lines)? && finds_none(alloc, map, missing)?)
}

/// The line and the kind of the fault that a text has, if it has one.
fn fault_of(alloc: Global, text: &[u8], kind: MapKind) -> Result<At, Errno> {
    match read(alloc, text, kind)? {
        Ok(_) => Ok(None),
        Err(fault) => Ok(Some((fault.line, fault.kind))),
    }
}

fn has_fault(alloc: Global, text: &[u8], kind: MapKind, expected: At) -> Result<bool, Errno> {
    Ok(fault_of(alloc, text, kind)? == expected)
}

fn has_long_key(alloc: Global, len: usize, expected: At) -> Result<bool, Errno> {
    let text = stretched(alloc, b"", len, b" a:/x")?;
    has_fault(alloc, text.as_slice(), MapKind::Indirect, expected)
}

/// What stands before a line and behind it, and the first raw line of the line.
static SURROUNDINGS: [(&[u8], &[u8], usize); 6] = [
    (b"", b"", 1),
    (b"", b"\nk a:/b\n+x", 1),
    (b"k a:/b\nl a:/c\n", b"\nm a:/d\n+x\n", 3),
    (b"# x\n\nk a\\\n:\\\n/b\n", b"\n- -", 6),
    (b"# x \\\n+x\n \t\\\n\\\n", b"\n", 3),
    (b"k a:/b\n# x\n", b"\\", 3),
];

fn has_fault_among(alloc: Global, line: &[u8], kind: MapFaultKind) -> Result<bool, Errno> {
    for (before, behind, at) in &SURROUNDINGS {
        let text = joined(alloc, [before, line, behind])?;
        if !has_fault(alloc, text.as_slice(), MapKind::Indirect, Some((*at, kind)))? {
            return Ok(false);
        }
    }
    Ok(true)
}

/// A text that is cut here has these whole lines, and then one whose fault is told, or none.
fn is_cut(alloc: Global, cut: &[u8], keys: &[&[u8]], next: usize) -> Result<bool, Errno> {
    match read(alloc, cut, MapKind::Indirect)? {
        Ok(map) => finds_all(alloc, &map, keys),
        Err(fault) => Ok(fault.line == next),
    }
}

fn is_cut_at_each(
    alloc: Global,
    text: &[u8],
    from: usize,
    to: usize,
    keys: &[&[u8]],
    next: usize,
) -> Result<bool, Errno> {
    for len in from..to {
        let Some(cut) = text.get(..len) else {
            return Ok(false);
        };
        if !is_cut(alloc, cut, keys, next)? {
            return Ok(false);
        }
    }
    Ok(true)
}

/// A map of lines `k000000 -ro srv:/x/&` and on.
fn big_text(alloc: Global, lines: u32) -> Result<Vec<u8>, Errno> {
    let mut text = Vec::new(alloc);
    for line in 0..lines {
        text.push(b'k')?;
        push_digits(&mut text, line, &[100_000, 10_000, 1_000, 100, 10, 1])?;
        text.extend_from_slice(b" -ro srv:/x/&\n")?;
    }
    Ok(text)
}

fn finds_in_big(alloc: Global, lines: u32, key: &[u8], said: Said) -> Result<bool, Errno> {
    let text = big_text(alloc, lines)?;
    let map = good(alloc, text.as_slice(), MapKind::Indirect)?;
    let finds = finds_as_often(alloc, &map, lines, key, said);
    drop(map);
    finds
}

fn finds_as_often(
    alloc: Global,
    map: &Map,
    times: u32,
    key: &[u8],
    said: Said,
) -> Result<bool, Errno> {
    for _ in 0..times {
        if !finds(alloc, map, key, Some(said))? {
            return Ok(false);
        }
    }
    Ok(true)
}

fn has_entry(alloc: Global, text: &[u8], kind: MapKind, key: &[u8]) -> Result<bool, Errno> {
    Ok(good(alloc, text, kind)?.has_entry(key))
}

fn has_key(alloc: Global, path: &[u8], key: &[u8]) -> Result<bool, Errno> {
    let place = AbsPath::read(path)?.to_place(alloc)?;
    Ok(key_text(place.text()) == key)
}

/// Whether the entries of two keys are the same; none where one has no entry.
fn are_same(alloc: Global, text: &[u8], one: &[u8], other: &[u8]) -> Result<Option<bool>, Errno> {
    let map = good(alloc, text, MapKind::Indirect)?;
    let are_same = are_same_in(alloc, &map, one, other);
    drop(map);
    are_same
}

fn are_same_in(alloc: Global, map: &Map, one: &[u8], other: &[u8]) -> Result<Option<bool>, Errno> {
    let Some(one) = look_up(alloc, map, one)? else {
        return Ok(None);
    };
    let is_same = is_that_of(alloc, map, other, &one);
    drop(one);
    is_same
}

/// Whether a key has this entry; none where it has none.
fn is_that_of(alloc: Global, map: &Map, key: &[u8], entry: &Entry) -> Result<Option<bool>, Errno> {
    let Some(other) = look_up(alloc, map, key)? else {
        return Ok(None);
    };
    let is_same = entry.is_same(&other);
    drop(other);
    Ok(Some(is_same))
}

fn is_copied(alloc: Global, text: &[u8], key: &[u8]) -> Result<bool, Errno> {
    let map = good(alloc, text, MapKind::Indirect)?;
    let is_copied = is_copied_in(alloc, &map, key);
    drop(map);
    is_copied
}

fn is_copied_in(alloc: Global, map: &Map, key: &[u8]) -> Result<bool, Errno> {
    let Some(entry) = look_up(alloc, map, key)? else {
        return Ok(false);
    };
    let is_same = is_same_copied(alloc, &entry);
    drop(entry);
    is_same
}

fn is_same_copied(alloc: Global, entry: &Entry) -> Result<bool, Errno> {
    let copy = entry.copy(alloc)?;
    let is_same = copy.is_same(entry);
    drop(copy);
    Ok(is_same)
}

fn has_number(alloc: Global, kind: MapFaultKind, number: u8, word: &str) -> Result<bool, Errno> {
    let text = kind.to_string(alloc)?;
    Ok(kind.number() == number && text.as_str() == word)
}

fn is_told(alloc: Global, line: usize, kind: MapFaultKind, words: &str) -> Result<bool, Errno> {
    let fault = MapFault { line, kind };
    let text = fault.to_string(alloc)?;
    Ok(text.as_str() == words)
}

impl Row for Text {
    fn holds(&self, alloc: Global) -> Result<bool, Errno> {
        match self {
            Text::LooksUp(text, kind, lines, missing) => looks_up(
                alloc, text, *kind, lines, missing,
            ),
            Text::Good(text) => has_fault(alloc, text, MapKind::Indirect, None),
            Text::Bad(text, kind, fault) => has_fault(alloc, text, *kind, Some((1, *fault))),
            Text::LongKey(len, expected) => has_long_key(alloc, *len, *expected),
            Text::FaultAmong(line, kind) => has_fault_among(alloc, line, *kind),
            Text::Cut(text, from, to, keys, next) => {
                is_cut_at_each(alloc, text, *from, *to, keys, *next)
            }
            Text::Big(lines, key, said) => finds_in_big(alloc, *lines, key, *said),
            Text::HasEntry(text, kind, key, expected) => {
                Ok(has_entry(alloc, text, *kind, key)? == *expected)
            }
            Text::Key(path, key) => has_key(alloc, path, key),
            Text::Same(text, one, other, expected) => {
                Ok(are_same(alloc, text, one, other)? == Some(*expected))
            }
            Text::Copied(text, key) => is_copied(alloc, text, key),
            Text::Number(kind, number, word) => has_number(alloc, *kind, *number, word),
            Text::Told(line, kind, words) => is_told(alloc, *line, *kind, words),
        }
    }
}

const FIRST_LINES: &[Line] = &[
    (b"web", (None, b"srv", b"/www")),
    (b"ann", (Some(b"fstype=nfs"), b"srv", b"/home/ann")),
    (b"*", (Some(b"fstype=nfs"), b"srv", b"/home/*")),
];

static FIRST_TEXTS: [Text; 2] = [
    Text::LooksUp(
        b"  # note\n*  -fstype=nfs  srv:/home/&\nweb srv:\\\n/www\nweb other:/x",
        MapKind::Indirect,
        FIRST_LINES,
        &[],
    ),
    Text::LooksUp(b"", MapKind::Indirect, &[], &[b"web", b"*"]),
];

/// After the sample maps of autofs(5).
const INDIRECT_ROWS: &[Line] = &[
    (
        b"kernel",
        (Some(b"ro,soft,intr"), b"ftp.example.org", b"/pub/linux"),
    ),
    (b"boot", (Some(b"fstype=ext4"), b"", b"/dev/sda1")),
    (b"share", (Some(b"fstype=cifs"), b"", b"//server/share")),
    (b"cd", (Some(b"fstype=iso9660,ro"), b"", b"/dev/sr0")),
    (b"home", (None, b"files.example.org", b"/export/home")),
];

static INDIRECT: [Text; 1] = [Text::LooksUp(
    b"# Removable media and a mirror\n\
kernel    -ro,soft,intr\t\tftp.example.org:/pub/linux\n\
boot      -fstype=ext4\t\t:/dev/sda1\n\
share     -fstype=cifs\t\t://server/share\n\
cd        -fstype=iso9660,ro\t:/dev/sr0\n\
\n\
home      files.example.org:/export/home\n",
    MapKind::Indirect,
    INDIRECT_ROWS,
    &[b"floppy"],
)];

const DIRECT_ROWS: &[Line] = &[
    (b"/nfs/apps/editor", (None, b"apps", b"/usr/local/editor")),
    (
        b"/nfs/data/budgets",
        (Some(b"rw"), b"tiger", b"/usr/local/budgets"),
    ),
    (b"/tst/sbin", (None, b"apps", b"/usr/sbin")),
    (b"/", (None, b"root", b"/all/")),
];

static DIRECT: [Text; 1] = [Text::LooksUp(
    b"/nfs/apps/editor  apps:/usr/local/editor\n\
//nfs//data/budgets/ -rw tiger:/usr/local/budgets\n\
/tst/sbin\tapps:/usr/sbin\n\
/ root:/all&\n",
    MapKind::Direct,
    DIRECT_ROWS,
    &[b"/nfs", b"//nfs//data/budgets/", b"", b"//"],
)];

/// autofs(5), "Wildcard Key": the first line with the key, wherever the wildcard stands.
const WILDCARD_ROWS: &[Line] = &[
    (b"annex", (Some(b"ro"), b"box", b"/annexx")),
    (b"bo", (Some(b"o=&"), b"bo.lan", b"/srv/bo/bo")),
    (b"a,b", (Some(b"o=&"), b"a,b.lan", b"/srv/a,b/a,b")),
    (b"&", (Some(b"o=&"), b"&.lan", b"/srv/&/&")),
    (b"*", (Some(b"o=&"), b"*.lan", b"/srv/*/*")),
    (b"", (Some(b"o=&"), b".lan", b"/srv//")),
];

static WILDCARD: [Text; 1] = [Text::LooksUp(
    b"*  -o=& &.lan:/srv/&/&\nannex -ro box:/&x\n* late:/&\nannex late:/x\n",
    MapKind::Indirect,
    WILDCARD_ROWS,
    &[],
)];

static GOOD_LINES: [Text; 15] = [
    Text::Good(b"*x a:/b"),
    Text::Good(b"-k a:/b"),
    Text::Good(b"end s:/x"),
    Text::Good(b"\t k\t a:/b \t"),
    Text::Good(b"k -a -b:/x"),
    Text::Good(b"k :/x"),
    Text::Good(b"k a:/b:c"),
    Text::Good(b"k#x a#:/b#"),
    Text::Good(b"k -- a:/"),
    Text::Good(b"k\r a:/b\r"),
    Text::Good(b"k a:/b\\"),
    Text::Good(b"k \\\na:/b\\\n"),
    Text::Good(b"# k a:/b\\\nrubbish"),
    Text::Good(b" \t\n\n#\n \\\n \\\n"),
    Text::Good(b"\\"),
];

static FAULTY_LINES: [Text; 35] = [
    Text::Bad(b"+auto", MapKind::Indirect, MapFaultKind::BadKey),
    Text::Bad(b"+auto", MapKind::Direct, MapFaultKind::BadKey),
    Text::Bad(b"+", MapKind::Indirect, MapFaultKind::BadKey),
    Text::Bad(b"* a:/x", MapKind::Direct, MapFaultKind::BadKey),
    Text::Bad(b"home a:/x", MapKind::Direct, MapFaultKind::BadKey),
    Text::Bad(b"/a/../b a:/x", MapKind::Direct, MapFaultKind::BadKey),
    Text::Bad(b"/a$ a:/x", MapKind::Direct, MapFaultKind::BadKey),
    Text::Bad(b"/a a:/x", MapKind::Indirect, MapFaultKind::BadKey),
    Text::Bad(b".. a:/x", MapKind::Indirect, MapFaultKind::BadKey),
    Text::Bad(b"$x - a", MapKind::Indirect, MapFaultKind::BadKey),
    Text::Bad(b"\"x a:/x", MapKind::Indirect, MapFaultKind::BadKey),
    Text::Bad(b"x\\y a:/x", MapKind::Indirect, MapFaultKind::BadKey),
    Text::Bad(b"x\\\\\ny a:/x", MapKind::Indirect, MapFaultKind::BadKey),
    Text::Bad(b"x\\\r\ny a:/x", MapKind::Indirect, MapFaultKind::BadKey),
    Text::Bad(b"x\0 a:/x", MapKind::Indirect, MapFaultKind::BadKey),
    Text::Bad(b"web - a:/x", MapKind::Indirect, MapFaultKind::BadOption),
    Text::Bad(b"web -", MapKind::Indirect, MapFaultKind::BadOption),
    Text::Bad(b"web -o$ a", MapKind::Indirect, MapFaultKind::BadOption),
    Text::Bad(b"web -\0", MapKind::Indirect, MapFaultKind::BadOption),
    Text::Bad(b"web", MapKind::Indirect, MapFaultKind::NoLocation),
    Text::Bad(b"web -o", MapKind::Indirect, MapFaultKind::NoLocation),
    Text::Bad(b"/web", MapKind::Direct, MapFaultKind::NoLocation),
    Text::Bad(
        b"web a:/x b:/y",
        MapKind::Indirect,
        MapFaultKind::BadLocation,
    ),
    Text::Bad(b"web a:/x $", MapKind::Indirect, MapFaultKind::BadLocation),
    Text::Bad(
        b"web -a a:/x -b",
        MapKind::Indirect,
        MapFaultKind::BadLocation,
    ),
    Text::Bad(b"web a:/b #c", MapKind::Indirect, MapFaultKind::BadLocation),
    Text::Bad(b"web a", MapKind::Indirect, MapFaultKind::BadLocation),
    Text::Bad(b"web a:", MapKind::Indirect, MapFaultKind::BadLocation),
    Text::Bad(b"web a:b", MapKind::Indirect, MapFaultKind::BadLocation),
    Text::Bad(b"web /a:/b", MapKind::Indirect, MapFaultKind::BadLocation),
    Text::Bad(b"web a,b:/x", MapKind::Indirect, MapFaultKind::BadLocation),
    Text::Bad(b"web a(1):/x", MapKind::Indirect, MapFaultKind::BadLocation),
    Text::Bad(
        b"web [::1]:/x",
        MapKind::Indirect,
        MapFaultKind::BadLocation,
    ),
    Text::Bad(b"web a:/$x", MapKind::Indirect, MapFaultKind::BadLocation),
    Text::Bad(
        b"web srv:\\\n/www /more\n",
        MapKind::Indirect,
        MapFaultKind::BadLocation,
    ),
];

static LONG_KEYS: [Text; 2] = [
    Text::LongKey(255, None),
    Text::LongKey(256, Some((1, MapFaultKind::BadKey))),
];

static FAULTS_AMONG_LINES: [Text; 4] = [
    Text::FaultAmong(b"+web a:/x", MapFaultKind::BadKey),
    Text::FaultAmong(b"we\\\nb - a:/x", MapFaultKind::BadOption),
    Text::FaultAmong(b"web \\\n\\\n -o", MapFaultKind::NoLocation),
    Text::FaultAmong(b"web a:\\\n/x \\\nb:/y", MapFaultKind::BadLocation),
];

const WHOLE: &[u8] = b"ann -ro h1:/x\n# no\\\nte\nbob h2:\\\n/y\ncid -o\\\n=1 h3:/z\n";

/// A text that ends too early keeps the rows of its whole lines, or tells the line that is cut.
static CUT: [Text; 3] = [
    Text::Cut(WHOLE, 0, 14, &[], 1),
    Text::Cut(WHOLE, 14, 35, &[b"ann"], 4),
    Text::Cut(WHOLE, 35, 52, &[b"ann", b"bob"], 6),
];

/// Run with each allocation refused in turn: the only other answer is NoMemory.
static SMALL: [Text; 1] = [Text::LooksUp(
    b"ann -ro h&:/x/&\nbob h:/y\nann h:/z\ncid h:/u\ndan h:/v\n* h:/w\n",
    MapKind::Indirect,
    &[(b"ann", (Some(b"ro"), b"hann", b"/x/ann"))],
    &[],
)];

static BIG: [Text; 1] = [Text::Big(50_000, b"k049999", (Some(b"ro"), b"srv", b"/x/k049999"))];

static KEYS: [Text; 10] = [
    Text::HasEntry(b"web srv:/www", MapKind::Indirect, b"web", true),
    Text::HasEntry(b"web srv:/www", MapKind::Indirect, b"ann", false),
    Text::HasEntry(b"web srv:/www", MapKind::Indirect, b"*", false),
    Text::HasEntry(
        b"web srv:/www\n* srv:/home/&",
        MapKind::Indirect,
        b"web",
        true,
    ),
    Text::HasEntry(
        b"web srv:/www\n* srv:/home/&",
        MapKind::Indirect,
        b"ann",
        true,
    ),
    Text::HasEntry(
        b"//srv/data/ nas:/data",
        MapKind::Direct,
        b"/srv/data",
        true,
    ),
    Text::HasEntry(
        b"//srv/data/ nas:/data",
        MapKind::Direct,
        b"//srv/data/",
        false,
    ),
    Text::HasEntry(b"/ nas:/root", MapKind::Direct, b"/", true),
    Text::HasEntry(b"// nas:/root", MapKind::Direct, b"/", true),
    Text::HasEntry(b"/srv nas:/srv", MapKind::Direct, b"/", false),
];

static PATHS: [Text; 4] = [
    Text::Key(b"/", b"/"),
    Text::Key(b"//", b"/"),
    Text::Key(b"/srv", b"/srv"),
    Text::Key(b"//srv//data/", b"/srv/data"),
];

const SIX_LINES: &[u8] = b"a -ro h:/x\nb h:/x\nc -ro i:/x\nd -ro h:/y\ne -rw h:/x\nf -ro h:/x\n";

static ENTRIES: [Text; 6] = [
    Text::Copied(SIX_LINES, b"a"),
    Text::Same(SIX_LINES, b"a", b"b", false),
    Text::Same(SIX_LINES, b"a", b"c", false),
    Text::Same(SIX_LINES, b"a", b"d", false),
    Text::Same(SIX_LINES, b"a", b"e", false),
    Text::Same(SIX_LINES, b"a", b"f", true),
];

static FAULTS: [Text; 6] = [
    Text::Number(MapFaultKind::BadKey, 1, "BadKey"),
    Text::Number(MapFaultKind::BadOption, 2, "BadOption"),
    Text::Number(MapFaultKind::NoLocation, 3, "NoLocation"),
    Text::Number(MapFaultKind::BadLocation, 4, "BadLocation"),
    Text::Number(MapFaultKind::NoMemory, 5, "NoMemory"),
    Text::Told(7, MapFaultKind::BadKey, "line 7: BadKey"),
];

#[test]
fn texts_of_maps(rt: HostRuntime) {
    hold(
        &rt,
        rt.alloc(),
        "first lines joins comments and the wildcard",
        &FIRST_TEXTS,
    );
    hold(
        &rt,
        rt.alloc(),
        "an indirect map like that of the manual",
        &INDIRECT,
    );
    hold(
        &rt,
        rt.alloc(),
        "a direct map like that of the manual",
        &DIRECT,
    );
    hold(
        &rt,
        rt.alloc(),
        "the key comes before the wildcard",
        &WILDCARD,
    );
    hold(&rt, rt.alloc(), "lines that are good", &GOOD_LINES);
    hold(
        &rt,
        rt.alloc(),
        "the first faulty word of a line",
        &FAULTY_LINES,
    );
    hold(&rt, rt.alloc(), "a key has at most 255 bytes", &LONG_KEYS);
    hold(
        &rt,
        rt.alloc(),
        "a fault is told at the first raw line of its line",
        &FAULTS_AMONG_LINES,
    );
    hold(&rt, rt.alloc(), "a text cut at every byte", &CUT);
    hold(&rt, rt.alloc(), "memory may run out anywhere", &SMALL);
    hold(&rt, rt.alloc(), "a map of 50000 lines", &BIG);
    hold(
        &rt,
        rt.alloc(),
        "a key has an entry where it is found",
        &KEYS,
    );
    hold(
        &rt,
        rt.alloc(),
        "a path has its canonical text as its key",
        &PATHS,
    );
    hold(&rt, rt.alloc(), "entries are copied", &ENTRIES);
    hold(
        &rt,
        rt.alloc(),
        "faults have their numbers and words",
        &FAULTS,
    );
}
