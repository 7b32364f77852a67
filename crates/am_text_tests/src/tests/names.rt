//! The texts that are read and the faults of those that are not, in order; small values.

use crate::tests::table::{Row, hold, stretched};
use am_names::{
    AbsPath, Errno, FailNo, FsId, Limits, MountId, MountIds, MountRow, Name, NsId, Place, Position,
    Seconds, Waiters, WalkerId, are_ordered, bucket, is_among, is_found, split_first_name,
};
use std::alloc::Global;

/// What goes in, and what comes out.
enum Text {
    /// These bytes and so many letters `x` behind them: no fault where they are a name.
    Name(&'static [u8], usize, Option<Errno>),
    /// The canonical text of a path, or its fault.
    Path(&'static [u8], Result<&'static [u8], Errno>),
    /// A path of so many bytes, without its first ones: no fault where it is its own text.
    LongPath(usize, usize, Option<Errno>),
    /// The fault of these bytes and so many letters `x` behind them.
    NoPath(&'static [u8], usize, Errno),
    /// The first two names of a path, and the canonical text of the path behind them.
    FirstNames(&'static [u8], &'static [u8], &'static [u8], &'static [u8]),
    /// The first name of a path's canonical text, and the text behind it.
    FirstName(&'static [u8], &'static [u8], &'static [u8]),
    /// The root has no first name.
    RootEnds,
    /// Its copy is the same.
    PathCopied(&'static [u8]),
    /// The place that names make one after another has this text.
    Grows(&'static [&'static [u8]], &'static [u8]),
    /// It is at this path.
    IsAt(&'static [&'static [u8]], &'static [u8]),
    /// It is the place that is made of this path.
    IsOf(&'static [&'static [u8]], &'static [u8]),
    /// Its copy is the same.
    PlaceCopied(&'static [&'static [u8]]),
    /// It isn't the root.
    IsNoRoot(&'static [&'static [u8]]),
    /// A place of a path goes down by a name to a text. Without memory it is as before.
    GoesDown(&'static [u8], &'static [u8], &'static [u8]),
    /// The copy of these mounts is the same, has so many, and isn't that of none.
    MountsCopied(&'static [u64]),
    /// Whether a mount is one of these, which are looked through by halves where they stand in order.
    IsAmong(&'static [u64], u64, bool),
    /// The copy of a position in a mount, at a path, is the same.
    PositionCopied(u64, &'static [u8]),
    /// The copy of the row of a mount, on another one, at a path, has its number and its
    /// mountpoint.
    RowCopied(u64, u64, &'static [u8]),
    /// One walker waits, and others join. Without memory the list is as before.
    Joins(u32, &'static [u32], &'static [u32]),
    /// The bytes are in this bucket.
    InBucket(&'static [u8], u64),
    Number(Errno, u8),
    /// The failure of this number has it, and is this error.
    Fails(u8, Errno),
    /// From the first number to the last there is no failure.
    NoFailures(u8, u8),
    /// The greatest mount number, the most waits and the greatest token are in their ranges,
    /// however long failures last.
    InRange(u32, u32, u32, u64, bool),
}

fn reads_name(
    alloc: Global,
    front: &[u8],
    count: usize,
    fault: Option<Errno>,
) -> Result<bool, Errno> {
    let text = stretched(alloc, front, count, b"")?;
    match (Name::read(text.as_slice()), fault) {
        (Ok(name), None) => Ok(name.as_bytes() == text.as_slice()),
        (Err(errno), Some(fault)) => Ok(errno == fault),
        _ => Ok(false),
    }
}

fn reads_path(alloc: Global, text: &[u8], expected: Result<&[u8], Errno>) -> Result<bool, Errno> {
    match (AbsPath::read(text), expected) {
        (Ok(path), Ok(canonical)) => Ok(path.to_place(alloc)?.text() == canonical),
        (Err(errno), Err(fault)) => Ok(errno == fault),
        _ => Ok(false),
    }
}

/// A path of this many bytes, with names of 199 bytes and then a shorter one.
fn long_path(alloc: Global, len: usize) -> Result<Vec<u8>, Errno> {
    let mut text = Vec::new(alloc);
    for at in 0..len {
        text.push(if at % 200 == 0 { b'/' } else { b'x' })?;
    }
    Ok(text)
}

fn reads_long_path(
    alloc: Global,
    len: usize,
    from: usize,
    fault: Option<Errno>,
) -> Result<bool, Errno> {
    let text = long_path(alloc, len)?;
    let Some(text) = text.as_slice().get(from..) else {
        return Ok(false);
    };
    match fault {
        None => reads_path(alloc, text, Ok(text)),
        Some(fault) => reads_path(alloc, text, Err(fault)),
    }
}

fn is_no_path(alloc: Global, front: &[u8], count: usize, fault: Errno) -> Result<bool, Errno> {
    let text = stretched(alloc, front, count, b"")?;
    reads_path(alloc, text.as_slice(), Err(fault))
}

fn has_first_names(
    alloc: Global,
    path: &[u8],
    one: &[u8],
    other: &[u8],
    behind: &[u8],
) -> Result<bool, Errno> {
    let path = AbsPath::read(path)?;
    let Some((first, rest)) = path.split_first() else {
        return Ok(false);
    };
    let Some((second, rest)) = rest.split_first() else {
        return Ok(false);
    };
    let rest = rest.to_place(alloc)?;
    Ok(first.as_bytes() == one && second.as_bytes() == other && rest.text() == behind)
}

fn has_first_name(alloc: Global, path: &[u8], one: &[u8], behind: &[u8]) -> Result<bool, Errno> {
    let place = place_of(alloc, path)?;
    let Some((first, rest)) = split_first_name(place.text()) else {
        return Ok(false);
    };
    Ok(first.as_bytes() == one && rest == behind)
}

fn root_ends(alloc: Global) -> bool {
    let path = AbsPath::root();
    path.split_first().is_none() && split_first_name(Place::root(alloc).text()).is_none()
}

/// A path and its copy are the same names, and so are its place and the path of that.
fn path_copied(alloc: Global, path: &[u8]) -> Result<bool, Errno> {
    let path = AbsPath::read(path)?;
    let place = path.to_place(alloc)?;
    let copy = path.copy().to_place(alloc)?;
    Ok(place.is_same(&copy) && place.is_same(&place.path().to_place(alloc)?))
}

/// The place that these names make.
fn grown(alloc: Global, names: &[&[u8]]) -> Result<Place, Errno> {
    let mut place = Place::root(alloc);
    for name in names {
        place.push(&Name::read(name)?)?;
    }
    Ok(place)
}

fn has_text(alloc: Global, names: &[&[u8]], text: &[u8]) -> Result<bool, Errno> {
    Ok(grown(alloc, names)?.text() == text)
}

fn is_at(alloc: Global, names: &[&[u8]], path: &[u8]) -> Result<bool, Errno> {
    let place = place_of(alloc, path)?;
    Ok(grown(alloc, names)?.is_at(place.text()))
}

/// The place of a path.
fn place_of(alloc: Global, path: &[u8]) -> Result<Place, Errno> {
    Ok(AbsPath::read(path)?.to_place(alloc)?)
}

fn is_of(alloc: Global, names: &[&[u8]], path: &[u8]) -> Result<bool, Errno> {
    let place = place_of(alloc, path)?;
    Ok(Place::of(alloc, place.text())?.is_same(&grown(alloc, names)?))
}

fn place_copied(alloc: Global, names: &[&[u8]]) -> Result<bool, Errno> {
    let place = grown(alloc, names)?;
    Ok(place.is_same(&place.copy(alloc)?))
}

fn is_no_root(alloc: Global, names: &[&[u8]]) -> Result<bool, Errno> {
    Ok(!grown(alloc, names)?.is_same(&Place::root(alloc)))
}

fn goes_down(alloc: Global, path: &[u8], name: &[u8], text: &[u8]) -> Result<bool, Errno> {
    let mut place = place_of(alloc, path)?;
    let name = Name::read(name)?;
    if place.push(&name).is_err() {
        if place.text() != path {
            return Ok(false);
        }
        place.push(&name)?;
    }
    Ok(place.text() == text)
}

/// These mounts, in their order.
fn mounts_of(alloc: Global, numbers: &[u64]) -> Result<MountIds, Errno> {
    let mut mounts = Vec::new(alloc);
    for number in numbers {
        mounts.push(MountId(*number))?;
    }
    Ok(MountIds::of(mounts))
}

fn mounts_copied(alloc: Global, numbers: &[u64]) -> Result<bool, Errno> {
    let mounts = mounts_of(alloc, numbers)?;
    let copy = mounts.copy(alloc)?;
    let none = mounts_of(alloc, &[])?;
    let same_length = copy.as_slice().len() == numbers.len();
    Ok(copy.is_same(&mounts) && same_length && !copy.is_same(&none))
}

fn is_among_mounts(alloc: Global, numbers: &[u64], number: u64) -> Result<bool, Errno> {
    let mounts = mounts_of(alloc, numbers)?;
    let these = mounts.as_slice();
    if are_ordered(these) {
        return Ok(is_found(MountId(number), these));
    }
    Ok(is_among(MountId(number), these))
}

/// A place of a mount.
fn position(alloc: Global, mount: u64, path: &[u8]) -> Result<Position, Errno> {
    Ok(Position {
        mount: MountId(mount),
        place: place_of(alloc, path)?,
    })
}

fn position_copied(alloc: Global, mount: u64, path: &[u8]) -> Result<bool, Errno> {
    let position = position(alloc, mount, path)?;
    Ok(position.copy(alloc)?.is_same(&position))
}

fn row_copied(alloc: Global, mount: u64, on: u64, path: &[u8]) -> Result<bool, Errno> {
    let row = MountRow {
        mount: MountId(mount),
        ns: NsId(0),
        fs: FsId(2),
        origin: MountId(mount),
        mountpoint: Some(position(alloc, on, path)?),
    };
    let copy = row.copy(alloc)?;
    Ok(copy.mount == MountId(mount) && copy.mountpoint.is_some())
}

/// One more walker waits. Whether the list is as before where no memory is found.
fn join(waiters: &mut Waiters, walker: u32) -> Result<bool, Errno> {
    let before = waiters.as_slice().len();
    if waiters.join(WalkerId(walker)).is_err() {
        if waiters.as_slice().len() != before {
            return Ok(false);
        }
        waiters.join(WalkerId(walker))?;
    }
    Ok(true)
}

/// These walkers wait, in this order.
fn are_waiters(waiters: &Waiters, walkers: &[u32]) -> bool {
    let waiters = waiters.as_slice();
    waiters.len() == walkers.len()
        && waiters
            .iter()
            .zip(walkers)
            .all(|(has, walker)| has.0 == *walker)
}

fn joins(alloc: Global, one: u32, others: &[u32], all: &[u32]) -> Result<bool, Errno> {
    let mut waiters = Waiters::one(alloc, WalkerId(one))?;
    for walker in others {
        if !join(&mut waiters, *walker)? {
            return Ok(false);
        }
    }
    Ok(are_waiters(&waiters, all))
}

fn fails(number: u8, errno: Errno) -> bool {
    match FailNo::read(number) {
        Ok(no) => no.number() == number && no.errno() == errno,
        Err(_) => false,
    }
}

fn are_no_failures(first: u8, last: u8) -> bool {
    for number in first..=last {
        if FailNo::read(number) != Err(Errno::EINVAL) {
            return false;
        }
    }
    true
}

fn is_in_range(mounts: u32, waiters: u32, tokens: u32, negative: u64) -> bool {
    let limits = Limits {
        mounts,
        waiters,
        tokens,
        negative: Seconds(negative),
    };
    limits.is_in_range()
}

impl Row for Text {
    fn holds(&self, alloc: Global) -> Result<bool, Errno> {
        match self {
            Text::Name(front, count, fault) => reads_name(alloc, front, *count, *fault),
            Text::Path(text, expected) => reads_path(alloc, text, *expected),
            Text::LongPath(len, from, fault) => reads_long_path(alloc, *len, *from, *fault),
            Text::NoPath(front, count, fault) => is_no_path(alloc, front, *count, *fault),
            Text::FirstNames(path, first, second, behind) => {
                has_first_names(alloc, path, first, second, behind)
            }
            Text::FirstName(path, first, behind) => has_first_name(alloc, path, first, behind),
            Text::RootEnds => Ok(root_ends(alloc)),
            Text::PathCopied(path) => path_copied(alloc, path),
            Text::Grows(names, text) => has_text(alloc, names, text),
            Text::IsAt(names, path) => is_at(alloc, names, path),
            Text::IsOf(names, path) => is_of(alloc, names, path),
            Text::PlaceCopied(names) => place_copied(alloc, names),
            Text::IsNoRoot(names) => is_no_root(alloc, names),
            Text::GoesDown(path, name, text) => goes_down(alloc, path, name, text),
            Text::MountsCopied(numbers) => mounts_copied(alloc, numbers),
            Text::IsAmong(numbers, number, expected) => {
                let is_there = is_among_mounts(alloc, numbers, *number)?;
                Ok(is_there == *expected)
            }
            Text::PositionCopied(mount, path) => position_copied(alloc, *mount, path),
            Text::RowCopied(mount, on, path) => row_copied(alloc, *mount, *on, path),
            Text::Joins(one, others, all) => joins(alloc, *one, others, all),
            Text::InBucket(text, number) => Ok(bucket(text) == *number),
            Text::Number(errno, number) => Ok(errno.number() == *number),
            Text::Fails(number, errno) => Ok(fails(*number, *errno)),
            Text::NoFailures(first, last) => Ok(are_no_failures(*first, *last)),
            Text::InRange(mounts, waiters, tokens, negative, expected) => {
                Ok(is_in_range(*mounts, *waiters, *tokens, *negative) == *expected)
            }
        }
    }
}

static NAMES: [Text; 15] = [
    Text::Name(b"", 1, None),
    Text::Name(b"", 2, None),
    Text::Name(b"", 254, None),
    Text::Name(b"", 255, None),
    Text::Name(b"", 256, Some(Errno::ENAMETOOLONG)),
    Text::Name(b"", 0, Some(Errno::EINVAL)),
    Text::Name(b".", 0, Some(Errno::EINVAL)),
    Text::Name(b"..", 0, Some(Errno::EINVAL)),
    Text::Name(b"...", 0, None),
    Text::Name(b".a", 0, None),
    Text::Name(b"a/b", 0, Some(Errno::EINVAL)),
    Text::Name(b"/", 0, Some(Errno::EINVAL)),
    Text::Name(b"a\0", 0, Some(Errno::EINVAL)),
    Text::Name(b"\0", 0, Some(Errno::EINVAL)),
    Text::Name(b"a b\r\xff", 0, None),
];

static LONG_NAMES: [Text; 2] = [
    Text::Name(b"xxx/", 252, Some(Errno::ENAMETOOLONG)),
    Text::Name(b"xxx/", 251, Some(Errno::EINVAL)),
];

static PATHS: [Text; 9] = [
    Text::Path(b"/", Ok(b"")),
    Text::Path(b"///", Ok(b"")),
    Text::Path(b"/a", Ok(b"/a")),
    Text::Path(b"//a///bc/", Ok(b"/a/bc")),
    Text::Path(b"", Err(Errno::EINVAL)),
    Text::Path(b"a/b", Err(Errno::EINVAL)),
    Text::Path(b"/a/../b", Err(Errno::EINVAL)),
    Text::Path(b"/./b", Err(Errno::EINVAL)),
    Text::Path(b"/a\0", Err(Errno::EINVAL)),
];

static LONG_PATHS: [Text; 3] = [
    Text::LongPath(4095, 0, None),
    Text::LongPath(4096, 0, Some(Errno::ENAMETOOLONG)),
    Text::LongPath(4096, 1, Some(Errno::EINVAL)),
];

static FAULTY_PATHS: [Text; 2] = [
    Text::NoPath(b"/../", 256, Errno::EINVAL),
    Text::NoPath(b"/", 256, Errno::ENAMETOOLONG),
];

static FIRST_NAMES: [Text; 4] = [
    Text::FirstNames(b"/srv//data/x", b"srv", b"data", b"/x"),
    Text::FirstNames(b"//srv/data//", b"srv", b"data", b""),
    Text::FirstName(b"/srv//data/x/", b"srv", b"/data/x"),
    Text::RootEnds,
];

static PLACES: [Text; 5] = [
    Text::Grows(&[b"srv", b"data"], b"/srv/data"),
    Text::IsAt(&[b"srv", b"data"], b"/srv/data"),
    Text::PlaceCopied(&[b"srv", b"data"]),
    Text::IsNoRoot(&[b"srv", b"data"]),
    Text::IsOf(&[b"srv", b"data"], b"/srv/data"),
];

static COPIES: [Text; 4] = [
    Text::PathCopied(b"//srv/data/"),
    Text::MountsCopied(&[5, 6]),
    Text::PositionCopied(1, b"/"),
    Text::RowCopied(2, 1, b"/"),
];

static AMONG: [Text; 4] = [
    Text::IsAmong(&[3, 5, 9], 5, true),
    Text::IsAmong(&[3, 5, 9], 4, false),
    Text::IsAmong(&[9, 3], 3, true),
    Text::IsAmong(&[9, 3], 4, false),
];

static TWO_WAITERS: [Text; 1] = [Text::Joins(7, &[3], &[7, 3])];

static NUMBERS: [Text; 12] = [
    Text::Number(Errno::ENOENT, 1),
    Text::Number(Errno::EPERM, 2),
    Text::Number(Errno::EBUSY, 3),
    Text::Number(Errno::EEXIST, 4),
    Text::Number(Errno::EINVAL, 5),
    Text::Number(Errno::EAGAIN, 6),
    Text::Number(Errno::ELOOP, 7),
    Text::Number(Errno::ENAMETOOLONG, 8),
    Text::Number(Errno::ENOSPC, 9),
    Text::Number(Errno::NoMemory, 10),
    Text::Number(Errno::NotReleased, 11),
    Text::Number(Errno::Stranger, 12),
];

/// All numbers that there are.
static FAILURES: [Text; 11] = [
    Text::NoFailures(0, 0),
    Text::Fails(1, Errno::ENOENT),
    Text::Fails(2, Errno::EPERM),
    Text::Fails(3, Errno::EBUSY),
    Text::Fails(4, Errno::EEXIST),
    Text::Fails(5, Errno::EINVAL),
    Text::Fails(6, Errno::EAGAIN),
    Text::Fails(7, Errno::ELOOP),
    Text::Fails(8, Errno::ENAMETOOLONG),
    Text::Fails(9, Errno::ENOSPC),
    Text::NoFailures(10, 255),
];

static LIMITS: [Text; 7] = [
    Text::InRange(1, 1, 1, 0, true),
    Text::InRange(u32::MAX, 65_536, u32::MAX, u64::MAX, true),
    Text::InRange(0, 1, 1, 0, false),
    Text::InRange(1, 0, 1, 0, false),
    Text::InRange(1, 65_537, 1, 0, false),
    Text::InRange(1, 1, 0, 0, false),
    Text::InRange(1, 1, 1, 60, true),
];

static WITHOUT_MEMORY: [Text; 2] = [
    Text::GoesDown(
        b"/srv",
        b"a_name_longer_than_most",
        b"/srv/a_name_longer_than_most",
    ),
    Text::RowCopied(2, 1, b"/srv/a_name_longer_than_most"),
];

static BUCKETS: [Text; 4] = [
    Text::InBucket(b"", 0),
    Text::InBucket(b"/a", 47_000_238),
    Text::InBucket(b"/home/alice", 4155029679),
    Text::InBucket(b"/home/alicf", 4155029680),
];

static LISTS_WITHOUT_MEMORY: [Text; 2] = [
    Text::MountsCopied(&[5, 6]),
    Text::Joins(7, &[3, 4, 5, 6, 8], &[7, 3, 4, 5, 6, 8]),
];

#[test]
fn texts_of_names(rt: HostRuntime) {
    hold(&rt, rt.alloc(), "names of each length and byte", &NAMES);
    hold(
        &rt,
        rt.alloc(),
        "a long name with a slash is too long",
        &LONG_NAMES,
    );
    hold(
        &rt,
        rt.alloc(),
        "paths are read or tell their first fault",
        &PATHS,
    );
    hold(&rt, rt.alloc(), "paths of 4095 bytes and more", &LONG_PATHS);
    hold(
        &rt,
        rt.alloc(),
        "the order of a paths faults",
        &FAULTY_PATHS,
    );
    hold(
        &rt,
        rt.alloc(),
        "the names of a path one after another",
        &FIRST_NAMES,
    );
    hold(&rt, rt.alloc(), "places grow and are compared", &PLACES);
    hold(&rt, rt.alloc(), "rows and lists are copied", &COPIES);
    hold(&rt, rt.alloc(), "mounts in order and in no order", &AMONG);
    hold(&rt, rt.alloc(), "waiters join in order", &TWO_WAITERS);
    hold(&rt, rt.alloc(), "texts have their buckets", &BUCKETS);
    hold(&rt, rt.alloc(), "errors have their numbers", &NUMBERS);
    hold(
        &rt,
        rt.alloc(),
        "failures have the numbers of errors",
        &FAILURES,
    );
    hold(&rt, rt.alloc(), "limits have their ranges", &LIMITS);
    hold(
        &rt,
        rt.alloc(),
        "a call that finds no memory changes nothing",
        &WITHOUT_MEMORY,
    );
    hold(
        &rt,
        rt.alloc(),
        "a list that finds no memory is as before",
        &LISTS_WITHOUT_MEMORY,
    );
}
