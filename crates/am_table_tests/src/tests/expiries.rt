//! Which trigger expires next: when it is due, which of several it is, and what keeps it.

use crate::tests::parts::{Ask, Call, Parts};
use crate::tests::script::{Example, Step, plays, plays_behind};
use crate::tests::trap::Trap;

const HOME: Trap = Trap(2, b"home");

const WORK: Trap = Trap(2, b"work");

/// At once, whatever the last use was.
const NOW: Ask = Ask(2, 0, 0, true);

/// With a timeout of ten minutes, long after.
const LATE: Ask = Ask(2, 600, 9000, false);

/// The autofs is mount 2, home is mount 3 and work mount 4.
static TWO_MOUNTED: [Step<Call>; 6] = [
    Step::Does(Call::Indirect(1, b"/auto", 2)),
    Step::Does(Call::Mount(2, b"/home", 9)),
    Step::Does(Call::Mount(2, b"/work", 9)),
    Step::Does(Call::Used(WORK, 200)),
    Step::Does(Call::Used(HOME, 100)),
    Step::Does(Call::Copies),
];

fn two_mounted() -> &'static [Step<Call>] {
    &TWO_MOUNTED
}

static DUE: [Step<Call>; 6] = [
    Step::Does(Call::Picks(Ask(2, 600, 699, false), None)),
    Step::Does(Call::Picks(Ask(2, 600, 700, false), Some(HOME))),
    Step::Does(Call::Picks(Ask(2, 600, 699, true), Some(HOME))),
    // The clock may be behind the last use.
    Step::Does(Call::Picks(Ask(2, 600, 50, false), None)),
    Step::Does(Call::Picks(Ask(2, 1, 0, false), None)),
    Step::Does(Call::Picks(Ask(2, 600, 50, true), Some(HOME))),
];

fn due() -> Example<Call> {
    Example("a trigger is due at the last second", &DUE)
}

static NO_TIMEOUT: [Step<Call>; 3] = [
    Step::Does(Call::Picks(Ask(2, 0, u64::MAX, false), None)),
    Step::Does(Call::Picks(Ask(2, 0, 100, false), None)),
    Step::Does(Call::Picks(Ask(2, 0, u64::MAX, true), Some(HOME))),
];

fn no_timeout() -> Example<Call> {
    Example("without a timeout none is due", &NO_TIMEOUT)
}

/// 18446744069414584320 is the greatest moment less the greatest timeout.
static GREATEST: [Step<Call>; 9] = [
    Step::Does(Call::Used(WORK, u64::MAX)),
    Step::Does(Call::Used(HOME, u64::MAX)),
    Step::Does(Call::Picks(Ask(2, u32::MAX, u64::MAX, false), None)),
    Step::Does(Call::Picks(Ask(2, 1, u64::MAX, false), None)),
    Step::Does(Call::Used(HOME, 18446744069414584321)),
    Step::Does(Call::Picks(Ask(2, u32::MAX, u64::MAX, false), None)),
    Step::Does(Call::Used(HOME, 18446744069414584320)),
    Step::Does(Call::Picks(Ask(2, u32::MAX, u64::MAX, false), Some(HOME))),
    Step::Does(Call::Picks(Ask(2, u32::MAX, 18446744073709551614, false), None)),
];

fn greatest() -> Example<Call> {
    Example("the greatest numbers do not overflow", &GREATEST)
}

static LEAST_FIRST: [Step<Call>; 6] = [
    Step::Does(Call::Picks(LATE, Some(HOME))),
    Step::Does(Call::Used(HOME, 201)),
    Step::Does(Call::Picks(LATE, Some(WORK))),
    Step::Does(Call::Used(HOME, 200)),
    Step::Does(Call::Picks(LATE, Some(HOME))),
    Step::Does(Call::Picks(NOW, Some(HOME))),
];

fn least_first() -> Example<Call> {
    Example("the least last use goes first", &LEAST_FIRST)
}

/// Mounts 3 to 6.
static FOUR_TIED: [Step<Call>; 9] = [
    Step::Does(Call::Indirect(1, b"/auto", 2)),
    Step::Does(Call::Mount(2, b"/\xff", 9)),
    Step::Does(Call::Mount(2, b"/b", 9)),
    Step::Does(Call::Mount(2, b"/aa", 9)),
    Step::Does(Call::Mount(2, b"/a", 9)),
    Step::Does(Call::Used(Trap(2, b"\xff"), 5)),
    Step::Does(Call::Used(Trap(2, b"b"), 5)),
    Step::Does(Call::Used(Trap(2, b"aa"), 5)),
    Step::Does(Call::Used(Trap(2, b"a"), 5)),
];

fn four_tied() -> &'static [Step<Call>] {
    &FOUR_TIED
}

static TIES: [Step<Call>; 8] = [
    Step::Does(Call::Picks(NOW, Some(Trap(2, b"a")))),
    Step::Does(Call::Enters(7, 6)),
    Step::Does(Call::Picks(NOW, Some(Trap(2, b"aa")))),
    Step::Does(Call::Enters(8, 5)),
    Step::Does(Call::Picks(NOW, Some(Trap(2, b"b")))),
    Step::Does(Call::Enters(9, 4)),
    Step::Does(Call::Picks(NOW, Some(Trap(2, b"\xff")))),
    Step::Does(Call::Picks(Ask(2, 1, 6, false), Some(Trap(2, b"\xff")))),
];

fn ties() -> Example<Call> {
    Example("ties go by the bytes of names", &TIES)
}

static OPEN_TOKENS: [Step<Call>; 6] = [
    Step::Does(Call::Expires(7, HOME)),
    Step::Does(Call::Copies),
    Step::Does(Call::Picks(NOW, Some(WORK))),
    Step::Does(Call::Picks(LATE, Some(WORK))),
    Step::Does(Call::IsPending(8, WORK)),
    Step::Does(Call::Picks(NOW, None)),
];

fn open_tokens() -> Example<Call> {
    Example("an open token keeps a trigger", &OPEN_TOKENS)
}

/// Something is mounted on it in namespace 1 alone, on mount 6.
static NOT_MOUNTED: [Step<Call>; 5] = [
    Step::Does(Call::Used(Trap(2, b"alone"), 1)),
    Step::Does(Call::Picks(NOW, Some(HOME))),
    Step::Does(Call::Copy),
    Step::Does(Call::Mount(6, b"/alone", 9)),
    Step::Does(Call::Picks(NOW, Some(HOME))),
];

fn not_mounted() -> Example<Call> {
    Example(
        "a trigger without a mount at the daemons is not picked",
        &NOT_MOUNTED,
    )
}

static BUSY: [Step<Call>; 9] = [
    // The root of the autofs may be in use.
    Step::Does(Call::Enters(9, 2)),
    Step::Does(Call::Enters(7, 3)),
    Step::Does(Call::Copies),
    Step::Does(Call::Picks(NOW, Some(WORK))),
    Step::Does(Call::Leaves(7)),
    Step::Does(Call::Picks(NOW, Some(HOME))),
    Step::Does(Call::Mount(3, b"/deep", 9)),
    Step::Does(Call::Picks(NOW, Some(WORK))),
    Step::Does(Call::Picks(LATE, Some(WORK))),
];

fn busy() -> Example<Call> {
    Example("a mount on it or a walker in it keeps a trigger", &BUSY)
}

/// The autofs is mount 2, in namespace 1 mount 4; home is mount 5, and there mount 6.
static TWO_NAMESPACES: [Step<Call>; 5] = [
    Step::Does(Call::Indirect(1, b"/auto", 2)),
    Step::Does(Call::Share(2)),
    Step::Does(Call::Copy),
    Step::Does(Call::Mount(2, b"/home", 9)),
    Step::Does(Call::Used(HOME, 100)),
];

fn two_namespaces() -> &'static [Step<Call>] {
    &TWO_NAMESPACES
}

static BUSY_COPY: [Step<Call>; 6] = [
    Step::Does(Call::Enters(7, 6)),
    Step::Does(Call::Picks(NOW, None)),
    Step::Does(Call::Picks(LATE, None)),
    Step::Does(Call::Leaves(7)),
    Step::Does(Call::Enters(7, 4)),
    Step::Does(Call::Picks(LATE, Some(HOME))),
];

fn busy_copy() -> Example<Call> {
    Example("a walker in a copy keeps a trigger", &BUSY_COPY)
}

/// The other autofs is mount 5, what is mounted on its root mount 6.
static FILE_SYSTEMS: [Step<Call>; 8] = [
    Step::Does(Call::Direct(1, b"/proj", 4)),
    Step::Does(Call::Used(Trap(4, b""), 1)),
    Step::Does(Call::Picks(Ask(4, 0, 0, true), None)),
    Step::Does(Call::Mount(5, b"/", 9)),
    Step::Does(Call::Picks(Ask(4, 0, 0, true), Some(Trap(4, b"")))),
    Step::Does(Call::Picks(NOW, Some(HOME))),
    Step::Does(Call::Picks(Ask(9, 0, 0, true), None)),
    Step::Does(Call::Picks(Ask(1, 600, 9000, false), None)),
];

fn file_systems() -> Example<Call> {
    Example("each file system has its own pick", &FILE_SYSTEMS)
}

/// A second use keeps its place, and time goes as the caller says.
static LAST_USES: [Step<Call>; 8] = [
    Step::Does(Call::LastUse(HOME, None)),
    Step::Does(Call::Used(HOME, 500)),
    Step::Does(Call::LastUse(HOME, Some(500))),
    Step::Does(Call::Used(HOME, 5)),
    Step::Does(Call::LastUse(HOME, Some(5))),
    Step::Does(Call::AllUsed(&[WORK, HOME, WORK], 9)),
    Step::Does(Call::LastUse(HOME, Some(9))),
    Step::Does(Call::LastUse(WORK, Some(9))),
];

fn last_uses() -> Example<Call> {
    Example("last uses", &LAST_USES)
}

/// A pick ends where one isn't due.
static LOOKS: [Step<Call>; 6] = [
    Step::Does(Call::Counts(Ask(2, 600, 699, false), None, 1)),
    Step::Does(Call::Counts(Ask(2, 600, 700, false), Some(HOME), 1)),
    Step::Does(Call::Enters(7, 3)),
    Step::Does(Call::Counts(Ask(2, 600, 700, false), None, 2)),
    Step::Does(Call::Counts(LATE, Some(WORK), 2)),
    Step::Does(Call::Counts(Ask(2, 600, 699, true), Some(WORK), 2)),
];

fn looks() -> Example<Call> {
    Example("a pick ends where one is not due", &LOOKS)
}

static LOOKS_AT_ALL_OR_NONE: [Step<Call>; 6] = [
    Step::Does(Call::Enters(7, 3)),
    Step::Does(Call::Enters(8, 4)),
    Step::Does(Call::Counts(LATE, None, 2)),
    Step::Does(Call::Counts(NOW, None, 2)),
    Step::Does(Call::Counts(Ask(2, 0, 9000, false), None, 0)),
    Step::Does(Call::Counts(Ask(9, 600, 9000, false), None, 0)),
];

fn looks_at_all_or_none() -> Example<Call> {
    Example("a pick looks at all or none", &LOOKS_AT_ALL_OR_NONE)
}

/// A moment may come twice, and may go back.
static LOOKS_ONCE: [Step<Call>; 6] = [
    Step::Does(Call::Used(HOME, 100)),
    Step::Does(Call::Used(WORK, 50)),
    Step::Does(Call::Counts(LATE, Some(WORK), 1)),
    Step::Does(Call::Enters(7, 4)),
    Step::Does(Call::Counts(LATE, Some(HOME), 2)),
    Step::Does(Call::Counts(Ask(2, 600, 660, false), None, 2)),
];

fn looks_once() -> Example<Call> {
    Example("a trigger stands once in the order", &LOOKS_ONCE)
}

/// With a timeout of 10 the first of a thousand is due at 11, after one look, and none at 10.
static OF_A_THOUSAND: [Step<Call>; 4] = [
    Step::Does(Call::Indirect(1, b"/auto", 2)),
    Step::Does(Call::Keys(2, 2, 1000)),
    Step::Does(Call::Counts(Ask(2, 10, 11, false), Some(Trap(2, b"k0001")), 1)),
    Step::Does(Call::Counts(Ask(2, 10, 10, false), None, 1)),
];

fn of_a_thousand() -> Example<Call> {
    Example("a pick of a thousand takes one look", &OF_A_THOUSAND)
}

static ONE_PICK: [Step<Call>; 1] = [Step::Does(Call::Picks(LATE, Some(HOME)))];

fn one_pick() -> Example<Call> {
    Example("memory may run out in a pick", &ONE_PICK)
}

#[test]
fn picks(rt: HostRuntime) {
    let alloc = rt.alloc();
    plays_behind::<Parts>(&rt, alloc, two_mounted(), due());
    plays_behind::<Parts>(&rt, alloc, two_mounted(), no_timeout());
    plays_behind::<Parts>(&rt, alloc, two_mounted(), greatest());
    plays_behind::<Parts>(&rt, alloc, two_mounted(), least_first());
    plays_behind::<Parts>(&rt, alloc, four_tied(), ties());
    plays_behind::<Parts>(&rt, alloc, two_mounted(), open_tokens());
    plays_behind::<Parts>(&rt, alloc, two_mounted(), not_mounted());
    plays_behind::<Parts>(&rt, alloc, two_mounted(), busy());
    plays_behind::<Parts>(&rt, alloc, two_namespaces(), busy_copy());
    plays_behind::<Parts>(&rt, alloc, two_mounted(), file_systems());
    plays_behind::<Parts>(&rt, alloc, two_mounted(), one_pick());
    plays::<Parts>(&rt, alloc, last_uses());
    plays_behind::<Parts>(&rt, alloc, two_mounted(), looks());
    plays_behind::<Parts>(&rt, alloc, two_mounted(), looks_at_all_or_none());
    plays::<Parts>(&rt, alloc, of_a_thousand());
    plays_behind::<Parts>(&rt, alloc, two_mounted(), looks_once());
}
