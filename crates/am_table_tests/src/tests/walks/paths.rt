//! Paths over stacks, over several triggers, and in several namespaces.

use crate::tests::parts::{Call, End, Parts};
use crate::tests::script::{Example, Step, plays, plays_behind};
use crate::tests::trap::Trap;
use am_names::Errno;

const HOME: Trap = Trap(2, b"home");

const WORK: Trap = Trap(4, b"work");

/// Indirect autofs 2 at `/auto` has mount 3 on `home`, at whose `/srv` indirect autofs 4 has mount
/// 5 on `work`.
static TWO_ON_THE_WAY: [Step<Call>; 4] = [
    Step::Does(Call::Indirect(1, b"/auto", 2)),
    Step::Does(Call::Mount(2, b"/home", 3)),
    Step::Does(Call::Indirect(3, b"/srv", 4)),
    Step::Does(Call::Mount(4, b"/work", 5)),
];

pub fn two_on_the_way() -> &'static [Step<Call>] {
    &TWO_ON_THE_WAY
}

static PASSED_IN_ORDER: [Step<Call>; 6] = [
    Step::Does(Call::Walk(0, b"/auto", &[], End::At(2, b""))),
    Step::Does(Call::Walk(0, b"/auto/home", &[HOME], End::At(3, b""))),
    Step::Does(Call::Walk(0, b"/auto/home/srv", &[HOME], End::At(4, b""))),
    Step::Does(Call::Walk(0, b"/auto/home/srv/work", &[HOME, WORK], End::At(5, b""))),
    Step::Does(Call::Walk(
        0,
        b"/auto/home/srv/work/x",
        &[HOME, WORK],
        End::At(5, b"/x"),
    )),
    Step::Does(Call::Walk(
        0,
        b"/auto/home/srv/home",
        &[HOME],
        End::Notifies(Trap(4, b"home")),
    )),
];

fn passed_in_order() -> Example<Call> {
    Example(
        "triggers are passed in the order of the path",
        &PASSED_IN_ORDER,
    )
}

/// The first trigger on the way decides.
static STOPS: [Step<Call>; 6] = [
    Step::Does(Call::Expires(1, WORK)),
    Step::Does(Call::Walk(0, b"/auto/home/srv/work", &[HOME], End::Waits(1))),
    Step::Does(Call::Catatonic(4)),
    Step::Does(Call::Walk(
        0,
        b"/auto/home/srv/home",
        &[HOME],
        End::Fails(Errno::ENOENT),
    )),
    Step::Does(Call::Expires(2, HOME)),
    Step::Does(Call::Walk(0, b"/auto/home/srv/work", &[], End::Waits(2))),
];

fn stops() -> Example<Call> {
    Example("a walk that stops tells what it passed", &STOPS)
}

static SLASHES: [Step<Call>; 12] = [
    Step::Does(Call::Walk(0, b"/", &[], End::At(1, b""))),
    Step::Does(Call::Walk(0, b"///", &[], End::At(1, b""))),
    Step::Does(Call::Walk(0, b"//auto/", &[], End::At(2, b""))),
    Step::Does(Call::Walk(0, b"//auto///home/", &[HOME], End::At(3, b""))),
    Step::Does(Call::Walk(0, b"/auto//home//x//", &[HOME], End::At(3, b"/x"))),
    Step::Does(Call::Walk(0, b"/x//y/", &[], End::At(1, b"/x/y"))),
    Step::Does(Call::Leads(0, b"/", End::At(1, b""))),
    Step::Does(Call::Leads(0, b"///", End::At(1, b""))),
    Step::Does(Call::Leads(0, b"//auto/", End::At(2, b""))),
    Step::Does(Call::Leads(0, b"//auto///home/", End::At(3, b""))),
    Step::Does(Call::Leads(0, b"/auto//home//x//", End::At(3, b"/x"))),
    Step::Does(Call::Leads(0, b"/x//y/", End::At(1, b"/x/y"))),
];

fn slashes() -> Example<Call> {
    Example("slashes may be doubled and trail", &SLASHES)
}

static ON_ROOTS: [Step<Call>; 11] = [
    Step::Does(Call::Mount(1, b"/a", 2)),
    Step::Does(Call::Mount(2, b"/", 2)),
    Step::Does(Call::Mount(3, b"/", 2)),
    Step::Does(Call::Mount(4, b"/", 2)),
    Step::Does(Call::Mount(5, b"/", 2)),
    Step::Does(Call::Walk(0, b"/", &[], End::At(1, b""))),
    Step::Does(Call::Walk(0, b"/a", &[], End::At(6, b""))),
    Step::Does(Call::Walk(0, b"/a/b", &[], End::At(6, b"/b"))),
    Step::Does(Call::Leads(0, b"/", End::At(1, b""))),
    Step::Does(Call::Leads(0, b"/a", End::At(6, b""))),
    Step::Does(Call::Leads(0, b"/a/b", End::At(6, b"/b"))),
];

fn on_roots() -> Example<Call> {
    Example("five mounts one on the root of the other", &ON_ROOTS)
}

static AT_ONE_PLACE: [Step<Call>; 14] = [
    Step::Does(Call::Mount(1, b"/a/b", 2)),
    Step::Does(Call::Mount(1, b"/a/b", 2)),
    Step::Does(Call::Mount(1, b"/a/b", 2)),
    Step::Does(Call::Mount(1, b"/a/b", 2)),
    Step::Does(Call::Mount(1, b"/a/b", 2)),
    Step::Does(Call::Walk(0, b"/a", &[], End::At(1, b"/a"))),
    Step::Does(Call::Walk(0, b"/a/b", &[], End::At(6, b""))),
    Step::Does(Call::Walk(0, b"/a/b/c", &[], End::At(6, b"/c"))),
    Step::Does(Call::Walk(0, b"/a/c", &[], End::At(1, b"/a/c"))),
    Step::Does(Call::Children(1, &[2, 3, 4, 5, 6])),
    Step::Does(Call::Children(6, &[])),
    Step::Does(Call::CanAdd(3, false)),
    Step::Does(Call::CanAdd(6, false)),
    Step::Does(Call::CanAdd(7, true)),
];

fn at_one_place() -> Example<Call> {
    Example("of five mounts at one place the most recent", &AT_ONE_PLACE)
}

static ON_A_TRIGGER: [Step<Call>; 7] = [
    Step::Does(Call::Indirect(1, b"/auto", 2)),
    Step::Does(Call::Mount(2, b"/home", 3)),
    Step::Does(Call::Mount(3, b"/", 3)),
    Step::Does(Call::Mount(4, b"/", 3)),
    Step::Does(Call::Mount(5, b"/", 3)),
    Step::Does(Call::Mount(6, b"/", 3)),
    Step::Does(Call::Walk(0, b"/auto/home/x", &[HOME], End::At(7, b"/x"))),
];

fn on_a_trigger() -> Example<Call> {
    Example("five mounts on a trigger", &ON_A_TRIGGER)
}

static BEFORE_THE_FIRST_NAME: [Step<Call>; 9] = [
    Step::Does(Call::Direct(1, b"/", 2)),
    Step::Does(Call::Walk(0, b"/", &[], End::Notifies(Trap(2, b"")))),
    Step::Does(Call::Walk(0, b"/a", &[], End::Notifies(Trap(2, b"")))),
    Step::Does(Call::Walk(0, b"/a/b", &[], End::Notifies(Trap(2, b"")))),
    Step::Does(Call::Mount(2, b"/", 3)),
    Step::Does(Call::Walk(0, b"/", &[Trap(2, b"")], End::At(3, b""))),
    Step::Does(Call::Walk(0, b"/a", &[Trap(2, b"")], End::At(3, b"/a"))),
    Step::Does(Call::Expires(1, Trap(2, b""))),
    Step::Does(Call::Walk(0, b"/a", &[], End::Waits(1))),
];

fn before_the_first_name() -> Example<Call> {
    Example(
        "a trigger may be met before the first name",
        &BEFORE_THE_FIRST_NAME,
    )
}

static CATATONIC: [Step<Call>; 4] = [
    Step::Does(Call::Direct(1, b"/", 2)),
    Step::Does(Call::Catatonic(2)),
    Step::Does(Call::Walk(0, b"/", &[], End::At(2, b""))),
    Step::Does(Call::Walk(0, b"/a", &[], End::Fails(Errno::ENOENT))),
];

fn catatonic() -> Example<Call> {
    Example("a catatonic trigger before the first name", &CATATONIC)
}

/// A plain mount on the root, and a direct autofs on that one, with another on its trigger.
static IN_A_STACK: [Step<Call>; 7] = [
    Step::Does(Call::Mount(1, b"/", 2)),
    Step::Does(Call::Direct(2, b"/", 3)),
    Step::Does(Call::Mount(3, b"/", 4)),
    Step::Does(Call::Direct(4, b"/", 5)),
    Step::Does(Call::Walk(0, b"/", &[Trap(3, b"")], End::Notifies(Trap(5, b"")))),
    Step::Does(Call::Mount(5, b"/", 6)),
    Step::Does(Call::Walk(0, b"/", &[Trap(3, b""), Trap(5, b"")], End::At(6, b""))),
];

fn in_a_stack() -> Example<Call> {
    Example("triggers are met in a stack", &IN_A_STACK)
}

/// The copies of mounts 1 to 3 are 4 to 6; 7 and 8 are mounted later, one in each namespace.
static TWO_NAMESPACES: [Step<Call>; 5] = [
    Step::Does(Call::Indirect(1, b"/auto", 2)),
    Step::Does(Call::Mount(2, b"/home", 3)),
    Step::Does(Call::Copy),
    Step::Does(Call::Mount(1, b"/a", 4)),
    Step::Does(Call::Mount(4, b"/b", 4)),
];

fn two_namespaces() -> &'static [Step<Call>] {
    &TWO_NAMESPACES
}

static NAMESPACES: [Step<Call>; 9] = [
    Step::Does(Call::Walk(0, b"/a/x", &[], End::At(7, b"/x"))),
    Step::Does(Call::Walk(0, b"/b/x", &[], End::At(1, b"/b/x"))),
    Step::Does(Call::Walk(0, b"/auto/home/x", &[HOME], End::At(3, b"/x"))),
    Step::Does(Call::Walk(1, b"/a/x", &[], End::At(4, b"/a/x"))),
    Step::Does(Call::Walk(1, b"/b/x", &[], End::At(8, b"/x"))),
    Step::Does(Call::Walk(1, b"/auto/home/x", &[HOME], End::At(6, b"/x"))),
    Step::Does(Call::Walk(1, b"/auto/work", &[], End::Notifies(Trap(2, b"work")))),
    Step::Does(Call::Walk(2, b"/", &[], End::Fails(Errno::ENOENT))),
    Step::Does(Call::Walk(2, b"/auto/home", &[], End::Fails(Errno::ENOENT))),
];

fn namespaces() -> Example<Call> {
    Example("a walk stays in its namespace", &NAMESPACES)
}

static KEPT: [Step<Call>; 1] = [Step::Does(Call::KeptWalk(
    b"//auto/home/x/",
    &[HOME],
    End::At(3, b"/x"),
))];

fn kept() -> Example<Call> {
    Example("a kept text is walked like its path", &KEPT)
}

static TOKENS_OF_ANOTHER: [Step<Call>; 4] = [
    Step::Does(Call::Indirect(1, b"/auto", 2)),
    Step::Does(Call::Expires(1, Trap(3, b"home"))),
    Step::Does(Call::IsPending(2, Trap(2, b""))),
    Step::Does(Call::Walk(0, b"/auto/home", &[], End::Notifies(HOME))),
];

fn tokens_of_another() -> Example<Call> {
    Example(
        "tokens of another file system are nothing to a walk",
        &TOKENS_OF_ANOTHER,
    )
}

#[test]
fn paths(rt: HostRuntime) {
    let alloc = rt.alloc();
    plays_behind::<Parts>(&rt, alloc, two_on_the_way(), passed_in_order());
    plays_behind::<Parts>(&rt, alloc, two_on_the_way(), stops());
    plays_behind::<Parts>(&rt, alloc, two_on_the_way(), slashes());
    plays::<Parts>(&rt, alloc, on_roots());
    plays::<Parts>(&rt, alloc, at_one_place());
    plays::<Parts>(&rt, alloc, on_a_trigger());
    plays::<Parts>(&rt, alloc, before_the_first_name());
    plays::<Parts>(&rt, alloc, catatonic());
    plays::<Parts>(&rt, alloc, in_a_stack());
    plays_behind::<Parts>(&rt, alloc, two_namespaces(), namespaces());
    plays_behind::<Parts>(&rt, alloc, two_on_the_way(), kept());
    plays::<Parts>(&rt, alloc, tokens_of_another());
}
