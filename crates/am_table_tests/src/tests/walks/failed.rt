//! What a walk meets at a trigger at which a mount failed: that decides where the daemon would be
//! notified, as long as it lasts, and nowhere else.

use crate::tests::parts::{Call, End, Fact, Setting};
use crate::tests::script::{Example, Step, plays};
use crate::tests::trap::Trap;
use crate::tests::walks::traps::{Case, Walks};
use am_names::{Errno, FailNo};

const HOME: Trap = Trap(2, b"home");

const ROOT: Trap = Trap(2, b"");

/// Autofs 2 is at `/auto` of namespace 0 as the daemon's mount 2, and of namespace 1 as mount 4. A
/// mount at the trigger `home` failed, and that lasts for one second more (`f`) or no longer (`o`).
/// The trigger is expiring (`x`), a mount is pending (`p`), something is mounted on it at mount 4
/// (`m`), the file system is catatonic (`c`), the directory is made (`k`), something is mounted on
/// it at mount 2, the daemon's (`d`). All go on as copies of themselves (`2`).
pub const INDIRECT: Setting = Setting(
    &[Call::Indirect(1, b"/auto", 2), Call::Copy],
    &[
        Fact(b'f', Call::Failed(HOME, FailNo::EPERM, 41)),
        Fact(b'o', Call::Failed(HOME, FailNo::EPERM, 40)),
        Fact(b'x', Call::Expires(1, HOME)),
        Fact(b'p', Call::IsPending(2, HOME)),
        Fact(b'm', Call::Mount(4, b"/home", 7)),
        Fact(b'c', Call::Catatonic(2)),
        Fact(b'k', Call::Makes(HOME)),
        Fact(b'd', Call::Mount(2, b"/home", 7)),
        Fact(b'2', Call::Copies),
    ],
);

/// The same of the root of a direct autofs.
const DIRECT: Setting = Setting(
    &[Call::Direct(1, b"/auto", 2), Call::Copy],
    &[
        Fact(b'f', Call::Failed(ROOT, FailNo::EBUSY, 41)),
        Fact(b'o', Call::Failed(ROOT, FailNo::EBUSY, 40)),
        Fact(b'x', Call::Expires(1, ROOT)),
        Fact(b'p', Call::IsPending(2, ROOT)),
        Fact(b'm', Call::Mount(4, b"/", 7)),
        Fact(b'c', Call::Catatonic(2)),
        Fact(b'd', Call::Mount(2, b"/", 7)),
    ],
);

static DECIDES: [Step<Case>; 23] = [
    Step::Does(Case::In(INDIRECT, 1)),
    Step::Does(Case::Walk(b"f", b"/auto/home", &[], End::Fails(Errno::EPERM))),
    Step::Does(Case::Walk(b"f2", b"/auto/home", &[], End::Fails(Errno::EPERM))),
    Step::Does(Case::Walk(b"kf", b"/auto/home", &[], End::Fails(Errno::EPERM))),
    Step::Does(Case::Walk(b"f", b"/auto/home/x", &[], End::Fails(Errno::EPERM))),
    Step::Does(Case::Walk(b"o", b"/auto/home", &[], End::Notifies(HOME))),
    Step::Does(Case::Walk(b"fo", b"/auto/home", &[], End::Notifies(HOME))),
    Step::Does(Case::Walk(b"of", b"/auto/home", &[], End::Fails(Errno::EPERM))),
    Step::Does(Case::Walk(b"f", b"/auto/work", &[], End::Notifies(Trap(2, b"work")))),
    Step::Does(Case::Walk(b"f", b"/auto", &[], End::At(4, b""))),
    Step::Does(Case::Walk(b"xf", b"/auto/home", &[], End::Waits(1))),
    Step::Does(Case::Walk(b"x2f2", b"/auto/home", &[], End::Waits(1))),
    Step::Does(Case::Walk(b"pf", b"/auto/home", &[], End::Waits(1))),
    Step::Does(Case::Walk(b"mf", b"/auto/home", &[HOME], End::At(5, b""))),
    Step::Does(Case::Walk(b"2m2f2", b"/auto/home", &[HOME], End::At(5, b""))),
    Step::Does(Case::Walk(b"cf", b"/auto/home", &[], End::Fails(Errno::ENOENT))),
    Step::Does(Case::Walk(b"ckf", b"/auto/home", &[], End::At(4, b"/home"))),
    Step::Does(Case::Walk(b"c2k2f", b"/auto/home", &[], End::At(4, b"/home"))),
    Step::Does(Case::Walk(b"df", b"/auto/home", &[], End::Fails(Errno::ELOOP))),
    Step::Does(Case::In(INDIRECT, 0)),
    Step::Does(Case::Walk(b"f", b"/auto/home", &[], End::Fails(Errno::EPERM))),
    Step::Does(Case::Walk(b"df", b"/auto/home", &[HOME], End::At(5, b""))),
    Step::Does(Case::Walk(b"2d2f", b"/auto/home", &[HOME], End::At(5, b""))),
];

fn decides() -> Example<Case> {
    Example("a failure that lasts decides last", &DECIDES)
}

static DECIDES_AT_A_ROOT: [Step<Case>; 9] = [
    Step::Does(Case::In(DIRECT, 1)),
    Step::Does(Case::Walk(b"f", b"/auto", &[], End::Fails(Errno::EBUSY))),
    Step::Does(Case::Walk(b"f", b"/auto/x", &[], End::Fails(Errno::EBUSY))),
    Step::Does(Case::Walk(b"o", b"/auto", &[], End::Notifies(ROOT))),
    Step::Does(Case::Walk(b"xf", b"/auto", &[], End::Waits(1))),
    Step::Does(Case::Walk(b"pf", b"/auto", &[], End::Waits(1))),
    Step::Does(Case::Walk(b"mf", b"/auto", &[ROOT], End::At(5, b""))),
    Step::Does(Case::Walk(b"cf", b"/auto", &[], End::At(4, b""))),
    Step::Does(Case::Walk(b"df", b"/auto", &[], End::Fails(Errno::ELOOP))),
];

fn decides_at_a_root() -> Example<Case> {
    Example(
        "so it does at the root of a direct autofs",
        &DECIDES_AT_A_ROOT,
    )
}

#[test]
fn failed_triggers(rt: HostRuntime) {
    let alloc = rt.alloc();
    plays::<Walks>(&rt, alloc, decides());
    plays::<Walks>(&rt, alloc, decides_at_a_root());
}
