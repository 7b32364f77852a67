//! What a walk meets at a trigger: each case of autofs.rst, "Mount Traps" and "Catatonic mode",
//! and where several hold at once, the first.

use crate::tests::parts::{Call, End, Fact, Setting};
use crate::tests::script::{Example, Stage, Step, plays};
use crate::tests::trap::Trap;
use am_names::Errno;
use std::alloc::Global;

const HOME: Trap = Trap(2, b"home");

const ROOT: Trap = Trap(2, b"");

/// Autofs 2 is at `/auto` of namespace 0 as the daemon's mount 2, and of namespace 1 as mount 4.
/// The trigger `home` is expiring (`x`), a mount is pending (`p`), something is mounted on it at
/// mount 4 (`m`), the file system is catatonic (`c`), the directory is made (`k`), something is
/// mounted on it at mount 2, the daemon's (`d`).
pub const INDIRECT: Setting = Setting(
    &[Call::Indirect(1, b"/auto", 2), Call::Copy],
    &[
        Fact(b'x', Call::Expires(1, HOME)),
        Fact(b'p', Call::IsPending(2, HOME)),
        Fact(b'm', Call::Mount(4, b"/home", 7)),
        Fact(b'c', Call::Catatonic(2)),
        Fact(b'k', Call::Makes(HOME)),
        Fact(b'd', Call::Mount(2, b"/home", 7)),
    ],
);

/// The same of the root of a direct autofs.
pub const DIRECT: Setting = Setting(
    &[Call::Direct(1, b"/auto", 2), Call::Copy],
    &[
        Fact(b'x', Call::Expires(1, ROOT)),
        Fact(b'p', Call::IsPending(2, ROOT)),
        Fact(b'm', Call::Mount(4, b"/", 7)),
        Fact(b'c', Call::Catatonic(2)),
        Fact(b'd', Call::Mount(2, b"/", 7)),
    ],
);

/// Where walks are played, or a walk.
#[derive(Clone, Copy)]
pub enum Case {
    /// Here walks are played, in this namespace, each in a world of its own.
    In(Setting, u32),
    /// Facts, a walk along a path where they hold, the triggers that it passes, and where it ends.
    Walk(&'static [u8], &'static [u8], &'static [Trap], End),
}

/// The setting and the namespace in which walks are played.
#[derive(Drop)]
pub struct Walks(Setting, u32);

impl Stage for Walks {
    type Call = Case;

    fn new(_alloc: Global) -> Result<Walks, Errno> {
        Ok(Walks(INDIRECT, 0))
    }

    fn make(&mut self, alloc: Global, case: Case) -> Result<bool, Errno> {
        match case {
            Case::In(setting, ns) => {
                *self = Walks(setting, ns);
                Ok(true)
            }
            Case::Walk(facts, path, traps, end) => {
                let walk = Call::Walk(self.1, path, traps, end);
                self.0.is_so_where(alloc, facts, walk)
            }
        }
    }
}

static CASES_OF_INDIRECT: [Step<Case>; 25] = [
    Step::Does(Case::In(INDIRECT, 1)),
    Step::Does(Case::Walk(b"", b"/auto/home", &[], End::Notifies(HOME))),
    Step::Does(Case::Walk(b"k", b"/auto/home", &[], End::Notifies(HOME))),
    Step::Does(Case::Walk(b"x", b"/auto/home", &[], End::Waits(1))),
    Step::Does(Case::Walk(b"p", b"/auto/home", &[], End::Waits(1))),
    Step::Does(Case::Walk(b"m", b"/auto/home", &[HOME], End::At(5, b""))),
    Step::Does(Case::Walk(b"c", b"/auto/home", &[], End::Fails(Errno::ENOENT))),
    Step::Does(Case::Walk(b"ck", b"/auto/home", &[], End::At(4, b"/home"))),
    Step::Does(Case::Walk(b"d", b"/auto/home", &[], End::Fails(Errno::ELOOP))),
    Step::Does(Case::Walk(b"xp", b"/auto/home", &[], End::Waits(1))),
    Step::Does(Case::Walk(b"px", b"/auto/home", &[], End::Waits(2))),
    Step::Does(Case::Walk(b"xm", b"/auto/home", &[], End::Waits(1))),
    Step::Does(Case::Walk(b"xck", b"/auto/home", &[], End::Waits(1))),
    Step::Does(Case::Walk(b"xd", b"/auto/home", &[], End::Waits(1))),
    Step::Does(Case::Walk(b"pm", b"/auto/home", &[], End::Waits(1))),
    Step::Does(Case::Walk(b"pck", b"/auto/home", &[], End::Waits(1))),
    Step::Does(Case::Walk(b"pd", b"/auto/home", &[], End::Waits(1))),
    Step::Does(Case::Walk(b"mc", b"/auto/home", &[HOME], End::At(5, b""))),
    Step::Does(Case::Walk(b"mck", b"/auto/home", &[HOME], End::At(5, b""))),
    Step::Does(Case::Walk(b"md", b"/auto/home", &[HOME], End::At(5, b""))),
    Step::Does(Case::Walk(b"cd", b"/auto/home", &[], End::Fails(Errno::ENOENT))),
    Step::Does(Case::Walk(b"ckd", b"/auto/home", &[], End::At(4, b"/home"))),
    Step::Does(Case::Walk(b"xpmckd", b"/auto/home", &[], End::Waits(1))),
    Step::Does(Case::Walk(b"pmckd", b"/auto/home", &[], End::Waits(1))),
    Step::Does(Case::Walk(b"mckd", b"/auto/home", &[HOME], End::At(5, b""))),
];

fn cases_of_indirect() -> Example<Case> {
    Example(
        "of two cases of an indirect autofs the first decides",
        &CASES_OF_INDIRECT,
    )
}

static CASES_OF_DIRECT: [Step<Case>; 18] = [
    Step::Does(Case::In(DIRECT, 1)),
    Step::Does(Case::Walk(b"", b"/auto", &[], End::Notifies(ROOT))),
    Step::Does(Case::Walk(b"x", b"/auto", &[], End::Waits(1))),
    Step::Does(Case::Walk(b"p", b"/auto", &[], End::Waits(1))),
    Step::Does(Case::Walk(b"m", b"/auto", &[ROOT], End::At(5, b""))),
    Step::Does(Case::Walk(b"c", b"/auto", &[], End::At(4, b""))),
    Step::Does(Case::Walk(b"d", b"/auto", &[], End::Fails(Errno::ELOOP))),
    Step::Does(Case::Walk(b"xp", b"/auto", &[], End::Waits(1))),
    Step::Does(Case::Walk(b"px", b"/auto", &[], End::Waits(2))),
    Step::Does(Case::Walk(b"xm", b"/auto", &[], End::Waits(1))),
    Step::Does(Case::Walk(b"xc", b"/auto", &[], End::Waits(1))),
    Step::Does(Case::Walk(b"xd", b"/auto", &[], End::Waits(1))),
    Step::Does(Case::Walk(b"pm", b"/auto", &[], End::Waits(1))),
    Step::Does(Case::Walk(b"pc", b"/auto", &[], End::Waits(1))),
    Step::Does(Case::Walk(b"pd", b"/auto", &[], End::Waits(1))),
    Step::Does(Case::Walk(b"mc", b"/auto", &[ROOT], End::At(5, b""))),
    Step::Does(Case::Walk(b"md", b"/auto", &[ROOT], End::At(5, b""))),
    Step::Does(Case::Walk(b"cd", b"/auto", &[], End::At(4, b""))),
];

fn cases_of_direct() -> Example<Case> {
    Example(
        "of two cases of a direct autofs the first decides",
        &CASES_OF_DIRECT,
    )
}

static CASES_OF_THE_OTHER: [Step<Case>; 9] = [
    Step::Does(Case::In(INDIRECT, 0)),
    Step::Does(Case::Walk(b"m", b"/auto/home", &[], End::Notifies(HOME))),
    Step::Does(Case::Walk(b"mc", b"/auto/home", &[], End::Fails(Errno::ENOENT))),
    Step::Does(Case::Walk(b"mck", b"/auto/home", &[], End::At(2, b"/home"))),
    Step::Does(Case::Walk(b"d", b"/auto/home", &[HOME], End::At(5, b""))),
    Step::Does(Case::Walk(b"cd", b"/auto/home", &[HOME], End::At(5, b""))),
    Step::Does(Case::Walk(b"md", b"/auto/home", &[HOME], End::At(6, b""))),
    Step::Does(Case::Walk(b"xd", b"/auto/home", &[], End::Waits(1))),
    Step::Does(Case::Walk(b"pd", b"/auto/home", &[], End::Waits(1))),
];

fn cases_of_the_other() -> Example<Case> {
    Example(
        "what is mounted on another mount is not mounted here",
        &CASES_OF_THE_OTHER,
    )
}

static NAMES: [Step<Case>; 6] = [
    Step::Does(Case::In(INDIRECT, 1)),
    Step::Does(Case::Walk(b"x", b"/auto/work", &[], End::Notifies(Trap(2, b"work")))),
    Step::Does(Case::Walk(b"p", b"/auto/work", &[], End::Notifies(Trap(2, b"work")))),
    Step::Does(Case::Walk(b"m", b"/auto/work", &[], End::Notifies(Trap(2, b"work")))),
    Step::Does(Case::Walk(b"ck", b"/auto/work", &[], End::Fails(Errno::ENOENT))),
    Step::Does(Case::Walk(b"d", b"/auto/work", &[], End::Notifies(Trap(2, b"work")))),
];

fn names() -> Example<Case> {
    Example("names of one autofs are triggers of their own", &NAMES)
}

static BELOW_INDIRECT: [Step<Case>; 9] = [
    Step::Does(Case::In(INDIRECT, 1)),
    Step::Does(Case::Walk(b"", b"/auto", &[], End::At(4, b""))),
    Step::Does(Case::Walk(b"c", b"/auto", &[], End::At(4, b""))),
    Step::Does(Case::Walk(b"", b"/auto/home/x", &[], End::Notifies(HOME))),
    Step::Does(Case::Walk(b"x", b"/auto/home/x", &[], End::Waits(1))),
    Step::Does(Case::Walk(b"m", b"/auto/home/x/y", &[HOME], End::At(5, b"/x/y"))),
    Step::Does(Case::Walk(b"c", b"/auto/home/x", &[], End::Fails(Errno::ENOENT))),
    Step::Does(Case::Walk(b"ck", b"/auto/home/x", &[], End::Fails(Errno::ENOENT))),
    Step::Does(Case::Walk(b"d", b"/auto/home/x", &[], End::Fails(Errno::ELOOP))),
];

fn below_indirect() -> Example<Case> {
    Example("names below an indirect autofs", &BELOW_INDIRECT)
}

static BELOW_DIRECT: [Step<Case>; 6] = [
    Step::Does(Case::In(DIRECT, 1)),
    Step::Does(Case::Walk(b"", b"/auto/x", &[], End::Notifies(ROOT))),
    Step::Does(Case::Walk(b"p", b"/auto/x", &[], End::Waits(1))),
    Step::Does(Case::Walk(b"m", b"/auto/x/y", &[ROOT], End::At(5, b"/x/y"))),
    Step::Does(Case::Walk(b"c", b"/auto/x", &[], End::Fails(Errno::ENOENT))),
    Step::Does(Case::Walk(b"d", b"/auto/x", &[], End::Fails(Errno::ELOOP))),
];

fn below_direct() -> Example<Case> {
    Example("names below a direct autofs", &BELOW_DIRECT)
}

#[test]
fn traps(rt: HostRuntime) {
    let alloc = rt.alloc();
    plays::<Walks>(&rt, alloc, cases_of_indirect());
    plays::<Walks>(&rt, alloc, cases_of_direct());
    plays::<Walks>(&rt, alloc, cases_of_the_other());
    plays::<Walks>(&rt, alloc, names());
    plays::<Walks>(&rt, alloc, below_indirect());
    plays::<Walks>(&rt, alloc, below_direct());
}
