//! An administrator's path: the mount traps are off.

use crate::tests::parts::{Call, End, Parts, Setting};
use crate::tests::script::{Example, Stage, Step, plays, plays_behind};
use crate::tests::walks::failed;
use crate::tests::walks::paths::two_on_the_way;
use crate::tests::walks::traps::{DIRECT, INDIRECT};
use am_names::Errno;
use std::alloc::Global;

/// Where paths are followed, or a path.
#[derive(Clone, Copy)]
enum Case {
    /// Here paths are followed, each in a world of its own.
    In(Setting),
    /// Facts, and where a path in namespace 1 leads where they hold.
    Leads(&'static [u8], &'static [u8], End),
}

/// The setting in which paths are followed.
#[derive(Drop)]
struct Leads(Setting);

impl Stage for Leads {
    type Call = Case;

    fn new(_alloc: Global) -> Result<Leads, Errno> {
        Ok(Leads(INDIRECT))
    }

    fn make(&mut self, alloc: Global, case: Case) -> Result<bool, Errno> {
        match case {
            Case::In(setting) => {
                *self = Leads(setting);
                Ok(true)
            }
            Case::Leads(facts, path, end) => {
                self.0.is_so_where(alloc, facts, Call::Leads(1, path, end))
            }
        }
    }
}

static MOUNTED: [Step<Case>; 15] = [
    Step::Does(Case::In(INDIRECT)),
    Step::Does(Case::Leads(b"m", b"/auto/home", End::At(5, b""))),
    Step::Does(Case::Leads(b"m", b"/auto/home/x", End::At(5, b"/x"))),
    Step::Does(Case::Leads(b"xm", b"/auto/home", End::At(5, b""))),
    Step::Does(Case::Leads(b"xm", b"/auto/home/x", End::At(5, b"/x"))),
    Step::Does(Case::Leads(b"pm", b"/auto/home", End::At(5, b""))),
    Step::Does(Case::Leads(b"pm", b"/auto/home/x", End::At(5, b"/x"))),
    Step::Does(Case::Leads(b"mc", b"/auto/home", End::At(5, b""))),
    Step::Does(Case::Leads(b"mc", b"/auto/home/x", End::At(5, b"/x"))),
    Step::Does(Case::Leads(b"mk", b"/auto/home", End::At(5, b""))),
    Step::Does(Case::Leads(b"mk", b"/auto/home/x", End::At(5, b"/x"))),
    Step::Does(Case::Leads(b"md", b"/auto/home", End::At(5, b""))),
    Step::Does(Case::Leads(b"md", b"/auto/home/x", End::At(5, b"/x"))),
    Step::Does(Case::Leads(b"xpmckd", b"/auto/home", End::At(5, b""))),
    Step::Does(Case::Leads(b"xpmckd", b"/auto/home/x", End::At(5, b"/x"))),
];

fn mounted() -> Example<Case> {
    Example("what is mounted on a trigger is entered", &MOUNTED)
}

static MADE: [Step<Case>; 13] = [
    Step::Does(Case::In(INDIRECT)),
    Step::Does(Case::Leads(b"k", b"/auto/home", End::At(4, b"/home"))),
    Step::Does(Case::Leads(b"k", b"/auto/home/x", End::Fails(Errno::ENOENT))),
    Step::Does(Case::Leads(b"xk", b"/auto/home", End::At(4, b"/home"))),
    Step::Does(Case::Leads(b"xk", b"/auto/home/x", End::Fails(Errno::ENOENT))),
    Step::Does(Case::Leads(b"pk", b"/auto/home", End::At(4, b"/home"))),
    Step::Does(Case::Leads(b"pk", b"/auto/home/x", End::Fails(Errno::ENOENT))),
    Step::Does(Case::Leads(b"ck", b"/auto/home", End::At(4, b"/home"))),
    Step::Does(Case::Leads(b"ck", b"/auto/home/x", End::Fails(Errno::ENOENT))),
    Step::Does(Case::Leads(b"kd", b"/auto/home", End::At(4, b"/home"))),
    Step::Does(Case::Leads(b"kd", b"/auto/home/x", End::Fails(Errno::ENOENT))),
    Step::Does(Case::Leads(b"xpckd", b"/auto/home", End::At(4, b"/home"))),
    Step::Does(Case::Leads(b"xpckd", b"/auto/home/x", End::Fails(Errno::ENOENT))),
];

fn made() -> Example<Case> {
    Example("a directory that is made is entered", &MADE)
}

static MISSING: [Step<Case>; 15] = [
    Step::Does(Case::In(INDIRECT)),
    Step::Does(Case::Leads(b"", b"/auto", End::At(4, b""))),
    Step::Does(Case::Leads(b"c", b"/auto", End::At(4, b""))),
    Step::Does(Case::Leads(b"", b"/auto/home", End::Fails(Errno::ENOENT))),
    Step::Does(Case::Leads(b"", b"/auto/home/x", End::Fails(Errno::ENOENT))),
    Step::Does(Case::Leads(b"x", b"/auto/home", End::Fails(Errno::ENOENT))),
    Step::Does(Case::Leads(b"x", b"/auto/home/x", End::Fails(Errno::ENOENT))),
    Step::Does(Case::Leads(b"p", b"/auto/home", End::Fails(Errno::ENOENT))),
    Step::Does(Case::Leads(b"p", b"/auto/home/x", End::Fails(Errno::ENOENT))),
    Step::Does(Case::Leads(b"c", b"/auto/home", End::Fails(Errno::ENOENT))),
    Step::Does(Case::Leads(b"c", b"/auto/home/x", End::Fails(Errno::ENOENT))),
    Step::Does(Case::Leads(b"d", b"/auto/home", End::Fails(Errno::ENOENT))),
    Step::Does(Case::Leads(b"d", b"/auto/home/x", End::Fails(Errno::ENOENT))),
    Step::Does(Case::Leads(b"xpcd", b"/auto/home", End::Fails(Errno::ENOENT))),
    Step::Does(Case::Leads(b"xpcd", b"/auto/home/x", End::Fails(Errno::ENOENT))),
];

fn missing() -> Example<Case> {
    Example("a missing directory is not found", &MISSING)
}

/// What failed at a trigger is the walkers' alone.
static FAILED: [Step<Case>; 4] = [
    Step::Does(Case::In(failed::INDIRECT)),
    Step::Does(Case::Leads(b"f", b"/auto/home", End::Fails(Errno::ENOENT))),
    Step::Does(Case::Leads(b"kf", b"/auto/home", End::At(4, b"/home"))),
    Step::Does(Case::Leads(b"mf", b"/auto/home", End::At(5, b""))),
];

fn failed() -> Example<Case> {
    Example("what failed is not met", &FAILED)
}

static DIRECT_ROOT: [Step<Case>; 10] = [
    Step::Does(Case::In(DIRECT)),
    Step::Does(Case::Leads(b"", b"/auto", End::At(4, b""))),
    Step::Does(Case::Leads(b"xp", b"/auto", End::At(4, b""))),
    Step::Does(Case::Leads(b"c", b"/auto", End::At(4, b""))),
    Step::Does(Case::Leads(b"d", b"/auto", End::At(4, b""))),
    Step::Does(Case::Leads(b"m", b"/auto", End::At(5, b""))),
    Step::Does(Case::Leads(b"xpmcd", b"/auto", End::At(5, b""))),
    Step::Does(Case::Leads(b"", b"/auto/x", End::Fails(Errno::ENOENT))),
    Step::Does(Case::Leads(b"c", b"/auto/x", End::Fails(Errno::ENOENT))),
    Step::Does(Case::Leads(b"m", b"/auto/x", End::At(5, b"/x"))),
];

fn direct_root() -> Example<Case> {
    Example("the root of a direct autofs is entered", &DIRECT_ROOT)
}

static BEFORE_THE_FIRST_NAME: [Step<Call>; 6] = [
    Step::Does(Call::Direct(1, b"/", 2)),
    Step::Does(Call::Leads(0, b"/", End::At(2, b""))),
    Step::Does(Call::Leads(0, b"/a", End::Fails(Errno::ENOENT))),
    Step::Does(Call::Mount(2, b"/", 3)),
    Step::Does(Call::Leads(0, b"/", End::At(3, b""))),
    Step::Does(Call::Leads(0, b"/a", End::At(3, b"/a"))),
];

fn before_the_first_name() -> Example<Call> {
    Example(
        "a direct root before the first name is entered",
        &BEFORE_THE_FIRST_NAME,
    )
}

static OVER_TWO_AUTOFS: [Step<Call>; 4] = [
    Step::Does(Call::Leads(0, b"/auto/home/srv/work/x", End::At(5, b"/x"))),
    Step::Does(Call::Leads(0, b"/auto/home/srv/home", End::Fails(Errno::ENOENT))),
    Step::Does(Call::Leads(0, b"/auto/home/srv", End::At(4, b""))),
    Step::Does(Call::Leads(1, b"/auto/home", End::Fails(Errno::ENOENT))),
];

fn over_two_autofs() -> Example<Call> {
    Example("a path over two autofs is entered", &OVER_TWO_AUTOFS)
}

#[test]
fn paths_without_traps(rt: HostRuntime) {
    let alloc = rt.alloc();
    plays::<Leads>(&rt, alloc, mounted());
    plays::<Leads>(&rt, alloc, made());
    plays::<Leads>(&rt, alloc, missing());
    plays::<Leads>(&rt, alloc, failed());
    plays::<Leads>(&rt, alloc, direct_root());
    plays::<Parts>(&rt, alloc, before_the_first_name());
    plays_behind::<Parts>(&rt, alloc, two_on_the_way(), over_two_autofs());
}
