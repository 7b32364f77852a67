//! What failed last at each trigger: how long that lasts, what takes its place, and what makes it
//! good.

use crate::tests::script::{Example, Stage, Step, plays};
use crate::tests::trap::Trap;
use am_names::{Errno, FailNo, FsId, Name, Seconds};
use am_trigger::{Failure, Failures, Lasting};
use std::alloc::Global;

/// A call, and what it answers.
#[derive(Clone, Copy)]
enum Call {
    /// Something failed at the trigger, so and at this moment.
    Fails(Trap, FailNo, u64),
    /// Nothing that failed at the trigger lasts.
    Mends(Trap),
    /// The same of a file system.
    MendsAll(u32),
    /// What failed last at the trigger, and when.
    Last(Trap, Option<(FailNo, u64)>),
    /// What lasts at the trigger at a moment, where failures last so many seconds.
    Lasts(Trap, u64, u64, Option<FailNo>),
}

fn fails(failures: &mut Failures, trap: Trap, no: FailNo, moment: u64) -> Result<bool, Errno> {
    let trigger = trap.trigger()?;
    // The checker wants the type of its name said too, here and below.
    let _name: Option<Name> = trigger.name;
    failures.reserve(1)?;
    let at = Seconds(moment);
    failures.put_reserved(&trigger, Failure { no, at });
    Ok(true)
}

fn mends(failures: &mut Failures, trap: Trap) -> Result<bool, Errno> {
    let trigger = trap.trigger()?;
    let _name: Option<Name> = trigger.name;
    failures.remove(&trigger);
    Ok(true)
}

fn is_last(
    failures: &Failures,
    trap: Trap,
    expected: Option<(FailNo, u64)>,
) -> Result<bool, Errno> {
    let trigger = trap.trigger()?;
    let _name: Option<Name> = trigger.name;
    match (failures.failure(&trigger), expected) {
        (Some(failure), Some((no, at))) => Ok(failure.no == no && failure.at == Seconds(at)),
        (None, None) => Ok(true),
        _ => Ok(false),
    }
}

/// All that can be asked say the same.
fn lasts(
    failures: &Failures,
    trap: Trap,
    moment: Seconds,
    negative: Seconds,
    expected: Option<FailNo>,
) -> Result<bool, Errno> {
    let trigger = trap.trigger()?;
    let _name: Option<Name> = trigger.name;
    let lasting = Lasting {
        failures,
        moment,
        negative,
    };
    let lasts = match failures.failure(&trigger) {
        Some(failure) => failure.lasts(moment, negative),
        None => false,
    };
    let failing = failures.failing(&trigger, moment, negative);
    Ok(failing == expected && lasting.error(&trigger) == expected && lasts == expected.is_some())
}

fn make(failures: &mut Failures, call: Call) -> Result<bool, Errno> {
    match call {
        Call::Fails(trap, no, moment) => fails(failures, trap, no, moment),
        Call::Mends(trap) => mends(failures, trap),
        Call::MendsAll(fs) => {
            failures.remove_fs(FsId(fs));
            Ok(true)
        }
        Call::Last(trap, expected) => is_last(failures, trap, expected),
        Call::Lasts(trap, moment, negative, expected) => {
            lasts(failures, trap, Seconds(moment), Seconds(negative), expected)
        }
    }
}

#[derive(Drop)]
struct Table(Failures);

impl Stage for Table {
    type Call = Call;

    fn new(alloc: Global) -> Result<Table, Errno> {
        Ok(Table(Failures::new(alloc)))
    }

    fn make(&mut self, _alloc: Global, call: Call) -> Result<bool, Errno> {
        make(&mut self.0, call)
    }
}

const HOME: Trap = Trap(2, b"home");

const WORK: Trap = Trap(2, b"work");

const ROOT: Trap = Trap(3, b"");

/// The same name as that of another file system.
const OTHER_HOME: Trap = Trap(4, b"home");

/// A failure at 100 lasts before the second that ends its seconds.
static SECONDS: [Step<Call>; 17] = [
    Step::Does(Call::Last(HOME, None)),
    Step::Does(Call::Lasts(HOME, 100, 60, None)),
    Step::Does(Call::Fails(HOME, FailNo::EPERM, 100)),
    Step::Does(Call::Last(HOME, Some((FailNo::EPERM, 100)))),
    Step::Does(Call::Lasts(HOME, 100, 60, Some(FailNo::EPERM))),
    Step::Does(Call::Lasts(HOME, 159, 60, Some(FailNo::EPERM))),
    Step::Does(Call::Lasts(HOME, 160, 60, None)),
    Step::Does(Call::Lasts(HOME, 161, 60, None)),
    Step::Does(Call::Lasts(HOME, 100, 1, Some(FailNo::EPERM))),
    Step::Does(Call::Lasts(HOME, 101, 1, None)),
    Step::Does(Call::Lasts(HOME, 100, 0, None)),
    Step::Does(Call::Lasts(HOME, 101, 0, None)),
    // The clock may be behind the failure.
    Step::Does(Call::Lasts(HOME, 0, 60, Some(FailNo::EPERM))),
    Step::Does(Call::Lasts(HOME, 99, 60, Some(FailNo::EPERM))),
    Step::Does(Call::Lasts(HOME, 99, 0, Some(FailNo::EPERM))),
    Step::Does(Call::Lasts(WORK, 100, 60, None)),
    // To ask changes nothing.
    Step::Does(Call::Last(HOME, Some((FailNo::EPERM, 100)))),
];

fn seconds() -> Example<Call> {
    Example("a failure lasts to its second", &SECONDS)
}

/// 18446744073709551614 is the second before the greatest moment.
static GREATEST: [Step<Call>; 12] = [
    Step::Does(Call::Fails(HOME, FailNo::ENOSPC, u64::MAX)),
    Step::Does(Call::Lasts(HOME, u64::MAX, u64::MAX, Some(FailNo::ENOSPC))),
    Step::Does(Call::Lasts(HOME, u64::MAX, 1, Some(FailNo::ENOSPC))),
    Step::Does(Call::Lasts(HOME, u64::MAX, 0, None)),
    Step::Does(Call::Lasts(HOME, 18446744073709551614, 0, Some(FailNo::ENOSPC))),
    Step::Does(Call::Lasts(HOME, 0, u64::MAX, Some(FailNo::ENOSPC))),
    Step::Does(Call::Fails(HOME, FailNo::EAGAIN, 1)),
    Step::Does(Call::Lasts(HOME, u64::MAX, u64::MAX, Some(FailNo::EAGAIN))),
    Step::Does(Call::Lasts(HOME, u64::MAX, 18446744073709551614, None)),
    Step::Does(Call::Fails(HOME, FailNo::EBUSY, 0)),
    Step::Does(Call::Lasts(HOME, u64::MAX, u64::MAX, None)),
    Step::Does(Call::Lasts(HOME, 18446744073709551614, u64::MAX, Some(FailNo::EBUSY))),
];

fn greatest() -> Example<Call> {
    Example("the greatest numbers do not overflow", &GREATEST)
}

/// A trigger has one failure, the last, whatever its moment is.
static AGAIN: [Step<Call>; 17] = [
    Step::Does(Call::Fails(HOME, FailNo::ENOENT, 100)),
    Step::Does(Call::Fails(WORK, FailNo::EEXIST, 110)),
    Step::Does(Call::Fails(HOME, FailNo::EPERM, 150)),
    Step::Does(Call::Last(HOME, Some((FailNo::EPERM, 150)))),
    Step::Does(Call::Lasts(HOME, 209, 60, Some(FailNo::EPERM))),
    Step::Does(Call::Fails(HOME, FailNo::ELOOP, 50)),
    Step::Does(Call::Last(HOME, Some((FailNo::ELOOP, 50)))),
    Step::Does(Call::Lasts(HOME, 110, 60, None)),
    Step::Does(Call::Last(WORK, Some((FailNo::EEXIST, 110)))),
    Step::Does(Call::Mends(HOME)),
    Step::Does(Call::Last(HOME, None)),
    Step::Does(Call::Lasts(HOME, 50, 60, None)),
    Step::Does(Call::Last(WORK, Some((FailNo::EEXIST, 110)))),
    Step::Does(Call::Mends(HOME)),
    Step::Does(Call::Last(HOME, None)),
    Step::Does(Call::Fails(HOME, FailNo::EINVAL, 7)),
    Step::Does(Call::Last(HOME, Some((FailNo::EINVAL, 7)))),
];

fn again() -> Example<Call> {
    Example("a trigger has one failure", &AGAIN)
}

/// Those of file system 2 stand apart.
static OF_FILE_SYSTEMS: [Step<Call>; 18] = [
    Step::Does(Call::MendsAll(2)),
    Step::Does(Call::Fails(HOME, FailNo::ENOENT, 1)),
    Step::Does(Call::Fails(ROOT, FailNo::EPERM, 2)),
    Step::Does(Call::Fails(OTHER_HOME, FailNo::EBUSY, 3)),
    Step::Does(Call::Fails(WORK, FailNo::ENAMETOOLONG, 4)),
    Step::Does(Call::MendsAll(9)),
    Step::Does(Call::Last(HOME, Some((FailNo::ENOENT, 1)))),
    Step::Does(Call::Last(WORK, Some((FailNo::ENAMETOOLONG, 4)))),
    Step::Does(Call::MendsAll(2)),
    Step::Does(Call::Last(HOME, None)),
    Step::Does(Call::Last(WORK, None)),
    Step::Does(Call::Last(ROOT, Some((FailNo::EPERM, 2)))),
    Step::Does(Call::Last(OTHER_HOME, Some((FailNo::EBUSY, 3)))),
    Step::Does(Call::Mends(HOME)),
    Step::Does(Call::Last(OTHER_HOME, Some((FailNo::EBUSY, 3)))),
    Step::Does(Call::MendsAll(3)),
    Step::Does(Call::Last(ROOT, None)),
    Step::Does(Call::Last(OTHER_HOME, Some((FailNo::EBUSY, 3)))),
];

fn of_file_systems() -> Example<Call> {
    Example(
        "the failures of a file system go together",
        &OF_FILE_SYSTEMS,
    )
}

#[test]
fn failures(rt: HostRuntime) {
    let alloc = rt.alloc();
    plays::<Table>(&rt, alloc, seconds());
    plays::<Table>(&rt, alloc, greatest());
    plays::<Table>(&rt, alloc, again());
    plays::<Table>(&rt, alloc, of_file_systems());
}
