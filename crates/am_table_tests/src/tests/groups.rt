//! Peer groups of mounts by calls that no event makes. What events make of them is in scripts.

use crate::tests::script::{Example, Stage, Step, plays};
use am_group::{Change, Groups, MountState};
use am_names::{Errno, GroupId, Membership, MountId};
use std::alloc::Global;

/// Peer groups by their numbers.
const FIRST: u64 = 1;

const SECOND: u64 = 2;

const ABSENT: u64 = 9;

/// How a mount takes part in propagation.
#[derive(Clone, Copy)]
enum Part {
    InGroup(u64),
    SlaveOf(u64),
    Private,
}

impl Part {
    fn membership(self) -> Membership {
        match self {
            Part::InGroup(group) => Membership::InGroup(GroupId(group)),
            Part::SlaveOf(group) => Membership::SlaveOf(GroupId(group)),
            Part::Private => Membership::Private,
        }
    }
}

/// A call, and what it answers.
#[derive(Clone, Copy)]
enum Call {
    /// A fresh group, and its number.
    Fresh(u64),
    /// A fresh group under this master, and its number.
    FreshUnder(u64, u64),
    Adds(u64, Part),
    /// Begins anew with this private mount, which is added as `add_all` adds many.
    AddsAll(u64),
    /// Begins anew with this private mount, which is added as the last.
    AddsLast(u64),
    /// Takes so many of the newest mounts back.
    TakesBack(usize),
    /// The change by the call of its name.
    Makes(u64, Change),
    /// The same by `change`.
    Changes(u64, Change),
    Leaves(u64),
    HasState(u64, Option<MountState>),
    /// The mounts that receive from this one.
    Receive(u64, &'static [u64]),
    /// The same, and how many peer groups are met.
    Counts(u64, &'static [u64], usize),
    /// Begins anew with so many peer groups, each under the one before, of one mount each.
    Chain(u64),
    /// All mounts between these two receive from the first, and so many peer groups are met.
    CountsUpTo(u64, u64, usize),
    LastGroup(u64),
    AreGroups(&'static [u64]),
    Members(usize),
    /// They go on as a copy of themselves.
    Copies,
}

fn fresh(groups: &mut Groups, group: u64) -> Result<bool, Errno> {
    Ok(groups.fresh(None)? == GroupId(group))
}

fn fresh_under(groups: &mut Groups, master: u64, group: u64) -> Result<bool, Errno> {
    Ok(groups.fresh(Some(GroupId(master)))? == GroupId(group))
}

fn add(groups: &mut Groups, mount: u64, part: Part) -> Result<bool, Errno> {
    groups.add(MountId(mount), part.membership())?;
    Ok(true)
}

fn of_all(alloc: Global, mount: u64) -> Result<Groups, Errno> {
    let mut members = Vec::new(alloc);
    members.push(Membership::Private.row(MountId(mount)))?;
    let mut groups = Groups::new(alloc);
    groups.add_all(members, Vec::new(alloc))?;
    Ok(groups)
}

fn of_last(alloc: Global, mount: u64) -> Result<Groups, Errno> {
    let mut groups = Groups::new(alloc);
    groups.add_last(Membership::Private.row(MountId(mount)))?;
    Ok(groups)
}

fn take_back(groups: &mut Groups, count: usize) -> bool {
    groups.take_back(count);
    true
}

fn make(groups: &mut Groups, mount: u64, change: Change) -> Result<bool, Errno> {
    match change {
        Change::MakeShared => groups.make_shared(MountId(mount))?,
        Change::MakeSlave => groups.make_slave(MountId(mount))?,
        Change::MakePrivate => groups.make_private(MountId(mount))?,
        Change::MakeUnbindable => groups.make_unbindable(MountId(mount))?,
    }
    Ok(true)
}

fn change(groups: &mut Groups, mount: u64, change: Change) -> Result<bool, Errno> {
    groups.change(change, MountId(mount))?;
    Ok(true)
}

fn leave(alloc: Global, groups: &mut Groups, mount: u64) -> Result<bool, Errno> {
    groups.leave(alloc, &[MountId(mount)])?;
    Ok(true)
}

fn receive(alloc: Global, groups: &Groups, mount: u64, expected: &[u64]) -> Result<bool, Errno> {
    let receivers = groups.receivers(alloc, MountId(mount))?;
    Ok(
        receivers
            .iter()
            .map(|receiver| receiver.0)
            .eq(expected.iter().copied()),
    )
}

fn count(
    alloc: Global,
    groups: &Groups,
    mount: u64,
    expected: &[u64],
    turns: usize,
) -> Result<bool, Errno> {
    let (receivers, met) = groups.receivers_counted(alloc, MountId(mount))?;
    if met != turns {
        return Ok(false);
    }
    Ok(
        receivers
            .iter()
            .map(|receiver| receiver.0)
            .eq(expected.iter().copied()),
    )
}

fn chain(alloc: Global, count: u64) -> Result<Groups, Errno> {
    let mut groups = Groups::new(alloc);
    for above in 0..count {
        let master = if above == 0 {
            None
        } else {
            Some(GroupId(above))
        };
        let group = groups.fresh(master)?;
        groups.add(MountId(group.0), Membership::InGroup(group))?;
    }
    Ok(groups)
}

fn count_up_to(
    alloc: Global,
    groups: &Groups,
    mount: u64,
    last: u64,
    turns: usize,
) -> Result<bool, Errno> {
    let (receivers, met) = groups.receivers_counted(alloc, MountId(mount))?;
    if met != turns || mount > last {
        return Ok(false);
    }
    Ok(
        receivers
            .iter()
            .map(|receiver| receiver.0)
            .eq((mount..last).map(|number| number + 1)),
    )
}

fn are_groups(groups: &Groups, expected: &[u64]) -> bool {
    groups
        .groups()
        .iter()
        .map(|row| row.group.0)
        .eq(expected.iter().copied())
}

/// The groups of an example, none at first.
#[derive(Drop)]
struct Table(Groups);

impl Table {
    fn add_all(&mut self, alloc: Global, mount: u64) -> Result<bool, Errno> {
        self.0 = of_all(alloc, mount)?;
        Ok(true)
    }

    fn add_last(&mut self, alloc: Global, mount: u64) -> Result<bool, Errno> {
        self.0 = of_last(alloc, mount)?;
        Ok(true)
    }

    fn go_on_as_copy(&mut self, alloc: Global) -> Result<bool, Errno> {
        let copy = self.0.copy(alloc)?;
        let is_same = copy.is_same(&self.0);
        self.0 = copy;
        Ok(is_same)
    }

    fn chain(&mut self, alloc: Global, count: u64) -> Result<bool, Errno> {
        self.0 = chain(alloc, count)?;
        Ok(true)
    }
}

impl Stage for Table {
    type Call = Call;

    fn new(alloc: Global) -> Result<Table, Errno> {
        Ok(Table(Groups::new(alloc)))
    }

    fn make(&mut self, alloc: Global, call: Call) -> Result<bool, Errno> {
        match call {
            Call::Fresh(group) => fresh(&mut self.0, group),
            Call::FreshUnder(master, group) => fresh_under(&mut self.0, master, group),
            Call::Adds(mount, part) => add(&mut self.0, mount, part),
            Call::AddsAll(mount) => self.add_all(alloc, mount),
            Call::AddsLast(mount) => self.add_last(alloc, mount),
            Call::TakesBack(count) => Ok(take_back(&mut self.0, count)),
            Call::Makes(mount, to) => make(&mut self.0, mount, to),
            Call::Changes(mount, to) => change(&mut self.0, mount, to),
            Call::Leaves(mount) => leave(alloc, &mut self.0, mount),
            Call::HasState(mount, state) => Ok(self.0.kind(MountId(mount)) == state),
            Call::Receive(mount, expected) => receive(alloc, &self.0, mount, expected),
            Call::Counts(mount, expected, turns) => {
                count(alloc, &self.0, mount, expected, turns)
            }
            Call::Chain(count) => self.chain(alloc, count),
            Call::CountsUpTo(mount, last, turns) => {
                count_up_to(alloc, &self.0, mount, last, turns)
            }
            Call::LastGroup(group) => Ok(self.0.last_group() == GroupId(group)),
            Call::AreGroups(expected) => Ok(are_groups(&self.0, expected)),
            Call::Members(count) => Ok(self.0.members().len() == count),
            Call::Copies => self.go_on_as_copy(alloc),
        }
    }
}

/// Peer group 1 with the mounts 10 and 11, and under it peer group 2 with 20.
static TESTS_IN_ORDER: [Step<Call>; 20] = [
    Step::Does(Call::Fresh(FIRST)),
    Step::Does(Call::Adds(11, Part::InGroup(FIRST))),
    Step::Does(Call::Adds(10, Part::InGroup(FIRST))),
    Step::Does(Call::FreshUnder(FIRST, SECOND)),
    Step::Does(Call::Adds(20, Part::InGroup(SECOND))),
    Step::Refused(Call::Adds(10, Part::InGroup(ABSENT)), Errno::EEXIST),
    Step::Refused(Call::Adds(1, Part::InGroup(ABSENT)), Errno::EINVAL),
    Step::Refused(Call::Adds(1, Part::SlaveOf(ABSENT)), Errno::EINVAL),
    Step::Refused(Call::FreshUnder(ABSENT, ABSENT), Errno::EINVAL),
    Step::Does(Call::Fresh(3)),
    Step::Does(Call::Adds(1, Part::InGroup(3))),
    Step::Does(Call::Adds(2, Part::SlaveOf(3))),
    Step::Refused(Call::Changes(99, Change::MakeShared), Errno::EINVAL),
    Step::Refused(Call::Changes(99, Change::MakeSlave), Errno::EINVAL),
    Step::Refused(Call::Changes(99, Change::MakePrivate), Errno::EINVAL),
    Step::Refused(Call::Changes(99, Change::MakeUnbindable), Errno::EINVAL),
    Step::Does(Call::HasState(99, None)),
    // The last member takes its group along; a fresh group stays, and nobody is in it.
    Step::Does(Call::Fresh(4)),
    Step::Does(Call::Leaves(20)),
    Step::Does(Call::AreGroups(&[FIRST, 3, 4])),
];

fn tests_in_order() -> Example<Call> {
    Example("each call tests in order", &TESTS_IN_ORDER)
}

/// Both groups are there before any mount is.
static GROUPS_FIRST: [Step<Call>; 23] = [
    Step::Does(Call::Copies),
    Step::Does(Call::Fresh(FIRST)),
    Step::Does(Call::FreshUnder(FIRST, SECOND)),
    Step::Does(Call::Adds(2, Part::InGroup(FIRST))),
    Step::Does(Call::Adds(3, Part::InGroup(FIRST))),
    Step::Does(Call::Adds(4, Part::InGroup(SECOND))),
    Step::Does(Call::Adds(5, Part::SlaveOf(SECOND))),
    Step::Does(Call::HasState(3, Some(MountState::Shared))),
    Step::Does(Call::HasState(4, Some(MountState::SharedSlave))),
    Step::Does(Call::HasState(5, Some(MountState::Slave))),
    Step::Does(Call::Copies),
    Step::Does(Call::Receive(2, &[3, 4, 5])),
    Step::Does(Call::Receive(4, &[5])),
    Step::Does(Call::Receive(5, &[])),
    Step::Does(Call::Makes(4, Change::MakePrivate)),
    Step::Does(Call::HasState(5, Some(MountState::Slave))),
    Step::Does(Call::Copies),
    Step::Does(Call::Receive(3, &[2, 5])),
    Step::Does(Call::Makes(2, Change::MakeSlave)),
    Step::Does(Call::Makes(3, Change::MakeSlave)),
    Step::Does(Call::HasState(2, Some(MountState::Private))),
    Step::Does(Call::HasState(3, Some(MountState::Private))),
    Step::Does(Call::HasState(5, Some(MountState::Private))),
];

fn groups_first() -> Example<Call> {
    Example("groups are there before their members", &GROUPS_FIRST)
}

/// The groups 1, 2 and 3, each under the one before. What is under 2 receives nothing until 2 has
/// a member, and a change of another mount leaves 2 as it is. Its last member takes it along.
static MEMBERS_LAST: [Step<Call>; 23] = [
    Step::Does(Call::Fresh(FIRST)),
    Step::Does(Call::FreshUnder(FIRST, SECOND)),
    Step::Does(Call::FreshUnder(SECOND, 3)),
    Step::Does(Call::Adds(5, Part::SlaveOf(SECOND))),
    Step::Does(Call::Adds(6, Part::InGroup(3))),
    Step::Does(Call::HasState(5, Some(MountState::Slave))),
    Step::Does(Call::HasState(6, Some(MountState::SharedSlave))),
    Step::Does(Call::Adds(1, Part::InGroup(FIRST))),
    Step::Does(Call::Receive(1, &[])),
    Step::Does(Call::Adds(9, Part::Private)),
    Step::Does(Call::Makes(9, Change::MakeShared)),
    Step::Does(Call::Makes(9, Change::MakePrivate)),
    Step::Does(Call::Leaves(9)),
    Step::Does(Call::Makes(5, Change::MakeSlave)),
    Step::Does(Call::HasState(5, Some(MountState::Slave))),
    Step::Does(Call::Receive(1, &[])),
    Step::Does(Call::Adds(4, Part::InGroup(SECOND))),
    Step::Does(Call::Receive(1, &[4, 5, 6])),
    Step::Does(Call::Receive(4, &[5, 6])),
    Step::Does(Call::Leaves(4)),
    Step::Does(Call::AreGroups(&[FIRST, 3])),
    Step::Does(Call::Receive(1, &[5, 6])),
    Step::Refused(Call::FreshUnder(SECOND, 5), Errno::EINVAL),
];

fn members_last() -> Example<Call> {
    Example("a group without members hands nothing on", &MEMBERS_LAST)
}

static ALL_TOGETHER: [Step<Call>; 3] = [
    Step::Does(Call::AddsAll(3)),
    Step::Does(Call::HasState(3, Some(MountState::Private))),
    Step::Does(Call::Members(1)),
];

fn all_together() -> Example<Call> {
    Example("mounts added all together", &ALL_TOGETHER)
}

/// Those taken back are the newest, and not more than there are.
static LAST: [Step<Call>; 15] = [
    Step::Does(Call::AddsLast(3)),
    Step::Does(Call::HasState(3, Some(MountState::Private))),
    Step::Does(Call::Makes(3, Change::MakeShared)),
    Step::Does(Call::Adds(5, Part::InGroup(FIRST))),
    Step::Does(Call::Adds(4, Part::SlaveOf(FIRST))),
    Step::Does(Call::Receive(3, &[4, 5])),
    Step::Does(Call::TakesBack(0)),
    Step::Does(Call::Members(3)),
    Step::Does(Call::TakesBack(1)),
    Step::Does(Call::HasState(5, None)),
    Step::Does(Call::Receive(3, &[4])),
    Step::Does(Call::Adds(5, Part::SlaveOf(FIRST))),
    Step::Does(Call::Receive(3, &[4, 5])),
    Step::Does(Call::TakesBack(9)),
    Step::Does(Call::Members(0)),
];

fn last() -> Example<Call> {
    Example("a mount added last, and taken back", &LAST)
}

/// A refusal takes no number, and neither does a change that makes no group. (That the numbers are
/// exhausted no example can tell: they have 64 bits.)
static NUMBERS: [Step<Call>; 16] = [
    Step::Does(Call::LastGroup(0)),
    Step::Does(Call::Fresh(FIRST)),
    Step::Does(Call::LastGroup(FIRST)),
    Step::Refused(Call::FreshUnder(ABSENT, SECOND), Errno::EINVAL),
    Step::Does(Call::LastGroup(FIRST)),
    Step::Does(Call::Adds(1, Part::InGroup(FIRST))),
    Step::Does(Call::Adds(2, Part::Private)),
    Step::Refused(Call::Makes(3, Change::MakeShared), Errno::EINVAL),
    Step::Does(Call::Makes(1, Change::MakeShared)),
    Step::Does(Call::LastGroup(FIRST)),
    Step::Does(Call::Makes(2, Change::MakeShared)),
    Step::Does(Call::LastGroup(SECOND)),
    Step::Does(Call::Makes(2, Change::MakeUnbindable)),
    Step::Does(Call::HasState(2, Some(MountState::Unbindable))),
    Step::Does(Call::Makes(2, Change::MakePrivate)),
    Step::Does(Call::Makes(1, Change::MakeSlave)),
];

fn numbers() -> Example<Call> {
    Example("numbers go up with each group that is made", &NUMBERS)
}

/// Group 1 of the mounts 2 and 3, and under it group 2 of 4 and 5; then a chain of 200 groups.
static TURNS: [Step<Call>; 12] = [
    Step::Does(Call::Fresh(FIRST)),
    Step::Does(Call::FreshUnder(FIRST, SECOND)),
    Step::Does(Call::Adds(2, Part::InGroup(FIRST))),
    Step::Does(Call::Adds(3, Part::InGroup(FIRST))),
    Step::Does(Call::Adds(4, Part::InGroup(SECOND))),
    Step::Does(Call::Adds(5, Part::InGroup(SECOND))),
    Step::Does(Call::Counts(2, &[3, 4, 5], 2)),
    Step::Does(Call::Adds(6, Part::Private)),
    Step::Does(Call::Counts(6, &[], 0)),
    Step::Does(Call::Chain(200)),
    Step::Does(Call::CountsUpTo(1, 200, 200)),
    Step::Does(Call::CountsUpTo(200, 200, 1)),
];

fn turns() -> Example<Call> {
    Example("each peer group is met once", &TURNS)
}

#[test]
fn groups(rt: HostRuntime) {
    let alloc = rt.alloc();
    plays::<Table>(&rt, alloc, tests_in_order());
    plays::<Table>(&rt, alloc, groups_first());
    plays::<Table>(&rt, alloc, members_last());
    plays::<Table>(&rt, alloc, all_together());
    plays::<Table>(&rt, alloc, last());
    plays::<Table>(&rt, alloc, numbers());
    plays::<Table>(&rt, alloc, turns());
}
