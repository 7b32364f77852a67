//! Generated small worlds, against a model that computes all the slow way, by chains of mounts:
//! `tools/slow_mounts.py 2000 12` prints the number that is expected here. What a tree finds is
//! compared with what all its rows tell at each step.

use am_group::{Change, Groups};
use am_mount::Tree;
use am_names::{AbsPath, Errno, FsId, GroupId, MountId, MountRow, NsId, Place, Position};
use am_propagate::{CopyForm, InUse, NewNamespace, Subtree};
use std::alloc::{AllocError, Global};

/// The one mount that is in use.
#[derive(Drop)]
struct Inside {
    mount: MountId,
}

impl InUse for Inside {
    ghost use Rattle.std.specs.Prelude.{◌==◌};

    ghost uses = { λ inside mount. inside.mount == mount };

    fn in_use(&self, mount: MountId) -> bool {
        self.mount == mount
    }
}

fn used_by(mount: u64) -> Inside {
    Inside {
        mount: MountId(mount),
    }
}

fn position(alloc: Global, mount: u64, path: &[u8]) -> Result<Position, Errno> {
    Ok(Position {
        mount: MountId(mount),
        place: AbsPath::read(path)?.to_place(alloc)?,
    })
}

/// The file system of each mount but the root, which is watched.
const WATCHED: FsId = FsId(2);

/// Whether the row is a mount on this one.
fn is_on(mount: MountId, row: &MountRow) -> bool {
    match &row.mountpoint {
        Some(position) => position.mount == mount,
        None => false,
    }
}

/// Whether the row is a mount at this place of that one.
fn stands_at(mount: MountId, place: &Place, row: &MountRow) -> bool {
    match &row.mountpoint {
        Some(position) => position.mount == mount && position.place.is_same(place),
        None => false,
    }
}

/// Whether these are the mounts on the mount, by all rows.
fn are_on(rows: &[MountRow], mount: MountId, mounts: &[MountId]) -> bool {
    let mut left = mounts;
    for row in rows {
        if is_on(mount, row) {
            match left.split_first() {
                Some((first, others)) if *first == row.mount => left = others,
                Some(_) | None => return false,
            }
        }
    }
    left.is_empty()
}

/// Whether these are the mounts that show the file system, by all rows.
fn are_with(rows: &[MountRow], fs: FsId, mounts: &[MountId]) -> bool {
    let mut left = mounts;
    for row in rows {
        if row.fs == fs {
            match left.split_first() {
                Some((first, others)) if *first == row.mount => left = others,
                Some(_) | None => return false,
            }
        }
    }
    left.is_empty()
}

/// The last row at this place of the mount, by all rows.
fn last_at(rows: &[MountRow], mount: MountId, place: &Place) -> Option<MountId> {
    let mut last = None;
    for row in rows {
        if stands_at(mount, place, row) {
            last = Some(row.mount);
        }
    }
    last
}

/// Whether the tree finds what stands on the mount, and at this place of it.
fn finds_on(alloc: Global, tree: &Tree, mount: MountId, place: &Place) -> Result<bool, AllocError> {
    let rows = tree.rows();
    let children = tree.children(alloc, mount)?;
    let finds_children = are_on(rows, mount, children.as_slice())
        && tree.has_children(mount) != children.is_empty();
    Ok(finds_children && tree.top(mount, place.text()) == last_at(rows, mount, place))
}

/// Whether the tree finds the mounts of the file system that is watched, and none of the other.
fn finds_watched(tree: &Tree) -> bool {
    let watched = match tree.mounts_with(WATCHED) {
        Some(mounts) => are_with(tree.rows(), WATCHED, mounts),
        None => false,
    };
    watched && tree.mounts_with(FsId(1)).is_none()
}

/// Whether the tree finds all that its rows tell, at this place of each mount too.
fn finds_all(alloc: Global, tree: &Tree, place: &Place) -> Result<bool, AllocError> {
    for row in tree.rows() {
        if !finds_on(alloc, tree, row.mount, place)? {
            return Ok(false);
        }
    }
    Ok(finds_watched(tree))
}

/// What the slow model computes.
const EXPECTED: u64 = 12_619_133_619_210_512_457;

/// The number of no mount.
const ABSENT: u64 = 99;

/// A linear congruence, as in Knuth's MMIX.
#[derive(Drop)]
struct Random {
    state: u64,
}

impl Random {
    fn below(&mut self, bound: u64) -> u64 {
        self.state = self
            .state
            .wrapping_mul(6_364_136_223_846_793_005)
            .wrapping_add(1_442_695_040_888_963_407);
        match bound {
            0 => 0,
            bound => (self.state >> 33) % bound,
        }
    }

    /// One of the mounts, or one that isn't there.
    fn mount(&mut self, subtree: &Subtree) -> u64 {
        let rows = subtree.tree().rows();
        let mut left = self.below((rows.len() as u64).saturating_add(1));
        for row in rows {
            if left == 0 {
                return row.mount.0;
            }
            left -= 1;
        }
        ABSENT
    }
}

/// All answers and tables so far, as one number.
#[derive(Drop)]
struct Total {
    number: u64,
}

impl Total {
    fn fold(&mut self, value: u64) {
        self.number = self.number.wrapping_mul(1_000_003).wrapping_add(value);
    }

    /// An error that is an answer: want of memory is none.
    fn error(&mut self, error: Errno) -> Result<(), Errno> {
        if error == Errno::NoMemory {
            return Err(error);
        }
        self.fold(error.number() as u64);
        Ok(())
    }

    fn number(&mut self, number: u64) {
        self.fold(number.wrapping_add(100));
    }

    fn all(&mut self, mounts: &[MountId]) {
        for mount in mounts {
            self.number(mount.0);
        }
    }

    fn mounts(&mut self, answer: Result<Vec<MountId>, Errno>) -> Result<(), Errno> {
        match answer {
            Ok(mounts) => {
                self.all(mounts.as_slice());
                Ok(())
            }
            Err(error) => self.error(error),
        }
    }

    fn copies(&mut self, answer: Result<NewNamespace, Errno>) -> Result<(), Errno> {
        match answer {
            Ok(made) => {
                self.number(made.ns.0 as u64);
                self.all(made.mounts.as_slice());
                Ok(())
            }
            Err(error) => self.error(error),
        }
    }

    fn changed(&mut self, answer: Result<(), Errno>) -> Result<(), Errno> {
        match answer {
            Ok(()) => {
                self.fold(0);
                Ok(())
            }
            Err(error) => self.error(error),
        }
    }

    /// Why a call would be refused, 0 where it wouldn't.
    fn refusal(&mut self, refusal: Option<Errno>) {
        match refusal {
            Some(error) => self.fold(error.number() as u64),
            None => self.fold(0),
        }
    }

    fn group(&mut self, group: Option<GroupId>) {
        match group {
            Some(group) => self.fold(group.0),
            None => self.fold(0),
        }
    }

    fn row(&mut self, groups: &Groups, row: &MountRow) {
        self.fold(row.mount.0);
        self.fold(row.ns.0 as u64);
        match &row.mountpoint {
            Some(position) => {
                self.fold(position.mount.0);
                let is_second = position.place.text() == b"/1".as_slice();
                self.fold(if is_second { 1 } else { 0 });
            }
            None => {
                self.fold(0);
                self.fold(0);
            }
        }
        self.fold(row.fs.0 as u64);
        self.fold(row.origin.0);
        self.member(groups, row.mount);
    }

    fn member(&mut self, groups: &Groups, mount: MountId) {
        let Some(row) = groups.member(mount) else {
            return;
        };
        self.group(row.group());
        match row.group() {
            Some(group) => self.group(groups.master_of_group(group)),
            None => self.group(row.master()),
        }
        self.fold(if row.is_unbindable() { 1 } else { 0 });
    }

    fn table(&mut self, subtree: &Subtree) {
        for row in subtree.tree().rows() {
            self.row(subtree.groups(), row);
        }
    }

    /// Nothing, where the tree finds all that its rows tell.
    fn found(&mut self, alloc: Global, subtree: &Subtree, by: Drawn) -> Result<(), Errno> {
        let place = AbsPath::read(by.path)?.to_place(alloc)?;
        if !finds_all(alloc, subtree.tree(), &place)? {
            self.fold(1);
        }
        Ok(())
    }
}

fn change_of(number: u64) -> Change {
    match number {
        0 => Change::MakeShared,
        1 => Change::MakeSlave,
        2 => Change::MakePrivate,
        _ => Change::MakeUnbindable,
    }
}

fn form_of(number: u64) -> CopyForm {
    match number {
        0 => CopyForm::Full,
        _ => CopyForm::Reduced,
    }
}

/// A call, two mounts, a number below 4 and the path that goes with it, and the form of a copy.
#[derive(Clone, Copy)]
struct Drawn {
    call: u64,
    first: u64,
    second: u64,
    number: u64,
    path: &'static [u8],
    form: CopyForm,
}

fn draw(subtree: &Subtree, random: &mut Random) -> Drawn {
    let call = random.below(8);
    let first = random.mount(subtree);
    let second = random.mount(subtree);
    let number = random.below(4);
    let path: &'static [u8] = if number % 2 == 0 { b"/0" } else { b"/1" };
    let form = form_of(random.below(2));
    Drawn {
        call,
        first,
        second,
        number,
        path,
        form,
    }
}

/// Unmounts the mount, with a list of what goes, and answers as `umount` does.
fn unmounted_by_list(
    alloc: Global,
    subtree: &mut Subtree,
    mount: MountId,
    inside: &Inside,
) -> Result<Vec<MountId>, Errno> {
    let gone = subtree.umount_takes(alloc, mount)?;
    subtree.umount_listed(alloc, mount, gone.as_slice(), inside)?;
    Ok(gone)
}

impl Total {
    fn mounts_on(&mut self, alloc: Global, subtree: &mut Subtree, by: Drawn) -> Result<(), Errno> {
        let at = position(alloc, by.first, by.path)?;
        self.mounts(subtree.mount(alloc, &at, WATCHED))
    }

    fn binds(&mut self, alloc: Global, subtree: &mut Subtree, by: Drawn) -> Result<(), Errno> {
        let at = position(alloc, by.second, by.path)?;
        self.mounts(subtree.bind(alloc, MountId(by.first), &at))
    }

    fn changes(&mut self, subtree: &mut Subtree, by: Drawn) -> Result<(), Errno> {
        self.changed(subtree.change(change_of(by.number), MountId(by.first)))
    }

    /// What would go, whether it may, and what goes.
    fn unmounts(&mut self, alloc: Global, subtree: &mut Subtree, by: Drawn) -> Result<(), Errno> {
        let mount = MountId(by.first);
        let inside = used_by(by.second);
        self.mounts(subtree.umount_takes(alloc, mount))?;
        self.refusal(subtree.umount_refusal(alloc, mount, &inside)?);
        self.mounts(match by.number {
            0 | 1 => subtree.umount(alloc, mount, &inside),
            _ => unmounted_by_list(alloc, subtree, mount, &inside),
        })
    }

    fn namespaces(&mut self, alloc: Global, subtree: &mut Subtree, by: Drawn) -> Result<(), Errno> {
        let inside = used_by(by.second);
        match by.number {
            0 => self.copies(subtree.copy_namespace(alloc, NsId(0), by.form)),
            1 => self.mounts(subtree.drop_namespace(alloc, NsId(1), &inside)),
            2 => self.copies(subtree.copy_namespace(alloc, NsId(2), by.form)),
            _ => self.mounts(subtree.drop_namespace(alloc, NsId(3), &inside)),
        }
    }

    fn step(&mut self, alloc: Global, subtree: &mut Subtree, by: Drawn) -> Result<(), Errno> {
        match by.call {
            0 | 1 => self.mounts_on(alloc, subtree, by)?,
            2 | 3 => self.binds(alloc, subtree, by)?,
            4 | 5 => self.changes(subtree, by)?,
            6 => self.unmounts(alloc, subtree, by)?,
            _ => self.namespaces(alloc, subtree, by)?,
        }
        self.table(subtree);
        self.found(alloc, subtree, by)
    }
}

fn steps(
    alloc: Global,
    subtree: &mut Subtree,
    random: &mut Random,
    total: &mut Total,
) -> Result<(), Errno> {
    for _ in 0..12 {
        let by = draw(subtree, random);
        total.step(alloc, subtree, by)?;
    }
    Ok(())
}

fn world(alloc: Global, random: &mut Random, total: &mut Total) -> Result<(), Errno> {
    let mut subtree = Subtree::new(alloc, 40)?;
    // Of the root's file system there is a mount, so that it isn't watched.
    subtree.watch(FsId(1))?;
    subtree.watch(WATCHED)?;
    let made = steps(alloc, &mut subtree, random, total);
    drop(subtree);
    made
}

fn number_of(alloc: Global, count: u64) -> Result<u64, Errno> {
    let mut random = Random { state: 1 };
    let mut total = Total { number: 0 };
    for _ in 0..count {
        world(alloc, &mut random, &mut total)?;
    }
    Ok(total.number)
}

/// The number of 2,000 worlds; once more where no memory was found.
fn number(alloc: Global) -> Result<u64, Errno> {
    match number_of(alloc, 2000) {
        Err(Errno::NoMemory) => number_of(alloc, 2000),
        number => number,
    }
}

#[test]
fn worlds_of_the_slow_model(rt: HostRuntime) {
    assert!(rt; number(rt.alloc()) == Ok(EXPECTED));
}
