//! A world of the kernel's parts: mounts, triggers, waits and uses, on which walks and picks are
//! played.

use crate::tests::script::Stage;
use crate::tests::trap::Trap;
use am_expire::{OrderedTriggers, Uses, pick, pick_counted};
use am_group::Change;
use am_names::{
    AbsPath, Errno, FailNo, FsId, MountId, MountRow, Name, NsId, Position, Seconds, Token,
    TokenKind, Trigger, WalkerId,
};
use am_propagate::{CopyForm, Subtree};
use am_trigger::{Failure, Failures};
use am_wait::Waits;
use am_walk::{Stop, Walk, position, resolve};
use std::alloc::Global;

/// Where a walk ends.
#[derive(Clone, Copy)]
pub enum End {
    /// In this mount, at this place below its root.
    At(u64, &'static [u8]),
    /// It waits on this token.
    Waits(u32),
    /// The daemon is to be notified.
    Notifies(Trap),
    Fails(Errno),
}

impl End {
    fn is_at(self, at: &Position) -> bool {
        match self {
            End::At(mount, place) => at.mount == MountId(mount) && at.place.text() == place,
            _ => false,
        }
    }

    fn waits(self, token: Token) -> bool {
        match self {
            End::Waits(number) => token == Token(number),
            _ => false,
        }
    }

    fn notifies(self, trigger: &Trigger) -> bool {
        match self {
            End::Notifies(trap) => trap.is(trigger),
            _ => false,
        }
    }

    fn fails(self, errno: Errno) -> bool {
        match self {
            End::Fails(expected) => errno == expected,
            _ => false,
        }
    }

    fn is(self, stop: &Stop) -> bool {
        match stop {
            Stop::Arrive(at) => self.is_at(at),
            Stop::Block(token) => self.waits(*token),
            Stop::Missing(trigger) => self.notifies(trigger),
            Stop::Refuse(errno) => self.fails(*errno),
        }
    }
}

/// These triggers were passed, in this order.
fn are_passed(passed: &[Trigger], traps: &[Trap]) -> bool {
    passed.len() == traps.len()
        && passed
            .iter()
            .zip(traps)
            .all(|(trigger, trap)| trap.is(trigger))
}

fn is_walk(walk: &Walk, traps: &[Trap], end: End) -> bool {
    are_passed(walk.passed.as_slice(), traps) && end.is(&walk.stop)
}

fn digit(number: u64) -> u8 {
    b'0' + (number % 10) as u8
}

/// `/k` and four digits.
fn path_of(number: u64) -> [u8; 6] {
    [
        b'/',
        b'k',
        digit(number / 1000),
        digit(number / 100),
        digit(number / 10),
        digit(number),
    ]
}

/// When walks are made.
const MOMENT: Seconds = Seconds(100);

/// How long a failure lasts.
const NEGATIVE: Seconds = Seconds(60);

/// What a pick is asked: the file system, its timeout, the moment, and whether at once.
#[derive(Clone, Copy)]
pub struct Ask(pub u32, pub u32, pub u64, pub bool);

/// A call, and what it answers.
#[derive(Clone, Copy)]
pub enum Call {
    /// A file system is mounted on a place of a mount.
    Mount(u64, &'static [u8], u32),
    /// The same of a new autofs, of which that is the daemon's mount.
    Indirect(u64, &'static [u8], u32),
    Direct(u64, &'static [u8], u32),
    Share(u64),
    /// A namespace gets copies of all mounts of namespace 0.
    Copy,
    /// The walker waits on the next token: the trigger is expiring.
    Expires(u32, Trap),
    /// The same of a mount that is pending.
    IsPending(u32, Trap),
    Makes(Trap),
    Catatonic(u32),
    /// Something failed at the trigger, so and at this moment. Walks are made at moment 100, and a
    /// failure lasts 60 seconds.
    Failed(Trap, FailNo, u64),
    /// The trigger was last used at this moment.
    Used(Trap, u64),
    /// So were all of these.
    AllUsed(&'static [Trap], u64),
    /// So many keys of a file system, `k0001` and so on, are mounted on a mount, and each was last
    /// used at the moment of its number.
    Keys(u64, u32, u64),
    /// A walker enters a mount.
    Enters(u32, u64),
    Leaves(u32),
    /// A walk in a namespace along a path passes these triggers and ends so.
    Walk(u32, &'static [u8], &'static [Trap], End),
    /// The same in namespace 0 of a path that is kept as a place.
    KeptWalk(&'static [u8], &'static [Trap], End),
    /// An administrator's path there leads so.
    Leads(u32, &'static [u8], End),
    /// The trigger that expires next.
    Picks(Ask, Option<Trap>),
    /// The same, and how many last uses are looked at.
    Counts(Ask, Option<Trap>, usize),
    /// When the trigger was last used.
    LastUse(Trap, Option<u64>),
    /// These mounts are mounted on a mount.
    Children(u64, &'static [u64]),
    /// Whether a mount of this number can be added to those that there are.
    CanAdd(u64, bool),
    /// All go on as copies of themselves.
    Copies,
}

/// What walks and picks look at.
#[derive(Drop)]
pub struct Parts {
    subtree: Subtree,
    triggers: OrderedTriggers,
    failures: Failures,
    waits: Waits,
    uses: Uses,
}

impl Parts {
    fn mount(
        &mut self,
        alloc: Global,
        parent: u64,
        path: &[u8],
        fs: u32,
    ) -> Result<MountId, Errno> {
        let path = AbsPath::read(path)?;
        let at = Position {
            mount: MountId(parent),
            place: path.to_place(alloc)?,
        };
        let mounts = self.subtree.mount(alloc, &at, FsId(fs))?;
        mounts.first().copied().ok_or(Errno::EINVAL)
    }

    fn autofs(
        &mut self,
        alloc: Global,
        parent: u64,
        path: &[u8],
        fs: u32,
        direct: bool,
    ) -> Result<bool, Errno> {
        // A call that found no memory is made once more: it must have changed nothing.
        self.triggers.reserve_fs()?;
        let location = self.mount(alloc, parent, path, fs)?;
        self.triggers.add_fs(FsId(fs), direct, location)?;
        Ok(true)
    }

    fn share(&mut self, mount: u64) -> Result<bool, Errno> {
        self.subtree.change(Change::MakeShared, MountId(mount))?;
        Ok(true)
    }

    fn copy(&mut self, alloc: Global) -> Result<bool, Errno> {
        self.subtree.copy_namespace(alloc, NsId(0), CopyForm::Full)?;
        Ok(true)
    }

    fn open(
        &mut self,
        alloc: Global,
        walker: u32,
        kind: TokenKind,
        trap: Trap,
    ) -> Result<bool, Errno> {
        let trigger = trap.trigger()?;
        // The checker wants the type of its name said too, here and below.
        let _name: Option<Name> = trigger.name;
        self.waits.open(alloc, trigger, kind, WalkerId(walker))?;
        Ok(true)
    }

    fn mkdir(&mut self, trap: Trap) -> Result<bool, Errno> {
        let trigger = trap.trigger()?;
        let _name: Option<Name> = trigger.name;
        self.triggers.mkdir(trigger)?;
        Ok(true)
    }

    fn set_catatonic(&mut self, fs: u32) -> Result<bool, Errno> {
        self.triggers.set_catatonic(FsId(fs), true)?;
        Ok(true)
    }

    fn fail(&mut self, trap: Trap, no: FailNo, moment: u64) -> Result<bool, Errno> {
        let trigger = trap.trigger()?;
        let _name: Option<Name> = trigger.name;
        self.failures.reserve(1)?;
        let at = Seconds(moment);
        self.failures.put_reserved(&trigger, Failure { no, at });
        Ok(true)
    }

    fn touch(&mut self, trap: Trap, moment: u64) -> Result<bool, Errno> {
        let trigger = trap.trigger()?;
        let _name: Option<Name> = trigger.name;
        self.triggers.touch(trigger, Seconds(moment))?;
        Ok(true)
    }

    fn touch_all(&mut self, alloc: Global, traps: &[Trap], moment: u64) -> Result<bool, Errno> {
        let mut used = Vec::new(alloc);
        for trap in traps {
            used.push(trap.trigger()?)?;
        }
        self.triggers.reserve_uses(used.len())?;
        self.triggers
            .touch_all_reserved(used.as_slice(), Seconds(moment));
        Ok(true)
    }

    fn use_key(&mut self, alloc: Global, mount: u64, fs: u32, number: u64) -> Result<(), Errno> {
        let path = path_of(number);
        self.mount(alloc, mount, &path, 9)?;
        let name = Name::read(&path[1..])?;
        let trigger = Trigger {
            fs: FsId(fs),
            name: Some(name),
        };
        self.triggers.touch(trigger, Seconds(number))
    }

    fn use_keys(&mut self, alloc: Global, mount: u64, fs: u32, count: u64) -> Result<bool, Errno> {
        for number in 1..=count {
            self.use_key(alloc, mount, fs, number)?;
        }
        Ok(true)
    }

    fn enter(&mut self, walker: u32, mount: u64) -> Result<bool, Errno> {
        self.uses.enter(WalkerId(walker), MountId(mount))?;
        Ok(true)
    }

    fn leave(&mut self, walker: u32) -> Result<bool, Errno> {
        self.uses.leave(WalkerId(walker))?;
        Ok(true)
    }

    fn walks(
        &self,
        alloc: Global,
        ns: u32,
        path: &[u8],
        traps: &[Trap],
        end: End,
    ) -> Result<bool, Errno> {
        let path = AbsPath::read(path)?;
        let walk = resolve(
            alloc,
            &self.subtree,
            self.triggers.as_triggers(),
            &self.waits,
            &self.failures,
            NsId(ns),
            &path,
            MOMENT,
            NEGATIVE,
        )?;
        Ok(is_walk(&walk, traps, end))
    }

    fn walks_kept(
        &self,
        alloc: Global,
        path: &[u8],
        traps: &[Trap],
        end: End,
    ) -> Result<bool, Errno> {
        let path = AbsPath::read(path)?;
        let kept = path.to_place(alloc)?;
        let walk = resolve(
            alloc,
            &self.subtree,
            self.triggers.as_triggers(),
            &self.waits,
            &self.failures,
            NsId(0),
            &kept.path(),
            MOMENT,
            NEGATIVE,
        )?;
        Ok(is_walk(&walk, traps, end))
    }

    fn leads(&self, alloc: Global, ns: u32, path: &[u8], end: End) -> Result<bool, Errno> {
        let path = AbsPath::read(path)?;
        match position(
            alloc,
            &self.subtree,
            self.triggers.as_triggers(),
            NsId(ns),
            &path,
        ) {
            Ok(at) => Ok(end.is_at(&at)),
            Err(Errno::NoMemory) => Err(Errno::NoMemory),
            Err(errno) => Ok(end.fails(errno)),
        }
    }

    fn pick(&self, alloc: Global, ask: Ask) -> Result<Option<Trigger>, Errno> {
        pick(
            alloc,
            &self.subtree,
            &self.triggers,
            &self.waits,
            &self.uses,
            FsId(ask.0),
            ask.1,
            Seconds(ask.2),
            ask.3,
        )
    }

    fn pick_counted(&self, alloc: Global, ask: Ask) -> Result<(Option<Trigger>, usize), Errno> {
        pick_counted(
            alloc,
            &self.subtree,
            &self.triggers,
            &self.waits,
            &self.uses,
            FsId(ask.0),
            ask.1,
            Seconds(ask.2),
            ask.3,
        )
    }

    fn picks(&self, alloc: Global, ask: Ask, expected: Option<Trap>) -> Result<bool, Errno> {
        match (self.pick(alloc, ask)?, expected) {
            (Some(trigger), Some(trap)) => Ok(trap.is(&trigger)),
            (None, None) => Ok(true),
            _ => Ok(false),
        }
    }

    fn counts(
        &self,
        alloc: Global,
        ask: Ask,
        expected: Option<Trap>,
        looks: usize,
    ) -> Result<bool, Errno> {
        let (found, count) = self.pick_counted(alloc, ask)?;
        match (found, expected) {
            (Some(trigger), Some(trap)) => Ok(count == looks && trap.is(&trigger)),
            (None, None) => Ok(count == looks),
            _ => Ok(false),
        }
    }

    fn is_last_use(&self, trap: Trap, expected: Option<u64>) -> Result<bool, Errno> {
        let trigger = trap.trigger()?;
        let _name: Option<Name> = trigger.name;
        match self.triggers.as_triggers().last_use(&trigger) {
            Some(moment) => Ok(expected == Some(moment.0)),
            None => Ok(expected.is_none()),
        }
    }

    fn are_children(&self, alloc: Global, mount: u64, expected: &[u64]) -> Result<bool, Errno> {
        let children = self.subtree.tree().children(alloc, MountId(mount))?;
        Ok(
            children
                .iter()
                .map(|child| child.0)
                .eq(expected.iter().copied()),
        )
    }

    fn can_add(&self, mount: u64) -> bool {
        let row = MountRow {
            mount: MountId(mount),
            ns: NsId(0),
            fs: FsId(1),
            origin: MountId(mount),
            mountpoint: None,
        };
        self.subtree.tree().can_add(&[row])
    }

    fn copies(&self, alloc: Global) -> Result<Parts, Errno> {
        Ok(Parts {
            subtree: self.subtree.copy(alloc)?,
            triggers: self.triggers.copy(alloc)?,
            failures: self.failures.copy(alloc)?,
            waits: self.waits.copy(alloc)?,
            uses: self.uses.copy(alloc)?,
        })
    }

    fn go_on_as_copies(&mut self, alloc: Global) -> Result<bool, Errno> {
        let copies = self.copies(alloc)?;
        *self = copies;
        Ok(true)
    }

    /// What changes nothing.
    fn look(&self, alloc: Global, call: Call) -> Result<bool, Errno> {
        match call {
            Call::Walk(ns, path, traps, end) => self.walks(alloc, ns, path, traps, end),
            Call::KeptWalk(path, traps, end) => self.walks_kept(alloc, path, traps, end),
            Call::Leads(ns, path, end) => self.leads(alloc, ns, path, end),
            Call::Picks(ask, expected) => self.picks(alloc, ask, expected),
            Call::Counts(ask, expected, looks) => self.counts(alloc, ask, expected, looks),
            Call::LastUse(trap, expected) => self.is_last_use(trap, expected),
            Call::Children(mount, expected) => self.are_children(alloc, mount, expected),
            Call::CanAdd(mount, expected) => Ok(self.can_add(mount) == expected),
            _ => Ok(false),
        }
    }

    /// Each call goes as it says.
    fn make_all(&mut self, alloc: Global, calls: &[Call]) -> Result<bool, Errno> {
        for call in calls {
            if !self.make(alloc, *call)? {
                return Ok(false);
            }
        }
        Ok(true)
    }

    /// The facts of these letters come to hold.
    fn hold(&mut self, alloc: Global, known: &[Fact], letters: &[u8]) -> Result<bool, Errno> {
        for letter in letters {
            let Some(fact) = known.iter().find(|fact| fact.0 == *letter) else {
                return Ok(false);
            };
            if !self.make(alloc, fact.1)? {
                return Ok(false);
            }
        }
        Ok(true)
    }

    fn is_so_where(
        &mut self,
        alloc: Global,
        setting: Setting,
        facts: &[u8],
        call: Call,
    ) -> Result<bool, Errno> {
        if !self.make_all(alloc, setting.0)? {
            return Ok(false);
        }
        if !self.hold(alloc, setting.1, facts)? {
            return Ok(false);
        }
        self.make(alloc, call)
    }
}

impl Stage for Parts {
    type Call = Call;

    /// Mount 1 alone.
    fn new(alloc: Global) -> Result<Parts, Errno> {
        Ok(Parts {
            subtree: Subtree::new(alloc, 2000)?,
            triggers: OrderedTriggers::new(alloc),
            failures: Failures::new(alloc),
            waits: Waits::new(alloc, 9, 9),
            uses: Uses::new(alloc),
        })
    }

    fn make(&mut self, alloc: Global, call: Call) -> Result<bool, Errno> {
        match call {
            Call::Mount(parent, path, fs) => {
                self.mount(alloc, parent, path, fs)?;
                Ok(true)
            }
            Call::Indirect(parent, path, fs) => self.autofs(alloc, parent, path, fs, false),
            Call::Direct(parent, path, fs) => self.autofs(alloc, parent, path, fs, true),
            Call::Share(mount) => self.share(mount),
            Call::Copy => self.copy(alloc),
            Call::Expires(walker, trap) => self.open(alloc, walker, TokenKind::Expire, trap),
            Call::IsPending(walker, trap) => self.open(alloc, walker, TokenKind::Missing, trap),
            Call::Makes(trap) => self.mkdir(trap),
            Call::Catatonic(fs) => self.set_catatonic(fs),
            Call::Failed(trap, no, moment) => self.fail(trap, no, moment),
            Call::Used(trap, moment) => self.touch(trap, moment),
            Call::AllUsed(traps, moment) => self.touch_all(alloc, traps, moment),
            Call::Keys(mount, fs, count) => self.use_keys(alloc, mount, fs, count),
            Call::Enters(walker, mount) => self.enter(walker, mount),
            Call::Leaves(walker) => self.leave(walker),
            Call::Copies => self.go_on_as_copies(alloc),
            _ => self.look(alloc, call),
        }
    }
}

/// A letter for a fact, and the call by which it comes to hold.
#[derive(Clone, Copy)]
pub struct Fact(pub u8, pub Call);

/// Where facts may hold: how the world begins, and the facts that are known.
#[derive(Clone, Copy)]
pub struct Setting(pub &'static [Call], pub &'static [Fact]);

impl Setting {
    /// Whether a call goes as it says where these facts hold, each told by its letter.
    pub fn is_so_where(self, alloc: Global, facts: &[u8], call: Call) -> Result<bool, Errno> {
        let mut parts = Parts::new(alloc)?;
        let is_so = parts.is_so_where(alloc, self, facts, call);
        // They go by a call, which is cheaper to check.
        drop(parts);
        is_so
    }
}
