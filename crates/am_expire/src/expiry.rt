//! Which trigger of an autofs expires next (autofs.rst, "Mountpoint expiry").

ghost use Rattle.std.specs.Prelude.{◌≡◌, ◌+◌, ◌<◌, nat_lt, length, get_or, filter, None, IfOk, if◌then◌else◌};
ghost use Rattle.std.specs.List.{position_or_len};
ghost use Rattle.am_names.specs.{RefusedAs};
ghost use Rattle.am_expire.specs.Pick.{Expiry, is_due, may_go, mount_on, is_open, is_eligible, IsPick, pick_of};
ghost use Rattle.am_expire.specs.Order.{is_of, no_use, IsOrder, is_off, is_end, looks_in, IsLooks};
ghost use Rattle.am_expire.specs.Part.{rows_in, IsPart};
ghost use Rattle.am_expire.specs.Scan.{expiry_in, due_at};

use crate::order::Part;
use crate::ordered::OrderedTriggers;
use crate::uses::Uses;
use am_names::{Errno, FsId, MountId, Seconds, TokenKind, Trigger};
use am_propagate::Subtree;
use am_trigger::place_of;
use am_wait::Waits;
use std::alloc::{AllocError, Global};

/// What decides whether a trigger may expire.
#[derive(Clone, Copy)]
struct View<'a> {
    subtree: &'a Subtree,
    triggers: &'a OrderedTriggers,
    waits: &'a Waits,
    uses: &'a Uses,
    fs: FsId,
    timeout: u32,
    moment: Seconds,
    immediate: bool,
}

/// How many of so many rows are looked at, where this many are passed.
fn looks_of(passed: usize, len: usize) -> usize
    ensures { result ≡ (if nat_lt passed len then passed + 1 else len) }
{
    if passed < len { passed + 1 } else { len }
}

impl View<'_> {
    /// Whether none is due, since there is no timeout.
    fn is_off(&self) -> bool
        ensures { result ≡ is_off (expiry_in self.now) }
    {
        if self.immediate {
            return false;
        }
        self.timeout == 0
    }

    fn is_due(&self, last: Seconds) -> bool
        ensures { result ≡ is_due self.now.timeout self.now.moment self.now.immediate last }
    {
        if self.immediate {
            return true;
        }
        if self.timeout == 0 {
            return false;
        }
        self.moment.0.saturating_sub(last.0) >= self.timeout as u64
    }

    /// Whether a token of either kind is open.
    fn is_open(&self, trigger: &Trigger) -> bool
        ensures { result ≡ is_open self.now.waits.now trigger.now }
    {
        if self.waits.open_on(TokenKind::Missing, trigger).is_some() {
            return true;
        }
        self.waits.open_on(TokenKind::Expire, trigger).is_some()
    }

    /// What is mounted on the trigger at the daemon's mount of the file system.
    fn mount_on(&self, alloc: Global, trigger: &Trigger) -> Result<Option<MountId>, Errno>
        ensures refusal { RefusedAs None result }
        ensures ok { IfOk result (λ mount. mount ≡ mount_on (expiry_in self.now) trigger.now) }
    {
        let Some(autofs) = self.triggers.as_triggers().autofs(self.fs) else {
            return Ok(None);
        };
        let place = place_of(alloc, trigger)?;
        Ok(self.subtree.tree().top(autofs.location, place.text()))
    }

    fn may_go(&self, alloc: Global, mount: Option<MountId>) -> Result<bool, Errno>
        ensures refusal { RefusedAs None result }
        ensures ok { IfOk result (λ may. may ≡
            may_go self.now.subtree.now self.now.uses.now mount) }
    {
        let Some(mount) = mount else {
            return Ok(false);
        };
        let refusal = self.subtree.umount_refusal(alloc, mount, self.uses)?;
        Ok(refusal.is_none())
    }

    fn is_eligible(&self, alloc: Global, trigger: &Trigger, last: Seconds) -> Result<bool, Errno>
        ensures refusal { RefusedAs None result }
        ensures ok { IfOk result (λ eligible. eligible ≡
            is_eligible (expiry_in self.now) (trigger.now, last)) }
    {
        if trigger.fs != self.fs {
            return Ok(false);
        }
        if !self.is_due(last) {
            return Ok(false);
        }
        if self.is_open(trigger) {
            return Ok(false);
        }
        let mount = self.mount_on(alloc, trigger)?;
        self.may_go(alloc, mount)
    }

    /// Whether a pick goes no further up the order than to this last use.
    fn is_end(&self, alloc: Global, trigger: &Trigger, last: Seconds) -> Result<bool, Errno>
        ensures refusal { RefusedAs None result }
        ensures ok { IfOk result (λ end. end ≡ is_end (expiry_in self.now) (trigger.now, last)) }
    {
        if !self.is_due(last) {
            return Ok(true);
        }
        self.is_eligible(alloc, trigger, last)
    }

    /// Whether a pick goes no further than to the last use at this index.
    fn ends_at(&self, alloc: Global, part: &Part, index: usize) -> Result<bool, Errno>
        requires part { IsPart part.now }
        requires within { index < length (rows_in part.now) }
        ensures refusal { RefusedAs None result }
        ensures ok { IfOk result (λ end. end ≡
            is_end (expiry_in self.now) (get_or (rows_in part.now) index no_use)) }
    {
        let (trigger, last) = part.row(index);
        self.is_end(alloc, trigger, last)
    }

    /// How many last uses a pick passes before it ends.
    fn passed(&self, alloc: Global, part: &Part) -> Result<usize, Errno>
        requires { IsPart part.now }
        ensures refusal { RefusedAs None result }
        ensures ok { IfOk result (λ passed. passed ≡
            position_or_len (is_end (expiry_in self.now)) (rows_in part.now)) }
    {
        let len = part.len();
        for index in 0..len {
            if self.ends_at(alloc, part, index)? {
                return Ok(index);
            }
        }
        Ok(len)
    }

    /// The trigger of the last use at which a pick ends, if it is due.
    fn due_at(&self, part: &Part, index: usize) -> Option<Trigger>
        requires { IsPart part.now }
        ensures { result ≡ due_at (expiry_in self.now) (rows_in part.now) index }
    {
        if part.len() <= index {
            return None;
        }
        let (trigger, last) = part.row(index);
        if self.is_due(last) {
            Some(*trigger)
        } else {
            None
        }
    }

    /// The pick out of the last uses of its file system, and how many of them it looks at.
    fn pick_in(&self, alloc: Global, part: &Part) -> Result<(Option<Trigger>, usize), Errno>
        requires part { IsPart part.now }
        requires order { IsOrder (filter (is_of self.now.fs) self.now.triggers.now.rows.uses)
            (rows_in part.now) }
        ensures refusal { RefusedAs None result }
        ensures pick { IfOk result (λ r. IsPick (expiry_in self.now) r.0) }
        ensures exact { IfOk result (λ r. r.0 ≡ pick_of (expiry_in self.now)) }
        ensures looks { IfOk result (λ r. r.1 ≡ looks_in (expiry_in self.now) (rows_in part.now)) }
    {
        if self.is_off() {
            return Ok((None, 0));
        }
        let passed = self.passed(alloc, part)?;
        let looks = looks_of(passed, part.len());
        Ok((self.due_at(part, passed), looks))
    }
}

/// What `pick` finds, and how many last uses of the file system it looked at. It goes up their
/// order, and ends at the one that it picks, or at the first that isn't due.
pub fn pick_counted(
    alloc: Global,
    subtree: &Subtree,
    triggers: &OrderedTriggers,
    waits: &Waits,
    uses: &Uses,
    fs: FsId,
    timeout: u32,
    moment: Seconds,
    immediate: bool,
) -> Result<(Option<Trigger>, usize), Errno>
    ensures refusal { RefusedAs None result }
    ensures ok { IfOk result (λ r. IsPick (record {
      table = subtree.now;
      triggers = triggers.now.rows;
      waits = waits.now;
      uses = uses.now;
      fs = fs;
      timeout = timeout;
      moment = moment;
      immediate = immediate;
    }) r.0) }
    ensures exact { IfOk result (λ r. r.0 ≡ pick_of (record {
      table = subtree.now;
      triggers = triggers.now.rows;
      waits = waits.now;
      uses = uses.now;
      fs = fs;
      timeout = timeout;
      moment = moment;
      immediate = immediate;
    })) }
    ensures looks { IfOk result (λ r. IsLooks (record {
      table = subtree.now;
      triggers = triggers.now.rows;
      waits = waits.now;
      uses = uses.now;
      fs = fs;
      timeout = timeout;
      moment = moment;
      immediate = immediate;
    }) r.1) }
{
    let view = View {
        subtree,
        triggers,
        waits,
        uses,
        fs,
        timeout,
        moment,
        immediate,
    };
    view.pick_in(alloc, &triggers.order_of(fs))
}

/// The trigger of the file system that expires next: of those that may expire the one that was
/// not used for the longest time, and of those last used at one moment the one with the least
/// name. None may expire without a timeout, if not at once (autofs.rst, "Mountpoint expiry").
pub fn pick(
    alloc: Global,
    subtree: &Subtree,
    triggers: &OrderedTriggers,
    waits: &Waits,
    uses: &Uses,
    fs: FsId,
    timeout: u32,
    moment: Seconds,
    immediate: bool,
) -> Result<Option<Trigger>, Errno>
    ensures refusal { RefusedAs None result }
    ensures ok { IfOk result (λ found. IsPick (record {
      table = subtree.now;
      triggers = triggers.now.rows;
      waits = waits.now;
      uses = uses.now;
      fs = fs;
      timeout = timeout;
      moment = moment;
      immediate = immediate;
    }) found) }
    ensures exact { IfOk result (λ found. found ≡ pick_of (record {
      table = subtree.now;
      triggers = triggers.now.rows;
      waits = waits.now;
      uses = uses.now;
      fs = fs;
      timeout = timeout;
      moment = moment;
      immediate = immediate;
    })) }
{
    let (found, _looks) = pick_counted(
        alloc, subtree, triggers, waits, uses, fs, timeout, moment, immediate,
    )?;
    Ok(found)
}
