//! The order in which triggers come to expire.

ghost use Rattle.std.specs.Prelude.{◌≡◌, ◌+◌, ◌-◌, ◌≤◌, ◌<◌, [], true, false, nat_lt, nat_le, length, filter, get_or, Some, None, IfOk, OnOk, if◌then◌else◌};
ghost use Rattle.std.specs.Cmp.Lexicographic.{slice_cmp};
ghost use Rattle.std.specs.List.Sorted.{IsPartitionPoint};
ghost use Rattle.std.specs.Option.{option_cmp};
ghost use Rattle.std.specs.Ordering.{nat_cmp, is_lt};
ghost use Rattle.std.specs.VecDeque.{deque_len, deque_capacity};
ghost use Rattle.std.specs.List.{slice_get};
ghost use Rattle.am_trigger.specs.{IsUseIndex, AreOnce, used_in};
ghost use Rattle.am_expire.specs.Order.{use_cmp, is_of, passes, no_use, rows_at, IsListed};
ghost use Rattle.am_expire.specs.Part.{rows_in, IsPart};

use am_names::{FsId, Name, Seconds, Trigger};
use am_trigger::Triggers;
use std::alloc::{AllocError, Global};
use std::cmp::Ordering;
use std::collections::VecDeque;

/// The order of the last uses: those of one file system stand side by side, the one that was
/// longest ago first, and of those at one moment the one with the least name.
#[derive(Drop)]
pub struct Order {
    // The index of each among the triggers' last uses, of which none goes.
    places: VecDeque<usize>,
}

/// A part of the order, with the triggers whose last uses it lists.
#[derive(Clone, Copy)]
pub struct Part<'a> {
    triggers: &'a Triggers,
    places: &'a VecDeque<usize>,
    start: usize,
    end: usize,
}

fn compare_names(name: &Option<Name>, other: &Option<Name>) -> Ordering
    ensures { result ≡ option_cmp (slice_cmp nat_cmp) name.now other.now }
{
    match (name, other) {
        (Some(name), Some(other)) => name.as_bytes().cmp(other.as_bytes()),
        (None, Some(_)) => Ordering::Less,
        (Some(_), None) => Ordering::Greater,
        (None, None) => Ordering::Equal,
    }
}

fn compare(trigger: &Trigger, last: Seconds, other: &Trigger, moment: Seconds) -> Ordering
    ensures { result ≡ use_cmp (trigger.now, last) (other.now, moment) }
{
    let by_fs = trigger.fs.0.cmp(&other.fs.0);
    let by_use = last.0.cmp(&moment.0);
    by_fs
        .then(by_use)
        .then(compare_names(&trigger.name, &other.name))
}

/// Whether the last use at this place comes before that of a trigger at a moment.
fn is_before(triggers: &Triggers, place: usize, other: &Trigger, moment: Seconds) -> bool
    ensures { result ≡ passes (λ x. is_lt (use_cmp x (other.now, moment)))
        (slice_get triggers.now.rows.uses place) }
{
    match triggers.use_ref(place) {
        Some((trigger, last)) => compare(trigger, *last, other, moment).is_lt(),
        None => false,
    }
}

/// Whether the last use at this place is of a file system before this one.
fn is_below(triggers: &Triggers, place: usize, fs: FsId) -> bool
    ensures { result ≡ passes (λ x. nat_lt x.0.fs fs) (slice_get triggers.now.rows.uses place) }
{
    match triggers.use_ref(place) {
        Some((trigger, _)) => trigger.fs.0 < fs.0,
        None => false,
    }
}

/// Whether the last use at this place is of this file system or one before it.
fn is_up_to(triggers: &Triggers, place: usize, fs: FsId) -> bool
    ensures { result ≡ passes (λ x. nat_le x.0.fs fs) (slice_get triggers.now.rows.uses place) }
{
    match triggers.use_ref(place) {
        Some((trigger, _)) => trigger.fs.0 <= fs.0,
        None => false,
    }
}

/// The index to which one moves that stood at the first index, and is to stand before the one at
/// the second.
fn moved(from: usize, to: usize) -> usize
    ensures { result ≡ (if nat_lt from to then to - 1 else to) }
{
    if from < to { to - 1 } else { to }
}

impl Part<'_> {
    /// How many last uses they are.
    pub(crate) fn len(&self) -> usize
        requires { IsPart self.now }
        ensures { result ≡ length (rows_in self.now) }
    {
        self.end - self.start
    }

    /// The last use at this index of the part.
    pub(crate) fn row(&self, index: usize) -> (&Trigger, Seconds)
        requires part { IsPart self.now }
        requires within { index < length (rows_in self.now) }
        ensures { (result.0.now, result.1) ≡ get_or (rows_in self.now) index no_use }
    {
        let place = self.places[self.start + index];
        let (trigger, last) = self.triggers.use_ref(place).unwrap();
        (trigger, *last)
    }
}

impl Order {
    pub(crate) fn new(alloc: Global) -> Order
        ensures { result.places.items ≡ [] }
    {
        Order {
            places: VecDeque::new(alloc),
        }
    }

    /// The same order once more, with no less room.
    pub(crate) fn copy(&self) -> Result<Order, AllocError>
        ensures places { IfOk result (λ copy. copy.places.items ≡ self.now.places.items) }
        ensures room { IfOk result (λ copy. deque_capacity self.now.places - deque_len
            self.now.places ≤ deque_capacity copy.places - deque_len copy.places) }
    {
        let mut places = self.places.clone()?;
        places.reserve(self.places.capacity() - self.places.len())?;
        Ok(Order { places })
    }

    /// How many last uses come before that of a trigger at a moment.
    fn rank(&self, triggers: &Triggers, trigger: &Trigger, moment: Seconds) -> usize
        requires { IsListed triggers.now.rows.uses self.now.places.items }
        ensures bound { result ≤ deque_len self.now.places }
        ensures rank { IsPartitionPoint
            (λ x. is_lt (use_cmp x (trigger.now, moment)) ≡ true)
            (λ x. is_lt (use_cmp x (trigger.now, moment)) ≡ false)
            (rows_at triggers.now.rows.uses self.now.places.items) result }
    {
        self.places
            .partition_point(|place| is_before(triggers, *place, trigger, moment))
    }

    /// How many last uses are of file systems before this one.
    fn start(&self, triggers: &Triggers, fs: FsId) -> usize
        requires { IsListed triggers.now.rows.uses self.now.places.items }
        ensures bound { result ≤ deque_len self.now.places }
        ensures start { IsPartitionPoint (λ x. x.0.fs < fs) (λ x. fs ≤ x.0.fs)
            (rows_at triggers.now.rows.uses self.now.places.items) result }
    {
        self.places
            .partition_point(|place| is_below(triggers, *place, fs))
    }

    /// How many last uses are of file systems up to this one.
    fn end(&self, triggers: &Triggers, fs: FsId) -> usize
        requires { IsListed triggers.now.rows.uses self.now.places.items }
        ensures bound { result ≤ deque_len self.now.places }
        ensures end { IsPartitionPoint (λ x. x.0.fs ≤ fs) (λ x. fs < x.0.fs)
            (rows_at triggers.now.rows.uses self.now.places.items) result }
    {
        self.places
            .partition_point(|place| is_up_to(triggers, *place, fs))
    }

    /// The last uses of the file system.
    pub(crate) fn of_fs<'a>(&'a self, triggers: &'a Triggers, fs: FsId) -> Part<'a>
        requires { IsListed triggers.now.rows.uses self.now.places.items }
        ensures part { IsPart result }
        ensures rows { rows_in result ≡
            filter (is_of fs) (rows_at triggers.now.rows.uses self.now.places.items) }
    {
        Part {
            triggers,
            places: &self.places,
            start: self.start(triggers, fs),
            end: self.end(triggers, fs),
        }
    }

    /// Makes room for so many more last uses.
    pub(crate) fn reserve(&mut self, count: usize) -> Result<(), AllocError>
        ensures places { self.new.places.items ≡ self.old.places.items }
        ensures len { deque_len self.new.places ≡ deque_len self.old.places }
        ensures room { deque_capacity self.old.places ≤ deque_capacity self.new.places }
        ensures ok { OnOk result (deque_len self.new.places + count ≤ deque_capacity
            self.new.places) }
    {
        self.places.reserve(count)
    }

    /// The trigger was used for the first time, at this moment, and there is room for that.
    fn append(&mut self, triggers: &Triggers, trigger: &Trigger, moment: Seconds)
        requires listed { IsListed triggers.now.rows.uses self.old.places.items }
        requires fresh { IsUseIndex triggers.now.rows.uses trigger.now None }
        requires room { deque_len self.old.places < deque_capacity self.old.places }
        ensures listed { IsListed (used_in trigger.now moment triggers.now.rows.uses)
            self.new.places.items }
        ensures len { deque_len self.new.places ≤ deque_len self.old.places + 1 }
        ensures capacity { deque_capacity self.old.places ≤ deque_capacity self.new.places }
    {
        let at = self.rank(triggers, trigger, moment);
        // There is room for it.
        let _put = self.places.insert(at, triggers.use_count());
    }

    /// The trigger, whose last use is at this place, was used at this moment.
    fn renew(&mut self, triggers: &Triggers, place: usize, trigger: &Trigger, moment: Seconds)
        requires listed { IsListed triggers.now.rows.uses self.old.places.items }
        requires there { IsUseIndex triggers.now.rows.uses trigger.now (Some place) }
        requires once { AreOnce triggers.now.rows.uses }
        ensures listed { IsListed (used_in trigger.now moment triggers.now.rows.uses)
            self.new.places.items }
        ensures len { deque_len self.new.places ≤ deque_len self.old.places + 1 }
        ensures capacity { deque_capacity self.old.places ≤ deque_capacity self.new.places }
    {
        // There is a last use at that place.
        let last = triggers.last_use_at(place).unwrap_or(moment);
        if last.0 == moment.0 {
            return;
        }
        let from = self.rank(triggers, trigger, last);
        let to = self.rank(triggers, trigger, moment);
        let _gone = self.places.remove(from);
        // There is room for it, since one has gone.
        let _put = self.places.insert(moved(from, to), place);
    }

    /// The trigger was used at this moment, and there is room for that.
    pub(crate) fn touch(&mut self, triggers: &Triggers, trigger: &Trigger, moment: Seconds)
        requires listed { IsListed triggers.now.rows.uses self.old.places.items }
        requires room { deque_len self.old.places < deque_capacity self.old.places }
        ensures listed { IsListed (used_in trigger.now moment triggers.now.rows.uses)
            self.new.places.items }
        ensures len { deque_len self.new.places ≤ deque_len self.old.places + 1 }
        ensures capacity { deque_capacity self.old.places ≤ deque_capacity self.new.places }
    {
        match triggers.use_index(trigger) {
            Some(place) => self.renew(triggers, place, trigger, moment),
            None => self.append(triggers, trigger, moment),
        }
    }
}
