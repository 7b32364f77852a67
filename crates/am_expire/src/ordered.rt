//! The triggers, and the order in which they come to expire.

ghost use Rattle.std.specs.Prelude.{◌≡◌, ◌≤◌, ◌+◌, ◌↔◌, length, filter, None, IsTrue, IfOk, OnOk, OnErr};
ghost use Rattle.am_names.specs.{RefusedAs, RefusedOnlyAs};
ghost use Rattle.am_trigger.specs.{no_triggers, add_refusal, with_autofs, catatonic_refusal, with_catatonic, mkdir_refusal, with_directory, rmdir_refusal, without_directory, used, all_used, KeepsRoom};
ghost use Rattle.am_expire.specs.Order.{is_of, IsOrder};
ghost use Rattle.am_expire.specs.Part.{rows_in, IsPart};

use crate::order::{Order, Part};
use am_names::{Errno, FsId, MountId, Name, Seconds, Trigger};
use am_trigger::Triggers;
use std::alloc::{AllocError, Global};
use std::marker::Model;

/// All triggers, as `Triggers` has them, and beside them the order in which they come to expire.
/// A last use is set in both at once, and room is made in both.
#[derive(Drop)]
pub struct OrderedTriggers {
    triggers: Triggers,
    order: Order,
}

impl Model for OrderedTriggers {
    ghost use Rattle.am_trigger.specs.{TriggerTable};

    ghost Value = { TriggerTable };

    ghost use Rattle.am_expire.specs.View.{ordered_of, IsOrdered};

    ghost view = { ordered_of };

    ghost invariant = { IsOrdered };
}

impl OrderedTriggers {
    /// No autofs.
    pub fn new(alloc: Global) -> OrderedTriggers
        ensures { result.rows ≡ no_triggers }
    {
        OrderedTriggers {
            triggers: Triggers::new(alloc),
            order: Order::new(alloc),
        }
    }

    /// The same triggers in the same order once more, with no less room.
    pub fn copy(&self, alloc: Global) -> Result<OrderedTriggers, AllocError>
        ensures rows { IfOk result (λ copy. copy.rows ≡ self.now.rows) }
        ensures room { IfOk result (KeepsRoom self.now) }
    {
        Ok(OrderedTriggers {
            triggers: self.triggers.copy(alloc)?,
            order: self.order.copy()?,
        })
    }

    /// Whether both have the same triggers, and so in the same order.
    pub fn is_same(&self, other: &OrderedTriggers) -> bool
        ensures { IsTrue result ↔ (self.now.rows ≡ other.now.rows) }
    {
        self.triggers.is_same(&other.triggers)
    }

    /// The triggers, to look at.
    pub fn as_triggers(&self) -> &Triggers
        ensures { result.now.rows ≡ self.now.rows }
    {
        &self.triggers
    }

    /// The last uses of the file system, in the order in which they expire.
    pub(crate) fn order_of(&self, fs: FsId) -> Part<'_>
        ensures part { IsPart result }
        ensures order { IsOrder (filter (is_of fs) self.now.rows.uses) (rows_in result) }
    {
        self.order.of_fs(&self.triggers, fs)
    }

    /// A new autofs, with the daemon's mount of it. It is not catatonic.
    pub fn add_fs(&mut self, fs: FsId, direct: bool, location: MountId) -> Result<(), Errno>
        ensures refusal { RefusedAs (add_refusal fs self.old.rows) result }
        ensures ok { OnOk result (self.new.rows ≡ with_autofs fs direct location self.old.rows) }
        ensures err { OnErr result (self.new.rows ≡ self.old.rows) }
    {
        self.triggers.add_fs(fs, direct, location)
    }

    /// Makes room for one more autofs.
    pub fn reserve_fs(&mut self) -> Result<(), Errno>
        ensures refusal { RefusedAs None result }
        ensures rows { self.new.rows ≡ self.old.rows }
        ensures room { KeepsRoom self.old self.new }
        ensures ok { OnOk result (1 ≤ self.new.autofs_room) }
    {
        self.triggers.reserve_fs()
    }

    /// A new autofs as `add_fs` adds it, for which there is room.
    pub fn add_fs_reserved(&mut self, fs: FsId, direct: bool, location: MountId)
        requires room { 1 ≤ self.old.autofs_room }
        requires fresh { add_refusal fs self.old.rows ≡ None }
        ensures rows { self.new.rows ≡ with_autofs fs direct location self.old.rows }
        ensures room { self.old.autofs_room ≡ self.new.autofs_room + 1 }
        ensures kept { self.new.use_room ≡ self.old.use_room }
    {
        self.triggers.add_fs_reserved(fs, direct, location);
    }

    /// The file system becomes catatonic, or is so no longer (autofs.rst, "Catatonic mode").
    pub fn set_catatonic(&mut self, fs: FsId, catatonic: bool) -> Result<(), Errno>
        ensures refusal { RefusedOnlyAs (catatonic_refusal fs self.old.rows) result }
        ensures ok { OnOk result (self.new.rows ≡ with_catatonic fs catatonic self.old.rows) }
        ensures err { OnErr result (self.new.rows ≡ self.old.rows) }
        ensures room { KeepsRoom self.old self.new }
    {
        self.triggers.set_catatonic(fs, catatonic)
    }

    /// Makes a directory for the daemon to mount on (autofs.rst, "Content").
    pub fn mkdir(&mut self, trigger: Trigger) -> Result<(), Errno>
        ensures refusal { RefusedAs (mkdir_refusal trigger self.old.rows) result }
        ensures ok { OnOk result (self.new.rows ≡ with_directory trigger self.old.rows) }
        ensures err { OnErr result (self.new.rows ≡ self.old.rows) }
        ensures room { KeepsRoom self.old self.new }
    {
        self.triggers.mkdir(trigger)
    }

    /// Removes a directory. When it was last used stays.
    pub fn rmdir(&mut self, trigger: &Trigger) -> Result<(), Errno>
        ensures refusal { RefusedOnlyAs (rmdir_refusal trigger.now self.old.rows) result }
        ensures ok { OnOk result (self.new.rows ≡ without_directory trigger.now self.old.rows) }
        ensures err { OnErr result (self.new.rows ≡ self.old.rows) }
        ensures room { KeepsRoom self.old self.new }
    {
        self.triggers.rmdir(trigger)
    }

    /// The trigger was used at this moment (autofs.rst, "Mountpoint expiry").
    pub fn touch(&mut self, trigger: Trigger, moment: Seconds) -> Result<(), Errno>
        ensures refusal { RefusedAs None result }
        ensures ok { OnOk result (self.new.rows ≡ used trigger moment self.old.rows) }
        ensures err { OnErr result (self.new.rows ≡ self.old.rows) }
    {
        self.reserve_uses(1)?;
        self.touch_reserved(&trigger, moment);
        Ok(())
    }

    /// Makes room for so many more last uses.
    pub fn reserve_uses(&mut self, count: usize) -> Result<(), Errno>
        ensures refusal { RefusedAs None result }
        ensures rows { self.new.rows ≡ self.old.rows }
        ensures room { KeepsRoom self.old self.new }
        ensures ok { OnOk result (count ≤ self.new.use_room) }
    {
        self.order.reserve(count)?;
        self.triggers.reserve_uses(count)?;
        Ok(())
    }

    /// The trigger was used at this moment, as `touch` has it, and there is room for that.
    pub fn touch_reserved(&mut self, trigger: &Trigger, moment: Seconds)
        requires { 1 ≤ self.old.use_room }
        ensures rows { self.new.rows ≡ used trigger.now moment self.old.rows }
        ensures room { self.old.use_room ≤ self.new.use_room + 1 }
        ensures kept { self.new.autofs_room ≡ self.old.autofs_room }
    {
        self.order.touch(&self.triggers, trigger, moment);
        self.triggers.touch_reserved(trigger, moment);
    }

    /// The triggers were used at this moment, one after another, and there is room for that: those
    /// that a walk passed.
    pub fn touch_all_reserved(&mut self, triggers: &[Trigger], moment: Seconds)
        requires { length triggers.now ≤ self.old.use_room }
        ensures rows { self.new.rows ≡ all_used triggers.now moment self.old.rows }
        ensures room { self.old.use_room ≤ self.new.use_room + length triggers.now }
        ensures kept { self.new.autofs_room ≡ self.old.autofs_room }
    {
        for trigger in triggers {
            self.touch_reserved(trigger, moment);
        }
    }
}
