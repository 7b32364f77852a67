//! The triggers of all autofs file systems.

ghost use Rattle.std.specs.Prelude.{◌≡◌, ◌<◌, ◌≤◌, ◌+◌, ◌↔◌, length, slice_get, None, IsTrue, IfOk, OnOk, OnErr};
ghost use Rattle.am_names.specs.{RefusedAs, RefusedOnlyAs};
ghost use Rattle.am_trigger.specs.Rows.{no_triggers, autofs_of, add_refusal, with_autofs, catatonic_refusal, with_catatonic, is_made, mkdir_refusal, with_directory, IsMadeToo, rmdir_refusal, without_directory, IsMadeNoMore, last_use_of, used_in, used, all_used_in, all_used, IsUsedAt};
ghost use Rattle.am_trigger.specs.Capacity.{KeepsRoom};
ghost use Rattle.indexmap.specs.IndexMap.{spare};

use crate::autofs::Autofs;
use crate::file_systems::FileSystems;
use am_names::{Errno, FsId, MountId, Name, Seconds, Trigger};
use am_ordered::{OrderedMap, are_same};
use indexmap::IndexMap;
use std::alloc::{AllocError, Global};
use std::marker::Model;

mod last_uses;

/// Each autofs, the directories that the daemon made, and when each trigger was last used
/// (autofs.rst, "Content" and "Mountpoint expiry").
#[derive(Drop)]
pub struct Triggers {
    autofs: FileSystems,
    made: OrderedMap<Trigger, ()>,
    uses: IndexMap<Trigger, Seconds>,
}

impl Model for Triggers {
    ghost use Rattle.am_trigger.specs.Capacity.{TriggerTable};

    ghost Value = { TriggerTable };

    ghost use Rattle.am_trigger.specs.View.{table_of};

    ghost view = { table_of };
}

fn use_reserved(uses: &mut IndexMap<Trigger, Seconds>, trigger: &Trigger, moment: Seconds)
    requires { 0 < spare uses.old }
    ensures entries { uses.new.entries ≡ used_in trigger.now moment uses.old.entries }
    ensures room { spare uses.old ≤ spare uses.new + 1 }
{
    // The checker wants the type of its name said too.
    let _name: Option<Name> = trigger.name;
    // There is room for it.
    let _used = uses.insert(*trigger, moment);
}

fn use_all(uses: &mut IndexMap<Trigger, Seconds>, triggers: &[Trigger], moment: Seconds)
    requires { length triggers.now ≤ spare uses.old }
    ensures entries { uses.new.entries ≡ all_used_in triggers.now moment uses.old.entries }
    ensures room { spare uses.old ≤ spare uses.new + length triggers.now }
{
    for trigger in triggers {
        use_reserved(uses, trigger, moment);
    }
}

/// The same last uses once more, with no less room.
fn copy_uses(uses: &IndexMap<Trigger, Seconds>) -> Result<IndexMap<Trigger, Seconds>, AllocError>
    ensures entries { IfOk result (λ copy. copy.entries ≡ uses.now.entries) }
    ensures room { IfOk result (λ copy. spare uses.now ≤ spare copy) }
{
    let mut copy = uses.clone()?;
    copy.reserve(uses.capacity() - uses.len())?;
    Ok(copy)
}

impl Triggers {
    /// No autofs.
    pub fn new(alloc: Global) -> Triggers
        ensures { result.rows ≡ no_triggers }
    {
        Triggers {
            autofs: FileSystems::new(alloc),
            made: OrderedMap::new(alloc),
            uses: IndexMap::new(alloc),
        }
    }

    /// The same triggers once more, with no less room.
    pub fn copy(&self, alloc: Global) -> Result<Triggers, AllocError>
        ensures rows { IfOk result (λ copy. copy.rows ≡ self.now.rows) }
        ensures room { IfOk result (KeepsRoom self.now) }
    {
        Ok(Triggers {
            autofs: self.autofs.copy()?,
            made: self.made.copy(alloc)?,
            uses: copy_uses(&self.uses)?,
        })
    }

    /// Whether both have the same file systems, directories and last uses.
    #[tactic(auto, using(am_names::proofs::SameTriggers::key_decides, crate::proofs::SameLemmas::known_by_keys))]
    pub fn is_same(&self, other: &Triggers) -> bool
        ensures { IsTrue result ↔ (self.now.rows ≡ other.now.rows) }
    {
        self.autofs.is_same(&other.autofs)
            && self.made.is_same(&other.made)
            && are_same(&self.uses, &other.uses)
    }

    /// The autofs of this number.
    pub fn autofs(&self, fs: FsId) -> Option<Autofs>
        ensures { result ≡ autofs_of self.now.rows fs }
    {
        self.autofs.get(fs)
    }

    /// A new autofs, with the daemon's mount of it. It is not catatonic.
    pub fn add_fs(&mut self, fs: FsId, direct: bool, location: MountId) -> Result<(), Errno>
        ensures refusal { RefusedAs (add_refusal fs self.old.rows) result }
        ensures ok { OnOk result (self.new.rows ≡ with_autofs fs direct location self.old.rows) }
        ensures err { OnErr result (self.new.rows ≡ self.old.rows) }
    {
        if self.autofs(fs).is_some() {
            return Err(Errno::EEXIST);
        }
        self.reserve_fs()?;
        self.add_fs_reserved(fs, direct, location);
        Ok(())
    }

    /// Makes room for one more autofs.
    pub fn reserve_fs(&mut self) -> Result<(), Errno>
        ensures refusal { RefusedAs None result }
        ensures rows { self.new.rows ≡ self.old.rows }
        ensures room { KeepsRoom self.old self.new }
        ensures ok { OnOk result (1 ≤ self.new.autofs_room) }
    {
        self.autofs.reserve()?;
        Ok(())
    }

    /// A new autofs as `add_fs` adds it, for which there is room.
    pub fn add_fs_reserved(&mut self, fs: FsId, direct: bool, location: MountId)
        requires room { 1 ≤ self.old.autofs_room }
        requires fresh { add_refusal fs self.old.rows ≡ None }
        ensures rows { self.new.rows ≡ with_autofs fs direct location self.old.rows }
        ensures room { self.old.autofs_room ≡ self.new.autofs_room + 1 }
        ensures kept { self.new.use_room ≡ self.old.use_room }
    {
        self.autofs.push_reserved(Autofs {
            fs,
            direct,
            location,
            catatonic: false,
        });
    }

    /// The file system becomes catatonic, or is so no longer (autofs.rst, "Catatonic mode").
    pub fn set_catatonic(&mut self, fs: FsId, catatonic: bool) -> Result<(), Errno>
        ensures refusal { RefusedOnlyAs (catatonic_refusal fs self.old.rows) result }
        ensures ok { OnOk result (self.new.rows ≡ with_catatonic fs catatonic self.old.rows) }
        ensures err { OnErr result (self.new.rows ≡ self.old.rows) }
        ensures room { KeepsRoom self.old self.new }
    {
        if self.autofs(fs).is_none() {
            return Err(Errno::EINVAL);
        }
        self.autofs.set_catatonic(fs, catatonic);
        Ok(())
    }

    /// Whether the daemon has made this directory.
    pub fn made(&self, trigger: &Trigger) -> bool
        ensures { result ≡ is_made self.now.rows trigger.now }
    {
        self.made.contains_key(trigger)
    }

    /// How many directories the daemon has made.
    pub fn made_count(&self) -> usize
        ensures { result ≡ length self.now.rows.made }
    {
        self.made.len()
    }

    /// The directory at this index, in order of making.
    pub fn made_at(&self, index: usize) -> Option<Trigger>
        ensures { result ≡ slice_get self.now.rows.made index }
    {
        let (trigger, _) = self.made.get_index(index)?;
        // The checker wants the type of its name said too.
        let _name: Option<Name> = trigger.name;
        Some(*trigger)
    }

    /// Makes a directory for the daemon to mount on (autofs.rst, "Content").
    pub fn mkdir(&mut self, trigger: Trigger) -> Result<(), Errno>
        ensures refusal { RefusedAs (mkdir_refusal trigger self.old.rows) result }
        ensures ok { OnOk result (self.new.rows ≡ with_directory trigger self.old.rows) }
        ensures set { OnOk result (IsMadeToo trigger self.old.rows self.new.rows) }
        ensures err { OnErr result (self.new.rows ≡ self.old.rows) }
        ensures room { KeepsRoom self.old self.new }
    {
        if self.made(&trigger) {
            return Err(Errno::EEXIST);
        }
        // The checker wants the type of its name said too.
        let _name: Option<Name> = trigger.name;
        self.made.insert(trigger, ())?;
        Ok(())
    }

    /// Removes a directory.
    pub fn rmdir(&mut self, trigger: &Trigger) -> Result<(), Errno>
        ensures refusal { RefusedOnlyAs (rmdir_refusal trigger.now self.old.rows) result }
        ensures ok { OnOk result (self.new.rows ≡ without_directory trigger.now self.old.rows) }
        ensures set { OnOk result (IsMadeNoMore trigger.now self.old.rows self.new.rows) }
        ensures err { OnErr result (self.new.rows ≡ self.old.rows) }
        ensures room { KeepsRoom self.old self.new }
    {
        if !self.made(trigger) {
            return Err(Errno::ENOENT);
        }
        let _gone = self.made.remove(trigger);
        Ok(())
    }

    /// When the trigger was last used (autofs.rst, "Mountpoint expiry").
    pub fn last_use(&self, trigger: &Trigger) -> Option<Seconds>
        ensures { result ≡ last_use_of self.now.rows trigger.now }
    {
        self.uses.get(trigger).copied()
    }

    /// The trigger was used at this moment.
    pub fn touch(&mut self, trigger: Trigger, moment: Seconds) -> Result<(), Errno>
        ensures refusal { RefusedAs None result }
        ensures ok { OnOk result (self.new.rows ≡ used trigger moment self.old.rows) }
        ensures map { OnOk result (IsUsedAt trigger moment self.old.rows self.new.rows) }
        ensures err { OnErr result (self.new.rows ≡ self.old.rows) }
    {
        // The checker wants the type of its name said too.
        let _name: Option<Name> = trigger.name;
        self.uses.insert(trigger, moment)?;
        Ok(())
    }

    /// The triggers were used at this moment, one after another, all or none: those that a walk
    /// passed.
    pub fn touch_all(&mut self, triggers: &[Trigger], moment: Seconds) -> Result<(), Errno>
        ensures refusal { RefusedAs None result }
        ensures ok { OnOk result (self.new.rows ≡ all_used triggers.now moment self.old.rows) }
        ensures err { OnErr result (self.new.rows ≡ self.old.rows) }
    {
        self.reserve_uses(triggers.len())?;
        self.touch_all_reserved(triggers, moment);
        Ok(())
    }

    /// Makes room for so many more last uses.
    pub fn reserve_uses(&mut self, count: usize) -> Result<(), Errno>
        ensures refusal { RefusedAs None result }
        ensures rows { self.new.rows ≡ self.old.rows }
        ensures room { KeepsRoom self.old self.new }
        ensures ok { OnOk result (count ≤ self.new.use_room) }
    {
        self.uses.reserve(count)?;
        Ok(())
    }

    /// The trigger was used at this moment, as `touch` has it, and there is room for that.
    pub fn touch_reserved(&mut self, trigger: &Trigger, moment: Seconds)
        requires { 1 ≤ self.old.use_room }
        ensures rows { self.new.rows ≡ used trigger.now moment self.old.rows }
        ensures room { self.old.use_room ≤ self.new.use_room + 1 }
        ensures kept { self.new.autofs_room ≡ self.old.autofs_room }
    {
        use_reserved(&mut self.uses, trigger, moment);
    }

    /// The triggers were used at this moment, as `touch_all` has it, and there is room for that.
    pub fn touch_all_reserved(&mut self, triggers: &[Trigger], moment: Seconds)
        requires { length triggers.now ≤ self.old.use_room }
        ensures rows { self.new.rows ≡ all_used triggers.now moment self.old.rows }
        ensures room { self.old.use_room ≤ self.new.use_room + length triggers.now }
        ensures kept { self.new.autofs_room ≡ self.old.autofs_room }
    {
        use_all(&mut self.uses, triggers, moment);
    }
}
