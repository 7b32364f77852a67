//! The last uses one after another.

ghost use Rattle.std.specs.Prelude.{◌≡◌, length};
ghost use Rattle.std.specs.List.{slice_get};
ghost use Rattle.std.specs.Map.Iter.{deref_pair};
ghost use Rattle.std.specs.Option.{option_map};
ghost use Rattle.am_trigger.specs.Rows.{IsUseIndex, AreOnce};

use crate::triggers::Triggers;
use am_names::{Name, Seconds, Trigger};

impl Triggers {
    /// How many triggers were used.
    pub fn use_count(&self) -> usize
        ensures { result ≡ length self.now.rows.uses }
    {
        self.uses.len()
    }

    /// A trigger with its last use, by its index in order of first use.
    pub fn use_at(&self, index: usize) -> Option<(Trigger, Seconds)>
        ensures { result ≡ slice_get self.now.rows.uses index }
    {
        let (trigger, moment) = self.uses.get_index(index)?;
        // The checker wants the type of its name said too.
        let _name: Option<Name> = trigger.name;
        Some((*trigger, *moment))
    }

    /// A trigger with its last use, as `use_at` has it, to look at where it stands.
    pub fn use_ref(&self, index: usize) -> Option<(&Trigger, &Seconds)>
        ensures { option_map deref_pair result ≡ slice_get self.now.rows.uses index }
    {
        self.uses.get_index(index)
    }

    /// The index of the trigger in order of first use, if it was used.
    pub fn use_index(&self, trigger: &Trigger) -> Option<usize>
        ensures index { IsUseIndex self.now.rows.uses trigger.now result }
        ensures unique { AreOnce self.now.rows.uses }
    {
        self.uses.get_index_of(trigger)
    }

    /// When the trigger at this index in order of first use was last used. The trigger isn't read.
    pub fn last_use_at(&self, index: usize) -> Option<Seconds>
        ensures { result ≡ option_map (λ row. row.1) (slice_get self.now.rows.uses index) }
    {
        let (_, moment) = self.uses.get_index(index)?;
        Some(*moment)
    }
}
