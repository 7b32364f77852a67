//! What a walk looks at.

ghost use Rattle.std.specs.Prelude.{◌≡◌};
ghost use Rattle.am_walk.specs.View.{scene_in};
ghost use Rattle.am_walk.specs.Scene.{autofs_at, has_names};

use am_mount::Tree;
use am_names::{FailNo, MountId, Place, Trigger, split_first_name};
use am_trigger::{Autofs, Lasting, Triggers};
use am_wait::Waits;

/// The mounts, the mount traps, the open tokens, and the failures that last.
#[derive(Clone, Copy)]
pub struct View<'a> {
    pub tree: &'a Tree,
    pub triggers: &'a Triggers,
    /// None where the mount traps are off.
    pub waits: Option<&'a Waits>,
    /// None there too.
    pub lasting: Option<Lasting<'a>>,
}

/// Whether there are names below a place.
pub fn has_names(row: Option<Autofs>, place: &Place) -> bool
    ensures { result ≡ has_names row place.now }
{
    match row {
        None => true,
        Some(row) => !row.direct && split_first_name(place.text()).is_none(),
    }
}

impl View<'_> {
    /// The error of what failed at a trigger, while that lasts.
    pub fn error(&self, trigger: &Trigger) -> Option<FailNo>
        ensures { result ≡ (scene_in self.now).failing trigger.now }
    {
        match &self.lasting {
            Some(lasting) => lasting.error(trigger),
            None => None,
        }
    }

    /// The autofs of which a mount is a mount, if it is one.
    pub fn autofs_at(&self, mount: MountId) -> Option<Autofs>
        ensures { result ≡ autofs_at (scene_in self.now) mount }
    {
        let row = self.tree.row(mount)?;
        self.triggers.autofs(row.fs)
    }
}
