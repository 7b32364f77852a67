//! What a walk needs to know of an autofs, and where its triggers are.

ghost use Rattle.std.specs.Prelude.{◌≡◌, [], IfOk};
ghost use Rattle.am_trigger.specs.Sites.{trigger_in, place_of};

use am_names::{FsId, MountId, Place, Trigger, split_first_name};
use std::alloc::{AllocError, Global};

/// An autofs.
#[derive(Clone, Copy, Debug, PartialEq, Eq)]
pub struct Autofs {
    pub fs: FsId,
    /// Direct: its root is the one trigger. Indirect: each top-level name is one
    /// (autofs.rst, "Content").
    pub direct: bool,
    /// The daemon's mount of it.
    pub location: MountId,
    /// Whether the daemon is no more to be notified (autofs.rst, "Catatonic mode").
    pub catatonic: bool,
}

impl Autofs {
    /// The trigger at a place of this file system, if there is one.
    pub fn trigger_in(&self, place: &Place) -> Option<Trigger>
        ensures { result ≡ trigger_in self.now place.now }
    {
        let Some((name, below)) = split_first_name(place.text()) else {
            return self.direct_trigger();
        };
        if self.direct || split_first_name(below).is_some() {
            return None;
        }
        Some(Trigger {
            fs: self.fs,
            name: Some(name),
        })
    }

    fn direct_trigger(&self) -> Option<Trigger>
        ensures { result ≡ trigger_in self.now [] }
    {
        if self.direct {
            Some(Trigger {
                fs: self.fs,
                name: None,
            })
        } else {
            None
        }
    }
}

/// The place of a trigger in each mount of its file system.
pub fn place_of(alloc: Global, trigger: &Trigger) -> Result<Place, AllocError>
    ensures { IfOk result (λ place. place ≡ place_of trigger.now) }
{
    let mut place = Place::root(alloc);
    if let Some(name) = &trigger.name {
        place.push(name)?;
    }
    Ok(place)
}
