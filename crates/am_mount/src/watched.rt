//! The mounts of file systems that are watched.

ghost use Rattle.std.specs.Prelude.{◌≡◌, ◌<◌, ◌≤◌, ℕ, nat_eq, [], Some, None, OnOk, OnErr, IfOk, IfSome, IfNone};
ghost use Rattle.am_mount.specs.Watched.{watched, AddsWatched, RisesIfAny, RoomIfWatched, SameWatched, TakesWatched, Watches};

use crate::few::take_out;
use am_names::MountId;
use am_ordered::Rows;
use indexmap::IndexMap;
use std::alloc::{AllocError, Global};

/// For each file system that is watched its mounts, in rising order.
#[derive(Drop)]
pub struct Watched {
    alloc: Global,
    lists: IndexMap<u64, Rows<MountId>>,
    // No mount was ever of a file system from this number on.
    next: u64,
}

impl Watched {
    /// No mount, and nothing is watched.
    pub fn new(alloc: Global) -> Watched
        ensures { (fs : ℕ) → watched result fs ≡ None }
    {
        Watched {
            alloc,
            lists: IndexMap::new(alloc),
            next: 0,
        }
    }

    /// The mounts of the file system, if it is watched.
    pub fn list(&self, fs: u64) -> Option<&[MountId]>
        ensures some { IfSome result (λ mounts. watched self.now fs ≡ Some mounts.now) }
        ensures none { IfNone result (watched self.now fs ≡ None) }
    {
        let mounts = self.lists.get(&fs)?;
        Some(mounts.as_slice())
    }

    /// Watches a file system of which there was no mount yet. Of another nothing comes.
    pub fn watch(&mut self, fs: u64) -> Result<(), AllocError>
        ensures { Watches self.old self.new }
    {
        if fs < self.next || self.lists.contains_key(&fs) {
            return Ok(());
        }
        self.lists.insert(fs, Rows::new(self.alloc))?;
        Ok(())
    }

    /// Watches the file systems that another one watches.
    #[tactic(auto, using(crate::proofs::WatchedLemmas::watched_yet, crate::proofs::WatchedLemmas::watched_too))]
    pub fn watch_all(&mut self, other: &Watched) -> Result<(), AllocError>
        ensures { Watches self.old self.new }
    {
        for place in 0..other.lists.len() {
            if let Some((fs, _)) = other.lists.get_index(place) {
                self.watch(*fs)?;
            }
        }
        Ok(())
    }

    /// Makes room for one more mount of the file system, if it is watched. The answer is the place
    /// of its list.
    pub fn make_room(&mut self, fs: u64) -> Result<Option<usize>, AllocError>
        ensures same { SameWatched self.old self.new }
        ensures ok { IfOk result (RoomIfWatched self.new fs) }
    {
        let Some(place) = self.lists.get_index_of(&fs) else {
            return Ok(None);
        };
        self.lists[place].reserve(1)?;
        Ok(Some(place))
    }

    /// Adds a mount of the file system, to the list at this place if it is watched.
    pub fn add(&mut self, fs: u32, place: Option<usize>, mount: MountId)
        requires { RoomIfWatched self.old fs place }
        ensures { AddsWatched fs mount self.old self.new }
    {
        self.next = self.next.max(fs as u64 + 1);
        let Some(place) = place else {
            return;
        };
        if let Some(mounts) = self.lists.get_index_mut(place) {
            mounts.push_reserved(mount);
        }
    }

    /// Takes out a mount of the file system, whose list rises.
    pub fn remove(&mut self, fs: u64, mount: MountId)
        requires { RisesIfAny (watched self.old fs) }
        ensures { TakesWatched fs mount self.old self.new }
    {
        if let Some(mounts) = self.lists.get_mut(&fs) {
            take_out(mounts, mount);
        }
    }
}
