//! The mounts on each parent.

ghost use Rattle.std.specs.Prelude.{◌≡◌, ◌==◌, ◌<◌, ℕ, nat_eq, [], Some, None, length, slice_get, IfOk, IfSome, IfNone};
ghost use Rattle.std.specs.Bool.{OnTrue};
ghost use Rattle.std.specs.Option.{option_copied};
ghost use Rattle.indexmap.specs.IndexMap.{get, values, IsUnique, index_map_len};
ghost use Rattle.am_mount.specs.Families.{children_of, placed_at, parent_at, AddsUnder, HasRoomAtSpot, HasRoomUnder, MayLeave, RoomFor, SameFamilies, TakesUnder};

use crate::family::Family;
use am_index::place_near;
use am_names::MountId;
use indexmap::IndexMap;
use std::alloc::{AllocError, Global};

/// For each parent the mounts on it, in rising order, and by the bucket of their place.
#[derive(Drop)]
pub struct Families {
    alloc: Global,
    families: IndexMap<u64, Family>,
    // Where the family stood that was looked up last, and that before it.
    latest: usize,
    other: usize,
}

/// Where there is room for one more mount.
#[derive(Clone, Copy)]
pub struct Spot {
    /// Where the parent's family stands.
    pub family: usize,
    /// The spot in it.
    pub place: usize,
}

impl Families {
    /// No mount.
    pub fn new(alloc: Global) -> Families
        ensures children { (m : ℕ) → children_of result m ≡ [] }
        ensures placed { (m b : ℕ) → placed_at result m b ≡ [] }
    {
        Families {
            alloc,
            families: IndexMap::new(alloc),
            latest: 0,
            other: 0,
        }
    }

    /// The mounts on this parent.
    pub fn mounts(&self, alloc: Global, parent: u64) -> Result<Vec<MountId>, AllocError>
        ensures { IfOk result (λ v. v.items ≡ children_of self.now parent) }
    {
        match self.families.get(&parent) {
            Some(family) => family.mounts(alloc),
            None => Ok(Vec::new(alloc)),
        }
    }

    /// Whether no mount is on this parent.
    pub fn is_childless(&self, parent: u64) -> bool
        ensures { result ≡ (length (children_of self.now parent) == 0) }
    {
        match self.families.get(&parent) {
            Some(family) => family.is_childless(),
            None => true,
        }
    }

    /// The family of this parent, if it has one.
    pub fn family(&self, parent: u64) -> Option<&Family>
        ensures { option_copied result ≡ get nat_eq self.now.families parent }
    {
        self.families.get(&parent)
    }

    /// A place near those of the two families that were looked up last, at which the parent's family
    /// stands: most mounts are on one parent, and others on parents one after another.
    fn place_nearby(&self, parent: u64) -> Option<usize>
        ensures unique { IfSome result (λ place. IsUnique nat_eq self.now.families) }
        ensures there { IfSome result (λ place. parent_at self.now place ≡ Some parent) }
    {
        if let Some(place) = place_near(&self.families, self.latest, parent) {
            return Some(place);
        }
        place_near(&self.families, self.other, parent)
    }

    /// The family at this place is the one that was looked up last.
    fn looked_up(&mut self, place: usize)
        ensures { self.new.families ≡ self.old.families }
    {
        if place != self.latest {
            self.other = self.latest;
            self.latest = place;
        }
    }

    /// The place of the parent's family, if it has one.
    fn place_of(&mut self, parent: u64) -> Option<usize>
        ensures families { self.new.families ≡ self.old.families }
        ensures unique { IsUnique nat_eq self.new.families }
        ensures within { IfSome result (λ place. place < index_map_len self.new.families) }
        ensures there { IfSome result (λ place. parent_at self.new place ≡ Some parent) }
        ensures none { IfNone result (get nat_eq self.new.families parent ≡ None) }
    {
        let place = match self.place_nearby(parent) {
            Some(place) => place,
            None => self.families.get_index_of(&parent)?,
        };
        self.looked_up(place);
        Some(place)
    }

    /// Begins the family of a parent that has none. The answer is its place.
    fn begin(&mut self, parent: u64) -> Result<usize, AllocError>
        requires { get nat_eq self.old.families parent ≡ None }
        ensures same { SameFamilies self.old self.new }
        ensures there { IfOk result (λ place. parent_at self.new place ≡ Some parent) }
        ensures room { IfOk result (λ place. (b spot : ℕ) →
            RoomFor (slice_get (values self.new.families) place) b spot) }
    {
        let (place, _) = self.families.insert_full(parent, Family::One(None))?;
        self.looked_up(place);
        Ok(place)
    }

    /// Makes room for one more mount on this parent, at a place of this bucket. The answer is its
    /// spot, which stands until a mount is taken out.
    pub fn make_room(&mut self, parent: u64, bucket: u64) -> Result<Spot, AllocError>
        ensures same { SameFamilies self.old self.new }
        ensures ok { IfOk result (HasRoomUnder self.new parent bucket) }
    {
        let Some(family) = self.place_of(parent) else {
            let family = self.begin(parent)?;
            return Ok(Spot { family, place: 0 });
        };
        let place = self.families[family].make_room(self.alloc, bucket)?;
        Ok(Spot { family, place })
    }

    /// Adds a mount at this spot, where there is room for it.
    pub fn add(&mut self, spot: Spot, bucket: u64, mount: MountId)
        requires { HasRoomAtSpot self.old bucket spot }
        ensures { (m : ℕ) → parent_at self.old spot.family ≡ Some m →
            AddsUnder m bucket mount self.old self.new }
    {
        if let Some(family) = self.families.get_index_mut(spot.family) {
            family.add(spot.place, bucket, mount);
        }
    }

    /// Takes out a mount on this parent that is at a place of this bucket. A family that is empty
    /// then goes.
    pub fn remove(&mut self, parent: u64, bucket: u64, mount: MountId)
        requires { MayLeave parent bucket mount self.old }
        ensures { TakesUnder parent bucket mount self.old self.new }
    {
        let Some(place) = self.place_of(parent) else {
            return;
        };
        let family = &mut self.families[place];
        family.take_out(bucket, mount);
        if family.is_empty() {
            let _gone = self.families.swap_remove_index(place);
        }
    }
}
