//! The mounts on a parent.

ghost use Rattle.std.specs.Prelude.{◌≡◌, ◌==◌, ◌≤◌, ◌⊎◌, ℕ, length, nat_eq, [], ◌∷◌, ◌++◌, Some, None, option_map, OnOk, IfOk};
ghost use Rattle.std.specs.Bool.{OnTrue};
ghost use Rattle.am_mount.specs.Index.{listed, number_at, AddsTo, HasRoom, HasRoomAt, SameLists};
ghost use Rattle.am_mount.specs.Family.{children_in, placed_in, AddsChild, HasRoomFor, MayGo, SameChildren, TakesChild};
ghost use Rattle.am_mount.specs.Siblings.{mounts_of, placed_of};

use crate::few::take_out;
use crate::index::Index;
use crate::siblings::{Child, Siblings};
use am_names::MountId;
use am_ordered::Rows;
use std::alloc::{AllocError, Global};

/// Mounts in rising order, and by the bucket of their place.
#[derive(Drop)]
pub struct Several {
    pub mounts: Rows<MountId>,
    pub places: Index,
}

/// The mounts on one parent. One alone takes no memory of its own, and neither does none.
#[derive(Drop)]
pub enum Family {
    /// The mount, if there is one.
    One(Option<Child>),
    /// Two or more, or those that are left of them: all are looked through.
    Siblings(Siblings),
    /// Many, or those that are left of them: their buckets have an index.
    Many(Box<Several>),
}

/// Takes the mount out, if it is this one.
fn take_one_out(one: &mut Option<Child>, mount: MountId)
    ensures gone { option_map (λ child. child.mount) one.old ≡ Some mount → one.new ≡ None }
    ensures same { option_map (λ child. child.mount) one.old ≡ Some mount ⊎ (one.new ≡ one.old) }
{
    if let Some(child) = *one {
        if child.mount == mount {
            *one = None;
        }
    }
}

impl Several {
    /// Makes room for one more mount at a place of this bucket. The answer is its spot.
    fn make_room(&mut self, bucket: u64) -> Result<usize, AllocError>
        ensures mounts { self.new.mounts.rows ≡ self.old.mounts.rows }
        ensures places { SameLists self.old.places self.new.places }
        ensures room { OnOk result (1 ≤ self.new.mounts.room) }
        ensures spot { IfOk result (HasRoom self.new.places bucket) }
    {
        self.mounts.reserve(1)?;
        self.places.make_room(bucket)
    }

    /// A mount behind the others, for which there is room at this spot.
    fn add(&mut self, spot: usize, mount: MountId)
        requires room { 1 ≤ self.old.mounts.room }
        requires spot { HasRoomAt self.old.places spot }
        ensures mounts { self.new.mounts.rows ≡ self.old.mounts.rows ++ mount ∷ [] }
        ensures places { (b : ℕ) → number_at self.old.places spot ≡ Some b →
            AddsTo (λ n. nat_eq b n) mount self.old.places self.new.places }
    {
        self.mounts.push_reserved(mount);
        self.places.add(spot, mount);
    }

    /// A mount behind the others.
    fn push(&mut self, child: Child) -> Result<(), AllocError>
        ensures mounts { OnOk result
            (self.new.mounts.rows ≡ self.old.mounts.rows ++ child.mount ∷ []) }
        ensures places { OnOk result
            (AddsTo (λ b. nat_eq child.bucket b) child.mount self.old.places self.new.places) }
    {
        let spot = self.make_room(child.bucket)?;
        self.add(spot, child.mount);
        Ok(())
    }
}

/// The same mounts, by the bucket of their place, and room for one more at a place of this bucket,
/// with the spot of that.
fn many_of(siblings: &Siblings, bucket: u64, alloc: Global) -> Result<(Several, usize), AllocError>
    ensures mounts { IfOk result (λ made. made.0.mounts.rows ≡ mounts_of siblings.now.rows) }
    ensures placed { IfOk result (λ made. (b : ℕ) →
        listed made.0.places b ≡ placed_of siblings.now.rows b) }
    ensures room { IfOk result (λ made. 1 ≤ made.0.mounts.room) }
    ensures spot { IfOk result (λ made. HasRoom made.0.places bucket made.1) }
{
    let mut several = Several {
        mounts: Rows::new(alloc),
        places: Index::new(alloc),
    };
    for child in siblings.as_slice() {
        several.push(*child)?;
    }
    let spot = several.make_room(bucket)?;
    Ok((several, spot))
}

impl Family {
    /// The mounts.
    pub fn mounts(&self, alloc: Global) -> Result<Vec<MountId>, AllocError>
        ensures { IfOk result (λ v. v.items ≡ children_in self.now) }
    {
        match self {
            Family::One(None) => Ok(Vec::new(alloc)),
            Family::One(Some(child)) => Vec::from_slice(alloc, std::slice::from_ref(&child.mount)),
            Family::Siblings(siblings) => siblings.mounts(alloc),
            Family::Many(several) => Vec::from_slice(alloc, several.mounts.as_slice()),
        }
    }

    /// Whether no mount is on the parent.
    pub fn is_childless(&self) -> bool
        ensures { result ≡ (length (children_in self.now) == 0) }
    {
        match self {
            Family::One(child) => child.is_none(),
            Family::Siblings(siblings) => siblings.as_slice().is_empty(),
            Family::Many(several) => several.mounts.as_slice().is_empty(),
        }
    }

    /// Whether there is no mount.
    pub fn is_empty(&self) -> bool
        ensures children { OnTrue result (children_in self.now ≡ []) }
        ensures placed { OnTrue result ((b : ℕ) → placed_in self.now b ≡ []) }
    {
        match self {
            Family::One(child) => child.is_none(),
            Family::Siblings(siblings) => siblings.as_slice().is_empty(),
            Family::Many(several) => several.mounts.as_slice().is_empty()
                && several.places.is_empty(),
        }
    }

    /// Makes room for one more mount at a place of this bucket. The answer is its spot, which stands
    /// until a mount is taken out.
    pub fn make_room(&mut self, alloc: Global, bucket: u64) -> Result<usize, AllocError>
        ensures same { SameChildren self.old self.new }
        ensures ok { IfOk result (HasRoomFor self.new bucket) }
    {
        match self {
            Family::One(None) => Ok(0),
            Family::One(Some(child)) => {
                let siblings = Siblings::one_of_two(*child, alloc)?;
                *self = Family::Siblings(siblings);
                Ok(0)
            }
            Family::Siblings(siblings) => {
                if siblings.are_many() {
                    let (several, spot) = many_of(siblings, bucket, alloc)?;
                    *self = Family::Many(Box::new(alloc, several)?);
                    return Ok(spot);
                }
                siblings.make_room(1)?;
                Ok(0)
            }
            Family::Many(several) => several.make_room(bucket),
        }
    }

    /// A mount behind the others, at a place of this bucket, for which there is room at this spot.
    pub fn add(&mut self, spot: usize, bucket: u64, mount: MountId)
        requires { HasRoomFor self.old bucket spot }
        ensures { AddsChild bucket mount self.old self.new }
    {
        match self {
            Family::One(one) => *one = Some(Child { mount, bucket }),
            Family::Siblings(siblings) => siblings.push_reserved(Child { mount, bucket }),
            Family::Many(several) => several.add(spot, mount),
        }
    }

    /// Takes out a mount that is at a place of this bucket.
    pub fn take_out(&mut self, bucket: u64, mount: MountId)
        requires { MayGo bucket mount self.old }
        ensures { TakesChild bucket mount self.old self.new }
    {
        match self {
            Family::One(one) => take_one_out(one, mount),
            Family::Siblings(siblings) => siblings.take_out(mount),
            Family::Many(several) => {
                let several = &mut **several;
                take_out(&mut several.mounts, mount);
                several.places.remove(bucket, mount);
            }
        }
    }
}
