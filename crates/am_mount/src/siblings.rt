//! A few mounts on one parent, side by side.

ghost use Rattle.std.specs.Prelude.{◌≡◌, ◌<◌, ◌≤◌, ◌+◌, ◌-◌, ◌++◌, ◌∷◌, ◌↔◌, [], length, remove, option_map, Some, IsTrue, OnOk, IfOk, IfSome, IfNone};
ghost use Rattle.std.specs.Bool.{OnTrue};
ghost use Rattle.std.specs.List.{slice_get};
ghost use Rattle.std.specs.List.Sorted.{IsStrictlyIncreasing};
ghost use Rattle.am_mount.specs.Siblings.{mounts_of, but_child};

use am_names::MountId;
use std::alloc::{AllocError, Global};
use std::marker::Model;

/// A mount, and the bucket of the place at which it is mounted.
#[derive(Clone, Copy, Drop)]
pub struct Child {
    pub mount: MountId,
    pub bucket: u64,
}

/// Mounts in rising order, each with the bucket of its place.
#[derive(Drop)]
pub struct Siblings {
    children: Vec<Child>,
}

impl Model for Siblings {
    ghost use Rattle.am_ordered.specs.RowTable.{RowTable};
    ghost use Rattle.am_mount.specs.declared.siblings.Child.{Child};

    ghost Value = { RowTable Child };

    ghost use Rattle.am_mount.specs.SiblingsView.{table_of};

    ghost view = { λ s. table_of s.children };
}

/// So many mounts are looked through at most: more of them have an index.
const MANY: usize = 64;

impl Siblings {
    /// No mount.
    fn new(alloc: Global) -> Siblings
        ensures { result.rows ≡ [] }
    {
        Siblings {
            children: Vec::new(alloc),
        }
    }

    /// The mount, and room for another.
    pub fn one_of_two(child: Child, alloc: Global) -> Result<Siblings, AllocError>
        ensures rows { IfOk result (λ siblings. siblings.rows ≡ child ∷ []) }
        ensures room { IfOk result (λ siblings. 1 ≤ siblings.room) }
    {
        let mut siblings = Siblings::new(alloc);
        siblings.make_room(2)?;
        siblings.push_reserved(child);
        Ok(siblings)
    }

    /// The mounts with the buckets of their places.
    pub fn as_slice(&self) -> &[Child]
        ensures { result.now ≡ self.now.rows }
    {
        self.children.as_slice()
    }

    /// The mounts.
    pub fn mounts(&self, alloc: Global) -> Result<Vec<MountId>, AllocError>
        ensures { IfOk result (λ v. v.items ≡ mounts_of self.now.rows) }
    {
        let children = self.children.as_slice();
        let mut mounts = Vec::with_capacity(alloc, children.len())?;
        for child in children {
            mounts.push(child.mount)?;
        }
        Ok(mounts)
    }

    /// Whether there are as many as are looked through at most.
    pub fn are_many(&self) -> bool
        ensures { IsTrue result ↔ (64 ≤ length self.now.rows) }
    {
        self.children.len() >= MANY
    }

    /// Makes room for so many more mounts.
    pub fn make_room(&mut self, count: usize) -> Result<(), AllocError>
        ensures same { self.new.rows ≡ self.old.rows }
        ensures ok { OnOk result (count ≤ self.new.room) }
    {
        self.children.reserve(count)
    }

    /// A mount behind the others, for which there is room.
    pub fn push_reserved(&mut self, child: Child)
        requires { 1 ≤ self.old.room }
        ensures rows { self.new.rows ≡ self.old.rows ++ child ∷ [] }
        ensures room { self.old.room ≤ self.new.room + 1 }
    {
        self.children.push_reserved(child);
    }

    /// Whether the mount stands last.
    fn is_newest(&self, mount: MountId) -> bool
        ensures { OnTrue result
            (option_map (λ child. child.mount) (slice_get self.now.rows (length self.now.rows - 1)) ≡
            Some mount) }
    {
        match self.children.last() {
            Some(child) => child.mount == mount,
            None => false,
        }
    }

    /// The index of the mount in mounts that rise, at whose end the newest stands: others are found
    /// by halves.
    fn index_of(&self, mount: MountId) -> Option<usize>
        requires { IsStrictlyIncreasing (mounts_of self.now.rows) }
        ensures within { IfSome result (λ index. index < length self.now.rows) }
        ensures left { IfSome result (λ index.
            remove self.now.rows index ≡ but_child mount self.now.rows) }
        ensures none { IfNone result (but_child mount self.now.rows ≡ self.now.rows) }
    {
        let children = self.as_slice();
        if self.is_newest(mount) {
            return Some(children.len() - 1);
        }
        let number = mount.0;
        match children.binary_search_by_key(&number, |child| child.mount.0) {
            Ok(index) => Some(index),
            Err(_) => None,
        }
    }

    /// Takes the mount out of those that rise.
    pub fn take_out(&mut self, mount: MountId)
        requires { IsStrictlyIncreasing (mounts_of self.old.rows) }
        ensures { self.new.rows ≡ but_child mount self.old.rows }
    {
        if let Some(index) = self.index_of(mount) {
            let _gone = self.children.remove(index);
        }
    }
}
