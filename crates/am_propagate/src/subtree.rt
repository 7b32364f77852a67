//! All mounts with their propagation.

ghost use Rattle.std.specs.Prelude.{◌≡◌, ◌↔◌, None, IsTrue, IfOk, OnOk, OnErr};
ghost use Rattle.am_names.specs.{RefusedAs};
ghost use Rattle.am_group.specs.{AddsNoReceivers, FollowsTable, change_refusal};
ghost use Rattle.am_propagate.specs.Changed.{with_change};
ghost use Rattle.am_propagate.specs.MountTable.{opening, is_mount, lacks_mounts, lacks_groups};
ghost use Rattle.am_propagate.specs.Invariant.{IsWhole};

use am_group::{Change, Groups};
use am_mount::Tree;
use am_names::{Errno, FsId, Membership, MountId, MountRow, NsId};
use std::alloc::{AllocError, Global};
use std::marker::Model;

mod addition;
mod joining;
mod namespace;
mod removal;
mod stand_ins;

pub use crate::subtree::namespace::{CopyForm, NewNamespace};

/// The mounts of all namespaces, and how they take part in propagation (sharedsubtree.rst, 5).
#[derive(Drop)]
pub struct Subtree {
    tree: Tree,
    groups: Groups,
    last_mount: u64,
    last_ns: u32,
    limit: u64,
}

impl Model for Subtree {
    ghost use Rattle.am_propagate.specs.MountTable.{MountTable};

    ghost Value = { MountTable };

    ghost use Rattle.am_propagate.specs.Invariant.{IsWhole};
    ghost use Rattle.am_propagate.specs.View.{table_of};

    ghost view = { table_of };

    ghost invariant = { λ s. IsWhole (table_of s) };
}

impl Subtree {
    /// Namespace 0 with mount 1 as its root. No mount gets a number above the limit.
    pub fn new(alloc: Global, limit: u64) -> Result<Subtree, Errno>
        ensures refusal { RefusedAs None result }
        ensures ok { IfOk result (λ subtree. subtree ≡ opening limit) }
    {
        let mut rows = Vec::new(alloc);
        rows.push(MountRow {
            mount: MountId(1),
            ns: NsId(0),
            fs: FsId(1),
            origin: MountId(1),
            mountpoint: None,
        })?;
        let mut tree = Tree::new(alloc);
        tree.add_all(rows)?;
        let mut groups = Groups::new(alloc);
        groups.add(MountId(1), Membership::Private)?;
        Ok(Subtree {
            tree,
            groups,
            last_mount: 1,
            last_ns: 0,
            limit,
        })
    }

    /// The same mounts with the same propagation once more.
    pub fn copy(&self, alloc: Global) -> Result<Subtree, AllocError>
        ensures { IfOk result (λ copy. copy ≡ self.now) }
    {
        Ok(Subtree {
            tree: self.tree.copy(alloc)?,
            groups: self.groups.copy(alloc)?,
            last_mount: self.last_mount,
            last_ns: self.last_ns,
            limit: self.limit,
        })
    }

    /// Whether both have the same mounts with the same propagation, and give the same numbers next.
    pub fn is_same(&self, other: &Subtree) -> bool
        ensures { IsTrue result ↔ (self.now ≡ other.now) }
    {
        self.last_mount == other.last_mount
            && self.last_ns == other.last_ns
            && self.limit == other.limit
            && self.tree.is_same(&other.tree)
            && self.groups.is_same(&other.groups)
    }

    /// The mount rows.
    pub fn tree(&self) -> &Tree
        ensures rows { result.now ≡ self.now.rows }
        ensures whole { IsWhole self.now }
    {
        &self.tree
    }

    /// The propagation of the same mounts.
    pub fn groups(&self) -> &Groups
        ensures { result.now ≡ self.now.groups }
    {
        &self.groups
    }

    /// The greatest number that was given to a mount.
    pub fn last_mount(&self) -> MountId
        ensures { result ≡ self.now.last_mount }
    {
        MountId(self.last_mount)
    }

    /// The greatest number that was given to a namespace.
    pub fn last_ns(&self) -> NsId
        ensures { result ≡ self.now.last_ns }
    {
        NsId(self.last_ns)
    }

    /// Changes the mount's state (sharedsubtree.rst, 5a).
    pub fn change(&mut self, change: Change, mount: MountId) -> Result<(), Errno>
        ensures refusal { RefusedAs (change_refusal change mount self.old.groups) result }
        ensures ok { OnOk result (self.new ≡ with_change change mount self.old) }
        ensures table { OnOk result (FollowsTable change mount self.old.groups self.new.groups) }
        ensures err { OnErr result (self.new ≡ self.old) }
        ensures law { AddsNoReceivers self.old.groups self.new.groups }
    {
        self.groups.change(change, mount)?;
        Ok(())
    }

    /// Watches a file system of which there was no mount yet: `mounts_with` of the tree knows its
    /// mounts from now on. Of another nothing comes.
    pub fn watch(&mut self, fs: FsId) -> Result<(), AllocError>
        ensures { self.new ≡ self.old }
    {
        self.tree.watch(fs)
    }

    fn is_mount(&self, mount: MountId) -> bool
        ensures { result ≡ is_mount self.now mount }
    {
        self.tree.row(mount).is_some()
    }

    /// Whether so many more mounts would go past the limit.
    fn lacks_mounts(&self, count: usize) -> bool
        ensures { result ≡ lacks_mounts count self.now }
    {
        if self.limit < self.last_mount {
            return true;
        }
        self.limit - self.last_mount < count as u64
    }

    /// Whether there are no numbers for so many more peer groups.
    fn lacks_groups(&self, count: usize) -> bool
        ensures { result ≡ lacks_groups count self.now }
    {
        u64::MAX - self.groups.last_group().0 < count as u64
    }
}
