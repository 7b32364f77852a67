//! Mounts and binds, with the copies on the mounts that receive them.

ghost use Rattle.std.specs.Prelude.{◌≡◌, ◌+◌, ◌^◌, ◌<◌, ◌∷◌, ◌++◌, [], true, false, length, Some, None, IfOk, OnOk, OnErr};
ghost use Rattle.std.specs.List.{slice_get};
ghost use Rattle.am_names.specs.{RefusedAs};
ghost use Rattle.am_group.specs.{AddsNoReceivers, group_of, receivers_of};
ghost use Rattle.am_names.specs.declared.membership.Membership.TheVariants.{Private};
ghost use Rattle.am_mount.specs.{mount_row};
ghost use Rattle.am_propagate.specs.MountTable.{is_mount, all_mounts};
ghost use Rattle.am_propagate.specs.Coming.{AddsMounts};
ghost use Rattle.am_propagate.specs.Copying.{AreBelow, AreThere};
ghost use Rattle.am_propagate.specs.GroupsOfCopies.{Joins};
ghost use Rattle.am_propagate.specs.Joining.{others_of};
ghost use Rattle.am_propagate.specs.ReceiverCopies.{ComesWithCopies, BindsWithCopies};
ghost use Rattle.am_propagate.specs.Added.{ns_in, membership_of, is_unbindable, fresh_count, numbers_after, new_mounts, mounts_made, made_beside, mount_refusal, bind_refusal, mounted, bound, numbers_refusal, HasSource};

use crate::subtree::Subtree;
use am_mount::Tree;
use am_names::{Errno, FsId, GroupId, Membership, MountId, MountRow, NsId, Place, Position};
use std::alloc::{AllocError, Global};

fn is_unbindable(membership: &Membership) -> bool
    ensures { result ≡ is_unbindable membership.now }
{
    match membership {
        Membership::Unbindable => true,
        Membership::InGroup(_) | Membership::SlaveOf(_) | Membership::Private => false,
    }
}

fn fresh_count(membership: &Membership) -> usize
    ensures { result ≡ fresh_count membership.now }
{
    match membership {
        Membership::InGroup(_) => 0,
        Membership::SlaveOf(_) | Membership::Private | Membership::Unbindable => 1,
    }
}

/// So many mounts in rising order, from the one behind this number on.
pub fn numbers_after(alloc: Global, last: u64, count: usize) -> Result<Vec<MountId>, AllocError>
    requires { last + count < 2 ^ 64 }
    ensures { IfOk result (λ v. v.items ≡ numbers_after last count) }
{
    let mut mounts = Vec::with_capacity(alloc, count)?;
    let mut number = last;
    for _ in 0..count {
        number += 1;
        mounts.push(MountId(number))?;
    }
    Ok(mounts)
}

fn ns_of(tree: &Tree, mount: MountId) -> NsId
    ensures { result ≡ ns_in (mount_row tree.now mount) }
{
    match tree.row(mount) {
        Some(row) => row.ns,
        None => NsId(0),
    }
}

/// Adds a mount at the place of this parent, in the parent's namespace, behind the others.
fn add_row_at(
    tree: &mut Tree,
    alloc: Global,
    place: &Place,
    parent: MountId,
    fs: FsId,
    origin: MountId,
    number: MountId,
) -> Result<(), AllocError>
    requires { AreBelow number tree.old }
    ensures ok { OnOk result
        (AddsMounts place.now fs origin number (parent ∷ []) tree.old tree.new) }
    ensures err { OnErr result (tree.new ≡ tree.old) }
{
    // For the checker: that the rows rise is known where they are lent.
    let _rows = tree.rows();
    let row = MountRow {
        mount: number,
        ns: ns_of(tree, parent),
        fs,
        origin,
        mountpoint: Some(Position {
            mount: parent,
            place: place.copy(alloc)?,
        }),
    };
    tree.add(row)
}

/// Adds a mount at the position, and copies of it at the same place of the receivers, which have
/// the following numbers, all or none.
fn add_rows_at(
    tree: &mut Tree,
    alloc: Global,
    at: &Position,
    fs: FsId,
    mount: MountId,
    receivers: &[MountId],
) -> Result<(), AllocError>
    requires numbers { mount + length receivers.now < 2 ^ 64 }
    requires above { AreBelow mount tree.old }
    requires there { AreThere (at.now.mount ∷ receivers.now) tree.old }
    ensures ok { OnOk result (AddsMounts at.now.place fs mount mount
        (at.now.mount ∷ receivers.now) tree.old tree.new) }
    ensures err { OnErr result (tree.new ≡ tree.old) }
{
    add_row_at(tree, alloc, &at.place, at.mount, fs, mount, mount)?;
    let first = mount.0;
    for index in 0..receivers.len() {
        let number = MountId(first + index as u64 + 1);
        if let Err(error) = add_row_at(
            tree,
            alloc,
            &at.place,
            receivers[index],
            fs,
            mount,
            number,
        ) {
            tree.take_back(index + 1);
            return Err(error);
        }
    }
    Ok(())
}

impl Subtree {
    /// How many peer groups a mount on the mount `at` makes.
    fn groups_made(&self, at: MountId, membership: &Membership, others: &[GroupId]) -> usize
        ensures { result ≡ made_beside membership.now (group_of self.now.groups at) others.now }
    {
        match self.groups.group_of(at) {
            Some(_) => others.len() + fresh_count(membership),
            None => 0,
        }
    }

    /// The groups, beside that of the mount `at`, in which mounts are that receive from it, where
    /// numbers are left for a mount on it with its copies, and for their peer groups.
    fn numbered_others(
        &self,
        alloc: Global,
        at: MountId,
        membership: &Membership,
        receivers: &[MountId],
    ) -> Result<Vec<GroupId>, Errno>
        requires { receivers.now ≡ receivers_of self.now.groups at }
        ensures refusal { RefusedAs (numbers_refusal at membership.now self.now) result }
        ensures others { IfOk result (λ v. v.items ≡
            others_of self.now.groups receivers.now (group_of self.now.groups at)) }
        ensures left { OnOk result (numbers_refusal at membership.now self.now ≡ None) }
    {
        if self.lacks_mounts(receivers.len() + 1) {
            return Err(Errno::ENOSPC);
        }
        let others = self.others(alloc, at, receivers)?;
        if self.lacks_groups(self.groups_made(at, membership, others.as_slice())) {
            return Err(Errno::ENOSPC);
        }
        Ok(others)
    }

    /// Adds the rows of a mount of this file system, and those of its copies on the receivers.
    fn add_with(
        &mut self,
        alloc: Global,
        at: &Position,
        fs: FsId,
        membership: Membership,
        receivers: &[MountId],
        others: Vec<GroupId>,
    ) -> Result<(), AllocError>
        requires there { is_mount self.old at.now.mount ≡ true }
        requires source { HasSource self.old fs membership }
        requires receivers { receivers.now ≡ receivers_of self.old.groups at.now.mount }
        requires others { others.items ≡
            others_of self.old.groups receivers.now (group_of self.old.groups at.now.mount) }
        requires left { numbers_refusal at.now.mount membership self.old ≡ None }
        ensures ok { OnOk result (self.new ≡ mounted at.now fs membership self.old) }
        ensures err { OnErr result (self.new ≡ self.old) }
    {
        let mount = MountId(self.last_mount + 1);
        let joining = self.joining(alloc, at.mount, membership, mount, receivers, others)?;
        add_rows_at(&mut self.tree, alloc, at, fs, mount, receivers)?;
        let count = receivers.len() + 1;
        if let Err(error) = self.groups.add_all(joining.members, joining.groups) {
            self.tree.take_back(count);
            return Err(error);
        }
        self.last_mount += count as u64;
        Ok(())
    }

    /// Adds a mount of this file system, of whose source the membership tells, with its copies.
    fn add_at(
        &mut self,
        alloc: Global,
        at: &Position,
        fs: FsId,
        membership: Membership,
    ) -> Result<Vec<MountId>, Errno>
        requires there { is_mount self.old at.now.mount ≡ true }
        requires source { HasSource self.old fs membership }
        requires bindable { is_unbindable membership ≡ false }
        ensures refusal { RefusedAs (numbers_refusal at.now.mount membership self.old) result }
        ensures made { IfOk result (λ v. v.items ≡
            new_mounts self.old (mounts_made at.now.mount self.old)) }
        ensures first { IfOk result (λ v. slice_get v.items 0 ≡ Some (self.old.last_mount + 1)) }
        ensures came { IfOk result (λ v. all_mounts self.new ≡ all_mounts self.old ++ v.items) }
        ensures ok { OnOk result (self.new ≡ mounted at.now fs membership self.old) }
        ensures copies { OnOk result
            (ComesWithCopies at.now fs (self.old.last_mount + 1) self.old self.new) }
        ensures groups { OnOk result
            (Joins membership at.now.mount (self.old.last_mount + 1) self.old self.new) }
        ensures err { OnErr result (self.new ≡ self.old) }
        ensures law { AddsNoReceivers self.old.groups self.new.groups }
    {
        let receivers = self.groups.receivers(alloc, at.mount)?;
        let receivers = receivers.as_slice();
        let others = self.numbered_others(alloc, at.mount, &membership, receivers)?;
        let mounts = numbers_after(alloc, self.last_mount, receivers.len() + 1)?;
        self.add_with(alloc, at, fs, membership, receivers, others)?;
        Ok(mounts)
    }

    /// Mounts a new file system at the position, and copies of it at the same place of each mount
    /// that receives from the position's (sharedsubtree.rst, 5e). The answer tells all that came,
    /// in rising order: the mount itself first, which has the next number, then its copies.
    pub fn mount(&mut self, alloc: Global, at: &Position, fs: FsId) -> Result<Vec<MountId>, Errno>
        ensures refusal { RefusedAs (mount_refusal at.now.mount self.old) result }
        ensures made { IfOk result (λ v. v.items ≡
            new_mounts self.old (mounts_made at.now.mount self.old)) }
        ensures first { IfOk result (λ v. slice_get v.items 0 ≡ Some (self.old.last_mount + 1)) }
        ensures came { IfOk result (λ v. all_mounts self.new ≡ all_mounts self.old ++ v.items) }
        ensures ok { OnOk result (self.new ≡ mounted at.now fs Private self.old) }
        ensures copies { OnOk result
            (ComesWithCopies at.now fs (self.old.last_mount + 1) self.old self.new) }
        ensures groups { OnOk result
            (Joins Private at.now.mount (self.old.last_mount + 1) self.old self.new) }
        ensures err { OnErr result (self.new ≡ self.old) }
        ensures law { AddsNoReceivers self.old.groups self.new.groups }
    {
        if !self.is_mount(at.mount) {
            return Err(Errno::EINVAL);
        }
        self.add_at(alloc, at, fs, Membership::Private)
    }

    fn membership_of(&self, mount: MountId) -> Membership
        ensures { result ≡ membership_of self.now mount }
    {
        match self.groups.member(mount) {
            Some(row) => row.membership,
            None => Membership::Private,
        }
    }

    /// Mounts at the position what the source has mounted, with copies as `mount` makes them, and
    /// tells all that came as `mount` does (sharedsubtree.rst, 5b).
    pub fn bind(
        &mut self,
        alloc: Global,
        source: MountId,
        at: &Position,
    ) -> Result<Vec<MountId>, Errno>
        ensures refusal { RefusedAs (bind_refusal source at.now.mount self.old) result }
        ensures made { IfOk result (λ v. v.items ≡
            new_mounts self.old (mounts_made at.now.mount self.old)) }
        ensures first { IfOk result (λ v. slice_get v.items 0 ≡ Some (self.old.last_mount + 1)) }
        ensures came { IfOk result (λ v. all_mounts self.new ≡ all_mounts self.old ++ v.items) }
        ensures ok { OnOk result (self.new ≡ bound source at.now self.old) }
        ensures copies { OnOk result
            (BindsWithCopies source at.now (self.old.last_mount + 1) self.old self.new) }
        ensures groups { OnOk result
            (Joins (membership_of self.old source) at.now.mount (self.old.last_mount + 1)
            self.old self.new) }
        ensures err { OnErr result (self.new ≡ self.old) }
        ensures law { AddsNoReceivers self.old.groups self.new.groups }
    {
        let Some(row) = self.tree.row(source) else {
            return Err(Errno::EINVAL);
        };
        let fs = row.fs;
        let membership = self.membership_of(source);
        if is_unbindable(&membership) {
            return Err(Errno::EINVAL);
        }
        if !self.is_mount(at.mount) {
            return Err(Errno::EINVAL);
        }
        self.add_at(alloc, at, fs, membership)
    }
}
