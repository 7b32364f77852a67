//! Copies of namespaces.

ghost use Rattle.std.specs.Prelude.{◌≡◌, ◌+◌, ◌^◌, ◌<◌, ◌≤◌, ◌∷◌, ◌++◌, [], Some, length, option_map, IfOk, IfSome, OnOk, OnErr};
ghost use Rattle.std.specs.Option.{option_to_list};
ghost use Rattle.std.specs.List.Sorted.{IsStrictlyIncreasing};
ghost use Rattle.am_names.specs.{RefusedAs};
ghost use Rattle.am_group.specs.{AddsNoReceivers, IsOrderly, all_added, member_row};
ghost use Rattle.am_mount.specs.{mount_row};
ghost use Rattle.am_propagate.specs.MountTable.{all_mounts};
ghost use Rattle.am_propagate.specs.Added.{new_mounts};
ghost use Rattle.am_propagate.specs.Removed.{mounts_in};
ghost use Rattle.am_propagate.specs.Copying.{AreBelow, AreJoined, AreThere, member_as, rows_in, members_in, with_copies};
ghost use Rattle.am_propagate.specs.Invariant.{IsWhole};
ghost use Rattle.am_propagate.specs.NamespaceCopies.{AreCopies};
ghost use Rattle.am_propagate.specs.Namespaces.{count_up_to, copy_number, row_in, copy_refusal, with_copy};

use crate::subtree::Subtree;
use crate::subtree::addition::numbers_after;
use am_group::Groups;
use am_mount::Tree;
use am_names::{Errno, MemberRow, Membership, MountId, MountRow, NsId, Position};
use std::alloc::{AllocError, Global};

/// How the mounts of a namespace's copy are joined to those that they are copies of.
#[derive(Clone, Copy, PartialEq, Eq)]
pub enum CopyForm {
    /// The copy of a shared mount is its peer (sharedsubtree.rst, 5g).
    Full,
    /// The copy of a shared mount is a slave of its peer group, so that nothing propagates back
    /// (mount_namespaces(7), "Restrictions on mount namespaces").
    Reduced,
}

impl CopyForm {
    /// The row of a copy of this number, from that of its source.
    fn of(self, row: MemberRow, number: MountId) -> MemberRow
        ensures { result ≡ member_as self number row }
    {
        let membership = match (self, row.membership) {
            (CopyForm::Reduced, Membership::InGroup(group)) => Membership::SlaveOf(group),
            (CopyForm::Full | CopyForm::Reduced, same) => same,
        };
        membership.row(number)
    }
}

/// A namespace that was made, with its mounts in rising order.
#[derive(Drop)]
pub struct NewNamespace {
    pub ns: NsId,
    pub mounts: Vec<MountId>,
}

/// How many of these mounts, which rise, have no higher number, where the mount is one of them and
/// they are numbered one after another up to it, as the mounts of a copy are.
fn count_by_number(mount: MountId, mounts: &[MountId]) -> Option<usize>
    requires { IsStrictlyIncreasing mounts.now }
    ensures count { IfSome result (λ count. count ≡ count_up_to mount mounts.now) }
    ensures within { IfSome result (λ count. count ≤ length mounts.now) }
{
    let first = mounts.first()?;
    let place = mount.0.saturating_sub(first.0) as usize;
    let found = mounts.get(place)?;
    if *found == mount {
        Some(place + 1)
    } else {
        None
    }
}

/// How many of these mounts, which rise, have no higher number.
fn count_up_to(mount: MountId, mounts: &[MountId]) -> usize
    requires { IsStrictlyIncreasing mounts.now }
    ensures count { result ≡ count_up_to mount mounts.now }
    ensures within { result ≤ length mounts.now }
{
    if let Some(count) = count_by_number(mount, mounts) {
        return count;
    }
    let number = mount.0;
    match mounts.binary_search_by_key(&number, |other| other.0) {
        Ok(at) => at + 1,
        Err(at) => at,
    }
}

/// The copies of these mounts have the numbers behind `last`, in their order.
fn copy_number(last: u64, mounts: &[MountId], mount: MountId) -> MountId
    requires numbers { last + length mounts.now < 2 ^ 64 }
    requires rising { IsStrictlyIncreasing mounts.now }
    ensures { result ≡ copy_number last mounts.now mount }
{
    MountId(last + count_up_to(mount, mounts) as u64)
}

/// A copy of the row, which has this number.
fn row_in(
    alloc: Global,
    last: u64,
    mounts: &[MountId],
    row: &MountRow,
    number: MountId,
    to: NsId,
) -> Result<MountRow, AllocError>
    requires numbers { last + length mounts.now < 2 ^ 64 }
    requires rising { IsStrictlyIncreasing mounts.now }
    requires number { number ≡ copy_number last mounts.now row.now.mount }
    ensures { IfOk result (λ copy. copy ≡ row_in (copy_number last mounts.now) to row.now) }
{
    let mountpoint = match &row.mountpoint {
        Some(position) => Some(Position {
            mount: copy_number(last, mounts, position.mount),
            place: position.place.copy(alloc)?,
        }),
        None => None,
    };
    Ok(MountRow {
        mount: number,
        ns: to,
        fs: row.fs,
        origin: row.origin,
        mountpoint,
    })
}

/// Adds a copy of the mount's row, if it is there, behind the others.
fn add_row_in(
    tree: &mut Tree,
    alloc: Global,
    last: u64,
    mounts: &[MountId],
    mount: MountId,
    number: MountId,
    to: NsId,
) -> Result<(), AllocError>
    requires numbers { last + length mounts.now < 2 ^ 64 }
    requires rising { IsStrictlyIncreasing mounts.now }
    requires number { number ≡ copy_number last mounts.now mount }
    requires above { AreBelow number tree.old }
    ensures ok { OnOk result (tree.new ≡ tree.old ++ option_to_list
        (option_map (row_in (copy_number last mounts.now) to) (mount_row tree.old mount))) }
    ensures err { OnErr result (tree.new ≡ tree.old) }
{
    // For the checker: that the rows rise is known where they are lent.
    let _rows = tree.rows();
    let Some(row) = tree.row(mount) else {
        return Ok(());
    };
    let copy = row_in(alloc, last, mounts, row, number, to)?;
    tree.add(copy)
}

/// Adds copies of the rows of these mounts, which have the numbers behind `last`, all or none.
fn add_rows_in(
    tree: &mut Tree,
    alloc: Global,
    last: u64,
    mounts: &[MountId],
    to: NsId,
) -> Result<(), AllocError>
    requires numbers { last + length mounts.now < 2 ^ 64 }
    requires rising { IsStrictlyIncreasing mounts.now }
    requires above { AreBelow (last + 1) tree.old }
    requires there { AreThere mounts.now tree.old }
    ensures ok { OnOk result (tree.new ≡ tree.old ++ rows_in last mounts.now to tree.old) }
    ensures err { OnErr result (tree.new ≡ tree.old) }
{
    for at in 0..mounts.len() {
        let number = MountId(last + at as u64 + 1);
        if let Err(error) = add_row_in(tree, alloc, last, mounts, mounts[at], number, to) {
            tree.take_back(at);
            return Err(error);
        }
    }
    Ok(())
}

/// Adds the propagation of a copy of this mount, which has this number, behind the others.
fn add_member_in(
    groups: &mut Groups,
    mount: MountId,
    number: MountId,
    form: CopyForm,
) -> Result<(), AllocError>
    requires { (row : MemberRow) → member_row groups.old.members mount ≡ Some row →
        IsOrderly (all_added (member_as form number row ∷ []) [] groups.old) }
    ensures ok { OnOk result (groups.new ≡ all_added (option_to_list
        (option_map (member_as form number) (member_row groups.old.members mount))) []
        groups.old) }
    ensures err { OnErr result (groups.new ≡ groups.old) }
{
    let Some(row) = groups.member(mount) else {
        return Ok(());
    };
    groups.add_last(form.of(row, number))
}

/// Adds the propagation of copies of these mounts, which have the numbers behind `last`, all or
/// none.
fn add_members_in(
    groups: &mut Groups,
    last: u64,
    mounts: &[MountId],
    form: CopyForm,
) -> Result<(), AllocError>
    requires numbers { last + length mounts.now < 2 ^ 64 }
    requires rising { IsStrictlyIncreasing mounts.now }
    requires joined { AreJoined mounts.now groups.old.members }
    requires orderly { IsOrderly
        (all_added (members_in form last mounts.now groups.old.members) [] groups.old) }
    ensures ok { OnOk result (groups.new ≡
        all_added (members_in form last mounts.now groups.old.members) [] groups.old) }
    ensures err { OnErr result (groups.new ≡ groups.old) }
{
    for at in 0..mounts.len() {
        let number = MountId(last + at as u64 + 1);
        if let Err(error) = add_member_in(groups, mounts[at], number, form) {
            groups.take_back(at);
            return Err(error);
        }
    }
    Ok(())
}

impl Subtree {
    /// Adds copies of these mounts in a new namespace, all or none. The caller shows that the
    /// invariant holds of all together.
    fn add_copies(
        &mut self,
        alloc: Global,
        mounts: &[MountId],
        form: CopyForm,
        to: NsId,
    ) -> Result<(), AllocError>
        requires numbers { self.old.last_mount + length mounts.now < 2 ^ 64 }
        requires rising { IsStrictlyIncreasing mounts.now }
        requires there { AreThere mounts.now self.old.rows }
        requires whole { IsWhole (with_copies form mounts.now to self.old) }
        ensures ok { OnOk result (self.new ≡ with_copies form mounts.now to self.old) }
        ensures err { OnErr result (self.new ≡ self.old) }
    {
        let last = self.last_mount;
        add_rows_in(&mut self.tree, alloc, last, mounts, to)?;
        if let Err(error) = add_members_in(&mut self.groups, last, mounts, form) {
            self.tree.take_back(mounts.len());
            return Err(error);
        }
        self.last_mount = last + mounts.len() as u64;
        self.last_ns = to.0;
        Ok(())
    }

    /// A new namespace with a copy of each mount of this one, mounted alike (sharedsubtree.rst,
    /// 5g), in this form. The answer tells it and the copies.
    pub fn copy_namespace(
        &mut self,
        alloc: Global,
        ns: NsId,
        form: CopyForm,
    ) -> Result<NewNamespace, Errno>
        ensures refusal { RefusedAs (copy_refusal ns self.old) result }
        ensures number { IfOk result (λ made. made.ns ≡ self.old.last_ns + 1) }
        ensures made { IfOk result (λ made. made.mounts.items ≡
            new_mounts self.old (length (mounts_in self.old ns))) }
        ensures came { IfOk result (λ made. all_mounts self.new ≡
            all_mounts self.old ++ made.mounts.items) }
        ensures ok { OnOk result (self.new ≡ with_copy form ns self.old) }
        ensures copies { IfOk result (λ made. AreCopies form ns made.ns self.old self.new) }
        ensures err { OnErr result (self.new ≡ self.old) }
        ensures law { AddsNoReceivers self.old.groups self.new.groups }
    {
        if !self.is_namespace(ns) {
            return Err(Errno::ENOENT);
        }
        let mounts = self.tree.mounts_of(alloc, ns)?;
        if self.lacks_mounts(mounts.len()) {
            return Err(Errno::ENOSPC);
        }
        if self.last_ns == u32::MAX {
            return Err(Errno::ENOSPC);
        }
        let to = NsId(self.last_ns + 1);
        let copies = numbers_after(alloc, self.last_mount, mounts.len())?;
        self.add_copies(alloc, mounts.as_slice(), form, to)?;
        Ok(NewNamespace {
            ns: to,
            mounts: copies,
        })
    }
}
