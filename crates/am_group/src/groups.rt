//! The peer groups of all mounts.

ghost use Rattle.std.specs.Prelude.{◌≡◌, ◌+◌, ◌^◌, ◌<◌, ◌≤◌, ◌↔◌, ◌∷◌, [], length, IsTrue, IfOk, IfSome, OnOk, OnErr};
ghost use Rattle.am_names.specs.{RefusedAs, row_with};
ghost use Rattle.am_group.specs.Propagation.{member_row, group_of, master_of_group};
ghost use Rattle.am_group.specs.Changes.{with_group};
ghost use Rattle.am_group.specs.Copies.{all_added};
ghost use Rattle.am_group.specs.Invariant.{AddsNoReceivers, IsOrderly, IsPeopled, IsSound};
ghost use Rattle.am_group.specs.MountStates.{kind_of_row, kind_of};
ghost use Rattle.am_group.specs.Members.{no_mounts, below, with_member, is_exhausted, is_group, may_be_master, may_have, KeepsPeopled, fresh_refusal, add_refusal};

use crate::indexes::Indexes;
use crate::mount_state::MountState;
use crate::tables::{are_same_groups, are_same_members, group_row, member_row};
use am_names::{Errno, GroupId, GroupRow, MemberRow, Membership, MountId};
use am_ordered::Rows;
use std::alloc::{AllocError, Global};
use std::marker::Model;

mod changes;
mod leaving;
mod receivers;

/// Mounts in rising order of number, and peer groups with their masters (sharedsubtree.rst, 5a).
/// A master has a lower number than the groups under it.
pub struct Groups {
    members: Rows<MemberRow>,
    groups: Rows<GroupRow>,
    last_group: u64,
    indexes: Indexes,
}

// Written by hand, it is proved here once: a derived one is proved field by field in each function
// of the crates above that lets the groups go at an early return.
impl Drop for Groups {
    fn drop(self) {
        let Groups {
            members,
            groups,
            last_group: _,
            indexes,
        } = self;
        drop(members);
        drop(groups);
        drop(indexes);
    }
}

impl Model for Groups {
    ghost use Rattle.am_names.specs.PeerGroups.{PeerGroups};

    ghost Value = { PeerGroups };

    ghost use Rattle.am_group.specs.View.{view_of, IsKept};

    ghost view = { view_of };

    ghost invariant = { IsKept };
}

impl Groups {
    /// No mount and no peer group.
    pub fn new(alloc: Global) -> Groups
        ensures { result ≡ no_mounts }
    {
        Groups {
            members: Rows::new(alloc),
            groups: Rows::new(alloc),
            last_group: 0,
            indexes: Indexes::new(alloc),
        }
    }

    /// The same mounts and peer groups once more.
    pub fn copy(&self, alloc: Global) -> Result<Groups, AllocError>
        ensures { IfOk result (λ copy. copy ≡ self.now) }
    {
        Ok(Groups {
            members: self.members.copy(alloc)?,
            groups: self.groups.copy(alloc)?,
            last_group: self.last_group,
            indexes: self.indexes.copy(alloc)?,
        })
    }

    /// Whether both have the same mounts and peer groups.
    pub fn is_same(&self, other: &Groups) -> bool
        ensures { IsTrue result ↔ (self.now ≡ other.now) }
    {
        self.last_group == other.last_group
            && are_same_members(self.members(), other.members())
            && are_same_groups(self.groups(), other.groups())
    }

    /// The mounts, in rising order of number.
    pub fn members(&self) -> &[MemberRow]
        ensures rows { result.now ≡ self.now.members }
        ensures orderly { IsOrderly self.now }
    {
        self.members.as_slice()
    }

    /// The peer groups with their masters, in order of making.
    pub fn groups(&self) -> &[GroupRow]
        ensures { result.now ≡ self.now.groups }
    {
        self.groups.as_slice()
    }

    /// The greatest number that a peer group ever had, 0 for none. The next have those above.
    pub fn last_group(&self) -> GroupId
        ensures { result ≡ self.now.last_group }
    {
        GroupId(self.last_group)
    }

    /// The mount with its peer group or master.
    pub fn member(&self, mount: MountId) -> Option<MemberRow>
        ensures { result ≡ member_row self.now.members mount }
    {
        member_row(self.members.as_slice(), mount)
    }

    /// The peer group of a shared mount.
    pub fn group_of(&self, mount: MountId) -> Option<GroupId>
        ensures { result ≡ group_of self.now mount }
    {
        match self.member(mount) {
            Some(row) => row.group(),
            None => None,
        }
    }

    /// The master of a peer group.
    pub fn master_of_group(&self, group: GroupId) -> Option<GroupId>
        ensures master { result ≡ master_of_group self.now group }
        ensures lower { IfSome result (λ master. master < group) }
    {
        match group_row(self.groups.as_slice(), group) {
            Some(row) => row.master,
            None => None,
        }
    }

    fn kind_of_row(&self, row: &MemberRow) -> MountState
        ensures { result ≡ kind_of_row self.now row.now }
    {
        match row.membership {
            Membership::InGroup(group) => match self.master_of_group(group) {
                Some(_) => MountState::SharedSlave,
                None => MountState::Shared,
            },
            Membership::SlaveOf(_) => MountState::Slave,
            Membership::Private => MountState::Private,
            Membership::Unbindable => MountState::Unbindable,
        }
    }

    /// The state of the mount; none where there is no such mount.
    pub fn kind(&self, mount: MountId) -> Option<MountState>
        ensures { result ≡ kind_of self.now mount }
    {
        match self.member(mount) {
            Some(row) => Some(self.kind_of_row(&row)),
            None => None,
        }
    }

    fn is_exhausted(&self) -> bool
        ensures { result ≡ is_exhausted self.now }
    {
        self.last_group == u64::MAX
    }

    fn is_group(&self, group: GroupId) -> bool
        ensures { result ≡ is_group self.now group }
    {
        group_row(self.groups.as_slice(), group).is_some()
    }

    fn may_be_master(&self, master: &Option<GroupId>) -> bool
        ensures { result ≡ may_be_master self.now master.now }
    {
        match master {
            Some(group) => self.is_group(*group),
            None => true,
        }
    }

    fn may_have(&self, membership: &Membership) -> bool
        ensures { result ≡ may_have self.now membership.now }
    {
        match membership {
            Membership::InGroup(group) => self.is_group(*group),
            Membership::SlaveOf(group) => self.is_group(*group),
            Membership::Private | Membership::Unbindable => true,
        }
    }

    /// A fresh peer group, of the next number. Members may come to it, and to its master, later.
    pub fn fresh(&mut self, master: Option<GroupId>) -> Result<GroupId, Errno>
        ensures refusal { RefusedAs (fresh_refusal master self.old) result }
        ensures number { IfOk result (λ group. group ≡ self.old.last_group + 1) }
        ensures ok { OnOk result (self.new ≡ with_group master self.old) }
        ensures err { OnErr result (self.new ≡ self.old) }
        ensures law { AddsNoReceivers self.old self.new }
        ensures peopled { KeepsPeopled master self.old self.new }
    {
        if !self.may_be_master(&master) {
            return Err(Errno::EINVAL);
        }
        if self.is_exhausted() {
            return Err(Errno::ENOSPC);
        }
        let group = GroupId(self.last_group + 1);
        let row = GroupRow { group, master };
        self.indexes.make_group_room(&row)?;
        self.groups.reserve(1)?;
        self.groups.push_reserved(row);
        self.indexes.add_group(&row);
        self.last_group = group.0;
        Ok(group)
    }

    /// A mount that isn't there yet. The peer group that it names may be one without members.
    pub fn add(&mut self, mount: MountId, membership: Membership) -> Result<(), Errno>
        ensures refusal { RefusedAs (add_refusal mount membership self.old) result }
        ensures ok { OnOk result (self.new ≡ with_member (row_with membership mount) self.old) }
        ensures err { OnErr result (self.new ≡ self.old) }
        ensures law { IsPeopled self.old → AddsNoReceivers self.old self.new }
        ensures peopled { KeepsPeopled (row_with membership mount).master self.old self.new }
    {
        if self.member(mount).is_some() {
            return Err(Errno::EEXIST);
        }
        if !self.may_have(&membership) {
            return Err(Errno::EINVAL);
        }
        let row = membership.row(mount);
        let index = self.rank(mount);
        self.indexes.make_room(&row)?;
        self.members.reserve(1)?;
        self.members.insert_reserved(index, row);
        // Before it came it was in no list, as a private mount is.
        self.indexes.replace(&Membership::Private.row(mount), &row);
        Ok(())
    }

    /// Adds new mounts and peer groups, all or none, as a mount with its copies brings them. The
    /// groups have the numbers above `last_group`. The caller shows that the invariant holds of
    /// all together: the mounts' numbers rise above all that are there, and each group that is
    /// named is there, a master with a lower number and with members.
    pub fn add_all(
        &mut self,
        members: Vec<MemberRow>,
        groups: Vec<GroupRow>,
    ) -> Result<(), AllocError>
        requires numbers { self.old.last_group + length groups.items < 2 ^ 64 }
        requires sound { IsSound (all_added members.items groups.items self.old) }
        ensures ok { OnOk result (self.new ≡ all_added members.items groups.items self.old) }
        ensures err { OnErr result (self.new ≡ self.old) }
        ensures law { IsPeopled self.old → AddsNoReceivers self.old self.new }
        ensures peopled { IsPeopled self.old → IsPeopled self.new }
    {
        let count = groups.len();
        self.members.reserve(members.len())?;
        self.groups.reserve(count)?;
        self.indexes.add_all(members.as_slice(), groups.as_slice())?;
        self.groups.append_reserved(groups);
        self.members.append_reserved(members);
        self.last_group += count as u64;
        Ok(())
    }

    /// Adds a new mount behind the others, as a copy of a namespace brings one. The caller shows
    /// that the order is kept: its number is above all that are there, and the peer group that it
    /// names is there.
    pub fn add_last(&mut self, row: MemberRow) -> Result<(), AllocError>
        requires { IsOrderly (all_added (row ∷ []) [] self.old) }
        ensures ok { OnOk result (self.new ≡ all_added (row ∷ []) [] self.old) }
        ensures err { OnErr result (self.new ≡ self.old) }
    {
        self.members.reserve(1)?;
        self.indexes.add_all(std::slice::from_ref(&row), &[])?;
        self.members.push_reserved(row);
        Ok(())
    }

    /// How many mounts have lower numbers, by halves.
    fn rank(&self, mount: MountId) -> usize
        ensures rank { result ≡ length (below mount self.now.members) }
        ensures within { result ≤ length self.now.members }
    {
        self.members
            .as_slice()
            .partition_point(|row| row.mount < mount)
    }
}
