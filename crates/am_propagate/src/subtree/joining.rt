//! The peer groups of a new mount and of its copies.

ghost use Rattle.std.specs.Prelude.{◌≡◌, ◌+◌, ◌^◌, ◌<◌, ◌∷◌, ◌++◌, [], length, IfOk};
ghost use Rattle.std.specs.List.Sorted.{IsStrictlyIncreasing};
ghost use Rattle.std.specs.Option.{option_to_list};
ghost use Rattle.am_names.specs.{row_with};
ghost use Rattle.am_names.specs.declared.membership.Membership.TheVariants.{InGroup};
ghost use Rattle.am_group.specs.{member_row, slave_in, group_of, copy_row, copies_from, group_copies, receivers_of};
ghost use Rattle.am_propagate.specs.Joining.{stand_of, others_of, group_copy, AreNew};
ghost use Rattle.am_propagate.specs.Added.{groups_made};

use crate::subtree::Subtree;
use crate::subtree::stand_ins::{StandIns, fresh_group};
use am_names::{GroupId, GroupRow, MemberRow, Membership, MountId};
use std::alloc::{AllocError, Global};

/// Rows for the peer groups of new mounts.
#[derive(Drop)]
pub struct Joining {
    pub members: Vec<MemberRow>,
    pub groups: Vec<GroupRow>,
}

impl Joining {
    /// A mount without copies is as its source is.
    pub fn alone(
        alloc: Global,
        membership: Membership,
        mount: MountId,
    ) -> Result<Joining, AllocError>
        ensures { IfOk result (λ joining.
            (joining.members.items ≡ row_with membership mount ∷ []) ×
            (joining.groups.items ≡ [])) }
    {
        let mut members = Vec::new(alloc);
        members.push(membership.row(mount))?;
        Ok(Joining {
            members,
            groups: Vec::new(alloc),
        })
    }
}

impl Subtree {
    fn copy_row(&self, stands: &StandIns, mount: MountId, receiver: MountId) -> MemberRow
        requires { IsStrictlyIncreasing stands.now.groups.items }
        ensures { result ≡
            copy_row (stand_of stands.now) mount (group_of self.now.groups receiver)
            (slave_in (member_row self.now.groups.members receiver)) }
    {
        match self.groups.member(receiver) {
            Some(row) => stands.copy_row(mount, &row),
            None => Membership::Private.row(mount),
        }
    }

    fn new_members(
        &self,
        alloc: Global,
        stands: &StandIns,
        mount: MountId,
        receivers: &[MountId],
    ) -> Result<Vec<MemberRow>, AllocError>
        requires rising { IsStrictlyIncreasing stands.now.groups.items }
        requires numbers { mount + length receivers.now < 2 ^ 64 }
        ensures { IfOk result (λ v. v.items ≡ row_with (InGroup stands.now.new) mount ∷
            copies_from (stand_of stands.now) self.now.groups (mount + 1) receivers.now) }
    {
        let mut members = Vec::with_capacity(alloc, receivers.len() + 1)?;
        members.push(Membership::InGroup(stands.new).row(mount))?;
        let mut number = mount.0;
        for receiver in receivers {
            number += 1;
            members.push(self.copy_row(stands, MountId(number), *receiver))?;
        }
        Ok(members)
    }

    fn group_copy(&self, stands: &StandIns, group: GroupId) -> GroupRow
        requires { IsStrictlyIncreasing stands.now.groups.items }
        ensures { result ≡ group_copy (stand_of stands.now) self.now.groups group }
    {
        GroupRow {
            group: stands.stand_of(group),
            master: stands.stand_of_master(self.groups.master_of_group(group)),
        }
    }

    fn new_groups(
        &self,
        alloc: Global,
        stands: &StandIns,
        fresh: Option<GroupRow>,
    ) -> Result<Vec<GroupRow>, AllocError>
        requires { IsStrictlyIncreasing stands.now.groups.items }
        ensures { IfOk result (λ v. v.items ≡ option_to_list fresh ++
            group_copies (stand_of stands.now) self.now.groups stands.now.groups.items) }
    {
        let mut rows = Vec::new(alloc);
        if let Some(row) = fresh {
            rows.push(row)?;
        }
        for group in stands.groups.iter() {
            rows.push(self.group_copy(stands, *group))?;
        }
        Ok(rows)
    }

    /// The groups, beside that of the mount `at`, in which mounts are that receive from it.
    pub(crate) fn others(
        &self,
        alloc: Global,
        at: MountId,
        receivers: &[MountId],
    ) -> Result<Vec<GroupId>, AllocError>
        ensures { IfOk result (λ v. v.items ≡
            others_of self.now.groups receivers.now (group_of self.now.groups at)) }
    {
        match self.groups.group_of(at) {
            Some(own) => self.groups.receiving_groups(alloc, receivers, own),
            None => Ok(Vec::new(alloc)),
        }
    }

    /// The rows for the peer groups of a mount on the mount `at`, and of its copies.
    pub(crate) fn joining(
        &self,
        alloc: Global,
        at: MountId,
        membership: Membership,
        mount: MountId,
        receivers: &[MountId],
        others: Vec<GroupId>,
    ) -> Result<Joining, AllocError>
        requires receivers { receivers.now ≡ receivers_of self.now.groups at }
        requires others { others.items ≡
            others_of self.now.groups receivers.now (group_of self.now.groups at) }
        requires groups { self.now.groups.last_group +
            groups_made membership (group_of self.now.groups at) receivers.now self.now.groups
            < 2 ^ 64 }
        requires mounts { mount + length receivers.now < 2 ^ 64 }
        ensures { IfOk result (λ joining. AreNew membership
            (group_of self.now.groups at) receivers.now mount self.now.groups joining) }
    {
        let Some(own) = self.groups.group_of(at) else {
            return Joining::alone(alloc, membership, mount);
        };
        let stands = StandIns::of(own, others, &membership, self.groups.last_group().0);
        let members = self.new_members(alloc, &stands, mount, receivers)?;
        let fresh = fresh_group(&membership, stands.new);
        let groups = self.new_groups(alloc, &stands, fresh)?;
        Ok(Joining { members, groups })
    }
}
