//! Mounts that leave, and the peer groups that lose their last member.

ghost use Rattle.std.specs.Prelude.{◌≡◌, ◌==◌, ◌∷◌, [], true, not, map, filter, None, IfOk, OnOk, OnErr};
ghost use Rattle.std.specs.Bool.{OnTrue};
ghost use Rattle.std.specs.List.{list_all};
ghost use Rattle.std.specs.List.Sorted.{IsNonDecreasing};
ghost use Rattle.am_names.specs.{RefusedAs, is_among};
ghost use Rattle.am_group.specs.Changes.{lifted, settled, with_only, without};
ghost use Rattle.am_group.specs.Indexed.{ListMembers, ListGroups};
ghost use Rattle.am_index.specs.{SameLists};
ghost use Rattle.am_group.specs.Invariant.{RiseFrom, GroupsRise, IsOrderly, IsPeopled, AddsNoReceivers};
ghost use Rattle.am_group.specs.Lifting.{is_other_than, lift_of};
ghost use Rattle.am_group.specs.Tables.{AreLost, goes_whole, has_none_left, is_free_of, without_groups};
ghost use Rattle.am_group.specs.Members.{without_newest};

use crate::groups::Groups;
use crate::indexes::Indexes;
use crate::left_out::{drop_groups, is_one, leave_out};
use crate::lifting::lift_followers;
use crate::tables::{group_row, is_among as is_live, member_row};
use am_names::{Errno, GroupId, GroupRow, MemberRow, MountId, are_ordered};
use am_ordered::Rows;
use std::alloc::{AllocError, Global};

/// Takes the rows of these mounts out of the indexes, the last first: the newest mounts stand at
/// the ends of their lists.
fn unlist(members: &[MemberRow], indexes: &mut Indexes, gone: &[MountId])
    requires rising { RiseFrom 0 members.now }
    requires indexed { ListMembers members.now indexes.old }
    ensures members { ListMembers
        (filter (λ row. not (is_among gone.now row.mount)) members.now) indexes.new }
    ensures below { SameLists indexes.old.below indexes.new.below }
{
    let mut left = gone.len();
    while left > 0 {
        left -= 1;
        if let Some(row) = member_row(members, gone[left]) {
            indexes.remove(&row);
        }
    }
}

/// Takes the rows of these peer groups out of the indexes.
fn unlist_groups(groups: &[GroupRow], indexes: &mut Indexes, lost: &[GroupId])
    requires rising { GroupsRise groups.now }
    requires indexed { ListGroups groups.now indexes.old }
    ensures members { SameLists indexes.old.members indexes.new.members }
    ensures slaves { SameLists indexes.old.slaves indexes.new.slaves }
    ensures below { ListGroups
        (filter (λ row. not (is_among lost.now row.group)) groups.now) indexes.new }
{
    let mut left = lost.len();
    while left > 0 {
        left -= 1;
        if let Some(row) = group_row(groups, lost[left]) {
            indexes.remove_group(&row);
        }
    }
}

/// The peer group goes, with its place in the indexes.
pub fn drop_group(groups: &mut Rows<GroupRow>, indexes: &mut Indexes, group: GroupId)
    requires rising { GroupsRise groups.old.rows }
    requires indexed { ListGroups groups.old.rows indexes.old }
    ensures members { SameLists indexes.old.members indexes.new.members }
    ensures slaves { SameLists indexes.old.slaves indexes.new.slaves }
    ensures below { ListGroups groups.new.rows indexes.new }
    ensures rows { groups.new.rows ≡
        filter (λ row. not (is_among (group ∷ []) row.group)) groups.old.rows }
{
    let lost = [group];
    unlist_groups(groups.as_slice(), indexes, &lost);
    drop_groups(groups, &lost);
}

/// Whether each of these mounts is one of those that go.
fn all_go(mounts: &[u64], gone: &[MountId], ordered: bool) -> bool
    requires { OnTrue ordered (IsNonDecreasing gone.now) }
    ensures { result ≡ list_all (is_among gone.now) mounts.now }
{
    mounts
        .iter()
        .all(|mount| is_one(MountId(*mount), gone, ordered))
}

/// Whether each of these peer groups is one of those that are lost.
fn all_lost(groups: &[u64], lost: &[GroupId]) -> bool
    requires { IsNonDecreasing lost.now }
    ensures { result ≡ list_all (is_among lost.now) groups.now }
{
    groups.iter().all(|group| is_live(lost, GroupId(*group)))
}

impl Groups {
    /// Whether each member of the peer group goes. One that stays ends the look.
    fn goes_whole(&self, group: GroupId, gone: &[MountId], ordered: bool) -> bool
        requires { OnTrue ordered (IsNonDecreasing gone.now) }
        ensures { result ≡ goes_whole self.now.members gone.now group }
    {
        all_go(self.indexes.members.list(group.0), gone, ordered)
    }

    /// Those of these peer groups of which each member goes.
    fn whole(
        &self,
        alloc: Global,
        groups: &[GroupId],
        gone: &[MountId],
    ) -> Result<Vec<GroupId>, AllocError>
        ensures { IfOk result (λ v. v.items ≡
            filter (goes_whole self.now.members gone.now) groups.now) }
    {
        let ordered = are_ordered(gone);
        let mut whole = Vec::new(alloc);
        for group in groups {
            if self.goes_whole(*group, gone, ordered) {
                whole.push(*group)?;
            }
        }
        Ok(whole)
    }

    /// The peer groups that lose their last member where these mounts go.
    fn lost(&self, alloc: Global, gone: &[MountId]) -> Result<Vec<GroupId>, AllocError>
        ensures ordered { IfOk result (λ v. IsNonDecreasing v.items) }
        ensures exact { IfOk result (λ v. AreLost self.now.members
            (filter (λ row. not (is_among gone.now row.mount)) self.now.members) v.items) }
    {
        // For the checker: what the groups keep is known where a field is named.
        let _members = &self.members;
        let left = self.groups_in_order(alloc, gone)?;
        let lost = self.whole(alloc, left.as_slice(), gone)?;
        Ok(lost)
    }

    /// Whether each slave of the peer group goes, and each group below it is lost too.
    fn has_none_left(
        &self,
        group: GroupId,
        gone: &[MountId],
        ordered: bool,
        lost: &[GroupId],
    ) -> bool
        requires ordered { OnTrue ordered (IsNonDecreasing gone.now) }
        requires lost { IsNonDecreasing lost.now }
        ensures { result ≡ has_none_left gone.now lost.now self.now group }
    {
        all_go(self.indexes.slaves.list(group.0), gone, ordered)
            && all_lost(self.indexes.below.list(group.0), lost)
    }

    /// Whether none of the other mounts, and no peer group but one of these, has one of these as
    /// its master.
    fn is_free_of(&self, gone: &[MountId], lost: &[GroupId]) -> bool
        requires { IsNonDecreasing lost.now }
        ensures { OnTrue result
            (is_free_of lost.now (with_only (λ m. not (is_among gone.now m)) self.now) ≡ true) }
    {
        let ordered = are_ordered(gone);
        for group in lost {
            if !self.has_none_left(*group, gone, ordered, lost) {
                return false;
            }
        }
        true
    }

    /// The first peer group up the chain of masters that isn't lost.
    fn lifted(&self, lost: &[GroupId], master: Option<GroupId>) -> Option<GroupId>
        requires { IsNonDecreasing lost.now }
        ensures { result ≡ lifted (is_other_than lost.now) self.now master }
    {
        // For the checker: what the groups keep is known where a field is named.
        let _members = &self.members;
        let mut current = master;
        while let Some(group) = current {
            if !is_live(lost, group) {
                return Some(group);
            }
            current = self.master_of_group(group);
        }
        None
    }

    /// These peer groups, each with the master that its followers get.
    fn lifts(&self, alloc: Global, lost: &[GroupId]) -> Result<Vec<GroupRow>, AllocError>
        requires { IsNonDecreasing lost.now }
        ensures { IfOk result (λ v. v.items ≡ map (lift_of lost.now self.now) lost.now) }
    {
        let mut lifts = Vec::new(alloc);
        for group in lost {
            let master = self.lifted(lost, Some(*group));
            lifts.push(GroupRow {
                group: *group,
                master,
            })?;
        }
        Ok(lifts)
    }

    /// The followers of these peer groups get the first master up the chain that is none of them.
    fn lift_lost(&mut self, alloc: Global, lost: &[GroupId]) -> Result<(), AllocError>
        requires { IsNonDecreasing lost.now }
        ensures ok { OnOk result (self.new ≡ settled (is_other_than lost.now) self.old) }
        ensures err { OnErr result (self.new ≡ self.old) }
    {
        // For the checker: what the groups keep is known where a field is named.
        let _members = &self.members;
        let lifts = self.lifts(alloc, lost)?;
        lift_followers(
            &mut self.members,
            &mut self.groups,
            &mut self.indexes,
            lifts.as_slice(),
            None,
        )?;
        Ok(())
    }

    /// Takes these mounts and these peer groups away, and nothing else.
    fn take_out(&mut self, gone: &[MountId], lost: &[GroupId])
        requires lost { IsNonDecreasing lost.now }
        requires orderly { IsOrderly (without_groups lost.now
            (with_only (λ m. not (is_among gone.now m)) self.old)) }
        ensures { self.new ≡
            without_groups lost.now (with_only (λ m. not (is_among gone.now m)) self.old) }
    {
        unlist(self.members.as_slice(), &mut self.indexes, gone);
        unlist_groups(self.groups.as_slice(), &mut self.indexes, lost);
        leave_out(&mut self.members, gone);
        drop_groups(&mut self.groups, lost);
    }

    /// Takes the newest mount back.
    fn take_one_back(&mut self)
        ensures { self.new ≡ without_newest 1 self.old }
    {
        if let Some(row) = self.members.pop() {
            self.indexes.remove(&row);
        }
    }

    /// Takes the newest mounts back, so many of them: those that `add_last` added, where a later
    /// step of the same operation fails.
    pub fn take_back(&mut self, count: usize)
        ensures { self.new ≡ without_newest count self.old }
    {
        for _ in 0..count.min(self.members.len()) {
            self.take_one_back();
        }
    }

    /// Takes these mounts away, as an unmount does. Of the numbers that are no mount's, nothing
    /// comes. The peer groups that lose their last member go once, at the end, and their followers
    /// that stay get the first master up the chain that stays. It costs what goes, what it follows
    /// and what follows it.
    pub fn leave(&mut self, alloc: Global, gone: &[MountId]) -> Result<(), Errno>
        ensures refusal { RefusedAs None result }
        ensures ok { OnOk result (self.new ≡ without (is_among gone.now) self.old) }
        ensures err { OnErr result (self.new ≡ self.old) }
        ensures law { IsPeopled self.old → AddsNoReceivers self.old self.new }
        ensures peopled { IsPeopled self.old → IsPeopled self.new }
    {
        // For the checker: what the groups keep is known where a field is named.
        let _members = &self.members;
        let lost = self.lost(alloc, gone)?;
        let lost = lost.as_slice();
        if self.is_free_of(gone, lost) {
            self.take_out(gone, lost);
            return Ok(());
        }
        self.lift_lost(alloc, lost)?;
        self.take_out(gone, lost);
        Ok(())
    }
}
