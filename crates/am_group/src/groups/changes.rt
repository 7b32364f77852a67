//! The changes of a mount's state.

ghost use Rattle.std.specs.Prelude.{◌≡◌, ◌==◌, true, false, not, map, Some, OnOk, OnErr};
ghost use Rattle.std.specs.List.{list_any};
ghost use Rattle.am_names.specs.{RefusedAs};
ghost use Rattle.am_group.specs.Changes.{left, at_row, with_row, made_shared, made_slave, made_private, made_unbindable, changed};
ghost use Rattle.am_group.specs.Invariant.{RiseFrom, IsPeopled, AddsNoReceivers};
ghost use Rattle.am_group.specs.Propagation.{member_row};
ghost use Rattle.am_group.specs.MountStates.{FollowsTable};
ghost use Rattle.am_group.specs.Members.{change_refusal};
ghost use Rattle.am_group.specs.Tables.{is_not_alone, past, past_member, row_of, gives_up};

use crate::groups::Groups;
use crate::groups::leaving::drop_group;
use crate::lifting::{lift_followers, under_master};
use crate::mount_state::{Change, asked, row_as};
use am_names::{Errno, GroupId, GroupRow, MemberRow, MountId};
use am_ordered::Rows;
use std::alloc::AllocError;

/// Writes the row in place of that of the mount, which is found by halves.
fn write_row(members: &mut Rows<MemberRow>, mount: MountId, row: MemberRow)
    requires { RiseFrom 0 members.old.rows }
    ensures { members.new.rows ≡ map (at_row (λ _. row) mount) members.old.rows }
{
    let number = mount.0;
    if let Ok(at) = members
        .as_slice()
        .binary_search_by_key(&number, |other| other.mount.0)
    {
        members.set(at, row);
    }
}

/// Whether one of these mounts is another than this one.
fn has_other(mounts: &[u64], mount: MountId) -> bool
    ensures { result ≡ list_any (λ m. not (m == mount)) mounts.now }
{
    mounts.iter().any(|other| *other != mount.0)
}

impl Groups {
    fn changed_row(&self, change: Change, fresh: GroupId, row: MemberRow) -> MemberRow
        ensures { result ≡ row_of change fresh row }
    {
        let kind = self.kind_of_row(&row);
        row_as(asked(change, kind), fresh, row)
    }

    /// Whether the mount of the row is in no peer group, or in one with others.
    fn is_not_alone(&self, row: &MemberRow) -> bool
        ensures { result ≡ is_not_alone self.now row.now }
    {
        match row.group() {
            Some(own) => has_other(self.indexes.members.list(own.0), row.mount),
            None => true,
        }
    }

    /// In place of the peer group as a master its own.
    fn past(&self, group: GroupId, master: Option<GroupId>) -> Option<GroupId>
        ensures { result ≡ past self.now group master }
    {
        if master == Some(group) {
            self.master_of_group(group)
        } else {
            master
        }
    }

    /// The row with the group's own master in place of the group.
    fn past_row(&self, group: GroupId, row: &MemberRow) -> MemberRow
        ensures { result ≡ past_member self.now group row.now }
    {
        under_master(self.past(group, row.master()), *row)
    }

    /// The mount gives up the peer group in which it is alone, and which goes. The followers of the
    /// group get its master.
    fn give_up_last(
        &mut self,
        change: Change,
        mount: MountId,
        row: MemberRow,
        group: GroupId,
    ) -> Result<(), AllocError>
        requires gives_up { gives_up change ≡ true }
        requires found { member_row self.old.members mount ≡ Some row }
        requires own { row.group ≡ Some group }
        requires alone { is_not_alone self.old row ≡ false }
        ensures ok { OnOk result (self.new ≡
            left self.old (with_row (row_of change 0) mount self.old)) }
        ensures err { OnErr result (self.new ≡ self.old) }
    {
        let changed = self.changed_row(change, GroupId(0), row);
        let after = self.past_row(group, &changed);
        let before = self.past_row(group, &row);
        let lifts = [GroupRow {
            group,
            master: self.master_of_group(group),
        }];
        lift_followers(
            &mut self.members,
            &mut self.groups,
            &mut self.indexes,
            &lifts,
            after.master(),
        )?;
        self.indexes.replace(&before, &after);
        drop_group(&mut self.groups, &mut self.indexes, group);
        write_row(&mut self.members, mount, after);
        Ok(())
    }

    fn give_up(&mut self, change: Change, mount: MountId) -> Result<(), Errno>
        requires { gives_up change ≡ true }
        ensures refusal { RefusedAs (change_refusal change mount self.old) result }
        ensures ok { OnOk result (self.new ≡
            left self.old (with_row (row_of change 0) mount self.old)) }
        ensures err { OnErr result (self.new ≡ self.old) }
        ensures law { IsPeopled self.old → AddsNoReceivers self.old self.new }
        ensures peopled { IsPeopled self.old → IsPeopled self.new }
    {
        let Some(row) = self.member(mount) else {
            return Err(Errno::EINVAL);
        };
        if self.is_not_alone(&row) {
            let changed = self.changed_row(change, GroupId(0), row);
            self.indexes.make_room(&changed)?;
            self.indexes.replace(&row, &changed);
            write_row(&mut self.members, mount, changed);
            return Ok(());
        }
        // A mount in no peer group is not alone in one.
        let Some(group) = row.group() else {
            return Ok(());
        };
        self.give_up_last(change, mount, row, group)?;
        Ok(())
    }

    /// Makes the mount shared (sharedsubtree.rst, 5a). One that is shared stays in its peer
    /// group; another comes into a fresh one, whose master is the one that it had.
    pub fn make_shared(&mut self, mount: MountId) -> Result<(), Errno>
        ensures refusal { RefusedAs (change_refusal Change.MakeShared mount self.old) result }
        ensures ok { OnOk result (self.new ≡ made_shared mount self.old) }
        ensures err { OnErr result (self.new ≡ self.old) }
        ensures law { IsPeopled self.old → AddsNoReceivers self.old self.new }
        ensures peopled { IsPeopled self.old → IsPeopled self.new }
    {
        let Some(row) = self.member(mount) else {
            return Err(Errno::EINVAL);
        };
        if row.group().is_some() {
            return Ok(());
        }
        if self.is_exhausted() {
            return Err(Errno::ENOSPC);
        }
        let number = GroupId(self.last_group + 1);
        let changed = self.changed_row(Change::MakeShared, number, row);
        let fresh = GroupRow {
            group: number,
            master: row.master(),
        };
        self.indexes.make_all_room(&changed, &fresh)?;
        self.groups.reserve(1)?;
        self.groups.push_reserved(fresh);
        self.indexes.replace(&row, &changed);
        self.indexes.add_group(&fresh);
        write_row(&mut self.members, mount, changed);
        self.last_group = number.0;
        Ok(())
    }

    /// Makes the mount a slave of the peer group that it leaves (sharedsubtree.rst, 5a). One
    /// that was alone there is a slave of the group's master, if there is one:
    /// own (docs/DECISIONS.md, "A shared mount that is alone in its group and becomes a slave").
    pub fn make_slave(&mut self, mount: MountId) -> Result<(), Errno>
        ensures refusal { RefusedAs (change_refusal Change.MakeSlave mount self.old) result }
        ensures ok { OnOk result (self.new ≡ made_slave mount self.old) }
        ensures err { OnErr result (self.new ≡ self.old) }
        ensures law { IsPeopled self.old → AddsNoReceivers self.old self.new }
        ensures peopled { IsPeopled self.old → IsPeopled self.new }
    {
        self.give_up(Change::MakeSlave, mount)
    }

    /// Makes the mount private (sharedsubtree.rst, 5a).
    pub fn make_private(&mut self, mount: MountId) -> Result<(), Errno>
        ensures refusal { RefusedAs (change_refusal Change.MakePrivate mount self.old) result }
        ensures ok { OnOk result (self.new ≡ made_private mount self.old) }
        ensures err { OnErr result (self.new ≡ self.old) }
        ensures law { IsPeopled self.old → AddsNoReceivers self.old self.new }
        ensures peopled { IsPeopled self.old → IsPeopled self.new }
    {
        self.give_up(Change::MakePrivate, mount)
    }

    /// Makes the mount private, and not to be bound (sharedsubtree.rst, 5a).
    pub fn make_unbindable(&mut self, mount: MountId) -> Result<(), Errno>
        ensures refusal { RefusedAs (change_refusal Change.MakeUnbindable mount self.old) result }
        ensures ok { OnOk result (self.new ≡ made_unbindable mount self.old) }
        ensures err { OnErr result (self.new ≡ self.old) }
        ensures law { IsPeopled self.old → AddsNoReceivers self.old self.new }
        ensures peopled { IsPeopled self.old → IsPeopled self.new }
    {
        self.give_up(Change::MakeUnbindable, mount)
    }

    /// One of the four changes: the mount's state afterwards is that of the table.
    pub fn change(&mut self, change: Change, mount: MountId) -> Result<(), Errno>
        ensures refusal { RefusedAs (change_refusal change mount self.old) result }
        ensures ok { OnOk result (self.new ≡ changed change mount self.old) }
        ensures table { OnOk result (FollowsTable change mount self.old self.new) }
        ensures err { OnErr result (self.new ≡ self.old) }
        ensures law { IsPeopled self.old → AddsNoReceivers self.old self.new }
        ensures peopled { IsPeopled self.old → IsPeopled self.new }
    {
        // For the checker: what the groups keep is known where a field is named.
        let _members = &self.members;
        match change {
            Change::MakeShared => self.make_shared(mount),
            Change::MakeSlave => self.make_slave(mount),
            Change::MakePrivate => self.make_private(mount),
            Change::MakeUnbindable => self.make_unbindable(mount),
        }
    }
}
