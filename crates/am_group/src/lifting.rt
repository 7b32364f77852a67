//! The followers of peer groups that are lost, which get another master: their rows and their
//! places in the indexes, and nothing else.

ghost use Rattle.std.specs.Prelude.{◌≡◌, ℕ, true, false, map, OnOk, OnErr};
ghost use Rattle.am_names.specs.{is_among};
ghost use Rattle.am_index.specs.{ListsRise, SameLists, listed};
ghost use Rattle.am_group.specs.Changes.{is_just, at_row};
ghost use Rattle.am_group.specs.Indexed.{RoomFor, HaveSameLists, AllRise, ListMembers, ListGroups, has_master, is_below_it, mounts_where, groups_where};
ghost use Rattle.am_group.specs.Invariant.{RiseFrom, GroupsRise};
ghost use Rattle.am_group.specs.Lifting.{lift_member, lift_group, under_master, group_under, at_group, at_rows, at_groups, AreLifts, LinksOne, UnlinksOne, Links, Unlinks, AreApart, DropsAll, KeepsRooms};
ghost use Rattle.am_group.specs.Receivers.{group_numbers};
ghost use Rattle.am_group.specs.Scan.{is_one_of};

use crate::indexes::{Indexes, room_for};
use am_index::Index;
use am_names::{GroupId, GroupRow, MemberRow, Membership};
use am_ordered::Rows;
use std::alloc::AllocError;

/// Takes the followers of the peer group out of the list of the master that they were to get.
fn unlink_one(index: &mut Index, lift: &GroupRow)
    requires rising { ListsRise index.old }
    requires other { is_just lift.now.group lift.now.master ≡ false }
    ensures { UnlinksOne lift.now index.old index.new }
{
    if let Some(master) = lift.master {
        index.part(lift.group.0, master.0);
    }
}

/// Puts the followers of the peer group into the list of the master that they get.
fn link_one(index: &mut Index, lift: &GroupRow) -> Result<(), AllocError>
    requires rising { ListsRise index.old }
    requires other { is_just lift.now.group lift.now.master ≡ false }
    ensures ok { OnOk result (LinksOne lift.now index.old index.new) }
    ensures err { OnErr result (UnlinksOne lift.now index.old index.new) }
{
    match lift.master {
        Some(master) => index.join(lift.group.0, master.0),
        None => Ok(()),
    }
}

/// Takes the followers of these peer groups out of the lists of the masters that they were to get.
fn unlink(index: &mut Index, lifts: &[GroupRow])
    requires rising { ListsRise index.old }
    requires lifts { AreLifts lifts.now }
    ensures { Unlinks lifts.now index.old index.new }
{
    for lift in lifts {
        unlink_one(index, lift);
    }
}

/// Puts the followers of these peer groups into the lists of the masters that they get. Where
/// there is no room for one of them, none is there.
fn link(index: &mut Index, lifts: &[GroupRow]) -> Result<(), AllocError>
    requires rising { ListsRise index.old }
    requires lifts { AreLifts lifts.now }
    ensures ok { OnOk result (Links lifts.now index.old index.new) }
    ensures err { OnErr result (Unlinks lifts.now index.old index.new) }
{
    for lift in lifts {
        if let Err(error) = link_one(index, lift) {
            unlink(index, lifts);
            return Err(error);
        }
    }
    Ok(())
}

/// The same of slaves and of peer groups, and makes room for one more slave of this group: all of
/// it or nothing.
fn link_all(
    indexes: &mut Indexes,
    lifts: &[GroupRow],
    room: Option<GroupId>,
) -> Result<(), AllocError>
    requires rising { AllRise indexes.old }
    requires lifts { AreLifts lifts.now }
    requires slaves { AreApart lifts.now indexes.old.slaves }
    requires below { AreApart lifts.now indexes.old.below }
    ensures members { SameLists indexes.old.members indexes.new.members }
    ensures slaves { OnOk result (Links lifts.now indexes.old.slaves indexes.new.slaves) }
    ensures below { OnOk result (Links lifts.now indexes.old.below indexes.new.below) }
    ensures room { OnOk result (RoomFor room indexes.new.slaves) }
    ensures err { OnErr result (HaveSameLists indexes.old indexes.new) }
{
    link(&mut indexes.slaves, lifts)?;
    if let Err(error) = link(&mut indexes.below, lifts) {
        unlink(&mut indexes.slaves, lifts);
        return Err(error);
    }
    if let Err(error) = room_for(&mut indexes.slaves, room) {
        unlink(&mut indexes.slaves, lifts);
        unlink(&mut indexes.below, lifts);
        return Err(error);
    }
    Ok(())
}

/// Gives the lists of these peer groups up.
fn drop_lists(index: &mut Index, lifts: &[GroupRow])
    ensures lists { DropsAll lifts.now index.old index.new }
    ensures room { KeepsRooms lifts.now index.old index.new }
{
    for lift in lifts {
        index.drop_list(lift.group.0);
    }
}

/// The row of the slave with this master. Any other mount stays as it is.
pub fn under_master(master: Option<GroupId>, row: MemberRow) -> MemberRow
    ensures { result ≡ under_master master row }
{
    match row.membership {
        Membership::SlaveOf(_) => Membership::slave_of(master).row(row.mount),
        Membership::InGroup(_) | Membership::Private | Membership::Unbindable => row,
    }
}

/// Gives the slave of this number this master. Its row is found by halves.
fn set_master(members: &mut Rows<MemberRow>, number: u64, master: Option<GroupId>)
    requires { RiseFrom 0 members.old.rows }
    ensures { members.new.rows ≡ map (at_row (under_master master) number) members.old.rows }
{
    if let Ok(at) = members
        .as_slice()
        .binary_search_by_key(&number, |row| row.mount.0)
    {
        let row = members.as_slice()[at];
        members.set(at, under_master(master, row));
    }
}

/// Gives the peer group of this number this master. Its row is found by halves.
fn set_group_master(groups: &mut Rows<GroupRow>, number: u64, master: Option<GroupId>)
    requires { GroupsRise groups.old.rows }
    ensures { groups.new.rows ≡ map (at_group (group_under master) number) groups.old.rows }
{
    if let Ok(at) = groups
        .as_slice()
        .binary_search_by_key(&number, |row| row.group.0)
    {
        let row = groups.as_slice()[at];
        groups.set(at, GroupRow { master, ..row });
    }
}

/// Gives these slaves the master that is given for the peer group.
fn set_masters(members: &mut Rows<MemberRow>, mounts: &[u64], lift: &GroupRow)
    requires { RiseFrom 0 members.old.rows }
    ensures { members.new.rows ≡
        map (at_rows (under_master lift.now.master) mounts.now) members.old.rows }
{
    for mount in mounts {
        set_master(members, *mount, lift.master);
    }
}

/// Gives these peer groups the master that is given for this one.
fn set_group_masters(groups: &mut Rows<GroupRow>, numbers: &[u64], lift: &GroupRow)
    requires { GroupsRise groups.old.rows }
    ensures { groups.new.rows ≡
        map (at_groups (group_under lift.now.master) numbers.now) groups.old.rows }
{
    for group in numbers {
        set_group_master(groups, *group, lift.master);
    }
}

/// Gives the slaves of each of these peer groups the master that is given for it.
fn lift_members(members: &mut Rows<MemberRow>, slaves: &Index, lifts: &[GroupRow])
    requires rising { RiseFrom 0 members.old.rows }
    requires lifts { AreLifts lifts.now }
    requires listed { (g : ℕ) → is_among (group_numbers lifts.now) g ≡ true →
        listed slaves.now g ≡ mounts_where (has_master g) members.old.rows }
    ensures { members.new.rows ≡ map (lift_member lifts.now) members.old.rows }
{
    for lift in lifts {
        set_masters(members, slaves.list(lift.group.0), lift);
    }
}

/// Gives the groups below each of these peer groups the master that is given for it.
fn lift_groups(groups: &mut Rows<GroupRow>, below: &Index, lifts: &[GroupRow])
    requires rising { GroupsRise groups.old.rows }
    requires lifts { AreLifts lifts.now }
    requires listed { (g : ℕ) → is_among (group_numbers lifts.now) g ≡ true →
        listed below.now g ≡ groups_where (is_below_it g) groups.old.rows }
    ensures { groups.new.rows ≡ map (lift_group lifts.now) groups.old.rows }
{
    for lift in lifts {
        set_group_masters(groups, below.list(lift.group.0), lift);
    }
}

/// Gives the followers of each of these peer groups the master that is given for it, all or none,
/// and makes room for one more slave of this group. It costs what the followers are.
pub fn lift_followers(
    members: &mut Rows<MemberRow>,
    groups: &mut Rows<GroupRow>,
    indexes: &mut Indexes,
    lifts: &[GroupRow],
    room: Option<GroupId>,
) -> Result<(), AllocError>
    requires rising { RiseFrom 0 members.old.rows }
    requires groups_rising { GroupsRise groups.old.rows }
    requires members { ListMembers members.old.rows indexes.old }
    requires groups { ListGroups groups.old.rows indexes.old }
    requires lifts { AreLifts lifts.now }
    requires other { is_one_of (group_numbers lifts.now) room ≡ false }
    ensures members { OnOk result (members.new.rows ≡ map (lift_member lifts.now) members.old.rows) }
    ensures groups { OnOk result (groups.new.rows ≡ map (lift_group lifts.now) groups.old.rows) }
    ensures members_listed { OnOk result (ListMembers members.new.rows indexes.new) }
    ensures groups_listed { OnOk result (ListGroups groups.new.rows indexes.new) }
    ensures room { OnOk result (RoomFor room indexes.new.slaves) }
    ensures members_stay { OnErr result (members.new.rows ≡ members.old.rows) }
    ensures groups_stay { OnErr result (groups.new.rows ≡ groups.old.rows) }
    ensures lists_stay { OnErr result (HaveSameLists indexes.old indexes.new) }
{
    link_all(indexes, lifts, room)?;
    lift_members(members, &indexes.slaves, lifts);
    lift_groups(groups, &indexes.below, lifts);
    drop_lists(&mut indexes.slaves, lifts);
    drop_lists(&mut indexes.below, lifts);
    Ok(())
}
