//! The mounts and the peer groups by the groups that they name.

ghost use Rattle.std.specs.Prelude.{◌≡◌, ◌≤◌, length, take, IfOk, OnOk, OnErr};
ghost use Rattle.am_index.specs.{AddsTo, DropsLast, ListsRise, SameLists, TakesFrom};
ghost use Rattle.am_group.specs.declared.indexes.Indexes.{Indexes};
ghost use Rattle.am_group.specs.Changes.{is_just};
ghost use Rattle.am_group.specs.Indexed.{RoomFor, Moves, HaveSameLists, HaveRoom, AreWith, AreWithout, AreMoved, AreAdded, HasGroupRoom, IsWithGroup, IsWithoutGroup, GroupsAreAdded, AreIndexed, AllAreAdded};
ghost use Rattle.am_group.specs.Members.{no_mounts};

use am_index::Index;
use am_names::{GroupId, GroupRow, MemberRow};
use std::alloc::{AllocError, Global};

/// Makes room in the list of the group, if there is one.
pub fn room_for(index: &mut Index, group: Option<GroupId>) -> Result<(), AllocError>
    ensures same { SameLists index.old index.new }
    ensures ok { OnOk result (RoomFor group index.new) }
{
    match group {
        Some(group) => index.make_room(group.0),
        None => Ok(()),
    }
}

/// Adds it to the list of the group, if there is one, as the last.
fn add_to(index: &mut Index, group: Option<GroupId>, item: u64)
    requires { RoomFor group index.old }
    ensures { AddsTo (λ n. is_just n group) item index.old index.new }
{
    if let Some(group) = group {
        index.add(group.0, item);
    }
}

/// Takes it out of the list of the group, if there is one.
fn take_from(index: &mut Index, group: Option<GroupId>, item: u64)
    requires { ListsRise index.old }
    ensures { TakesFrom (λ n. is_just n group) item index.old index.new }
{
    if let Some(group) = group {
        index.remove(group.0, item);
    }
}

/// Takes the last out of the list of the group, if there is one.
fn drop_from(index: &mut Index, group: Option<GroupId>)
    ensures { DropsLast (λ n. is_just n group) index.old index.new }
{
    if let Some(group) = group {
        index.drop_last(group.0);
    }
}

/// Moves it from the list of the one group to that of the other.
fn move_item(index: &mut Index, from: Option<GroupId>, to: Option<GroupId>, item: u64)
    requires rising { ListsRise index.old }
    requires room { RoomFor to index.old }
    ensures { Moves from to item index.old index.new }
{
    if from == to {
        return;
    }
    match (from, to) {
        (Some(from), Some(to)) => {
            index.put(to.0, item);
            index.remove(from.0, item);
        }
        (Some(from), None) => index.remove(from.0, item),
        (None, Some(to)) => index.put(to.0, item),
        (None, None) => (),
    }
}

/// Which mounts are in a peer group, which name it as their master, and which groups do.
#[derive(Drop)]
pub struct Indexes {
    pub members: Index,
    pub slaves: Index,
    pub below: Index,
}

impl Indexes {
    /// No mount and no peer group.
    pub fn new(alloc: Global) -> Indexes
        ensures { AreIndexed no_mounts result }
    {
        Indexes {
            members: Index::new(alloc),
            slaves: Index::new(alloc),
            below: Index::new(alloc),
        }
    }

    /// The same lists once more.
    pub fn copy(&self, alloc: Global) -> Result<Indexes, AllocError>
        ensures { IfOk result (HaveSameLists self.now) }
    {
        Ok(Indexes {
            members: self.members.copy(alloc)?,
            slaves: self.slaves.copy(alloc)?,
            below: self.below.copy(alloc)?,
        })
    }

    /// Makes room for the mount.
    pub fn make_room(&mut self, row: &MemberRow) -> Result<(), AllocError>
        ensures same { HaveSameLists self.old self.new }
        ensures ok { OnOk result (HaveRoom row.now self.new) }
    {
        room_for(&mut self.members, row.group())?;
        room_for(&mut self.slaves, row.master())
    }

    /// Makes room for the peer group.
    pub fn make_group_room(&mut self, row: &GroupRow) -> Result<(), AllocError>
        ensures same { HaveSameLists self.old self.new }
        ensures ok { OnOk result (HasGroupRoom row.now self.new) }
    {
        room_for(&mut self.below, row.master)
    }

    /// Makes room for both.
    pub fn make_all_room(&mut self, row: &MemberRow, group: &GroupRow) -> Result<(), AllocError>
        ensures same { HaveSameLists self.old self.new }
        ensures ok { OnOk result (HaveRoom row.now self.new) }
        ensures group { OnOk result (HasGroupRoom group.now self.new) }
    {
        self.make_room(row)?;
        room_for(&mut self.below, group.master)
    }

    /// Adds the mount, for which there is room, as the last.
    fn add(&mut self, row: &MemberRow)
        requires { HaveRoom row.now self.old }
        ensures { AreWith row.now self.old self.new }
    {
        add_to(&mut self.members, row.group(), row.mount.0);
        add_to(&mut self.slaves, row.master(), row.mount.0);
    }

    /// Adds the peer group, for which there is room, as the last.
    pub fn add_group(&mut self, row: &GroupRow)
        requires { HasGroupRoom row.now self.old }
        ensures { IsWithGroup row.now self.old self.new }
    {
        add_to(&mut self.below, row.master, row.group.0);
    }

    /// Takes the mount out.
    pub fn remove(&mut self, row: &MemberRow)
        requires members { ListsRise self.old.members }
        requires slaves { ListsRise self.old.slaves }
        ensures { AreWithout row.now self.old self.new }
    {
        take_from(&mut self.members, row.group(), row.mount.0);
        take_from(&mut self.slaves, row.master(), row.mount.0);
    }

    /// Takes the peer group out.
    pub fn remove_group(&mut self, row: &GroupRow)
        requires { ListsRise self.old.below }
        ensures { IsWithoutGroup row.now self.old self.new }
    {
        take_from(&mut self.below, row.master, row.group.0);
    }

    /// The mount's row becomes another, for which there is room.
    pub fn replace(&mut self, row: &MemberRow, new: &MemberRow)
        requires members { ListsRise self.old.members }
        requires slaves { ListsRise self.old.slaves }
        requires room { HaveRoom new.now self.old }
        ensures { AreMoved row.now new.now self.old self.new }
    {
        move_item(&mut self.members, row.group(), new.group(), row.mount.0);
        move_item(&mut self.slaves, row.master(), new.master(), row.mount.0);
    }

    /// Takes the first of these mounts back, so many, which were added last.
    fn take_back(&mut self, rows: &[MemberRow], count: usize)
        requires { count ≤ length rows.now }
        ensures { (old : Indexes) → AreAdded (take count rows.now) old self.old →
            HaveSameLists old self.new }
    {
        let mut left = count;
        while left > 0 {
            left -= 1;
            let row = &rows[left];
            drop_from(&mut self.members, row.group());
            drop_from(&mut self.slaves, row.master());
        }
    }

    /// Adds these mounts as the last, all or none.
    fn add_members(&mut self, rows: &[MemberRow]) -> Result<(), AllocError>
        ensures ok { OnOk result (AreAdded rows.now self.old self.new) }
        ensures err { OnErr result (HaveSameLists self.old self.new) }
    {
        for at in 0..rows.len() {
            let row = &rows[at];
            if let Err(error) = self.make_room(row) {
                self.take_back(rows, at);
                return Err(error);
            }
            self.add(row);
        }
        Ok(())
    }

    /// Takes the first of these peer groups back, so many, which were added last.
    fn take_groups_back(&mut self, rows: &[GroupRow], count: usize)
        requires { count ≤ length rows.now }
        ensures { (old : Indexes) → GroupsAreAdded (take count rows.now) old self.old →
            HaveSameLists old self.new }
    {
        let mut left = count;
        while left > 0 {
            left -= 1;
            let row = &rows[left];
            drop_from(&mut self.below, row.master);
        }
    }

    /// Adds these peer groups as the last, all or none.
    fn add_groups(&mut self, rows: &[GroupRow]) -> Result<(), AllocError>
        ensures ok { OnOk result (GroupsAreAdded rows.now self.old self.new) }
        ensures err { OnErr result (HaveSameLists self.old self.new) }
    {
        for at in 0..rows.len() {
            let row = &rows[at];
            if let Err(error) = self.make_group_room(row) {
                self.take_groups_back(rows, at);
                return Err(error);
            }
            self.add_group(row);
        }
        Ok(())
    }

    /// Adds these mounts and peer groups as the last, all or none.
    pub fn add_all(&mut self, members: &[MemberRow], groups: &[GroupRow]) -> Result<(), AllocError>
        ensures ok { OnOk result (AllAreAdded members.now groups.now self.old self.new) }
        ensures err { OnErr result (HaveSameLists self.old self.new) }
    {
        self.add_members(members)?;
        if let Err(error) = self.add_groups(groups) {
            self.take_back(members, members.len());
            return Err(error);
        }
        Ok(())
    }
}
