//! Which mounts receive propagation from another: the members and slaves of its peer group and of
//! the groups under that one.

ghost use Rattle.std.specs.Prelude.{◌≡◌, ◌↔◌, ◌==◌, ◌++◌, ℕ, true, not, filter, flat_map, None, IfOk, OnOk};
ghost use Rattle.std.specs.List.{Contains};
ghost use Rattle.std.specs.List.Sorted.{IsStrictlyIncreasing};
ghost use Rattle.am_names.specs.{RefusedAs, is_among};
ghost use Rattle.am_group.specs.Changes.{has_members};
ghost use Rattle.am_group.specs.Copies.{AreOfReceivers, receiving_groups};
ghost use Rattle.am_group.specs.Propagation.{Receives};
ghost use Rattle.am_group.specs.Receivers.{groups_under, under_these, receivers_of};
ghost use Rattle.am_group.specs.Walk.{AreMet, homed_at, live_below, turns_of};

use crate::groups::Groups;
use am_names::{Errno, GroupId, MountId};
use std::alloc::{AllocError, Global};

/// The peer groups without the mount's own.
fn without_own(alloc: Global, groups: &[GroupId], own: GroupId) -> Result<Vec<GroupId>, AllocError>
    ensures { IfOk result (λ v. v.items ≡ filter (λ g. not (g == own)) groups.now) }
{
    let mut others = Vec::new(alloc);
    for group in groups {
        if *group != own {
            others.push(*group)?;
        }
    }
    Ok(others)
}

/// The same peer groups in order of number, each once.
fn in_order(mut groups: Vec<GroupId>) -> Vec<GroupId>
    ensures rising { IsStrictlyIncreasing result.items }
    ensures same { (g : ℕ) → is_among result.items g ≡ is_among groups.items g }
{
    groups.sort_unstable_by_key(|group| group.0);
    groups.dedup();
    groups
}

/// All of these but the mount itself.
fn others(alloc: Global, numbers: &[u64], mount: MountId) -> Result<Vec<MountId>, AllocError>
    ensures { IfOk result (λ v. v.items ≡ filter (λ x. not (x == mount)) numbers.now) }
{
    let mut others = Vec::new(alloc);
    for number in numbers {
        if *number != mount.0 {
            others.push(MountId(*number))?;
        }
    }
    Ok(others)
}

impl Groups {
    /// Whether the peer group has members.
    fn has_members(&self, group: u64) -> bool
        ensures { result ≡ has_members self.now.members group }
    {
        !self.indexes.members.list(group).is_empty()
    }

    /// Adds those peer groups below this one that have members.
    fn add_below(&self, pending: &mut Vec<u64>, group: u64) -> Result<(), AllocError>
        ensures { OnOk result (pending.new.items ≡
            pending.old.items ++ live_below self.now group) }
    {
        for below in self.indexes.below.list(group) {
            if self.has_members(*below) {
                pending.push(*below)?;
            }
        }
        Ok(())
    }

    /// The peer group, which has members, and those under it, without those that have none, and
    /// what is under those alone. Each has one master, so that none is met twice.
    fn met(&self, alloc: Global, own: GroupId) -> Result<Vec<u64>, AllocError>
        requires { has_members self.now.members own ≡ true }
        ensures { IfOk result (λ v. AreMet self.now own v.items) }
    {
        // For the checker: what the groups keep is known where a field is named.
        let _members = &self.members;
        let mut met = Vec::new(alloc);
        let mut pending = Vec::new(alloc);
        pending.push(own.0)?;
        while let Some(group) = pending.pop() {
            self.add_below(&mut pending, group)?;
            met.push(group)?;
        }
        Ok(met)
    }

    /// The same in rising order.
    fn groups_under(&self, alloc: Global, own: GroupId) -> Result<Vec<u64>, AllocError>
        requires { has_members self.now.members own ≡ true }
        ensures { IfOk result (λ v. v.items ≡ groups_under self.now own) }
    {
        // For the checker: what the groups keep is known where a field is named.
        let _members = &self.members;
        let mut under = self.met(alloc, own)?;
        under.sort_unstable();
        Ok(under)
    }

    /// Adds the mounts whose home is the peer group: its members, and the slaves of it that are in
    /// none.
    fn add_home(&self, found: &mut Vec<u64>, group: u64) -> Result<(), AllocError>
        ensures { OnOk result (found.new.items ≡ found.old.items ++ homed_at self.now group) }
    {
        found.extend_from_slice(self.indexes.members.list(group))?;
        for slave in self.indexes.slaves.list(group) {
            if self.group_of(MountId(*slave)).is_none() {
                found.push(*slave)?;
            }
        }
        Ok(())
    }

    /// The mounts whose home is one of these peer groups.
    fn homes(&self, alloc: Global, groups: &[u64]) -> Result<Vec<u64>, AllocError>
        ensures { IfOk result (λ v. v.items ≡ flat_map (homed_at self.now) groups.now) }
    {
        let mut found = Vec::new(alloc);
        for group in groups {
            self.add_home(&mut found, *group)?;
        }
        Ok(found)
    }

    /// The other mounts whose home is one of these peer groups.
    fn homed(
        &self,
        alloc: Global,
        mount: MountId,
        groups: &[u64],
    ) -> Result<Vec<MountId>, AllocError>
        requires { IsStrictlyIncreasing groups.now }
        ensures { IfOk result (λ v. v.items ≡ under_these groups.now mount self.now.members) }
    {
        // For the checker: what the groups keep is known where a field is named.
        let _members = &self.members;
        let mut found = self.homes(alloc, groups)?;
        found.sort_unstable();
        let others = others(alloc, found.as_slice(), mount)?;
        Ok(others)
    }

    /// The mounts that receive propagation from this one (sharedsubtree.rst, 5a), and how many
    /// peer groups were met to find them.
    pub fn receivers_counted(
        &self,
        alloc: Global,
        mount: MountId,
    ) -> Result<(Vec<MountId>, usize), Errno>
        ensures refusal { RefusedAs None result }
        ensures exact { IfOk result (λ r. (c : ℕ) →
            Contains r.0.items c ↔ Receives self.now mount c) }
        ensures rising { IfOk result (λ r. IsStrictlyIncreasing r.0.items) }
        ensures listed { IfOk result (λ r. r.0.items ≡ receivers_of self.now mount) }
        ensures turns { IfOk result (λ r. r.1 ≡ turns_of self.now mount) }
    {
        // For the checker: what the groups keep is known where a field is named.
        let _members = &self.members;
        let Some(own) = self.group_of(mount) else {
            return Ok((Vec::new(alloc), 0));
        };
        let under = self.groups_under(alloc, own)?;
        let homed = self.homed(alloc, mount, under.as_slice())?;
        Ok((homed, under.len()))
    }

    /// The mounts that receive propagation from this one (sharedsubtree.rst, 5a).
    pub fn receivers(&self, alloc: Global, mount: MountId) -> Result<Vec<MountId>, Errno>
        ensures refusal { RefusedAs None result }
        ensures exact { IfOk result (λ v. (c : ℕ) →
            Contains v.items c ↔ Receives self.now mount c) }
        ensures rising { IfOk result (λ v. IsStrictlyIncreasing v.items) }
        ensures listed { IfOk result (λ v. v.items ≡ receivers_of self.now mount) }
    {
        let (receivers, _) = self.receivers_counted(alloc, mount)?;
        Ok(receivers)
    }

    fn groups_of(&self, alloc: Global, receivers: &[MountId]) -> Result<Vec<GroupId>, AllocError>
        ensures { IfOk result (λ v. AreOfReceivers self.now receivers.now v.items) }
    {
        // For the checker: what the groups keep is known where a field is named.
        let _members = &self.members;
        let mut groups = Vec::new(alloc);
        for receiver in receivers {
            if let Some(group) = self.group_of(*receiver) {
                groups.push(group)?;
            }
        }
        Ok(groups)
    }

    /// The peer groups that the receivers are in, in order of number, each once.
    pub(crate) fn groups_in_order(
        &self,
        alloc: Global,
        receivers: &[MountId],
    ) -> Result<Vec<GroupId>, AllocError>
        ensures rising { IfOk result (λ v. IsStrictlyIncreasing v.items) }
        ensures exact { IfOk result (λ v. AreOfReceivers self.now receivers.now v.items) }
    {
        // For the checker: what the groups keep is known where a field is named.
        let _members = &self.members;
        let groups = self.groups_of(alloc, receivers)?;
        Ok(in_order(groups))
    }

    /// The peer groups that these mounts, receivers of one, are in, without that one's own, in
    /// order of making: those for which a mount on it makes fresh groups.
    pub fn receiving_groups(
        &self,
        alloc: Global,
        receivers: &[MountId],
        own: GroupId,
    ) -> Result<Vec<GroupId>, AllocError>
        ensures { IfOk result (λ v. v.items ≡ receiving_groups self.now receivers.now own) }
    {
        // For the checker: what the groups keep is known where a field is named.
        let _members = &self.members;
        let receiving = self.groups_in_order(alloc, receivers)?;
        let others = without_own(alloc, receiving.as_slice(), own)?;
        Ok(others)
    }
}
