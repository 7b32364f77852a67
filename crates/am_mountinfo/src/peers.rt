//! Which peer groups have mounts in which namespaces.

ghost use Rattle.std.specs.Prelude.{◌≡◌, ℕ, false, IfOk, OnOk};
ghost use Rattle.am_group.specs.{group_of};
ghost use Rattle.am_mountinfo.specs.Peers.{has_site, ArePeers, HasOneSiteMore};

use am_names::{GroupId, MountId, NsId};
use am_world::World;
use indexmap::IndexSet;
use std::alloc::{AllocError, Global};

/// The peer groups that have a mount in a namespace, each with its namespace.
#[derive(Drop)]
pub struct Peers {
    sites: IndexSet<(u32, u64)>,
}

/// The peer group that a mount is in.
pub fn group_of(world: &World, mount: MountId) -> Option<GroupId>
    ensures { result ≡ group_of world.now.kernel.table.groups mount }
{
    world.member(mount)?.group()
}

impl Peers {
    /// Those of no mount.
    fn new(alloc: Global) -> Peers
        ensures { (ns group : ℕ) → has_site result ns group ≡ false }
    {
        Peers {
            sites: IndexSet::new(alloc),
        }
    }

    /// Those of all mounts of a world.
    pub fn of(alloc: Global, world: &World) -> Result<Peers, AllocError>
        ensures { IfOk result (λ peers. ArePeers peers world.now.kernel.table.groups
            world.now.kernel.table.rows) }
    {
        let mut peers = Peers::new(alloc);
        for row in world.mounts() {
            peers.add(row.ns, group_of(world, row.mount))?;
        }
        Ok(peers)
    }

    /// Whether the peer group has a mount in the namespace.
    pub fn has(&self, ns: NsId, group: GroupId) -> bool
        ensures { result ≡ has_site self.now ns group }
    {
        self.sites.contains(&(ns.0, group.0))
    }

    /// One more mount of this namespace, and its peer group, if it is in one.
    fn add(&mut self, ns: NsId, group: Option<GroupId>) -> Result<(), AllocError>
        ensures { OnOk result (HasOneSiteMore ns group self.old self.new) }
    {
        if let Some(group) = group {
            self.sites.insert((ns.0, group.0))?;
        }
        Ok(())
    }
}
