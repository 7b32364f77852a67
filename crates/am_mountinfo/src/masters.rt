//! Where mounts receive propagation from.

ghost use Rattle.std.specs.Prelude.{◌≡◌};
ghost use Rattle.am_group.specs.{master_of};
ghost use Rattle.am_mountinfo.specs.Mountinfo.{is_number, dominating, but, source_of};
ghost use Rattle.am_mountinfo.specs.Peers.{ArePeers};

use crate::peers::{Peers, group_of};
use am_names::{GroupId, MountId, MountRow};
use am_world::World;

/// The master of a mount.
pub fn master_of(world: &World, mount: MountId) -> Option<GroupId>
    ensures { result ≡ master_of world.now.kernel.table.groups mount }
{
    let row = world.member(mount)?;
    match row.group() {
        Some(group) => world.master_of_group(group),
        None => row.master(),
    }
}

/// Where a mount receives from in its namespace, if that isn't its master.
pub(crate) fn source_of(world: &World, peers: &Peers, row: &MountRow) -> Option<GroupId>
    requires { ArePeers peers.now world.now.kernel.table.groups world.now.kernel.table.rows }
    ensures { result ≡ source_of world.now.kernel.table row.now }
{
    but(master_of(world, row.mount), dominating(world, peers, row))
}

fn but(master: Option<GroupId>, group: Option<GroupId>) -> Option<GroupId>
    ensures { result ≡ but master group }
{
    let group = group?;
    if is_number(group, master) {
        return None;
    }
    Some(group)
}

fn is_number(group: GroupId, other: Option<GroupId>) -> bool
    ensures { result ≡ is_number group other }
{
    match other {
        None => false,
        Some(other) => other == group,
    }
}

/// Of the peer groups above a mount the closest that has a mount in its namespace.
fn dominating(world: &World, peers: &Peers, row: &MountRow) -> Option<GroupId>
    requires { ArePeers peers.now world.now.kernel.table.groups world.now.kernel.table.rows }
    ensures { result ≡ dominating world.now.kernel.table row.now }
{
    let mut above = master_of(world, row.mount);
    let mut most = match above {
        None => 0,
        Some(group) => group.0,
    };
    while let Some(group) = above {
        if most == 0 {
            return None;
        }
        if peers.has(row.ns, group) {
            return Some(group);
        }
        above = world.master_of_group(group);
        most -= 1;
    }
    None
}
