//! How a mount takes part in propagation.

ghost use Rattle.std.specs.Prelude.{◌≡◌};
ghost use Rattle.am_names.specs.Memberships.{row_with, slave_with};

use crate::number::{GroupId, MountId};
use crate::row::MemberRow;

/// How a mount takes part in propagation (sharedsubtree.rst, 5a).
#[derive(Clone, Copy, PartialEq, Eq)]
pub enum Membership {
    /// Shared, in this peer group.
    InGroup(GroupId),
    /// A slave of this peer group.
    SlaveOf(GroupId),
    Private,
    /// Private, and not to be bound.
    Unbindable,
}

impl Membership {
    /// A slave of this peer group; private where there is none.
    pub fn slave_of(master: Option<GroupId>) -> Membership
        ensures { result ≡ slave_with master }
    {
        match master {
            Some(group) => Membership::SlaveOf(group),
            None => Membership::Private,
        }
    }

    /// The row of a mount with this membership.
    pub fn row(self, mount: MountId) -> MemberRow
        ensures { result ≡ row_with self mount }
    {
        MemberRow {
            mount,
            membership: self,
        }
    }
}
