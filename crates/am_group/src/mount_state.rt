//! The states of a mount, and what the four changes make of them (sharedsubtree.rst, 5a).

ghost use Rattle.std.specs.Prelude.{◌≡◌, false};
ghost use Rattle.am_group.specs.Changes.{shared_row, slave_row};
ghost use Rattle.am_group.specs.MountStates.{kind_after};
ghost use Rattle.am_group.specs.Tables.{row_as};

use am_names::{GroupId, MemberRow, Membership};

/// The state of a mount (sharedsubtree.rst, 5a).
#[derive(Clone, Copy, Debug, PartialEq, Eq)]
pub enum MountState {
    Shared,
    Slave,
    /// Shared and slave: its peer group has a master.
    SharedSlave,
    Private,
    /// Private, and not to be bound.
    Unbindable,
}

/// A change of a mount's state (sharedsubtree.rst, 5a; `mount --make-shared` and so on).
#[derive(Clone, Copy, Debug, PartialEq, Eq)]
pub enum Change {
    MakeShared,
    MakeSlave,
    MakePrivate,
    MakeUnbindable,
}

/// The table of changes: from each state, what the four changes make of a mount that has peers.
/// The arms of each change are one column.
macro_rules! table {
    ($change:ident, $kind:ident) => {
        table!(
            $change, $kind;
            // from     make-shared  make-slave  make-private  make-unbindable
            Shared      Shared       Slave       Private       Unbindable,
            Slave       SharedSlave  Slave       Private       Unbindable,
            SharedSlave SharedSlave  Slave       Private       Unbindable,
            Private     Shared       Private     Private       Unbindable,
            Unbindable  Shared       Unbindable  Private       Unbindable,
        )
    };
    (
        $change:ident, $kind:ident;
        $($from:ident $shared:ident $slave:ident $private:ident $unbindable:ident,)*
    ) => {
        match $change {
            Change::MakeShared => match $kind { $(MountState::$from => MountState::$shared,)* },
            Change::MakeSlave => match $kind { $(MountState::$from => MountState::$slave,)* },
            Change::MakePrivate => match $kind { $(MountState::$from => MountState::$private,)* },
            Change::MakeUnbindable => match $kind {
                $(MountState::$from => MountState::$unbindable,)*
            },
        }
    };
}

/// What a change makes of a mount that isn't alone in its peer group.
pub(crate) fn asked(change: Change, kind: MountState) -> MountState
    ensures { result ≡ kind_after change false kind }
{
    table!(change, kind)
}

fn shared_row(fresh: GroupId, row: MemberRow) -> MemberRow
    ensures { result ≡ shared_row fresh row }
{
    match row.membership {
        Membership::InGroup(_) => row,
        Membership::SlaveOf(_) | Membership::Private | Membership::Unbindable => {
            Membership::InGroup(fresh).row(row.mount)
        }
    }
}

fn slave_row(row: MemberRow) -> MemberRow
    ensures { result ≡ slave_row row }
{
    match row.group() {
        Some(group) => Membership::SlaveOf(group).row(row.mount),
        None => row,
    }
}

/// The row of a mount that comes to this state. A shared one that was in no peer group comes into
/// the fresh one; a slave is that of the peer group that it leaves.
pub(crate) fn row_as(kind: MountState, fresh: GroupId, row: MemberRow) -> MemberRow
    ensures { result ≡ row_as kind fresh row }
{
    match kind {
        MountState::Shared | MountState::SharedSlave => shared_row(fresh, row),
        MountState::Slave => slave_row(row),
        MountState::Private => Membership::Private.row(row.mount),
        MountState::Unbindable => Membership::Unbindable.row(row.mount),
    }
}
