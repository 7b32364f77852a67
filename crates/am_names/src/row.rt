//! The rows of which the kernel's state is made.

ghost use Rattle.std.specs.Prelude.{◌≡◌, ◌↔◌, IsTrue, IfOk};

use crate::membership::Membership;
use crate::number::{FsId, GroupId, MountId, NsId, Token, WalkerId};
use crate::place::Place;
use crate::trigger::{Status, Trigger};
use crate::waiters::Waiters;
use std::alloc::{AllocError, Global};
use std::marker::Model;

/// A mount and a place below its root (Linux: `struct path`).
#[derive(Debug, Drop)]
pub struct Position {
    pub mount: MountId,
    pub place: Place,
}

impl Position {
    /// The same position once more.
    pub fn copy(&self, alloc: Global) -> Result<Position, AllocError>
        ensures { IfOk result (λ position. position ≡ self.now) }
    {
        Ok(Position {
            mount: self.mount,
            place: self.place.copy(alloc)?,
        })
    }

    /// Whether both are the same mount and the same place in it.
    pub fn is_same(&self, other: &Position) -> bool
        ensures { IsTrue result ↔ (self.now ≡ other.now) }
    {
        self.mount == other.mount && self.place.is_same(&other.place)
    }
}

/// A mount, but for its propagation. These fields never change.
#[derive(Debug, Drop)]
pub struct MountRow {
    pub mount: MountId,
    pub ns: NsId,
    pub fs: FsId,
    /// The mount of which this one is a propagated copy, or itself.
    pub origin: MountId,
    /// Where it is mounted; none for the root mount of a namespace.
    pub mountpoint: Option<Position>,
}

impl MountRow {
    /// The same row once more.
    pub fn copy(&self, alloc: Global) -> Result<MountRow, AllocError>
        ensures { IfOk result (λ row. row ≡ self.now) }
    {
        let mountpoint = match &self.mountpoint {
            Some(position) => Some(position.copy(alloc)?),
            None => None,
        };
        Ok(MountRow {
            mount: self.mount,
            ns: self.ns,
            fs: self.fs,
            origin: self.origin,
            mountpoint,
        })
    }

    /// Whether both are the same mount, mounted at the same place.
    pub fn is_same(&self, other: &MountRow) -> bool
        ensures { IsTrue result ↔ (self.now ≡ other.now) }
    {
        self.mount == other.mount
            && self.ns == other.ns
            && self.fs == other.fs
            && self.origin == other.origin
            && is_same_mountpoint(&self.mountpoint, &other.mountpoint)
    }
}

/// Whether both are none, or the same position.
fn is_same_mountpoint(one: &Option<Position>, other: &Option<Position>) -> bool
    ensures { IsTrue result ↔ (one.now ≡ other.now) }
{
    match (one, other) {
        (None, None) => true,
        (Some(position), Some(other)) => position.is_same(other),
        (None, Some(_)) | (Some(_), None) => false,
    }
}

/// The propagation of a mount (sharedsubtree.rst, 5a). Clauses see its peer group, its master and
/// whether it is not to be bound.
#[derive(Clone, Copy, PartialEq)]
pub struct MemberRow {
    pub mount: MountId,
    pub membership: Membership,
}

impl Model for MemberRow {
    ghost use Rattle.am_names.specs.Member.{MemberRow};

    ghost Value = { MemberRow };

    ghost use Rattle.am_names.specs.Memberships.{row_with};
    ghost use Rattle.am_names.specs.MemberView.{inside_of, stored_back};

    ghost view = { λ r. row_with r.membership r.mount };

    ghost inverse = { inside_of };

    ghost inverse_ok = { λ r _. stored_back r };
}

impl MemberRow {
    /// The peer group of a shared mount.
    pub fn group(&self) -> Option<GroupId>
        ensures { result ≡ self.now.group }
    {
        match self.membership {
            Membership::InGroup(group) => Some(group),
            Membership::SlaveOf(_) | Membership::Private | Membership::Unbindable => None,
        }
    }

    /// The master peer group of a slave that is not shared. A shared mount's master is its group's.
    pub fn master(&self) -> Option<GroupId>
        ensures { result ≡ self.now.master }
    {
        match self.membership {
            Membership::SlaveOf(group) => Some(group),
            Membership::InGroup(_) | Membership::Private | Membership::Unbindable => None,
        }
    }

    /// Whether it is private, and not to be bound.
    pub fn is_unbindable(&self) -> bool
        ensures { result ≡ self.now.unbindable }
    {
        self.membership == Membership::Unbindable
    }
}

/// A peer group and its master peer group.
#[derive(Clone, Copy, PartialEq)]
pub struct GroupRow {
    pub group: GroupId,
    pub master: Option<GroupId>,
}

/// What the daemon is asked for.
#[derive(Clone, Copy, Debug, PartialEq)]
pub enum TokenKind {
    /// A mount is pending (Linux: AUTOFS_INF_PENDING).
    Missing,
    /// The trigger is expiring (Linux: AUTOFS_INF_EXPIRING).
    Expire,
}

/// An open token: the daemon has not acknowledged it yet.
#[derive(Debug, Drop)]
pub struct OpenToken {
    pub token: Token,
    pub trigger: Trigger,
    pub kind: TokenKind,
    pub waiters: Waiters,
}

/// A walker that waits, or has not collected its status yet. The token's trigger and kind
/// stay with it when the token's own row has gone.
#[derive(Clone, Copy, Debug, PartialEq)]
pub struct WaitRow {
    pub walker: WalkerId,
    pub token: Token,
    pub trigger: Trigger,
    pub kind: TokenKind,
    /// None until the token is acknowledged.
    pub status: Option<Status>,
}
