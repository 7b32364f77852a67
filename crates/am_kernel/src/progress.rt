//! Walks that begin, and how they go on.

ghost use Rattle.std.specs.Prelude.{◌≡◌, IfOk};
ghost use Rattle.am_kernel.specs.Walks.{walk_row};

use crate::row::WalkRow;
use am_names::{AbsPath, Errno, NsId, Position, Seconds, Token, WalkerId};
use std::alloc::{AllocError, Global};

/// A walk that begins.
#[derive(Debug, Drop)]
pub struct Attempt<'a> {
    pub walker: WalkerId,
    pub ns: NsId,
    pub path: AbsPath<'a>,
    /// How many walks the walker began on this path, this one among them.
    pub attempts: u32,
    pub moment: Seconds,
}

impl Attempt<'_> {
    /// The row of a walker that waits: it keeps the path.
    pub fn to_row(&self, alloc: Global) -> Result<WalkRow, AllocError>
        ensures { IfOk result (λ row. row ≡ walk_row self.now) }
    {
        Ok(WalkRow {
            walker: self.walker,
            ns: self.ns,
            path: self.path.to_place(alloc)?,
            attempts: self.attempts,
        })
    }
}

/// How a walk goes on that began, or is taken up again, and how an expiry goes on.
#[derive(Debug, Drop)]
pub enum Progress {
    /// It has arrived; the walker is inside the mount.
    Arrived(Position),
    /// It waits on this token.
    Waits(Token),
    /// It has failed; the walker is idle.
    Failed(Errno),
    /// What was asked to expire has expired; the walker is idle.
    Expired,
}
