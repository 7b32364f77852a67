//! How a walk ends.

use am_names::{Errno, MountId, Position, Token, Trigger};

/// Where a walk along a path stops.
#[derive(Debug, Drop)]
pub enum Stop {
    /// It has come to the end of its path.
    Arrive(Position),
    /// A token of a trigger is open, on which it waits.
    Block(Token),
    /// Nothing is mounted on a trigger: the daemon is to be notified.
    Missing(Trigger),
    /// It can't go on.
    Refuse(Errno),
}

/// What a walk meets at a place.
#[derive(Debug, Drop)]
pub enum Next {
    /// Nothing is in its way: it stands there.
    Rests,
    /// It stops.
    Halts(Stop),
    /// Something is mounted there, which it enters.
    Enters(MountId),
    /// Something is mounted on a trigger, which it passes.
    Passes(MountId, Trigger),
}

/// How a walk ended, and the triggers that it passed, in order.
#[derive(Debug, Drop)]
pub struct Walk {
    pub stop: Stop,
    pub passed: Vec<Trigger>,
}
