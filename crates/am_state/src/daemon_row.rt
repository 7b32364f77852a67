//! The daemon's rows.

use am_names::{Attach, FsId, MountId, Place, Token, Trigger};

/// What the daemon's book says of a trigger.
#[derive(Clone, Copy, PartialEq, Eq)]
pub enum Record {
    /// It mounts, for this token.
    Mounting { token: Token },
    /// It has made this mount.
    Mounted { mount: MountId },
    /// It unmounts this mount, for this token.
    Unmounting { token: Token, mount: MountId },
}

/// A record of the book.
#[derive(Clone, Copy)]
pub struct RecordRow {
    pub trigger: Trigger,
    pub entry: Record,
}

/// A file system that the daemon was ever attached to, and at which point.
#[derive(Drop)]
pub struct KnownRow {
    pub fs: FsId,
    pub path: Place,
}

/// An attachment that the daemon holds.
#[derive(Clone, Copy)]
pub struct HeldRow {
    pub fs: FsId,
    pub attach: Attach,
}
