//! The rows that the kernel itself keeps.

use am_names::{Attach, FsId, NsId, Place, WalkerId};

/// The latest attachment of an autofs. It is current as long as the autofs isn't catatonic.
#[derive(Clone, Copy, Debug)]
pub struct Attached {
    pub fs: FsId,
    pub attach: Attach,
    /// Seconds without use after which a mount may expire, 0 for never by itself
    /// (autofs.rst, "Mountpoint expiry").
    pub timeout: u32,
}

/// The walk of a walker that waits, which begins again once the walker is released.
#[derive(Debug, Drop)]
pub struct WalkRow {
    pub walker: WalkerId,
    pub ns: NsId,
    pub path: Place,
    /// How many walks the walker began on this path, the one that waits among them.
    pub attempts: u32,
}
