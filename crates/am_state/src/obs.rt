//! Observations: what an event lets be seen.

ghost use Rattle.std.specs.Prelude.{◌≡◌, IfOk};

use crate::daemon_row::Record;
use crate::kept_packet::KeptPacket;
use crate::kept_trigger::KeptTrigger;
use am_names::{Attach, FsId, MountId, MountIds, Status, Token, WalkerId};
use std::alloc::{AllocError, Global};

/// One observation. A trace is a list of them, so each takes little memory in its place: names
/// stand in memory of their own.
#[derive(Drop)]
pub enum Obs {
    /// A packet was queued for the daemon.
    Queued {
        token: Token,
        attach: Attach,
        packet: KeptPacket,
    },
    /// A walker waits on a token.
    Waits {
        walker: WalkerId,
        token: Token,
    },
    /// A token was acknowledged.
    Answered {
        token: Token,
        status: Status,
    },
    /// A file system became catatonic.
    Catatonic {
        fs: FsId,
    },
    /// A waiter was released.
    Released {
        walker: WalkerId,
        token: Token,
        status: Status,
    },
    /// A walk passed a trigger, on which something is mounted.
    Passed {
        walker: WalkerId,
        trigger: KeptTrigger,
    },
    /// A walk arrived in a mount, which is in use until the walker leaves.
    Entered {
        walker: WalkerId,
        mount: MountId,
    },
    /// A walker left a mount.
    Left {
        walker: WalkerId,
        mount: MountId,
    },
    /// These mounts came.
    Mounted {
        mounts: MountIds,
    },
    /// These mounts went.
    Unmounted {
        mounts: MountIds,
    },
    /// The daemon took a packet from the pipe.
    Delivered {
        token: Token,
        attach: Attach,
        packet: KeptPacket,
    },
    /// The daemon's book changed.
    Recorded {
        trigger: KeptTrigger,
        entry: Option<Record>,
    },
    /// The daemon attached again to a catatonic file system.
    Reattached {
        fs: FsId,
        attach: Attach,
    },
    /// The daemon died.
    Died,
}

impl Obs {
    /// The same observation once more.
    pub fn copy(&self, alloc: Global) -> Result<Obs, AllocError>
        ensures { IfOk result (λ obs. obs ≡ self.now) }
    {
        let obs = match self {
            Obs::Queued {
                token,
                attach,
                packet,
            } => Obs::Queued {
                token: *token,
                attach: *attach,
                packet: packet.copy(alloc)?,
            },
            Obs::Waits { walker, token } => Obs::Waits {
                walker: *walker,
                token: *token,
            },
            Obs::Answered { token, status } => Obs::Answered {
                token: *token,
                status: *status,
            },
            Obs::Catatonic { fs } => Obs::Catatonic { fs: *fs },
            Obs::Released {
                walker,
                token,
                status,
            } => Obs::Released {
                walker: *walker,
                token: *token,
                status: *status,
            },
            Obs::Passed { walker, trigger } => Obs::Passed {
                walker: *walker,
                trigger: trigger.copy(alloc)?,
            },
            Obs::Entered { walker, mount } => Obs::Entered {
                walker: *walker,
                mount: *mount,
            },
            Obs::Left { walker, mount } => Obs::Left {
                walker: *walker,
                mount: *mount,
            },
            Obs::Mounted { mounts } => Obs::Mounted {
                mounts: mounts.copy(alloc)?,
            },
            Obs::Unmounted { mounts } => Obs::Unmounted {
                mounts: mounts.copy(alloc)?,
            },
            Obs::Delivered {
                token,
                attach,
                packet,
            } => Obs::Delivered {
                token: *token,
                attach: *attach,
                packet: packet.copy(alloc)?,
            },
            Obs::Recorded { trigger, entry } => Obs::Recorded {
                trigger: trigger.copy(alloc)?,
                entry: *entry,
            },
            Obs::Reattached { fs, attach } => Obs::Reattached {
                fs: *fs,
                attach: *attach,
            },
            Obs::Died => Obs::Died,
        };
        Ok(obs)
    }
}
