//! Why nothing comes of a packet.

ghost use Rattle.std.specs.Prelude.{◌≡◌};
ghost use Rattle.am_daemon.specs.declared.fault.DaemonFault.TheVariants.{Wire, NoMemory};
ghost use Rattle.am_daemon.specs.Faults.{fault_number};

use am_wire::WireFault;
use std::alloc::AllocError;
use thiserror::Error;

/// The first test that a packet fails; they are made in this order.
#[derive(Clone, Copy, Debug, PartialEq, Eq, Error)]
pub enum DaemonFault {
    /// The bytes are no packet.
    #[error("Wire: {0}")]
    Wire(WireFault),
    /// The daemon was never attached to the packet's file system.
    #[error("UnknownFs")]
    UnknownFs,
    /// The daemon does not hold the attachment under which the packet was queued.
    #[error("OldAttach")]
    OldAttach,
    /// The daemon mounts or unmounts there, or has a job of the packet's token.
    #[error("Busy")]
    Busy,
    /// Out of memory: nothing has changed.
    #[error("NoMemory")]
    NoMemory,
}

impl DaemonFault {
    /// The number of the fault, from 1.
    pub fn number(self) -> u8
        ensures { result ≡ fault_number self }
    {
        match self {
            DaemonFault::Wire(_) => 1,
            DaemonFault::UnknownFs => 2,
            DaemonFault::OldAttach => 3,
            DaemonFault::Busy => 4,
            DaemonFault::NoMemory => 5,
        }
    }
}

impl From<WireFault> for DaemonFault {
    ghost from_gives = { λ fault e. e ≡ Wire fault };

    fn from(fault: WireFault) -> DaemonFault {
        DaemonFault::Wire(fault)
    }
}

impl From<AllocError> for DaemonFault {
    ghost from_gives = { λ _ e. e ≡ NoMemory };

    fn from(_error: AllocError) -> DaemonFault {
        DaemonFault::NoMemory
    }
}
