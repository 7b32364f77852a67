//! Why bytes are no packet.

ghost use Rattle.std.specs.Prelude.{◌≡◌};
ghost use Rattle.am_wire.specs.Fault.{fault_number};

use thiserror::Error;

/// The first test that bytes fail; they are tested in this order.
#[derive(Clone, Copy, Debug, PartialEq, Eq, Hash, Error)]
pub enum WireFault {
    /// Neither 300 bytes nor 304.
    #[error("Length")]
    Length = 1,
    /// `proto_version` is not 5.
    #[error("Version")]
    Version,
    /// `type` is none of 3 to 6.
    #[error("Kind")]
    Kind,
    /// `len` is above 255, or is 0 where a name is looked up in a directory.
    #[error("NameLength")]
    NameLength,
    /// What is looked up in a directory is no name.
    #[error("BadName")]
    BadName,
}

impl WireFault {
    /// The number of the fault, from 1.
    pub fn number(self) -> u8
        ensures { result ≡ fault_number self }
    {
        self as u8
    }
}
