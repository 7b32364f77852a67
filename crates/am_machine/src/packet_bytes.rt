//! The bytes of a packet that an event hands in.

ghost use Rattle.std.specs.Prelude.{◌≡◌, ◌↔◌, IsTrue, IfOk};

use std::alloc::{AllocError, Global};
use std::marker::Model;

/// The 304 bytes of a packet, in an allocation of their own: an event that hands in none has no room for them.
#[derive(Drop)]
pub struct PacketBytes {
    bytes: Box<[u8; 304]>,
}

impl Model for PacketBytes {
    ghost use Rattle.std.specs.Prelude.{ℕ, List};

    ghost Value = { List ℕ };

    ghost view = { λ p. p.bytes.value };
}

impl PacketBytes {
    /// Keeps these bytes.
    pub fn new(alloc: Global, bytes: &[u8; 304]) -> Result<PacketBytes, AllocError>
        ensures { IfOk result (λ kept. kept ≡ bytes.now) }
    {
        Ok(PacketBytes {
            bytes: Box::new(alloc, *bytes)?,
        })
    }

    pub fn as_array(&self) -> &[u8; 304]
        ensures { result.now ≡ self.now }
    {
        &self.bytes
    }

    /// The same bytes once more.
    pub fn copy(&self, alloc: Global) -> Result<PacketBytes, AllocError>
        ensures { IfOk result (λ kept. kept ≡ self.now) }
    {
        PacketBytes::new(alloc, self.as_array())
    }

    /// Whether they are the same.
    pub fn is_same(&self, other: &PacketBytes) -> bool
        ensures { IsTrue result ↔ (self.now ≡ other.now) }
    {
        self.as_array() == other.as_array()
    }
}

/// Keeps these bytes, if there are any.
pub fn keep_bytes(
    alloc: Global,
    bytes: &Option<[u8; 304]>,
) -> Result<Option<PacketBytes>, AllocError>
    ensures { IfOk result (λ kept. kept ≡ bytes.now) }
{
    match bytes {
        None => Ok(None),
        Some(bytes) => Ok(Some(PacketBytes::new(alloc, bytes)?)),
    }
}
