//! The name in a packet.

ghost use Rattle.std.specs.Prelude.{◌≡◌, ◌≤◌, length};
ghost use Rattle.am_wire.specs.Stored.{padded};

use std::marker::Model;

/// Up to 255 bytes of any kind. It takes no memory.
#[derive(Clone, Copy, Debug, PartialEq)]
pub struct PacketName {
    buf: [u8; 256],
    len: u32,
}

impl Model for PacketName {
    ghost use Rattle.std.specs.Prelude.{List, ℕ, take};
    ghost use Rattle.am_wire.specs.Stored.{IsStored};

    ghost Value = { List ℕ };

    ghost use Rattle.am_wire.specs.StoredView.{inside_of, stored_back};

    ghost view = { λ n. take n.len n.buf };

    // The bytes behind the name are zero, as they are in a packet that is written.
    ghost invariant = { λ n. IsStored n.buf n.len };

    ghost inverse = { inside_of };

    ghost inverse_ok = { stored_back };
}

impl PacketName {
    /// The name of these bytes.
    pub fn new(bytes: &[u8]) -> PacketName
        requires { length bytes.now ≤ 255 }
        ensures { result ≡ bytes.now }
    {
        let mut buf = [0; 256];
        buf[..bytes.len()].copy_from_slice(bytes);
        PacketName {
            buf,
            len: bytes.len() as u32,
        }
    }

    /// Its bytes.
    pub fn as_bytes(&self) -> &[u8]
        ensures bytes { result.now ≡ self.now }
        ensures short { length result.now ≤ 255 }
    {
        &self.buf[..self.len as usize]
    }

    /// Its bytes and zeros behind them, as they stand in a packet.
    pub fn padded(&self) -> &[u8; 256]
        ensures bytes { result.now ≡ padded self.now }
        ensures long { length result.now ≡ 256 }
    {
        &self.buf
    }
}
