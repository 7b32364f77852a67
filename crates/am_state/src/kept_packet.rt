//! The kept form of a packet.

ghost use Rattle.std.specs.Prelude.{◌≡◌, ◌≤◌, length, IfOk};
ghost use Rattle.am_state.specs.Packets.{with_token};

use am_names::{FsId, Token};
use am_wire::{Packet, PacketName, PacketType};
use std::alloc::{AllocError, Global};
use std::marker::Model;

/// The name in a packet, in an allocation of its own length.
#[derive(Drop)]
pub(crate) struct KeptPacketName {
    text: Vec<u8>,
}

impl Model for KeptPacketName {
    ghost use Rattle.std.specs.Prelude.{ℕ, List, ◌≤◌, length};

    ghost Value = { List ℕ };

    ghost view = { λ n. n.text.items };

    ghost invariant = { λ n. length n.text.items ≤ 255 };
}

impl KeptPacketName {
    fn new(alloc: Global, name: &PacketName) -> Result<KeptPacketName, AllocError>
        ensures { IfOk result (λ kept. kept ≡ name.now) }
    {
        Ok(KeptPacketName {
            text: Vec::from_slice(alloc, name.as_bytes())?,
        })
    }

    fn to_name(&self) -> PacketName
        ensures { result ≡ self.now }
    {
        PacketName::new(self.text.as_slice())
    }
}

/// What a packet is made of.
#[derive(Drop)]
pub(crate) struct PacketParts {
    kind: PacketType,
    token: Token,
    dev: FsId,
    ino: u64,
    uid: u32,
    gid: u32,
    pid: u32,
    tgid: u32,
    name: KeptPacketName,
}

/// A packet that is kept for long: its name takes the memory of its bytes, where a `Packet` has
/// room for the longest name.
#[derive(Drop)]
pub struct KeptPacket {
    parts: Box<PacketParts>,
}

impl Model for KeptPacket {
    ghost use Rattle.am_wire.specs.{Packet};

    ghost Value = { Packet };

    ghost use Rattle.am_state.specs.PacketView.{packet_of};

    ghost view = { packet_of };
}

impl KeptPacket {
    /// Keeps a packet.
    pub fn new(alloc: Global, packet: &Packet) -> Result<KeptPacket, AllocError>
        ensures { IfOk result (λ kept. kept ≡ packet.now) }
    {
        let parts = PacketParts {
            kind: packet.kind,
            token: packet.token,
            dev: packet.dev,
            ino: packet.ino,
            uid: packet.uid,
            gid: packet.gid,
            pid: packet.pid,
            tgid: packet.tgid,
            name: KeptPacketName::new(alloc, &packet.name)?,
        };
        Ok(KeptPacket {
            parts: Box::new(alloc, parts)?,
        })
    }

    /// Gives it the number of its token, where that is known only now.
    pub fn set_token(&mut self, token: Token)
        ensures { self.new ≡ with_token token self.old }
    {
        self.parts.token = token;
    }

    /// The packet.
    pub fn to_packet(&self) -> Packet
        ensures { result ≡ self.now }
    {
        let parts = &self.parts;
        Packet {
            kind: parts.kind,
            token: parts.token,
            dev: parts.dev,
            ino: parts.ino,
            uid: parts.uid,
            gid: parts.gid,
            pid: parts.pid,
            tgid: parts.tgid,
            name: parts.name.to_name(),
        }
    }

    /// The same packet once more.
    pub fn copy(&self, alloc: Global) -> Result<KeptPacket, AllocError>
        ensures { IfOk result (λ kept. kept ≡ self.now) }
    {
        KeptPacket::new(alloc, &self.to_packet())
    }

    /// What the daemon is asked for.
    pub fn kind(&self) -> PacketType
        ensures { result ≡ self.now.kind }
    {
        self.parts.kind
    }

    /// The file system.
    pub fn dev(&self) -> FsId
        ensures { result ≡ self.now.dev }
    {
        self.parts.dev
    }
}
