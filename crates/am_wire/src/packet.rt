//! What a packet says.

ghost use Rattle.std.specs.Prelude.{◌≡◌, ◌≤◌, length};
ghost use Rattle.am_wire.specs.Fields.{fields_of, fields_of_ref};

use crate::packet_name::PacketName;
use crate::packet_type::PacketType;
use am_names::{FsId, Token};

/// A packet (auto_fs.h, `struct autofs_v5_packet`), without `proto_version`, which is 5.
#[derive(Clone, Copy, Debug, PartialEq)]
pub struct Packet {
    /// `type`.
    pub kind: PacketType,
    /// `wait_queue_token`: the daemon acknowledges by it.
    pub token: Token,
    /// The file system's device number.
    pub dev: FsId,
    /// The number of the file system's root inode.
    pub ino: u64,
    pub uid: u32,
    pub gid: u32,
    pub pid: u32,
    pub tgid: u32,
    /// The name that is looked up; any bytes for a direct trigger.
    pub name: PacketName,
}

/// A packet whose name is where it was read.
#[derive(Clone, Copy)]
pub struct PacketRef<'a> {
    pub kind: PacketType,
    pub token: Token,
    pub dev: FsId,
    pub ino: u64,
    pub uid: u32,
    pub gid: u32,
    pub pid: u32,
    pub tgid: u32,
    pub name: &'a [u8],
}

impl<'a> PacketRef<'a> {
    /// The same packet with its name copied.
    pub fn to_packet(&self) -> Packet
        requires { length self.now.name.now ≤ 255 }
        ensures { fields_of result ≡ fields_of_ref self.now }
    {
        Packet {
            kind: self.kind,
            token: self.token,
            dev: self.dev,
            ino: self.ino,
            uid: self.uid,
            gid: self.gid,
            pid: self.pid,
            tgid: self.tgid,
            name: PacketName::new(self.name),
        }
    }
}
