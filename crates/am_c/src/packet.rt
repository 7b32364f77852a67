//! Packets as C has them.

ghost use Rattle.std.specs.Prelude.{◌≡◌, ◌≤◌, ℕ, length, take, IfOk, IfErr};
ghost use Rattle.am_wire.specs.Fields.{fields_of, fields_of_ref};
ghost use Rattle.am_wire.specs.Format.{IsPacket, IsWritable, canonical};
ghost use Rattle.am_c.specs.Buffer.{with_front};
ghost use Rattle.am_c.specs.Packets.{IsRead, IsWritten, IsMeant, IsUnwritable, told_of};

use crate::buffer::put_front;
use am_names::{FsId, Token};
use am_wire::{Packet, PacketName, PacketRef, PacketType, WireFault, is_writable, read, write};

/// What a packet says but its name, which is the `name_len` bytes from offset 44 of the bytes of
/// the packet (auto_fs.h, `struct autofs_v5_packet`).
#[repr(C)]
#[derive(Clone, Copy)]
pub struct AmPacket {
    /// `type`, 3 to 6.
    pub kind: u32,
    /// `wait_queue_token`.
    pub token: u32,
    pub dev: u32,
    pub uid: u32,
    pub gid: u32,
    pub pid: u32,
    pub tgid: u32,
    /// Bytes of the name.
    pub name_len: u32,
    pub ino: u64,
}

/// Reads the bytes of a packet. 0, or the number of the first test that they fail; then `packet` is
/// as it was.
#[unsafe(no_mangle)]
pub extern "C" fn am_packet_read(bytes: &[u8], packet: &mut AmPacket) -> u8
    ensures { IsRead bytes.now packet.old packet.new result }
{
    match read(bytes) {
        Ok(found) => {
            *packet = told(&found);
            0
        }
        Err(fault) => fault.number(),
    }
}

fn told(packet: &PacketRef<'_>) -> AmPacket
    requires { length packet.now.name.now ≤ 255 }
    ensures { result ≡ told_of (fields_of_ref packet.now) }
{
    AmPacket {
        kind: packet.kind.number(),
        token: packet.token.0,
        dev: packet.dev.0,
        uid: packet.uid,
        gid: packet.gid,
        pid: packet.pid,
        tgid: packet.tgid,
        name_len: packet.name.len() as u32,
        ino: packet.ino,
    }
}

/// Writes the 304 bytes of a packet to the front of `out`. 0, or the number of the first test that
/// it fails, with `Length` where there is less room; then `out` is as it was. `name_len` isn't
/// looked at: the name is `name`.
#[unsafe(no_mangle)]
pub extern "C" fn am_packet_write(packet: &AmPacket, name: &[u8], out: &mut [u8]) -> u8
    ensures { IsWritten packet.now name.now out.old out.new result }
{
    if out.len() < 304 {
        return WireFault::Length.number();
    }
    match meant(packet, name) {
        Ok(meant) => {
            put_packet(&meant, out);
            0
        }
        Err(failed) => failed.number(),
    }
}

/// Puts the bytes of a packet at the front of a buffer.
fn put_packet(packet: &Packet, out: &mut [u8])
    requires writable { IsWritable (fields_of packet.now) }
    requires room { 304 ≤ length out.old }
    ensures bytes { out.new ≡ with_front (canonical (fields_of packet.now)) out.old }
    ensures reads { IsPacket (fields_of packet.now) (take 304 out.new) }
{
    let mut bytes = [0; 304];
    write(packet, &mut bytes);
    put_front(bytes.as_slice(), out);
}

/// The packet of these fields and this name, if it is one of the format.
fn meant(packet: &AmPacket, name: &[u8]) -> Result<Packet, WireFault>
    ensures ok { IfOk result (λ meant. IsMeant packet.now name.now (fields_of meant)) }
    ensures err { IfErr result (λ fault. (room : ℕ) → 304 ≤ room →
        IsUnwritable fault packet.now name.now room) }
{
    let Some(kind) = PacketType::read(packet.kind) else {
        return Err(WireFault::Kind);
    };
    if name.len() > 255 || (kind.is_indirect() && name.is_empty()) {
        return Err(WireFault::NameLength);
    }
    let meant = Packet {
        kind,
        token: Token(packet.token),
        dev: FsId(packet.dev),
        ino: packet.ino,
        uid: packet.uid,
        gid: packet.gid,
        pid: packet.pid,
        tgid: packet.tgid,
        name: PacketName::new(name),
    };
    if is_writable(&meant) {
        Ok(meant)
    } else {
        Err(WireFault::BadName)
    }
}
