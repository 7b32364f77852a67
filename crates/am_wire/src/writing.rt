//! Packets to bytes.

ghost use Rattle.std.specs.Prelude.{◌≡◌, ◌≤◌, ◌+◌, ◌++◌, ◌↔◌, IsTrue, length, take, drop};
ghost use Rattle.byteorder.specs.Endian.{little_bytes};
ghost use Rattle.am_wire.specs.Fields.{fields_of};
ghost use Rattle.am_wire.specs.Format.{IsPacket, IsWritable, canonical};
ghost use Rattle.am_wire.specs.Head.{head_of, head_bytes, HasFittingNumbers};

use crate::head::Head;
use crate::packet::Packet;
use crate::reading::{may_have_length, may_have_name};
use byteorder::{ByteOrder, LittleEndian};

macro_rules! write_fields {
    (($head:ident, $out:ident); $($field:ident $at:literal $read:ident $write:ident,)*) => {
        $($write($out, $at, $head.$field);)*
    };
}

/// Writes a number at a place.
fn write_u32(out: &mut [u8; 304], at: usize, n: u32)
    requires { at + 4 ≤ 304 }
    ensures { out.new ≡ take at out.old ++ (little_bytes 4 n ++ drop (at + 4) out.old) }
{
    LittleEndian::write_u32(&mut out[at..], n);
}

fn write_u64(out: &mut [u8; 304], at: usize, n: u64)
    requires { at + 8 ≤ 304 }
    ensures { out.new ≡ take at out.old ++ (little_bytes 8 n ++ drop (at + 8) out.old) }
{
    LittleEndian::write_u64(&mut out[at..], n);
}

fn write_head(head: Head, out: &mut [u8; 304])
    ensures bytes { out.new ≡ head_bytes head ++ drop 44 out.old }
    ensures fitting { HasFittingNumbers head }
{
    crate::table::fields!(write_fields(head, out));
}

fn write_bytes(out: &mut [u8; 304], at: usize, bytes: &[u8])
    requires { at + length bytes.now ≤ 304 }
    ensures { out.new ≡ take at out.old ++ (bytes.now ++ drop (at + length bytes.now) out.old) }
{
    out[at..at + bytes.len()].copy_from_slice(bytes);
}

fn head_of(packet: &Packet) -> Head
    ensures { result ≡ head_of (fields_of packet.now) }
{
    Head {
        proto_version: 5,
        kind: packet.kind.number(),
        token: packet.token.0,
        dev: packet.dev.0,
        ino: packet.ino,
        uid: packet.uid,
        gid: packet.gid,
        pid: packet.pid,
        tgid: packet.tgid,
        len: packet.name.as_bytes().len() as u32,
    }
}

/// Whether the packet is one of the format: its name is allowed for its kind.
pub fn is_writable(packet: &Packet) -> bool
    ensures { IsTrue result ↔ IsWritable (fields_of packet.now) }
{
    let name = packet.name.as_bytes();
    may_have_length(packet.kind, name.len() as u32) && may_have_name(packet.kind, name)
}

/// Writes the packet's bytes, zero where the format leaves them free. What is written for a
/// packet of the format, and its first 300 bytes, are read as that packet.
pub fn write(packet: &Packet, out: &mut [u8; 304])
    ensures bytes { out.new ≡ canonical (fields_of packet.now) }
    ensures whole { IsWritable (fields_of packet.now) → IsPacket (fields_of packet.now) out.new }
    ensures cut { IsWritable (fields_of packet.now) →
        IsPacket (fields_of packet.now) (take 300 out.new) }
{
    let head = head_of(packet);
    write_head(head, out);
    write_bytes(out, 44, packet.name.padded());
    write_bytes(out, 300, &[0; 4]);
}
