//! The bytes of packets, and what is written for some.

use am_names::{FsId, Token};
use am_wire::{Packet, PacketName, PacketType, write};

/// A packet for the name `home`, as the kernel of x86-64 writes it.
static HOME: [u8; 48] = [
    0x05, 0x00, 0x00, 0x00, 0x03, 0x00, 0x00, 0x00, 0x01, 0x00, 0x00, 0x00, 0x02, 0x00, 0x00, 0x00,
    0x01, 0x00, 0x00, 0x00, 0x00, 0x00, 0x00, 0x00, 0x00, 0x00, 0x00, 0x00, 0x00, 0x00, 0x00, 0x00,
    0x07, 0x00, 0x00, 0x00, 0x07, 0x00, 0x00, 0x00, 0x04, 0x00, 0x00, 0x00, 0x68, 0x6f, 0x6d, 0x65,
];

/// The packet for the name `home`, with a byte behind it.
pub fn home(behind: u8) -> [u8; 304] {
    let mut bytes = [behind; 304];
    bytes[..48].copy_from_slice(&HOME);
    bytes
}

/// Puts a number of 4 bytes at an offset.
pub fn put_number(bytes: &mut [u8; 304], at: usize, number: u32) {
    if at <= 300 {
        bytes[at..at + 4].copy_from_slice(&number.to_le_bytes());
    }
}

/// A name of up to 255 bytes; of more than that, the empty one.
pub fn name_of(bytes: &[u8]) -> PacketName {
    if bytes.len() > 255 {
        return PacketName::new(b"");
    }
    PacketName::new(bytes)
}

/// Puts a name and its length in their places.
pub fn put_name(bytes: &mut [u8; 304], name: &PacketName) {
    bytes[44..300].copy_from_slice(name.padded());
    put_number(bytes, 40, name.as_bytes().len() as u32);
}

/// A packet with this type and this name.
pub fn asking(kind: u32, name: &[u8]) -> [u8; 304] {
    let mut bytes = home(0);
    put_number(&mut bytes, 4, kind);
    put_name(&mut bytes, &name_of(name));
    bytes
}

/// The first of these bytes.
pub fn first(bytes: &[u8], len: usize) -> &[u8] {
    match bytes.get(..len) {
        Some(bytes) => bytes,
        None => bytes,
    }
}

/// The packet for the name `home`.
pub fn home_packet() -> Packet {
    Packet {
        kind: PacketType::MissingIndirect,
        token: Token(1),
        dev: FsId(2),
        ino: 1,
        uid: 0,
        gid: 0,
        pid: 7,
        tgid: 7,
        name: PacketName::new(b"home"),
    }
}

/// A packet whose numbers have different bytes.
pub fn packet_of_fields() -> Packet {
    Packet {
        kind: PacketType::ExpireDirect,
        token: Token(0x0b0a_0908),
        dev: FsId(0x0f0e_0d0c),
        ino: 0x1716_1514_1312_1110,
        uid: 0x1b1a_1918,
        gid: 0x1f1e_1d1c,
        pid: 0x2322_2120,
        tgid: 0x2726_2524,
        name: PacketName::new(b"name"),
    }
}

/// What is written for a packet, over bytes that are not zero.
pub fn written(packet: &Packet) -> [u8; 304] {
    let mut out = [0xee; 304];
    write(packet, &mut out);
    out
}

/// A packet whose numbers are the greatest.
pub fn with_greatest_numbers() -> [u8; 304] {
    let mut bytes = home(0);
    bytes[8..40].copy_from_slice(&[0xff; 32]);
    bytes
}
