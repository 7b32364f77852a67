//! A packet's bytes from outside, each fault, and the order of the faults.

mod made;

use crate::tests::packets::made::{
    asking, first, home, home_packet, name_of, packet_of_fields, put_number, with_greatest_numbers,
    written,
};
use crate::tests::table::{Row, hold};
use am_names::{Attach, Errno, FailNo, FsId, PipeState, Seconds, Token, TokenKind, WalkerId};
use am_wire::{Packet, PacketType, Request, WireFault, is_writable, read};
use std::alloc::Global;

/// The longest name.
const LONGEST: &[u8] = b"\
xxxxxxxxxxxxxxxxxxxxxxxxxxxxxxxxxxxxxxxxxxxxxxxxxxxxxxxxxxxxxxxxxxxxxxxxxxxxxxxxxxxxx\
xxxxxxxxxxxxxxxxxxxxxxxxxxxxxxxxxxxxxxxxxxxxxxxxxxxxxxxxxxxxxxxxxxxxxxxxxxxxxxxxxxxxx\
xxxxxxxxxxxxxxxxxxxxxxxxxxxxxxxxxxxxxxxxxxxxxxxxxxxxxxxxxxxxxxxxxxxxxxxxxxxxxxxxxxxxx";

/// What goes in, and what comes out.
enum Bytes {
    /// The packet for `home`, with this byte behind its name, cut to so many bytes, is that packet.
    IsHome(u8, usize),
    /// That packet is written as those bytes.
    HomeWritten,
    /// The packet whose numbers are all different has these bytes at an offset.
    Field(usize, [u8; 4]),
    /// Its bytes behind the name are zero.
    ZeroBehind,
    /// Its bytes are read as it.
    ReadBack,
    /// The packet with the greatest numbers has those, and is written as it was read.
    Greatest,
    /// Of all lengths below this one but 300 and 304 no packet is read.
    Refused(usize),
    /// The packets with these types and this name, of 304 bytes and of 300: no fault where they
    /// have the name.
    Asks(&'static [u32], &'static [u8], Option<WireFault>),
    /// The packets with these types and the name `home`, with each of these numbers at an offset.
    NumberAt(&'static [u32], usize, &'static [u32], Option<WireFault>),
    /// A packet with a name that is none, with these numbers at offsets, cut to so many bytes.
    InOrder(&'static [(usize, u32)], usize, WireFault),
    /// The packets with these types and this name are written as they were read.
    WrittenBack(&'static [u32], &'static [u8]),
    /// A packet with this kind and this name is one of the format, and is read.
    Writable(PacketType, &'static [u8], bool),
    /// The bytes of a name, and those with as many zeros behind them.
    Padded(&'static [u8], &'static [u8]),
    /// Two names are equal.
    EqualNames(&'static [u8], &'static [u8], bool),
    /// A number, its kind, and what is asked for: for a direct trigger or an indirect one.
    Kind(u32, PacketType, TokenKind, bool),
    NoKind(u32),
    Fault(WireFault, u8, &'static str),
    /// Each request equals itself and no other.
    Compared,
}

fn is_equal(packet: &Packet, other: &Packet) -> bool {
    *packet == *other
}

/// The bytes are read as this packet.
fn is_read_as(bytes: &[u8], expected: &Packet) -> bool {
    match read(bytes) {
        Ok(packet) => is_equal(&packet.to_packet(), expected),
        Err(_) => false,
    }
}

/// The bytes are read, and written as they are.
fn is_written_back(bytes: &[u8]) -> bool {
    match read(bytes) {
        Ok(packet) => written(&packet.to_packet()).as_slice() == bytes,
        Err(_) => false,
    }
}

/// The fault of the bytes, or none where they are a packet with this name.
fn is_asking(bytes: &[u8], name: &[u8], fault: Option<WireFault>) -> bool {
    match (read(bytes), fault) {
        (Ok(packet), None) => packet.to_packet().name.as_bytes() == name,
        (Err(has), Some(fault)) => has == fault,
        _ => false,
    }
}

fn is_home(behind: u8, len: usize) -> bool {
    is_read_as(first(&home(behind), len), &home_packet())
}

fn is_home_written() -> bool {
    written(&home_packet()).as_slice() == home(0).as_slice()
}

/// Whether these 4 bytes stand at the offset.
fn has_field(at: usize, four: [u8; 4]) -> bool {
    let bytes = written(&packet_of_fields());
    at <= 300 && &bytes[at..at + 4] == four.as_slice()
}

fn is_zero_behind() -> bool {
    let bytes = written(&packet_of_fields());
    bytes.len() == 304 && bytes[48..].iter().all(|byte| *byte == 0)
}

fn is_read_back() -> bool {
    let packet = packet_of_fields();
    is_read_as(&written(&packet), &packet)
}

fn has_greatest_numbers(packet: &Packet) -> bool {
    packet.token == Token(4_294_967_295)
        && packet.dev == FsId(4_294_967_295)
        && packet.ino == 18_446_744_073_709_551_615
        && packet.uid == 4_294_967_295
        && packet.gid == 4_294_967_295
        && packet.pid == 4_294_967_295
        && packet.tgid == 4_294_967_295
}

fn is_greatest() -> bool {
    let bytes = with_greatest_numbers();
    match read(&bytes) {
        Ok(packet) => has_greatest_numbers(&packet.to_packet()) && is_written_back(&bytes),
        Err(_) => false,
    }
}

/// As many bytes of the packet for `home`, and of a zero behind it.
fn has_length_fault(len: usize, fault: Option<WireFault>) -> bool {
    let mut bytes = [0; 305];
    bytes[..304].copy_from_slice(&home(0));
    len <= 305 && is_asking(&bytes[..len], b"home", fault)
}

/// The lengths below this one that are no packet's, but for two.
fn are_refused(len: usize) -> bool {
    for len in 0..len {
        let fault = match len {
            300 | 304 => None,
            _ => Some(WireFault::Length),
        };
        if !has_length_fault(len, fault) {
            return false;
        }
    }
    true
}

/// The packets of these types with this name are read so.
fn are_asking(kinds: &[u32], name: &[u8], fault: Option<WireFault>) -> bool {
    for kind in kinds {
        let bytes = asking(*kind, name);
        if !is_asking(&bytes, name, fault) || !is_asking(first(&bytes, 300), name, fault) {
            return false;
        }
    }
    true
}

/// The packet for `home` of this type, with a number at an offset, is read so.
fn is_asking_with(kind: u32, at: usize, number: u32, fault: Option<WireFault>) -> bool {
    let mut bytes = asking(kind, b"home");
    put_number(&mut bytes, at, number);
    is_asking(&bytes, b"home", fault)
}

fn are_asking_with(kinds: &[u32], at: usize, numbers: &[u32], fault: Option<WireFault>) -> bool {
    for kind in kinds {
        if !numbers
            .iter()
            .all(|number| is_asking_with(*kind, at, *number, fault))
        {
            return false;
        }
    }
    true
}

fn is_refused_first(numbers: &[(usize, u32)], len: usize, fault: WireFault) -> bool {
    let mut bytes = asking(3, b"a/b");
    for (at, number) in numbers {
        put_number(&mut bytes, *at, *number);
    }
    is_asking(first(&bytes, len), b"a/b", Some(fault))
}

fn is_writable_so(kind: PacketType, name: &[u8], expected: bool) -> bool {
    let mut packet = home_packet();
    packet.kind = kind;
    packet.name = name_of(name);
    is_writable(&packet) == expected && read(&written(&packet)).is_ok() == expected
}

fn is_padded(name: &[u8], front: &[u8]) -> bool {
    let name_in_packet = name_of(name);
    let padded = name_in_packet.padded();
    name_in_packet.as_bytes() == name && padded.len() == 256 && first(padded, front.len()) == front
}

fn are_equal_names(one: &[u8], other: &[u8]) -> bool {
    name_of(one) == name_of(other)
}

fn is_kind(number: u32, kind: PacketType, asked: TokenKind, direct: bool) -> bool {
    kind.number() == number
        && PacketType::read(number) == Some(kind)
        && PacketType::of(asked, direct) == kind
        && kind.token_kind() == asked
        && kind.is_indirect() != direct
}

fn is_fault(alloc: Global, fault: WireFault, number: u8, word: &str) -> Result<bool, Errno> {
    let text = fault.to_string(alloc)?;
    Ok(fault.number() == number && text.as_str() == word)
}

/// One request of each kind, and one more of a failure.
fn requests() -> [Request; 7] {
    let attach = Attach(1);
    let fs = FsId(2);
    let token = Token(3);
    [
        Request::Ready { attach, token },
        Request::Fail {
            attach,
            token,
            no: FailNo::ENOENT,
        },
        Request::Fail {
            attach,
            token,
            no: FailNo::EPERM,
        },
        Request::Catatonic { attach, fs },
        Request::SetTimeout {
            attach,
            fs,
            timeout: 10,
        },
        Request::Expire {
            walker: WalkerId(20),
            fs,
            now: Seconds(200),
            immediate: true,
            pipe: PipeState::Room,
        },
        Request::SetPipe { fs },
    ]
}

/// Of these requests the one at this place equals the request, and no other does.
fn equals_only(requests: &[Request], request: &Request, at: usize) -> bool {
    requests.iter().enumerate().all(|(other_at, other)| (*request == *other) == (at == other_at))
}

fn are_compared() -> bool {
    let requests = requests();
    for (at, request) in requests.iter().enumerate() {
        if !equals_only(&requests, request, at) {
            return false;
        }
    }
    true
}

impl Row for Bytes {
    fn holds(&self, alloc: Global) -> Result<bool, Errno> {
        Ok(match self {
            Bytes::IsHome(behind, len) => is_home(*behind, *len),
            Bytes::HomeWritten => is_home_written(),
            Bytes::Field(at, four) => has_field(*at, *four),
            Bytes::ZeroBehind => is_zero_behind(),
            Bytes::ReadBack => is_read_back(),
            Bytes::Greatest => is_greatest(),
            Bytes::Refused(len) => are_refused(*len),
            Bytes::Asks(kinds, name, fault) => are_asking(kinds, name, *fault),
            Bytes::NumberAt(kinds, at, numbers, fault) => {
                are_asking_with(kinds, *at, numbers, *fault)
            }
            Bytes::InOrder(numbers, len, fault) => is_refused_first(numbers, *len, *fault),
            Bytes::WrittenBack(kinds, name) => {
                kinds
                    .iter()
                    .all(|kind| is_written_back(&asking(*kind, name)))
            }
            Bytes::Writable(kind, name, expected) => is_writable_so(*kind, name, *expected),
            Bytes::Padded(name, front) => is_padded(name, front),
            Bytes::EqualNames(one, other, expected) => are_equal_names(one, other) == *expected,
            Bytes::Kind(number, kind, asked, direct) => is_kind(*number, *kind, *asked, *direct),
            Bytes::NoKind(number) => PacketType::read(*number).is_none(),
            Bytes::Fault(fault, number, word) => is_fault(alloc, *fault, *number, word)?,
            Bytes::Compared => are_compared(),
        })
    }
}

static WHOLE: [Bytes; 4] = [
    Bytes::IsHome(0, 304),
    Bytes::IsHome(0, 300),
    Bytes::Asks(&[3], b"home", None),
    Bytes::HomeWritten,
];

/// The offset of each field by a C compiler for x86-64, and the first bytes there.
static FIELDS: [Bytes; 15] = [
    Bytes::Field(0, [5, 0, 0, 0]),
    Bytes::Field(4, [6, 0, 0, 0]),
    Bytes::Field(8, [0x08, 0x09, 0x0a, 0x0b]),
    Bytes::Field(12, [0x0c, 0x0d, 0x0e, 0x0f]),
    Bytes::Field(16, [0x10, 0x11, 0x12, 0x13]),
    Bytes::Field(20, [0x14, 0x15, 0x16, 0x17]),
    Bytes::Field(24, [0x18, 0x19, 0x1a, 0x1b]),
    Bytes::Field(28, [0x1c, 0x1d, 0x1e, 0x1f]),
    Bytes::Field(32, [0x20, 0x21, 0x22, 0x23]),
    Bytes::Field(36, [0x24, 0x25, 0x26, 0x27]),
    Bytes::Field(40, [4, 0, 0, 0]),
    Bytes::Field(44, *b"name"),
    Bytes::Field(300, [0, 0, 0, 0]),
    Bytes::ZeroBehind,
    Bytes::ReadBack,
];

static GREATEST: [Bytes; 1] = [Bytes::Greatest];

static FREE_BYTES: [Bytes; 2] = [Bytes::IsHome(0xa5, 304), Bytes::IsHome(0xa5, 300)];

static LENGTHS: [Bytes; 1] = [Bytes::Refused(306)];

static VERSIONS_AND_TYPES: [Bytes; 3] = [
    Bytes::NumberAt(
        &[3],
        0,
        &[0, 1, 2, 3, 4, 6, 0x0500, 4_294_967_295],
        Some(WireFault::Version),
    ),
    Bytes::NumberAt(
        &[3],
        4,
        &[0, 1, 2, 7, 0x0300, 4_294_967_295],
        Some(WireFault::Kind),
    ),
    Bytes::NumberAt(&[3], 4, &[3, 4, 5, 6], None),
];

static NAME_LENGTHS: [Bytes; 5] = [
    Bytes::NumberAt(
        &[3, 4, 5, 6],
        40,
        &[256, 257, 260, 0x0100_0004, 4_294_967_295],
        Some(WireFault::NameLength),
    ),
    Bytes::Asks(&[3, 4, 5, 6], LONGEST, None),
    Bytes::WrittenBack(&[3, 4, 5, 6], LONGEST),
    Bytes::Asks(&[3, 4], b"", Some(WireFault::NameLength)),
    Bytes::Asks(&[5, 6], b"", None),
];

static NAMES: [Bytes; 11] = [
    Bytes::Asks(&[3, 4], b"a/b", Some(WireFault::BadName)),
    Bytes::Asks(&[5, 6], b"a/b", None),
    Bytes::Asks(&[3, 4], b"/", Some(WireFault::BadName)),
    Bytes::Asks(&[5, 6], b"/", None),
    Bytes::Asks(&[3, 4], b".", Some(WireFault::BadName)),
    Bytes::Asks(&[5, 6], b".", None),
    Bytes::Asks(&[3, 4], b"..", Some(WireFault::BadName)),
    Bytes::Asks(&[5, 6], b"..", None),
    Bytes::Asks(&[3, 4], b"a\0", Some(WireFault::BadName)),
    Bytes::Asks(&[5, 6], b"a\0", None),
    Bytes::Asks(&[3, 4, 5, 6], b"...", None),
];

/// Each row fails one test more than the next.
static IN_ORDER: [Bytes; 7] = [
    Bytes::InOrder(&[(40, 256), (4, 7), (0, 4)], 299, WireFault::Length),
    Bytes::InOrder(&[(40, 256), (4, 7), (0, 4)], 300, WireFault::Version),
    Bytes::InOrder(&[(40, 256), (4, 7)], 300, WireFault::Kind),
    Bytes::InOrder(&[(40, 256)], 300, WireFault::NameLength),
    Bytes::InOrder(&[(40, 0)], 300, WireFault::NameLength),
    Bytes::InOrder(&[], 300, WireFault::BadName),
    Bytes::IsHome(0, 300),
];

static OF_THE_FORMAT: [Bytes; 7] = [
    Bytes::Writable(PacketType::MissingIndirect, b"home", true),
    Bytes::Writable(PacketType::ExpireIndirect, b"home", true),
    Bytes::Writable(PacketType::MissingIndirect, b"", false),
    Bytes::Writable(PacketType::ExpireIndirect, b"a/b", false),
    Bytes::Writable(PacketType::MissingDirect, b"", true),
    Bytes::Writable(PacketType::ExpireDirect, b"a/b", true),
    Bytes::Writable(PacketType::MissingDirect, b"direct", true),
];

static KEPT_NAMES: [Bytes; 3] = [
    Bytes::Padded(b"home", b"home\0"),
    Bytes::EqualNames(b"home", b"home", true),
    Bytes::EqualNames(b"home", b"home\0", false),
];

static KINDS: [Bytes; 5] = [
    Bytes::Kind(3, PacketType::MissingIndirect, TokenKind::Missing, false),
    Bytes::Kind(4, PacketType::ExpireIndirect, TokenKind::Expire, false),
    Bytes::Kind(5, PacketType::MissingDirect, TokenKind::Missing, true),
    Bytes::Kind(6, PacketType::ExpireDirect, TokenKind::Expire, true),
    Bytes::NoKind(7),
];

static FAULTS: [Bytes; 5] = [
    Bytes::Fault(WireFault::Length, 1, "Length"),
    Bytes::Fault(WireFault::Version, 2, "Version"),
    Bytes::Fault(WireFault::Kind, 3, "Kind"),
    Bytes::Fault(WireFault::NameLength, 4, "NameLength"),
    Bytes::Fault(WireFault::BadName, 5, "BadName"),
];

static REQUESTS: [Bytes; 1] = [Bytes::Compared];

#[test]
fn bytes_of_packets(rt: HostRuntime) {
    hold(
        &rt,
        rt.alloc(),
        "the bytes of a packet are read and written",
        &WHOLE,
    );
    hold(
        &rt,
        rt.alloc(),
        "each field has the offset of the header",
        &FIELDS,
    );
    hold(&rt, rt.alloc(), "numbers have no sign", &GREATEST);
    hold(
        &rt,
        rt.alloc(),
        "bytes behind the name are free",
        &FREE_BYTES,
    );
    hold(&rt, rt.alloc(), "all lengths but two are refused", &LENGTHS);
    hold(&rt, rt.alloc(), "versions and types", &VERSIONS_AND_TYPES);
    hold(&rt, rt.alloc(), "lengths of names", &NAME_LENGTHS);
    hold(
        &rt,
        rt.alloc(),
        "only what is looked up in a directory must be a name",
        &NAMES,
    );
    hold(&rt, rt.alloc(), "the tests of a reader in order", &IN_ORDER);
    hold(&rt, rt.alloc(), "packets of the format", &OF_THE_FORMAT);
    hold(
        &rt,
        rt.alloc(),
        "names are kept with zeros behind them",
        &KEPT_NAMES,
    );
    hold(&rt, rt.alloc(), "kinds have their numbers", &KINDS);
    hold(
        &rt,
        rt.alloc(),
        "faults have their numbers and words",
        &FAULTS,
    );
    hold(&rt, rt.alloc(), "requests are compared", &REQUESTS);
}
