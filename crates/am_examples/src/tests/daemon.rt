//! For a daemon's author: packets, maps and master maps, with no world.

use am_map::{Entry, Map, MapFaultKind, MapKind};
use am_master::{Master, Point};
use am_names::{FsId, Token};
use am_wire::{Packet, PacketName, PacketType, WireFault, read, write};
use std::alloc::{AllocError, Global};
use std::test::Fail;

/// What a packet asks to mount: the map's entry for its name, if it has one.
fn asked_for(alloc: Global, map: &Map, bytes: &[u8]) -> Result<Option<Entry>, AllocError> {
    match read(bytes) {
        Ok(packet) if packet.kind == PacketType::MissingIndirect => map.look_up(alloc, packet.name),
        _ => Ok(None),
    }
}

/// The packet of a walk to the name `home`.
fn packet() -> Packet {
    Packet {
        kind: PacketType::MissingIndirect,
        token: Token(1),
        dev: FsId(2),
        ino: 1,
        uid: 0,
        gid: 0,
        pid: 7,
        tgid: 7,
        name: PacketName::new(b"home"),
    }
}

#[test]
fn a_packet_is_looked_up(rt: HostRuntime) -> Result<(), Fail> {
    let map = Map::read(rt.alloc(), b"home -ro srv:/export/&\n", MapKind::Indirect)?;
    let mut bytes = [0; 304];
    write(&packet(), &mut bytes);
    let Some(entry) = asked_for(rt.alloc(), &map, bytes.as_slice())? else {
        return Err(Fail::new("the map has the name"));
    };
    assert_eq!(rt; entry.host.as_slice(), b"srv".as_slice());
    assert_eq!(rt; entry.path.as_slice(), b"/export/home".as_slice());
    Ok(())
}

#[test]
fn the_first_fault_is_told(rt: HostRuntime) -> Result<(), Fail> {
    assert!(rt; matches!(read(b"too short"), Err(WireFault::Length)));
    let Err(fault) = Map::read(rt.alloc(), b"# homes\nhome\n", MapKind::Indirect) else {
        return Err(Fail::new("the second line has no location"));
    };
    assert_eq!(rt; fault.line, 2);
    assert_eq!(rt; fault.kind, MapFaultKind::NoLocation);
    Ok(())
}

#[test]
fn a_line_of_the_master_map(rt: HostRuntime) -> Result<(), Fail> {
    let master = Master::read(rt.alloc(), b"/auto auto.home --timeout=60\n")?;
    let Some(entry) = master.entries().first() else {
        return Err(Fail::new("it has a line"));
    };
    assert!(rt; matches!(&entry.point, Point::Indirect(_)));
    assert_eq!(rt; entry.map.as_slice(), b"auto.home".as_slice());
    assert_eq!(rt; entry.timeout, 60);
    Ok(())
}
