//! At which line of a text memory is told to run out.

use am_map::{Map, MapFaultKind, MapKind};
use am_master::{Master, MasterFaultKind};
use std::alloc::Global;

/// The third line takes memory. The others have no bytes, and take none.
const MAP: &[u8] = b"\n\nhome srv:/home\n\n";

/// The same of a master map.
const MASTER: &[u8] = b"\n\n/auto auto.home\n\n";

/// Whether the map is read, or finds no memory at its third line.
fn is_told_of_a_map(alloc: Global) -> bool {
    match Map::read(alloc, MAP, MapKind::Indirect) {
        Ok(_) => true,
        Err(fault) => fault.line == 3 && fault.kind == MapFaultKind::NoMemory,
    }
}

/// Whether the master map is read, or finds no memory at its third line.
fn is_told_of_a_master_map(alloc: Global) -> bool {
    match Master::read(alloc, MASTER) {
        Ok(_) => true,
        Err(fault) => fault.line == 3 && fault.kind == MasterFaultKind::NoMemory,
    }
}

#[test]
fn memory_runs_out_at_the_line_that_takes_it(rt: HostRuntime) {
    let alloc = rt.alloc();
    assert!(rt; is_told_of_a_map(alloc));
    assert!(rt; is_told_of_a_master_map(alloc));
}
