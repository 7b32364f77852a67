//! A line of a master map.

ghost use Rattle.std.specs.Prelude.{◌≡◌, IfOk, IfErr, OnOk, length, slice_get, Some};
ghost use Rattle.am_master.specs.Fault.{IsFaultOf};
ghost use Rattle.am_master.specs.Grammar.{master_read};
ghost use Rattle.am_script.specs.{fault_at};
ghost use Rattle.am_script.specs.declared.fault.ScriptFaultKind.TheVariants.{BadMaster};
ghost use Rattle.am_c.specs.MasterLines.{IsFound, IsLine, IsWithin, TellsLine, row_bytes, row_told};

use crate::buffer::put_front;
use crate::place::{AmPlace, place_of};
use am_master::{Master, MasterEntry, MasterFault, MasterFaultKind, Point};
use am_script::{ScriptFault, ScriptFaultKind};
use std::alloc::{AllocError, Global};

/// A line of a master map; its point lies in the caller's buffer from 0 to `map_at`, and the name of
/// its map from there to `bytes` (auto.master(5), "FORMAT").
#[repr(C)]
#[derive(Clone, Copy)]
pub struct AmMasterLine {
    /// How many bytes there are, also where there is less room.
    pub bytes: u64,
    pub map_at: u64,
    /// The first raw line of the line, from 1.
    pub line: u64,
    /// How many lines the master map has.
    pub lines: u64,
    /// Seconds without use after which a mount may expire, 0 for never by itself.
    pub timeout: u32,
    /// 1 for the point `/-`, which has no bytes, else 0.
    pub direct: u32,
    /// 1 where there is a line at that place; where it is 0, all but `lines` is.
    pub found: u32,
    pub pad: u32,
}

/// A line, and its bytes.
#[derive(Drop)]
struct Found {
    told: AmMasterLine,
    bytes: Vec<u8>,
}

/// Reads a master map, and tells its line at a place, from 0. 0 where the text is a master map, also
/// where it has no such line; else the number of its fault, of which `place` is the place, and
/// all else is as it was. Line 0 is what is told itself, for which there was no memory.
#[unsafe(no_mangle)]
pub extern "C" fn am_master_line(
    alloc: Global,
    text: &[u8],
    at: usize,
    out: &mut [u8],
    told: &mut AmMasterLine,
    place: &mut AmPlace,
) -> u8
    ensures { TellsLine text.now at
        (record { buffer = out.old; told = told.old; place = place.old })
        (record { buffer = out.new; told = told.new; place = place.new }) result }
{
    match line_at(alloc, text, at) {
        Ok(found) => {
            put_front(found.bytes.as_slice(), out);
            *told = found.told;
            drop(found);
            0
        }
        Err(fault) => {
            *place = place_of(alloc, text, fault_in(fault));
            fault.kind.number()
        }
    }
}

/// The fault of a master map as one of a script.
fn fault_in(fault: MasterFault) -> ScriptFault
    ensures { result ≡ fault_at fault.line (BadMaster fault.kind) }
{
    ScriptFault {
        line: fault.line as u64,
        kind: ScriptFaultKind::BadMaster { kind: fault.kind },
    }
}

fn line_at(alloc: Global, text: &[u8], at: usize) -> Result<Found, MasterFault>
    ensures ok { IfOk result (λ found. IsFound text.now at found.bytes.items found.told) }
    ensures err { IfErr result (IsFaultOf (master_read text.now)) }
    ensures reached { IfErr result (IsWithin text.now) }
{
    let master = Master::read(alloc, text)?;
    let found = flat_at(alloc, &master, at);
    drop(master);
    match found {
        Ok(found) => Ok(found),
        Err(_) => Err(MasterFault {
            line: 0,
            kind: MasterFaultKind::NoMemory,
        }),
    }
}

/// The line at a place, as C has it.
fn flat_at(alloc: Global, master: &Master, at: usize) -> Result<Found, AllocError>
    ensures { IfOk result (λ found. IsLine master.now at found.bytes.items found.told) }
{
    let lines = master.entries().len() as u64;
    match master.entries().get(at) {
        Some(entry) => flat(alloc, lines, entry),
        None => Ok(Found {
            told: AmMasterLine {
                bytes: 0,
                map_at: 0,
                line: 0,
                lines,
                timeout: 0,
                direct: 0,
                found: 0,
                pad: 0,
            },
            bytes: Vec::new(alloc),
        }),
    }
}

/// The parts of a line, one behind another.
fn flat(alloc: Global, lines: u64, entry: &MasterEntry) -> Result<Found, AllocError>
    ensures bytes { IfOk result (λ found. found.bytes.items ≡ row_bytes (Some entry.now)) }
    ensures told { IfOk result (λ found. found.told ≡ row_told lines (Some entry.now)) }
{
    let mut bytes = Vec::new(alloc);
    let mut direct = 1;
    if let Point::Indirect(place) = &entry.point {
        bytes.extend_from_slice(place.text())?;
        direct = 0;
    }
    let map_at = bytes.len() as u64;
    bytes.extend_from_slice(entry.map.as_slice())?;
    let told = AmMasterLine {
        bytes: bytes.len() as u64,
        map_at,
        line: entry.line as u64,
        lines,
        timeout: entry.timeout,
        direct,
        found: 1,
        pad: 0,
    };
    Ok(Found { told, bytes })
}
