//! The entry of a key in a map.

ghost use Rattle.std.specs.Prelude.{◌≡◌, IsOk, IfOk, IfErr, OnOk, Some};
ghost use Rattle.am_map.specs.Fault.{IsFaultOf};
ghost use Rattle.am_map.specs.Grammar.{map_read};
ghost use Rattle.am_script.specs.{fault_at};
ghost use Rattle.am_script.specs.declared.fault.ScriptFaultKind.TheVariants.{BadMap};
ghost use Rattle.am_c.specs.Entries.{IsEntry, IsFound, IsWithin, LooksUp, entry_told, kind_where};

use crate::buffer::put_front;
use crate::place::{AmPlace, place_of};
use am_map::{Entry, Map, MapFault, MapFaultKind, MapKind};
use am_script::{ScriptFault, ScriptFaultKind};
use std::alloc::{AllocError, Global};

/// Where the parts of an entry lie in the caller's buffer: its options from 0 to `host_at`, its host
/// from there to `path_at`, and its path from there to `bytes` (autofs(5), "SUN FORMAT").
#[repr(C)]
#[derive(Clone, Copy)]
pub struct AmEntry {
    /// How many bytes there are, also where there is less room.
    pub bytes: u64,
    pub host_at: u64,
    pub path_at: u64,
    /// 1 where the line has options, else 0.
    pub has_options: u32,
    /// 1 where there is an entry for the key; where it is 0, all else is.
    pub found: u32,
}

/// The entry of a key, and its bytes.
#[derive(Drop)]
struct Found {
    told: AmEntry,
    bytes: Vec<u8>,
}

/// Reads a map, and looks up a key. 0 where the text is a map, also where it has no entry for the
/// key; else the number of its fault, of which `place` is the place, and all else is as it was. Line
/// 0 is the look-up itself, for which there was no memory.
#[unsafe(no_mangle)]
pub extern "C" fn am_map_look_up(
    alloc: Global,
    text: &[u8],
    direct: bool,
    key: &[u8],
    out: &mut [u8],
    entry: &mut AmEntry,
    place: &mut AmPlace,
) -> u8
    ensures { LooksUp (record { direct = direct; text = text.now; key = key.now })
        (record { buffer = out.old; entry = entry.old; place = place.old })
        (record { buffer = out.new; entry = entry.new; place = place.new }) result }
{
    match look_up(alloc, text, kind_where(direct), key) {
        Ok(found) => {
            put_front(found.bytes.as_slice(), out);
            *entry = found.told;
            drop(found);
            0
        }
        Err(fault) => {
            *place = place_of(alloc, text, fault_in(fault));
            fault.kind.number()
        }
    }
}

/// The fault of a map as one of a script.
fn fault_in(fault: MapFault) -> ScriptFault
    ensures { result ≡ fault_at fault.line (BadMap fault.kind) }
{
    ScriptFault {
        line: fault.line as u64,
        kind: ScriptFaultKind::BadMap { kind: fault.kind },
    }
}

fn kind_where(direct: bool) -> MapKind
    ensures { result ≡ kind_where direct }
{
    if direct {
        MapKind::Direct
    } else {
        MapKind::Indirect
    }
}

fn look_up(alloc: Global, text: &[u8], kind: MapKind, key: &[u8]) -> Result<Found, MapFault>
    ensures ok { IfOk result (λ found.
        IsFound kind text.now key.now found.bytes.items found.told) }
    ensures err { IfErr result (IsFaultOf (map_read kind text.now)) }
    ensures reached { IfErr result (IsWithin kind text.now) }
{
    let map = Map::read(alloc, text, kind)?;
    let found = map.look_up(alloc, key);
    drop(map);
    match flat_found(alloc, found) {
        Ok(found) => Ok(found),
        Err(_) => Err(MapFault {
            line: 0,
            kind: MapFaultKind::NoMemory,
        }),
    }
}

/// What was found as C has it.
fn flat_found(alloc: Global, found: Result<Option<Entry>, AllocError>) -> Result<Found, AllocError>
    ensures found { OnOk result (IsOk found) }
    ensures flat { IfOk result (λ flat. IfOk found (λ entry. IsEntry entry flat.bytes.items flat.told)) }
{
    match found? {
        Some(entry) => flat(alloc, &entry),
        None => Ok(Found {
            told: AmEntry {
                bytes: 0,
                host_at: 0,
                path_at: 0,
                has_options: 0,
                found: 0,
            },
            bytes: Vec::new(alloc),
        }),
    }
}

/// The parts of an entry, one behind another.
fn flat(alloc: Global, entry: &Entry) -> Result<Found, AllocError>
    ensures { IfOk result (λ flat. IsEntry (Some entry.now) flat.bytes.items flat.told) }
{
    let mut bytes = Vec::new(alloc);
    let mut has_options = 0;
    if let Some(options) = &entry.options {
        bytes.extend_from_slice(options.as_slice())?;
        has_options = 1;
    }
    let host_at = bytes.len() as u64;
    bytes.extend_from_slice(entry.host.as_slice())?;
    let path_at = bytes.len() as u64;
    bytes.extend_from_slice(entry.path.as_slice())?;
    let told = AmEntry {
        bytes: bytes.len() as u64,
        host_at,
        path_at,
        has_options,
        found: 1,
    };
    Ok(Found { told, bytes })
}
