//! The maps of a master's lines.

ghost use Rattle.std.specs.Prelude.{◌≡◌, ◌≤◌, ◌^◌, ℕ, List, bytes_eq, length, Ok, IfOk, IfErr};
ghost use Rattle.std.specs.Option.{option_copied};
ghost use Rattle.indexmap.specs.IndexMap.{get_by};
ghost use Rattle.am_map.specs.{map_read};
ghost use Rattle.am_master.specs.{StandWithin};
ghost use Rattle.am_script.specs.Fault.{IsFaultOr};
ghost use Rattle.am_script.specs.Maps.{section_for, kind_for, rows_in, map_by, maps_read};

use crate::fault::{ScriptFault, ScriptFaultKind, fault_at};
use crate::section::{Section, fault_in};
use am_map::{Map, MapFaultKind, MapKind};
use am_master::{MasterEntry, Point};
use indexmap::IndexMap;
use std::alloc::{AllocError, Global};

/// The sections of maps by their names, of those with one name the first.
fn first_sections<'a>(
    alloc: Global,
    sections: &'a [Section],
) -> Result<IndexMap<&'a [u8], &'a Section>, AllocError>
    ensures { IfOk result (λ index. (name : List ℕ) → option_copied
        (get_by (λ key. bytes_eq name key.now) index) ≡ section_for sections.now name) }
{
    let mut index = IndexMap::with_capacity(alloc, sections.len())?;
    for section in sections {
        if let Some(name) = section.name() {
            if !index.contains_key(name) {
                index.insert(name, section)?;
            }
        }
    }
    Ok(index)
}

/// How the map of a point is read.
fn kind_for(point: &Point) -> MapKind
    ensures { result ≡ kind_for point.now }
{
    match point {
        Point::Direct => MapKind::Direct,
        Point::Indirect(_) => MapKind::Indirect,
    }
}

/// The maps of the lines of the master section that begins at the line `first`. Out of memory is
/// told at the line `number`.
pub fn read_maps(
    alloc: Global,
    sections: &[Section],
    first: u64,
    entries: &[MasterEntry],
    number: u64,
) -> Result<Vec<Map>, ScriptFault>
    requires first { first ≤ 2 ^ 62 }
    requires lines { StandWithin (2 ^ 63) entries.now }
    ensures ok { IfOk result (λ maps. maps_read sections.now first entries.now ≡ Ok maps.items) }
    ensures counted { IfOk result (λ maps. length maps.items ≡ length entries.now) }
    ensures err { IfErr result (λ fault. IsFaultOr number fault
        (maps_read sections.now first entries.now)) }
{
    let Ok(index) = first_sections(alloc, sections) else {
        return Err(fault_at(number, ScriptFaultKind::NoMemory));
    };
    let Ok(mut maps) = Vec::with_capacity(alloc, entries.len()) else {
        return Err(fault_at(number, ScriptFaultKind::NoMemory));
    };
    for entry in entries {
        let section = index.get(entry.map.as_slice()).copied();
        match read_map(alloc, section, first, entry, number) {
            Ok(map) => maps.push_reserved(map),
            Err(fault) => return Err(fault),
        }
    }
    Ok(maps)
}

/// The map of a line of the master section, of which this is the section.
fn read_map(
    alloc: Global,
    section: Option<&Section>,
    first: u64,
    entry: &MasterEntry,
    number: u64,
) -> Result<Map, ScriptFault>
    requires first { first ≤ 2 ^ 62 }
    requires line { entry.now.line ≤ 2 ^ 63 }
    ensures ok { IfOk result (λ map. map_by (option_copied section.entry) first entry.now
        ≡ Ok map) }
    ensures err { IfErr result (λ fault. IsFaultOr number fault
        (map_by (option_copied section.entry) first entry.now)) }
{
    match section {
        None => Err(fault_in(first, entry.line, ScriptFaultKind::NoSuchMap)),
        Some(section) => read_section(alloc, section, kind_for(&entry.point), number),
    }
}

/// A section as a map of this kind.
fn read_section(
    alloc: Global,
    section: &Section,
    kind: MapKind,
    number: u64,
) -> Result<Map, ScriptFault>
    ensures ok { IfOk result (λ map. rows_in section.now.first (map_read kind section.now.text)
        ≡ Ok map) }
    ensures err { IfErr result (λ fault. IsFaultOr number fault
        (rows_in section.now.first (map_read kind section.now.text))) }
{
    match Map::read(alloc, section.text(), kind) {
        Ok(map) => Ok(map),
        Err(fault) => match fault.kind {
            MapFaultKind::NoMemory => Err(fault_at(number, ScriptFaultKind::NoMemory)),
            kind => Err(fault_in(
                section.first(),
                fault.line,
                ScriptFaultKind::BadMap { kind },
            )),
        },
    }
}
