//! What keys are looked up as.

use am_map::{Entry, Map, MapFault, MapFaultKind, MapKind};
use am_names::Errno;
use std::alloc::Global;

/// The options, the host and the path that an entry should have.
pub type Said = (Option<&'static [u8]>, &'static [u8], &'static [u8]);

/// A key, and the entry that it should be looked up as.
pub type Line = (&'static [u8], Said);

/// The map that a text is read as, or its fault, or memory has run out.
pub fn read(alloc: Global, text: &[u8], kind: MapKind) -> Result<Result<Map, MapFault>, Errno> {
    match Map::read(alloc, text, kind) {
        Err(fault) if fault.kind == MapFaultKind::NoMemory => Err(Errno::NoMemory),
        read => Ok(read),
    }
}

/// The map that a good text is read as.
pub fn good(alloc: Global, text: &[u8], kind: MapKind) -> Result<Map, Errno> {
    match read(alloc, text, kind)? {
        Ok(map) => Ok(map),
        Err(_) => Err(Errno::EINVAL),
    }
}

pub fn look_up(alloc: Global, map: &Map, key: &[u8]) -> Result<Option<Entry>, Errno> {
    Ok(map.look_up(alloc, key)?)
}

pub fn says(entry: &Entry, said: Said) -> bool {
    let (options, host, path) = said;
    let same_options = match (&entry.options, options) {
        (Some(has), Some(should)) => has.as_slice() == should,
        (None, None) => true,
        _ => false,
    };
    same_options && entry.host.as_slice() == host && entry.path.as_slice() == path
}

/// Whether the key is looked up as this entry, or not found.
pub fn finds(alloc: Global, map: &Map, key: &[u8], said: Option<Said>) -> Result<bool, Errno> {
    match (look_up(alloc, map, key)?, said) {
        (Some(entry), Some(said)) => Ok(says(&entry, said)),
        (None, None) => Ok(true),
        _ => Ok(false),
    }
}

/// Each of these keys is looked up as its entry.
pub fn finds_lines(alloc: Global, map: &Map, lines: &[Line]) -> Result<bool, Errno> {
    for (key, said) in lines {
        if !finds(alloc, map, key, Some(*said))? {
            return Ok(false);
        }
    }
    Ok(true)
}

/// None of these keys is found.
pub fn finds_none(alloc: Global, map: &Map, keys: &[&[u8]]) -> Result<bool, Errno> {
    for key in keys {
        if !finds(alloc, map, key, None)? {
            return Ok(false);
        }
    }
    Ok(true)
}

/// Each of these keys is found.
pub fn finds_all(alloc: Global, map: &Map, keys: &[&[u8]]) -> Result<bool, Errno> {
    for key in keys {
        if look_up(alloc, map, key)?.is_none() {
            return Ok(false);
        }
    }
    Ok(true)
}
