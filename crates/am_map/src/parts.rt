//! The parts of a line, borrowed from its bytes.

use crate::entry::Entry;
use std::alloc::{AllocError, Global};

/// An entry, borrowed.
#[derive(Clone, Copy)]
pub(crate) struct EntryRef<'a> {
    pub(crate) options: Option<&'a [u8]>,
    pub(crate) host: &'a [u8],
    pub(crate) path: &'a [u8],
}

impl EntryRef<'_> {
    ghost use Rattle.std.specs.Prelude.{◌≡◌, IfOk};
    ghost use Rattle.am_map.specs.Parts.{entry_of};

    /// The same entry with bytes of its own.
    pub(crate) fn copy(&self, alloc: Global) -> Result<Entry, AllocError>
        ensures { IfOk result (λ entry. entry ≡ entry_of self.now) }
    {
        let options = match self.options {
            Some(options) => Some(Vec::from_slice(alloc, options)?),
            None => None,
        };
        Ok(Entry {
            options,
            host: Vec::from_slice(alloc, self.host)?,
            path: Vec::from_slice(alloc, self.path)?,
        })
    }
}
