//! What a key stands for.

ghost use Rattle.std.specs.Prelude.{◌≡◌, ◌↔◌, IsTrue, IfOk, option_map};
ghost use Rattle.am_map.specs.LookUp.{with_key, entry_with_key};

use std::alloc::{AllocError, Global};
use std::marker::Model;

/// The mount options and the location of a key (autofs(5), "SUN FORMAT").
#[derive(Debug, Drop)]
pub struct Entry {
    /// Without the dash; none where the line has no options.
    pub options: Option<Vec<u8>>,
    /// Possibly empty.
    pub host: Vec<u8>,
    /// Begins with a slash, as it stands in the map.
    pub path: Vec<u8>,
}

impl Model for Entry {
    ghost use Rattle.std.specs.Prelude.{option_map};
    ghost use Rattle.am_map.specs.EntryText.{EntryText};

    ghost Value = { EntryText };

    ghost view = { λ e. record {
      options = option_map (λ o. o.items) e.options;
      host = e.host.items;
      path = e.path.items;
    } };
}

impl Entry {
    /// The same entry once more.
    pub fn copy(&self, alloc: Global) -> Result<Entry, AllocError>
        ensures { IfOk result (λ entry. entry ≡ self.now) }
    {
        let options = match &self.options {
            Some(options) => Some(Vec::from_slice(alloc, options.as_slice())?),
            None => None,
        };
        Ok(Entry {
            options,
            host: Vec::from_slice(alloc, self.host.as_slice())?,
            path: Vec::from_slice(alloc, self.path.as_slice())?,
        })
    }

    /// The entry with the key in the place of each `&` of its host and its path. Its options keep
    /// theirs.
    pub(crate) fn with_key(&self, alloc: Global, key: &[u8]) -> Result<Entry, AllocError>
        ensures { IfOk result (λ entry. entry ≡ entry_with_key key.now self.now) }
    {
        let options = match &self.options {
            Some(options) => Some(Vec::from_slice(alloc, options.as_slice())?),
            None => None,
        };
        Ok(Entry {
            options,
            host: with_key(alloc, self.host.as_slice(), key)?,
            path: with_key(alloc, self.path.as_slice(), key)?,
        })
    }

    /// Whether both are the same options and the same location.
    pub fn is_same(&self, other: &Entry) -> bool
        ensures { IsTrue result ↔ (self.now ≡ other.now) }
    {
        are_same_options(&self.options, &other.options)
            && self.host.as_slice() == other.host.as_slice()
            && self.path.as_slice() == other.path.as_slice()
    }
}

impl Clone for Entry {
    ghost use Rattle.std.specs.Prelude.{◌≡◌};

    ghost is_clone = { λ entry clone. clone ≡ entry };

    fn clone(&self) -> Result<Entry, AllocError> {
        self.copy(*self.host.allocator())
    }
}

/// The bytes, with the key in the place of each `&`.
fn with_key(alloc: Global, bytes: &[u8], key: &[u8]) -> Result<Vec<u8>, AllocError>
    ensures { IfOk result (λ replaced. replaced.items ≡ with_key key.now bytes.now) }
{
    let mut replaced = Vec::with_capacity(alloc, bytes.len())?;
    for byte in bytes {
        if *byte == b'&' {
            replaced.extend_from_slice(key)?;
        } else {
            replaced.push(*byte)?;
        }
    }
    Ok(replaced)
}

/// Whether both have no options, or the same ones.
fn are_same_options(one: &Option<Vec<u8>>, other: &Option<Vec<u8>>) -> bool
    ensures { IsTrue result
        ↔ (option_map (λ o. o.items) one.now ≡ option_map (λ o. o.items) other.now) }
{
    match (one, other) {
        (Some(one), Some(other)) => one.as_slice() == other.as_slice(),
        (None, None) => true,
        _ => false,
    }
}
