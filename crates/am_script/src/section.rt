//! The sections of a head.

ghost use Rattle.std.specs.Prelude.{◌≡◌, ◌≤◌, ◌^◌, IfOk, OnOk};
ghost use Rattle.std.specs.Option.{option_copied};
ghost use Rattle.am_script.specs.Fault.{fault_in};
ghost use Rattle.am_script.specs.Head.{is_map};
ghost use Rattle.am_lines.specs.{words_of};
ghost use Rattle.am_script.specs.Sections.{is_end, are_only, map_name, section_opened, with_line};

use crate::event_word::is_word;
use crate::fault::{ScriptFault, ScriptFaultKind, fault_at};
use am_lines::next_word;
use std::alloc::{AllocError, Global};
use std::marker::Model;

/// A section, as far as it is read.
#[derive(Drop)]
pub struct Section {
    /// The number of its first line.
    first: u64,
    /// The name of its map; none for the master section.
    name: Option<Vec<u8>>,
    /// What stands behind its first line, with each line's line feed.
    text: Vec<u8>,
}

impl Model for Section {
    ghost use Rattle.std.specs.Prelude.{◌≤◌, ◌^◌};
    ghost use Rattle.std.specs.Option.{option_map};
    ghost use Rattle.am_script.specs.Sections.{Section};

    ghost Value = { Section };

    ghost view = { λ s. record {
      first = s.first;
      name = option_map
          (λ name. name.items) s.name;
      text = s.text.items;
    } };

    // So that the line of a fault in its text fits.
    ghost invariant = { λ s. s.first ≤ 2 ^ 62 };
}

impl Section {
    /// The section that a line opens, if it opens one.
    pub fn open(alloc: Global, number: u64, line: &[u8]) -> Result<Option<Section>, AllocError>
        requires { number ≤ 2 ^ 62 }
        ensures { IfOk result (λ opened. opened ≡ section_opened number (words_of line.now)) }
    {
        if is_only(b"master", line) {
            return Ok(Some(Section {
                first: number,
                name: None,
                text: Vec::new(alloc),
            }));
        }
        let Some(name) = map_name(line) else {
            return Ok(None);
        };
        let name = Vec::from_slice(alloc, name)?;
        Ok(Some(Section {
            first: number,
            name: Some(name),
            text: Vec::new(alloc),
        }))
    }

    /// Adds a line.
    pub fn push_line(&mut self, line: &[u8]) -> Result<(), AllocError>
        ensures { OnOk result (self.new ≡ with_line self.old line.now) }
    {
        self.text.extend_from_slice(line)?;
        self.text.push(b'\n')?;
        Ok(())
    }

    /// Whether it is a map's.
    pub fn is_map(&self) -> bool
        ensures { result ≡ is_map self.now }
    {
        self.name.is_some()
    }

    /// The name of its map; none for the master section.
    pub fn name(&self) -> Option<&[u8]>
        ensures { option_copied result ≡ self.now.name }
    {
        match &self.name {
            None => None,
            Some(name) => Some(name.as_slice()),
        }
    }

    /// The number of its first line.
    pub fn first(&self) -> u64
        ensures first { result ≡ self.now.first }
        ensures fits { result ≤ 2 ^ 62 }
    {
        self.first
    }

    /// What stands between its first line and its `end`.
    pub fn text(&self) -> &[u8]
        ensures { result.now ≡ self.now.text }
    {
        self.text.as_slice()
    }
}

/// A fault on a line of the text of the section that begins at the line `first`.
pub fn fault_in(first: u64, line: usize, kind: ScriptFaultKind) -> ScriptFault
    requires first { first ≤ 2 ^ 62 }
    requires line { line ≤ 2 ^ 63 }
    ensures { result ≡ fault_in first line kind }
{
    fault_at(first + line as u64, kind)
}

/// Whether a line of a section ends it.
pub fn is_end(line: &[u8]) -> bool
    ensures { result ≡ is_end line.now }
{
    is_word(line, b"end")
}

/// Whether this is the only word of the line.
pub fn is_only(text: &[u8], line: &[u8]) -> bool
    ensures { result ≡ are_only text.now (words_of line.now) }
{
    let Some((word, words)) = next_word(line) else {
        return false;
    };
    if let Some(_) = next_word(words) {
        return false;
    }
    is_word(word, text)
}

/// The name behind `map`.
fn map_name(line: &[u8]) -> Option<&[u8]>
    ensures { option_copied result ≡ map_name (words_of line.now) }
{
    let (word, words) = next_word(line)?;
    let (name, words) = next_word(words)?;
    if let Some(_) = next_word(words) {
        return None;
    }
    if !is_word(word, b"map") {
        return None;
    }
    Some(name)
}
