//! A head that is gathered line by line.

ghost use Rattle.std.specs.Prelude.{◌≡◌, ◌++◌, is_some, IfErr, OnErr, OnOk};
ghost use Rattle.am_lines.specs.{words_of};
ghost use Rattle.am_script.specs.Sections.{is_end, map_name};
ghost use Rattle.am_serve.specs.Heads.{ends_head, nothing_gathered, opens_section, with_line, within_behind};

use crate::word::{is_only, is_word};
use am_lines::next_word;
use std::alloc::{AllocError, Global};
use std::marker::Model;

/// The lines of a head so far, each with its line feed.
#[derive(Drop)]
pub struct Head {
    text: Vec<u8>,
    within: bool,
}

impl Model for Head {
    ghost use Rattle.am_serve.specs.Heads.{Gathered};

    ghost Value = { Gathered };

    ghost view = { λ h. record { text = h.text.items; within = h.within } };
}

fn names_map(line: &[u8]) -> bool
    ensures { result ≡ is_some (map_name (words_of line.now)) }
{
    let Some((word, words)) = next_word(line) else {
        return false;
    };
    let Some((_name, words)) = next_word(words) else {
        return false;
    };
    if let Some(_) = next_word(words) {
        return false;
    }
    is_word(word, b"map")
}

fn opens_section(line: &[u8]) -> bool
    ensures { result ≡ opens_section (words_of line.now) }
{
    if is_only(b"master", line) {
        return true;
    }
    names_map(line)
}

fn is_end(line: &[u8]) -> bool
    ensures { result ≡ is_end line.now }
{
    is_word(line, b"end")
}

fn within_behind(within: bool, line: &[u8]) -> bool
    ensures { result ≡ within_behind within line.now }
{
    if within {
        return !is_end(line);
    }
    opens_section(line)
}

impl Head {
    pub(crate) fn new(alloc: Global) -> Head
        ensures { result ≡ nothing_gathered }
    {
        Head {
            text: Vec::new(alloc),
            within: false,
        }
    }

    /// Whether a section is open.
    pub(crate) fn is_within(&self) -> bool
        ensures { result ≡ self.now.within }
    {
        self.within
    }

    /// Whether the line ends the head.
    pub(crate) fn ends(&self, line: &[u8]) -> bool
        ensures { result ≡ ends_head self.now line.now }
    {
        if self.within {
            return false;
        }
        is_only(b"events", line)
    }

    /// Adds a line; without memory for it nothing changes.
    pub(crate) fn push_line(&mut self, line: &[u8]) -> Result<(), AllocError>
        ensures ok { OnOk result (self.new ≡ with_line self.old line.now) }
        ensures err { OnErr result (self.new ≡ self.old) }
    {
        self.text.reserve(line.len() + 1)?;
        self.text.extend_from_slice(line)?;
        self.text.push_reserved(b'\n');
        self.within = within_behind(self.within, line);
        Ok(())
    }

    /// Adds the last line, which has no line feed; without memory for it nothing changes.
    pub(crate) fn push_last(&mut self, line: &[u8]) -> Result<(), AllocError>
        ensures ok { OnOk result (self.new.text ≡ self.old.text ++ line.now) }
        ensures err { OnErr result (self.new ≡ self.old) }
    {
        self.text.extend_from_slice(line)
    }

    pub(crate) fn text(&self) -> &[u8]
        ensures { result.now ≡ self.now.text }
    {
        self.text.as_slice()
    }
}
