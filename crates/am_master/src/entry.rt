//! A line of the master map.

ghost use Rattle.std.specs.Prelude.{◌≡◌, ◌↔◌, IsTrue, IfOk};

use crate::point::Point;
use std::alloc::{AllocError, Global};
use std::marker::Model;

/// Which map serves a mount point, and how long its mounts stay.
#[derive(Debug, Drop)]
pub struct MasterEntry {
    pub point: Point,
    /// The name of the map, without its type.
    pub map: Vec<u8>,
    /// Seconds without use after which a mount may expire, 0 for never by itself
    /// (autofs.rst, "Mountpoint expiry").
    pub timeout: u32,
    /// The first raw line of the line, from 1.
    pub line: usize,
}

impl Model for MasterEntry {
    ghost use Rattle.am_master.specs.MasterRow.{MasterRow};

    ghost Value = { MasterRow };

    ghost view = { λ e.
        record { point = e.point; map = e.map.items; timeout = e.timeout; line = e.line } };
}

impl MasterEntry {
    /// The same line once more.
    pub fn copy(&self, alloc: Global) -> Result<MasterEntry, AllocError>
        ensures { IfOk result (λ entry. entry ≡ self.now) }
    {
        Ok(MasterEntry {
            point: self.point.copy(alloc)?,
            map: Vec::from_slice(alloc, self.map.as_slice())?,
            timeout: self.timeout,
            line: self.line,
        })
    }

    /// Whether both are the same line.
    pub fn is_same(&self, other: &MasterEntry) -> bool
        ensures { IsTrue result ↔ (self.now ≡ other.now) }
    {
        self.line == other.line
            && self.timeout == other.timeout
            && self.point.is_same(&other.point)
            && self.map.as_slice() == other.map.as_slice()
    }
}
