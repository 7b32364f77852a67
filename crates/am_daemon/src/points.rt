//! The points of the master map, at which an autofs may be attached, and the maps that serve them.

ghost use Rattle.std.specs.Prelude.{◌≡◌, [], Some, IfOk, IfSome, find};
ghost use Rattle.std.specs.Option.{option_map, option_map_or};
ghost use Rattle.am_names.specs.{IsCanonical, names_of};
ghost use Rattle.am_map.specs.{entry_for};
ghost use Rattle.am_daemon.specs.Points.{is_direct, has_point, has_key, lines_of, line_for, point_of, line_timeout, rows_at, path_of, key_of, entry_at, entry_of};
ghost use Rattle.am_daemon.specs.State.{rows_of};
ghost use Rattle.am_daemon.specs.Lent.{line_in};

use crate::daemon::Daemon;
use crate::served::Point;
use am_map::{Entry, Map, key_text};
use am_master::{MasterEntry, Point as LinePoint};
use am_names::{FsId, Name, Place, Trigger};
use std::alloc::{AllocError, Global};

/// Whether the line is of a direct map that has this path as a key.
fn has_key(path: &[u8], line: &MasterEntry, map: &Map) -> bool
    requires { IsCanonical path.now }
    ensures { result ≡ has_key (names_of path.now) line.now.point map.now }
{
    match &line.point {
        LinePoint::Direct => map.has_entry(key_text(path)),
        LinePoint::Indirect(_) => false,
    }
}

/// Whether the point stands for the keys of a direct map.
fn is_direct(point: &LinePoint) -> bool
    ensures { result ≡ is_direct point.now }
{
    match point {
        LinePoint::Direct => true,
        LinePoint::Indirect(_) => false,
    }
}

/// The entry of a name, or of a path's key, in a map.
fn look_up(
    alloc: Global,
    map: &Map,
    path: &[u8],
    name: &Option<Name>,
) -> Result<Option<Entry>, AllocError>
    requires { IsCanonical path.now }
    ensures { IfOk result (λ entry.
        entry ≡ entry_for map.now (key_of name.now (names_of path.now))) }
{
    match name {
        Some(name) => map.look_up(alloc, name.as_bytes()),
        None => map.look_up(alloc, key_text(path)),
    }
}

impl Daemon {
    /// The line of the master whose point is this path, and its map.
    fn line_at(&self, path: &[u8]) -> Option<(usize, (&MasterEntry, &Map))>
        requires { IsCanonical path.now }
        ensures { line_in result ≡ find (λ line. has_point (names_of path.now) line.1.0.point)
            (lines_of (rows_of self.now)) }
    {
        let at = self.master.line_at(path)?;
        let line = self.master.entries().get(at)?;
        let map = self.maps.get(at)?;
        Some((at, (line, map)))
    }

    /// The first `/-` line whose map has this path as a key, and that map.
    fn line_with_key(&self, path: &[u8]) -> Option<(usize, (&MasterEntry, &Map))>
        requires { IsCanonical path.now }
        ensures { line_in result
            ≡ find (λ line. has_key (names_of path.now) line.1.0.point line.1.1)
            (lines_of (rows_of self.now)) }
    {
        self.master
            .entries()
            .iter()
            .zip(self.maps.iter())
            .enumerate()
            .find(|line| has_key(path, line.1.0, line.1.1))
    }

    /// What serves a path: the line of the master whose point it is, else the first `/-` line whose
    /// map has it as a key, with its map.
    fn line_for(&self, path: &[u8]) -> Option<(usize, (&MasterEntry, &Map))>
        requires { IsCanonical path.now }
        ensures { line_in result ≡ line_for (rows_of self.now) (names_of path.now) }
    {
        match self.line_at(path) {
            Some(line) => Some(line),
            None => self.line_with_key(path),
        }
    }

    /// How the master map serves a path: by the line whose point it is, else by the first `/-` line
    /// whose map has it as a key (auto.master(5), "FORMAT").
    pub fn point(&self, path: &Place) -> Option<Point>
        ensures { result ≡ point_of (rows_of self.now) path.now }
    {
        let (entry, (line, _map)) = self.line_for(path.text())?;
        Some(Point {
            entry,
            direct: is_direct(&line.point),
        })
    }

    /// Seconds without use after which a mount of the line at this place may expire, 0 for never by
    /// itself (autofs.rst, "Mountpoint expiry"). Where there is no line it is 0.
    pub fn timeout(&self, entry: usize) -> u32
        ensures { result ≡ line_timeout (rows_of self.now) entry }
    {
        match self.master.entries().get(entry) {
            Some(line) => line.timeout,
            None => 0,
        }
    }

    /// The map that serves a path.
    fn map_at(&self, path: &[u8]) -> Option<&Map>
        requires { IsCanonical path.now }
        ensures { option_map_or (λ map. map.now) result []
            ≡ rows_at (rows_of self.now) (names_of path.now) }
    {
        let (_entry, (_line, map)) = self.line_for(path)?;
        Some(map)
    }

    /// The text of the path at which a file system was attached.
    fn path_of(&self, fs: FsId) -> Option<&[u8]>
        ensures path { option_map (λ text. names_of text.now) result ≡ path_of self.now.known fs }
        ensures canonical { IfSome result (λ text. IsCanonical text.now) }
    {
        let path = self.known.path(fs)?;
        Some(path.text())
    }

    /// The entry of a name, or of the path itself, in the map that serves the path.
    fn entry_at(
        &self,
        alloc: Global,
        path: &[u8],
        name: &Option<Name>,
    ) -> Result<Option<Entry>, AllocError>
        requires { IsCanonical path.now }
        ensures { IfOk result (λ entry.
            entry ≡ entry_at (rows_of self.now) (Some (names_of path.now)) name.now) }
    {
        match self.map_at(path) {
            Some(map) => look_up(alloc, map, path, name),
            None => Ok(None),
        }
    }

    /// The entry of a trigger, in the map that serves the path at which its file system was
    /// attached: of its name, or of the path's key if it is direct.
    pub(crate) fn entry_of(
        &self,
        alloc: Global,
        trigger: &Trigger,
    ) -> Result<Option<Entry>, AllocError>
        ensures { IfOk result (λ entry. entry ≡ entry_of (rows_of self.now) trigger.now) }
    {
        match self.path_of(trigger.fs) {
            Some(path) => self.entry_at(alloc, path, &trigger.name),
            None => Ok(None),
        }
    }
}
