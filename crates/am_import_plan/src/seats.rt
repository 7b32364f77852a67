//! Mounts of the world come to stand for rows.

use crate::known::place_key;
use crate::planner::Planner;
use crate::targets::Wish;
use am_group::Change;
use std::alloc::AllocError;

impl Planner {
    /// Whether a mount shows what a row shows, as far as it is known.
    pub fn fits(&self, row: usize, mount: u64) -> bool {
        let Some(target) = self.targets.rows.get(row) else {
            return false;
        };
        let Some(seen) = self.known.mount(mount) else {
            return false;
        };
        match self.shows.get(&target.shows) {
            Some(fs) => *fs == seen.fs,
            None => !self.shown.contains(&seen.fs),
        }
    }

    /// A mount stands for a row from now on.
    pub fn take(&mut self, row: usize, mount: u64) -> Result<(), AllocError> {
        let Some(seen) = self.known.mount(mount) else {
            return Ok(());
        };
        let fs = seen.fs;
        let Some(target) = self.targets.rows.get_mut(row) else {
            return Ok(());
        };
        target.seat = Some(mount);
        let shows = target.shows;
        self.known.seat(mount, row);
        if !self.shows.contains_key(&shows) {
            self.shows.insert(shows, fs)?;
            self.shown.insert(fs)?;
        }
        Ok(())
    }

    /// Whether a row waits for a mount, and what it is mounted on is there.
    pub fn is_open(&self, row: usize) -> bool {
        let Some(target) = self.targets.rows.get(row) else {
            return false;
        };
        let Some(parent) = target.parent else {
            return false;
        };
        target.seat.is_none() && !target.is_left && self.seat_of(parent).is_some()
    }

    /// The path at which the mount of a row is to be.
    pub fn path_for(&self, row: usize) -> Result<Option<Vec<u8>>, AllocError> {
        let Some(target) = self.targets.rows.get(row) else {
            return Ok(None);
        };
        let Some(parent) = target.parent else {
            return Ok(None);
        };
        let Some(seat) = self.seat_of(parent) else {
            return Ok(None);
        };
        Ok(Some(self.known.path_at(seat, target.place.as_slice())?))
    }

    /// Whether a mount is where the row tells.
    fn is_in_place(&self, row: usize, mount: u64) -> bool {
        let Some(target) = self.targets.rows.get(row) else {
            return false;
        };
        let Some(seen) = self.known.mount(mount) else {
            return false;
        };
        let Some(parent) = target.parent else {
            return false;
        };
        seen.parent.is_some()
            && seen.parent == self.seat_of(parent)
            && seen.place.as_slice() == target.place.as_slice()
    }

    /// The row that waits for a mount at the place of this one.
    pub fn row_at(&self, mount: u64) -> Result<Option<usize>, AllocError> {
        let Some(seen) = self.known.mount(mount) else {
            return Ok(None);
        };
        let Some(parent) = seen.parent else {
            return Ok(None);
        };
        let Some(above) = self.known.row_of(parent) else {
            return Ok(None);
        };
        let key = place_key(self.alloc, above as u64, seen.place.as_slice())?;
        let Some(rows) = self.targets.places.get(key.as_slice()) else {
            return Ok(None);
        };
        for row in rows {
            if self.is_open(*row) && self.fits(*row, mount) {
                return Ok(Some(*row));
            }
        }
        Ok(None)
    }

    /// A mount of a namespace that shows what a row shows, and can be as it is wished: one that is so already, if
    /// there is one.
    pub fn source(&self, row: usize, wish: Wish, ns: u32) -> Result<Option<u64>, AllocError> {
        let Some(target) = self.targets.rows.get(row) else {
            return Ok(None);
        };
        let Some(fs) = self.shows.get(&target.shows) else {
            return Ok(None);
        };
        let mut found = None;
        for mount in self.known.of_fs(*fs) {
            if self.is_source(*mount, wish, ns)? {
                found = Some(*mount);
                if self.is_right(wish, *mount) {
                    break;
                }
            }
        }
        Ok(found)
    }

    fn is_source(&self, mount: u64, wish: Wish, ns: u32) -> Result<bool, AllocError> {
        let Some(seen) = self.known.mount(mount) else {
            return Ok(false);
        };
        if seen.ns != ns || self.state(mount).is_unbindable || !self.can_be(wish, mount) {
            return Ok(false);
        }
        self.known.is_reached(mount)
    }

    /// Makes a mount at a path for a row: a bind of what shows the same, or a new file system.
    fn made_at(
        &mut self,
        row: usize,
        wish: Wish,
        ns: u32,
        path: &[u8],
    ) -> Result<Option<u64>, AllocError> {
        let Some(target) = self.targets.rows.get(row) else {
            return Ok(None);
        };
        if self.shows.contains_key(&target.shows) {
            let Some(source) = self.source(row, wish, ns)? else {
                return Ok(None);
            };
            let Some(site) = self.site(source)? else {
                return Ok(None);
            };
            return self.bind(ns, site.path.as_slice(), path);
        }
        if self.group_for(wish.group).is_some() || wish.master.is_some() {
            return Ok(None);
        }
        self.mount(ns, path)
    }

    /// Makes the mount of a row in a namespace, with the state that is wished. Tells whether it is there.
    pub fn create(&mut self, row: usize, wish: Wish, ns: u32) -> Result<bool, AllocError> {
        let Some(path) = self.path_for(row)? else {
            return Ok(false);
        };
        let before = self.known.count();
        let Some(mount) = self.made_at(row, wish, ns, path.as_slice())? else {
            return Ok(false);
        };
        if !self.is_in_place(row, mount) {
            self.umount(ns, path.as_slice())?;
            return Ok(false);
        }
        self.take(row, mount)?;
        self.take_new(wish, mount, before)?;
        Ok(true)
    }

    /// A new mount stands for a row. Its copies, behind so many mounts, stand for rows too, or are removed.
    pub fn take_new(&mut self, wish: Wish, mount: u64, before: u64) -> Result<(), AllocError> {
        let mut others = Vec::new(self.alloc);
        let mut rows = Vec::new(self.alloc);
        for index in before..self.known.count() {
            let copy = index + 1;
            if copy != mount && self.known.mount(copy).is_some() {
                match self.row_at(copy)? {
                    Some(other) => {
                        self.take(other, copy)?;
                        rows.push(other)?;
                    }
                    None => others.push(copy)?,
                }
            }
        }
        if !others.is_empty() {
            self.remove(others.as_slice(), mount)?;
        }
        self.make_right(wish, mount)?;
        for other in &rows {
            self.settle(*other)?;
        }
        Ok(())
    }

    /// Removes copies of a mount that aren't wanted, and keeps the mount and its other copies: these don't go, as
    /// something is mounted on them meanwhile (sharedsubtree.rst, 5f).
    fn remove(&mut self, copies: &[u64], mount: u64) -> Result<(), AllocError> {
        for copy in copies {
            if let Some(site) = self.site(*copy)? {
                self.change(site.ns, site.path.as_slice(), Change::MakePrivate)?;
            }
        }
        let Some(kept) = self.site(mount)? else {
            return Ok(());
        };
        let shield = self.mount(kept.ns, kept.path.as_slice())?;
        for copy in copies {
            if let Some(site) = self.site(*copy)? {
                self.umount(site.ns, site.path.as_slice())?;
            }
        }
        if shield.is_some() {
            self.umount(kept.ns, kept.path.as_slice())?;
        }
        Ok(())
    }
}
