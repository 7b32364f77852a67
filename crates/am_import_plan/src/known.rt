//! What is known of the mounts of the world in which a script is tried.

use am_names::{MountId, MountIds};
use am_world::World;
use std::alloc::{AllocError, Global};
use std::collections::BTreeMap;

/// A mount of the world.
#[derive(Drop)]
pub(crate) struct Seen {
    pub ns: u32,
    pub fs: u32,
    /// The mount that it is mounted on; none for the root of a namespace.
    pub parent: Option<u64>,
    /// The place there: the names, each behind a slash.
    pub place: Vec<u8>,
    /// The names from the root of its namespace, each behind a slash.
    pub path: Vec<u8>,
    pub is_gone: bool,
    /// The row for which it stands.
    pub row: Option<usize>,
}

/// All mounts that the world has had, by number, and which are at each place.
pub(crate) struct Known {
    alloc: Global,
    mounts: Vec<Seen>,
    /// Those at a place of a mount, the newest last.
    places: BTreeMap<Vec<u8>, Vec<u64>>,
    /// The root of each namespace.
    roots: BTreeMap<u32, u64>,
    /// The mounts of each file system.
    by_fs: BTreeMap<u32, Vec<u64>>,
    /// What was ever mounted on each mount.
    above: BTreeMap<u64, Vec<u64>>,
}

// Written by hand, it is proved here once, and not in each function that lets one go.
impl Drop for Known {
    fn drop(self) {
        let Known {
            alloc: _,
            mounts,
            places,
            roots,
            by_fs,
            above,
        } = self;
        drop(mounts);
        drop(places);
        drop(roots);
        drop(by_fs);
        drop(above);
    }
}

/// The key of a place of a mount, or of a row.
pub(crate) fn place_key(alloc: Global, number: u64, place: &[u8]) -> Result<Vec<u8>, AllocError> {
    let mut key = Vec::from_slice(alloc, &number.to_be_bytes())?;
    key.extend_from_slice(place)?;
    Ok(key)
}

fn index_of(mount: u64) -> Option<usize> {
    usize::try_from(mount.checked_sub(1)?).ok()
}

impl Known {
    pub fn new(alloc: Global) -> Known {
        Known {
            alloc,
            mounts: Vec::new(alloc),
            places: BTreeMap::new(alloc),
            roots: BTreeMap::new(alloc),
            by_fs: BTreeMap::new(alloc),
            above: BTreeMap::new(alloc),
        }
    }

    /// How many mounts there were.
    pub fn count(&self) -> u64 {
        self.mounts.len() as u64
    }

    /// A mount that hasn't gone.
    pub fn mount(&self, mount: u64) -> Option<&Seen> {
        let seen = self.mounts.get(index_of(mount)?)?;
        if seen.is_gone { None } else { Some(seen) }
    }

    pub fn root(&self, ns: u32) -> Option<u64> {
        self.roots.get(&ns).copied()
    }

    /// The mounts of a file system, those that have gone among them.
    pub fn of_fs(&self, fs: u32) -> &[u64] {
        match self.by_fs.get(&fs) {
            Some(mounts) => mounts.as_slice(),
            None => &[],
        }
    }

    /// A mount, what is mounted on it, on that, and so on: each behind what it is mounted on.
    pub fn tree(&self, mount: u64) -> Result<Vec<u64>, AllocError> {
        let mut all = Vec::new(self.alloc);
        all.push(mount)?;
        for place in 0..self.mounts.len() {
            let Some(next) = all.get(place).copied() else {
                break;
            };
            if let Some(others) = self.above.get(&next) {
                for other in others {
                    if self.mount(*other).is_some() {
                        all.push(*other)?;
                    }
                }
            }
        }
        Ok(all)
    }

    /// The row for which a mount stands.
    pub fn row_of(&self, mount: u64) -> Option<usize> {
        self.mount(mount)?.row
    }

    /// Says for which row a mount stands.
    pub fn seat(&mut self, mount: u64, row: usize) {
        if let Some(index) = index_of(mount) {
            if let Some(seen) = self.mounts.get_mut(index) {
                seen.row = Some(row);
            }
        }
    }

    /// The top at a place of a mount.
    pub fn top(&self, mount: u64, place: &[u8]) -> Result<Option<u64>, AllocError> {
        let key = place_key(self.alloc, mount, place)?;
        match self.places.get(key.as_slice()) {
            Some(mounts) => Ok(mounts.last().copied()),
            None => Ok(None),
        }
    }

    /// The mount at whose root is nothing, from this one upwards.
    fn settled(&self, mount: u64) -> Result<u64, AllocError> {
        let mut at = mount;
        for _ in 0..self.mounts.len() {
            match self.top(at, b"")? {
                Some(top) => at = top,
                None => return Ok(at),
            }
        }
        Ok(at)
    }

    /// The mount to whose root a path leads.
    pub fn leads(&self, ns: u32, path: &[u8]) -> Result<Option<u64>, AllocError> {
        let Some(root) = self.root(ns) else {
            return Ok(None);
        };
        let mut at = self.settled(root)?;
        let mut place = Vec::new(self.alloc);
        for name in path.split(|b| *b == b'/') {
            if !name.is_empty() {
                place.push(b'/')?;
                place.extend_from_slice(name)?;
                if let Some(top) = self.top(at, place.as_slice())? {
                    at = self.settled(top)?;
                    place.clear();
                }
            }
        }
        if place.is_empty() {
            Ok(Some(at))
        } else {
            Ok(None)
        }
    }

    /// Whether the path of a mount leads to it.
    pub fn is_reached(&self, mount: u64) -> Result<bool, AllocError> {
        let Some(seen) = self.mount(mount) else {
            return Ok(false);
        };
        Ok(self.leads(seen.ns, seen.path.as_slice())? == Some(mount))
    }

    /// The path of a place of a mount.
    pub fn path_at(&self, mount: u64, place: &[u8]) -> Result<Vec<u8>, AllocError> {
        let mut path = match self.mount(mount) {
            Some(seen) => Vec::from_slice(self.alloc, seen.path.as_slice())?,
            None => Vec::new(self.alloc),
        };
        path.extend_from_slice(place)?;
        Ok(path)
    }

    /// Takes in the mounts that are new in the world.
    pub fn learn(&mut self, world: &World) -> Result<(), AllocError> {
        for number in self.count()..u64::MAX {
            let mount = number + 1;
            let Some(row) = world.mount_row(MountId(mount)) else {
                break;
            };
            let (parent, place) = match &row.mountpoint {
                Some(position) => (Some(position.mount.0), position.place.text()),
                None => (None, b"".as_slice()),
            };
            self.add(mount, row.ns.0, row.fs.0, parent, place)?;
        }
        Ok(())
    }

    fn add(
        &mut self,
        mount: u64,
        ns: u32,
        fs: u32,
        parent: Option<u64>,
        place: &[u8],
    ) -> Result<(), AllocError> {
        let path = match parent {
            Some(parent) => self.path_at(parent, place)?,
            None => Vec::new(self.alloc),
        };
        match parent {
            Some(parent) => {
                let key = place_key(self.alloc, parent, place)?;
                let alloc = self.alloc;
                self.places
                    .entry(key)?
                    .or_insert_with(|| Vec::new(alloc))
                    .push(mount)?;
                self.above
                    .entry(parent)?
                    .or_insert_with(|| Vec::new(alloc))
                    .push(mount)?;
            }
            None => {
                self.roots.insert(ns, mount)?;
            }
        }
        let alloc = self.alloc;
        self.by_fs
            .entry(fs)?
            .or_insert_with(|| Vec::new(alloc))
            .push(mount)?;
        self.mounts.push(Seen {
            ns,
            fs,
            parent,
            place: Vec::from_slice(self.alloc, place)?,
            path,
            is_gone: false,
            row: None,
        })?;
        Ok(())
    }

    /// These mounts have gone.
    pub fn forget(&mut self, mounts: &MountIds) -> Result<(), AllocError> {
        for mount in mounts.as_slice() {
            self.forget_one(mount.0)?;
        }
        Ok(())
    }

    fn forget_one(&mut self, mount: u64) -> Result<(), AllocError> {
        let Some(index) = index_of(mount) else {
            return Ok(());
        };
        let Some(seen) = self.mounts.get_mut(index) else {
            return Ok(());
        };
        seen.is_gone = true;
        let Some(parent) = seen.parent else {
            return Ok(());
        };
        let key = place_key(self.alloc, parent, seen.place.as_slice())?;
        if let Some(there) = self.places.get_mut(key.as_slice()) {
            there.retain(|other| *other != mount);
        }
        Ok(())
    }
}
