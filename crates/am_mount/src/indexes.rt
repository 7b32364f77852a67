//! The rows by namespace, by watched file system, by parent and by place.

ghost use Rattle.std.specs.Prelude.{◌≡◌, [], IfOk};
ghost use Rattle.am_mount.specs.Indexed.{AreIndexed, AreWith, AreWithout, HaveRoom, HaveSameLists, MayTakeOut, RoomAt};
ghost use Rattle.am_mount.specs.Watched.{SameWatched, Watches};

use crate::families::{Families, Spot};
use crate::index::Index;
use crate::watched::Watched;
use am_names::{FsId, MountRow, Position, bucket};
use std::alloc::{AllocError, Global};

/// Which mounts are in a namespace, show a file system that is watched, are on a parent, and at
/// places of a bucket of it.
#[derive(Drop)]
pub struct Indexes {
    pub by_ns: Index,
    pub by_fs: Watched,
    pub families: Families,
}

/// Where there is room for a mount that is mounted somewhere.
#[derive(Clone, Copy)]
pub struct Mounted {
    /// The bucket of its place.
    pub bucket: u64,
    pub spot: Spot,
}

/// Where there is room for a row.
#[derive(Clone, Copy)]
pub struct Places {
    pub by_ns: usize,
    pub by_fs: Option<usize>,
    pub mounted: Option<Mounted>,
}

impl Indexes {
    /// No mount.
    pub fn new(alloc: Global) -> Indexes
        ensures { AreIndexed [] result }
    {
        Indexes {
            by_ns: Index::new(alloc),
            by_fs: Watched::new(alloc),
            families: Families::new(alloc),
        }
    }

    /// Watches a file system of which there was no mount yet. Of another nothing comes.
    pub fn watch(&mut self, fs: FsId) -> Result<(), AllocError>
        ensures by_ns { self.new.by_ns ≡ self.old.by_ns }
        ensures by_fs { Watches self.old.by_fs self.new.by_fs }
        ensures families { self.new.families ≡ self.old.families }
    {
        self.by_fs.watch(fs.0 as u64)
    }

    /// Watches the file systems that another one watches.
    pub fn watch_all(&mut self, other: &Indexes) -> Result<(), AllocError>
        ensures by_ns { self.new.by_ns ≡ self.old.by_ns }
        ensures by_fs { Watches self.old.by_fs self.new.by_fs }
        ensures families { self.new.families ≡ self.old.families }
    {
        self.by_fs.watch_all(&other.by_fs)
    }

    /// Makes room for a mount that is mounted here, if it is mounted anywhere.
    fn make_room_at(&mut self, mountpoint: &Option<Position>) -> Result<Option<Mounted>, AllocError>
        ensures same { HaveSameLists self.old self.new }
        ensures by_ns { self.new.by_ns ≡ self.old.by_ns }
        ensures by_fs { self.new.by_fs ≡ self.old.by_fs }
        ensures ok { IfOk result (λ mounted. RoomAt mountpoint.now mounted self.new) }
    {
        let Some(position) = mountpoint else {
            return Ok(None);
        };
        let bucket = bucket(position.place.text());
        let spot = self.families.make_room(position.mount.0, bucket)?;
        Ok(Some(Mounted { bucket, spot }))
    }

    /// Makes room for the row. The answer tells where.
    pub fn make_room(&mut self, row: &MountRow) -> Result<Places, AllocError>
        ensures same { HaveSameLists self.old self.new }
        ensures ok { IfOk result (HaveRoom row.now self.new) }
    {
        let by_ns = self.by_ns.make_room(row.ns.0 as u64)?;
        let by_fs = self.by_fs.make_room(row.fs.0 as u64)?;
        let mounted = self.make_room_at(&row.mountpoint)?;
        Ok(Places {
            by_ns,
            by_fs,
            mounted,
        })
    }

    /// Adds the row at these places, where there is room for it.
    pub fn add(&mut self, row: &MountRow, places: Places)
        requires { HaveRoom row.now self.old places }
        ensures { AreWith row.now self.old self.new }
    {
        self.by_ns.add(places.by_ns, row.mount);
        self.by_fs.add(row.fs.0, places.by_fs, row.mount);
        if let Some(at) = places.mounted {
            self.families.add(at.spot, at.bucket, row.mount);
        }
    }

    /// Takes the row out.
    pub fn remove(&mut self, row: &MountRow)
        requires { MayTakeOut row.now self.old }
        ensures { AreWithout row.now self.old self.new }
    {
        self.by_ns.remove(row.ns.0 as u64, row.mount);
        self.by_fs.remove(row.fs.0 as u64, row.mount);
        if let Some(position) = &row.mountpoint {
            let bucket = bucket(position.place.text());
            self.families.remove(position.mount.0, bucket, row.mount);
        }
    }
}
