//! The paths of mounts in their namespaces.

ghost use Rattle.std.specs.Prelude.{◌≡◌, ◌++◌, [], OnOk, IfOk};
ghost use Rattle.am_mountinfo.specs.Mountinfo.{below, parent_of};
ghost use Rattle.am_mountinfo.specs.Paths.{path_in, ArePaths, HasOneMore};

use am_names::{MountId, MountRow, Position};
use indexmap::IndexMap;
use std::alloc::{AllocError, Global};

/// The path of each mount from the root of its namespace: each name behind a slash, nothing for the
/// root.
#[derive(Drop)]
pub struct Paths {
    texts: IndexMap<u64, Vec<u8>>,
}

/// The mount that this one is mounted on; the root of a namespace is its own parent.
pub(crate) fn parent_of(row: &MountRow) -> MountId
    ensures { result ≡ parent_of row.now }
{
    match &row.mountpoint {
        Some(position) => position.mount,
        None => row.mount,
    }
}

/// The path of a mountpoint on a mount that has this path.
fn below(alloc: Global, path: &[u8], mountpoint: &Option<Position>) -> Result<Vec<u8>, AllocError>
    ensures { IfOk result (λ text. text.items ≡ below path.now mountpoint.now) }
{
    match mountpoint {
        None => Ok(Vec::new(alloc)),
        Some(position) => joined(alloc, path, position.place.text()),
    }
}

/// One text behind another.
fn joined(alloc: Global, front: &[u8], rest: &[u8]) -> Result<Vec<u8>, AllocError>
    ensures { IfOk result (λ text. text.items ≡ front.now ++ rest.now) }
{
    let mut text = Vec::from_slice(alloc, front)?;
    text.extend_from_slice(rest)?;
    Ok(text)
}

impl Paths {
    /// Those of no mount.
    fn new(alloc: Global) -> Paths
        ensures { ArePaths result [] }
    {
        Paths {
            texts: IndexMap::new(alloc),
        }
    }

    /// The paths of mounts that rise by number.
    pub fn of(alloc: Global, rows: &[MountRow]) -> Result<Paths, AllocError>
        ensures { IfOk result (λ paths. ArePaths paths rows.now) }
    {
        let mut paths = Paths::new(alloc);
        for row in rows {
            paths.add(alloc, row)?;
        }
        Ok(paths)
    }

    /// The path of a mount.
    pub fn path(&self, mount: MountId) -> &[u8]
        ensures { result.now ≡ path_in self.now mount }
    {
        match self.texts.get(&mount.0) {
            Some(text) => text.as_slice(),
            None => &[],
        }
    }

    /// One more mount, which is younger than all before.
    fn add(&mut self, alloc: Global, row: &MountRow) -> Result<(), AllocError>
        ensures { OnOk result (HasOneMore row.now self.old self.new) }
    {
        let text = below(alloc, self.path(parent_of(row)), &row.mountpoint)?;
        self.texts.insert(row.mount.0, text)?;
        Ok(())
    }
}
