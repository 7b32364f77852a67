//! The mounts of each namespace.

ghost use Rattle.std.specs.Prelude.{◌≡◌, ℕ, [], option_copied, IfOk, OnOk};
ghost use Rattle.am_mountinfo.specs.Residents.{rows_in, residents, AreResidents, HasOneResidentMore};

use am_names::{MountRow, NsId};
use indexmap::IndexMap;
use std::alloc::{AllocError, Global};

/// For each namespace its mounts, in rising order.
#[derive(Drop)]
pub struct Residents<'a> {
    lists: IndexMap<u32, Vec<&'a MountRow>>,
}

impl<'a> Residents<'a> {
    /// No mount.
    fn new(alloc: Global) -> Residents<'a>
        ensures { (ns : ℕ) → residents result ns ≡ [] }
    {
        Residents {
            lists: IndexMap::new(alloc),
        }
    }

    /// All these mounts, which rise by number.
    pub fn of(alloc: Global, rows: &'a [MountRow]) -> Result<Residents<'a>, AllocError>
        ensures { IfOk result (λ found. AreResidents found rows.now) }
    {
        let mut found = Residents::new(alloc);
        for row in rows {
            found.add(alloc, row)?;
        }
        Ok(found)
    }

    /// The mounts of a namespace; none where it has no mount.
    pub fn list(&self, ns: NsId) -> Option<&Vec<&'a MountRow>>
        ensures { rows_in (option_copied result) ≡ residents self.now ns }
    {
        self.lists.get(&ns.0)
    }

    /// One more mount, the last.
    fn add(&mut self, alloc: Global, row: &'a MountRow) -> Result<(), AllocError>
        ensures { OnOk result (HasOneResidentMore row.now self.old self.new) }
    {
        if let Some(list) = self.lists.get_mut(&row.ns.0) {
            list.push(row)?;
            return Ok(());
        }
        let list = Vec::from_slice(alloc, &[row])?;
        self.lists.insert(row.ns.0, list)?;
        Ok(())
    }
}
