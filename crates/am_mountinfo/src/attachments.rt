//! The latest attachment of each autofs.

ghost use Rattle.std.specs.Prelude.{◌≡◌, ℕ, None, IfOk, OnOk};
ghost use Rattle.am_mountinfo.specs.Attachments.{attachment, AreAttachments, HasOneAttachmentMore};

use am_names::FsId;
use am_world::Attached;
use indexmap::IndexMap;
use std::alloc::{AllocError, Global};

/// By file system.
#[derive(Drop)]
pub struct Attachments {
    rows: IndexMap<u32, Attached>,
}

impl Attachments {
    /// No attachment.
    fn new(alloc: Global) -> Attachments
        ensures { (fs : ℕ) → attachment result fs ≡ None }
    {
        Attachments {
            rows: IndexMap::new(alloc),
        }
    }

    /// All these; of a file system that comes twice the first.
    pub fn of(alloc: Global, rows: &[Attached]) -> Result<Attachments, AllocError>
        ensures { IfOk result (λ found. AreAttachments found rows.now) }
    {
        let mut found = Attachments::new(alloc);
        for row in rows {
            found.add(row)?;
        }
        Ok(found)
    }

    /// That of a file system.
    pub fn get(&self, fs: FsId) -> Option<Attached>
        ensures { result ≡ attachment self.now fs }
    {
        self.rows.get(&fs.0).copied()
    }

    /// One more, the last.
    fn add(&mut self, row: &Attached) -> Result<(), AllocError>
        ensures { OnOk result (HasOneAttachmentMore row.now self.old self.new) }
    {
        if self.rows.get(&row.fs.0).is_none() {
            self.rows.insert(row.fs.0, *row)?;
        }
        Ok(())
    }
}
