//! The parts of a daemon once more.

ghost use Rattle.std.specs.Prelude.{◌≡◌, ◌≤◌, IfOk};

use crate::held::HeldTable;
use crate::job_table::JobTable;
use crate::known::KnownTable;
use am_job::Book;
use am_map::Map;
use am_master::Master;
use std::alloc::{AllocError, Global};

/// The paths that a daemon knows, the attachments that it holds, and its book.
#[derive(Drop)]
pub(crate) struct Noted {
    pub(crate) known: KnownTable,
    pub(crate) held: HeldTable,
    pub(crate) book: Book,
}

/// The maps of a daemon, and the jobs that came of them.
#[derive(Drop)]
pub(crate) struct Mapped {
    pub(crate) master: Master,
    pub(crate) maps: Vec<Map>,
    pub(crate) jobs: JobTable,
}

/// The same maps once more.
fn copies_of(alloc: Global, maps: &[Map]) -> Result<Vec<Map>, AllocError>
    ensures { IfOk result (λ copies. copies.items ≡ maps.now) }
{
    let mut copies = Vec::with_capacity(alloc, maps.len())?;
    for map in maps {
        copies.push(map.copy()?)?;
    }
    Ok(copies)
}

/// These paths, attachments and records once more, with no less room for attachments.
pub(crate) fn copy_noted(
    alloc: Global,
    known: &KnownTable,
    held: &HeldTable,
    book: &Book,
) -> Result<Noted, AllocError>
    ensures known { IfOk result (λ copy. copy.known.rows ≡ known.now.rows) }
    ensures known_room { IfOk result (λ copy. known.now.room ≤ copy.known.room) }
    ensures held { IfOk result (λ copy. copy.held.rows ≡ held.now.rows) }
    ensures held_room { IfOk result (λ copy. held.now.room ≤ copy.held.room) }
    ensures book { IfOk result (λ copy. copy.book.rows ≡ book.now.rows) }
{
    // The paths, which have two tables, come last, so that no early return lets them go.
    Ok(Noted {
        held: held.copy(alloc)?,
        book: book.copy(alloc)?,
        known: known.copy(alloc)?,
    })
}

/// These maps and jobs once more.
pub(crate) fn copy_mapped(
    alloc: Global,
    master: &Master,
    maps: &[Map],
    jobs: &JobTable,
) -> Result<Mapped, AllocError>
    ensures master { IfOk result (λ copy. copy.master ≡ master.now) }
    ensures maps { IfOk result (λ copy. copy.maps.items ≡ maps.now) }
    ensures jobs { IfOk result (λ copy. copy.jobs.rows ≡ jobs.now.rows) }
{
    Ok(Mapped {
        master: master.copy(alloc)?,
        maps: copies_of(alloc, maps)?,
        jobs: jobs.copy(alloc)?,
    })
}
