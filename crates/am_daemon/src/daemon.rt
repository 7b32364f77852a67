//! The daemon as a value.

ghost use Rattle.std.specs.Prelude.{◌≡◌, ◌↔◌, IsTrue, IfOk};
ghost use Rattle.am_job.specs.{record_of};
ghost use Rattle.am_daemon.specs.Same.{HaveSameMaps, HaveSameNotes};
ghost use Rattle.am_daemon.specs.State.{IsCopy, initial, rows_of};

use crate::copies::{Mapped, Noted, copy_mapped, copy_noted};
use crate::held::HeldTable;
use crate::job_table::JobTable;
use crate::known::KnownTable;
use am_job::{Book, Job};
use am_map::Map;
use am_master::Master;
use am_names::Trigger;
use am_state::Record;
use std::alloc::{AllocError, Global};
use std::marker::Model;

/// The automount daemon: its maps, the file systems that it is attached to, what is mounted on
/// each trigger, and its jobs.
pub struct Daemon {
    pub(crate) master: Master,
    /// The maps of the master's lines, in their order.
    pub(crate) maps: Vec<Map>,
    pub(crate) known: KnownTable,
    pub(crate) held: HeldTable,
    pub(crate) book: Book,
    pub(crate) jobs: JobTable,
}

// Written by hand, it is proved here once: a derived one is proved field by field in each function
// of the crates above that lets the daemon go at an early return.
impl Drop for Daemon {
    fn drop(self) {
        let Daemon {
            master,
            maps,
            known,
            held,
            book,
            jobs,
        } = self;
        drop(master);
        drop(maps);
        drop(known);
        drop(held);
        drop(book);
        drop(jobs);
    }
}

impl Model for Daemon {
    ghost use Rattle.am_daemon.specs.State.{DaemonTable};

    ghost Value = { DaemonTable };

    ghost use Rattle.am_daemon.specs.View.{table_of};

    ghost view = { table_of };
}

/// Whether these are the same maps in the same order.
fn are_same_maps(maps: &[Map], others: &[Map]) -> bool
    ensures { IsTrue result ↔ (maps.now ≡ others.now) }
{
    maps.len() == others.len()
        && maps
            .iter()
            .zip(others)
            .all(|(map, other)| map.is_same(other))
}

impl Daemon {
    /// A daemon of a master map and the maps of its lines, in their order. Nothing is attached.
    pub fn new(alloc: Global, master: Master, maps: Vec<Map>) -> Daemon
        ensures { rows_of result ≡ initial master maps.items }
    {
        Daemon {
            master,
            maps,
            known: KnownTable::new(alloc),
            held: HeldTable::new(alloc),
            book: Book::new(alloc),
            jobs: JobTable::new(alloc),
        }
    }

    /// The same daemon once more, with no less room.
    pub fn copy(&self, alloc: Global) -> Result<Daemon, AllocError>
        ensures { IfOk result (IsCopy self.now) }
    {
        let noted = copy_noted(alloc, &self.known, &self.held, &self.book)?;
        let mapped = copy_mapped(alloc, &self.master, self.maps.as_slice(), &self.jobs)?;
        let Noted { known, held, book } = noted;
        let Mapped { master, maps, jobs } = mapped;
        Ok(Daemon {
            master,
            maps,
            known,
            held,
            book,
            jobs,
        })
    }

    /// Whether the paths, attachments and records are the same.
    fn is_same_noted(&self, other: &Daemon) -> bool
        ensures { IsTrue result ↔ HaveSameNotes self.now other.now }
    {
        self.known.is_same(&other.known)
            && self.held.is_same(&other.held)
            && self.book.is_same(&other.book)
    }

    /// Whether the maps and the jobs are the same.
    fn is_same_mapped(&self, other: &Daemon) -> bool
        ensures { IsTrue result ↔ HaveSameMaps self.now other.now }
    {
        self.jobs.is_same(&other.jobs)
            && self.master.is_same(&other.master)
            && are_same_maps(self.maps.as_slice(), other.maps.as_slice())
    }

    /// Whether both are the same daemon, but for their room.
    #[tactic(auto, using(crate::proofs::SameLemmas::same_daemons, crate::proofs::SameLemmas::same_notes, crate::proofs::SameLemmas::same_maps))]
    pub fn is_same(&self, other: &Daemon) -> bool
        ensures { IsTrue result ↔ (rows_of self.now ≡ rows_of other.now) }
    {
        self.is_same_noted(other) && self.is_same_mapped(other)
    }

    /// What is mounted on each trigger, in order of making.
    pub fn book(&self) -> &Book
        ensures { result.now.rows ≡ self.now.book }
    {
        &self.book
    }

    /// The jobs that have not ended, in order of delivery.
    pub fn jobs(&self) -> &[Job]
        ensures { result.now ≡ self.now.jobs }
    {
        self.jobs.as_slice()
    }

    /// What the book says of a trigger.
    pub fn record(&self, trigger: &Trigger) -> Option<Record>
        ensures { result ≡ record_of self.now.book trigger.now }
    {
        self.book.record(trigger)
    }
}
