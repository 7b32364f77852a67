//! The history that the callers of a shared world will share.

use crate::chronicle::{History, Pass, open};
use std::alloc::{AllocError, Global};
use std::marker::Model;

/// A history in which nothing is yet, for one `share`. A contract sees which it is.
#[derive(Drop)]
pub struct Logbook {
    pub(crate) history: History,
    pub(crate) keeping: Pass,
}

impl Model for Logbook {
    ghost use Rattle.std.specs.Prelude.{◌≡◌, []};
    ghost use Rattle.atomic_table.specs.Seated.{TableId};
    ghost use Rattle.am_shared.specs.Chronicle.{keeper};
    ghost use Rattle.am_shared.specs.Passes.{KeepsHistory, view_of};

    ghost Value = { TableId };

    ghost view = { λ l. l.history.shared.table_id };

    ghost invariant = { λ l. KeepsHistory l.history.shared.table_id l.keeping
        × (view_of l.keeping ≡ keeper 0 []) };
}

impl Logbook {
    pub fn new(alloc: Global) -> Result<Logbook, AllocError> {
        let (history, keeping) = open(alloc)?;
        Ok(Logbook { history, keeping })
    }
}
