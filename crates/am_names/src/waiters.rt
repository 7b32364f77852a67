//! The walkers that wait on one token.

ghost use Rattle.std.specs.Prelude.{◌≡◌, ◌∷◌, ◌++◌, [], IfOk, OnOk, OnErr};

use crate::number::WalkerId;
use std::alloc::{AllocError, Global};
use std::marker::Model;

/// Walkers in the order in which they joined.
#[derive(Debug, Drop)]
pub struct Waiters {
    walkers: Vec<WalkerId>,
}

impl Model for Waiters {
    ghost use Rattle.std.specs.Prelude.{ℕ, List};

    ghost Value = { List ℕ };

    ghost view = { λ w. w.walkers.items };
}

impl Waiters {
    /// This walker alone.
    pub fn one(alloc: Global, walker: WalkerId) -> Result<Waiters, AllocError>
        ensures { IfOk result (λ waiters. waiters ≡ walker ∷ []) }
    {
        Ok(Waiters {
            walkers: Vec::from_slice(alloc, &[walker])?,
        })
    }

    /// One more walker, the last.
    pub fn join(&mut self, walker: WalkerId) -> Result<(), AllocError>
        ensures ok { OnOk result (self.new ≡ self.old ++ walker ∷ []) }
        ensures err { OnErr result (self.new ≡ self.old) }
    {
        self.walkers.push(walker)?;
        Ok(())
    }

    /// The walkers, in the order in which they joined.
    pub fn as_slice(&self) -> &[WalkerId]
        ensures { result.now ≡ self.now }
    {
        self.walkers.as_slice()
    }
}
