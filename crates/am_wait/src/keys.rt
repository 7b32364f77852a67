//! The keys of those that wait on one token.

ghost use Rattle.std.specs.Prelude.{◌≡◌, ◌∷◌, ◌++◌, [], IfOk, OnOk, OnErr};

use std::alloc::{AllocError, Global};
use std::marker::Model;

/// Keys in the order in which their walkers joined.
#[derive(Debug, Drop)]
pub struct Keys {
    keys: Vec<usize>,
}

impl Model for Keys {
    ghost use Rattle.std.specs.Prelude.{ℕ, List};

    ghost Value = { List ℕ };

    ghost view = { λ k. k.keys.items };
}

impl Keys {
    /// This key alone.
    pub fn one(alloc: Global, key: usize) -> Result<Keys, AllocError>
        ensures { IfOk result (λ keys. keys ≡ key ∷ []) }
    {
        Ok(Keys {
            keys: Vec::from_slice(alloc, &[key])?,
        })
    }

    /// The same keys once more.
    pub fn copy(&self, alloc: Global) -> Result<Keys, AllocError>
        ensures { IfOk result (λ keys. keys ≡ self.now) }
    {
        Ok(Keys {
            keys: Vec::from_slice(alloc, self.keys.as_slice())?,
        })
    }

    /// One more key, the last.
    pub fn join(&mut self, key: usize) -> Result<(), AllocError>
        ensures ok { OnOk result (self.new ≡ self.old ++ key ∷ []) }
        ensures err { OnErr result (self.new ≡ self.old) }
    {
        self.keys.push(key)?;
        Ok(())
    }

    /// The keys, in the order in which their walkers joined.
    pub fn as_slice(&self) -> &[usize]
        ensures { result.now ≡ self.now }
    {
        self.keys.as_slice()
    }
}
