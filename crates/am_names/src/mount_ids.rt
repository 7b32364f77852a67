//! Lists of mount numbers.

ghost use Rattle.std.specs.Prelude.{◌≡◌, ◌↔◌, IsTrue, IfOk};

use crate::number::MountId;
use std::alloc::{AllocError, Global};
use std::marker::Model;

/// Mount numbers, in the order in which an answer or an observation tells them.
#[derive(Debug, Drop)]
pub struct MountIds {
    numbers: Vec<MountId>,
}

impl Model for MountIds {
    ghost use Rattle.std.specs.Prelude.{ℕ, List};

    ghost Value = { List ℕ };

    ghost view = { λ m. m.numbers.items };
}

impl MountIds {
    /// These numbers, in their order.
    pub fn of(numbers: Vec<MountId>) -> MountIds
        ensures { result ≡ numbers.items }
    {
        MountIds { numbers }
    }

    /// The numbers, in their order.
    pub fn as_slice(&self) -> &[MountId]
        ensures { result.now ≡ self.now }
    {
        self.numbers.as_slice()
    }

    /// The same list once more.
    pub fn copy(&self, alloc: Global) -> Result<MountIds, AllocError>
        ensures { IfOk result (λ mounts. mounts ≡ self.now) }
    {
        Ok(MountIds {
            numbers: Vec::from_slice(alloc, self.numbers.as_slice())?,
        })
    }

    /// Whether both are the same numbers in the same order.
    pub fn is_same(&self, other: &MountIds) -> bool
        ensures { IsTrue result ↔ (self.now ≡ other.now) }
    {
        let numbers = self.as_slice();
        numbers == other.as_slice()
    }
}
