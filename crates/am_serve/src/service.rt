//! A session, and what was saved of it.

ghost use Rattle.std.specs.Prelude.{◌≡◌};
ghost use Rattle.am_serve.specs.Keeping.{unserved};

use crate::stands::Serving;
use am_world::World;
use std::alloc::Global;

/// A world, and how many lines were taken when it was saved.
#[derive(Drop)]
pub struct Saved {
    pub world: World,
    pub lines: u64,
}

/// A session, and what was saved of it last.
#[derive(Drop)]
pub struct Service {
    pub serving: Serving,
    pub saved: Option<Saved>,
}

impl Service {
    /// No line is taken yet, and nothing is saved.
    pub fn new(alloc: Global) -> Service
        ensures { result ≡ unserved }
    {
        Service {
            serving: Serving::new(alloc),
            saved: None,
        }
    }
}
