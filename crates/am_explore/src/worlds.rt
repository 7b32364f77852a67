//! The worlds at ends.

ghost use Rattle.std.specs.Prelude.{◌≡◌, [], OnOk, IfOk};

use crate::level::mark_of_world;
use am_world::World;
use std::alloc::{AllocError, Global};

/// How many lists worlds are found in.
const BUCKETS: usize = 4_096;

/// Worlds, each once: of those with equal halves the first. Beside them stands what finds them: no clause speaks of it,
/// since what is found is compared.
#[derive(Drop)]
pub struct Worlds {
    all: Vec<World>,
    /// For each the one of the same bucket that came before it, by its index and one; 0 for none.
    before: Vec<usize>,
    heads: Vec<usize>,
}

/// Which list a world is found in.
fn bucket_of(world: &World) -> usize {
    (mark_of_world(world) % BUCKETS as u64) as usize
}

/// What a list has at this index; 0 where it has nothing.
fn at(list: &[usize], index: usize) -> usize {
    match list.get(index) {
        Some(number) => *number,
        None => 0,
    }
}

impl Worlds {
    /// No world.
    pub fn new(alloc: Global) -> Result<Worlds, AllocError> {
        Ok(Worlds {
            all: Vec::new(alloc),
            before: Vec::new(alloc),
            heads: vec![in alloc; 0; BUCKETS]?,
        })
    }

    /// How many there are.
    pub fn count(&self) -> u64 {
        self.all.len() as u64
    }

    /// Whether one of them has the same halves.
    fn has(&self, world: &World) -> bool {
        let mut next = at(self.heads.as_slice(), bucket_of(world));
        while next > 0 {
            let index = next - 1;
            let Some(other) = self.all.get(index) else {
                return false;
            };
            if other.is_same(world) {
                return true;
            }
            next = at(self.before.as_slice(), index).min(index);
        }
        false
    }

    /// Adds a copy of this world, if none of them has the same halves.
    pub fn add(&mut self, alloc: Global, world: &World) -> Result<(), AllocError> {
        if self.has(world) {
            return Ok(());
        }
        let bucket = bucket_of(world);
        self.before.push(at(self.heads.as_slice(), bucket))?;
        self.all.push(world.copy(alloc)?)?;
        if bucket < self.heads.len() {
            self.heads[bucket] = self.all.len();
        }
        Ok(())
    }
}
