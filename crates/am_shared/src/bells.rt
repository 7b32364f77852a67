//! What wakes walkers that wait for their release.

ghost use Rattle.std.specs.Prelude.{◌≡◌, ◌<◌, ℕ, false, get_or, vec_len};
ghost use Rattle.std.specs.List.{list_any};
ghost use Rattle.am_shared.specs.Bells.{is_rung_by};

use am_names::WalkerId;
use am_state::Obs;
use std::alloc::{AllocError, Global};
use std::sync::Condvar;

/// How many bells there are. Walkers whose numbers are alike modulo this have one together.
const BELLS: usize = 64;

/// Which bells are to be rung.
pub type Rung = [bool; 64];

/// The bells of all walkers.
#[derive(Drop)]
pub struct Bells {
    bells: Vec<Condvar>,
    ghost all: { vec_len bells ≡ 64 },
}

impl Bells {
    pub fn new(alloc: Global) -> Result<Bells, AllocError> {
        let mut bells = Vec::with_capacity(alloc, BELLS)?;
        for _made in 0..BELLS {
            bells.push_reserved(Condvar::new());
        }
        Ok(Bells { bells })
    }

    /// The bell of a walker.
    pub fn bell(&self, walker: WalkerId) -> &Condvar {
        &self.bells[walker.0 as usize % BELLS]
    }

    /// Wakes those who wait at these bells.
    pub fn ring(&self, rung: &Rung) {
        for (bell, is_rung) in self.bells.iter().zip(rung) {
            if *is_rung {
                bell.notify_all();
            }
        }
    }
}

/// The bells that what was seen rings: each those of the walkers that were released.
pub fn rung_by(seen: &[Obs]) -> Rung
    ensures { (bell : ℕ) → bell < 64 → get_or result bell false ≡ list_any (is_rung_by bell) seen.now }
{
    let mut rung = [false; BELLS];
    for obs in seen {
        if let Obs::Released { walker, .. } = obs {
            rung[walker.0 as usize % BELLS] = true;
        }
    }
    rung
}
