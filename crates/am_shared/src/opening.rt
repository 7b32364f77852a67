//! What a shared world begins with.

ghost use Rattle.std.specs.Prelude.{◌≡◌, length, IfNone, IfSome};
ghost use Rattle.am_names.specs.{IsInRange};

use am_map::Map;
use am_master::Master;
use am_names::Limits;

/// The limits of a world, a master map, and the maps of its lines in their order, with what `share`
/// wants of them.
#[derive(Drop)]
pub struct Opening {
    pub limits: Limits,
    pub master: Master,
    pub maps: Vec<Map>,
    pub ghost limits_fit: { IsInRange limits },
    pub ghost maps_fit: { length maps.items ≡ length master },
}

impl Opening {
    /// None where a limit isn't in its range, or there are more maps than lines, or fewer.
    pub fn new(limits: Limits, master: Master, maps: Vec<Map>) -> Option<Opening>
        ensures some { IfSome result (λ opening. (opening.limits ≡ limits)
            × (opening.master ≡ master) × (opening.maps.items ≡ maps.items)) }
        ensures none { IfNone result (IsInRange limits → length maps.items ≡ length master → ⊥) }
    {
        if !limits.is_in_range() || maps.len() != master.entries().len() {
            return None;
        }
        Some(Opening {
            limits,
            master,
            maps,
        })
    }
}
