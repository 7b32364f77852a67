//! Where a fault stands in its text.

ghost use Rattle.am_session.specs.Slips.{HasSlip};

use am_diagnosis::{Slip, slip_in};
use am_script::ScriptFault;
use std::alloc::Global;

/// Where the line of the fault isn't as expected, and what was expected there. None too where there
/// is no memory to join the line.
pub fn slip_of(alloc: Global, text: &[u8], fault: ScriptFault) -> Option<Slip>
    ensures { HasSlip text.now fault result }
{
    match slip_in(alloc, text, fault) {
        Ok(slip) => slip,
        Err(_) => None,
    }
}
