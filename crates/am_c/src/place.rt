//! Where a fault stands in its text.

ghost use Rattle.std.specs.Prelude.{◌≡◌};
ghost use Rattle.am_c.specs.Places.{IsPlaceOf, column_of, expected_of};

use am_diagnosis::Slip;
use am_script::ScriptFault;
use am_session::slip_of;
use std::alloc::Global;

/// Where a text isn't as expected.
#[repr(C)]
#[derive(Clone, Copy)]
pub struct AmPlace {
    /// The line of the fault, from 1; 0 where it has none.
    pub line: u64,
    /// The byte of that line at which it isn't as expected, from 1; else 0.
    pub column: u64,
    /// The number of what was expected at that byte; else 0.
    pub expected: u32,
    pub pad: u32,
}

/// Where the fault stands in its text.
pub(crate) fn place_of(alloc: Global, text: &[u8], fault: ScriptFault) -> AmPlace
    ensures { IsPlaceOf text.now fault result }
{
    let slip = slip_of(alloc, text, fault);
    AmPlace {
        line: fault.line,
        column: column_of(slip),
        expected: expected_of(slip),
        pad: 0,
    }
}

pub(crate) fn column_of(slip: Option<Slip>) -> u64
    ensures { result ≡ column_of slip }
{
    match slip {
        Some(slip) => slip.column as u64,
        None => 0,
    }
}

pub(crate) fn expected_of(slip: Option<Slip>) -> u32
    ensures { result ≡ expected_of slip }
{
    match slip {
        Some(slip) => u32::from(slip.expected.number()),
        None => 0,
    }
}
