//! Where the line of an event isn't as expected.

ghost use Rattle.std.specs.Prelude.{◌≡◌};
ghost use Rattle.am_lines.specs.{words_of};
ghost use Rattle.am_diagnosis.specs.Columns.{IsSlipOf};
ghost use Rattle.am_diagnosis.specs.Events.{event_misfit};

use crate::columns::column;
use crate::expected::{Expected, Slip};
use crate::misfit::{Misfit, misfit_at, misfit_of};
use crate::parameters::parameters;
use am_lines::next_word;

/// The slip of an event line, at its first word with which no event's line begins; none where it
/// is an event.
pub fn event_slip(line: &[u8]) -> Option<Slip>
    ensures { IsSlipOf line.now (event_misfit (words_of line.now)) result }
{
    slip_of(line, event_misfit(line))
}

fn event_misfit(line: &[u8]) -> Option<Misfit>
    ensures { result ≡ event_misfit (words_of line.now) }
{
    let Some((word, words)) = next_word(line) else {
        return Some(misfit_at(0, Expected::Event));
    };
    match parameters(word) {
        Some(parameters) => misfit_of(parameters, words),
        None => Some(misfit_at(0, Expected::Event)),
    }
}

/// The slip of a line with this misfit, if it has one.
pub(crate) fn slip_of(line: &[u8], misfit: Option<Misfit>) -> Option<Slip>
    ensures { IsSlipOf line.now misfit result }
{
    let misfit = misfit?;
    Some(Slip {
        column: column(line, misfit.place),
        expected: misfit.expected,
    })
}
