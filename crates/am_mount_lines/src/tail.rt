//! The words behind the first six of a line.

ghost use Rattle.std.specs.Prelude.{◌≡◌, None, Some, map, position, IfOk, IfErr, OnOk};
ghost use Rattle.am_mount_lines.specs.Lines.{is_dash, tail_misfit, IsTail};

use crate::fields::{field_read, is_unbindable};
use crate::misfit::{Expected, Misfit};
use crate::trap::{Trap, trap_of};
use crate::words::{dash_place, last_word, word_at};

/// What the optional fields tell, and what stands behind them.
#[derive(Clone, Copy)]
pub(crate) struct Tail {
    pub group: Option<u64>,
    pub master: Option<u64>,
    pub is_unbindable: bool,
    pub trap: Option<Trap>,
}

/// Reads the words behind the first six.
pub(crate) fn read_tail(rest: &[&[u8]]) -> Result<Tail, Misfit>
    ensures ok { IfOk result (IsTail (map (λ word. word.now) rest.now)) }
    ensures whole { OnOk result (tail_misfit (map (λ word. word.now) rest.now)
        (position is_dash (map (λ word. word.now) rest.now)) ≡ None) }
    ensures err { IfErr result (λ misfit. tail_misfit (map (λ word. word.now) rest.now)
        (position is_dash (map (λ word. word.now) rest.now)) ≡ Some misfit) }
{
    let Some(at) = dash_place(rest) else {
        return Err(Misfit {
            place: 6 + rest.len(),
            expected: Expected::Dash,
        });
    };
    if rest.len() == at + 1 {
        return Err(Misfit {
            place: 7 + at,
            expected: Expected::Kind,
        });
    }
    let fields = &rest[..at];
    let behind = &rest[at + 1..];
    Ok(Tail {
        group: field_read(fields, b"shared:")?,
        master: field_read(fields, b"master:")?,
        is_unbindable: is_unbindable(fields),
        trap: trap_of(word_at(behind, 0), last_word(behind)),
    })
}
