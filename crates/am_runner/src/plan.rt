//! How a run is laid out.

ghost use Rattle.std.specs.Prelude.{◌≡◌, ◌-◌, ◌%◌, true, Some, IfSome, length, slice_get};
ghost use Rattle.am_shared.specs.{keeps_events};
ghost use Rattle.am_runner.specs.Parts.{WalksAlong, keep_of, plan_of};

use am_names::AbsPath;
use am_shared::{Keep, Opened};
use std::marker::Brand;

/// How large a run is, and where its walkers walk.
#[derive(Clone, Copy)]
pub struct Run<'a> {
    /// A point of the master map: the autofs of the run.
    pub point: &'a [u8],
    /// Where the walkers walk. They take the paths in turn.
    pub paths: &'a [&'a [u8]],
    pub walkers: u32,
    /// How many rounds each walker makes, and who asks for expiries.
    pub rounds: u32,
    /// How often the daemon dies.
    pub breaks: u32,
    /// How many notes the pipe has room for.
    pub capacity: usize,
    /// Whether all that is observed is kept, for who judges the world in the end.
    pub watched: bool,
}

/// A shared world whose run is laid out so. Proofs alone speak of it: what comes back from a thread says by its type
/// what the thread made, and so by this.
pub trait Planned: Opened {
    ghost use Rattle.am_runner.specs.Parts.{Plan};

    ghost plan: { Plan };
}

impl Planned for Brand {
    ghost use Rattle.std.specs.Prelude.{[], false};

    ghost plan = { record { point = []; paths = []; walkers = 0; rounds = 0; breaks = 0; capacity = 0; watched = false } };
}

/// What the world of a run keeps: its workers read the history.
pub fn keep_of(watched: bool) -> Keep
    ensures keep { result ≡ keep_of watched }
    ensures events { keeps_events result ≡ true }
{
    if watched { Keep::All } else { Keep::Events }
}

/// The text of a walker's path. Walker 1 has the first.
fn text_of<'a>(run: Run<'a>, number: u32) -> Option<&'a [u8]>
    ensures { IfSome result (λ text. slice_get (plan_of run.entry).paths
        ((number - 1) % length (plan_of run.entry).paths) ≡ Some text.now) }
{
    let index = (number.checked_sub(1)? as usize).checked_rem(run.paths.len())?;
    let text = run.paths.get(index)?;
    Some(*text)
}

/// The path of a walker.
pub fn path_of<'a>(run: Run<'a>, number: u32) -> Option<AbsPath<'a>>
    ensures { IfSome result (λ path. WalksAlong (plan_of run.entry) number path) }
{
    AbsPath::read(text_of(run, number)?).ok()
}
