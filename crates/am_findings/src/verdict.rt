//! How the questions of a scene come out.

ghost use Rattle.std.specs.Prelude.{◌≡◌};
ghost use Rattle.am_findings.specs.Verdicts.{joined, verdict_on};

use am_explore::Found;
use am_scenes::Claim;

/// How the questions of a scene come out.
#[derive(Clone, Copy, Debug, PartialEq, Eq)]
pub enum Verdict {
    /// All are as asked.
    AsAsked,
    /// One is otherwise.
    NotAsAsked,
    /// None is otherwise, but of one not all orders were seen.
    NotAllSeen,
}

impl Verdict {
    /// The verdict on two questions.
    pub(crate) fn joined(self, other: Verdict) -> Verdict
        ensures { result ≡ joined self other }
    {
        match self {
            Verdict::AsAsked => other,
            Verdict::NotAsAsked => Verdict::NotAsAsked,
            Verdict::NotAllSeen => match other {
                Verdict::NotAsAsked => Verdict::NotAsAsked,
                _ => Verdict::NotAllSeen,
            },
        }
    }
}

/// The verdict where an order is to be found.
fn sometimes(found: &Found) -> Verdict
    ensures { result ≡ verdict_on Claim.Sometimes found.now }
{
    match found {
        Found::Order { .. } => Verdict::AsAsked,
        Found::Never => Verdict::NotAsAsked,
        Found::Cut { .. } => Verdict::NotAllSeen,
    }
}

/// The verdict where no order is to be found.
fn never(found: &Found) -> Verdict
    ensures { result ≡ verdict_on Claim.Never found.now }
{
    match found {
        Found::Order { .. } => Verdict::NotAsAsked,
        Found::Never => Verdict::AsAsked,
        Found::Cut { .. } => Verdict::NotAllSeen,
    }
}

/// The verdict on a question, by what was found.
pub(crate) fn verdict_on(claim: Claim, found: &Found) -> Verdict
    ensures { result ≡ verdict_on claim found.now }
{
    match claim {
        Claim::Sometimes => sometimes(found),
        Claim::Never => never(found),
    }
}
