//! What is searched without a prefix.

ghost use Rattle.am_findings.specs.Whole.{IsWholeWithout};

/// Without a prefix, what was found of a question was found of all orders of its scene.
pub fn no_prefix_is_whole()
    ensures { IsWholeWithout }
{}
