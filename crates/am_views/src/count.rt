//! Events are counted.

ghost use Rattle.std.specs.Prelude.{◌≡◌, ◌+◌, ◌<◌, ◌≤◌, ◌^◌};
ghost use Rattle.am_views.specs.Whole.{one_more};

use am_script::Summary;

/// Counts one more event.
pub fn one_more(summary: Summary, refused: bool) -> Summary
    requires lines { summary.lines + 1 < 2 ^ 64 }
    requires refused { summary.refused ≤ summary.lines }
    ensures { result ≡ one_more summary refused }
{
    Summary {
        lines: summary.lines + 1,
        refused: summary.refused + if refused { 1 } else { 0 },
    }
}
