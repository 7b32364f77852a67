//! What is true of each line, and of each printed trace.

ghost use Rattle.std.specs.Prelude.{◌≡◌, ℕ, List, Ok};
ghost use Rattle.am_state.specs.{Obs};
ghost use Rattle.am_traces.specs.Observations.{line_read};
ghost use Rattle.am_script.specs.{Shown, lines_of};
ghost use Rattle.am_views.specs.{TraceStyle, printed_trace};
ghost use Rattle.am_traces.specs.Printed.{AllOnLines, seen_in};
ghost use Rattle.am_traces.specs.Says.{Says, IsTraceOf};

/// A line is read as an observation where it says it, and only there.
pub fn line_is_read_as_it_says()
    ensures read { (line : List ℕ) (obs : Obs) → line_read line ≡ Ok obs → Says line obs }
    ensures back { (line : List ℕ) (obs : Obs) → Says line obs → line_read line ≡ Ok obs }
{}

/// What is printed of events, in each style, is read back as what is seen of them, where no name has
/// a line feed.
pub fn printed_trace_is_read_back()
    ensures { (style : TraceStyle) (rows : List Shown) → AllOnLines rows →
        IsTraceOf (lines_of (printed_trace style rows)) (seen_in rows) }
{}
