//! The bars of failures that last, and the bars of all lanes.

ghost use Rattle.std.specs.Prelude.{◌≡◌, ◌≤◌, ◌-◌, ◌++◌, codes, None};
ghost use Rattle.am_names.specs.{errno_of};
ghost use Rattle.std.specs.Option.{option_copied};
ghost use Rattle.am_script.specs.{Puts};
ghost use Rattle.am_draw.specs.Errors.{error_word};
ghost use Rattle.am_draw.specs.Endings.{kernel_of};
ghost use Rattle.am_draw.specs.FailingBars.{first_failing, ends_failing, failing_bar, failing_bars_in, failing_bars, named_words, until_words, failing_words, fresh_marks, failures_drawn, right_bars, all_bars};
ghost use Rattle.am_draw.specs.Lasting.{lasts_of, turned};
ghost use Rattle.am_draw.specs.Marks.{label};
ghost use Rattle.am_draw.specs.Parts.{most_rows};

use crate::failing::{Failing, empty_lane, is_failing};
use crate::lasting::Lasting;
use crate::marks::{LaneKind, lane_x, put_closing, put_opening, put_stretch};
use crate::stretch::{
    Until, put_daemon_bars, put_system_bars, put_token_bars, put_walker_bars, reach,
    system_columns, token_columns, walker_columns,
};
use crate::went::error_word;
use crate::words::put_words;
use am_lanes::Ending;
use am_names::{FsId, Name, Seconds, Trigger};
use am_script::answer_line::{put_number, put_word};
use am_script::output::Output;
use am_world::{Failure, World};
use std::io::Write;

/// The middle of the first lane of failures.
pub(crate) fn first_failing(lasting: &Lasting) -> u64
    ensures first { result ≡ first_failing (lasts_of lasting.now) }
    ensures left { 332 ≤ result }
    ensures right { result ≤ 84000348 }
{
    let narrow = token_columns(lasting) + system_columns(lasting);
    348 + 44 * walker_columns(lasting) + 20 * narrow
}

/// Whether the bar of a failure ends: behind the event it lasts no longer, or all end.
fn ends_failing(ending: Option<&World>, negative: Seconds, held: &Failing) -> bool
    ensures { result ≡ ends_failing negative (kernel_of (option_copied ending.entry)) held.now }
{
    match ending {
        None => true,
        Some(world) => !is_failing(world, negative, held),
    }
}

/// Puts out the bar in a lane, if it ends so.
#[tactic(auto, using(am_script::proofs::Pieces::puts_none))]
fn put_failing_bar<W: Write>(
    output: &mut Output,
    ending: Option<&World>,
    negative: Seconds,
    until: &Until,
    lane: &Option<Failing>,
    x: u64,
    writer: &mut W,
)
    requires rows { until.now.number - until.now.skipped ≤ most_rows }
    requires more { until.now.more ≤ 13 }
    ensures { Puts output.old output.new (failing_bar negative (kernel_of (option_copied ending.entry))
        until.now lane.now x) (W.contents writer.old) (W.contents writer.new) }
{
    if let Some(held) = lane {
        if ends_failing(ending, negative, held) {
            put_stretch(output, b"lasting", x, reach(until, 0, held.since), writer);
        }
    }
}

/// Puts out the bars of failures that end so.
#[tactic(auto, using(am_script::proofs::Pieces::puts_none))]
fn put_failing_bars<W: Write>(
    output: &mut Output,
    ending: Option<&World>,
    until: &Until,
    lasting: &Lasting,
    writer: &mut W,
)
    requires rows { until.now.number - until.now.skipped ≤ most_rows }
    requires more { until.now.more ≤ 13 }
    ensures { Puts output.old output.new (failing_bars (kernel_of (option_copied ending.entry)) until.now
        (lasts_of lasting.now)) (W.contents writer.old) (W.contents writer.new) }
{
    let first = first_failing(lasting);
    let negative = lasting.negative;
    let lanes = lasting.failures.as_slice();
    for lane in 0..lanes.len() {
        let x = lane_x(LaneKind::Narrow, first, lane);
        put_failing_bar(output, ending, negative, until, &lanes[lane], x, writer);
    }
}

fn put_fs<W: Write>(output: &mut Output, fs: FsId, writer: &mut W)
    ensures { Puts output.old output.new (named_words fs None) (W.contents writer.old)
        (W.contents writer.new) }
{
    put_number(output, b"file system ", u64::from(fs.0), writer);
}

/// Puts out the name of a trigger, or the number of a direct one's file system.
pub(crate) fn put_named<W: Write>(output: &mut Output, trigger: &Trigger, writer: &mut W)
    ensures { Puts output.old output.new (named_words trigger.now.fs trigger.now.name)
        (W.contents writer.old) (W.contents writer.new) }
{
    let name: &Option<Name> = &trigger.name;
    match name {
        None => put_fs(output, trigger.fs, writer),
        Some(name) => put_words(output, 6, name.as_bytes(), writer),
    }
}

#[tactic(auto, using(am_script::proofs::Pieces::puts_none))]
fn put_until<W: Write>(output: &mut Output, negative: Seconds, failure: &Failure, writer: &mut W)
    ensures { Puts output.old output.new (until_words negative failure.now) (W.contents writer.old)
        (W.contents writer.new) }
{
    if let Some(end) = failure.at.0.checked_add(negative.0) {
        put_number(output, b" until ", end, writer);
    }
}

#[tactic(auto, using(am_script::proofs::Pieces::puts_two))]
fn put_error<W: Write>(output: &mut Output, failure: &Failure, writer: &mut W)
    ensures { Puts output.old output.new (codes " " ++ error_word (errno_of failure.now.no))
        (W.contents writer.old) (W.contents writer.new) }
{
    put_word(output, b" ", writer);
    put_word(output, error_word(failure.no.errno()), writer);
}

#[tactic(auto, using(am_script::proofs::Pieces::puts_three))]
fn put_failing_words<W: Write>(
    output: &mut Output,
    negative: Seconds,
    held: &Failing,
    writer: &mut W,
)
    ensures { Puts output.old output.new (failing_words negative held.now) (W.contents writer.old)
        (W.contents writer.new) }
{
    put_named(output, &held.trigger, writer);
    put_error(output, &held.failure, writer);
    put_until(output, negative, &held.failure, writer);
}

#[tactic(auto, using(am_script::proofs::Pieces::puts_three))]
fn put_failing_label<W: Write>(
    output: &mut Output,
    x: u64,
    negative: Seconds,
    held: &Failing,
    writer: &mut W,
)
    ensures { Puts output.old output.new (label (codes "s failed") x 26
        (failing_words negative held.now)) (W.contents writer.old) (W.contents writer.new) }
{
    put_opening(output, b"s failed", x, 26, writer);
    put_failing_words(output, negative, held, writer);
    put_closing(output, writer);
}

/// Puts out the words of a failure that begins to last, beside the lane that it takes.
#[tactic(auto, using(am_script::proofs::Pieces::puts_none))]
fn put_fresh<W: Write>(
    output: &mut Output,
    lasting: &Lasting,
    fresh: &Option<Failing>,
    writer: &mut W,
)
    ensures { Puts output.old output.new (fresh_marks (lasts_of lasting.now) fresh.now)
        (W.contents writer.old) (W.contents writer.new) }
{
    if let Some(held) = fresh {
        let lane = empty_lane(lasting.failures.as_slice());
        let x = lane_x(LaneKind::Narrow, first_failing(lasting), lane) + 8;
        put_failing_label(output, x, lasting.negative, held, writer);
    }
}

/// Puts out what is drawn of failures behind an event that leaves this world, and takes it in.
#[tactic(auto, using(am_script::proofs::Pieces::puts_two))]
pub(crate) fn put_failures<W: Write>(
    output: &mut Output,
    until: &Until,
    lasting: &mut Lasting,
    world: &World,
    writer: &mut W,
)
    requires rows { until.now.number - until.now.skipped ≤ most_rows }
    requires more { until.now.more ≤ 13 }
    ensures drawn { Puts output.old output.new (failures_drawn world.now.kernel until.now
        (lasts_of lasting.old)) (W.contents writer.old) (W.contents writer.new) }
    ensures lasts { lasts_of lasting.new
        ≡ turned until.now.number world.now.kernel (lasts_of lasting.old) }
{
    put_failing_bars(output, Some(world), until, lasting, writer);
    lasting.end_failures(world);
    let fresh = lasting.fresh(until.number, world);
    put_fresh(output, lasting, &fresh, writer);
    lasting.begin(&fresh);
}

/// Puts out the bars at the right of walkers and tokens.
#[tactic(auto, using(am_script::proofs::Pieces::puts_three))]
fn put_right_bars<W: Write>(output: &mut Output, until: &Until, lasting: &Lasting, writer: &mut W)
    requires rows { until.now.number - until.now.skipped ≤ most_rows }
    requires more { until.now.more ≤ 13 }
    ensures { Puts output.old output.new (right_bars until.now (lasts_of lasting.now))
        (W.contents writer.old) (W.contents writer.new) }
{
    put_system_bars(output, &Ending::All, until, lasting, writer);
    put_failing_bars(output, None, until, lasting, writer);
    put_daemon_bars(output, until, lasting, writer);
}

/// Puts out all bars.
#[tactic(auto, using(am_script::proofs::Pieces::puts_three))]
pub(crate) fn put_all_bars<W: Write>(
    output: &mut Output,
    until: &Until,
    lasting: &Lasting,
    writer: &mut W,
)
    requires rows { until.now.number - until.now.skipped ≤ most_rows }
    requires more { until.now.more ≤ 13 }
    ensures { Puts output.old output.new (all_bars until.now (lasts_of lasting.now))
        (W.contents writer.old) (W.contents writer.new) }
{
    put_token_bars(output, &Ending::All, until, lasting, writer);
    put_walker_bars(output, &Ending::All, until, lasting, writer);
    put_right_bars(output, until, lasting, writer);
}
