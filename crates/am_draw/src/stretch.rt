//! The bars of a row: each is drawn where it ends.

ghost use Rattle.std.specs.Prelude.{◌≡◌, ◌<◌, ◌≤◌, ◌+◌, ◌-◌, ◌++◌, length};
ghost use Rattle.am_script.specs.{Puts};
ghost use Rattle.am_draw.specs.Lasting.{lasts_of};
ghost use Rattle.am_draw.specs.Parts.{most_rows};
ghost use Rattle.am_draw.specs.Stretches.{walker_columns, token_columns, system_columns, failing_columns, narrow_columns, moved, reach, bar, lane_bar, lane_bars, token_bars, walker_bars, system_bars, daemon_bars, living_bars, ended_bars};
ghost use Rattle.am_draw.specs.Marks.{first_token, first_system};

use crate::lasting::Lasting;
use crate::marks::{LaneKind, daemon_x, lane_x, put_stretch, shift};
use crate::part::{titles_before, wide};
use am_lanes::{Ending, Holder, Lanes, Look, ends};
use am_script::output::Output;
use am_world::{Event, Obs};
use std::io::Write;

/// Where bars end.
#[derive(Clone, Copy)]
pub struct Until {
    /// So many events aren't drawn before the first row.
    pub skipped: u64,
    /// The number of the event in whose row they end.
    pub number: u64,
    /// So many pixels below the middle of that row.
    pub more: u64,
}

/// How many lanes of walkers have room.
pub(crate) fn walker_columns(lasting: &Lasting) -> u64
    ensures columns { result ≡ walker_columns (lasts_of lasting.now) }
    ensures least { 7 ≤ result }
    ensures most { result ≤ 1000000 }
{
    wide(7, lasting.walkers.len() as u64)
}

/// How many lanes of tokens have room.
pub(crate) fn token_columns(lasting: &Lasting) -> u64
    ensures columns { result ≡ token_columns (lasts_of lasting.now) }
    ensures least { 8 ≤ result }
    ensures most { result ≤ 1000000 }
{
    wide(8, lasting.tokens.len() as u64)
}

/// How many lanes of file systems have room.
pub(crate) fn system_columns(lasting: &Lasting) -> u64
    ensures columns { result ≡ system_columns (lasts_of lasting.now) }
    ensures most { result ≤ 1000000 }
{
    wide(0, lasting.systems.len() as u64)
}

/// How many lanes of failures have room.
fn failing_columns(lasting: &Lasting) -> u64
    ensures columns { result ≡ failing_columns (lasts_of lasting.now) }
    ensures most { result ≤ 1000000 }
{
    wide(0, lasting.failures.len() as u64)
}

/// How many narrow lanes there are: those of tokens, of file systems and of failures.
fn narrow_columns(lasting: &Lasting) -> u64
    ensures columns { result ≡ narrow_columns (lasts_of lasting.now) }
    ensures most { result ≤ 3000000 }
{
    token_columns(lasting) + system_columns(lasting) + failing_columns(lasting)
}

/// How far the columns of the daemon and of mounts are moved.
pub(crate) fn moved(lasting: &Lasting) -> u64
    ensures moved { result ≡ moved (lasts_of lasting.now) }
    ensures most { result ≤ 103999532 }
{
    shift(walker_columns(lasting), narrow_columns(lasting))
}

/// The middle of the lane of the first token.
pub(crate) fn first_token(lasting: &Lasting) -> u64
    ensures first { result ≡ first_token (walker_columns (lasts_of lasting.now)) }
    ensures left { 332 ≤ result }
    ensures right { result ≤ 44000338 }
{
    338 + 44 * walker_columns(lasting)
}

/// The middle of the lane of the first file system.
pub(crate) fn first_system(lasting: &Lasting) -> u64
    ensures first { result ≡ first_system (walker_columns (lasts_of lasting.now))
        (token_columns (lasts_of lasting.now)) }
    ensures left { 332 ≤ result }
    ensures right { result ≤ 64000348 }
{
    348 + 44 * walker_columns(lasting) + 20 * token_columns(lasting)
}

/// How far up a bar reaches, in pixels.
pub(crate) fn reach(until: &Until, mark: u64, since: u64) -> u64
    requires rows { until.now.number - until.now.skipped ≤ most_rows }
    requires more { until.now.more ≤ 13 }
    ensures { result ≡ reach until.now mark since }
{
    let titles = titles_before(until.skipped, until.number);
    if since <= until.skipped {
        let rows = until.number.saturating_sub(until.skipped).saturating_sub(1);
        return 13 + 26 * (rows + titles) + until.more;
    }
    let rows = until.number.saturating_sub(since);
    let between = titles.saturating_sub(titles_before(until.skipped, since));
    (26 * (rows + between) + until.more).saturating_sub(mark)
}

/// Puts out the bar of one who looks so since then.
#[tactic(auto, using(am_script::proofs::Pieces::puts_none))]
fn put_bar<W: Write>(
    output: &mut Output,
    look: Look,
    until: &Until,
    since: u64,
    x: u64,
    writer: &mut W,
)
    requires rows { until.now.number - until.now.skipped ≤ most_rows }
    requires more { until.now.more ≤ 13 }
    ensures { Puts output.old output.new (bar look until.now since x) (W.contents writer.old)
        (W.contents writer.new) }
{
    match look {
        Look::Missing { .. } => {
            put_stretch(output, b"missing", x, reach(until, 0, since), writer)
        }
        Look::Expire { .. } => put_stretch(output, b"expire", x, reach(until, 0, since), writer),
        Look::Ended => (),
        Look::Waits => put_stretch(output, b"waits", x, reach(until, 6, since), writer),
        Look::Inside => put_stretch(output, b"inside", x, reach(until, 6, since), writer),
        Look::Idle => (),
        Look::Catatonic => put_stretch(output, b"mode", x, reach(until, 10, since), writer),
        Look::Dead => put_stretch(output, b"dead", x, reach(until, 8, since), writer),
    }
}

#[tactic(auto, using(am_script::proofs::Pieces::puts_none))]
fn put_holder<W: Write>(
    output: &mut Output,
    ending: &Ending,
    until: &Until,
    lane: &Option<Holder>,
    x: u64,
    writer: &mut W,
)
    requires rows { until.now.number - until.now.skipped ≤ most_rows }
    requires more { until.now.more ≤ 13 }
    ensures { Puts output.old output.new (lane_bar ending.now until.now lane.now x)
        (W.contents writer.old) (W.contents writer.new) }
{
    if let Some(holder) = lane {
        if ends(ending, holder) {
            put_bar(output, holder.look, until, holder.since, x, writer);
        }
    }
}

/// Puts out the bars in these lanes that end so; the first of the lanes stands there.
#[tactic(auto, using(am_script::proofs::Pieces::puts_none))]
fn put_lanes<W: Write>(
    output: &mut Output,
    kind: LaneKind,
    first: u64,
    ending: &Ending,
    until: &Until,
    lanes: &Lanes,
    writer: &mut W,
)
    requires rows { until.now.number - until.now.skipped ≤ most_rows }
    requires more { until.now.more ≤ 13 }
    requires first { first ≤ 1000000000 }
    ensures { Puts output.old output.new (lane_bars kind first ending.now until.now 0 lanes.now)
        (W.contents writer.old) (W.contents writer.new) }
{
    let mut from = 0;
    while let Some(lane) = lanes.next_ending(ending, from) {
        let x = lane_x(kind, first, lane);
        put_holder(output, ending, until, &lanes.holder(lane), x, writer);
        from = lane + 1;
    }
}

pub(crate) fn put_token_bars<W: Write>(
    output: &mut Output,
    ending: &Ending,
    until: &Until,
    lasting: &Lasting,
    writer: &mut W,
)
    requires rows { until.now.number - until.now.skipped ≤ most_rows }
    requires more { until.now.more ≤ 13 }
    ensures { Puts output.old output.new (token_bars ending.now until.now (lasts_of lasting.now))
        (W.contents writer.old) (W.contents writer.new) }
{
    let first = first_token(lasting);
    put_lanes(
        output,
        LaneKind::Narrow,
        first,
        ending,
        until,
        &lasting.tokens,
        writer,
    );
}

pub(crate) fn put_walker_bars<W: Write>(
    output: &mut Output,
    ending: &Ending,
    until: &Until,
    lasting: &Lasting,
    writer: &mut W,
)
    requires rows { until.now.number - until.now.skipped ≤ most_rows }
    requires more { until.now.more ≤ 13 }
    ensures { Puts output.old output.new (walker_bars ending.now until.now (lasts_of lasting.now))
        (W.contents writer.old) (W.contents writer.new) }
{
    put_lanes(
        output,
        LaneKind::Wide,
        332,
        ending,
        until,
        &lasting.walkers,
        writer,
    );
}

pub(crate) fn put_system_bars<W: Write>(
    output: &mut Output,
    ending: &Ending,
    until: &Until,
    lasting: &Lasting,
    writer: &mut W,
)
    requires rows { until.now.number - until.now.skipped ≤ most_rows }
    requires more { until.now.more ≤ 13 }
    ensures { Puts output.old output.new (system_bars ending.now until.now (lasts_of lasting.now))
        (W.contents writer.old) (W.contents writer.new) }
{
    let first = first_system(lasting);
    put_lanes(
        output,
        LaneKind::Narrow,
        first,
        ending,
        until,
        &lasting.systems,
        writer,
    );
}

/// Puts out the bar of the dead daemon.
pub(crate) fn put_daemon_bars<W: Write>(
    output: &mut Output,
    until: &Until,
    lasting: &Lasting,
    writer: &mut W,
)
    requires rows { until.now.number - until.now.skipped ≤ most_rows }
    requires more { until.now.more ≤ 13 }
    ensures { Puts output.old output.new (daemon_bars until.now (lasts_of lasting.now))
        (W.contents writer.old) (W.contents writer.new) }
{
    let first = daemon_x(moved(lasting));
    put_lanes(
        output,
        LaneKind::Narrow,
        first,
        &Ending::All,
        until,
        &lasting.daemon,
        writer,
    );
}

/// The same, where an event shows that the daemon lives.
#[tactic(auto, using(am_script::proofs::Pieces::puts_none))]
pub(crate) fn put_living_bars<W: Write>(
    output: &mut Output,
    until: &Until,
    lasting: &Lasting,
    event: &Event,
    writer: &mut W,
)
    requires rows { until.now.number - until.now.skipped ≤ most_rows }
    requires more { until.now.more ≤ 13 }
    ensures { Puts output.old output.new (living_bars until.now (lasts_of lasting.now) event.now)
        (W.contents writer.old) (W.contents writer.new) }
{
    match event {
        Event::Attach { .. } => put_daemon_bars(output, until, lasting, writer),
        Event::Reattach { .. } => put_daemon_bars(output, until, lasting, writer),
        _ => (),
    }
}

/// Puts out the bars that end where a file system becomes catatonic: of its tokens, and its own.
#[tactic(auto, using(am_script::proofs::Pieces::puts_two))]
fn put_catatonic_bars<W: Write>(
    output: &mut Output,
    tokens: &Ending,
    system: &Ending,
    until: &Until,
    lasting: &Lasting,
    writer: &mut W,
)
    requires rows { until.now.number - until.now.skipped ≤ most_rows }
    requires more { until.now.more ≤ 13 }
    ensures { Puts output.old output.new (token_bars tokens.now until.now (lasts_of lasting.now)
        ++ system_bars system.now until.now (lasts_of lasting.now)) (W.contents writer.old)
        (W.contents writer.new) }
{
    put_token_bars(output, tokens, until, lasting, writer);
    put_system_bars(output, system, until, lasting, writer);
}

/// Puts out the bars that end where this is seen.
#[tactic(auto, using(am_script::proofs::Pieces::puts_none))]
pub(crate) fn put_ended_bars<W: Write>(
    output: &mut Output,
    until: &Until,
    lasting: &Lasting,
    obs: &Obs,
    writer: &mut W,
)
    requires rows { until.now.number - until.now.skipped ≤ most_rows }
    requires more { until.now.more ≤ 13 }
    ensures { Puts output.old output.new (ended_bars until.now (lasts_of lasting.now) obs.now)
        (W.contents writer.old) (W.contents writer.new) }
{
    match obs {
        Obs::Queued { token, .. } => {
            let ending = Ending::Of { number: token.0 };
            put_token_bars(output, &ending, until, lasting, writer)
        }
        Obs::Waits { walker, .. } => {
            let ending = Ending::Of { number: walker.0 };
            put_walker_bars(output, &ending, until, lasting, writer)
        }
        Obs::Answered { token, .. } => {
            let ending = Ending::Of { number: token.0 };
            put_token_bars(output, &ending, until, lasting, writer)
        }
        Obs::Catatonic { fs } => {
            let tokens = Ending::In { fs: *fs };
            let system = Ending::Of { number: fs.0 };
            put_catatonic_bars(output, &tokens, &system, until, lasting, writer)
        }
        Obs::Released { walker, .. } => {
            let ending = Ending::Of { number: walker.0 };
            put_walker_bars(output, &ending, until, lasting, writer)
        }
        Obs::Entered { walker, .. } => {
            let ending = Ending::Of { number: walker.0 };
            put_walker_bars(output, &ending, until, lasting, writer)
        }
        Obs::Left { walker, .. } => {
            let ending = Ending::Of { number: walker.0 };
            put_walker_bars(output, &ending, until, lasting, writer)
        }
        Obs::Reattached { fs, .. } => {
            let ending = Ending::Of { number: fs.0 };
            put_system_bars(output, &ending, until, lasting, writer)
        }
        Obs::Died => put_daemon_bars(output, until, lasting, writer),
        _ => (),
    }
}
