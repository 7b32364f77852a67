//! The titles of the columns, which stand once more each forty rows.

ghost use Rattle.std.specs.Prelude.{◌≡◌, ◌≤◌, ◌-◌, ◌++◌, codes, decimal, get_or, None};
ghost use Rattle.am_script.specs.{Puts};
ghost use Rattle.am_draw.specs.Lasting.{lasts_of};
ghost use Rattle.am_draw.specs.Look.{left_again_text, right_again_text};
ghost use Rattle.am_draw.specs.Marks.{label};
ghost use Rattle.am_draw.specs.Titles.{name, lane_name, first_names, short_words, failing_name, failing_names, name_y, named_lanes, names, tokens_again, right_again, titles, titles_in};

use crate::failing::Failing;
use crate::failing_bars::first_failing;
use crate::lasting::Lasting;
use crate::look::{left_again, right_again};
use crate::marks::{LaneKind, lane_x, put_closing, put_number_label, put_opening};
use crate::part::Part;
use crate::stretch::{first_system, first_token, moved, walker_columns};
use crate::words::put_words;
use am_lanes::{Holder, Lanes, Look};
use am_names::{FsId, Name, Trigger};
use am_script::answer_line::{put_number, put_word};
use am_script::output::Output;
use std::io::Write;

/// So many lanes of walkers, of tokens, of file systems and of failures are told of.
const NAMED_LANES: usize = 64;

fn put_token_name<W: Write>(output: &mut Output, number: u32, x: u64, writer: &mut W)
    ensures { Puts output.old output.new (label (codes "k") x 21 (decimal number)) (W.contents writer.old)
        (W.contents writer.new) }
{
    put_number_label(output, b"k", x, 21, b"", u64::from(number), writer);
}

fn put_walker_name<W: Write>(output: &mut Output, number: u32, x: u64, writer: &mut W)
    requires { 8 ≤ x }
    ensures { Puts output.old output.new (label (codes "s n") (x - 8) 19 (decimal number)) (W.contents writer.old)
        (W.contents writer.new) }
{
    put_number_label(output, b"s n", x - 8, 19, b"", u64::from(number), writer);
}

fn put_system_name<W: Write>(output: &mut Output, number: u32, x: u64, writer: &mut W)
    ensures { Puts output.old output.new (label (codes "k") x 21 (codes "fs " ++ decimal number))
        (W.contents writer.old) (W.contents writer.new) }
{
    put_number_label(output, b"k", x, 21, b"fs ", u64::from(number), writer);
}

/// Puts out the number of one who looks so, beside its bar.
#[tactic(auto, using(am_script::proofs::Pieces::puts_none))]
fn put_name<W: Write>(output: &mut Output, look: Look, number: u32, x: u64, writer: &mut W)
    requires { 8 ≤ x }
    ensures { Puts output.old output.new (name look number x) (W.contents writer.old)
        (W.contents writer.new) }
{
    match look {
        Look::Missing { .. } => put_token_name(output, number, x, writer),
        Look::Expire { .. } => put_token_name(output, number, x, writer),
        Look::Ended => (),
        Look::Waits => put_walker_name(output, number, x, writer),
        Look::Inside => put_walker_name(output, number, x, writer),
        Look::Idle => (),
        Look::Catatonic => put_system_name(output, number, x, writer),
        Look::Dead => (),
    }
}

#[tactic(auto, using(am_script::proofs::Pieces::puts_none))]
fn put_lane_name<W: Write>(output: &mut Output, lane: &Option<Holder>, x: u64, writer: &mut W)
    requires { 8 ≤ x }
    ensures { Puts output.old output.new (lane_name lane.now x) (W.contents writer.old)
        (W.contents writer.new) }
{
    if let Some(holder) = lane {
        put_name(output, holder.look, holder.number, x, writer);
    }
}

/// Puts out who has a bar in the first of these lanes; the first of all stands there.
#[tactic(auto, using(am_script::proofs::Pieces::puts_none))]
fn put_first_names<W: Write>(
    output: &mut Output,
    kind: LaneKind,
    first: u64,
    lanes: &Lanes,
    writer: &mut W,
)
    requires left { 8 ≤ first }
    requires right { first ≤ 1000000000 }
    ensures { Puts output.old output.new (first_names kind first lanes.now)
        (W.contents writer.old) (W.contents writer.new) }
{
    for lane in 0..NAMED_LANES {
        let x = lane_x(kind, first, lane);
        put_lane_name(output, &lanes.holder(lane), x, writer);
    }
}

fn put_short_fs<W: Write>(output: &mut Output, fs: FsId, writer: &mut W)
    ensures { Puts output.old output.new (short_words fs None) (W.contents writer.old)
        (W.contents writer.new) }
{
    put_number(output, b"fs ", u64::from(fs.0), writer);
}

fn put_short_words<W: Write>(output: &mut Output, trigger: &Trigger, writer: &mut W)
    ensures { Puts output.old output.new (short_words trigger.now.fs trigger.now.name)
        (W.contents writer.old) (W.contents writer.new) }
{
    let name: &Option<Name> = &trigger.name;
    match name {
        None => put_short_fs(output, trigger.fs, writer),
        Some(name) => put_words(output, 2, name.as_bytes(), writer),
    }
}

#[tactic(auto, using(am_script::proofs::Pieces::puts_three))]
fn put_short_label<W: Write>(output: &mut Output, trigger: &Trigger, x: u64, y: u64, writer: &mut W)
    ensures { Puts output.old output.new (label (codes "s failed") x y
        (short_words trigger.now.fs trigger.now.name)) (W.contents writer.old)
        (W.contents writer.new) }
{
    put_opening(output, b"s failed", x, y, writer);
    put_short_words(output, trigger, writer);
    put_closing(output, writer);
}

#[tactic(auto, using(am_script::proofs::Pieces::puts_none))]
fn put_failing_name<W: Write>(
    output: &mut Output,
    lane: &Option<Failing>,
    x: u64,
    y: u64,
    writer: &mut W,
)
    ensures { Puts output.old output.new (failing_name lane.now x y) (W.contents writer.old)
        (W.contents writer.new) }
{
    if let Some(held) = lane {
        put_short_label(output, &held.trigger, x, y, writer);
    }
}

/// The height of the name of a lane: names stand at two heights by turns, as they are wider than a lane.
fn name_y(lane: usize) -> u64
    ensures { result ≡ name_y lane }
{
    10 + 11 * (lane as u64 % 2)
}

fn failing_at(lanes: &[Option<Failing>], lane: usize) -> Option<Failing>
    ensures { result ≡ get_or lanes.now lane None }
{
    if lane < lanes.len() {
        return lanes[lane];
    }
    None
}

/// Puts out of what the failures in the first lanes are, the first of which stands there.
#[tactic(auto, using(am_script::proofs::Pieces::puts_none))]
fn put_failing_names<W: Write>(
    output: &mut Output,
    first: u64,
    lanes: &[Option<Failing>],
    writer: &mut W,
)
    requires { first ≤ 1000000000 }
    ensures { Puts output.old output.new (failing_names first lanes.now named_lanes)
        (W.contents writer.old) (W.contents writer.new) }
{
    for lane in 0..NAMED_LANES {
        let x = lane_x(LaneKind::Narrow, first, lane) + 5;
        put_failing_name(output, &failing_at(lanes, lane), x, name_y(lane), writer);
    }
}

#[tactic(auto, using(am_views::proofs::FourPieces::puts_four))]
fn put_names<W: Write>(output: &mut Output, lasting: &Lasting, writer: &mut W)
    ensures { Puts output.old output.new (names (lasts_of lasting.now)) (W.contents writer.old)
        (W.contents writer.new) }
{
    let token = first_token(lasting);
    let system = first_system(lasting);
    let failing = first_failing(lasting);
    put_first_names(output, LaneKind::Wide, 332, &lasting.walkers, writer);
    put_first_names(output, LaneKind::Narrow, token, &lasting.tokens, writer);
    put_first_names(output, LaneKind::Narrow, system, &lasting.systems, writer);
    put_failing_names(output, failing, lasting.failures.as_slice(), writer);
}

#[tactic(auto, using(am_script::proofs::Pieces::puts_three))]
fn put_tokens_again<W: Write>(output: &mut Output, walkers: u64, writer: &mut W)
    requires { walkers ≤ 1000000 }
    ensures { Puts output.old output.new (tokens_again walkers) (W.contents writer.old)
        (W.contents writer.new) }
{
    put_opening(output, b"s", 328 + 44 * walkers, 9, writer);
    put_word(output, b"tokens", writer);
    put_closing(output, writer);
}

fn put_right_words<W: Write>(output: &mut Output, writer: &mut W)
    ensures { Puts output.old output.new right_again_text (W.contents writer.old)
        (W.contents writer.new) }
{
    put_word(output, right_again(), writer);
}

#[tactic(auto, using(am_script::proofs::Pieces::puts_three))]
fn put_right_again<W: Write>(output: &mut Output, far: u64, writer: &mut W)
    ensures { Puts output.old output.new (right_again far) (W.contents writer.old)
        (W.contents writer.new) }
{
    put_number(output, b"<g transform='translate(", far, writer);
    put_word(output, b")'>\n", writer);
    put_right_words(output, writer);
}

fn put_left_again<W: Write>(output: &mut Output, writer: &mut W)
    ensures { Puts output.old output.new left_again_text (W.contents writer.old)
        (W.contents writer.new) }
{
    put_word(output, left_again(), writer);
}

#[tactic(auto, using(am_script::proofs::Pieces::puts_two))]
fn put_named<W: Write>(output: &mut Output, lasting: &Lasting, writer: &mut W)
    ensures { Puts output.old output.new (names (lasts_of lasting.now) ++ codes "</g>\n")
        (W.contents writer.old) (W.contents writer.new) }
{
    put_names(output, lasting, writer);
    put_word(output, b"</g>\n", writer);
}

/// Puts out the titles above a row.
#[tactic(auto, using(am_views::proofs::FourPieces::puts_four))]
fn put_titles<W: Write>(output: &mut Output, lasting: &Lasting, writer: &mut W)
    ensures { Puts output.old output.new (titles (lasts_of lasting.now)) (W.contents writer.old)
        (W.contents writer.new) }
{
    let walkers = walker_columns(lasting);
    let far = moved(lasting);
    put_left_again(output, writer);
    put_tokens_again(output, walkers, writer);
    put_right_again(output, far, writer);
    put_named(output, lasting, writer);
}

/// Puts out the titles above the row of the event with this number, if they stand there.
#[tactic(auto, using(am_script::proofs::Pieces::puts_none))]
pub(crate) fn put_titles_in<W: Write>(
    output: &mut Output,
    part: &Part,
    number: u64,
    lasting: &Lasting,
    writer: &mut W,
)
    ensures { Puts output.old output.new (titles_in part.now number (lasts_of lasting.now))
        (W.contents writer.old) (W.contents writer.new) }
{
    if part.has_titles(number) {
        put_titles(output, lasting, writer);
    }
}
