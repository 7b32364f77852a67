//! What stands before the rows of a picture, and behind them.

ghost use Rattle.std.specs.Prelude.{◌≡◌, ◌≤◌, ◌<◌, ◌+◌, ◌*◌, ◌^◌, ◌++◌, codes};
ghost use Rattle.am_script.specs.{Puts};
ghost use Rattle.am_draw.specs.Head.{size_text, box_text, none_words, row_count_words, count_words, title_text, tag_text, rules, walker_lanes, edges, token_title, right_columns, ground, head_for, head_text, empty_picture, last_bars, last_bars_in, tail_text};
ghost use Rattle.am_draw.specs.Lasting.{lasts_of};
ghost use Rattle.am_draw.specs.Look.{look_text, right_text};
ghost use Rattle.am_draw.specs.Marks.{label, shift};
ghost use Rattle.am_draw.specs.Parts.{most_rows, tall};

use crate::failing_bars::put_all_bars;
use crate::lasting::Lasting;
use crate::look::{look, right};
use crate::marks::{put_closing, put_opening, shift};
use crate::part::{Part, tall, wide};
use crate::stretch::Until;
use am_script::answer_line::{put_number, put_word};
use am_script::output::Output;
use std::io::Write;

/// Puts out the head of the picture of this part.
pub(crate) fn put_head<W: Write>(output: &mut Output, part: &Part, writer: &mut W)
    requires { part.now.rows ≤ most_rows }
    ensures { Puts output.old output.new (head_text part.now) (W.contents writer.old)
        (W.contents writer.new) }
{
    let walkers = wide(7, part.size.walkers);
    let kernel = wide(8, part.size.tokens) + wide(0, part.size.systems);
    let narrow = kernel + wide(0, part.size.failures);
    let height = tall(part.skipped, part.rows);
    put_head_for(
        output,
        walkers,
        narrow,
        height,
        part.rows,
        part.size.events,
        writer,
    );
}

#[tactic(auto, using(am_views::proofs::FourPieces::puts_four))]
fn put_head_for<W: Write>(
    output: &mut Output,
    walkers: u64,
    narrow: u64,
    tall: u64,
    rows: u64,
    events: u64,
    writer: &mut W,
)
    requires walkers { walkers ≤ 1000000 }
    requires narrow { narrow ≤ 3000000 }
    requires tall { tall ≤ 2000001 }
    ensures { Puts output.old output.new (head_for walkers narrow tall rows events)
        (W.contents writer.old) (W.contents writer.new) }
{
    put_tag(output, walkers, narrow, tall, rows, events, writer);
    put_look(output, writer);
    put_ground(output, walkers, narrow, 26 * tall, writer);
    put_count(output, rows, events, writer);
}

fn put_look<W: Write>(output: &mut Output, writer: &mut W)
    ensures { Puts output.old output.new look_text (W.contents writer.old) (W.contents writer.new) }
{
    put_word(output, look(), writer);
}

#[tactic(auto, using(am_script::proofs::Pieces::puts_three))]
fn put_tag<W: Write>(
    output: &mut Output,
    walkers: u64,
    narrow: u64,
    tall: u64,
    rows: u64,
    events: u64,
    writer: &mut W,
)
    requires walkers { walkers ≤ 1000000 }
    requires narrow { narrow ≤ 3000000 }
    requires tall { tall ≤ 2000001 }
    ensures { Puts output.old output.new (tag_text walkers narrow tall rows events)
        (W.contents writer.old) (W.contents writer.new) }
{
    let across = 980 + 44 * walkers + 20 * narrow;
    let down = 140 + 26 * tall;
    put_size(output, across, down, writer);
    put_box(output, across, down, writer);
    put_title(output, rows, events, writer);
}

#[tactic(auto, using(am_script::proofs::Pieces::puts_two))]
fn put_size<W: Write>(output: &mut Output, across: u64, down: u64, writer: &mut W)
    ensures { Puts output.old output.new (size_text across down) (W.contents writer.old)
        (W.contents writer.new) }
{
    put_number(
        output,
        b"<svg xmlns='http://www.w3.org/2000/svg' width='",
        across,
        writer,
    );
    put_number(output, b"' height='", down, writer);
}

#[tactic(auto, using(am_script::proofs::Pieces::puts_two))]
fn put_box<W: Write>(output: &mut Output, across: u64, down: u64, writer: &mut W)
    ensures { Puts output.old output.new (box_text across down) (W.contents writer.old)
        (W.contents writer.new) }
{
    put_number(output, b"' viewBox='0 0 ", across, writer);
    put_number(output, b" ", down, writer);
}

#[tactic(auto, using(am_script::proofs::Pieces::puts_three))]
fn put_title<W: Write>(output: &mut Output, rows: u64, events: u64, writer: &mut W)
    ensures { Puts output.old output.new (title_text rows events) (W.contents writer.old)
        (W.contents writer.new) }
{
    put_word(output, b"' class='am' role='img'>\n<title>", writer);
    put_count_words(output, rows, events, writer);
    put_word(output, b"</title>\n", writer);
}

/// Puts out what all rows stand on, which are so high.
#[tactic(auto, using(am_script::proofs::Pieces::puts_two))]
fn put_ground<W: Write>(output: &mut Output, walkers: u64, narrow: u64, down: u64, writer: &mut W)
    requires walkers { walkers ≤ 1000000 }
    requires narrow { narrow ≤ 3000000 }
    ensures { Puts output.old output.new (ground walkers narrow down) (W.contents writer.old)
        (W.contents writer.new) }
{
    put_left(output, walkers, narrow, down, writer);
    put_others(output, walkers, narrow, down, writer);
}

#[tactic(auto, using(am_script::proofs::Pieces::puts_two))]
fn put_left<W: Write>(output: &mut Output, walkers: u64, narrow: u64, down: u64, writer: &mut W)
    requires walkers { walkers ≤ 1000000 }
    requires narrow { narrow ≤ 3000000 }
    ensures { Puts output.old output.new (rules (980 + 44 * walkers + 20 * narrow) down
        ++ walker_lanes (44 * walkers) down) (W.contents writer.old) (W.contents writer.new) }
{
    put_rules(output, 980 + 44 * walkers + 20 * narrow, down, writer);
    put_walker_lanes(output, 44 * walkers, down, writer);
}

#[tactic(auto, using(am_script::proofs::Pieces::puts_three))]
fn put_others<W: Write>(output: &mut Output, walkers: u64, narrow: u64, down: u64, writer: &mut W)
    requires walkers { walkers ≤ 1000000 }
    requires narrow { narrow ≤ 3000000 }
    ensures { Puts output.old output.new (edges down (320 + 44 * walkers)
        ++ (token_title (328 + 44 * walkers) ++ right_columns (shift walkers narrow) down))
        (W.contents writer.old) (W.contents writer.new) }
{
    put_edges(output, down, 320 + 44 * walkers, writer);
    put_token_title(output, 328 + 44 * walkers, writer);
    put_right(output, shift(walkers, narrow), down, writer);
}

#[tactic(auto, using(am_script::proofs::Pieces::puts_three))]
fn put_rules<W: Write>(output: &mut Output, across: u64, down: u64, writer: &mut W)
    ensures { Puts output.old output.new (rules across down) (W.contents writer.old)
        (W.contents writer.new) }
{
    put_number(
        output,
        b"<rect fill='url(#am-rows)' y='118' width='",
        across,
        writer,
    );
    put_number(output, b"' height='", down, writer);
    put_word(output, b"'/>\n", writer);
}

#[tactic(auto, using(am_script::proofs::Pieces::puts_three))]
fn put_walker_lanes<W: Write>(output: &mut Output, across: u64, down: u64, writer: &mut W)
    ensures { Puts output.old output.new (walker_lanes across down) (W.contents writer.old)
        (W.contents writer.new) }
{
    put_number(
        output,
        b"<rect fill='url(#am-walkers)' x='310' y='118' width='",
        across,
        writer,
    );
    put_number(output, b"' height='", down, writer);
    put_word(output, b"'/>\n", writer);
}

#[tactic(auto, using(am_views::proofs::FourPieces::puts_four))]
fn put_edges<W: Write>(output: &mut Output, down: u64, left: u64, writer: &mut W)
    ensures { Puts output.old output.new (edges down left) (W.contents writer.old)
        (W.contents writer.new) }
{
    put_number(output, b"<path class='column' d='M304 118v", down, writer);
    put_number(output, b"M", left, writer);
    put_number(output, b" 118v", down, writer);
    put_word(output, b"'/>\n", writer);
}

#[tactic(auto, using(am_script::proofs::Pieces::puts_two))]
fn put_token_title<W: Write>(output: &mut Output, left: u64, writer: &mut W)
    ensures { Puts output.old output.new (token_title left) (W.contents writer.old)
        (W.contents writer.new) }
{
    put_number(output, b"<text class='h' x='", left, writer);
    put_word(output, b"' y='108'>kernel: tokens</text>\n", writer);
}

#[tactic(auto, using(am_views::proofs::FourPieces::puts_four))]
fn put_right<W: Write>(output: &mut Output, far: u64, down: u64, writer: &mut W)
    ensures { Puts output.old output.new (right_columns far down) (W.contents writer.old)
        (W.contents writer.new) }
{
    put_number(output, b"<g transform='translate(", far, writer);
    put_number(
        output,
        b")'>\n<rect fill='url(#am-right)' x='852' y='118' width='596' height='",
        down,
        writer,
    );
    put_word(output, b"'/>\n", writer);
    put_right_titles(output, writer);
}

fn put_right_titles<W: Write>(output: &mut Output, writer: &mut W)
    ensures { Puts output.old output.new right_text (W.contents writer.old) (W.contents writer.new) }
{
    put_word(output, right(), writer);
}

#[tactic(auto, using(am_script::proofs::Pieces::puts_three))]
fn put_count<W: Write>(output: &mut Output, rows: u64, events: u64, writer: &mut W)
    ensures { Puts output.old output.new (label (codes "h") 46 84 (count_words rows events))
        (W.contents writer.old) (W.contents writer.new) }
{
    put_opening(output, b"h", 46, 84, writer);
    put_count_words(output, rows, events, writer);
    put_closing(output, writer);
}

#[tactic(auto, using(am_script::proofs::Pieces::puts_none))]
fn put_none_words<W: Write>(output: &mut Output, rows: u64, writer: &mut W)
    ensures { Puts output.old output.new (none_words rows) (W.contents writer.old)
        (W.contents writer.new) }
{
    if rows == 0 {
        put_word(output, b": none is drawn", writer);
    }
}

#[tactic(auto, using(am_views::proofs::FourPieces::puts_four))]
fn put_row_count_words<W: Write>(output: &mut Output, rows: u64, events: u64, writer: &mut W)
    ensures { Puts output.old output.new (row_count_words rows events) (W.contents writer.old)
        (W.contents writer.new) }
{
    put_number(output, b"", rows, writer);
    put_number(output, b" of ", events, writer);
    put_word(output, b" events", writer);
    put_none_words(output, rows, writer);
}

fn put_count_words<W: Write>(output: &mut Output, rows: u64, events: u64, writer: &mut W)
    ensures { Puts output.old output.new (count_words rows events) (W.contents writer.old)
        (W.contents writer.new) }
{
    if events == 0 {
        return put_word(output, b"no event was played", writer);
    }
    put_row_count_words(output, rows, events, writer)
}

/// Puts out the picture of no event.
#[tactic(auto, using(am_script::proofs::Pieces::puts_two))]
pub(crate) fn put_empty<W: Write>(output: &mut Output, writer: &mut W)
    ensures { Puts output.old output.new empty_picture (W.contents writer.old)
        (W.contents writer.new) }
{
    put_head_for(output, 7, 8, 0, 0, 0, writer);
    put_word(output, b"</svg>\n", writer);
}

/// Puts out the bars that reach to the bottom of the last of so many rows, of which there are some.
#[tactic(auto, using(am_views::proofs::FourPieces::puts_four))]
fn put_last_bars<W: Write>(
    output: &mut Output,
    skipped: u64,
    rows: u64,
    lasting: &Lasting,
    writer: &mut W,
)
    requires rows { rows ≤ most_rows }
    requires fits { skipped + rows < 2 ^ 64 }
    ensures { Puts output.old output.new (last_bars skipped rows (lasts_of lasting.now))
        (W.contents writer.old) (W.contents writer.new) }
{
    let until = Until {
        skipped,
        number: skipped + rows,
        more: 13,
    };
    put_number(
        output,
        b"<g transform='translate(0,",
        105 + 26 * tall(skipped, rows),
        writer,
    );
    put_word(output, b")'>\n", writer);
    put_all_bars(output, &until, lasting, writer);
    put_word(output, b"</g>\n", writer);
}

#[tactic(auto, using(am_script::proofs::Pieces::puts_none))]
fn put_last_bars_in<W: Write>(
    output: &mut Output,
    skipped: u64,
    rows: u64,
    lasting: &Lasting,
    writer: &mut W,
)
    requires rows { rows ≤ most_rows }
    requires fits { skipped + rows < 2 ^ 64 }
    ensures { Puts output.old output.new (last_bars_in skipped rows (lasts_of lasting.now))
        (W.contents writer.old) (W.contents writer.new) }
{
    if 0 < rows {
        put_last_bars(output, skipped, rows, lasting, writer);
    }
}

/// Puts out what stands behind the rows once so many events have come.
#[tactic(auto, using(am_script::proofs::Pieces::puts_two))]
pub(crate) fn put_tail<W: Write>(
    output: &mut Output,
    part: &Part,
    events: u64,
    lasting: &Lasting,
    writer: &mut W,
)
    requires { part.now.rows ≤ most_rows }
    ensures { Puts output.old output.new (tail_text part.now events (lasts_of lasting.now))
        (W.contents writer.old) (W.contents writer.new) }
{
    let rows = part.rows_shown(events);
    put_last_bars_in(output, part.skipped, rows, lasting, writer);
    put_word(output, b"</svg>\n", writer);
}
