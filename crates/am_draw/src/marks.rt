//! The marks of a picture, as elements of SVG.

ghost use Rattle.std.specs.Prelude.{◌≡◌, ◌≤◌, ◌+◌, ◌++◌, codes, decimal};
ghost use Rattle.am_script.specs.{Puts};
ghost use Rattle.am_draw.specs.Marks.{at_text, stamp, span_text, stroke, reach_text, stretch, opening, label, lane_x, shift, daemon_x};
ghost use Rattle.am_draw.specs.Words.{words};

use crate::part::MOST_LANES;
use crate::words::put_words;
use am_script::answer_line::{put_number, put_word};
use am_script::output::Output;
use std::io::Write;

/// How far lanes stand apart.
#[derive(Clone, Copy)]
pub enum LaneKind {
    /// Those of tokens, of file systems and of failures.
    Narrow,
    /// Those of walkers.
    Wide,
}

/// The middle of a lane, of which the first of its kind has it there, in pixels from the left.
pub(crate) fn lane_x(lanes: LaneKind, first: u64, lane: usize) -> u64
    requires { first ≤ 1000000000 }
    ensures x { result ≡ lane_x lanes first lane }
    ensures left { first ≤ result }
    ensures right { result ≤ first + 44000000 }
{
    let lane = (lane as u64).min(MOST_LANES);
    match lanes {
        LaneKind::Narrow => first + 20 * lane,
        LaneKind::Wide => first + 44 * lane,
    }
}

/// The middle of the daemon's lane, in columns that are moved so far.
pub(crate) fn daemon_x(moved: u64) -> u64
    requires { moved ≤ 1000000000 }
    ensures { result ≡ daemon_x moved }
{
    884 + moved
}

/// How far the columns at the right are moved, behind so many wide lanes and so many narrow ones.
pub(crate) fn shift(wide: u64, narrow: u64) -> u64
    requires wide { wide ≤ 1000000 }
    requires narrow { narrow ≤ 3000000 }
    ensures shift { result ≡ shift wide narrow }
    ensures most { result ≤ 103999532 }
{
    (44 * wide + 20 * narrow).saturating_sub(468)
}

#[tactic(auto, using(am_script::proofs::Pieces::puts_two))]
fn put_at<W: Write>(output: &mut Output, x: u64, y: u64, writer: &mut W)
    ensures { Puts output.old output.new (at_text x y) (W.contents writer.old)
        (W.contents writer.new) }
{
    put_number(output, b"' x='", x, writer);
    put_number(output, b"' y='", y, writer);
}

/// Puts out a symbol at this place.
#[tactic(auto, using(am_views::proofs::FourPieces::puts_four))]
pub(crate) fn put_stamp<W: Write>(
    output: &mut Output,
    symbol: &[u8],
    x: u64,
    y: u64,
    writer: &mut W,
)
    ensures { Puts output.old output.new (stamp symbol.now x y) (W.contents writer.old)
        (W.contents writer.new) }
{
    put_word(output, b"<use href='#am-", writer);
    put_word(output, symbol, writer);
    put_at(output, x, y, writer);
    put_word(output, b"'/>\n", writer);
}

#[tactic(auto, using(am_script::proofs::Pieces::puts_two))]
fn put_span<W: Write>(output: &mut Output, from: u64, to: u64, writer: &mut W)
    ensures { Puts output.old output.new (span_text from to) (W.contents writer.old)
        (W.contents writer.new) }
{
    put_number(output, b"' d='M", from, writer);
    put_number(output, b" 13H", to, writer);
}

/// Puts out a line of this class through the middle of a row.
#[tactic(auto, using(am_views::proofs::FourPieces::puts_four))]
pub(crate) fn put_stroke<W: Write>(
    output: &mut Output,
    class: &[u8],
    from: u64,
    to: u64,
    writer: &mut W,
)
    ensures { Puts output.old output.new (stroke class.now from to) (W.contents writer.old)
        (W.contents writer.new) }
{
    put_word(output, b"<path class='", writer);
    put_word(output, class, writer);
    put_span(output, from, to, writer);
    put_word(output, b"'/>\n", writer);
}

#[tactic(auto, using(am_script::proofs::Pieces::puts_two))]
fn put_reach<W: Write>(output: &mut Output, x: u64, reach: u64, writer: &mut W)
    ensures { Puts output.old output.new (reach_text x reach) (W.contents writer.old)
        (W.contents writer.new) }
{
    put_number(output, b"' d='M", x, writer);
    put_number(output, b" 13v-", reach, writer);
}

/// Puts out a line of this class that ends in the middle of a row, and is so long.
#[tactic(auto, using(am_views::proofs::FourPieces::puts_four))]
pub(crate) fn put_stretch<W: Write>(
    output: &mut Output,
    class: &[u8],
    x: u64,
    reach: u64,
    writer: &mut W,
)
    ensures { Puts output.old output.new (stretch class.now x reach) (W.contents writer.old)
        (W.contents writer.new) }
{
    put_word(output, b"<path class='", writer);
    put_word(output, class, writer);
    put_reach(output, x, reach, writer);
    put_word(output, b"'/>\n", writer);
}

/// Puts out what stands before a text of this class.
#[tactic(auto, using(am_views::proofs::FourPieces::puts_four))]
pub(crate) fn put_opening<W: Write>(
    output: &mut Output,
    class: &[u8],
    x: u64,
    y: u64,
    writer: &mut W,
)
    ensures { Puts output.old output.new (opening class.now x y) (W.contents writer.old)
        (W.contents writer.new) }
{
    put_word(output, b"<text class='", writer);
    put_word(output, class, writer);
    put_at(output, x, y, writer);
    put_word(output, b"'>", writer);
}

/// Puts out what stands behind a text.
pub(crate) fn put_closing<W: Write>(output: &mut Output, writer: &mut W)
    ensures { Puts output.old output.new (codes "</text>\n") (W.contents writer.old)
        (W.contents writer.new) }
{
    put_word(output, b"</text>\n", writer);
}

/// Puts out a text of this class that is a word and a number.
#[tactic(auto, using(am_script::proofs::Pieces::puts_three))]
pub(crate) fn put_number_label<W: Write>(
    output: &mut Output,
    class: &[u8],
    x: u64,
    y: u64,
    word: &[u8],
    number: u64,
    writer: &mut W,
)
    ensures { Puts output.old output.new (label class.now x y (word.now ++ decimal number))
        (W.contents writer.old) (W.contents writer.new) }
{
    put_opening(output, class, x, y, writer);
    put_number(output, word, number, writer);
    put_closing(output, writer);
}

/// Puts out a text of this class, cut in its middle: so many of its first and last bytes stay.
#[tactic(auto, using(am_script::proofs::Pieces::puts_three))]
pub(crate) fn put_words_label<W: Write>(
    output: &mut Output,
    class: &[u8],
    x: u64,
    y: u64,
    half: usize,
    bytes: &[u8],
    writer: &mut W,
)
    ensures { Puts output.old output.new (label class.now x y (words half bytes.now))
        (W.contents writer.old) (W.contents writer.new) }
{
    put_opening(output, class, x, y, writer);
    put_words(output, half, bytes, writer);
    put_closing(output, writer);
}
