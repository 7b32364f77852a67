//! The path of a mount from the root of its namespace.

ghost use Rattle.std.specs.Prelude.{◌≡◌, ◌≤◌, ◌+◌, ◌*◌, ◌^◌, length, option_copied};
ghost use Rattle.am_script.specs.{Puts};
ghost use Rattle.am_draw.specs.MountPaths.{between, path_of, path_to, path_words, point_of};
ghost use Rattle.am_draw.specs.Trees.{tree_rows};
ghost use Rattle.am_draw.specs.Words.{words, xml};

use crate::mount_rows::{MountRows, row_of};
use crate::words::put_xml;
use am_names::{MountId, Position};
use am_script::answer_line::put_word;
use am_script::output::Output;
use std::io::Write;

/// Over how many mounts a path goes at most.
const MOST: u64 = 16;

/// Where a mount is mounted; a root is mounted nowhere.
fn point_of<'a>(rows: &MountRows<'a>, mount: MountId) -> Option<&'a Position>
    ensures { option_copied result ≡ point_of (tree_rows rows.now) mount }
{
    match row_of(rows, mount) {
        Some(row) => row.mountpoint.as_ref(),
        None => None,
    }
}

/// How long the path to a mountpoint is, over so many mounts at most.
fn path_length(most: u64, rows: &MountRows<'_>, point: Option<&Position>) -> u128
    requires { most ≤ 16 }
    ensures length { result ≡ length (path_to most (tree_rows rows.now) (option_copied point.entry)) }
    ensures bound { result ≤ (most + 1) * 2 ^ 64 }
{
    let Some(point) = point else {
        return 0;
    };
    if most == 0 {
        return 3;
    }
    let above = path_length(most - 1, rows, point_of(rows, point.mount));
    above + point.place.text().len() as u128
}

/// The bytes from one place to another.
fn between(from: u128, to: u128, bytes: &[u8]) -> &[u8]
    ensures { result.now ≡ between from to bytes.now }
{
    let front = &bytes[..to.min(bytes.len() as u128) as usize];
    &front[from.min(front.len() as u128) as usize..]
}

/// Puts out the bytes of a path from one place to another, as text.
#[tactic(auto, using(am_script::proofs::Pieces::puts_none))]
fn put_between<W: Write>(
    output: &mut Output,
    most: u64,
    rows: &MountRows<'_>,
    point: Option<&Position>,
    from: u128,
    to: u128,
    writer: &mut W,
)
    requires { most ≤ 16 }
    ensures { Puts output.old output.new
        (xml (between from to (path_to most (tree_rows rows.now) (option_copied point.entry))))
        (W.contents writer.old) (W.contents writer.new) }
{
    let Some(point) = point else {
        return;
    };
    if most == 0 {
        put_xml(output, between(from, to, b"..."), writer);
        return;
    }
    let above = point_of(rows, point.mount);
    let length = path_length(most - 1, rows, above);
    let from_here = from.saturating_sub(length);
    let to_here = to.saturating_sub(length);
    put_between(output, most - 1, rows, above, from, to, writer);
    put_xml(
        output,
        between(from_here, to_here, point.place.text()),
        writer,
    );
}

/// Puts out a path that is so long as text, cut in its middle.
#[tactic(auto, using(am_script::proofs::Pieces::puts_three))]
fn put_cut<W: Write>(
    output: &mut Output,
    half: u64,
    long: u128,
    rows: &MountRows<'_>,
    point: Option<&Position>,
    writer: &mut W,
)
    requires { long ≡ length (path_to 16 (tree_rows rows.now) (option_copied point)) }
    ensures { Puts output.old output.new
        (words half (path_to 16 (tree_rows rows.now) (option_copied point.entry)))
        (W.contents writer.old) (W.contents writer.new) }
{
    let half = u128::from(half);
    let last = long.saturating_sub(half);
    if half < last {
        put_between(output, MOST, rows, point, 0, half, writer);
        put_word(output, b"...", writer);
        put_between(output, MOST, rows, point, last, long, writer);
        return;
    }
    put_between(output, MOST, rows, point, 0, long, writer);
}

/// Puts out the path of a mount, of which so many of the first and last bytes stay.
pub(crate) fn put_path<W: Write>(
    output: &mut Output,
    half: u64,
    rows: &MountRows<'_>,
    mount: MountId,
    writer: &mut W,
)
    ensures { Puts output.old output.new (path_words half (path_of (tree_rows rows.now) mount))
        (W.contents writer.old) (W.contents writer.new) }
{
    let point = point_of(rows, mount);
    let long = path_length(MOST, rows, point);
    if long == 0 {
        put_word(output, b"/", writer);
        return;
    }
    put_cut(output, half, long, rows, point, writer);
}
