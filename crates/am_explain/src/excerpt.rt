//! A line, as much of it as is shown round a column, and what was expected there.

ghost use Rattle.std.specs.Prelude.{◌≡◌, ◌≤◌, ◌++◌, map, take, drop, OnOk};
ghost use Rattle.std.specs.List.{flat_map};
ghost use Rattle.am_explain.specs.Excerpts.{cut_mark, indent, joined_place, left_out, line_shown, margin, place_text, pointer, shown};

use itoa::Buffer;
use std::alloc::AllocError;

/// How many bytes of a line are shown.
const WIDTH: usize = 72;

/// The byte that is shown for a byte: what a terminal would take for a control is told by `?`.
fn shown(byte: u8) -> u8
    ensures { result ≡ shown byte }
{
    if byte == b'\t' {
        return b' ';
    }
    if byte < b' ' {
        return b'?';
    }
    if b'~' < byte {
        return b'?';
    }
    byte
}

/// How many bytes of a line are left out before those that are shown round this column.
fn left_out(column: usize) -> usize
    ensures { result ≡ left_out column }
{
    if column <= 60 { 0 } else { column - 41 }
}

/// How many bytes are shown before this column.
fn indent(column: usize) -> usize
    ensures value { result ≡ indent column }
    ensures few { result ≤ 60 }
{
    if 60 < column {
        return 40;
    }
    if column == 0 {
        return 0;
    }
    column - 1
}

/// What stands before a line of which so many bytes are left out.
fn margin(left_out: usize) -> &'static [u8]
    ensures { result.now ≡ margin left_out }
{
    if left_out == 0 { b"  " } else { b".." }
}

/// What stands behind what is shown of a line, of which so many bytes are left out before that.
fn cut_mark(line: &[u8], left_out: usize) -> &'static [u8]
    ensures { result.now ≡ cut_mark line.now left_out }
{
    if left_out < line.len() && WIDTH < line.len() - left_out {
        return b"..";
    }
    b""
}

/// The bytes of a line that are shown, of which so many are left out before those.
fn window(line: &[u8], left_out: usize) -> &[u8]
    ensures { result.now ≡ take 72 (drop left_out line.now) }
{
    match line.get(left_out..) {
        Some(rest) => beginning(rest),
        None => b"",
    }
}

/// As many bytes as are shown.
fn beginning(bytes: &[u8]) -> &[u8]
    ensures { result.now ≡ take 72 bytes.now }
{
    if bytes.len() <= WIDTH {
        return bytes;
    }
    &bytes[..WIDTH]
}

/// So many of these blanks.
fn beginning_of(blanks: &[u8; 60], count: usize) -> &[u8]
    requires { count ≤ 60 }
    ensures { result.now ≡ take count blanks.now }
{
    &blanks[..count]
}

/// Puts texts behind a text.
pub(crate) fn put_parts(text: &mut Vec<u8>, parts: &[&[u8]]) -> Result<(), AllocError>
    ensures { OnOk result (text.new.items ≡ text.old.items ++ flat_map (λ part. part.now) parts.now) }
{
    for part in parts {
        text.extend_from_slice(part)?;
    }
    Ok(())
}

/// Puts bytes behind a text, as they are shown.
fn put_shown(text: &mut Vec<u8>, bytes: &[u8]) -> Result<(), AllocError>
    ensures { OnOk result (text.new.items ≡ text.old.items ++ map shown bytes.now) }
{
    for byte in bytes {
        text.push(shown(*byte))?;
    }
    Ok(())
}

/// Puts a line behind a text, as much of it as is shown round this column.
fn put_line(text: &mut Vec<u8>, line: &[u8], column: usize) -> Result<(), AllocError>
    ensures { OnOk result (text.new.items ≡ text.old.items ++ line_shown line.now column) }
{
    let from = left_out(column);
    text.extend_from_slice(margin(from))?;
    put_shown(text, window(line, from))?;
    text.extend_from_slice(cut_mark(line, from))
}

/// Puts a line behind a text that points to this column of the line above it.
fn put_pointer(text: &mut Vec<u8>, column: usize, expected: &str) -> Result<(), AllocError>
    ensures { OnOk result (text.new.items ≡ text.old.items ++ pointer column expected.now) }
{
    let mut digits = Buffer::new();
    let blanks = [b' '; 60];
    put_parts(
        text,
        &[
            b"\n  ",
            beginning_of(&blanks, indent(column)),
            b"^ column ",
            digits.format(column).as_bytes(),
            b": expected ",
            expected.as_bytes(),
            b"\n",
        ],
    )
}

/// Puts what was expected at this column behind a text: below its line, or, where that is joined of
/// several, without it.
pub(crate) fn put_place(
    text: &mut Vec<u8>,
    line: &[u8],
    is_joined: bool,
    column: usize,
    expected: &str,
) -> Result<(), AllocError>
    ensures { OnOk result (text.new.items ≡ text.old.items
        ++ place_text line.now is_joined column expected.now) }
{
    if is_joined {
        return put_joined(text, column, expected);
    }
    put_line(text, line, column)?;
    put_pointer(text, column, expected)
}

/// Puts what was expected at this column of a joined line behind a text.
fn put_joined(text: &mut Vec<u8>, column: usize, expected: &str) -> Result<(), AllocError>
    ensures { OnOk result (text.new.items ≡ text.old.items ++ joined_place column expected.now) }
{
    let mut digits = Buffer::new();
    put_parts(
        text,
        &[
            b"  column ",
            digits.format(column).as_bytes(),
            b" of the joined line: expected ",
            expected.as_bytes(),
            b"\n",
        ],
    )
}
