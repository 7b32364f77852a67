//! Slips that people meet most, told by a line of their own.

ghost use Rattle.std.specs.Prelude.{◌≡◌, ◌<◌, ◌^◌, ◌++◌, bytes_eq, OnOk};
ghost use Rattle.std.specs.Option.{option_copied};
ghost use Rattle.am_lines.specs.{words_of};
ghost use Rattle.am_recall.specs.Lines.{left_lines, raw_lines};
ghost use Rattle.am_explain.specs.Notes.{begins_with_mark, ends_in_return, is_end_alone, is_padded_end, note_of, note_text, padded_end};

use crate::excerpt::put_parts;
use am_lines::{cut_at_line_feed, next_word};
use itoa::Buffer;
use std::alloc::AllocError;

/// What may have gone wrong with the file.
#[derive(Clone, Copy, Debug, PartialEq, Eq)]
pub enum Note {
    /// It begins with a byte order mark.
    ByteOrderMark,
    /// The line ends in a carriage return.
    CarriageReturn,
    /// Below, this line is `end` with a blank beside it.
    PaddedEnd { line: u64 },
}

/// Whether the line begins with the byte order mark of UTF-8.
fn begins_with_mark(line: &[u8]) -> bool
    ensures { result ≡ begins_with_mark line.now }
{
    match line.strip_prefix(b"\xEF\xBB\xBF") {
        Some(_) => true,
        None => false,
    }
}

/// Whether the line ends in a carriage return.
fn ends_in_return(line: &[u8]) -> bool
    ensures { result ≡ ends_in_return line.now }
{
    match line.strip_suffix(b"\r") {
        Some(_) => true,
        None => false,
    }
}

pub(crate) fn is_word(word: &[u8], text: &[u8]) -> bool
    ensures { result ≡ bytes_eq word.now text.now }
{
    word == text
}

/// Whether `end` is the one word of the line.
fn is_end_alone(line: &[u8]) -> bool
    ensures { result ≡ is_end_alone (words_of line.now) }
{
    let Some((word, behind)) = next_word(line) else {
        return false;
    };
    if let Some(_) = next_word(behind) {
        return false;
    }
    is_word(word, b"end")
}

/// Whether the line is `end` with a blank beside it.
fn is_padded_end(line: &[u8]) -> bool
    ensures { result ≡ is_padded_end line.now }
{
    is_end_alone(line) && !is_word(line, b"end")
}

/// The first line of this text that is `end` with a blank beside it; the lines are counted from this
/// number on.
fn padded_end(number: u64, text: Option<&[u8]>) -> Option<Note>
    requires { number < 2 ^ 63 }
    ensures { result ≡ padded_end number (left_lines (option_copied text.entry)) }
{
    let mut line_number = number;
    let mut rest = text;
    while let Some(text) = rest {
        let (line, below) = cut_at_line_feed(text);
        if is_padded_end(line) {
            return Some(Note::PaddedEnd { line: line_number });
        }
        line_number += 1;
        rest = below;
    }
    None
}

/// What may have gone wrong with the file in which a fault is told at the first line of this text,
/// which has this number. Where a section has no end, one may stand below.
pub(crate) fn note_of(number: u64, text: &[u8], has_no_end: bool) -> Option<Note>
    requires { number < 2 ^ 62 }
    ensures { result ≡ note_of number (raw_lines text.now) has_no_end }
{
    let (line, below) = cut_at_line_feed(text);
    if number == 1 && begins_with_mark(line) {
        return Some(Note::ByteOrderMark);
    }
    if ends_in_return(line) {
        return Some(Note::CarriageReturn);
    }
    if has_no_end {
        return padded_end(number + 1, below);
    }
    None
}

/// Puts the line of a note behind a text, if there is one.
pub(crate) fn put_note(text: &mut Vec<u8>, note: Option<Note>) -> Result<(), AllocError>
    ensures { OnOk result (text.new.items ≡ text.old.items ++ note_text note) }
{
    let mut digits = Buffer::new();
    match note {
        None => Ok(()),
        Some(Note::ByteOrderMark) => put_parts(
            text,
            &[b"  the script begins with a byte order mark, which is no part of a script\n"],
        ),
        Some(Note::CarriageReturn) => put_parts(
            text,
            &[
                b"  the line ends in a carriage return: lines of a script end in a line feed alone\n",
            ],
        ),
        Some(Note::PaddedEnd { line }) => put_parts(
            text,
            &[
                b"  line ",
                digits.format(line).as_bytes(),
                b" is end with a blank beside it, which ends no section\n",
            ],
        ),
    }
}
