//! Lines and words, each call once.

use crate::tests::table::{Row, hold};
use am_lines::{
    are_digits, begins_with, cut_at_colon, cut_at_line_feed, first_word, line_feed_place,
    next_line, next_word,
};
use am_names::Errno;
use std::alloc::Global;

/// What goes in, and what comes out.
enum Text {
    /// The lines of a text, and of how many raw lines each is made.
    Lines(&'static [u8], &'static [(&'static [u8], usize)]),
    /// The first raw line of a text, and what stands behind its line feed, if it has one.
    RawLine(&'static [u8], &'static [u8], Option<&'static [u8]>),
    AreDigits(&'static [u8], bool),
    /// The words of a line.
    Words(&'static [u8], &'static [&'static [u8]]),
    /// The first word of a line that says something, and what stands behind it.
    FirstWord(&'static [u8], Option<(&'static [u8], &'static [u8])>),
    BeginsWith(&'static [u8], u8, bool),
    /// What stands before the first colon, and what stands behind it.
    CutAtColon(&'static [u8], &'static [u8], &'static [u8]),
}

/// The text has these lines, and no more.
fn has_lines(alloc: Global, text: &[u8], lines: &[(&[u8], usize)]) -> Result<bool, Errno> {
    let mut line = Vec::new(alloc);
    let mut rest = Some(text);
    for (bytes, raw_lines) in lines {
        let Some(text) = rest else {
            return Ok(false);
        };
        let behind = next_line(text, &mut line)?;
        if line.as_slice() != *bytes || behind.raw_lines != *raw_lines {
            return Ok(false);
        }
        rest = behind.rest;
    }
    Ok(rest.is_none())
}

fn has_raw_line(text: &[u8], line: &[u8], rest: Option<&[u8]>) -> bool {
    let (raw, others) = cut_at_line_feed(text);
    match (others, rest) {
        (Some(others), Some(rest)) => {
            raw == line && others == rest && line_feed_place(text) == Some(line.len())
        }
        (None, None) => raw == line && line_feed_place(text).is_none(),
        _ => false,
    }
}

/// The line has these words, and no more.
fn has_words(line: &[u8], words: &[&[u8]]) -> bool {
    let mut rest = line;
    for word in words {
        let Some((first, others)) = next_word(rest) else {
            return false;
        };
        if first != *word {
            return false;
        }
        rest = others;
    }
    next_word(rest).is_none()
}

fn has_first_word(line: &[u8], expected: Option<(&[u8], &[u8])>) -> bool {
    match (first_word(line), expected) {
        (Some((word, others)), Some((first, behind))) => word == first && others == behind,
        (None, None) => true,
        _ => false,
    }
}

fn is_cut_at_colon(word: &[u8], before: &[u8], behind: &[u8]) -> bool {
    let (front, back) = cut_at_colon(word);
    front == before && back == behind
}

impl Row for Text {
    fn holds(&self, alloc: Global) -> Result<bool, Errno> {
        match self {
            Text::Lines(text, lines) => has_lines(alloc, text, lines),
            Text::RawLine(text, line, rest) => Ok(has_raw_line(text, line, *rest)),
            Text::AreDigits(text, expected) => Ok(are_digits(text) == *expected),
            Text::Words(line, words) => Ok(has_words(line, words)),
            Text::FirstWord(line, expected) => Ok(has_first_word(line, *expected)),
            Text::BeginsWith(word, byte, expected) => Ok(begins_with(word, *byte) == *expected),
            Text::CutAtColon(word, before, behind) => Ok(is_cut_at_colon(word, before, behind)),
        }
    }
}

static LINES: [Text; 1] = [Text::Lines(
    b"ab\n\nc\\\nd\\\\\ne\\\r\n\\\n\\\n\nf\\",
    &[(b"ab", 1), (b"", 1), (b"cd\\e\\\r", 3), (b"", 3), (b"f", 1)],
)];

static ENDS: [Text; 5] = [
    Text::Lines(b"a\n", &[(b"a", 1), (b"", 1)]),
    Text::Lines(b"", &[(b"", 1)]),
    Text::Lines(b"a\\\n", &[(b"a", 2)]),
    Text::Lines(b"a\\\nb\\\nc", &[(b"abc", 3)]),
    Text::Lines(b"\\\n\\\n\\", &[(b"", 3)]),
];

static RAW_LINES: [Text; 3] = [
    Text::RawLine(b"ab\\\nc\nd", b"ab\\", Some(b"c\nd")),
    Text::RawLine(b"\n", b"", Some(b"")),
    Text::RawLine(b"ab\r", b"ab\r", None),
];

static WORDS: [Text; 1] = [Text::Words(b" \t a\tb#\r  \x0bc ", &[b"a", b"b#\r", b"\x0bc"])];

static FIRST_WORDS: [Text; 6] = [
    Text::FirstWord(b"", None),
    Text::FirstWord(b" \t", None),
    Text::FirstWord(b"#", None),
    Text::FirstWord(b"\t # a", None),
    Text::FirstWord(b"#a b", None),
    Text::FirstWord(b" a# b", Some((b"a#", b"b"))),
];

static BYTES: [Text; 9] = [
    Text::AreDigits(b"0123456789", true),
    Text::AreDigits(b"12:", false),
    Text::AreDigits(b"/0", false),
    Text::BeginsWith(b"-a", b'-', true),
    Text::BeginsWith(b"a-", b'-', false),
    Text::BeginsWith(b"", b'-', false),
    Text::CutAtColon(b"a:b:c", b"a", b"b:c"),
    Text::CutAtColon(b":", b"", b""),
    Text::CutAtColon(b"ab", b"ab", b""),
];

#[test]
fn texts_of_lines(rt: HostRuntime) {
    hold(
        &rt,
        rt.alloc(),
        "lines and how many raw lines they have",
        &LINES,
    );
    hold(
        &rt,
        rt.alloc(),
        "a line feed at the end is followed by an empty line",
        &ENDS,
    );
    hold(
        &rt,
        rt.alloc(),
        "raw lines end with their line feed",
        &RAW_LINES,
    );
    hold(&rt, rt.alloc(), "words stand between blanks", &WORDS);
    hold(
        &rt,
        rt.alloc(),
        "comments and blank lines have no first word",
        &FIRST_WORDS,
    );
    hold(
        &rt,
        rt.alloc(),
        "digits the first byte and the first colon",
        &BYTES,
    );
}
