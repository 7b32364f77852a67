//! The last lines of a text that comes in pieces.

ghost use Rattle.std.specs.Prelude.{◌≡◌, ◌+◌, ◌-◌, ◌≤◌, ◌<◌, ℕ, List, [], ◌++◌, false, true, drop, length, nat_eq, Some, None, IfSome, vec_len};
ghost use Rattle.std.specs.Option.{option_copied};
ghost use Rattle.am_recall.specs.Lines.{LeavesLines, left_lines, raw_lines};

use am_lines::{cut_at_line_feed, line_feed_place};
use std::alloc::Global;

/// How many bytes are kept at most.
const MOST: usize = 1_048_576;

/// What is recalled of a text that came in pieces: all of it, from the beginning of a line on. Where
/// that would be more than 1,048,576 bytes, whole lines are left out. Where the last line alone has
/// more, or memory runs out, nothing is recalled any more.
#[derive(Drop)]
pub struct Recalled {
    /// The text behind the lines that are left out.
    kept: Vec<u8>,
    /// How many lines are left out.
    above: u64,
    /// Nothing is recalled any more.
    is_lost: bool,
    /// The last piece had no byte.
    is_ended: bool,
}

/// How many lines end among these bytes, and where what stands behind the last of them begins.
fn whole_lines(bytes: &[u8]) -> (u64, usize)
    ensures place { result.1 ≤ length bytes.now }
    ensures lines { LeavesLines result.0 bytes.now (drop result.1 bytes.now) }
{
    let mut at = 0;
    let mut lines = 0;
    while let Some(place) = line_feed_place(&bytes[at..]) {
        at += place + 1;
        lines += 1;
    }
    (lines, at)
}

/// What stands behind so many lines of a text, if there are as many line feeds.
fn behind_lines(text: &[u8], lines: u64) -> Option<&[u8]>
    ensures { left_lines (option_copied result) ≡ drop lines (raw_lines text.now) }
{
    let mut rest = text;
    for _above in 0..lines {
        let (_, below) = cut_at_line_feed(rest);
        let Some(text) = below else {
            return None;
        };
        rest = text;
    }
    Some(rest)
}

impl Recalled {
    ghost use Rattle.am_recall.specs.Recall.{HasRoom, IsOf, is_ended, lines_left_at, LosesNothing};

    /// No piece has come.
    pub fn new(alloc: Global) -> Recalled
        ensures nothing { IsOf result [] }
        ensures found { result.is_lost ≡ false }
        ensures all { result.above ≡ 0 }
    {
        Recalled {
            kept: Vec::new(alloc),
            above: 0,
            is_lost: false,
            is_ended: false,
        }
    }

    /// Whether the last piece had no byte.
    pub fn is_ended(&self) -> bool
        ensures { result ≡ is_ended self.now }
    {
        self.is_ended
    }

    /// Takes one more piece of the text.
    pub fn take_piece(&mut self, bytes: &[u8])
        ensures goes_on { (text : List ℕ) → IsOf self.old text → IsOf self.new (text ++ bytes.now) }
        ensures ended { is_ended self.new ≡ nat_eq (length bytes.now) 0 }
        ensures most { vec_len self.old.kept ≤ 1048576 → vec_len self.new.kept ≤ 1048576 }
        ensures room { HasRoom self.old (length bytes.now) → LosesNothing self.old self.new }
    {
        self.is_ended = bytes.len() == 0;
        if self.is_lost {
            return;
        }
        if MOST < self.kept.len() + bytes.len() {
            self.leave_lines_out();
        }
        if MOST < self.kept.len() + bytes.len() {
            self.lose();
            return;
        }
        if let Err(_) = self.kept.extend_from_slice(bytes) {
            self.lose();
        }
    }

    /// Leaves out the lines that have ended.
    fn leave_lines_out(&mut self)
        ensures goes_on { (text : List ℕ) → IsOf self.old text → IsOf self.new text }
        ensures fewer { vec_len self.new.kept ≤ vec_len self.old.kept }
        ensures ended { self.new.is_ended ≡ self.old.is_ended }
    {
        let (lines, at) = whole_lines(&self.kept);
        let Some(above) = self.above.checked_add(lines) else {
            self.lose();
            return;
        };
        self.above = above;
        let left = self.kept.len() - at;
        self.kept.rotate_left(at);
        self.kept.truncate(left);
    }

    /// Recalls nothing any more.
    fn lose(&mut self)
        ensures lost { self.new.is_lost ≡ true }
        ensures none { vec_len self.new.kept ≡ 0 }
        ensures ended { self.new.is_ended ≡ self.old.is_ended }
    {
        self.is_lost = true;
        self.kept.clear();
    }

    /// The text from the line of this number on, counted from 1, if it is recalled.
    pub fn text_from(&self, number: u64) -> Option<&[u8]>
        ensures lost { self.now.is_lost ≡ true → result ≡ None }
        ensures left_out { number ≤ self.now.above → result ≡ None }
        ensures left { self.now.is_lost ≡ false → self.now.above < number
            → left_lines (option_copied result) ≡ lines_left_at self.now number }
        ensures lines { (text : List ℕ) → IsOf self.now text → IfSome result
            (λ rest. (0 < number) × (raw_lines rest.now ≡ drop (number - 1) (raw_lines text))) }
    {
        if self.is_lost {
            return None;
        }
        if number <= self.above {
            return None;
        }
        behind_lines(&self.kept, number - self.above - 1)
    }
}
