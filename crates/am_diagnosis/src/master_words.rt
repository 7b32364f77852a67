//! What the words of a master map's line may be.

ghost use Rattle.std.specs.Prelude.{◌≡◌, nat_le, is_ok};
ghost use Rattle.std.specs.List.{list_any};
ghost use Rattle.std.specs.Option.{option_copied, option_to_list};
ghost use Rattle.am_lines.specs.{is_colon};
ghost use Rattle.am_master.specs.Words.{name_read, is_file};
ghost use Rattle.am_master.specs.Timeout.{takes_next, value_in, is_seconds, number_of};
ghost use Rattle.am_diagnosis.specs.Fits.{is_option};

use crate::word::is_either;
use am_lines::{are_digits, begins_with, cut_at_colon};

/// Whether the word is the name of a map, behind its type if there is a colon.
pub(crate) fn is_map(word: &[u8]) -> bool
    ensures { result ≡ is_ok (name_read word.now) }
{
    if begins_with(word, b'-') {
        return false;
    }
    if !has_colon(word) {
        return true;
    }
    let (kind, name) = cut_at_colon(word);
    is_file(kind) && !name.is_empty()
}

fn is_file(kind: &[u8]) -> bool
    ensures { result ≡ is_file kind.now }
{
    is_either(kind, b"file", b"file,sun")
}

fn has_colon(word: &[u8]) -> bool
    ensures { result ≡ list_any is_colon word.now }
{
    word.contains(&b':')
}

/// Whether the next word is the option's value.
pub(crate) fn takes_next(word: &[u8]) -> bool
    ensures { result ≡ takes_next word.now }
{
    is_either(word, b"--timeout", b"-t")
}

/// Whether the value in the option, if it is of a timeout, is seconds.
pub(crate) fn is_option(word: &[u8]) -> bool
    ensures { result ≡ is_option word.now }
{
    match value_in(word) {
        Some(value) => is_seconds(value),
        None => true,
    }
}

/// The value that stands in the option itself.
fn value_in(word: &[u8]) -> Option<&[u8]>
    ensures { option_to_list (option_copied result) ≡ value_in word.now }
{
    word.strip_prefix(b"--timeout=")
}

/// Whether the word is a decimal number of seconds.
pub(crate) fn is_seconds(text: &[u8]) -> bool
    ensures { result ≡ is_seconds text.now }
{
    if text.is_empty() || !are_digits(text) {
        return false;
    }
    fits_seconds(text)
}

/// Whether the number that digits write is one of 32 bits.
fn fits_seconds(digits: &[u8]) -> bool
    ensures { result ≡ nat_le (number_of digits.now) 4294967295 }
{
    let mut number: u64 = 0;
    let mut rest = digits;
    while let [digit, others @ ..] = rest {
        number = number * 10 + u64::from(digit.saturating_sub(b'0'));
        if number > 4_294_967_295 {
            return false;
        }
        rest = others;
    }
    true
}
