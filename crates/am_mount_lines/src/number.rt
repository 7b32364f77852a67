//! Numbers in decimal digits.

ghost use Rattle.std.specs.Prelude.{◌≡◌, ◌^◌, false, true, IfNone, IfSome};
ghost use Rattle.am_mount_lines.specs.Traps.{is_number, number_below};
ghost use Rattle.am_mount_lines.specs.Lines.{number_read};

use am_lines::are_digits;
use std::str;

/// A number of 64 bits.
pub(crate) fn read_u64(word: &[u8]) -> Option<u64>
    ensures { result ≡ number_read word.now }
{
    digits(word)?.parse::<u64>().ok()
}

/// A number of 32 bits.
pub(crate) fn read_u32(word: &[u8]) -> Option<u32>
    ensures { result ≡ number_below (2 ^ 32) word.now }
{
    digits(word)?.parse::<u32>().ok()
}

/// The text of digits, one at least.
fn digits(word: &[u8]) -> Option<&str>
    ensures none { IfNone result (is_number word.now ≡ false) }
    ensures some { IfSome result (λ text. (is_number word.now ≡ true) × (text.now ≡ word.now)) }
{
    if word.is_empty() || !are_digits(word) {
        return None;
    }
    match str::from_utf8(word) {
        Ok(text) => Some(text),
        Err(_) => None,
    }
}
