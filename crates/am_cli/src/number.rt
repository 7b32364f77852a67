//! Numbers as scripts write them.

ghost use Rattle.std.specs.Prelude.{◌≡◌, false, true, IfNone, IfSome};
ghost use Rattle.am_script.specs.Numbers.{is_numeral, u32_read};

use am_lines::are_digits;
use std::str;

/// A number that fits 32 bits, in decimal, without sign or leading zeros.
pub(crate) fn read_u32(digits: &[u8]) -> Option<u32>
    ensures { result ≡ u32_read digits.now }
{
    numeral(digits)?.parse::<u32>().ok()
}

/// The text of a numeral.
fn numeral(digits: &[u8]) -> Option<&str>
    ensures none { IfNone result (is_numeral digits.now ≡ false) }
    ensures some { IfSome result (λ text. (is_numeral digits.now ≡ true)
        × (text.now ≡ digits.now)) }
{
    if !is_numeral(digits) {
        return None;
    }
    match str::from_utf8(digits) {
        Ok(text) => Some(text),
        Err(_) => None,
    }
}

fn is_numeral(digits: &[u8]) -> bool
    ensures { result ≡ is_numeral digits.now }
{
    let [first, others @ ..] = digits else {
        return false;
    };
    if !are_digits(digits) {
        return false;
    }
    *first != b'0' || others.is_empty()
}
