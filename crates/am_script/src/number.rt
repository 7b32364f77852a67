//! Numbers as scripts write them.

ghost use Rattle.std.specs.Prelude.{◌≡◌, true, false, IfSome, IfNone};
ghost use Rattle.std.specs.Result.{result_ok};
ghost use Rattle.hex.specs.Hex.{decode_sized};
ghost use Rattle.am_script.specs.Numbers.{is_numeral, u8_read, u32_read, u64_read};

use am_lines::are_digits;
use hex::decode_to_slice;
use std::str;

/// A number that fits 8 bits, in the form of the next.
pub fn read_u8(digits: &[u8]) -> Option<u8>
    ensures { result ≡ u8_read digits.now }
{
    numeral(digits)?.parse::<u8>().ok()
}

/// A number that fits 32 bits, in decimal, without sign or leading zeros.
pub fn read_u32(digits: &[u8]) -> Option<u32>
    ensures { result ≡ u32_read digits.now }
{
    numeral(digits)?.parse::<u32>().ok()
}

/// A number that fits 64 bits, in the same form.
pub fn read_u64(digits: &[u8]) -> Option<u64>
    ensures { result ≡ u64_read digits.now }
{
    numeral(digits)?.parse::<u64>().ok()
}

/// The text of a numeral.
fn numeral(digits: &[u8]) -> Option<&str>
    ensures none { IfNone result (is_numeral digits.now ≡ false) }
    ensures some { IfSome result (λ text. (is_numeral digits.now ≡ true)
        × (text.now ≡ digits.now)) }
{
    if !is_numeral(digits) {
        return None;
    }
    match str::from_utf8(digits) {
        Ok(text) => Some(text),
        Err(_) => None,
    }
}

fn is_numeral(digits: &[u8]) -> bool
    ensures { result ≡ is_numeral digits.now }
{
    let [first, others @ ..] = digits else {
        return false;
    };
    if !are_digits(digits) {
        return false;
    }
    *first != b'0' || others.is_empty()
}

/// The 304 bytes that 608 hex digits spell, in either case.
pub fn read_packet(digits: &[u8]) -> Option<[u8; 304]>
    ensures { result ≡ result_ok (decode_sized digits.now 304) }
{
    let mut bytes = [0; 304];
    decode_to_slice(digits, &mut bytes).ok()?;
    Some(bytes)
}
