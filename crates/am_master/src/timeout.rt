//! The timeout among the options of a line.

ghost use Rattle.std.specs.Prelude.{◌≡◌, ◌<◌, ◌++◌, [], nat_le, fold, Some, None, IfNone, IfSome, length, if◌then◌else◌};
ghost use Rattle.std.specs.Option.{option_copied, option_to_list};
ghost use Rattle.am_lines.specs.{words_of};
ghost use Rattle.am_master.specs.Timeout.{timeout_read, timeout_values, takes_next, value_in, is_seconds, number_of};

use crate::fault::MasterFaultKind;
use am_lines::{are_digits, next_word};

/// The timeout that the options set, or 300 seconds.
pub(crate) fn read_timeout(options: &[u8]) -> Result<u32, MasterFaultKind>
    ensures { result ≡ timeout_read (words_of options.now) }
{
    let mut timeout = 300;
    let mut rest = options;
    while let Some((value, others)) = next_option(rest) {
        if let Some(value) = value {
            let Some(seconds) = read_seconds(value) else {
                return Err(MasterFaultKind::BadTimeout);
            };
            timeout = seconds;
        }
        rest = others;
    }
    Ok(timeout)
}

/// The timeout that the first option sets, if it sets one, and what stands behind the option.
fn next_option(options: &[u8]) -> Option<(Option<&[u8]>, &[u8])>
    ensures none { IfNone result (words_of options.now ≡ []) }
    ensures some { IfSome result (λ cut. timeout_values (words_of options.now)
        ≡ option_to_list (option_copied cut.0) ++ timeout_values (words_of cut.1.now)) }
    ensures shorter { IfSome result (λ cut. length cut.1.now < length options.now) }
{
    let (word, others) = next_word(options)?;
    if !takes_next(word) {
        return Some((value_in(word), others));
    }
    match next_word(others) {
        Some((value, behind)) => Some((Some(value), behind)),
        None => Some((Some(&[]), others)),
    }
}

fn takes_next(word: &[u8]) -> bool
    ensures { result ≡ takes_next word.now }
{
    word == b"--timeout".as_slice() || word == b"-t".as_slice()
}

/// The value that stands in the option itself.
fn value_in(word: &[u8]) -> Option<&[u8]>
    ensures { option_to_list (option_copied result) ≡ value_in word.now }
{
    word.strip_prefix(b"--timeout=")
}

/// A decimal number of seconds.
fn read_seconds(text: &[u8]) -> Option<u32>
    ensures { result ≡ (if is_seconds text.now then Some (number_of text.now) else None) }
{
    if text.is_empty() || !are_digits(text) {
        return None;
    }
    number_of(text)
}

/// The number that digits write, if it fits.
fn number_of(digits: &[u8]) -> Option<u32>
    ensures { result ≡ (if nat_le (number_of digits.now) 4294967295 then Some (number_of digits.now)
        else None) }
{
    let mut number: u64 = 0;
    let mut rest = digits;
    while let [digit, others @ ..] = rest {
        number = number * 10 + u64::from(digit.saturating_sub(b'0'));
        if number > 4_294_967_295 {
            return None;
        }
        rest = others;
    }
    Some(number as u32)
}
