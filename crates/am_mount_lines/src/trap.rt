//! An autofs, as its line tells it.

ghost use Rattle.std.specs.Prelude.{◌≡◌, codes, option_copied};
ghost use Rattle.std.specs.List.{slice_split};
ghost use Rattle.am_mount_lines.specs.Traps.{direct_by, has_option, is_comma, seconds_read, timeout_by, told, trap_of};

use crate::number::read_u32;
use crate::words::is_word;

/// An autofs (autofs.rst, "Configuring an autofs filesystem").
#[derive(Clone, Copy, Debug, PartialEq, Eq)]
pub struct Trap {
    /// Whether its root is its one trigger, `direct` or `offset`; none where the options don't say.
    pub is_direct: Option<bool>,
    /// Seconds, if the options tell them.
    pub timeout: Option<u32>,
}

/// Whether one of the options is this word.
fn has_option(options: &[u8], word: &[u8]) -> bool
    ensures { result ≡ has_option word.now options.now }
{
    options
        .split(|b| *b == b',')
        .any(|option| is_word(option, word))
}

fn direct_by(options: &[u8]) -> Option<bool>
    ensures { result ≡ direct_by options.now }
{
    if has_option(options, b"indirect") {
        return Some(false);
    }
    if has_option(options, b"direct") || has_option(options, b"offset") {
        return Some(true);
    }
    None
}

/// What stands behind the word `timeout=` in the first option that begins with it.
fn timeout_word(options: &[u8]) -> Option<&[u8]>
    ensures { option_copied result ≡ told (codes "timeout=") (slice_split is_comma options.now) }
{
    let option = options
        .split(|b| *b == b',')
        .find(|option| option.starts_with(b"timeout="))?;
    Some(&option[8..])
}

fn timeout_by(options: &[u8]) -> Option<u32>
    ensures { result ≡ timeout_by options.now }
{
    read_u32(timeout_word(options)?)
}

/// The autofs that a type and options tell, if it is one.
pub(crate) fn trap_of(kind: &[u8], options: &[u8]) -> Option<Trap>
    ensures { result ≡ trap_of kind.now options.now }
{
    if !is_word(kind, b"autofs") {
        return None;
    }
    Some(Trap {
        is_direct: direct_by(options),
        timeout: timeout_by(options),
    })
}
