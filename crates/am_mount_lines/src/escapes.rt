//! Words in which bytes stand by their octal digits.

ghost use Rattle.std.specs.Prelude.{◌≡◌, IfOk, option_map};
ghost use Rattle.am_mount_lines.specs.Escapes.{code_of, plain_of};
ghost use Rattle.am_mount_lines.specs.Lines.{path_told};

use crate::words::is_word;
use am_names::{AbsPath, Place};
use std::alloc::{AllocError, Global};

/// The byte for which digits stand behind a backslash.
fn code_of(digits: &[u8]) -> Option<u8>
    ensures { result ≡ code_of digits.now }
{
    if is_word(digits, b"040") {
        return Some(b' ');
    }
    if is_word(digits, b"011") {
        return Some(b'\t');
    }
    if is_word(digits, b"012") {
        return Some(b'\n');
    }
    if is_word(digits, b"134") {
        return Some(b'\\');
    }
    None
}

/// What a word says; none where a backslash stands before other bytes.
fn plain(alloc: Global, word: &[u8]) -> Result<Option<Vec<u8>>, AllocError>
    ensures { IfOk result (λ text. option_map (λ t. t.items) text ≡ plain_of word.now) }
{
    let mut text = Vec::new(alloc);
    let mut rest = word;
    while let [first, behind @ ..] = rest {
        if *first == b'\\' {
            let Some((digits, others)) = behind.split_at_checked(3) else {
                return Ok(None);
            };
            let Some(byte) = code_of(digits) else {
                return Ok(None);
            };
            text.push(byte)?;
            rest = others;
        } else {
            text.push(*first)?;
            rest = behind;
        }
    }
    Ok(Some(text))
}

/// The path that a word says, if it says one.
pub(crate) fn path_told(alloc: Global, word: &[u8]) -> Result<Option<Place>, AllocError>
    ensures { IfOk result (λ place. place ≡ path_told word.now) }
{
    let Some(text) = plain(alloc, word)? else {
        return Ok(None);
    };
    match AbsPath::read(text.as_slice()) {
        Ok(path) => Ok(Some(path.to_place(alloc)?)),
        Err(_) => Ok(None),
    }
}
