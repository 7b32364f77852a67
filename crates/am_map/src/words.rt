//! What the words of a line may be.

ghost use Rattle.std.specs.Prelude.{◌≡◌, IfOk, IfErr, OnOk};
ghost use Rattle.std.specs.List.{list_all};
ghost use Rattle.am_lines.specs.{words_of};
ghost use Rattle.am_map.specs.Words.{is_plain, is_plain_byte, is_indirect_key, key_read, is_options, is_location, is_host_byte, key_text};
ghost use Rattle.am_map.specs.Grammar.{entry_read, entry_with};
ghost use Rattle.am_map.specs.Parts.{entry_of};
ghost use Rattle.am_names.specs.{is_name, IsCanonical, names_of};
ghost use Rattle.am_map.specs.declared.kind.MapKind.TheVariants.{Indirect, Direct};
ghost use Rattle.std.specs.Option.{option_copied};

use crate::fault::MapFaultKind;
use crate::parts::EntryRef;
use am_lines::{begins_with, cut_at_colon, next_word};
use am_names::{AbsPath, Name};

/// Reads the key of an indirect map's line.
pub(crate) fn read_name(word: &[u8]) -> Result<(), MapFaultKind>
    ensures ok { OnOk result (key_read Indirect word.now ≡ Ok word.now) }
    ensures err { IfErr result (λ fault. key_read Indirect word.now ≡ Err fault) }
{
    if !is_indirect_key(word) {
        return Err(MapFaultKind::BadKey);
    }
    Ok(())
}

/// Reads the key of a direct map's line.
pub(crate) fn read_path(word: &[u8]) -> Result<AbsPath<'_>, MapFaultKind>
    ensures ok { IfOk result (λ path. key_read Direct word.now ≡ Ok (key_text path)) }
    ensures err { IfErr result (λ fault. key_read Direct word.now ≡ Err fault) }
{
    if !is_plain(word) {
        return Err(MapFaultKind::BadKey);
    }
    match AbsPath::read(word) {
        Ok(path) => Ok(path),
        Err(_) => Err(MapFaultKind::BadKey),
    }
}

/// The key of a path in a direct map, from the canonical text of the path, as `Place::text` lends
/// it: that text, and `/` for the root, whose text is empty.
pub fn key_text(path: &[u8]) -> &[u8]
    requires { IsCanonical path.now }
    ensures { result.now ≡ key_text (names_of path.now) }
{
    if path.is_empty() {
        return b"/";
    }
    path
}

/// Reads the words behind the key: options, if the first begins with a dash, and a location.
pub(crate) fn read_entry(line: &[u8]) -> Result<EntryRef<'_>, MapFaultKind>
    ensures ok { IfOk result (λ entry. entry_read (words_of line.now) ≡ Ok (entry_of entry)) }
    ensures err { IfErr result (λ fault. entry_read (words_of line.now) ≡ Err fault) }
{
    let Some((word, others)) = next_word(line) else {
        return Err(MapFaultKind::NoLocation);
    };
    if !begins_with(word, b'-') {
        return read_location(None, line);
    }
    if !is_options(word) {
        return Err(MapFaultKind::BadOption);
    }
    read_location(Some(&word[1..]), others)
}

/// Reads the one word that is left.
fn read_location<'a>(
    options: Option<&'a [u8]>,
    line: &'a [u8],
) -> Result<EntryRef<'a>, MapFaultKind>
    ensures ok { IfOk result (λ entry.
        entry_with (option_copied options.entry) (words_of line.now) ≡ Ok (entry_of entry)) }
    ensures err { IfErr result (λ fault.
        entry_with (option_copied options.entry) (words_of line.now) ≡ Err fault) }
{
    let Some((word, others)) = next_word(line) else {
        return Err(MapFaultKind::NoLocation);
    };
    if next_word(others).is_some() {
        return Err(MapFaultKind::BadLocation);
    }
    if !is_location(word) {
        return Err(MapFaultKind::BadLocation);
    }
    let (host, path) = cut_at_colon(word);
    Ok(EntryRef {
        options,
        host,
        path,
    })
}

/// Whether the word is a key of an indirect map.
fn is_indirect_key(word: &[u8]) -> bool
    ensures { result ≡ is_indirect_key word.now }
{
    if !is_plain(word) || begins_with(word, b'+') {
        return false;
    }
    word == b"*".as_slice() || is_name(word)
}

fn is_name(word: &[u8]) -> bool
    ensures { result ≡ is_name word.now }
{
    Name::read(word).is_ok()
}

/// Whether the word, which begins with a dash, is options.
fn is_options(word: &[u8]) -> bool
    ensures { result ≡ is_options word.now }
{
    if word.len() == 1 {
        return false;
    }
    is_plain(word)
}

/// Whether the word is a host and a path.
fn is_location(word: &[u8]) -> bool
    ensures { result ≡ is_location word.now }
{
    let (host, path) = cut_at_colon(word);
    if !is_plain(word) || !is_host(host) {
        return false;
    }
    begins_with(path, b'/')
}

fn is_plain(word: &[u8]) -> bool
    ensures { result ≡ is_plain word.now }
{
    word.iter()
        .all(|b| *b != b'$' && *b != b'"' && *b != b'\\' && *b != 0)
}

fn is_host(bytes: &[u8]) -> bool
    ensures { result ≡ list_all is_host_byte bytes.now }
{
    bytes
        .iter()
        .all(|b| *b != b'/' && *b != b',' && *b != b'(' && *b != b'[')
}
