//! What the words of a map's line may be.

ghost use Rattle.std.specs.Prelude.{◌≡◌};
ghost use Rattle.std.specs.List.{list_all};
ghost use Rattle.am_map.specs.Words.{is_plain, is_options, is_location, is_host_byte};
ghost use Rattle.am_diagnosis.specs.Fits.{is_entry_word};

use am_lines::{begins_with, cut_at_colon};

/// Whether the word is options, which begin with a dash, or else a location.
pub(crate) fn is_entry_word(word: &[u8]) -> bool
    ensures { result ≡ is_entry_word word.now }
{
    if begins_with(word, b'-') {
        return is_options(word);
    }
    is_location(word)
}

/// Whether the word, which begins with a dash, is options.
fn is_options(word: &[u8]) -> bool
    ensures { result ≡ is_options word.now }
{
    if word.len() == 1 {
        return false;
    }
    is_plain(word)
}

/// Whether the word is a host and a path.
pub(crate) fn is_location(word: &[u8]) -> bool
    ensures { result ≡ is_location word.now }
{
    let (host, path) = cut_at_colon(word);
    if !is_plain(word) || !is_host(host) {
        return false;
    }
    begins_with(path, b'/')
}

fn is_plain(word: &[u8]) -> bool
    ensures { result ≡ is_plain word.now }
{
    word.iter()
        .all(|b| *b != b'$' && *b != b'"' && *b != b'\\' && *b != 0)
}

fn is_host(bytes: &[u8]) -> bool
    ensures { result ≡ list_all is_host_byte bytes.now }
{
    bytes
        .iter()
        .all(|b| *b != b'/' && *b != b',' && *b != b'(' && *b != b'[')
}
