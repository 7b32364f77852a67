//! What the words of a line may be.

ghost use Rattle.std.specs.Prelude.{◌≡◌, IfOk, IfErr};
ghost use Rattle.am_lines.specs.{words_of, is_colon};
ghost use Rattle.std.specs.List.{list_any};
ghost use Rattle.am_names.specs.{path_read};
ghost use Rattle.am_master.specs.Grammar.{served_read};
ghost use Rattle.am_master.specs.Words.{below_root, is_direct, is_file, name_read};
ghost use Rattle.am_master.specs.ServedPoint.{served_of};

use crate::fault::MasterFaultKind;
use crate::timeout::read_timeout;
use am_lines::{begins_with, cut_at_colon, next_word};
use am_names::AbsPath;

/// The map and the timeout of a line, borrowed.
#[derive(Clone, Copy)]
pub(crate) struct ServedPointRef<'a> {
    pub(crate) map: &'a [u8],
    pub(crate) timeout: u32,
}

/// Whether the first word stands for the paths of a direct map.
pub(crate) fn is_direct(word: &[u8]) -> bool
    ensures { result ≡ is_direct word.now }
{
    word == b"/-".as_slice()
}

/// Reads the path of an indirect map.
pub(crate) fn read_point(word: &[u8]) -> Result<AbsPath<'_>, MasterFaultKind>
    ensures ok { IfOk result (λ names. below_root (path_read word.now) ≡ Ok names) }
    ensures err { IfErr result (λ fault. below_root (path_read word.now) ≡ Err fault) }
{
    let Ok(path) = AbsPath::read(word) else {
        return Err(MasterFaultKind::BadPoint);
    };
    if path.split_first().is_none() {
        return Err(MasterFaultKind::BadPoint);
    }
    Ok(path)
}

/// Reads the words behind the point: a map and options.
pub(crate) fn read_served(line: &[u8]) -> Result<ServedPointRef<'_>, MasterFaultKind>
    ensures ok { IfOk result (λ s. served_read (words_of line.now) ≡ Ok (served_of s)) }
    ensures err { IfErr result (λ fault. served_read (words_of line.now) ≡ Err fault) }
{
    let Some((word, options)) = next_word(line) else {
        return Err(MasterFaultKind::NoMap);
    };
    let map = read_name(word)?;
    let timeout = read_timeout(options)?;
    Ok(ServedPointRef { map, timeout })
}

/// Reads the name of a map, behind its type if there is a colon.
fn read_name(word: &[u8]) -> Result<&[u8], MasterFaultKind>
    ensures ok { IfOk result (λ name. name_read word.now ≡ Ok name.now) }
    ensures err { IfErr result (λ fault. name_read word.now ≡ Err fault) }
{
    if begins_with(word, b'-') {
        return Err(MasterFaultKind::BadType);
    }
    if !has_colon(word) {
        return Ok(word);
    }
    let (kind, name) = cut_at_colon(word);
    if !is_file(kind) {
        return Err(MasterFaultKind::BadType);
    }
    if name.is_empty() {
        return Err(MasterFaultKind::NoMap);
    }
    Ok(name)
}

fn is_file(kind: &[u8]) -> bool
    ensures { result ≡ is_file kind.now }
{
    kind == b"file".as_slice() || kind == b"file,sun".as_slice()
}

fn has_colon(word: &[u8]) -> bool
    ensures { result ≡ list_any is_colon word.now }
{
    word.contains(&b':')
}
