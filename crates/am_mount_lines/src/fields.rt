//! The optional fields of a line.

ghost use Rattle.std.specs.Prelude.{◌≡◌, ◌<◌, ◌≤◌, None, Some, true, false, drop, map, length, position, codes, bytes_eq, IfNone, IfSome, IfOk, IfErr, OnOk, OnErr};
ghost use Rattle.std.specs.List.{list_any};
ghost use Rattle.am_mount_lines.specs.Traps.{begins, told};
ghost use Rattle.am_mount_lines.specs.Lines.{field_read, is_bad_field, misfit_at};

use crate::misfit::{Expected, Misfit};
use crate::number::read_u64;
use crate::words::is_word;

/// Where the first field with this tag stands.
fn field_place(fields: &[&[u8]], tag: &[u8]) -> Option<usize>
    ensures { result ≡ position (begins tag.now) (map (λ word. word.now) fields.now) }
{
    fields.iter().position(|field| field.starts_with(tag))
}

/// What stands behind so many bytes as the tag has.
fn behind_tag<'a>(field: &'a [u8], tag: &[u8]) -> &'a [u8]
    requires { length tag.now ≤ length field.now }
    ensures { result.now ≡ drop (length tag.now) field.now }
{
    &field[tag.len()..]
}

/// Where the first field with this tag stands, and what stands in it behind the tag.
fn told<'a>(fields: &[&'a [u8]], tag: &[u8]) -> Option<(usize, &'a [u8])>
    ensures none { IfNone result (told tag.now (map (λ word. word.now) fields.now) ≡ None) }
    ensures place { IfSome result (λ found.
        position (begins tag.now) (map (λ word. word.now) fields.now) ≡ Some found.0) }
    ensures within { IfSome result (λ found. found.0 < length fields.now) }
    ensures word { IfSome result (λ found.
        told tag.now (map (λ word. word.now) fields.now) ≡ Some found.1.now) }
{
    let place = field_place(fields, tag)?;
    let field = fields[place];
    Some((place, behind_tag(field, tag)))
}

/// The number of the first field with this tag, if there is one with it.
pub(crate) fn field_read(fields: &[&[u8]], tag: &[u8]) -> Result<Option<u64>, Misfit>
    ensures ok { IfOk result (λ number. number ≡ field_read tag.now (map (λ word. word.now) fields.now)) }
    ensures whole { OnOk result (is_bad_field tag.now (map (λ word. word.now) fields.now) ≡ false) }
    ensures bad { OnErr result (is_bad_field tag.now (map (λ word. word.now) fields.now) ≡ true) }
    ensures err { IfErr result (λ misfit.
        misfit_at (position (begins tag.now) (map (λ word. word.now) fields.now)) ≡ Some misfit) }
{
    let Some((place, word)) = told(fields, tag) else {
        return Ok(None);
    };
    match read_u64(word) {
        Some(number) => Ok(Some(number)),
        None => Err(Misfit {
            place: 6 + place,
            expected: Expected::Group,
        }),
    }
}

/// Whether a mount isn't to be bound.
pub(crate) fn is_unbindable(fields: &[&[u8]]) -> bool
    ensures { result ≡ list_any (λ field. bytes_eq field (codes "unbindable")) (map (λ word. word.now) fields.now) }
{
    fields.iter().any(|field| is_word(field, b"unbindable"))
}
