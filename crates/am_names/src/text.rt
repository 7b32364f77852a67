//! The canonical text of a path or a place: each name behind one slash.

ghost use Rattle.std.specs.Prelude.{◌≡◌, ◌∷◌, [], IfNone, IfSome};
ghost use Rattle.std.specs.List.{position_or_len};
ghost use Rattle.am_names.specs.Path.{IsCanonical, names_of, is_slash};

use crate::name::Name;

/// The first name and the text behind it. The names of a path are taken one after another by
/// `while let Some((name, rest)) = split_first_name(text)`.
pub fn split_first_name(text: &[u8]) -> Option<(Name, &[u8])>
    requires { IsCanonical text.now }
    ensures none { IfNone result (names_of text.now ≡ []) }
    ensures some { IfSome result (λ cut. names_of text.now ≡ cut.0 ∷ names_of cut.1.now) }
    ensures rest { IfSome result (λ cut. IsCanonical cut.1.now) }
{
    let (_slash, below) = text.split_first()?;
    let (bytes, rest) = below.split_at(name_len(below));
    Some((Name::of(bytes), rest))
}

/// How many bytes stand before the next slash, or the end.
fn name_len(text: &[u8]) -> usize
    ensures { result ≡ position_or_len is_slash text.now }
{
    for (at, byte) in text.iter().enumerate() {
        if *byte == b'/' {
            return at;
        }
    }
    text.len()
}
