//! One part of a path (path_resolution(7)).

ghost use Rattle.std.specs.Prelude.{◌≡◌, ◌≤◌, ◌↔◌, IsTrue, length};
ghost use Rattle.std.specs.List.{list_all};
ghost use Rattle.am_names.specs.NameHash.{same_hashed};
ghost use Rattle.am_names.specs.Name.{name_read, is_name, is_dots, is_name_byte, hashed};

use crate::errno::Errno;
use std::hash::{Hash, Hasher};
use std::marker::Model;

/// A name of 1 to 255 bytes: no slash, no zero byte, and neither `.` nor `..`. It takes no memory.
#[derive(Clone, Copy, PartialEq, Eq, Debug)]
pub struct Name {
    buf: [u8; 255],
    len: u8,
}

impl Model for Name {
    ghost use Rattle.std.specs.Prelude.{◌≡◌, ◌-◌, ◌++◌, ℕ, List, IsTrue, length, take, drop, replicate};
    ghost use Rattle.am_names.specs.Name.{IsStored, padded};

    ghost Value = { List ℕ };

    ghost use Rattle.am_names.specs.NameView.{inside_of, stored_back};

    ghost view = { λ n. take n.len n.buf };

    // The bytes behind the name are zero, so that equal names are equal bytes.
    ghost invariant = { λ n. IsStored n.buf n.len };

    ghost inverse = { inside_of };

    ghost inverse_ok = { stored_back };
}

impl Name {
    /// The name that these bytes are. More than 255 bytes are ENAMETOOLONG, all else that is no
    /// name is EINVAL.
    pub fn read(bytes: &[u8]) -> Result<Name, Errno>
        ensures { result ≡ name_read bytes.now }
    {
        if bytes.len() > 255 {
            return Err(Errno::ENAMETOOLONG);
        }
        if !is_name(bytes) {
            return Err(Errno::EINVAL);
        }
        Ok(Name::of(bytes))
    }

    /// The name that these bytes are known to be.
    pub(crate) fn of(bytes: &[u8]) -> Name
        requires { IsTrue (is_name bytes.now) }
        ensures { result ≡ bytes.now }
    {
        let mut buf = [0; 255];
        buf[..bytes.len()].copy_from_slice(bytes);
        Name {
            buf,
            len: bytes.len() as u8,
        }
    }

    /// Its bytes, without a zero behind them.
    pub fn as_bytes(&self) -> &[u8]
        ensures bytes { result.now ≡ self.now }
        ensures name { IsTrue (is_name result.now) }
    {
        &self.buf[..self.len as usize]
    }
}

/// The bytes alone are hashed, and not the zeros behind them. The slash, which no name has, ends
/// them.
impl Hash for Name {
    ghost hash_input = { hashed };

    ghost respects_eq = { same_hashed };

    fn hash<H: Hasher>(&self, state: &mut H) {
        state.write(self.as_bytes());
        state.write_u8(b'/');
    }
}

/// Whether the bytes are a name.
pub(crate) fn is_name(bytes: &[u8]) -> bool
    ensures { result ≡ is_name bytes.now }
{
    if bytes.is_empty() || bytes.len() > 255 || is_dots(bytes) {
        return false;
    }
    are_name_bytes(bytes)
}

fn are_name_bytes(bytes: &[u8]) -> bool
    ensures { result ≡ list_all is_name_byte bytes.now }
{
    bytes.iter().all(|b| *b != b'/' && *b != 0)
}

fn is_dots(bytes: &[u8]) -> bool
    ensures { result ≡ is_dots bytes.now }
{
    match bytes {
        [a] => *a == b'.',
        [a, b] => *a == b'.' && *b == b'.',
        _ => false,
    }
}
