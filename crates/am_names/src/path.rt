//! Absolute paths.

ghost use Rattle.std.specs.Prelude.{◌≡◌, ◌≤◌, ◌+◌, ◌∷◌, ◌++◌, [], false, length, position, IsTrue, IfNone, IfSome, IfErr, IfOk};
ghost use Rattle.am_names.specs.Path.{path_read, parts_of, names_of, is_slash, begins_with_slash, IsCanonical};
ghost use Rattle.am_names.specs.PathFaults.{part_fault, first_fault, name_fault, AreNames};
ghost use Rattle.am_names.specs.Name.{is_name};

use crate::errno::Errno;
use crate::name::{Name, is_name};
use crate::place::Place;
use std::alloc::{AllocError, Global};
use std::marker::Model;

/// An absolute path: the names below a namespace's root. It borrows the text that was read, with
/// its doubled and trailing slashes, and takes no memory. A `Place` is the path that owns its text.
#[derive(Debug, Drop)]
pub struct AbsPath<'a> {
    text: &'a [u8],
}

impl<'a> Model for AbsPath<'a> {
    ghost use Rattle.std.specs.Prelude.{ℕ, List};
    ghost use Rattle.am_names.specs.Path.{names_of};
    ghost use Rattle.am_names.specs.PathFaults.{AreNames};

    ghost Value = { List (List ℕ) };

    ghost view = { λ p. names_of p.text.now };

    // A first slash isn't asked for: what stands behind a first name is a path too.
    ghost invariant = { λ p. AreNames p.text.now };
}

impl<'a> AbsPath<'a> {
    /// The path that these bytes spell, at most 4,095 of them. Slashes that follow one another
    /// count as one.
    pub fn read(bytes: &'a [u8]) -> Result<AbsPath<'a>, Errno>
        ensures { result ≡ path_read bytes.now }
    {
        if !begins_with_slash(bytes) {
            return Err(Errno::EINVAL);
        }
        if bytes.len() > 4095 {
            return Err(Errno::ENAMETOOLONG);
        }
        if let Some(errno) = first_fault(bytes) {
            return Err(errno);
        }
        Ok(AbsPath { text: bytes })
    }

    /// The root itself.
    pub fn root() -> AbsPath<'a>
        ensures { result ≡ [] }
    {
        AbsPath { text: b"/" }
    }

    /// The path of a canonical text, as `Place::text` lends it.
    pub fn of(text: &'a [u8]) -> AbsPath<'a>
        requires { IsCanonical text.now }
        ensures { result ≡ names_of text.now }
    {
        AbsPath { text }
    }

    /// The same path once more, which borrows the same text.
    pub fn copy(&self) -> AbsPath<'a>
        ensures { result ≡ self.now }
    {
        AbsPath { text: self.text }
    }

    /// The first name, and the path behind it. The names are taken one after another by
    /// `while let Some((name, rest)) = path.split_first()`.
    pub fn split_first(&self) -> Option<(Name, AbsPath<'a>)>
        ensures none { IfNone result (self.now ≡ []) }
        ensures some { IfSome result (λ cut. self.now ≡ cut.0 ∷ cut.1) }
    {
        let mut rest = self.text;
        while let Some((part, others)) = cut_at_slash(rest) {
            if !part.is_empty() {
                return Some((Name::of(part), AbsPath { text: others }));
            }
            rest = others;
        }
        if rest.is_empty() {
            return None;
        }
        Some((Name::of(rest), AbsPath { text: b"" }))
    }

    /// The path that owns its text, the canonical one, in one allocation.
    pub fn to_place(&self, alloc: Global) -> Result<Place, AllocError>
        ensures { IfOk result (λ place. place ≡ self.now) }
    {
        let mut place = Place::with_room(alloc, self.text.len() + 1)?;
        let mut path = self.copy();
        while let Some((name, rest)) = path.split_first() {
            place.push(&name)?;
            path = rest;
        }
        Ok(place)
    }
}

/// The first fault among the parts between slashes.
fn first_fault(bytes: &[u8]) -> Option<Errno>
    ensures { result ≡ first_fault (parts_of bytes.now) }
{
    let mut rest = bytes;
    while let Some((part, others)) = cut_at_slash(rest) {
        if let Some(errno) = part_fault(part) {
            return Some(errno);
        }
        rest = others;
    }
    part_fault(rest)
}

/// What is wrong with a part: an empty one is passed over.
fn part_fault(part: &[u8]) -> Option<Errno>
    ensures { result ≡ part_fault part.now }
{
    if part.is_empty() {
        return None;
    }
    name_fault(part)
}

/// The first test of a name that fails.
fn name_fault(bytes: &[u8]) -> Option<Errno>
    ensures { result ≡ name_fault bytes.now }
{
    if bytes.len() > 255 {
        return Some(Errno::ENAMETOOLONG);
    }
    if !is_name(bytes) {
        return Some(Errno::EINVAL);
    }
    None
}

fn begins_with_slash(bytes: &[u8]) -> bool
    ensures { result ≡ begins_with_slash bytes.now }
{
    match bytes {
        [first, ..] => *first == b'/',
        _ => false,
    }
}

/// What stands before the first slash and what stands behind it.
fn cut_at_slash(bytes: &[u8]) -> Option<(&[u8], &[u8])>
    ensures none { IfNone result (parts_of bytes.now ≡ bytes.now ∷ []) }
    ensures some { IfSome result (λ cut. parts_of bytes.now ≡ cut.0.now ∷ parts_of cut.1.now) }
    ensures parted { IfSome result (λ cut.
        length cut.0.now + 1 + length cut.1.now ≡ length bytes.now) }
{
    let at = slash_place(bytes)?;
    Some((&bytes[..at], &bytes[at + 1..]))
}

fn slash_place(bytes: &[u8]) -> Option<usize>
    ensures { result ≡ position is_slash bytes.now }
{
    bytes.iter().position(|b| *b == b'/')
}
