//! Places: the compact form of a list of names.

ghost use Rattle.std.specs.Prelude.{◌≡◌, ◌∷◌, ◌++◌, ◌↔◌, [], IsTrue, IfOk, OnOk, OnErr};
ghost use Rattle.am_names.specs.Path.{IsCanonical, names_of, text_of, same_names};

use crate::name::Name;
use crate::path::AbsPath;
use smallvec::SmallVec;
use std::alloc::{AllocError, Global};
use std::marker::Model;

/// A list of names: the path of a place below a mount's root, or that of a walk below a namespace's
/// root. It is empty for the root itself. A text of at most 16 bytes stands in the place itself, a
/// longer one in an allocation of its own length.
#[derive(Debug)]
pub struct Place {
    text: SmallVec<u8, 16>,
}

// Written by hand, it is proved here once: a derived one is proved for a short and for a long text
// in each function above that lets a place go.
impl Drop for Place {
    fn drop(self) {
        let Place { text } = self;
        drop(text);
    }
}

impl Model for Place {
    ghost use Rattle.std.specs.Prelude.{ℕ, List};
    ghost use Rattle.am_names.specs.Path.{names_of, IsCanonical};

    ghost Value = { List (List ℕ) };

    ghost view = { λ p. names_of p.text.items };

    ghost invariant = { λ p. IsCanonical p.text.items };
}

impl Place {
    /// The root.
    pub fn root(alloc: Global) -> Place
        ensures { result ≡ [] }
    {
        Place {
            text: SmallVec::new(alloc),
        }
    }

    /// The root, with room for a text of so many bytes.
    pub(crate) fn with_room(alloc: Global, len: usize) -> Result<Place, AllocError>
        ensures { IfOk result (λ place. place ≡ []) }
    {
        Ok(Place {
            text: SmallVec::with_capacity(alloc, len)?,
        })
    }

    /// The same names as a path that borrows them.
    pub fn path(&self) -> AbsPath<'_>
        ensures { result ≡ self.now }
    {
        AbsPath::of(self.text())
    }

    /// The names of a canonical text, as `Place::text` lends it.
    pub fn of(alloc: Global, text: &[u8]) -> Result<Place, AllocError>
        requires { IsCanonical text.now }
        ensures { IfOk result (λ place. place ≡ names_of text.now) }
    {
        Ok(Place {
            text: SmallVec::from_slice(alloc, text)?,
        })
    }

    /// The canonical text: each name behind one slash, nothing for the root.
    pub fn text(&self) -> &[u8]
        ensures text { result.now ≡ text_of self.now }
        ensures names { names_of result.now ≡ self.now }
        ensures canonical { IsCanonical result.now }
    {
        self.text.as_slice()
    }

    /// Goes down by one name.
    pub fn push(&mut self, name: &Name) -> Result<(), AllocError>
        ensures ok { OnOk result (self.new ≡ self.old ++ name.now ∷ []) }
        ensures err { OnErr result (self.new ≡ self.old) }
    {
        let bytes = name.as_bytes();
        self.text.reserve(1 + bytes.len())?;
        self.text.push_reserved(b'/');
        self.text.extend_from_slice(bytes)
    }

    /// The same place once more.
    pub fn copy(&self, alloc: Global) -> Result<Place, AllocError>
        ensures { IfOk result (λ place. place ≡ self.now) }
    {
        Place::of(alloc, self.text())
    }

    /// Whether the names are the same.
    pub fn is_same(&self, other: &Place) -> bool
        ensures same { IsTrue result ↔ (self.now ≡ other.now) }
        ensures test { result ≡ same_names self.now other.now }
    {
        self.is_at(other.text())
    }

    /// Whether these are the names of a canonical text.
    pub fn is_at(&self, text: &[u8]) -> bool
        requires { IsCanonical text.now }
        ensures same { IsTrue result ↔ (self.now ≡ names_of text.now) }
        ensures test { result ≡ same_names self.now (names_of text.now) }
    {
        text == self.text.as_slice()
    }
}
