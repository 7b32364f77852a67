//! A session as C keeps it.

ghost use Rattle.std.specs.Prelude.{◌≡◌, ◌≢◌, None, Some, Option};
ghost use Rattle.am_session.specs.{Session};

use crate::loose::Loose;
use am_session::Session;
use std::alloc::Global;
use std::marker::Model;
use std::ptr;

/// A session behind a pointer of which C sees no type, or none. What is let go with one inside is
/// never freed.
#[repr(C)]
#[derive(Drop)]
pub struct Kept {
    at: *mut u8,
    pub ghost inside: { Option Session },
}

impl Model for Kept {
    ghost use Rattle.std.specs.Prelude.{Option};
    ghost use Rattle.am_c.specs.Kept.{keeps};
    ghost use Rattle.am_session.specs.contracts.played.Session.{the_row as row};
    ghost use Rattle.am_session.specs.{Session};

    ghost also_owns = { λ k. keeps row k.at k.inside };
}

impl Kept {
    pub fn none() -> Kept
        ensures { result.inside ≡ None }
    {
        Kept {
            at: ptr::null_mut(),
        }
    }

    pub fn of(loose: Loose<Session, Global>) -> Kept
        ensures { result.inside ≡ Some loose.value }
    {
        let Loose { at, alloc: _ } = loose;
        Kept { at: at as *mut u8 }
    }

    pub fn into_loose(self, alloc: Global) -> Loose<Session, Global>
        requires { self.inside ≢ None }
        ensures { self.inside ≡ Some result.value }
    {
        let Kept { at } = self;
        Loose {
            at: at as *mut Session,
            alloc,
        }
    }
}
