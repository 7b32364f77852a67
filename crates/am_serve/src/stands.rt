//! Where a session stands.

ghost use Rattle.std.specs.Prelude.{◌≡◌};
ghost use Rattle.am_serve.specs.Hearing.{fresh, is_within};

use crate::head::Head;
use am_session::Session;
use std::alloc::Global;

/// Where a session stands.
#[derive(Drop)]
pub enum Stand {
    /// A head is gathered.
    Gathering { head: Head },
    /// There is a world.
    Playing { session: Session },
}

impl Stand {
    /// Whether a section of a head is open.
    pub(crate) fn is_within(&self) -> bool
        ensures { result ≡ is_within self.now }
    {
        match self {
            Stand::Gathering { head } => head.is_within(),
            Stand::Playing { .. } => false,
        }
    }
}

/// A session, of which so many lines were taken: those of its head, and the events and lines that are
/// skipped behind it.
#[derive(Drop)]
pub struct Serving {
    pub stand: Stand,
    pub lines: u64,
}

impl Serving {
    /// No line is taken yet.
    pub fn new(alloc: Global) -> Serving
        ensures { result ≡ fresh }
    {
        Serving {
            stand: Stand::Gathering {
                head: Head::new(alloc),
            },
            lines: 0,
        }
    }
}
