//! What the daemon is asked for, and what it is told with.

ghost use Rattle.std.specs.Prelude.{◌≡◌};
ghost use Rattle.am_names.specs.Trigger.{same_trigger, same_name};

use crate::fail_no::FailNo;
use crate::name::Name;
use crate::number::FsId;

/// A mount trap of an autofs: a top-level name of an indirect one, the root of a direct one
/// (autofs.rst, "Mount Traps"). It is the same at every location of the file system.
#[derive(Clone, Copy, Debug, PartialEq, Eq, Hash)]
pub struct Trigger {
    pub fs: FsId,
    /// None for a direct trigger.
    pub name: Option<Name>,
}

impl Trigger {
    /// Whether both are one trigger.
    pub fn is_same(&self, other: &Trigger) -> bool
        ensures { result ≡ same_trigger self.now other.now }
    {
        if self.fs != other.fs {
            return false;
        }
        is_same_name(&self.name, &other.name)
    }
}

fn is_same_name(one: &Option<Name>, other: &Option<Name>) -> bool
    ensures { result ≡ same_name one.now other.now }
{
    match (one, other) {
        (None, None) => true,
        (Some(name), Some(other)) => name.as_bytes() == other.as_bytes(),
        (None, Some(_)) | (Some(_), None) => false,
    }
}

/// How the daemon acknowledges a notification
/// (autofs.rst, "Communicating with autofs: root directory ioctls").
#[derive(Clone, Copy, Debug, PartialEq)]
pub enum Status {
    Ready,
    /// With the error that the walks fail with.
    Fail(FailNo),
}

/// What the kernel meets when it notifies the daemon
/// (autofs.rst, "Communicating with autofs: the event pipe").
#[derive(Clone, Copy, Debug, PartialEq)]
pub enum PipeState {
    /// One more packet fits.
    Room,
    /// No packet fits now.
    Full,
    /// Nobody reads: the file system becomes catatonic.
    Gone,
}
