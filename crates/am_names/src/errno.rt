//! Why a call is refused, or has failed.

ghost use Rattle.std.specs.Prelude.{◌≡◌};
ghost use Rattle.am_names.specs.declared.errno.Errno.TheVariants.{NoMemory};
ghost use Rattle.am_names.specs.Errno.{errno_number};

use std::alloc::{AllocError, AllocFailed};
use thiserror::Error;

/// The errors of all calls. The first nine are those of errno(3); the numbers are this project's.
#[derive(Clone, Copy, Debug, PartialEq, Error)]
pub enum Errno {
    /// No such path, namespace, directory or mount.
    #[error("ENOENT")]
    ENOENT = 1,
    /// Not for this attachment, or not for an administrator.
    #[error("EPERM")]
    EPERM,
    /// In use, or mounted on.
    #[error("EBUSY")]
    EBUSY,
    /// There already.
    #[error("EEXIST")]
    EEXIST,
    /// Not what the call takes.
    #[error("EINVAL")]
    EINVAL,
    /// Nothing to do now: the pipe is full, or nothing has expired.
    #[error("EAGAIN")]
    EAGAIN,
    /// The daemon's mount can't be reached from here, or the walk began too often.
    #[error("ELOOP")]
    ELOOP,
    /// A name or a path is too long.
    #[error("ENAMETOOLONG")]
    ENAMETOOLONG,
    /// A limit is reached, or the numbers of a sort are exhausted.
    #[error("ENOSPC")]
    ENOSPC,
    /// Out of memory: nothing has changed.
    #[error("NoMemory")]
    NoMemory,
    /// The wait is not answered yet.
    #[error("NotReleased")]
    NotReleased,
    /// Not a packet that is queued.
    #[error("Stranger")]
    Stranger,
}

impl Errno {
    /// The number that scripts print, from 1.
    pub fn number(self) -> u8
        ensures { result ≡ errno_number self }
    {
        self as u8
    }
}

impl From<AllocError> for Errno {
    ghost from_gives = { λ _ e. e ≡ NoMemory };

    fn from(_error: AllocError) -> Errno {
        Errno::NoMemory
    }
}

impl<T: Drop> From<AllocFailed<T>> for Errno {
    ghost from_gives = { λ _ e. e ≡ NoMemory };

    fn from(_error: AllocFailed<T>) -> Errno {
        Errno::NoMemory
    }
}
