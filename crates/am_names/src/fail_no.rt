//! The number of a failure.

ghost use Rattle.std.specs.Prelude.{◌≡◌};
ghost use Rattle.am_names.specs.FailNo.{errno_of, fail_number, fail_no_read, fail_no_numbered};

use crate::errno::Errno;

/// The error with which a mount or an unmount has failed: one of the first nine of `Errno`, by the
/// same name and number (autofs.rst, "Communicating with autofs: root directory ioctls",
/// AUTOFS_IOC_FAIL).
#[derive(Clone, Copy, Debug, PartialEq)]
pub enum FailNo {
    /// The failure that AUTOFS_IOC_FAIL tells; AUTOFS_DEV_IOCTL_FAIL takes a status of its own.
    ENOENT = 1,
    EPERM,
    EBUSY,
    EEXIST,
    EINVAL,
    EAGAIN,
    ELOOP,
    ENAMETOOLONG,
    ENOSPC,
}

/// The failure of this number, if there is one.
fn fail_no_numbered(number: u8) -> Option<FailNo>
    ensures { result ≡ fail_no_numbered number }
{
    match number {
        1 => Some(FailNo::ENOENT),
        2 => Some(FailNo::EPERM),
        3 => Some(FailNo::EBUSY),
        4 => Some(FailNo::EEXIST),
        5 => Some(FailNo::EINVAL),
        6 => Some(FailNo::EAGAIN),
        7 => Some(FailNo::ELOOP),
        8 => Some(FailNo::ENAMETOOLONG),
        9 => Some(FailNo::ENOSPC),
        _ => None,
    }
}

impl FailNo {
    /// The failure of this number, from 1 to 9. Another number is EINVAL.
    pub fn read(number: u8) -> Result<FailNo, Errno>
        ensures { result ≡ fail_no_read number }
    {
        match fail_no_numbered(number) {
            Some(no) => Ok(no),
            None => Err(Errno::EINVAL),
        }
    }

    /// Its number, from 1.
    pub fn number(self) -> u8
        ensures { result ≡ fail_number self }
    {
        self as u8
    }

    /// The error of the same name.
    pub fn errno(self) -> Errno
        ensures { result ≡ errno_of self }
    {
        match self {
            FailNo::ENOENT => Errno::ENOENT,
            FailNo::EPERM => Errno::EPERM,
            FailNo::EBUSY => Errno::EBUSY,
            FailNo::EEXIST => Errno::EEXIST,
            FailNo::EINVAL => Errno::EINVAL,
            FailNo::EAGAIN => Errno::EAGAIN,
            FailNo::ELOOP => Errno::ELOOP,
            FailNo::ENAMETOOLONG => Errno::ENAMETOOLONG,
            FailNo::ENOSPC => Errno::ENOSPC,
        }
    }
}
