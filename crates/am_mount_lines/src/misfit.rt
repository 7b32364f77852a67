//! Where a line isn't that of a mount.

use std::alloc::AllocError;
use thiserror::Error;

/// What a line of a mountinfo was expected to go on with.
#[derive(Clone, Copy, Debug, PartialEq, Eq, Error)]
pub enum Expected {
    #[error("the number of a mount")]
    Number,
    #[error("the number of the mount that it is mounted on")]
    Parent,
    #[error("a device")]
    Device,
    #[error("the folder of the device that is shown")]
    Root,
    #[error("the path of the mount")]
    Path,
    #[error("the options of the mount")]
    Options,
    #[error("the number of a peer group")]
    Group,
    #[error("- behind the optional fields")]
    Dash,
    #[error("the type of the file system")]
    Kind,
}

/// Where a line isn't as expected: at the word before which so many stand, or behind them.
#[derive(Clone, Copy, Debug, PartialEq, Eq)]
pub struct Misfit {
    pub place: usize,
    pub expected: Expected,
}

/// Why a line isn't read.
#[derive(Clone, Copy, Debug, PartialEq, Eq)]
pub enum LineFault {
    Misfit { misfit: Misfit },
    NoMemory,
}

impl From<Misfit> for LineFault {
    ghost use Rattle.std.specs.Prelude.{◌≡◌};
    ghost use Rattle.am_mount_lines.specs.declared.misfit.LineFault.TheVariants as faults;

    ghost from_gives = { λ misfit fault. fault ≡ faults.Misfit misfit };

    fn from(misfit: Misfit) -> LineFault {
        LineFault::Misfit { misfit }
    }
}

impl From<AllocError> for LineFault {
    ghost use Rattle.std.specs.Prelude.{◌≡◌};
    ghost use Rattle.am_mount_lines.specs.declared.misfit.LineFault.TheVariants as faults;

    ghost from_gives = { λ _ fault. fault ≡ faults.NoMemory };

    fn from(_error: AllocError) -> LineFault {
        LineFault::NoMemory
    }
}
