//! The daemon's requests and calls as a table: for each its tests in their order, each with the
//! error that is told where it is the first to fail (autofs.rst, "Communicating with autofs: root
//! directory ioctls"). A test of mounts takes memory, and one may give what the call goes on with:
//! such tests come after the table's, in the call itself.

/// The call is refused with the error of the first test that fails.
macro_rules! refuse {
    ($($holds:expr, $errno:ident;)*) => {
        $(if !$holds {
            return Err(Errno::$errno);
        })*
    };
}

/// The error of the first test that fails is told.
macro_rules! finish_expiry {
    ($($holds:expr, $errno:ident;)*) => {
        $(if !$holds {
            return Some(Errno::$errno);
        })*
    };
}

/// The tests of each call, in their order.
macro_rules! table {
    ($tests:ident; answer($kernel:expr, $attach:expr, $token:expr)) => {
        $tests! {
            $kernel.fs_of_attach($attach).is_some(), EPERM;
            $kernel.token_fs($token) == $kernel.fs_of_attach($attach), EINVAL;
        }
    };
    ($tests:ident; catatonic($kernel:expr, $attach:expr, $fs:expr)) => {
        $tests! { $kernel.is_current($fs, $attach), EPERM; }
    };
    ($tests:ident; admin_catatonic($kernel:expr, $fs:expr)) => {
        $tests! { $kernel.is_autofs($fs), EINVAL; }
    };
    ($tests:ident; set_timeout($kernel:expr, $attach:expr, $fs:expr)) => {
        $tests! { $kernel.is_current($fs, $attach), EPERM; }
    };
    ($tests:ident; set_pipe($kernel:expr, $fs:expr)) => {
        $tests! {
            $kernel.is_autofs($fs), EINVAL;
            !$kernel.is_live($fs), EBUSY;
            $kernel.last_attach < u32::MAX, ENOSPC;
        }
    };
    ($tests:ident; expire($kernel:expr, $walker:expr, $fs:expr)) => {
        $tests! {
            $kernel.is_autofs($fs), EINVAL;
            !$kernel.is_busy($walker), EINVAL;
        }
    };
    ($tests:ident; mkdir($kernel:expr, $attach:expr, $trigger:expr)) => {
        $tests! {
            $kernel.is_current($trigger.fs, $attach), EPERM;
            $kernel.is_indirect($trigger), EINVAL;
            !$kernel.triggers.as_triggers().made($trigger), EEXIST;
        }
    };
    ($tests:ident; rmdir($kernel:expr, $attach:expr, $trigger:expr)) => {
        $tests! {
            $kernel.is_current($trigger.fs, $attach), EPERM;
            $kernel.is_indirect($trigger), EINVAL;
            $kernel.triggers.as_triggers().made($trigger), ENOENT;
        }
    };
    ($tests:ident; mount_on($kernel:expr, $attach:expr, $trigger:expr)) => {
        $tests! {
            $kernel.is_current($trigger.fs, $attach), EPERM;
            $kernel.is_there($trigger), ENOENT;
        }
    };
    ($tests:ident; umount_from($kernel:expr, $attach:expr, $trigger:expr)) => {
        $tests! { $kernel.is_current($trigger.fs, $attach), EPERM; }
    };
}

pub(crate) use finish_expiry;
pub(crate) use refuse;
pub(crate) use table;
