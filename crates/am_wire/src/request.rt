//! What the daemon and an administrator ask of the kernel.

use am_names::{Attach, FailNo, FsId, PipeState, Seconds, Token, WalkerId};

/// A request about an autofs (autofs.rst, "Communicating with autofs: root directory ioctls" and
/// "Communicating with autofs: char-device ioctls").
#[derive(Clone, Copy, PartialEq)]
pub enum Request {
    /// AUTOFS_IOC_READY: the notification with this token has been dealt with.
    Ready {
        attach: Attach,
        token: Token,
    },
    /// AUTOFS_IOC_FAIL: it has been dealt with, and failed.
    Fail {
        attach: Attach,
        token: Token,
        /// The error that the walks fail with.
        no: FailNo,
    },
    /// AUTOFS_IOC_CATATONIC: the daemon is notified no more.
    Catatonic {
        attach: Attach,
        fs: FsId,
    },
    /// AUTOFS_IOC_SETTIMEOUT: seconds without use until a mount may expire, 0 for never.
    SetTimeout {
        attach: Attach,
        fs: FsId,
        timeout: u32,
    },
    /// AUTOFS_IOC_EXPIRE_MULTI: notify the daemon of one mount that may go; the walker waits
    /// for the answer. `immediate` is AUTOFS_EXP_IMMEDIATE: don't look at the timeout.
    Expire {
        walker: WalkerId,
        fs: FsId,
        now: Seconds,
        immediate: bool,
        pipe: PipeState,
    },
    /// AUTOFS_DEV_IOCTL_SETPIPEFD: attach a daemon again to a catatonic file system.
    SetPipe {
        fs: FsId,
    },
}
