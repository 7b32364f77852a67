//! How far the numbers may go.

ghost use Rattle.std.specs.Prelude.{◌≡◌, ◌↔◌, IsTrue};
ghost use Rattle.am_names.specs.Limits.{IsInRange, is_in_range};

use crate::number::Seconds;

/// The greatest mount number, the most waits at one time, the greatest token: going past one is
/// ENOSPC. And how long a failure lasts.
#[derive(Clone, Copy, Debug, PartialEq)]
pub struct Limits {
    /// 1 to 4,294,967,295.
    pub mounts: u32,
    /// 1 to 65,536.
    pub waiters: u32,
    /// 1 to 4,294,967,295.
    pub tokens: u32,
    /// For so many seconds after a notification is acknowledged with FAIL, walks at its trigger
    /// fail with the same error, and the daemon isn't notified again. Any number.
    pub negative: Seconds,
}

impl Limits {
    /// Whether each limit is in its range.
    pub fn is_in_range(&self) -> bool
        ensures test { result ≡ is_in_range self.now }
        ensures range { IsTrue result ↔ IsInRange self.now }
    {
        1 <= self.mounts && 1 <= self.waiters && self.waiters <= 65_536 && 1 <= self.tokens
    }
}
