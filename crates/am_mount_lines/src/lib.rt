//! The lines of a mountinfo (proc(5), "/proc/pid/mountinfo"), as far as the model has them.
#![tactic(auto)]

mod escapes;
mod fields;
pub mod law;
pub mod misfit;
pub mod mount_line;
mod number;
mod tail;
pub mod trap;
mod words;

pub use law::escapes_read_back;
pub use misfit::{Expected, LineFault, Misfit};
pub use mount_line::{MountLine, read_mount};
pub use trap::Trap;
