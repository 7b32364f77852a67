//! The kernel's half of an automounter: walks, requests and mounts over many namespaces
//! (autofs.rst, sharedsubtree.rst).
#![tactic(auto)]

mod administration;
mod attachment_table;
mod attachments;
mod attempt;
mod catatonic;
mod copies;
mod daemon_mounts;
mod directories;
mod expire;
mod holder;
pub mod kernel;
mod lookups;
mod namespaces;
mod new_fs;
mod observations;
mod packet;
mod packet_queue;
mod previews;
pub mod progress;
pub mod request;
mod requests;
pub mod row;
mod table;
mod waited;
mod walker;
mod walks;

pub use kernel::Kernel;
pub use new_fs::NewAutofs;
pub use progress::{Attempt, Progress};
pub use request::Granted;
pub use row::{Attached, WalkRow};
