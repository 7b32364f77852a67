//! Peer groups of mounts: which mounts receive propagation from another, and the changes of a
//! mount's state (sharedsubtree.rst).
#![tactic(auto)]

pub mod groups;
mod indexes;
mod left_out;
mod lifting;
pub mod mount_state;
mod tables;

pub use groups::Groups;
pub use mount_state::{Change, MountState};
