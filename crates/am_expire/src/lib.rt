//! Which mounts are in use, so that they may neither go nor expire, and which trigger expires next
//! (autofs.rst, "Mountpoint expiry").
#![tactic(auto)]

pub mod expiry;
pub mod order;
pub mod ordered;
pub mod uses;

pub use expiry::{pick, pick_counted};
pub use ordered::OrderedTriggers;
pub use uses::{Use, Uses};
