//! Mounts, unmounts and namespaces over shared subtrees: what propagates, and where to
//! (sharedsubtree.rst).
#![tactic(auto)]

pub mod in_use;
pub mod subtree;

pub use in_use::InUse;
pub use subtree::{CopyForm, NewNamespace, Subtree};
