//! Walks along paths: where they arrive, and what they meet at mount traps (autofs.rst).
#![tactic(auto)]

mod follow;
mod meet;
mod scene;
mod stop;

pub use follow::{position, resolve};
pub use stop::{Stop, Walk};
