//! Mountinfo of one or more namespaces, and a script that builds the same mounts. Which events build mounts is a search,
//! trusted in nothing: its script is played as it is written, and its world compared.
#![tactic(auto)]

mod firsts;
mod imports;
mod likeness;
mod notes;
mod replay;
mod told;

pub use imports::{ImportFault, import};
