//! Where walks end, and what they pass on their way.

mod administrator;
mod failed;
mod paths;
mod traps;
