//! A reader that recalls the lines that it gave last, in memory that doesn't grow.
#![tactic(auto)]

pub mod recalled;
pub mod recalling;

pub use recalled::Recalled;
pub use recalling::Recalling;
