//! The traces that are printed, read back and judged by their laws.
#![tactic(auto)]

pub mod fault;
pub mod law;
mod line;
mod part;
mod rest;
pub mod trace;
pub mod verdict;
mod word;

pub use fault::{Expected, TraceFault};
pub use trace::read_trace;
pub use verdict::{JudgeFault, Verdict, judge, judge_trace};
