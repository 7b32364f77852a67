//! One language for all examples: tables of steps, and one player.

mod acts;
mod crowd;
mod daemons;
mod expiries;
mod failures;
mod groups;
mod jobs;
mod kernel;
mod ordered;
mod parts;
mod rows;
mod script;
mod tokens;
mod trap;
mod walks;
mod worlds;
