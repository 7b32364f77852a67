//! For a daemon's author, for that of a mount layer, and for that of tests, in one thread and in more.

mod daemon;
mod mounts;
mod shared;
mod threads;
mod worlds;
