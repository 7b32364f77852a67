//! Threads are joined, each test ends by itself, and what it says depends on no schedule.

mod callers;
mod crowds;
mod deaths;
mod ends;
mod events;
mod histories;
mod packets;
mod pipes;
mod releases;
mod rows;
mod runner;
mod shared;
mod sizes;
mod worlds;
