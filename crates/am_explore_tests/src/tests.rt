//! Scenes, how many orders they have, and what can be and can't be in any of them.

mod counts;
mod lines;
mod orders;
mod parts;
mod scenes;
