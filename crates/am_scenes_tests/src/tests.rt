//! Tables of scenes in and what is expected out, and one player.

mod faults;
mod orders;
mod places;
mod scenes;
mod table;
