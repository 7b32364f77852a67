//! Tables of texts in and what is expected out, and one player.

mod lines;
mod maps;
mod masters;
mod memory;
mod names;
mod packets;
mod table;
