//! What a pipe carries.

use am_names::{Attach, Token};

/// A packet in the pipe: its token, the attachment for which the kernel queued it, and its bytes
/// (auto_fs.h, struct autofs_v5_packet: 300 bytes, and 4 behind them on a machine of 64 bits).
#[derive(Clone, Copy, PartialEq, Debug)]
pub struct Note {
    pub token: Token,
    pub attach: Attach,
    pub bytes: [u8; 304],
}
