//! A row of the kernel's that others cite too.

use am_names::{Attach, Token};
use am_wire::Packet;

/// A packet in the pipe, under the attachment whose pipe that is.
#[derive(Clone, Copy)]
pub struct QueuedRow {
    pub token: Token,
    pub attach: Attach,
    pub packet: Packet,
}
