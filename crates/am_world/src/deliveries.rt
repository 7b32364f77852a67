//! The daemon takes packets from the pipe.

ghost use Rattle.std.specs.Prelude.{◌≡◌, ◌≤◌, ◌+◌, ◌∷◌, ◌++◌, Some, None, IfOk, vec_len, vec_capacity};
ghost use Rattle.am_state.specs.declared.obs.Obs.TheVariants.{Delivered};
ghost use Rattle.am_machine.specs.{has_bytes, packet_bytes, deliver_outcome, delivered_at};
ghost use Rattle.am_world.specs.Machine.{whole_state, written, Yields};

use crate::machine::Machine;
use am_daemon::DaemonFault;
use am_daemon::acts::Writing;
use am_machine::{Answer, PacketBytes};
use am_names::{Errno, Token};
use am_state::{KeptPacket, KeptTrigger, Obs, QueuedRow};
use am_wire::write;
use std::alloc::{AllocError, Global};

/// The bytes of a queued packet.
pub fn bytes_of(row: &QueuedRow) -> [u8; 304]
    ensures { result ≡ packet_bytes row.now }
{
    let mut bytes = [0; 304];
    write(&row.packet, &mut bytes);
    bytes
}

/// Whether these are the bytes of a queued packet, if any are handed in.
fn has_bytes(bytes: &Option<PacketBytes>, row: &QueuedRow) -> bool
    ensures { result ≡ has_bytes bytes.now row.now }
{
    match bytes {
        None => true,
        Some(bytes) => {
            let queued = bytes_of(row);
            bytes.as_array().as_slice() == queued.as_slice()
        }
    }
}

/// What is seen of a delivery: that the packet was delivered, and what the book says then.
fn delivered_seen(
    alloc: Global,
    row: &QueuedRow,
    writing: &Option<Writing>,
) -> Result<Vec<Obs>, AllocError>
    ensures { IfOk result (λ seen. seen.items ≡
        Delivered row.now.token row.now.attach row.now.packet ∷ written writing.now) }
{
    let mut seen = Vec::with_capacity(alloc, 2)?;
    let packet = KeptPacket::new(alloc, &row.packet)?;
    seen.push(Obs::Delivered {
        token: row.token,
        attach: row.attach,
        packet,
    })?;
    if let Some(writing) = writing {
        let trigger = KeptTrigger::new(alloc, &writing.trigger)?;
        seen.push(Obs::Recorded {
            trigger,
            entry: writing.entry,
        })?;
    }
    Ok(seen)
}

/// Tells what is seen. There is room for it.
fn tell(trace: &mut Vec<Obs>, seen: Vec<Obs>)
    requires { vec_len trace.old + vec_len seen ≤ vec_capacity trace.old }
    ensures { trace.new.items ≡ trace.old.items ++ seen.items }
{
    for obs in seen {
        trace.push_reserved(obs);
    }
}

impl Machine {
    /// The daemon takes up a queued packet.
    fn take(&mut self, alloc: Global, row: &QueuedRow) -> Result<Answer, Errno>
        ensures { Yields (delivered_at (Some row.now) (whole_state self.old) None)
            (whole_state self.old) result (whole_state self.new) }
    {
        let writing = self.daemon.recording(&row.packet);
        let seen = delivered_seen(alloc, row, &writing)?;
        self.trace.reserve(seen.len())?;
        match self.daemon.take_up(alloc, row.attach, &row.packet) {
            Ok(job) => {
                self.kernel.take_packet(row.token);
                tell(&mut self.trace, seen);
                Ok(Answer::Job { job })
            }
            Err(DaemonFault::NoMemory) => Err(Errno::NoMemory),
            Err(_) => Err(Errno::Stranger),
        }
    }

    /// The daemon takes the queued packet of a token, if these are its bytes.
    pub fn deliver(
        &mut self,
        alloc: Global,
        token: Token,
        bytes: &Option<PacketBytes>,
    ) -> Result<Answer, Errno>
        ensures { Yields (deliver_outcome (whole_state self.old) token bytes.now)
            (whole_state self.old) result (whole_state self.new) }
    {
        let Some(row) = self.kernel.queued(token) else {
            return Err(Errno::Stranger);
        };
        if !has_bytes(bytes, &row) {
            return Err(Errno::Stranger);
        }
        self.take(alloc, &row)
    }
}
