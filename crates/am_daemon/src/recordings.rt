//! What the daemon writes down as it takes up a packet.

ghost use Rattle.std.specs.Prelude.{◌≡◌};
ghost use Rattle.am_job.specs.{is_reply};
ghost use Rattle.am_daemon.specs.Packets.{plan_of_packet};
ghost use Rattle.am_daemon.specs.Recordings.{recording_of};
ghost use Rattle.am_daemon.specs.State.{rows_of};

use crate::acts::Writing;
use crate::daemon::Daemon;
use crate::packets::{mounted_in, pending, trigger_of};
use am_names::TokenKind;
use am_wire::Packet;

impl Daemon {
    /// Whether the job of a packet would be a reply alone: what is asked for is so already.
    fn only_replies(&self, packet: &Packet) -> bool
        ensures { result ≡ is_reply (plan_of_packet (rows_of self.now) packet.now) }
    {
        let mounted = mounted_in(&self.record(&trigger_of(packet)));
        match packet.kind.token_kind() {
            TokenKind::Missing => mounted.is_some(),
            TokenKind::Expire => mounted.is_none(),
        }
    }

    /// What `take_up` would write into the book for a packet. Nothing changes.
    pub fn recording(&self, packet: &Packet) -> Option<Writing>
        ensures { result ≡ recording_of (rows_of self.now) packet.now }
    {
        if self.only_replies(packet) {
            return None;
        }
        let trigger = trigger_of(packet);
        let mounted = mounted_in(&self.record(&trigger));
        Some(Writing {
            trigger,
            entry: pending(packet.kind.token_kind(), packet.token, mounted),
        })
    }
}
