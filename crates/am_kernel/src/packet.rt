//! The packet that tells the daemon of a token.

ghost use Rattle.std.specs.Prelude.{◌≡◌};
ghost use Rattle.am_kernel.specs.Walks.{packet_name, packet_for};

use am_names::{Name, Token, TokenKind, Trigger, WalkerId};
use am_wire::{Packet, PacketName, PacketType};

/// The name in the packet for a trigger.
fn packet_name(name: &Option<Name>) -> PacketName
    ensures { result ≡ packet_name name.now }
{
    match name {
        Some(name) => PacketName::new(name.as_bytes()),
        None => PacketName::new(b"direct"),
    }
}

/// The packet for a token (auto_fs.h, struct autofs_v5_packet).
pub fn packet_for(kind: TokenKind, token: Token, walker: WalkerId, trigger: &Trigger) -> Packet
    ensures { result ≡ packet_for kind token walker trigger.now }
{
    Packet {
        kind: PacketType::of(kind, trigger.name.is_none()),
        token,
        dev: trigger.fs,
        ino: 1,
        uid: 0,
        gid: 0,
        pid: walker.0,
        tgid: walker.0,
        name: packet_name(&trigger.name),
    }
}
