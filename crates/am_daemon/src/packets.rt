//! What a packet asks for.

ghost use Rattle.std.specs.Prelude.{◌≡◌};
ghost use Rattle.am_daemon.specs.Packets.{trigger_of, mounted_in, pending, is_pending};

use am_names::{MountId, Name, Token, TokenKind, Trigger};
use am_state::Record;
use am_wire::Packet;

/// The trigger of a packet: a name in the root of the file system, or the root itself.
pub(crate) fn trigger_of(packet: &Packet) -> Trigger
    ensures { result ≡ trigger_of packet.now }
{
    let name = if packet.kind.is_indirect() {
        Name::read(packet.name.as_bytes()).ok()
    } else {
        None
    };
    Trigger {
        fs: packet.dev,
        name,
    }
}

/// What is mounted, where that is written down.
pub(crate) fn mounted_in(entry: &Option<Record>) -> Option<MountId>
    ensures { result ≡ mounted_in entry.now }
{
    match entry {
        Some(Record::Mounted { mount }) => Some(*mount),
        None | Some(Record::Mounting { .. }) | Some(Record::Unmounting { .. }) => None,
    }
}

/// What the book says of the trigger while the job goes on.
pub(crate) fn pending(kind: TokenKind, token: Token, mounted: Option<MountId>) -> Option<Record>
    ensures { result ≡ pending kind token mounted }
{
    match (kind, mounted) {
        (TokenKind::Missing, _) => Some(Record::Mounting { token }),
        (TokenKind::Expire, Some(mount)) => Some(Record::Unmounting { token, mount }),
        (TokenKind::Expire, None) => None,
    }
}

/// Whether the daemon mounts or unmounts here.
pub(crate) fn is_pending(entry: &Option<Record>) -> bool
    ensures { result ≡ is_pending entry.now }
{
    match entry {
        Some(Record::Mounting { .. }) | Some(Record::Unmounting { .. }) => true,
        None | Some(Record::Mounted { .. }) => false,
    }
}
