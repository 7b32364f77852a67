//! What the daemon is asked for, and for which sort of trigger.

ghost use Rattle.std.specs.Prelude.{◌≡◌};
ghost use Rattle.am_wire.specs.PacketType.{kind_number, kind_read, kind_of, is_indirect, token_kind};

use am_names::TokenKind;

/// The `type` of a packet (auto_fs.h, `enum autofs_notify`).
#[derive(Clone, Copy, Debug, PartialEq)]
pub enum PacketType {
    /// autofs_ptype_missing_indirect: a name is looked up that nothing is mounted on.
    MissingIndirect,
    /// autofs_ptype_expire_indirect: what is mounted on a name has expired.
    ExpireIndirect,
    /// autofs_ptype_missing_direct: nothing is mounted on the root of the file system.
    MissingDirect,
    /// autofs_ptype_expire_direct: what is mounted on the root has expired.
    ExpireDirect,
}

impl PacketType {
    /// The kind of a packet for a token of this kind, for a direct trigger or an indirect one.
    pub fn of(kind: TokenKind, direct: bool) -> PacketType
        ensures { result ≡ kind_of kind direct }
    {
        match (kind, direct) {
            (TokenKind::Missing, false) => PacketType::MissingIndirect,
            (TokenKind::Expire, false) => PacketType::ExpireIndirect,
            (TokenKind::Missing, true) => PacketType::MissingDirect,
            (TokenKind::Expire, true) => PacketType::ExpireDirect,
        }
    }

    /// The number that stands in the packet.
    pub fn number(self) -> u32
        ensures { result ≡ kind_number self }
    {
        match self {
            PacketType::MissingIndirect => 3,
            PacketType::ExpireIndirect => 4,
            PacketType::MissingDirect => 5,
            PacketType::ExpireDirect => 6,
        }
    }

    /// The kind with this number.
    pub fn read(number: u32) -> Option<PacketType>
        ensures { result ≡ kind_read number }
    {
        match number {
            3 => Some(PacketType::MissingIndirect),
            4 => Some(PacketType::ExpireIndirect),
            5 => Some(PacketType::MissingDirect),
            6 => Some(PacketType::ExpireDirect),
            _ => None,
        }
    }

    /// Whether the trigger is a name in the root of the file system, and not the root itself.
    pub fn is_indirect(self) -> bool
        ensures { result ≡ is_indirect self }
    {
        match self {
            PacketType::MissingIndirect | PacketType::ExpireIndirect => true,
            PacketType::MissingDirect | PacketType::ExpireDirect => false,
        }
    }

    /// Whether a mount is asked for, or its end.
    pub fn token_kind(self) -> TokenKind
        ensures { result ≡ token_kind self }
    {
        match self {
            PacketType::MissingIndirect | PacketType::MissingDirect => TokenKind::Missing,
            PacketType::ExpireIndirect | PacketType::ExpireDirect => TokenKind::Expire,
        }
    }
}
