//! Bytes to packets.

ghost use Rattle.std.specs.Prelude.{◌≡◌, ◌≤◌, ◌+◌, length, take, drop, true, IfOk, IfErr};
ghost use Rattle.am_wire.specs.Fields.{Fields, fields_of_ref};
ghost use Rattle.am_wire.specs.Format.{IsPacket, IsOnlyPacket, IsNoPacket, FailsFirst};
ghost use Rattle.am_wire.specs.Format.{has_length, may_have_length, may_have_name};
ghost use Rattle.am_wire.specs.Head.{IsHead};

use crate::fault::WireFault;
use crate::head::Head;
use crate::packet::PacketRef;
use crate::packet_type::PacketType;
use am_names::{FsId, Name, Token};
use byteorder::{ByteOrder, LittleEndian};

macro_rules! read_fields {
    (($bytes:ident); $($field:ident $at:literal $read:ident $write:ident,)*) => {
        Head { $($field: LittleEndian::$read(&$bytes[$at..]),)* }
    };
}

#[tactic(auto, unfolding(crate::specs::Format::word_at, crate::specs::Format::long_at))]
fn read_head(bytes: &[u8]) -> Head
    requires { 300 ≤ length bytes.now }
    ensures { IsHead bytes.now result }
{
    crate::table::fields!(read_fields(bytes))
}

fn has_length(bytes: &[u8]) -> bool
    ensures value { result ≡ has_length bytes.now }
    ensures long { result ≡ true → 300 ≤ length bytes.now }
{
    bytes.len() == 300 || bytes.len() == 304
}

/// The bytes of the name.
fn name_of(bytes: &[u8], len: u32) -> &[u8]
    requires { 44 + len ≤ length bytes.now }
    ensures { result.now ≡ take len (drop 44 bytes.now) }
{
    &bytes[44..44 + len as usize]
}

pub(crate) fn may_have_length(kind: PacketType, len: u32) -> bool
    ensures value { result ≡ may_have_length kind len }
    ensures short { result ≡ true → len ≤ 255 }
{
    len <= 255 && !(kind.is_indirect() && len == 0)
}

pub(crate) fn may_have_name(kind: PacketType, name: &[u8]) -> bool
    ensures { result ≡ may_have_name kind name.now }
{
    !kind.is_indirect() || Name::read(name).is_ok()
}

/// The packet that the bytes are, or the first test that they fail. What stands behind the name
/// is not looked at.
pub fn read(bytes: &[u8]) -> Result<PacketRef<'_>, WireFault>
    ensures ok { IfOk result (λ p. IsPacket (fields_of_ref p) bytes.now) }
    ensures only { IfOk result (λ p. IsOnlyPacket (fields_of_ref p) bytes.now) }
    ensures short { IfOk result (λ p. length p.name.now ≤ 255) }
    ensures err { IfErr result (λ e. FailsFirst e bytes.now) }
    ensures none { IfErr result (λ e. IsNoPacket bytes.now) }
{
    if !has_length(bytes) {
        return Err(WireFault::Length);
    }
    let head = read_head(bytes);
    if head.proto_version != 5 {
        return Err(WireFault::Version);
    }
    let Some(kind) = PacketType::read(head.kind) else {
        return Err(WireFault::Kind);
    };
    if !may_have_length(kind, head.len) {
        return Err(WireFault::NameLength);
    }
    let name = name_of(bytes, head.len);
    if !may_have_name(kind, name) {
        return Err(WireFault::BadName);
    }
    Ok(PacketRef {
        kind,
        token: Token(head.token),
        dev: FsId(head.dev),
        ino: head.ino,
        uid: head.uid,
        gid: head.gid,
        pid: head.pid,
        tgid: head.tgid,
        name,
    })
}
