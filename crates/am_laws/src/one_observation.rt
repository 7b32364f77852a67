//! Tests of one observation, and of what it holds.

ghost use Rattle.std.specs.Prelude.{◌≡◌};
ghost use Rattle.am_names.specs.{same_trigger, same_name};
ghost use Rattle.am_wire.specs.{kind_number};
ghost use Rattle.am_laws.specs.OneObservation.{trigger_name, trigger_of, is_expire, expires, is_same_packet, is_no_entry_fail, is_same_status, is_fs, is_released, queues, queues_as, waits, delivers, releases, closes, closes_as, unqueues, enters, leaves};

use am_names::{Attach, FailNo, FsId, MountId, Name, Status, Token, TokenKind, Trigger, WalkerId};
use am_state::Obs;
use am_wire::Packet;

fn is_expire(kind: TokenKind) -> bool
    ensures { result ≡ is_expire kind }
{
    match kind {
        TokenKind::Missing => false,
        TokenKind::Expire => true,
    }
}

/// Whether this is the name of the packet's trigger.
fn is_name_in(packet: &Packet, name: &Option<Name>) -> bool
    ensures { result ≡ same_name (trigger_name packet.now) name.now }
{
    match name {
        None => !packet.kind.is_indirect(),
        Some(name) => packet.kind.is_indirect() && packet.name.as_bytes() == name.as_bytes(),
    }
}

/// Whether the packet is about this trigger.
fn is_about(packet: &Packet, trigger: &Trigger) -> bool
    ensures { result ≡ same_trigger (trigger_of packet.now) trigger.now }
{
    packet.dev == trigger.fs && is_name_in(packet, &trigger.name)
}

/// Whether the packet asks to expire this trigger.
pub fn expires(trigger: &Trigger, packet: &Packet) -> bool
    ensures { result ≡ expires trigger.now packet.now }
{
    is_expire(packet.kind.token_kind()) && is_about(packet, trigger)
}

/// Whether both packets say the same.
fn is_same_packet(one: &Packet, other: &Packet) -> bool
    ensures { result ≡ is_same_packet one.now other.now }
{
    one.kind.number() == other.kind.number()
        && one.token == other.token
        && one.dev == other.dev
        && one.ino == other.ino
        && one.uid == other.uid
        && one.gid == other.gid
        && one.pid == other.pid
        && one.tgid == other.tgid
        && one.name.as_bytes() == other.name.as_bytes()
}

/// Whether it is the status with which catatonic mode releases: a failure with ENOENT.
fn is_no_entry_fail(status: Status) -> bool
    ensures { result ≡ is_no_entry_fail status }
{
    match status {
        Status::Ready => false,
        Status::Fail(no) => matches!(no, FailNo::ENOENT),
    }
}

/// Whether both are ready, or both fail with the same error.
fn is_same_status(one: Status, other: Status) -> bool
    ensures { result ≡ is_same_status one other }
{
    match one {
        Status::Ready => matches!(other, Status::Ready),
        Status::Fail(a) => match other {
            Status::Ready => false,
            Status::Fail(b) => a.number() == b.number(),
        },
    }
}

/// Whether the file system is known, and this one.
pub fn is_fs(known: &Option<FsId>, fs: FsId) -> bool
    ensures { result ≡ is_fs known.now fs }
{
    match known {
        None => false,
        Some(known) => *known == fs,
    }
}

pub fn is_released(o: &Obs) -> bool
    ensures { result ≡ is_released o.now }
{
    matches!(o, Obs::Released { .. })
}

/// Queued of this token.
pub fn queues(token: Token, o: &Obs) -> bool
    ensures { result ≡ queues token o.now }
{
    match o {
        Obs::Queued { token: other, .. } => *other == token,
        _ => false,
    }
}

/// The very Queued of this token, attachment and packet.
pub fn queues_as(token: Token, attach: Attach, packet: &Packet, o: &Obs) -> bool
    ensures { result ≡ queues_as token attach packet.now o.now }
{
    match o {
        Obs::Queued {
            token: k,
            attach: a,
            packet: p,
        } => *k == token && *a == attach && is_same_packet(&p.to_packet(), packet),
        _ => false,
    }
}

/// Waits of this walker on this token.
pub fn waits(walker: WalkerId, token: Token, o: &Obs) -> bool
    ensures { result ≡ waits walker token o.now }
{
    match o {
        Obs::Waits {
            walker: w,
            token: k,
        } => *w == walker && *k == token,
        _ => false,
    }
}

/// Delivered of this token.
pub fn delivers(token: Token, o: &Obs) -> bool
    ensures { result ≡ delivers token o.now }
{
    match o {
        Obs::Delivered { token: other, .. } => *other == token,
        _ => false,
    }
}

/// Released of this walker from this token.
pub fn releases(walker: WalkerId, token: Token, o: &Obs) -> bool
    ensures { result ≡ releases walker token o.now }
{
    match o {
        Obs::Released {
            walker: w,
            token: k,
            ..
        } => *w == walker && *k == token,
        _ => false,
    }
}

/// What closes a token of this file system.
pub fn closes(token: Token, fs: &Option<FsId>, o: &Obs) -> bool
    ensures { result ≡ closes token fs.now o.now }
{
    match o {
        Obs::Answered { token: other, .. } => *other == token,
        Obs::Catatonic { fs: other } => is_fs(fs, *other),
        _ => false,
    }
}

/// What closes a token of this file system and gives its waiters this status.
pub fn closes_as(token: Token, fs: &Option<FsId>, status: Status, o: &Obs) -> bool
    ensures { result ≡ closes_as token fs.now status o.now }
{
    match o {
        Obs::Answered {
            token: k,
            status: s,
        } => *k == token && is_same_status(*s, status),
        Obs::Catatonic { fs: f } => is_fs(fs, *f) && is_no_entry_fail(status),
        _ => false,
    }
}

/// What takes a token's packet out of the queue.
pub fn unqueues(token: Token, fs: FsId, o: &Obs) -> bool
    ensures { result ≡ unqueues token fs o.now }
{
    match o {
        Obs::Delivered { token: other, .. } => *other == token,
        Obs::Catatonic { fs: other } => *other == fs,
        _ => false,
    }
}

/// Entered of this mount.
pub fn enters(mount: MountId, o: &Obs) -> bool
    ensures { result ≡ enters mount o.now }
{
    match o {
        Obs::Entered { mount: other, .. } => *other == mount,
        _ => false,
    }
}

/// Left of this mount.
pub fn leaves(mount: MountId, o: &Obs) -> bool
    ensures { result ≡ leaves mount o.now }
{
    match o {
        Obs::Left { mount: other, .. } => *other == mount,
        _ => false,
    }
}
