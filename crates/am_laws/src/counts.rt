//! What is counted over a trace.

ghost use Rattle.std.specs.Prelude.{◌≡◌};
ghost use Rattle.std.specs.List.{list_any, list_all, count_by};
ghost use Rattle.am_laws.specs.OneObservation.{queues, waits, delivers, releases, is_released, enters, leaves};
ghost use Rattle.am_laws.specs.Counts.{packet_of, fs_of_token};
ghost use Rattle.am_laws.specs.Tests.{is_open, is_in_queue, is_unused, asks, is_in_row};

use crate::one_observation::{
    closes, delivers, enters, expires, is_released, leaves, queues, queues_as, releases, unqueues,
    waits,
};
use am_names::{Attach, FsId, MountId, Token, Trigger, WalkerId};
use am_state::Obs;
use am_wire::Packet;

/// The file system of a token: that of the packet in its first Queued.
pub fn fs_of_token(token: Token, seen: &[Obs]) -> Option<FsId>
    ensures { result ≡ fs_of_token token seen.now }
{
    let mut rest = seen;
    while let Some((o, later)) = rest.split_first() {
        if let Obs::Queued {
            token: k,
            packet,
            ..
        } = o
            && *k == token
        {
            return Some(packet.dev());
        }
        rest = later;
    }
    None
}

/// The packet in a token's first Queued asks to expire this trigger.
pub fn asks(trigger: &Trigger, token: Token, seen: &[Obs]) -> bool
    ensures { result ≡ asks trigger.now (packet_of token seen.now) }
{
    let mut rest = seen;
    while let Some((o, later)) = rest.split_first() {
        if let Obs::Queued {
            token: k,
            packet,
            ..
        } = o
            && *k == token
        {
            return expires(trigger, &packet.to_packet());
        }
        rest = later;
    }
    false
}

/// The token is open: it was queued, and then neither answered nor its file system made
/// catatonic.
pub fn is_open(token: Token, seen: &[Obs]) -> bool
    ensures { result ≡ is_open token seen.now }
{
    let fs = fs_of_token(token, seen);
    let mut open = false;
    let mut rest = seen;
    while let Some((o, later)) = rest.split_first() {
        if queues(token, o) {
            open = true;
        } else if closes(token, &fs, o) {
            open = false;
        }
        rest = later;
    }
    open
}

/// The packet waits in the queue.
pub fn is_in_queue(token: Token, attach: Attach, packet: &Packet, seen: &[Obs]) -> bool
    ensures { result ≡ is_in_queue token attach packet.now seen.now }
{
    let mut queued = false;
    let mut rest = seen;
    while let Some((o, later)) = rest.split_first() {
        if queues_as(token, attach, packet, o) {
            queued = true;
        } else if unqueues(token, packet.dev, o) {
            queued = false;
        }
        rest = later;
    }
    queued
}

/// How often the mount was entered.
fn times_entered(seen: &[Obs], mount: MountId) -> usize
    ensures { result ≡ count_by (enters mount) seen.now }
{
    seen.iter().filter(|o| enters(mount, *o)).count()
}

/// How often the mount was left.
fn times_left(seen: &[Obs], mount: MountId) -> usize
    ensures { result ≡ count_by (leaves mount) seen.now }
{
    seen.iter().filter(|o| leaves(mount, *o)).count()
}

/// The mount was left as often as entered.
pub fn is_unused(seen: &[Obs], mount: MountId) -> bool
    ensures { result ≡ is_unused seen.now mount }
{
    times_entered(seen, mount) == times_left(seen, mount)
}

/// The walker is released in the row of releases with which these begin.
pub fn is_in_row(walker: WalkerId, token: Token, rest: &[Obs]) -> bool
    ensures { result ≡ is_in_row (releases walker token) rest.now }
{
    let mut rest = rest;
    while let Some((o, later)) = rest.split_first() {
        if !is_released(o) {
            return false;
        }
        if releases(walker, token, o) {
            return true;
        }
        rest = later;
    }
    false
}

pub fn all_unused(seen: &[Obs], mounts: &[MountId]) -> bool
    ensures { result ≡ list_all (is_unused seen.now) mounts.now }
{
    mounts.iter().all(|mount| is_unused(seen, *mount))
}

pub fn has_queued(seen: &[Obs], token: Token) -> bool
    ensures { result ≡ list_any (queues token) seen.now }
{
    seen.iter().any(|o| queues(token, o))
}

pub fn has_waits(seen: &[Obs], walker: WalkerId, token: Token) -> bool
    ensures { result ≡ list_any (waits walker token) seen.now }
{
    seen.iter().any(|o| waits(walker, token, o))
}

pub fn has_released(seen: &[Obs], walker: WalkerId, token: Token) -> bool
    ensures { result ≡ list_any (releases walker token) seen.now }
{
    seen.iter().any(|o| releases(walker, token, o))
}

pub fn has_delivered(seen: &[Obs], token: Token) -> bool
    ensures { result ≡ list_any (delivers token) seen.now }
{
    seen.iter().any(|o| delivers(token, o))
}
