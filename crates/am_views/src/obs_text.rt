//! Observations as lines.

ghost use Rattle.std.specs.Prelude.{◌≡◌, ◌++◌, codes, OnOk};
ghost use Rattle.am_state.specs.declared.obs.Obs.TheVariants.{Queued, Recorded};
ghost use Rattle.am_script.specs.{Puts};
ghost use Rattle.am_views.specs.ObsText.{obs_text, obs_line, obs_lines, key_part, trigger_part, type_part, root_part, owner_part, process_part, caller_part, packet_part};

use crate::event_text::put_status;
use am_names::{Attach, Name, Token, Trigger};
use am_script::answer_line::{put_entry, put_mounts, put_number, put_word};
use am_script::output::Output;
use am_wire::{Packet, PacketType};
use am_world::{Obs, Record};
use std::alloc::AllocError;
use std::io::Write;

/// Writes an observation behind what the buffer has, without a line feed.
pub fn push_observation(line: &mut Vec<u8>, obs: &Obs) -> Result<(), AllocError>
    ensures { OnOk result (line.new.items ≡ line.old.items ++ obs_text obs.now) }
{
    let mut output = Output::new();
    put_obs(&mut output, obs, line);
    output.flush(line);
    match output.lost {
        None => Ok(()),
        Some(_) => Err(AllocError),
    }
}

/// Puts the lines of observations out.
#[tactic(auto, using(am_script::proofs::Pieces::puts_none))]
pub(crate) fn put_seen<W: Write>(output: &mut Output, seen: &[Obs], writer: &mut W)
    ensures { Puts output.old output.new (obs_lines seen.now) (W.contents writer.old)
        (W.contents writer.new) }
{
    for obs in seen {
        put_obs_line(output, obs, writer);
    }
}

#[tactic(auto, using(am_script::proofs::Pieces::puts_two, am_script::proofs::Pieces::puts_three))]
fn put_obs_line<W: Write>(output: &mut Output, obs: &Obs, writer: &mut W)
    ensures { Puts output.old output.new (obs_line obs.now) (W.contents writer.old)
        (W.contents writer.new) }
{
    put_word(output, b"  ", writer);
    put_obs(output, obs, writer);
    put_word(output, b"\n", writer);
}

/// Puts an observation out.
#[tactic(auto, using(am_script::proofs::Pieces::puts_two, am_script::proofs::Pieces::puts_three))]
pub fn put_obs<W: Write>(output: &mut Output, obs: &Obs, writer: &mut W)
    ensures { Puts output.old output.new (obs_text obs.now) (W.contents writer.old)
        (W.contents writer.new) }
{
    match obs {
        Obs::Queued {
            token,
            attach,
            packet,
        } => { put_queued(output, *token, *attach, &packet.to_packet(), writer) }
        Obs::Waits { walker, token } => {
            put_number(output, b"waits ", u64::from(walker.0), writer);
            put_number(output, b" token ", u64::from(token.0), writer)
        }
        Obs::Answered { token, status } => {
            put_number(output, b"answered ", u64::from(token.0), writer);
            put_status(output, *status, writer)
        }
        Obs::Catatonic { fs } => put_number(output, b"catatonic ", u64::from(fs.0), writer),
        Obs::Released {
            walker,
            token,
            status,
        } => {
            put_number(output, b"released ", u64::from(walker.0), writer);
            put_number(output, b" token ", u64::from(token.0), writer);
            put_status(output, *status, writer)
        }
        Obs::Passed { walker, trigger } => {
            put_number(output, b"passed ", u64::from(walker.0), writer);
            put_trigger(output, &trigger.to_trigger(), writer)
        }
        Obs::Entered { walker, mount } => {
            put_number(output, b"entered ", u64::from(walker.0), writer);
            put_number(output, b" mount ", mount.0, writer)
        }
        Obs::Left { walker, mount } => {
            put_number(output, b"left ", u64::from(walker.0), writer);
            put_number(output, b" mount ", mount.0, writer)
        }
        Obs::Mounted { mounts } => {
            put_word(output, b"mounted", writer);
            put_mounts(output, mounts, writer)
        }
        Obs::Unmounted { mounts } => {
            put_word(output, b"unmounted", writer);
            put_mounts(output, mounts, writer)
        }
        Obs::Delivered {
            token,
            attach,
            packet,
        } => {
            put_number(output, b"delivered ", u64::from(token.0), writer);
            put_number(output, b" attach ", u64::from(attach.0), writer);
            put_packet(output, &packet.to_packet(), writer)
        }
        Obs::Recorded { trigger, entry } => {
            put_recorded(output, &trigger.to_trigger(), entry, writer)
        }
        Obs::Reattached { fs, attach } => {
            put_number(output, b"reattached ", u64::from(fs.0), writer);
            put_number(output, b" attach ", u64::from(attach.0), writer)
        }
        Obs::Died => put_word(output, b"died", writer),
    }
}

/// Puts out that a packet was queued.
#[tactic(auto, using(am_script::proofs::Pieces::puts_three))]
pub fn put_queued<W: Write>(
    output: &mut Output,
    token: Token,
    attach: Attach,
    packet: &Packet,
    writer: &mut W,
)
    ensures { Puts output.old output.new (obs_text (Queued token attach packet.now))
        (W.contents writer.old) (W.contents writer.new) }
{
    put_number(output, b"queued ", u64::from(token.0), writer);
    put_number(output, b" attach ", u64::from(attach.0), writer);
    put_packet(output, packet, writer);
}

/// Puts out what the daemon's book says of a trigger.
#[tactic(auto, using(am_script::proofs::Pieces::puts_three))]
pub fn put_recorded<W: Write>(
    output: &mut Output,
    trigger: &Trigger,
    entry: &Option<Record>,
    writer: &mut W,
)
    ensures { Puts output.old output.new (obs_text (Recorded trigger.now entry.now))
        (W.contents writer.old) (W.contents writer.new) }
{
    put_word(output, b"recorded ", writer);
    put_entry(output, entry, writer);
    put_trigger(output, trigger, writer);
}

/// Puts a trigger out, behind a blank.
#[tactic(auto, using(am_script::proofs::Pieces::puts_two))]
pub fn put_trigger<W: Write>(output: &mut Output, trigger: &Trigger, writer: &mut W)
    ensures { Puts output.old output.new (trigger_part trigger.now) (W.contents writer.old)
        (W.contents writer.new) }
{
    put_number(output, b" fs ", u64::from(trigger.fs.0), writer);
    put_key(output, &trigger.name, writer);
}

#[tactic(auto, using(am_script::proofs::Pieces::puts_two))]
fn put_key<W: Write>(output: &mut Output, name: &Option<Name>, writer: &mut W)
    ensures { Puts output.old output.new (key_part name.now) (W.contents writer.old)
        (W.contents writer.new) }
{
    match name {
        None => put_word(output, b" direct", writer),
        Some(name) => {
            put_word(output, b" name ", writer);
            put_word(output, name.as_bytes(), writer)
        }
    }
}

#[tactic(auto, using(am_script::proofs::Pieces::puts_three))]
fn put_packet<W: Write>(output: &mut Output, packet: &Packet, writer: &mut W)
    ensures { Puts output.old output.new (packet_part packet.now) (W.contents writer.old)
        (W.contents writer.new) }
{
    put_type(output, packet.kind, writer);
    put_root(output, packet, writer);
    put_caller(output, packet, writer);
}

fn put_type<W: Write>(output: &mut Output, kind: PacketType, writer: &mut W)
    ensures { Puts output.old output.new (type_part kind) (W.contents writer.old)
        (W.contents writer.new) }
{
    match kind {
        PacketType::MissingIndirect => put_word(output, b" missing-indirect", writer),
        PacketType::ExpireIndirect => put_word(output, b" expire-indirect", writer),
        PacketType::MissingDirect => put_word(output, b" missing-direct", writer),
        PacketType::ExpireDirect => put_word(output, b" expire-direct", writer),
    }
}

#[tactic(auto, using(am_script::proofs::Pieces::puts_two))]
fn put_root<W: Write>(output: &mut Output, packet: &Packet, writer: &mut W)
    ensures { Puts output.old output.new (root_part packet.now) (W.contents writer.old)
        (W.contents writer.new) }
{
    put_number(output, b" dev ", u64::from(packet.dev.0), writer);
    put_number(output, b" ino ", packet.ino, writer);
}

#[tactic(auto, using(am_script::proofs::Pieces::puts_three))]
fn put_caller<W: Write>(output: &mut Output, packet: &Packet, writer: &mut W)
    ensures { Puts output.old output.new (caller_part packet.now) (W.contents writer.old)
        (W.contents writer.new) }
{
    put_owner(output, packet, writer);
    put_process(output, packet, writer);
    put_packet_name(output, packet, writer);
}

#[tactic(auto, using(am_script::proofs::Pieces::puts_two))]
fn put_owner<W: Write>(output: &mut Output, packet: &Packet, writer: &mut W)
    ensures { Puts output.old output.new (owner_part packet.now) (W.contents writer.old)
        (W.contents writer.new) }
{
    put_number(output, b" uid ", u64::from(packet.uid), writer);
    put_number(output, b" gid ", u64::from(packet.gid), writer);
}

#[tactic(auto, using(am_script::proofs::Pieces::puts_two))]
fn put_process<W: Write>(output: &mut Output, packet: &Packet, writer: &mut W)
    ensures { Puts output.old output.new (process_part packet.now) (W.contents writer.old)
        (W.contents writer.new) }
{
    put_number(output, b" pid ", u64::from(packet.pid), writer);
    put_number(output, b" tgid ", u64::from(packet.tgid), writer);
}

#[tactic(auto, using(am_script::proofs::Pieces::puts_two))]
fn put_packet_name<W: Write>(output: &mut Output, packet: &Packet, writer: &mut W)
    ensures { Puts output.old output.new (codes " name " ++ packet.now.name) (W.contents writer.old)
        (W.contents writer.new) }
{
    put_word(output, b" name ", writer);
    put_word(output, packet.name.as_bytes(), writer);
}
