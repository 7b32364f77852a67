//! Mounts as lines of mountinfo.

ghost use Rattle.std.specs.Prelude.{◌≡◌, map, Some};
ghost use Rattle.std.specs.List.{flat_map};
ghost use Rattle.am_script.specs.{Puts};
ghost use Rattle.am_trigger.specs.{autofs_of};
ghost use Rattle.am_mountinfo.specs.Mountinfo.{byte_text, path_text, tag_text, flag_text, unbindable_text, optional_text, numbers_text, point_text, type_text, served_text, receiver_text, protocol_text, attached_in, mount_line, mountinfo};
ghost use Rattle.am_mountinfo.specs.Attachments.{AreAttachments};
ghost use Rattle.am_mountinfo.specs.Peers.{ArePeers};
ghost use Rattle.am_mountinfo.specs.Tables.{AreTables};

use crate::attachments::Attachments;
use crate::masters::{master_of, source_of};
use crate::paths::parent_of;
use crate::peers::{Peers, group_of};
use crate::tables::Tables;
use am_names::{Attach, FsId, GroupId, MemberRow, MountRow, NsId};
use am_script::answer_line::{put_number, put_word};
use am_script::output::Output;
use am_world::{Attached, Autofs, World};
use std::io::Write;

/// Puts the lines of a namespace's mounts out.
#[tactic(auto, using(am_script::proofs::Pieces::puts_none))]
pub(crate) fn put_mounts<W: Write>(
    output: &mut Output,
    world: &World,
    tables: &Tables<'_>,
    ns: NsId,
    writer: &mut W,
)
    requires { AreTables tables.now world.now.kernel }
    ensures { Puts output.old output.new (mountinfo world.now.kernel ns) (W.contents writer.old)
        (W.contents writer.new) }
{
    if let Some(rows) = tables.residents.list(ns) {
        put_rows(output, world, tables, rows, writer);
    }
}

#[tactic(auto, using(am_script::proofs::Pieces::puts_none))]
fn put_rows<W: Write>(
    output: &mut Output,
    world: &World,
    tables: &Tables<'_>,
    rows: &[&MountRow],
    writer: &mut W,
)
    requires { AreTables tables.now world.now.kernel }
    ensures { Puts output.old output.new (flat_map (mount_line world.now.kernel)
        (map (λ row. row.now) rows.now)) (W.contents writer.old) (W.contents writer.new) }
{
    for row in rows {
        put_mount(output, world, tables, row, writer);
    }
}

#[tactic(auto, using(am_views::proofs::FourPieces::puts_four))]
fn put_mount<W: Write>(
    output: &mut Output,
    world: &World,
    tables: &Tables<'_>,
    row: &MountRow,
    writer: &mut W,
)
    requires { AreTables tables.now world.now.kernel }
    ensures { Puts output.old output.new (mount_line world.now.kernel row.now)
        (W.contents writer.old) (W.contents writer.new) }
{
    put_numbers(output, row, writer);
    put_point(output, tables.paths.path(row.mount), writer);
    put_optional(output, world, &tables.peers, row, writer);
    put_type(output, world, &tables.attachments, row.fs, writer);
}

#[tactic(auto, using(am_script::proofs::Pieces::puts_three))]
fn put_numbers<W: Write>(output: &mut Output, row: &MountRow, writer: &mut W)
    ensures { Puts output.old output.new (numbers_text row.now) (W.contents writer.old)
        (W.contents writer.new) }
{
    put_number(output, b"", row.mount.0, writer);
    put_number(output, b" ", parent_of(row).0, writer);
    put_number(output, b" 0:", u64::from(row.fs.0), writer);
}

#[tactic(auto, using(am_script::proofs::Pieces::puts_three))]
fn put_point<W: Write>(output: &mut Output, path: &[u8], writer: &mut W)
    ensures { Puts output.old output.new (point_text path.now) (W.contents writer.old)
        (W.contents writer.new) }
{
    put_word(output, b" / ", writer);
    put_path(output, path, writer);
    put_word(output, b" rw", writer);
}

fn put_path<W: Write>(output: &mut Output, path: &[u8], writer: &mut W)
    ensures { Puts output.old output.new (path_text path.now) (W.contents writer.old)
        (W.contents writer.new) }
{
    if path.is_empty() {
        put_word(output, b"/", writer);
        return;
    }
    put_bytes(output, path, writer);
}

#[tactic(auto, using(am_script::proofs::Pieces::puts_none))]
fn put_bytes<W: Write>(output: &mut Output, bytes: &[u8], writer: &mut W)
    ensures { Puts output.old output.new (flat_map byte_text bytes.now) (W.contents writer.old)
        (W.contents writer.new) }
{
    for byte in bytes {
        put_byte(output, *byte, writer);
    }
}

fn put_byte<W: Write>(output: &mut Output, byte: u8, writer: &mut W)
    ensures { Puts output.old output.new (byte_text byte) (W.contents writer.old)
        (W.contents writer.new) }
{
    match byte {
        b' ' => put_word(output, b"\\040", writer),
        b'\t' => put_word(output, b"\\011", writer),
        b'\n' => put_word(output, b"\\012", writer),
        b'\\' => put_word(output, b"\\134", writer),
        _ => put_word(output, &[byte], writer),
    }
}

#[tactic(auto, using(am_views::proofs::FourPieces::puts_four))]
fn put_optional<W: Write>(
    output: &mut Output,
    world: &World,
    peers: &Peers,
    row: &MountRow,
    writer: &mut W,
)
    requires { ArePeers peers.now world.now.kernel.table.groups world.now.kernel.table.rows }
    ensures { Puts output.old output.new (optional_text world.now.kernel.table row.now)
        (W.contents writer.old) (W.contents writer.new) }
{
    put_tag(output, b" shared:", group_of(world, row.mount), writer);
    put_tag(output, b" master:", master_of(world, row.mount), writer);
    put_tag(
        output,
        b" propagate_from:",
        source_of(world, peers, row),
        writer,
    );
    put_unbindable(output, world.member(row.mount), writer);
}

fn put_tag<W: Write>(output: &mut Output, word: &[u8], group: Option<GroupId>, writer: &mut W)
    ensures { Puts output.old output.new (tag_text word.now group) (W.contents writer.old)
        (W.contents writer.new) }
{
    match group {
        None => put_word(output, b"", writer),
        Some(group) => put_number(output, word, group.0, writer),
    }
}

fn put_unbindable<W: Write>(output: &mut Output, member: Option<MemberRow>, writer: &mut W)
    ensures { Puts output.old output.new (unbindable_text member) (W.contents writer.old)
        (W.contents writer.new) }
{
    match member {
        None => put_word(output, b"", writer),
        Some(member) => put_flag(output, member.is_unbindable(), writer),
    }
}

fn put_flag<W: Write>(output: &mut Output, unbindable: bool, writer: &mut W)
    ensures { Puts output.old output.new (flag_text unbindable) (W.contents writer.old)
        (W.contents writer.new) }
{
    match unbindable {
        true => put_word(output, b" unbindable", writer),
        false => put_word(output, b"", writer),
    }
}

/// The type of a file system, and behind it the options of an autofs.
fn put_type<W: Write>(
    output: &mut Output,
    world: &World,
    attachments: &Attachments,
    fs: FsId,
    writer: &mut W,
)
    requires { AreAttachments attachments.now world.now.kernel.attached }
    ensures { Puts output.old output.new (type_text (autofs_of world.now.kernel.triggers fs)
        (attached_in world.now.kernel fs)) (W.contents writer.old) (W.contents writer.new) }
{
    match world.autofs(fs) {
        Some(autofs) => put_autofs(output, &autofs, attachments.get(fs), writer),
        None => put_word(output, b" - plain none rw\n", writer),
    }
}

#[tactic(auto, using(am_script::proofs::Pieces::puts_three))]
fn put_autofs<W: Write>(output: &mut Output, autofs: &Autofs, row: Option<Attached>, writer: &mut W)
    ensures { Puts output.old output.new (type_text (Some autofs.now) row) (W.contents writer.old)
        (W.contents writer.new) }
{
    put_word(output, b" - autofs none rw", writer);
    put_served(output, autofs.catatonic, row, writer);
    put_protocol(output, autofs.direct, writer);
}

#[tactic(auto, using(am_script::proofs::Pieces::puts_two))]
fn put_served<W: Write>(output: &mut Output, catatonic: bool, row: Option<Attached>, writer: &mut W)
    ensures { Puts output.old output.new (served_text catatonic row) (W.contents writer.old)
        (W.contents writer.new) }
{
    match row {
        None => put_word(output, b"", writer),
        Some(row) => {
            put_receiver(output, catatonic, row.attach, writer);
            put_number(output, b",timeout=", u64::from(row.timeout), writer)
        }
    }
}

fn put_receiver<W: Write>(output: &mut Output, catatonic: bool, attach: Attach, writer: &mut W)
    ensures { Puts output.old output.new (receiver_text catatonic attach) (W.contents writer.old)
        (W.contents writer.new) }
{
    match catatonic {
        true => put_word(output, b",fd=-1", writer),
        false => put_number(output, b",fd=", u64::from(attach.0), writer),
    }
}

fn put_protocol<W: Write>(output: &mut Output, direct: bool, writer: &mut W)
    ensures { Puts output.old output.new (protocol_text direct) (W.contents writer.old)
        (W.contents writer.new) }
{
    match direct {
        true => put_word(output, b",minproto=5,maxproto=5,direct\n", writer),
        false => put_word(output, b",minproto=5,maxproto=5,indirect\n", writer),
    }
}
