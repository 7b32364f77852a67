//! How mounts take part in propagation.

ghost use Rattle.std.specs.Prelude.{◌≡◌};
ghost use Rattle.am_group.specs.{group_of, master_of};
ghost use Rattle.am_script.specs.{Puts};
ghost use Rattle.am_draw.specs.Groups.{group_text, groups_text, member_text, unbindable_text};

use am_names::{GroupId, MemberRow, MountId};
use am_script::answer_line::{put_number, put_word};
use am_script::output::Output;
use am_world::World;
use std::io::Write;

fn group_of(world: &World, mount: MountId) -> Option<GroupId>
    ensures { result ≡ group_of world.now.kernel.table.groups mount }
{
    world.member(mount)?.group()
}

fn master_of(world: &World, mount: MountId) -> Option<GroupId>
    ensures { result ≡ master_of world.now.kernel.table.groups mount }
{
    let row = world.member(mount)?;
    match row.group() {
        Some(group) => world.master_of_group(group),
        None => row.master(),
    }
}

fn put_group<W: Write>(output: &mut Output, word: &[u8], group: Option<GroupId>, writer: &mut W)
    ensures { Puts output.old output.new (group_text word.now group) (W.contents writer.old)
        (W.contents writer.new) }
{
    match group {
        None => put_word(output, b"", writer),
        Some(group) => put_number(output, word, group.0, writer),
    }
}

fn put_unbindable<W: Write>(output: &mut Output, unbindable: bool, writer: &mut W)
    ensures { Puts output.old output.new (unbindable_text unbindable) (W.contents writer.old)
        (W.contents writer.new) }
{
    match unbindable {
        true => put_word(output, b" unbindable", writer),
        false => put_word(output, b"", writer),
    }
}

fn put_member<W: Write>(output: &mut Output, member: Option<MemberRow>, writer: &mut W)
    ensures { Puts output.old output.new (member_text member) (W.contents writer.old)
        (W.contents writer.new) }
{
    match member {
        None => put_word(output, b"", writer),
        Some(member) => put_unbindable(output, member.is_unbindable(), writer),
    }
}

/// Puts out the peer group of a mount and its master.
#[tactic(auto, using(am_script::proofs::Pieces::puts_three))]
pub(crate) fn put_groups<W: Write>(
    output: &mut Output,
    world: &World,
    mount: MountId,
    writer: &mut W,
)
    ensures { Puts output.old output.new (groups_text world.now.kernel.table.groups mount)
        (W.contents writer.old) (W.contents writer.new) }
{
    put_group(output, b" shared:", group_of(world, mount), writer);
    put_group(output, b" master:", master_of(world, mount), writer);
    put_member(output, world.member(mount), writer);
}
