//! What is told behind an imported script: for each line the mount that stands for it.

ghost use Rattle.std.specs.Prelude.{◌≡◌, ◌++◌, decimal, OnOk};
ghost use Rattle.am_import.specs.Notes.{line_text, note_text, notes_text, seat_text, unlike_text};
ghost use Rattle.am_import.specs.Told.{AreTold};

use crate::likeness::{Row, Unlike, unlikeness};
use crate::told::Told;
use am_mount_lines::MountLine;
use am_world::World;
use itoa::Buffer;
use std::alloc::AllocError;

fn push_number(text: &mut Vec<u8>, word: &[u8], number: u64) -> Result<(), AllocError>
    ensures { OnOk result (text.new.items ≡ text.old.items ++ (word.now ++ decimal number)) }
{
    let mut digits = Buffer::new();
    text.extend_from_slice(word)?;
    text.extend_from_slice(digits.format(number).as_bytes())
}

fn push_line(text: &mut Vec<u8>, line: &MountLine) -> Result<(), AllocError>
    ensures { OnOk result (text.new.items ≡ text.old.items ++ line_text line.now) }
{
    push_number(text, b"# namespace ", u64::from(line.space))?;
    push_number(text, b" mount ", line.number)
}

/// In what a mount is unlike its line.
fn unlike_words(unlike: Option<Unlike>) -> &'static [u8]
    ensures { result.now ≡ unlike_text unlike }
{
    match unlike {
        None => b"\n",
        Some(Unlike::Missing) => b", which isn't there\n",
        Some(Unlike::Namespace) => b", but for its namespace\n",
        Some(Unlike::Parent) => b", but for what it is mounted on\n",
        Some(Unlike::Path) => b", but for its path\n",
        Some(Unlike::FileSystem) => b", but for what it shows\n",
        Some(Unlike::PeerGroup) => b", but for its peer group\n",
        Some(Unlike::Master) => b", but for its master\n",
        Some(Unlike::Unbindable) => b", but for unbindable\n",
    }
}

fn push_seat(
    text: &mut Vec<u8>,
    seat: Option<u64>,
    unlike: Option<Unlike>,
) -> Result<(), AllocError>
    ensures { OnOk result (text.new.items ≡ text.old.items ++ seat_text seat unlike) }
{
    match seat {
        None => text.extend_from_slice(b": none\n"),
        Some(mount) => {
            push_number(text, b": mount ", mount)?;
            text.extend_from_slice(unlike_words(unlike))
        }
    }
}

fn push_note<'a>(
    text: &mut Vec<u8>,
    world: &World,
    told: &Told<'a>,
    rows: &'a [Row],
    row: &'a Row,
) -> Result<(), AllocError>
    requires { AreTold told.now world.now.kernel.table rows.now }
    ensures { OnOk result (text.new.items ≡ text.old.items
        ++ note_text world.now.kernel.table rows.now row.now) }
{
    push_line(text, &row.line)?;
    push_seat(text, row.seat, unlikeness(world, told, rows, row))
}

/// Puts behind a text what is told of each line.
pub(crate) fn push_notes<'a>(
    text: &mut Vec<u8>,
    world: &World,
    told: &Told<'a>,
    rows: &'a [Row],
) -> Result<(), AllocError>
    requires { AreTold told.now world.now.kernel.table rows.now }
    ensures { OnOk result (text.new.items ≡ text.old.items ++ notes_text world.now.kernel.table rows.now) }
{
    for row in rows {
        push_note(text, world, told, rows, row)?;
    }
    Ok(())
}
