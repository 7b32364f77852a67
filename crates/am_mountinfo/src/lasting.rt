//! What of a world lasts without being open or at work, as comments.

ghost use Rattle.std.specs.Prelude.{◌≡◌, slice_get};
ghost use Rattle.std.specs.List.{flat_map};
ghost use Rattle.am_daemon.specs.{rows_of};
ghost use Rattle.am_script.specs.{Puts};
ghost use Rattle.am_mountinfo.specs.Lasting.{made_note, used_note, failure_note, given_text, spaces_text, known_note, held_note, latest_note, last_mounts_text, last_autofs_text, numbers_notes, kernel_lasting, daemon_lasting};
ghost use Rattle.am_mountinfo.specs.Opens.{row_note};

use am_names::{FsId, GroupId, MountId, NsId, Place, Seconds, Status, Trigger};
use am_script::answer_line::{put_number, put_place, put_word};
use am_script::output::Output;
use am_views::event_text::put_status;
use am_views::obs_text::put_trigger;
use am_world::{Failure, Failures, HeldRow, Triggers, World};
use std::io::Write;

/// Puts out what lasts of the kernel's half: directories, last uses, failures, and numbers.
#[tactic(auto, using(am_views::proofs::FourPieces::puts_four))]
pub(crate) fn put_kernel_lasting<W: Write>(output: &mut Output, world: &World, writer: &mut W)
    ensures { Puts output.old output.new (kernel_lasting world.now.kernel) (W.contents writer.old)
        (W.contents writer.new) }
{
    put_made(output, world.triggers(), writer);
    put_used(output, world.triggers(), writer);
    put_failures(output, world.failures(), writer);
    put_numbers(output, world, writer);
}

/// Puts out what lasts of the daemon's half: what it was attached to, and what it holds.
#[tactic(auto, using(am_script::proofs::Pieces::puts_two))]
pub(crate) fn put_daemon_lasting<W: Write>(output: &mut Output, world: &World, writer: &mut W)
    ensures { Puts output.old output.new (daemon_lasting (rows_of world.now.daemon))
        (W.contents writer.old) (W.contents writer.new) }
{
    put_known(output, world, writer);
    put_held(output, world, writer);
}

#[tactic(auto, using(am_script::proofs::Pieces::puts_none))]
fn put_made<W: Write>(output: &mut Output, triggers: &Triggers, writer: &mut W)
    ensures { Puts output.old output.new (flat_map made_note triggers.now.rows.made)
        (W.contents writer.old) (W.contents writer.new) }
{
    for index in 0..triggers.made_count() {
        put_made_at(output, triggers.made_at(index), writer);
    }
}

fn put_made_at<W: Write>(output: &mut Output, row: Option<Trigger>, writer: &mut W)
    ensures { Puts output.old output.new (row_note made_note row) (W.contents writer.old)
        (W.contents writer.new) }
{
    match row {
        None => put_word(output, b"", writer),
        Some(trigger) => put_directory(output, &trigger, writer),
    }
}

#[tactic(auto, using(am_script::proofs::Pieces::puts_three))]
fn put_directory<W: Write>(output: &mut Output, trigger: &Trigger, writer: &mut W)
    ensures { Puts output.old output.new (made_note trigger.now) (W.contents writer.old)
        (W.contents writer.new) }
{
    put_word(output, b"# made", writer);
    put_trigger(output, trigger, writer);
    put_word(output, b"\n", writer);
}

#[tactic(auto, using(am_script::proofs::Pieces::puts_none))]
fn put_used<W: Write>(output: &mut Output, triggers: &Triggers, writer: &mut W)
    ensures { Puts output.old output.new (flat_map used_note triggers.now.rows.uses)
        (W.contents writer.old) (W.contents writer.new) }
{
    for index in 0..triggers.use_count() {
        put_used_at(output, triggers.use_at(index), writer);
    }
}

fn put_used_at<W: Write>(output: &mut Output, row: Option<(Trigger, Seconds)>, writer: &mut W)
    ensures { Puts output.old output.new (row_note used_note row) (W.contents writer.old)
        (W.contents writer.new) }
{
    match row {
        None => put_word(output, b"", writer),
        Some((trigger, moment)) => put_last_use(output, &trigger, moment, writer),
    }
}

#[tactic(auto, using(am_script::proofs::Pieces::puts_three))]
fn put_last_use<W: Write>(output: &mut Output, trigger: &Trigger, moment: Seconds, writer: &mut W)
    ensures { Puts output.old output.new (used_note (trigger.now, moment)) (W.contents writer.old)
        (W.contents writer.new) }
{
    put_number(output, b"# used ", moment.0, writer);
    put_trigger(output, trigger, writer);
    put_word(output, b"\n", writer);
}

#[tactic(auto, using(am_script::proofs::Pieces::puts_none))]
fn put_failures<W: Write>(output: &mut Output, failures: &Failures, writer: &mut W)
    ensures { Puts output.old output.new (flat_map failure_note failures.now.rows)
        (W.contents writer.old) (W.contents writer.new) }
{
    for index in 0..failures.len() {
        put_failure_at(output, failures.row(index), writer);
    }
}

fn put_failure_at<W: Write>(output: &mut Output, row: Option<(Trigger, Failure)>, writer: &mut W)
    ensures { Puts output.old output.new (row_note failure_note row) (W.contents writer.old)
        (W.contents writer.new) }
{
    match row {
        None => put_word(output, b"", writer),
        Some((trigger, failure)) => put_failure(output, &trigger, failure, writer),
    }
}

#[tactic(auto, using(crate::proofs::MorePieces::puts_five))]
fn put_failure<W: Write>(output: &mut Output, trigger: &Trigger, failure: Failure, writer: &mut W)
    ensures { Puts output.old output.new (failure_note (trigger.now, failure))
        (W.contents writer.old) (W.contents writer.new) }
{
    put_word(output, b"#", writer);
    put_status(output, Status::Fail(failure.no), writer);
    put_number(output, b" at ", failure.at.0, writer);
    put_trigger(output, trigger, writer);
    put_word(output, b"\n", writer);
}

#[tactic(auto, using(am_script::proofs::Pieces::puts_three))]
fn put_numbers<W: Write>(output: &mut Output, world: &World, writer: &mut W)
    ensures { Puts output.old output.new (numbers_notes world.now.kernel) (W.contents writer.old)
        (W.contents writer.new) }
{
    put_latest(output, world, writer);
    put_last_mounts(output, world, writer);
    put_last_autofs(output, world, writer);
}

#[tactic(auto, using(am_script::proofs::Pieces::puts_two))]
fn put_latest<W: Write>(output: &mut Output, world: &World, writer: &mut W)
    ensures { Puts output.old output.new (latest_note world.now.kernel) (W.contents writer.old)
        (W.contents writer.new) }
{
    put_number(output, b"# latest ", world.latest().0, writer);
    put_word(output, b"\n", writer);
}

#[tactic(auto, using(am_script::proofs::Pieces::puts_two))]
fn put_spaces<W: Write>(output: &mut Output, ns: NsId, group: GroupId, writer: &mut W)
    ensures { Puts output.old output.new (spaces_text ns group) (W.contents writer.old)
        (W.contents writer.new) }
{
    put_number(output, b" ns ", u64::from(ns.0), writer);
    put_number(output, b" group ", group.0, writer);
}

#[tactic(auto, using(am_script::proofs::Pieces::puts_three))]
fn put_given<W: Write>(
    output: &mut Output,
    mount: MountId,
    ns: NsId,
    group: GroupId,
    writer: &mut W,
)
    ensures { Puts output.old output.new (given_text mount ns group) (W.contents writer.old)
        (W.contents writer.new) }
{
    put_word(output, b"# last", writer);
    put_number(output, b" mount ", mount.0, writer);
    put_spaces(output, ns, group, writer);
}

fn put_last_mounts<W: Write>(output: &mut Output, world: &World, writer: &mut W)
    ensures { Puts output.old output.new (last_mounts_text world.now.kernel) (W.contents writer.old)
        (W.contents writer.new) }
{
    let last = world.last();
    put_given(output, last.mount, last.ns, last.group, writer);
}

#[tactic(auto, using(am_views::proofs::FourPieces::puts_four))]
fn put_last_autofs<W: Write>(output: &mut Output, world: &World, writer: &mut W)
    ensures { Puts output.old output.new (last_autofs_text world.now.kernel) (W.contents writer.old)
        (W.contents writer.new) }
{
    let last = world.last();
    put_number(output, b" fs ", u64::from(last.fs.0), writer);
    put_number(output, b" attach ", u64::from(last.attach.0), writer);
    put_number(output, b" token ", u64::from(last.token.0), writer);
    put_word(output, b"\n", writer);
}

#[tactic(auto, using(am_script::proofs::Pieces::puts_none))]
fn put_known<W: Write>(output: &mut Output, world: &World, writer: &mut W)
    ensures { Puts output.old output.new (flat_map known_note world.now.daemon.known)
        (W.contents writer.old) (W.contents writer.new) }
{
    for index in 0..world.known_count() {
        put_known_at(output, world, index, writer);
    }
}

fn put_known_at<W: Write>(output: &mut Output, world: &World, index: usize, writer: &mut W)
    ensures { Puts output.old output.new (row_note known_note (slice_get world.now.daemon.known index))
        (W.contents writer.old) (W.contents writer.new) }
{
    match world.known_at(index) {
        None => put_word(output, b"", writer),
        Some(known) => put_known_row(output, known.fs, known.path, writer),
    }
}

#[tactic(auto, using(am_views::proofs::FourPieces::puts_four))]
fn put_known_row<W: Write>(output: &mut Output, fs: FsId, path: &Place, writer: &mut W)
    ensures { Puts output.old output.new (known_note (record { fs = fs; path = path.now }))
        (W.contents writer.old) (W.contents writer.new) }
{
    put_number(output, b"# known ", u64::from(fs.0), writer);
    put_word(output, b" ", writer);
    put_place(output, path, writer);
    put_word(output, b"\n", writer);
}

#[tactic(auto, using(am_script::proofs::Pieces::puts_none))]
fn put_held<W: Write>(output: &mut Output, world: &World, writer: &mut W)
    ensures { Puts output.old output.new (flat_map held_note world.now.daemon.held)
        (W.contents writer.old) (W.contents writer.new) }
{
    for index in 0..world.held_count() {
        put_held_at(output, world.held_at(index), writer);
    }
}

fn put_held_at<W: Write>(output: &mut Output, row: Option<HeldRow>, writer: &mut W)
    ensures { Puts output.old output.new (row_note held_note row) (W.contents writer.old)
        (W.contents writer.new) }
{
    match row {
        None => put_word(output, b"", writer),
        Some(held) => put_held_row(output, held, writer),
    }
}

#[tactic(auto, using(am_script::proofs::Pieces::puts_three))]
fn put_held_row<W: Write>(output: &mut Output, held: HeldRow, writer: &mut W)
    ensures { Puts output.old output.new (held_note held) (W.contents writer.old)
        (W.contents writer.new) }
{
    put_number(output, b"# held ", u64::from(held.fs.0), writer);
    put_number(output, b" attach ", u64::from(held.attach.0), writer);
    put_word(output, b"\n", writer);
}
