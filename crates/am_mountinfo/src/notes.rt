//! What is open, queued, written down and at work in a world, as comments.

ghost use Rattle.std.specs.Prelude.{◌≡◌, ◌++◌, option_copied, Some, IfOk, OnOk};
ghost use Rattle.std.specs.List.{flat_map};
ghost use Rattle.am_daemon.specs.{rows_of, job_plan};
ghost use Rattle.am_state.specs.declared.obs.Obs.TheVariants.{Queued, Recorded};
ghost use Rattle.am_script.specs.{Puts};
ghost use Rattle.am_mountinfo.specs.Notes.{obs_note, walkers_text, trigger_text, token_note, packet_note, record_note, act_text, job_note, status_text, wait_text, walk_note, use_note, fs_notes, tokens_notes, packets_notes, book_notes, jobs_notes, walks_notes, uses_notes, kernel_notes, daemon_notes};
ghost use Rattle.am_mountinfo.specs.Opens.{open_text, opens_text, row_note};

use crate::lasting::{put_daemon_lasting, put_kernel_lasting};
use am_names::{Attach, FsId, Status, Token, Trigger, WaitRow, WalkerId};
use am_script::answer_line::{put_number, put_place, put_word};
use am_script::output::Output;
use am_state::{QueuedRow, Record, RecordRow};
use am_views::event_text::put_status;
use am_views::obs_text::{put_obs, put_queued, put_recorded, put_trigger};
use am_wire::Packet;
use am_world::{Act, Book, Job, Obs, Use, Uses, WalkRow, World};
use std::alloc::{AllocError, Global};
use std::io::Write;

/// An open token and its waiters.
#[derive(Drop)]
pub struct Open {
    token: Token,
    waiters: Vec<WalkerId>,
}

/// The open tokens of all file systems, in order of attaching.
pub(crate) fn opens(alloc: Global, world: &World) -> Result<Vec<Open>, AllocError>
    ensures { IfOk result (λ opens. opens_text world.now.kernel.waits opens.items
        ≡ tokens_notes world.now.kernel) }
{
    let mut opens = Vec::new(alloc);
    for row in world.attached() {
        add_opens(alloc, world, row.fs, &mut opens)?;
    }
    Ok(opens)
}

fn add_opens(
    alloc: Global,
    world: &World,
    fs: FsId,
    opens: &mut Vec<Open>,
) -> Result<(), AllocError>
    ensures { OnOk result (opens_text world.now.kernel.waits opens.new.items
        ≡ opens_text world.now.kernel.waits opens.old.items ++ fs_notes world.now.kernel.waits fs) }
{
    let tokens = world.tokens_of(alloc, fs)?;
    for token in &tokens {
        add_open(alloc, world, *token, opens)?;
    }
    Ok(())
}

fn add_open(
    alloc: Global,
    world: &World,
    token: Token,
    opens: &mut Vec<Open>,
) -> Result<(), AllocError>
    ensures { OnOk result (opens_text world.now.kernel.waits opens.new.items
        ≡ opens_text world.now.kernel.waits opens.old.items ++ token_note world.now.kernel.waits
        token) }
{
    let waiters = world.waiters_of(alloc, token)?;
    opens.push(Open { token, waiters })?;
    Ok(())
}

/// Puts what is open out.
#[tactic(auto, using(am_script::proofs::Pieces::puts_none))]
pub(crate) fn put_opens<W: Write>(
    output: &mut Output,
    world: &World,
    opens: &[Open],
    writer: &mut W,
)
    ensures { Puts output.old output.new (opens_text world.now.kernel.waits opens.now)
        (W.contents writer.old) (W.contents writer.new) }
{
    for row in opens {
        put_open(output, world, row, writer);
    }
}

#[tactic(auto, using(crate::proofs::MorePieces::puts_five))]
fn put_open<W: Write>(output: &mut Output, world: &World, row: &Open, writer: &mut W)
    ensures { Puts output.old output.new (open_text world.now.kernel.waits row.now)
        (W.contents writer.old) (W.contents writer.new) }
{
    put_number(output, b"# open ", u64::from(row.token.0), writer);
    put_word(output, b" waiters", writer);
    put_walkers(output, &row.waiters, writer);
    put_trigger_of(output, &world.trigger_of(row.token), writer);
    put_word(output, b"\n", writer);
}

#[tactic(auto, using(am_script::proofs::Pieces::puts_none))]
fn put_walkers<W: Write>(output: &mut Output, walkers: &[WalkerId], writer: &mut W)
    ensures { Puts output.old output.new (walkers_text walkers.now) (W.contents writer.old)
        (W.contents writer.new) }
{
    for walker in walkers {
        put_number(output, b" ", u64::from(walker.0), writer);
    }
}

fn put_trigger_of<W: Write>(output: &mut Output, trigger: &Option<Trigger>, writer: &mut W)
    ensures { Puts output.old output.new (trigger_text trigger.now) (W.contents writer.old)
        (W.contents writer.new) }
{
    match trigger {
        None => put_word(output, b"", writer),
        Some(trigger) => put_trigger(output, trigger, writer),
    }
}

/// Puts an observation out as a comment.
#[tactic(auto, unfolding(crate::specs::Notes::obs_note), using(am_script::proofs::Pieces::puts_three))]
fn put_note<W: Write>(output: &mut Output, obs: &Obs, writer: &mut W)
    ensures { Puts output.old output.new (obs_note obs.now) (W.contents writer.old)
        (W.contents writer.new) }
{
    put_word(output, b"# ", writer);
    put_obs(output, obs, writer);
    put_word(output, b"\n", writer);
}

/// Puts out what else the kernel has: packets in the pipes, walkers, and what lasts.
#[tactic(auto, using(am_views::proofs::FourPieces::puts_four))]
pub(crate) fn put_kernel<W: Write>(output: &mut Output, world: &World, writer: &mut W)
    ensures { Puts output.old output.new (kernel_notes world.now.kernel) (W.contents writer.old)
        (W.contents writer.new) }
{
    put_packets(output, world, writer);
    put_walks(output, world, writer);
    put_uses(output, world.uses(), writer);
    put_kernel_lasting(output, world, writer);
}

#[tactic(auto, using(am_script::proofs::Pieces::puts_none))]
fn put_packets<W: Write>(output: &mut Output, world: &World, writer: &mut W)
    ensures { Puts output.old output.new (packets_notes world.now.kernel) (W.contents writer.old)
        (W.contents writer.new) }
{
    for row in world.packets() {
        put_packet(output, row, writer);
    }
}

/// Puts out as a comment that a packet is queued.
#[tactic(auto, unfolding(crate::specs::Notes::obs_note), using(am_script::proofs::Pieces::puts_three))]
fn put_queued_note<W: Write>(
    output: &mut Output,
    token: Token,
    attach: Attach,
    packet: &Packet,
    writer: &mut W,
)
    ensures { Puts output.old output.new (obs_note (Queued token attach packet.now))
        (W.contents writer.old) (W.contents writer.new) }
{
    put_word(output, b"# ", writer);
    put_queued(output, token, attach, packet, writer);
    put_word(output, b"\n", writer);
}

fn put_packet<W: Write>(output: &mut Output, row: &QueuedRow, writer: &mut W)
    ensures { Puts output.old output.new (packet_note row.now) (W.contents writer.old)
        (W.contents writer.new) }
{
    put_queued_note(output, row.token, row.attach, &row.packet, writer);
}

#[tactic(auto, using(am_script::proofs::Pieces::puts_none))]
fn put_walks<W: Write>(output: &mut Output, world: &World, writer: &mut W)
    ensures { Puts output.old output.new (walks_notes world.now.kernel) (W.contents writer.old)
        (W.contents writer.new) }
{
    for row in world.walks() {
        put_walk(output, world, row, writer);
    }
}

#[tactic(auto, using(crate::proofs::MorePieces::puts_six))]
fn put_walk<W: Write>(output: &mut Output, world: &World, row: &WalkRow, writer: &mut W)
    ensures { Puts output.old output.new (walk_note world.now.kernel.waits row.now)
        (W.contents writer.old) (W.contents writer.new) }
{
    put_number(output, b"# walk ", u64::from(row.walker.0), writer);
    put_wait(output, world.wait_of(row.walker), writer);
    put_number(output, b" ns ", u64::from(row.ns.0), writer);
    put_word(output, b" ", writer);
    put_place(output, &row.path, writer);
    put_word(output, b"\n", writer);
}

#[tactic(auto, using(am_script::proofs::Pieces::puts_two))]
fn put_wait<W: Write>(output: &mut Output, wait: Option<WaitRow>, writer: &mut W)
    ensures { Puts output.old output.new (wait_text wait) (W.contents writer.old)
        (W.contents writer.new) }
{
    match wait {
        None => put_word(output, b"", writer),
        Some(wait) => {
            put_number(output, b" token ", u64::from(wait.token.0), writer);
            put_status_of(output, wait.status, writer)
        }
    }
}

fn put_status_of<W: Write>(output: &mut Output, status: Option<Status>, writer: &mut W)
    ensures { Puts output.old output.new (status_text status) (W.contents writer.old)
        (W.contents writer.new) }
{
    match status {
        None => put_word(output, b"", writer),
        Some(status) => put_status(output, status, writer),
    }
}

#[tactic(auto, using(am_script::proofs::Pieces::puts_none))]
fn put_uses<W: Write>(output: &mut Output, uses: &Uses, writer: &mut W)
    ensures { Puts output.old output.new (flat_map use_note uses.now) (W.contents writer.old)
        (W.contents writer.new) }
{
    for index in 0..uses.len() {
        put_use_at(output, uses.row(index), writer);
    }
}

fn put_use_at<W: Write>(output: &mut Output, row: Option<Use>, writer: &mut W)
    ensures { Puts output.old output.new (row_note use_note row) (W.contents writer.old)
        (W.contents writer.new) }
{
    match row {
        None => put_word(output, b"", writer),
        Some(row) => put_use(output, row, writer),
    }
}

fn put_use<W: Write>(output: &mut Output, row: Use, writer: &mut W)
    ensures { Puts output.old output.new (use_note row) (W.contents writer.old)
        (W.contents writer.new) }
{
    let entered = Obs::Entered {
        walker: row.walker,
        mount: row.mount,
    };
    put_note(output, &entered, writer);
}

/// Puts out what the daemon has: its book, its jobs, and what lasts.
#[tactic(auto, using(am_script::proofs::Pieces::puts_three))]
pub(crate) fn put_daemon<W: Write>(output: &mut Output, world: &World, writer: &mut W)
    ensures { Puts output.old output.new (daemon_notes (rows_of world.now.daemon))
        (W.contents writer.old) (W.contents writer.new) }
{
    put_book(output, world.book(), writer);
    put_jobs(output, world, writer);
    put_daemon_lasting(output, world, writer);
}

#[tactic(auto, using(am_script::proofs::Pieces::puts_none))]
fn put_book<W: Write>(output: &mut Output, book: &Book, writer: &mut W)
    ensures { Puts output.old output.new (flat_map record_note book.now.rows)
        (W.contents writer.old) (W.contents writer.new) }
{
    for index in 0..book.len() {
        put_record_at(output, book.row(index), writer);
    }
}

fn put_record_at<W: Write>(output: &mut Output, row: Option<RecordRow>, writer: &mut W)
    ensures { Puts output.old output.new (row_note record_note row) (W.contents writer.old)
        (W.contents writer.new) }
{
    match row {
        None => put_word(output, b"", writer),
        Some(row) => put_record(output, row, writer),
    }
}

/// Puts out as a comment what the book says of a trigger.
#[tactic(auto, unfolding(crate::specs::Notes::obs_note), using(am_script::proofs::Pieces::puts_three))]
fn put_recorded_note<W: Write>(
    output: &mut Output,
    trigger: &Trigger,
    entry: &Option<Record>,
    writer: &mut W,
)
    ensures { Puts output.old output.new (obs_note (Recorded trigger.now entry.now))
        (W.contents writer.old) (W.contents writer.new) }
{
    put_word(output, b"# ", writer);
    put_recorded(output, trigger, entry, writer);
    put_word(output, b"\n", writer);
}

fn put_record<W: Write>(output: &mut Output, row: RecordRow, writer: &mut W)
    ensures { Puts output.old output.new (record_note row) (W.contents writer.old)
        (W.contents writer.new) }
{
    put_recorded_note(output, &row.trigger, &Some(row.entry), writer);
}

#[tactic(auto, using(am_script::proofs::Pieces::puts_none))]
fn put_jobs<W: Write>(output: &mut Output, world: &World, writer: &mut W)
    ensures { Puts output.old output.new (jobs_notes (rows_of world.now.daemon))
        (W.contents writer.old) (W.contents writer.new) }
{
    for job in world.jobs() {
        put_job(output, job, writer);
    }
}

#[tactic(auto, using(crate::proofs::MorePieces::puts_five))]
fn put_job<W: Write>(output: &mut Output, job: &Job, writer: &mut W)
    ensures { Puts output.old output.new (job_note (job_plan job.now)) (W.contents writer.old)
        (W.contents writer.new) }
{
    put_number(output, b"# job ", u64::from(job.job().0), writer);
    put_number(output, b" attach ", u64::from(job.attach().0), writer);
    put_act(output, job.next(), writer);
    put_trigger(output, &job.trigger(), writer);
    put_word(output, b"\n", writer);
}

fn put_act<W: Write>(output: &mut Output, act: Option<&Act>, writer: &mut W)
    ensures { Puts output.old output.new (act_text (option_copied act.entry)) (W.contents writer.old)
        (W.contents writer.new) }
{
    match act {
        None => put_word(output, b"", writer),
        Some(act) => put_next(output, act, writer),
    }
}

fn put_next<W: Write>(output: &mut Output, act: &Act, writer: &mut W)
    ensures { Puts output.old output.new (act_text (Some act.now)) (W.contents writer.old)
        (W.contents writer.new) }
{
    match act {
        Act::Mkdir { .. } => put_word(output, b" next mkdir", writer),
        Act::Mount { .. } => put_word(output, b" next mount", writer),
        Act::Umount { .. } => put_word(output, b" next umount", writer),
        Act::Rmdir { .. } => put_word(output, b" next rmdir", writer),
        Act::Record { .. } => put_word(output, b" next record", writer),
        Act::Reply { .. } => put_word(output, b" next reply", writer),
    }
}
