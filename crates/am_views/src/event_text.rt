//! Events as the lines of a script.

ghost use Rattle.std.specs.Prelude.{◌≡◌, ◌++◌, OnOk};
ghost use Rattle.hex.specs.Hex.{encode_lower};
ghost use Rattle.am_script.specs.{Puts};
ghost use Rattle.am_views.specs.EventText.{event_text, pipe_part, change_part, form_part, failure_part, status_part, how_part, outcome_part, path_part, site_part, moment_part, expiry_part, bytes_part, name_part};

use am_group::Change;
use am_names::{FailNo, FsId, Name, NsId, PipeState, Place, Seconds, Status, WalkerId};
use am_propagate::CopyForm;
use am_script::answer_line::{put_number, put_place, put_word};
use am_script::output::Output;
use am_world::{Event, PacketBytes};
use hex::encode_to_slice;
use std::alloc::AllocError;
use std::io::Write;

/// Writes an event behind what the buffer has, without a line feed.
pub fn push_event(line: &mut Vec<u8>, event: &Event) -> Result<(), AllocError>
    ensures { OnOk result (line.new.items ≡ line.old.items ++ event_text event.now) }
{
    let mut output = Output::new();
    put_event(&mut output, event, line);
    output.flush(line);
    match output.lost {
        None => Ok(()),
        Some(_) => Err(AllocError),
    }
}

/// Puts an event out.
#[tactic(auto, using(am_script::proofs::Pieces::puts_two, am_script::proofs::Pieces::puts_three))]
pub(crate) fn put_event<W: Write>(output: &mut Output, event: &Event, writer: &mut W)
    ensures { Puts output.old output.new (event_text event.now) (W.contents writer.old)
        (W.contents writer.new) }
{
    match event {
        Event::Attach { path } => {
            put_word(output, b"attach", writer);
            put_path(output, path, writer)
        }
        Event::Mount { ns, path } => {
            put_word(output, b"mount", writer);
            put_site(output, *ns, path, writer)
        }
        Event::Bind { ns, from, to } => {
            put_word(output, b"bind", writer);
            put_site(output, *ns, from, writer);
            put_path(output, to, writer)
        }
        Event::Umount { ns, path } => {
            put_word(output, b"umount", writer);
            put_site(output, *ns, path, writer)
        }
        Event::Change { ns, path, change } => {
            put_word(output, b"change", writer);
            put_site(output, *ns, path, writer);
            put_change(output, *change, writer)
        }
        Event::Kind { ns, path } => {
            put_word(output, b"kind", writer);
            put_site(output, *ns, path, writer)
        }
        Event::CopyNamespace { ns, form } => {
            put_number(output, b"nscopy ", u64::from(ns.0), writer);
            put_form(output, *form, writer)
        }
        Event::DropNamespace { ns } => put_number(output, b"nsdrop ", u64::from(ns.0), writer),
        Event::Walk {
            walker,
            ns,
            path,
            now,
            pipe,
        } => {
            put_number(output, b"walk ", u64::from(walker.0), writer);
            put_site(output, *ns, path, writer);
            put_moment(output, *now, *pipe, writer)
        }
        Event::Resume { walker, now, pipe } => {
            put_number(output, b"resume ", u64::from(walker.0), writer);
            put_moment(output, *now, *pipe, writer)
        }
        Event::Leave { walker } => put_number(output, b"leave ", u64::from(walker.0), writer),
        Event::Expire {
            walker,
            fs,
            now,
            immediate,
            pipe,
        } => {
            put_number(output, b"expire ", u64::from(walker.0), writer);
            put_number(output, b" ", u64::from(fs.0), writer);
            put_expiry(output, *now, *immediate, *pipe, writer)
        }
        Event::Deliver { token, bytes } => {
            put_number(output, b"deliver ", u64::from(token.0), writer);
            put_bytes(output, bytes, writer)
        }
        Event::Act { job, failure } => {
            put_number(output, b"act ", u64::from(job.0), writer);
            put_outcome(output, *failure, writer)
        }
        Event::Repeat {
            attach,
            token,
            status,
        } => {
            put_number(output, b"repeat ", u64::from(attach.0), writer);
            put_number(output, b" ", u64::from(token.0), writer);
            put_status(output, *status, writer)
        }
        Event::Catatonic { attach, fs } => {
            put_number(output, b"catatonic ", u64::from(attach.0), writer);
            put_number(output, b" ", u64::from(fs.0), writer)
        }
        Event::AdminCatatonic { fs } => put_number(output, b"admincat ", u64::from(fs.0), writer),
        Event::Timeout {
            attach,
            fs,
            timeout,
        } => {
            put_number(output, b"timeout ", u64::from(attach.0), writer);
            put_number(output, b" ", u64::from(fs.0), writer);
            put_number(output, b" ", u64::from(*timeout), writer)
        }
        Event::Die => put_word(output, b"die", writer),
        Event::Reattach { fs } => put_number(output, b"reattach ", u64::from(fs.0), writer),
        Event::Record { trigger } => {
            let trigger = trigger.to_trigger();
            put_number(output, b"record ", u64::from(trigger.fs.0), writer);
            put_name(output, &trigger.name, writer)
        }
    }
}

#[tactic(auto, using(am_script::proofs::Pieces::puts_two))]
fn put_path<W: Write>(output: &mut Output, path: &Place, writer: &mut W)
    ensures { Puts output.old output.new (path_part path.now) (W.contents writer.old)
        (W.contents writer.new) }
{
    put_word(output, b" ", writer);
    put_place(output, path, writer);
}

#[tactic(auto, using(am_script::proofs::Pieces::puts_two))]
fn put_site<W: Write>(output: &mut Output, ns: NsId, path: &Place, writer: &mut W)
    ensures { Puts output.old output.new (site_part ns path.now) (W.contents writer.old)
        (W.contents writer.new) }
{
    put_number(output, b" ", u64::from(ns.0), writer);
    put_path(output, path, writer);
}

#[tactic(auto, using(am_script::proofs::Pieces::puts_two))]
fn put_moment<W: Write>(output: &mut Output, now: Seconds, pipe: PipeState, writer: &mut W)
    ensures { Puts output.old output.new (moment_part now pipe) (W.contents writer.old)
        (W.contents writer.new) }
{
    put_number(output, b" ", now.0, writer);
    put_pipe(output, pipe, writer);
}

#[tactic(auto, using(am_script::proofs::Pieces::puts_two, am_script::proofs::Pieces::puts_three))]
fn put_expiry<W: Write>(
    output: &mut Output,
    now: Seconds,
    immediate: bool,
    pipe: PipeState,
    writer: &mut W,
)
    ensures { Puts output.old output.new (expiry_part now immediate pipe) (W.contents writer.old)
        (W.contents writer.new) }
{
    put_number(output, b" ", now.0, writer);
    put_how(output, immediate, writer);
    put_pipe(output, pipe, writer);
}

fn put_pipe<W: Write>(output: &mut Output, pipe: PipeState, writer: &mut W)
    ensures { Puts output.old output.new (pipe_part pipe) (W.contents writer.old)
        (W.contents writer.new) }
{
    match pipe {
        PipeState::Room => put_word(output, b" room", writer),
        PipeState::Full => put_word(output, b" full", writer),
        PipeState::Gone => put_word(output, b" gone", writer),
    }
}

fn put_form<W: Write>(output: &mut Output, form: CopyForm, writer: &mut W)
    ensures { Puts output.old output.new (form_part form) (W.contents writer.old)
        (W.contents writer.new) }
{
    match form {
        CopyForm::Full => put_word(output, b"", writer),
        CopyForm::Reduced => put_word(output, b" reduced", writer),
    }
}

fn put_change<W: Write>(output: &mut Output, change: Change, writer: &mut W)
    ensures { Puts output.old output.new (change_part change) (W.contents writer.old)
        (W.contents writer.new) }
{
    match change {
        Change::MakeShared => put_word(output, b" shared", writer),
        Change::MakeSlave => put_word(output, b" slave", writer),
        Change::MakePrivate => put_word(output, b" private", writer),
        Change::MakeUnbindable => put_word(output, b" unbindable", writer),
    }
}

fn put_failure<W: Write>(output: &mut Output, no: FailNo, writer: &mut W)
    ensures { Puts output.old output.new (failure_part no) (W.contents writer.old)
        (W.contents writer.new) }
{
    match no {
        FailNo::ENOENT => put_word(output, b" fail", writer),
        _ => put_number(output, b" fail ", u64::from(no.number()), writer),
    }
}

/// Puts a status out, behind a blank.
pub fn put_status<W: Write>(output: &mut Output, status: Status, writer: &mut W)
    ensures { Puts output.old output.new (status_part status) (W.contents writer.old)
        (W.contents writer.new) }
{
    match status {
        Status::Ready => put_word(output, b" ready", writer),
        Status::Fail(no) => put_failure(output, no, writer),
    }
}

fn put_how<W: Write>(output: &mut Output, immediate: bool, writer: &mut W)
    ensures { Puts output.old output.new (how_part immediate) (W.contents writer.old)
        (W.contents writer.new) }
{
    match immediate {
        false => put_word(output, b" idle", writer),
        true => put_word(output, b" immediate", writer),
    }
}

fn put_outcome<W: Write>(output: &mut Output, failure: Option<FailNo>, writer: &mut W)
    ensures { Puts output.old output.new (outcome_part failure) (W.contents writer.old)
        (W.contents writer.new) }
{
    match failure {
        None => put_word(output, b" ok", writer),
        Some(no) => put_failure(output, no, writer),
    }
}

#[tactic(auto, using(am_script::proofs::Pieces::puts_two, am_script::proofs::Pieces::puts_none))]
fn put_bytes<W: Write>(output: &mut Output, bytes: &Option<PacketBytes>, writer: &mut W)
    ensures { Puts output.old output.new (bytes_part bytes.now) (W.contents writer.old)
        (W.contents writer.new) }
{
    if let Some(bytes) = bytes {
        put_word(output, b" ", writer);
        put_hex(output, bytes.as_array(), writer);
    }
}

/// Puts bytes out by two hex digits each.
fn put_hex<W: Write>(output: &mut Output, bytes: &[u8; 304], writer: &mut W)
    ensures { Puts output.old output.new (encode_lower bytes.now) (W.contents writer.old)
        (W.contents writer.new) }
{
    let mut digits = [0; 608];
    // There is a place for each digit.
    let _fits = encode_to_slice(bytes.as_slice(), &mut digits);
    put_word(output, digits.as_slice(), writer);
}

#[tactic(auto, using(am_script::proofs::Pieces::puts_two))]
fn put_name<W: Write>(output: &mut Output, name: &Option<Name>, writer: &mut W)
    ensures { Puts output.old output.new (name_part name.now) (W.contents writer.old)
        (W.contents writer.new) }
{
    match name {
        None => put_word(output, b" -", writer),
        Some(name) => {
            put_word(output, b" ", writer);
            put_word(output, name.as_bytes(), writer)
        }
    }
}
