//! The lines that answers are written as.

ghost use Rattle.std.specs.Prelude.{◌≡◌, ◌++◌, decimal, OnOk};
ghost use Rattle.am_names.specs.{errno_number};
ghost use Rattle.am_script.specs.Answers.{answer_text, answer_line, kind_text, mounts_text, entry_text, record_text, place_text, is_refused};
ghost use Rattle.am_script.specs.Outputs.{Puts};

use crate::output::Output;
use am_group::MountState;
use am_machine::Answer;
use am_names::{Errno, MountIds, Place};
use am_state::Record;
use itoa::Buffer;
use std::alloc::AllocError;
use std::io::Write;

/// Writes an answer and a line feed behind what the buffer has.
pub fn push_answer(line: &mut Vec<u8>, answer: &Answer) -> Result<(), AllocError>
    ensures { OnOk result (line.new.items ≡ line.old.items ++ answer_line answer.now) }
{
    let mut output = Output::new();
    put_answer(&mut output, answer, line);
    output.flush(line);
    match output.lost {
        None => Ok(()),
        Some(_) => Err(AllocError),
    }
}

/// Puts the line of an answer behind what the output keeps.
#[tactic(auto, using(crate::proofs::Pieces::puts_two))]
pub fn put_answer<W: Write>(output: &mut Output, answer: &Answer, writer: &mut W)
    ensures { Puts output.old output.new (answer_line answer.now) (W.contents writer.old)
        (W.contents writer.new) }
{
    put_text(output, answer, writer);
    put_word(output, b"\n", writer);
}

/// Whether nothing was done.
pub fn is_refused(answer: &Answer) -> bool
    ensures { result ≡ is_refused answer.now }
{
    match answer {
        Answer::Refused { .. } => true,
        _ => false,
    }
}

/// Puts out what an answer says.
#[tactic(auto, using(crate::proofs::Pieces::puts_two, crate::proofs::Pieces::puts_three))]
pub fn put_text<W: Write>(output: &mut Output, answer: &Answer, writer: &mut W)
    ensures { Puts output.old output.new (answer_text answer.now) (W.contents writer.old)
        (W.contents writer.new) }
{
    match answer {
        Answer::Attached { fs, attach, mount } => {
            put_number(output, b"fs ", u64::from(fs.0), writer);
            put_number(output, b" attach ", u64::from(attach.0), writer);
            put_number(output, b" mount ", mount.0, writer)
        }
        Answer::Mount { mount } => put_number(output, b"mount ", mount.0, writer),
        Answer::Gone { mounts } => {
            put_word(output, b"gone", writer);
            put_mounts(output, mounts, writer)
        }
        Answer::Done => put_word(output, b"ok", writer),
        Answer::Kind { kind } => {
            put_word(output, b"kind ", writer);
            put_kind(output, *kind, writer)
        }
        Answer::Namespace { ns } => put_number(output, b"ns ", u64::from(ns.0), writer),
        Answer::At { position } => {
            put_number(output, b"at ", position.mount.0, writer);
            put_word(output, b" ", writer);
            put_place(output, &position.place, writer)
        }
        Answer::Wait { token } => put_number(output, b"wait ", u64::from(token.0), writer),
        Answer::Expired => put_word(output, b"expired", writer),
        Answer::Job { job } => put_number(output, b"job ", u64::from(job.0), writer),
        Answer::DidMkdir => put_word(output, b"did mkdir", writer),
        Answer::DidMount { mount } => put_number(output, b"did mount ", mount.0, writer),
        Answer::DidUmount => put_word(output, b"did umount", writer),
        Answer::DidRmdir => put_word(output, b"did rmdir", writer),
        Answer::DidRecord => put_word(output, b"did record", writer),
        Answer::DidReply => put_word(output, b"did reply", writer),
        Answer::FailedMount => put_word(output, b"failed mount", writer),
        Answer::FailedUmount => put_word(output, b"failed umount", writer),
        Answer::Reattached { attach } => put_number(
            output,
            b"attach ",
            u64::from(attach.0),
            writer,
        ),
        Answer::Record { entry } => {
            put_word(output, b"record ", writer);
            put_entry(output, entry, writer)
        }
        Answer::Refused { errno } => put_errno(output, b"err ", *errno, writer),
        Answer::Failed { errno } => put_errno(output, b"fail ", *errno, writer),
    }
}

/// Puts a text out.
pub fn put_word<W: Write>(output: &mut Output, word: &[u8], writer: &mut W)
    ensures { Puts output.old output.new word.now (W.contents writer.old) (W.contents writer.new) }
{
    output.put(word, writer);
}

/// Puts a text and a number out.
#[tactic(auto, using(crate::proofs::Pieces::puts_two))]
pub fn put_number<W: Write>(output: &mut Output, word: &[u8], number: u64, writer: &mut W)
    ensures { Puts output.old output.new (word.now ++ decimal number) (W.contents writer.old)
        (W.contents writer.new) }
{
    let mut digits = Buffer::new();
    put_word(output, word, writer);
    put_word(output, digits.format(number).as_bytes(), writer);
}

fn put_errno<W: Write>(output: &mut Output, word: &[u8], errno: Errno, writer: &mut W)
    ensures { Puts output.old output.new (word.now ++ decimal (errno_number errno))
        (W.contents writer.old) (W.contents writer.new) }
{
    put_number(output, word, u64::from(errno.number()), writer)
}

/// Puts numbers of mounts out, each behind a blank.
#[tactic(auto, using(crate::proofs::Pieces::puts_none))]
pub fn put_mounts<W: Write>(output: &mut Output, mounts: &MountIds, writer: &mut W)
    ensures { Puts output.old output.new (mounts_text mounts.now) (W.contents writer.old)
        (W.contents writer.new) }
{
    for mount in mounts.as_slice() {
        put_number(output, b" ", mount.0, writer);
    }
}

fn put_kind<W: Write>(output: &mut Output, kind: MountState, writer: &mut W)
    ensures { Puts output.old output.new (kind_text kind) (W.contents writer.old)
        (W.contents writer.new) }
{
    match kind {
        MountState::Shared => put_word(output, b"shared", writer),
        MountState::Slave => put_word(output, b"slave", writer),
        MountState::SharedSlave => put_word(output, b"shared-slave", writer),
        MountState::Private => put_word(output, b"private", writer),
        MountState::Unbindable => put_word(output, b"unbindable", writer),
    }
}

/// Puts a path out: one slash for the root, else each name behind a slash.
pub fn put_place<W: Write>(output: &mut Output, place: &Place, writer: &mut W)
    ensures { Puts output.old output.new (place_text place.now) (W.contents writer.old)
        (W.contents writer.new) }
{
    let text = place.text();
    if text.is_empty() {
        put_word(output, b"/", writer);
        return;
    }
    put_word(output, text, writer);
}

/// Puts out what the book says of a trigger.
pub fn put_entry<W: Write>(output: &mut Output, entry: &Option<Record>, writer: &mut W)
    ensures { Puts output.old output.new (entry_text entry.now) (W.contents writer.old)
        (W.contents writer.new) }
{
    match entry {
        None => put_word(output, b"none", writer),
        Some(entry) => put_record(output, entry, writer),
    }
}

#[tactic(auto, using(crate::proofs::Pieces::puts_two))]
fn put_record<W: Write>(output: &mut Output, entry: &Record, writer: &mut W)
    ensures { Puts output.old output.new (record_text entry.now) (W.contents writer.old)
        (W.contents writer.new) }
{
    match entry {
        Record::Mounting { token } => put_number(output, b"mounting ", u64::from(token.0), writer),
        Record::Mounted { mount } => put_number(output, b"mounted ", mount.0, writer),
        Record::Unmounting { token, mount } => {
            put_number(output, b"unmounting ", u64::from(token.0), writer);
            put_number(output, b" ", mount.0, writer)
        }
    }
}
