//! The words of event lines that are neither plain numbers nor paths.

ghost use Rattle.std.specs.Prelude.{◌≡◌, bytes_eq};
ghost use Rattle.am_lines.specs.{words_of};
ghost use Rattle.am_script.specs.EventWords.{pipe_read, change_read, form_read, immediate_read, failure_read, outcome_word_read, outcome_read, status_read, trigger_name_read};

use crate::number::read_u8;
use am_group::Change;
use am_lines::next_word;
use am_names::{FailNo, Name, PipeState, Status};
use am_propagate::CopyForm;

pub(crate) fn is_word(word: &[u8], text: &[u8]) -> bool
    ensures { result ≡ bytes_eq word.now text.now }
{
    word == text
}

/// What the kernel meets at the pipe.
pub(crate) fn read_pipe(word: &[u8]) -> Option<PipeState>
    ensures { result ≡ pipe_read word.now }
{
    if is_word(word, b"room") {
        return Some(PipeState::Room);
    }
    if is_word(word, b"full") {
        return Some(PipeState::Full);
    }
    if is_word(word, b"gone") {
        return Some(PipeState::Gone);
    }
    None
}

/// The state that a mount is to have.
pub(crate) fn read_change(word: &[u8]) -> Option<Change>
    ensures { result ≡ change_read word.now }
{
    if is_word(word, b"shared") {
        return Some(Change::MakeShared);
    }
    if is_word(word, b"slave") {
        return Some(Change::MakeSlave);
    }
    if is_word(word, b"private") {
        return Some(Change::MakePrivate);
    }
    if is_word(word, b"unbindable") {
        return Some(Change::MakeUnbindable);
    }
    None
}

/// The form of a namespace's copy that isn't full.
pub(crate) fn read_form(word: &[u8]) -> Option<CopyForm>
    ensures { result ≡ form_read word.now }
{
    if is_word(word, b"reduced") {
        return Some(CopyForm::Reduced);
    }
    None
}

/// Whether an expiry is of anything that isn't busy.
pub(crate) fn read_immediate(word: &[u8]) -> Option<bool>
    ensures { result ≡ immediate_read word.now }
{
    if is_word(word, b"idle") {
        return Some(false);
    }
    if is_word(word, b"immediate") {
        return Some(true);
    }
    None
}

/// The error of a failure, by its number.
fn read_failure(digits: &[u8]) -> Option<FailNo>
    ensures { result ≡ failure_read digits.now }
{
    FailNo::read(read_u8(digits)?).ok()
}

/// How an act goes, in one word: a failure without a number is with the first error.
fn read_outcome_word(word: &[u8]) -> Option<Option<FailNo>>
    ensures { result ≡ outcome_word_read word.now }
{
    if is_word(word, b"ok") {
        return Some(None);
    }
    if is_word(word, b"fail") {
        return Some(Some(FailNo::ENOENT));
    }
    None
}

/// How an act goes, in the words behind its job: with which error it fails, or none.
pub(crate) fn read_outcome(words: &[u8]) -> Option<Option<FailNo>>
    ensures { result ≡ outcome_read (words_of words.now) }
{
    let (word, words) = next_word(words)?;
    let Some((digits, words)) = next_word(words) else {
        return read_outcome_word(word);
    };
    if let Some(_) = next_word(words) {
        return None;
    }
    if !is_word(word, b"fail") {
        return None;
    }
    Some(Some(read_failure(digits)?))
}

/// How a notification is acknowledged.
pub(crate) fn read_status(word: &[u8]) -> Option<Status>
    ensures { result ≡ status_read word.now }
{
    if is_word(word, b"ready") {
        return Some(Status::Ready);
    }
    if is_word(word, b"fail") {
        return Some(Status::Fail(FailNo::ENOENT));
    }
    None
}

/// A name, or none where a `-` stands for a direct trigger.
pub(crate) fn read_trigger_name(word: &[u8]) -> Option<Option<Name>>
    ensures { result ≡ trigger_name_read word.now }
{
    if is_word(word, b"-") {
        return Some(None);
    }
    Some(Some(Name::read(word).ok()?))
}
