//! The lines of what the daemon does.

ghost use Rattle.std.specs.Prelude.{◌≡◌, option_map};
ghost use Rattle.am_lines.specs.{words_of};
ghost use Rattle.am_script.specs.DaemonLines.{attach_read, attach_event, deliver_read, deliver_event, act_read, repeat_read, catatonic_read, timeout_read, die_read, reattach_read, record_read, record_event};
ghost use Rattle.am_script.specs.Events.{ReadAs};

use crate::event_word::{read_outcome, read_status, read_trigger_name};
use crate::line_words::{only_word, three_words, two_words};
use crate::number::{read_packet, read_u32};
use am_lines::next_word;
use am_machine::{Event, keep_bytes};
use am_names::{AbsPath, Attach, FsId, JobId, Token, Trigger};
use am_state::KeptTrigger;
use std::alloc::{AllocError, Global};

#[tactic(auto, using(crate::proofs::LineWordsLemmas::no_attach))]
fn attach_words(words: &[u8]) -> Option<AbsPath<'_>>
    ensures { option_map attach_event result ≡ attach_read (words_of words.now) }
{
    AbsPath::read(only_word(words)?).ok()
}

pub(crate) fn read_attach(alloc: Global, words: &[u8]) -> Result<Option<Event>, AllocError>
    ensures { ReadAs (attach_read (words_of words.now)) result }
{
    let Some(path) = attach_words(words) else {
        return Ok(None);
    };
    Ok(Some(Event::Attach {
        path: path.to_place(alloc)?,
    }))
}

fn deliver_words(words: &[u8]) -> Option<(Token, Option<[u8; 304]>)>
    ensures { option_map deliver_event result ≡ deliver_read (words_of words.now) }
{
    let (token, words) = next_word(words)?;
    let Some((digits, words)) = next_word(words) else {
        return Some((Token(read_u32(token)?), None));
    };
    if let Some(_) = next_word(words) {
        return None;
    }
    Some((Token(read_u32(token)?), Some(read_packet(digits)?)))
}

pub(crate) fn read_deliver(alloc: Global, words: &[u8]) -> Result<Option<Event>, AllocError>
    ensures { ReadAs (deliver_read (words_of words.now)) result }
{
    let Some((token, bytes)) = deliver_words(words) else {
        return Ok(None);
    };
    Ok(Some(Event::Deliver {
        token,
        bytes: keep_bytes(alloc, &bytes)?,
    }))
}

pub(crate) fn read_act(words: &[u8]) -> Option<Event>
    ensures { result ≡ act_read (words_of words.now) }
{
    let (job, outcome) = next_word(words)?;
    Some(Event::Act {
        job: JobId(read_u32(job)?),
        failure: read_outcome(outcome)?,
    })
}

#[tactic(auto, using(crate::proofs::LineWordsLemmas::no_repeat))]
pub(crate) fn read_repeat(words: &[u8]) -> Option<Event>
    ensures { result ≡ repeat_read (words_of words.now) }
{
    let (attach, token, status) = three_words(words)?;
    Some(Event::Repeat {
        attach: Attach(read_u32(attach)?),
        token: Token(read_u32(token)?),
        status: read_status(status)?,
    })
}

#[tactic(auto, using(crate::proofs::LineWordsLemmas::no_catatonic))]
pub(crate) fn read_catatonic(words: &[u8]) -> Option<Event>
    ensures { result ≡ catatonic_read (words_of words.now) }
{
    let (attach, fs) = two_words(words)?;
    Some(Event::Catatonic {
        attach: Attach(read_u32(attach)?),
        fs: FsId(read_u32(fs)?),
    })
}

#[tactic(auto, using(crate::proofs::LineWordsLemmas::no_timeout))]
pub(crate) fn read_timeout(words: &[u8]) -> Option<Event>
    ensures { result ≡ timeout_read (words_of words.now) }
{
    let (attach, fs, seconds) = three_words(words)?;
    Some(Event::Timeout {
        attach: Attach(read_u32(attach)?),
        fs: FsId(read_u32(fs)?),
        timeout: read_u32(seconds)?,
    })
}

pub(crate) fn read_die(words: &[u8]) -> Option<Event>
    ensures { result ≡ die_read (words_of words.now) }
{
    if let Some(_) = next_word(words) {
        return None;
    }
    Some(Event::Die)
}

#[tactic(auto, using(crate::proofs::LineWordsLemmas::no_reattach))]
pub(crate) fn read_reattach(words: &[u8]) -> Option<Event>
    ensures { result ≡ reattach_read (words_of words.now) }
{
    let fs = only_word(words)?;
    Some(Event::Reattach {
        fs: FsId(read_u32(fs)?),
    })
}

#[tactic(auto, using(crate::proofs::LineWordsLemmas::no_record))]
fn record_words(words: &[u8]) -> Option<Trigger>
    ensures { option_map record_event result ≡ record_read (words_of words.now) }
{
    let (fs, name) = two_words(words)?;
    Some(Trigger {
        fs: FsId(read_u32(fs)?),
        name: read_trigger_name(name)?,
    })
}

pub(crate) fn read_record(alloc: Global, words: &[u8]) -> Result<Option<Event>, AllocError>
    ensures { ReadAs (record_read (words_of words.now)) result }
{
    let Some(trigger) = record_words(words) else {
        return Ok(None);
    };
    Ok(Some(Event::Record {
        trigger: KeptTrigger::new(alloc, &trigger)?,
    }))
}
