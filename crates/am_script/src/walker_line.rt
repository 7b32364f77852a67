//! The lines of what walkers do.

ghost use Rattle.std.specs.Prelude.{◌≡◌, option_map};
ghost use Rattle.am_lines.specs.{words_of};
ghost use Rattle.am_script.specs.WalkerLines.{walk_read, walk_event, resume_read, leave_read, expire_read};
ghost use Rattle.am_script.specs.Events.{ReadAs};

use crate::event_word::{read_immediate, read_pipe};
use crate::line_words::{five_words, only_word, three_words};
use crate::number::{read_u32, read_u64};
use am_machine::Event;
use am_names::{AbsPath, FsId, NsId, PipeState, Seconds, WalkerId};
use std::alloc::{AllocError, Global};

#[tactic(auto, using(crate::proofs::LineWordsLemmas::no_walk))]
fn walk_words(words: &[u8]) -> Option<(WalkerId, NsId, AbsPath<'_>, Seconds, PipeState)>
    ensures { option_map walk_event result ≡ walk_read (words_of words.now) }
{
    let (walker, ns, path, now, pipe) = five_words(words)?;
    Some((
        WalkerId(read_u32(walker)?),
        NsId(read_u32(ns)?),
        AbsPath::read(path).ok()?,
        Seconds(read_u64(now)?),
        read_pipe(pipe)?,
    ))
}

pub(crate) fn read_walk(alloc: Global, words: &[u8]) -> Result<Option<Event>, AllocError>
    ensures { ReadAs (walk_read (words_of words.now)) result }
{
    let Some((walker, ns, path, now, pipe)) = walk_words(words) else {
        return Ok(None);
    };
    Ok(Some(Event::Walk {
        walker,
        ns,
        path: path.to_place(alloc)?,
        now,
        pipe,
    }))
}

#[tactic(auto, using(crate::proofs::LineWordsLemmas::no_resume))]
pub(crate) fn read_resume(words: &[u8]) -> Option<Event>
    ensures { result ≡ resume_read (words_of words.now) }
{
    let (walker, now, pipe) = three_words(words)?;
    Some(Event::Resume {
        walker: WalkerId(read_u32(walker)?),
        now: Seconds(read_u64(now)?),
        pipe: read_pipe(pipe)?,
    })
}

#[tactic(auto, using(crate::proofs::LineWordsLemmas::no_leave))]
pub(crate) fn read_leave(words: &[u8]) -> Option<Event>
    ensures { result ≡ leave_read (words_of words.now) }
{
    let walker = only_word(words)?;
    Some(Event::Leave {
        walker: WalkerId(read_u32(walker)?),
    })
}

#[tactic(auto, using(crate::proofs::LineWordsLemmas::no_expire))]
pub(crate) fn read_expire(words: &[u8]) -> Option<Event>
    ensures { result ≡ expire_read (words_of words.now) }
{
    let (walker, fs, now, how, pipe) = five_words(words)?;
    Some(Event::Expire {
        walker: WalkerId(read_u32(walker)?),
        fs: FsId(read_u32(fs)?),
        now: Seconds(read_u64(now)?),
        immediate: read_immediate(how)?,
        pipe: read_pipe(pipe)?,
    })
}
