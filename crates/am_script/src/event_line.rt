//! The events that lines spell.

ghost use Rattle.std.specs.Prelude.{◌≡◌};
ghost use Rattle.am_lines.specs.{words_of};
ghost use Rattle.am_script.specs.Events.{event_by_word, event_read, IsLater, ReadAs};

use crate::administrator_line::{
    read_admincat, read_bind, read_change_line, read_kind, read_mount, read_nscopy, read_nsdrop,
    read_umount,
};
use crate::daemon_line::{
    read_act, read_attach, read_catatonic, read_deliver, read_die, read_reattach, read_record,
    read_repeat, read_timeout,
};
use crate::event_word::is_word;
use crate::walker_line::{read_expire, read_leave, read_resume, read_walk};
use am_lines::next_word;
use am_machine::Event;
use std::alloc::{AllocError, Global};

/// The event of a line, by its first word and what stands behind that: an arm for each word of the
/// table of events (docs/FORMATS.md, "Events").
#[tactic(auto, unfolding(crate::specs::Events::event_by_word))]
fn read_by_word(alloc: Global, word: &[u8], words: &[u8]) -> Result<Option<Event>, AllocError>
    ensures { ReadAs (event_by_word word.now (words_of words.now)) result }
{
    match word {
        _ if is_word(word, b"attach") => read_attach(alloc, words),
        _ if is_word(word, b"mount") => read_mount(alloc, words),
        _ if is_word(word, b"bind") => read_bind(alloc, words),
        _ if is_word(word, b"umount") => read_umount(alloc, words),
        _ if is_word(word, b"change") => read_change_line(alloc, words),
        _ if is_word(word, b"kind") => read_kind(alloc, words),
        _ if is_word(word, b"nscopy") => Ok(read_nscopy(words)),
        _ if is_word(word, b"nsdrop") => Ok(read_nsdrop(words)),
        _ if is_word(word, b"walk") => read_walk(alloc, words),
        _ => read_later(alloc, word, words),
    }
}

/// The event of a line by the later words of that table.
#[tactic(auto, unfolding(crate::specs::Events::event_by_word))]
fn read_later(alloc: Global, word: &[u8], words: &[u8]) -> Result<Option<Event>, AllocError>
    requires { IsLater word.now }
    ensures { ReadAs (event_by_word word.now (words_of words.now)) result }
{
    match word {
        _ if is_word(word, b"resume") => Ok(read_resume(words)),
        _ if is_word(word, b"leave") => Ok(read_leave(words)),
        _ if is_word(word, b"expire") => Ok(read_expire(words)),
        _ if is_word(word, b"deliver") => read_deliver(alloc, words),
        _ if is_word(word, b"act") => Ok(read_act(words)),
        _ if is_word(word, b"repeat") => Ok(read_repeat(words)),
        _ if is_word(word, b"catatonic") => Ok(read_catatonic(words)),
        _ if is_word(word, b"admincat") => Ok(read_admincat(words)),
        _ if is_word(word, b"timeout") => Ok(read_timeout(words)),
        _ if is_word(word, b"die") => Ok(read_die(words)),
        _ if is_word(word, b"reattach") => Ok(read_reattach(words)),
        _ if is_word(word, b"record") => read_record(alloc, words),
        _ => Ok(None),
    }
}

/// The event that a line spells.
pub fn read_event(alloc: Global, line: &[u8]) -> Result<Option<Event>, AllocError>
    ensures { ReadAs (event_read (words_of line.now)) result }
{
    let Some((word, words)) = next_word(line) else {
        return Ok(None);
    };
    read_by_word(alloc, word, words)
}
