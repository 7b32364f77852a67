//! The words of a question.

ghost use Rattle.std.specs.Prelude.{◌≡◌, Ok, IfOk, IfErr};
ghost use Rattle.am_lines.specs.{words_of};
ghost use Rattle.am_scenes.specs.Asking.{asks_of};
ghost use Rattle.am_scenes.specs.QuestionWords.{are_world_words, asked_of, begins_with_digit, event_count, event_index, event_numbered, line_read, no_line_read, question_read, thread_named};
ghost use Rattle.am_scenes.specs.Reading.{Stops};

use crate::answer_words::read_sought;
use crate::fault::SceneFaultKind;
use crate::line::{is_only, is_word};
use crate::number::read_u64;
use crate::thread_name::ThreadName;
use am_explore::{Question, Thread};
use am_lines::{begins_with, next_word};
use std::alloc::Global;

/// The index of the thread of this name.
pub(crate) fn thread_named(names: &[ThreadName], name: &[u8]) -> Option<usize>
    ensures { result ≡ thread_named names.now name.now }
{
    names.iter().position(|other| other.is_named(name))
}

/// How many events the thread at this index has.
fn event_count(threads: &[Thread], thread: usize) -> usize
    ensures { result ≡ event_count threads.now thread }
{
    match threads.get(thread) {
        Some(thread) => thread.events.len(),
        None => 0,
    }
}

/// The index of the event of this number, from 1, of so many.
fn event_numbered(count: usize, number: usize) -> Option<usize>
    ensures { result ≡ event_numbered count number }
{
    if number == 0 {
        return None;
    }
    if count < number {
        return None;
    }
    Some(number - 1)
}

/// The index of the event that these digits number.
fn event_index(count: usize, digits: &[u8]) -> Option<usize>
    ensures { result ≡ event_index count digits.now }
{
    event_numbered(count, read_u64(digits)? as usize)
}

/// What is asked of this thread, which has so many events.
fn read_asked(
    alloc: Global,
    thread: usize,
    count: usize,
    words: &[u8],
) -> Result<Question, SceneFaultKind>
    ensures ok { IfOk result (λ question. asked_of thread count (words_of words.now)
        ≡ Ok (asks_of question)) }
    ensures err { IfErr result (Stops (asked_of thread count (words_of words.now))) }
{
    let Some((word, behind)) = next_word(words) else {
        return Err(SceneFaultKind::BadQuestion);
    };
    if is_only(b"waiting", words) {
        return Ok(Question::Waiting { thread });
    }
    let Some(event) = event_index(count, word) else {
        return Err(SceneFaultKind::NoSuchEvent);
    };
    match read_sought(alloc, behind)? {
        Some(sought) => Ok(Question::Answered {
            thread,
            event,
            sought,
        }),
        None => Err(SceneFaultKind::BadAnswer),
    }
}

fn begins_with_digit(word: &[u8]) -> bool
    ensures { result ≡ begins_with_digit word.now }
{
    match word {
        [first, ..] => *first >= b'0' && *first <= b'9',
        [] => false,
    }
}

/// Whether the words are such as a line of a world's text has, of which `*` is any.
fn are_world_words(words: &[u8]) -> bool
    ensures { result ≡ are_world_words (words_of words.now) }
{
    match next_word(words) {
        None => false,
        Some((word, _)) => {
            begins_with_digit(word) || begins_with(word, b'#') || is_word(word, b"*")
        }
    }
}

/// Whether the world's text has a line of these words.
fn read_line(alloc: Global, words: &[u8]) -> Result<Question, SceneFaultKind>
    ensures ok { IfOk result (λ question. line_read (words_of words.now) ≡ Ok (asks_of question)) }
    ensures err { IfErr result (Stops (line_read (words_of words.now))) }
{
    if !are_world_words(words) {
        return Err(SceneFaultKind::NoSuchThread);
    }
    Ok(Question::Shows {
        line: Vec::from_slice(alloc, words)?,
    })
}

/// Whether it has none, as `always` asks.
pub(crate) fn read_no_line(alloc: Global, words: &[u8]) -> Result<Question, SceneFaultKind>
    ensures ok { IfOk result (λ question. no_line_read (words_of words.now)
        ≡ Ok (asks_of question)) }
    ensures err { IfErr result (Stops (no_line_read (words_of words.now))) }
{
    if !are_world_words(words) {
        return Err(SceneFaultKind::BadQuestion);
    }
    Ok(Question::Lacks {
        line: Vec::from_slice(alloc, words)?,
    })
}

/// What is asked, of one of these threads or of the world's text.
pub(crate) fn read_question(
    alloc: Global,
    names: &[ThreadName],
    threads: &[Thread],
    words: &[u8],
) -> Result<Question, SceneFaultKind>
    ensures ok { IfOk result (λ question. question_read names.now threads.now (words_of words.now)
        ≡ Ok (asks_of question)) }
    ensures err { IfErr result (Stops (question_read names.now threads.now
        (words_of words.now))) }
{
    let Some((word, behind)) = next_word(words) else {
        return Err(SceneFaultKind::BadQuestion);
    };
    match thread_named(names, word) {
        Some(thread) => read_asked(alloc, thread, event_count(threads, thread), behind),
        None => read_line(alloc, words),
    }
}
