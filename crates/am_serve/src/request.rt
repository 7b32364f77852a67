//! What a line is to a session.

ghost use Rattle.std.specs.Prelude.{◌≡◌, option_map, Some};
ghost use Rattle.std.specs.Result.{result_ok};
ghost use Rattle.am_lines.specs.{words_of};
ghost use Rattle.am_serve.specs.Requests.{alone, asks_by, is_marked, kind_by, kind_of_mount, number_alone, question_by, request_by, request_in, request_of, reset_by, world_asked};
ghost use Rattle.am_names.specs.Path.{path_read};
ghost use Rattle.am_script.specs.{is_long};
ghost use Rattle.am_script.specs.Numbers.{u32_read};
ghost use Rattle.am_serve.specs.declared.request.Question.TheVariants as asks;

use crate::number::read_u32;
use crate::word::is_word;
use am_lines::{begins_with, next_word};
use am_names::{AbsPath, JobId, NsId, WalkerId};

/// A question, which changes nothing.
#[derive(Clone, Copy)]
pub enum Question {
    /// What the last event showed.
    Trace,
    /// The world as it is, or one namespace of it.
    World { only: Option<NsId> },
    /// What a job does next.
    Next { job: JobId },
    /// The token on which a walker waits.
    Waiting { walker: WalkerId },
    /// Whether all that was observed is lawful.
    Lawful,
}

/// What a line is to a session.
#[derive(Drop)]
pub enum Request<'a> {
    /// It has more than 8,192 bytes.
    Long,
    /// A new head is to begin.
    Reset,
    Asks { question: Question },
    /// What an event `kind` would be answered.
    AsksKind { ns: NsId, path: AbsPath<'a> },
    /// It begins as a question or a command does, and is none that there is.
    Unknown,
    /// It is a line of a script.
    Plain,
}

/// A question that has no words but its first.
fn alone(question: Question, words: &[u8]) -> Option<Question>
    ensures { result ≡ alone question (words_of words.now) }
{
    match next_word(words) {
        None => Some(question),
        Some(_) => None,
    }
}

/// The number that is the only word.
fn number_alone(words: &[u8]) -> Option<u32>
    ensures { result ≡ number_alone (words_of words.now) }
{
    let (digits, words) = next_word(words)?;
    if let Some(_) = next_word(words) {
        return None;
    }
    read_u32(digits)
}

fn namespace_asked(words: &[u8]) -> Option<Question>
    ensures { result ≡ option_map (λ ns. asks.World (Some ns)) (number_alone (words_of words.now)) }
{
    let ns = number_alone(words)?;
    Some(Question::World {
        only: Some(NsId(ns)),
    })
}

fn world_asked(words: &[u8]) -> Option<Question>
    ensures { result ≡ world_asked (words_of words.now) }
{
    match next_word(words) {
        None => Some(Question::World { only: None }),
        Some(_) => namespace_asked(words),
    }
}

fn next_asked(words: &[u8]) -> Option<Question>
    ensures { result ≡ option_map asks.Next (number_alone (words_of words.now)) }
{
    let job = number_alone(words)?;
    Some(Question::Next { job: JobId(job) })
}

fn waiting_asked(words: &[u8]) -> Option<Question>
    ensures { result ≡ option_map asks.Waiting (number_alone (words_of words.now)) }
{
    let walker = number_alone(words)?;
    Some(Question::Waiting {
        walker: WalkerId(walker),
    })
}

/// The question that a line asks, by its first word and what stands behind that: an arm for each word
/// of the table of questions (docs/FORMATS.md, "Sessions").
#[tactic(auto, unfolding(crate::specs::Requests::question_by))]
fn question_by(word: &[u8], words: &[u8]) -> Option<Question>
    ensures { result ≡ question_by word.now (words_of words.now) }
{
    match word {
        _ if is_word(word, b"?trace") => alone(Question::Trace, words),
        _ if is_word(word, b"?world") => world_asked(words),
        _ if is_word(word, b"?next") => next_asked(words),
        _ if is_word(word, b"?waiting") => waiting_asked(words),
        _ if is_word(word, b"?lawful") => alone(Question::Lawful, words),
        _ => None,
    }
}

fn is_marked(word: &[u8]) -> bool
    ensures { result ≡ is_marked word.now }
{
    begins_with(word, b'?') || begins_with(word, b'!')
}

fn reset_by(words: &[u8]) -> Request<'_>
    ensures { result ≡ reset_by (words_of words.now) }
{
    match next_word(words) {
        None => Request::Reset,
        Some(_) => Request::Unknown,
    }
}

/// The mount of which `?kind` asks.
fn kind_of_mount<'a>(ns: &[u8], path: &'a [u8]) -> Request<'a>
    ensures { result ≡ kind_of_mount (u32_read ns.now) (result_ok (path_read path.now)) }
{
    let Some(ns) = read_u32(ns) else {
        return Request::Unknown;
    };
    match AbsPath::read(path) {
        Ok(path) => Request::AsksKind { ns: NsId(ns), path },
        Err(_) => Request::Unknown,
    }
}

fn kind_by(words: &[u8]) -> Request<'_>
    ensures { result ≡ kind_by (words_of words.now) }
{
    let Some((ns, words)) = next_word(words) else {
        return Request::Unknown;
    };
    let Some((path, words)) = next_word(words) else {
        return Request::Unknown;
    };
    if let Some(_) = next_word(words) {
        return Request::Unknown;
    }
    kind_of_mount(ns, path)
}

fn asks_by<'a>(question: Option<Question>) -> Request<'a>
    ensures { result ≡ asks_by question }
{
    match question {
        Some(question) => Request::Asks { question },
        None => Request::Unknown,
    }
}

fn request_by<'a>(word: &[u8], words: &'a [u8]) -> Request<'a>
    ensures { result ≡ request_by word.now (words_of words.now) }
{
    if is_word(word, b"!reset") {
        return reset_by(words);
    }
    if is_word(word, b"?kind") {
        return kind_by(words);
    }
    if is_marked(word) {
        return asks_by(question_by(word, words));
    }
    Request::Plain
}

fn request_in(line: &[u8]) -> Request<'_>
    ensures { result ≡ request_in (words_of line.now) }
{
    match next_word(line) {
        None => Request::Plain,
        Some((word, words)) => request_by(word, words),
    }
}

pub(crate) fn is_long(line: &[u8]) -> bool
    ensures { result ≡ is_long line.now }
{
    line.len() > 8192
}

/// What a line is, within a section of a head or not.
pub(crate) fn request_of(within: bool, line: &[u8]) -> Request<'_>
    ensures { result ≡ request_of within line.now }
{
    if is_long(line) {
        return Request::Long;
    }
    if within {
        return Request::Plain;
    }
    request_in(line)
}
