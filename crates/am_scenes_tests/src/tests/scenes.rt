//! What is told of texts without a fault.

use crate::tests::table::{Row, good, hold};
use am_explore::{Question, Scene, Service, Sought};
use am_lines::next_word;
use am_machine::Answer;
use am_names::{Errno, FailNo};
use am_scenes::{Asked, Claim, ThreadName, Told};
use am_script::answer_line::push_answer;
use std::alloc::Global;

/// A thread: its name, and how many events it has.
type Named = (&'static [u8], usize);

/// What a question asks, of the thread at an index or of the world's text.
enum Wanted {
    Waiting(usize),
    /// Of its event at this index, any of these answers, by the word with which they begin.
    Any(usize, usize, &'static [u8]),
    /// Exactly the answer that is written as this line.
    Exactly(usize, usize, &'static [u8]),
    /// That there is a line of these words.
    Shown(&'static [u8]),
    /// That there is none.
    Lacking(&'static [u8]),
}

/// A question: its line, and what it asks.
type Line = (u64, Claim, Wanted);

/// A text behind the eight lines of `HEAD`, its threads, how its daemon serves, and its questions.
struct Text {
    text: &'static [u8],
    threads: &'static [Named],
    results: Option<&'static [Option<FailNo>]>,
    asked: &'static [Line],
}

fn has_threads(scene: &Scene, names: &[ThreadName], wanted: &[Named]) -> bool {
    if scene.threads.len() != wanted.len() || names.len() != wanted.len() {
        return false;
    }
    for ((thread, name), (word, count)) in scene.threads.iter().zip(names).zip(wanted) {
        if name.as_bytes() != *word || !name.is_named(word) || name.is_named(b"nobody") {
            return false;
        }
        if thread.events.len() != *count {
            return false;
        }
    }
    true
}

fn serves(daemon: &Option<Service>, wanted: Option<&[Option<FailNo>]>) -> bool {
    match (daemon, wanted) {
        (None, None) => true,
        (Some(service), Some(results)) => service.results.as_slice() == results,
        _ => false,
    }
}

/// The word with which the answers begin that are sought.
fn word_of(sought: &Sought) -> &'static [u8] {
    match sought {
        Sought::Any => b"*",
        Sought::AnyWait => b"wait",
        Sought::AnyAt => b"at",
        Sought::AnyRefused => b"err",
        Sought::AnyFailed => b"fail",
        Sought::Exactly { .. } => b"",
    }
}

fn is_written(alloc: Global, answer: &Answer, wanted: &[u8]) -> Result<bool, Errno> {
    let mut line = Vec::new(alloc);
    push_answer(&mut line, answer)?;
    Ok(line.as_slice() == wanted)
}

/// Whether exactly this answer is sought.
fn is_exactly(alloc: Global, sought: &Sought, wanted: &[u8]) -> Result<bool, Errno> {
    match sought {
        Sought::Exactly { answer } => is_written(alloc, answer, wanted),
        _ => Ok(false),
    }
}

/// Whether two lines have the same words.
fn are_same_words(line: &[u8], other: &[u8]) -> bool {
    let mut line = line;
    let mut other = other;
    for _word in 0..u64::MAX {
        let Some((word, behind)) = next_word(line) else {
            return next_word(other).is_none();
        };
        match next_word(other) {
            Some((same, rest)) if word == same => other = rest,
            _ => return false,
        }
        line = behind;
    }
    false
}

fn asks(alloc: Global, question: &Question, wanted: &Wanted) -> Result<bool, Errno> {
    match (question, wanted) {
        (Question::Waiting { thread }, Wanted::Waiting(index)) => Ok(thread == index),
        (
            Question::Answered {
                thread,
                event,
                sought,
            },
            Wanted::Any(index, of, word),
        ) => Ok(thread == index && event == of && word_of(sought) == *word),
        (
            Question::Answered {
                thread,
                event,
                sought,
            },
            Wanted::Exactly(index, of, line),
        ) => Ok(thread == index && event == of && is_exactly(alloc, sought, line)?),
        (Question::Shows { line }, Wanted::Shown(words)) => Ok(are_same_words(line, words)),
        (Question::Lacks { line }, Wanted::Lacking(words)) => Ok(are_same_words(line, words)),
        _ => Ok(false),
    }
}

fn are_asked(alloc: Global, asked: &[Asked], wanted: &[Line]) -> Result<bool, Errno> {
    if asked.len() != wanted.len() {
        return Ok(false);
    }
    for (one, (line, claim, wanted)) in asked.iter().zip(wanted) {
        if one.line != *line || one.claim != *claim || !asks(alloc, &one.question, wanted)? {
            return Ok(false);
        }
    }
    Ok(true)
}

fn is_told(alloc: Global, told: &Told, text: &Text) -> Result<bool, Errno> {
    if !has_threads(&told.scene, told.names.as_slice(), text.threads) {
        return Ok(false);
    }
    if !serves(&told.scene.daemon, text.results) {
        return Ok(false);
    }
    are_asked(alloc, told.asked.as_slice(), text.asked)
}

impl Row for Text {
    fn holds(&self, alloc: Global) -> Result<bool, Errno> {
        let told = good(alloc, self.text)?;
        let holds = is_told(alloc, &told, self);
        drop(told);
        holds
    }
}

static SCENES: [Text; 8] = [
    Text {
        text: b"",
        threads: &[],
        results: None,
        asked: &[],
    },
    Text {
        text: b"\n# thread a\nwalk 1 0 /auto/ada 5 room\ndeliver 9",
        threads: &[],
        results: None,
        asked: &[],
    },
    Text {
        text: b"thread a\n\n # x\n leave\t1 \n end \nthread aa\nend",
        threads: &[(b"a", 1), (b"aa", 0)],
        results: None,
        asked: &[],
    },
    Text {
        text: b"serve daemon\nthread serve\nattach /auto\nleave 1\nend\n",
        threads: &[(b"serve", 2)],
        results: Some(&[None]),
        asked: &[],
    },
    Text {
        text: b"leave 1\nserve daemon fail 9 fail 1\nthread end\nend\nsometimes end waiting\n\nnever end waiting\n",
        threads: &[(b"end", 0)],
        results: Some(&[None, Some(FailNo::ENOSPC), Some(FailNo::ENOENT)]),
        asked: &[
            (13, Claim::Sometimes, Wanted::Waiting(0)),
            (15, Claim::Never, Wanted::Waiting(0)),
        ],
    },
    Text {
        text: b"thread a\nleave 1\nend\nthread b\nleave 1\nleave 2\nend\nnever b 2 *\nsometimes a 1 wait *\nnever b 1 at *\nnever b 1 err *\nnever b 1 fail *\nnever a 1 wait 7\nnever a 1 err 12\nnever a 1 fail 1\nnever b 2 at 3 /\nnever b 2 at 4294967296 //a/b/\n",
        threads: &[(b"a", 1), (b"b", 2)],
        results: None,
        asked: &[
            (16, Claim::Never, Wanted::Any(1, 1, b"*")),
            (17, Claim::Sometimes, Wanted::Any(0, 0, b"wait")),
            (18, Claim::Never, Wanted::Any(1, 0, b"at")),
            (19, Claim::Never, Wanted::Any(1, 0, b"err")),
            (20, Claim::Never, Wanted::Any(1, 0, b"fail")),
            (21, Claim::Never, Wanted::Exactly(0, 0, b"wait 7\n")),
            (22, Claim::Never, Wanted::Exactly(0, 0, b"err 12\n")),
            (23, Claim::Never, Wanted::Exactly(0, 0, b"fail 1\n")),
            (24, Claim::Never, Wanted::Exactly(1, 1, b"at 3 /\n")),
            (
                25,
                Claim::Never,
                Wanted::Exactly(1, 1, b"at 4294967296 /a/b\n"),
            ),
        ],
    },
    Text {
        text: b"leave 1\nalways 1 1 0:1 / / rw\n",
        threads: &[],
        results: None,
        asked: &[(10, Claim::Never, Wanted::Lacking(b"1 1 0:1 / / rw"))],
    },
    // A word is a thread's name before it is a line's first.
    Text {
        text: b"thread a\nleave 1\nend\nthread 7\nend\nsometimes 1 1 0:1 / / rw\nnever  *\t9 \nalways # namespace 0\nalways * x\nnever 7 waiting\nalways 7 waiting\nsometimes 12a\nnever #\n",
        threads: &[(b"a", 1), (b"7", 0)],
        results: None,
        asked: &[
            (14, Claim::Sometimes, Wanted::Shown(b"1 1 0:1 / / rw")),
            (15, Claim::Never, Wanted::Shown(b"* 9")),
            (16, Claim::Never, Wanted::Lacking(b"# namespace 0")),
            (17, Claim::Never, Wanted::Lacking(b"* x")),
            (18, Claim::Never, Wanted::Waiting(1)),
            (19, Claim::Never, Wanted::Lacking(b"7 waiting")),
            (20, Claim::Sometimes, Wanted::Shown(b"12a")),
            (21, Claim::Never, Wanted::Shown(b"#")),
        ],
    },
];

#[test]
fn texts_are_told_as_scenes(rt: HostRuntime) {
    hold(&rt, rt.alloc(), "scenes", &SCENES);
}
