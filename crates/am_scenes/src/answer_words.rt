//! The words by which a question says what answer it asks for.

ghost use Rattle.std.specs.Prelude.{◌≡◌, option_map, IfOk};
ghost use Rattle.am_lines.specs.{words_of};
ghost use Rattle.am_scenes.specs.AnswerWords.{any_read, at_answer, at_read, errno_numbered, errno_read, numbered_read, sought_read, star_read, value_read};
ghost use Rattle.am_explore.specs.declared.question.Sought.TheVariants as sought_as;

use crate::line::is_word;
use crate::number::{read_u8, read_u32, read_u64};
use am_explore::Sought;
use am_lines::next_word;
use am_machine::Answer;
use am_names::{AbsPath, Errno, MountId, Position, Token};
use std::alloc::{AllocError, Global};

/// The error of this number, if there is one.
fn errno_numbered(number: u8) -> Option<Errno>
    ensures { result ≡ errno_numbered number }
{
    match number {
        1 => Some(Errno::ENOENT),
        2 => Some(Errno::EPERM),
        3 => Some(Errno::EBUSY),
        4 => Some(Errno::EEXIST),
        5 => Some(Errno::EINVAL),
        6 => Some(Errno::EAGAIN),
        7 => Some(Errno::ELOOP),
        8 => Some(Errno::ENAMETOOLONG),
        9 => Some(Errno::ENOSPC),
        10 => Some(Errno::NoMemory),
        11 => Some(Errno::NotReleased),
        12 => Some(Errno::Stranger),
        _ => None,
    }
}

fn read_errno(digits: &[u8]) -> Option<Errno>
    ensures { result ≡ errno_read digits.now }
{
    errno_numbered(read_u8(digits)?)
}

/// Any answer that begins with this word.
fn read_any(word: &[u8]) -> Option<Sought>
    ensures { result ≡ any_read word.now }
{
    if is_word(word, b"wait") {
        return Some(Sought::AnyWait);
    }
    if is_word(word, b"at") {
        return Some(Sought::AnyAt);
    }
    if is_word(word, b"err") {
        return Some(Sought::AnyRefused);
    }
    if is_word(word, b"fail") {
        return Some(Sought::AnyFailed);
    }
    None
}

/// The answer of this word and this number.
fn read_numbered(word: &[u8], digits: &[u8]) -> Option<Answer>
    ensures { result ≡ numbered_read word.now digits.now }
{
    if is_word(word, b"wait") {
        return Some(Answer::Wait {
            token: Token(read_u32(digits)?),
        });
    }
    if is_word(word, b"err") {
        return Some(Answer::Refused {
            errno: read_errno(digits)?,
        });
    }
    if is_word(word, b"fail") {
        return Some(Answer::Failed {
            errno: read_errno(digits)?,
        });
    }
    None
}

/// The mount and the path of an arrival.
fn at_words<'a>(word: &[u8], mount: &[u8], path: &'a [u8]) -> Option<(MountId, AbsPath<'a>)>
    ensures { option_map at_answer result ≡ at_read word.now mount.now path.now }
{
    if !is_word(word, b"at") {
        return None;
    }
    Some((MountId(read_u64(mount)?), AbsPath::read(path).ok()?))
}

/// The arrival that these words are.
fn read_at(
    alloc: Global,
    word: &[u8],
    mount: &[u8],
    path: &[u8],
) -> Result<Option<Sought>, AllocError>
    ensures { IfOk result (λ sought. sought
        ≡ option_map sought_as.Exactly (at_read word.now mount.now path.now)) }
{
    let Some((mount, path)) = at_words(word, mount, path) else {
        return Ok(None);
    };
    let place = path.to_place(alloc)?;
    Ok(Some(Sought::Exactly {
        answer: Answer::At {
            position: Position { mount, place },
        },
    }))
}

/// Any answer at all.
fn read_star(word: &[u8]) -> Option<Sought>
    ensures { result ≡ star_read word.now }
{
    if is_word(word, b"*") {
        return Some(Sought::Any);
    }
    None
}

/// Any answer of the word, or the one with this number.
fn read_value(word: &[u8], value: &[u8]) -> Option<Sought>
    ensures { result ≡ value_read word.now value.now }
{
    if is_word(value, b"*") {
        return read_any(word);
    }
    Some(Sought::Exactly {
        answer: read_numbered(word, value)?,
    })
}

/// The answers that these words ask for, if they are such.
pub(crate) fn read_sought(alloc: Global, words: &[u8]) -> Result<Option<Sought>, AllocError>
    ensures { IfOk result (λ sought. sought ≡ sought_read (words_of words.now)) }
{
    let Some((word, words)) = next_word(words) else {
        return Ok(None);
    };
    let Some((value, words)) = next_word(words) else {
        return Ok(read_star(word));
    };
    let Some((path, words)) = next_word(words) else {
        return Ok(read_value(word, value));
    };
    if let Some(_) = next_word(words) {
        return Ok(None);
    }
    read_at(alloc, word, value, path)
}
