//! How an event went, and the words of errors.

ghost use Rattle.std.specs.Prelude.{◌≡◌, ◌++◌, codes, OnOk};
ghost use Rattle.am_draw.specs.Errors.{error_word, error_words, went_of, answer_class, mark_of};

use am_names::Errno;
use am_world::Answer;
use std::alloc::AllocError;

/// How an event went for whoever made it.
#[derive(Clone, Copy)]
pub enum Went {
    /// It was done.
    Well,
    /// It failed.
    Failed,
    /// Nothing was done.
    Refused,
}

pub(crate) fn error_word(error: Errno) -> &'static [u8]
    ensures { result.now ≡ error_word error }
{
    match error {
        Errno::ENOENT => b"ENOENT",
        Errno::EPERM => b"EPERM",
        Errno::EBUSY => b"EBUSY",
        Errno::EEXIST => b"EEXIST",
        Errno::EINVAL => b"EINVAL",
        Errno::EAGAIN => b"EAGAIN",
        Errno::ELOOP => b"ELOOP",
        Errno::ENAMETOOLONG => b"ENAMETOOLONG",
        Errno::ENOSPC => b"ENOSPC",
        Errno::NoMemory => b"NoMemory",
        Errno::NotReleased => b"NotReleased",
        Errno::Stranger => b"Stranger",
    }
}

fn push_word(text: &mut Vec<u8>, error: Errno) -> Result<(), AllocError>
    ensures { OnOk result (text.new.items ≡ text.old.items ++ (codes " " ++ error_word error)) }
{
    text.extend_from_slice(b" ")?;
    text.extend_from_slice(error_word(error))
}

/// Writes the word of the error that an answer tells behind what the buffer has.
pub(crate) fn push_error(text: &mut Vec<u8>, answer: &Answer) -> Result<(), AllocError>
    ensures { OnOk result (text.new.items ≡ text.old.items ++ error_words answer.now) }
{
    match answer {
        Answer::Refused { errno } => push_word(text, *errno),
        Answer::Failed { errno } => push_word(text, *errno),
        _ => Ok(()),
    }
}

pub(crate) fn went_of(answer: &Answer) -> Went
    ensures { result ≡ went_of answer.now }
{
    match answer {
        Answer::Refused { .. } => Went::Refused,
        Answer::Failed { .. } => Went::Failed,
        _ => Went::Well,
    }
}

/// How the answer of an event that went so looks.
pub(crate) fn answer_class(went: Went) -> &'static [u8]
    ensures { result.now ≡ answer_class went }
{
    match went {
        Went::Well => b"m",
        Went::Failed => b"m failed",
        Went::Refused => b"m refused",
    }
}

/// The mark of one whose event went so, and whose mark it is where that went well.
pub(crate) fn mark_of(symbol: &[u8], went: Went) -> &[u8]
    ensures { result.now ≡ mark_of symbol.now went }
{
    match went {
        Went::Well => symbol,
        Went::Failed => b"fails",
        Went::Refused => b"refused",
    }
}
