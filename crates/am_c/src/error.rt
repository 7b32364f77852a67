//! The words of errors, and the version.

ghost use Rattle.std.specs.Prelude.{◌≡◌, ℕ, List, length};
ghost use Rattle.am_c.specs.Buffer.{with_front};
ghost use Rattle.am_c.specs.Errors.{IsWordOf};

use crate::buffer::put_front;

const VERSION: u32 = 1;

/// The version of what this library offers to C. What is offered to one version stays.
#[unsafe(no_mangle)]
pub extern "C" fn am_version() -> u32
    ensures { result ≡ 1 }
{
    VERSION
}

/// The word of the error that an answer `err N` tells, as far as it has room. Returns how many bytes
/// it has, 0 where no error has this number.
#[unsafe(no_mangle)]
pub extern "C" fn am_error_name(number: u32, out: &mut [u8]) -> usize
    ensures { (word : List ℕ) × IsWordOf number word × (out.new ≡ with_front word out.old)
        × (result ≡ length word) }
{
    let word = word_of(number);
    put_front(word, out);
    word.len()
}

fn word_of(number: u32) -> &'static [u8]
    ensures { IsWordOf number result.now }
{
    match number {
        1 => b"ENOENT",
        2 => b"EPERM",
        3 => b"EBUSY",
        4 => b"EEXIST",
        5 => b"EINVAL",
        6 => b"EAGAIN",
        7 => b"ELOOP",
        8 => b"ENAMETOOLONG",
        9 => b"ENOSPC",
        10 => b"NoMemory",
        11 => b"NotReleased",
        12 => b"Stranger",
        _ => b"",
    }
}
