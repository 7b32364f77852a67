//! What is read.

ghost use Rattle.std.specs.Prelude.{◌<◌, ◌≤◌, ◌*◌, ◌^◌, IfNone, IfSome, vec_len};
ghost use Rattle.std.specs.Io.KnownBytes.{Consumes, IsAtEnd};
ghost use Rattle.am_script.specs.Read.{IsReadFault};

use crate::fault::ScriptFaultKind;
use std::alloc::Global;
use std::io::Read;

/// What a reader gave, and why it didn't come to its end.
#[derive(Drop)]
pub struct Input {
    pub text: Vec<u8>,
    /// `ReadFailed` or `NoMemory`; none where the reader came to its end.
    pub broke: Option<ScriptFaultKind>,
}

/// Reads to the end. The reader is asked at most 4,294,967,295 times. No byte that it gave is lost.
pub fn read_all<R: Read>(alloc: Global, reader: &mut R) -> Input
    ensures read { Consumes (R.remaining reader.old) (R.remaining reader.new) result.text.items }
    ensures end { IfNone result.broke (IsAtEnd (R.remaining reader.new)) }
    ensures kind { IfSome result.broke IsReadFault }
    ensures most { vec_len result.text ≤ 4096 * 4294967295 }
    ensures short { vec_len result.text < 2 ^ 62 }
{
    read_at_most(alloc, reader, u32::MAX)
}

/// The same, but the reader is asked at most so many times, for 4,096 bytes each time.
pub fn read_at_most<R: Read>(alloc: Global, reader: &mut R, most: u32) -> Input
    ensures read { Consumes (R.remaining reader.old) (R.remaining reader.new) result.text.items }
    ensures end { IfNone result.broke (IsAtEnd (R.remaining reader.new)) }
    ensures kind { IfSome result.broke IsReadFault }
    ensures most { vec_len result.text ≤ 4096 * most }
{
    let mut text = Vec::new(alloc);
    let mut buffer = [0; 4096];
    for _ in 0..most {
        // Room comes first, so that nothing is read that can't be kept.
        if let Err(_) = text.reserve(4096) {
            return Input {
                text,
                broke: Some(ScriptFaultKind::NoMemory),
            };
        }
        match reader.read(&mut buffer) {
            Ok(0) => return Input { text, broke: None },
            Ok(n) => {
                if let Err(_) = text.extend_from_slice(&buffer[..n]) {
                    return Input {
                        text,
                        broke: Some(ScriptFaultKind::NoMemory),
                    };
                }
            }
            Err(_) => {
                return Input {
                    text,
                    broke: Some(ScriptFaultKind::ReadFailed),
                };
            }
        }
    }
    Input {
        text,
        broke: Some(ScriptFaultKind::ReadFailed),
    }
}
