//! A reader that recalls what it gave last.

ghost use Rattle.std.specs.Prelude.{◌≡◌, ℕ, List, [], ◌++◌, take, nat_eq, IfOk, OnErr};
ghost use Rattle.std.specs.Io.{ReadsAtMost};
ghost use Rattle.std.specs.Io.KnownBytes.{ReadConsumes};
ghost use Rattle.am_recall.specs.Recall.{IsOf, is_ended};

use crate::recalled::Recalled;
use std::alloc::Global;
use std::io::{self, Read};

/// A reader, and what it gave last.
#[derive(Drop)]
pub struct Recalling<R> {
    pub reader: R,
    pub recalled: Recalled,
}

impl<R: Read> Recalling<R> {
    /// A reader that gave nothing yet.
    pub fn new(alloc: Global, reader: R) -> Recalling<R>
        ensures same { result.reader ≡ reader }
        ensures nothing { IsOf result.recalled [] }
    {
        Recalling {
            reader,
            recalled: Recalled::new(alloc),
        }
    }
}

impl<R: Read> Read for Recalling<R> {
    ghost remaining = { λ r. R.remaining r.reader };

    fn read(&mut self, buf: &mut [u8]) -> io::Result<usize>
        ensures bound { ReadsAtMost result buf.new }
        ensures bytes { ReadConsumes (R.remaining self.old.reader) (R.remaining self.new.reader) result buf.new }
        ensures recalls { IfOk result (λ n. (text : List ℕ) → IsOf self.old.recalled text
            → IsOf self.new.recalled (text ++ take n buf.new)) }
        ensures ended { IfOk result (λ n. is_ended self.new.recalled ≡ nat_eq n 0) }
        ensures err { OnErr result (self.new.recalled ≡ self.old.recalled) }
    {
        let n = self.reader.read(buf)?;
        self.recalled.take_piece(&buf[..n]);
        Ok(n)
    }
}
