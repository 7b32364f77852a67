//! The reply to a line.

ghost use Rattle.std.specs.Prelude.{◌≡◌, ◌+◌, ◌-◌, ◌<◌, ◌^◌, List, ℕ, true, IfErr, OnOk};
ghost use Rattle.am_script.specs.{is_long};
ghost use Rattle.am_serve.specs.Keeping.{AreFew};
ghost use Rattle.am_serve.specs.Replies.{Loses, Sends};

use crate::hear::hear_long;
use crate::keeping::attend;
use crate::service::Service;
use crate::tell::tell;
use am_script::ScriptFault;
use std::alloc::Global;
use std::io::Write;

/// Takes a line, without its line feed, and writes the reply to it. The fault of one that isn't written
/// whole is told at this number. The line of an event takes no memory beside what the event takes.
pub fn reply<W: Write>(
    alloc: Global,
    service: &mut Service,
    number: u64,
    line: &[u8],
    writer: &mut W,
) -> Result<(), ScriptFault>
    requires { AreFew service.old (2 ^ 62 - 2) }
    ensures ok { OnOk result (Sends service.old line.now service.new (W.contents writer.old)
        (W.contents writer.new)) }
    ensures err { IfErr result (Loses service.old line.now service.new number
        (W.contents writer.old) (W.contents writer.new)) }
    ensures few { (most : ℕ) → AreFew service.old most → AreFew service.new (most + 1) }
{
    let telling = attend(alloc, service, line);
    tell(alloc, &service.serving, telling, number, writer)
}

/// The same for any line that is too long.
pub(crate) fn reply_long<W: Write>(
    alloc: Global,
    service: &Service,
    number: u64,
    writer: &mut W,
) -> Result<(), ScriptFault>
    requires { service.now.serving.lines < 2 ^ 62 }
    ensures ok { OnOk result ((line : List ℕ) → is_long line ≡ true
        → Sends service.now line service.now (W.contents writer.old) (W.contents writer.new)) }
    ensures err { IfErr result (λ fault. (line : List ℕ) → is_long line ≡ true
        → Loses service.now line service.now number (W.contents writer.old) (W.contents writer.new) fault) }
{
    let telling = hear_long(&service.serving);
    tell(alloc, &service.serving, telling, number, writer)
}
