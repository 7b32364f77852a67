//! Who breaks what runs: the daemon dies, and attaches again.

ghost use Rattle.std.specs.Prelude.{OnErr, OnOk};
ghost use Rattle.am_runner.specs.Calls.{Adds, AreMany, Makes};
ghost use Rattle.am_runner.specs.Roles.{IsBreak, IsOfBreaker};

use crate::calls::call;
use am_machine::Event;
use am_names::FsId;
use am_shared::{Caller, Opened};
use std::alloc::{AllocError, Global};
use std::sync::Wait;

/// The daemon dies, its file system becomes catatonic, and it attaches to that again.
fn break_once<L: Opened, R: Wait>(
    rt: &R,
    alloc: Global,
    caller: &mut Caller<L>,
    fs: FsId,
) -> Result<(), AllocError>
    ensures ok { OnOk result (Makes (IsBreak fs) caller.old.receipts caller.new.receipts) }
    ensures err { OnErr result (Adds (IsOfBreaker fs) caller.old.receipts caller.new.receipts) }
{
    call(rt, alloc, caller, &Event::Die)?;
    call(rt, alloc, caller, &Event::AdminCatatonic { fs })?;
    call(rt, alloc, caller, &Event::Reattach { fs })?;
    Ok(())
}

/// Makes rounds: lets the daemon die, makes a file system catatonic, and attaches to it again. Ends
/// early where memory runs out for good.
pub fn breaker<L: Opened, R: Wait>(
    rt: &R,
    alloc: Global,
    caller: &mut Caller<L>,
    fs: FsId,
    rounds: u32,
) -> Result<(), AllocError>
    ensures ok { OnOk result (Makes (AreMany (IsBreak fs) rounds) caller.old.receipts caller.new.receipts) }
    ensures err { OnErr result (Adds (IsOfBreaker fs) caller.old.receipts caller.new.receipts) }
{
    for _made in 0..rounds {
        break_once(rt, alloc, caller, fs)?;
    }
    Ok(())
}
