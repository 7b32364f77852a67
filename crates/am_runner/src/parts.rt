//! What each who takes part in a run does in a thread, and what comes back from there. Of that a proof knows what its
//! type says.

ghost use Rattle.std.specs.Prelude.{◌≡◌, ℕ, true, [], IfSome};
ghost use Rattle.am_shared.specs.{keeps_events};
ghost use Rattle.am_machine.specs.declared.answer.Answer.TheVariants as answers;
ghost use Rattle.am_runner.specs.Parts.{IsAttached, IsBreaker, IsExpirer, IsWalker, IsWorker, plan_of};

use crate::breakers::breaker;
use crate::plan::{Planned, Run, path_of};
use crate::walkers::{expirer, walker};
use crate::workers::{Backend, Gate, daemon_worker};
use am_machine::{Answer, Event};
use am_names::{AbsPath, FsId, WalkerId};
use am_pipe::TakeEnd;
use am_shared::Caller;
use std::alloc::{AllocError, Global};
use std::marker::Model;
use std::sync::Wait;

/// What all of them have in common.
#[derive(Drop)]
pub struct Common<'r, 'g, G> {
    pub run: Run<'r>,
    pub fs: FsId,
    pub gate: &'g G,
}

/// Who had the daemon attached. A contract sees the file system and the receipts.
#[derive(Drop)]
pub struct Attached<L: Planned> {
    caller: Caller<L>,
    fs: FsId,
}

impl<L: Planned> Model for Attached<L> {
    ghost use Rattle.std.specs.Prelude.{ℕ, List};
    ghost use Rattle.am_shared.specs.{Receipt};
    ghost use Rattle.am_runner.specs.Parts.{IsAttached};

    ghost Value = { ℕ × List Receipt };

    ghost view = { λ a. (a.fs, a.caller.receipts) };

    ghost invariant = { λ a. IsAttached L.plan a.fs a.caller.receipts };
}

/// Who asked for expiries. A contract sees the file system and the receipts.
#[derive(Drop)]
pub struct Expired<L: Planned> {
    caller: Caller<L>,
    fs: FsId,
}

impl<L: Planned> Model for Expired<L> {
    ghost use Rattle.std.specs.Prelude.{ℕ, List};
    ghost use Rattle.am_shared.specs.{Receipt};
    ghost use Rattle.am_runner.specs.Parts.{IsExpirer};

    ghost Value = { ℕ × List Receipt };

    ghost view = { λ e. (e.fs, e.caller.receipts) };

    ghost invariant = { λ e. IsExpirer L.plan e.fs e.caller.receipts };
}

/// A walker. A contract sees its number and the receipts.
#[derive(Drop)]
pub struct Walked<L: Planned> {
    caller: Caller<L>,
    number: u32,
}

impl<L: Planned> Model for Walked<L> {
    ghost use Rattle.std.specs.Prelude.{ℕ, List};
    ghost use Rattle.am_shared.specs.{Receipt};
    ghost use Rattle.am_runner.specs.Parts.{IsWalker};

    ghost Value = { ℕ × List Receipt };

    ghost view = { λ w. (w.number, w.caller.receipts) };

    ghost invariant = { λ w. IsWalker L.plan w.number w.caller.receipts };
}

/// Who let the daemon die. A contract sees the file system and the receipts.
#[derive(Drop)]
pub struct Broke<L: Planned> {
    caller: Caller<L>,
    fs: FsId,
}

impl<L: Planned> Model for Broke<L> {
    ghost use Rattle.std.specs.Prelude.{ℕ, List};
    ghost use Rattle.am_shared.specs.{Receipt};
    ghost use Rattle.am_runner.specs.Parts.{IsBreaker};

    ghost Value = { ℕ × List Receipt };

    ghost view = { λ b. (b.fs, b.caller.receipts) };

    ghost invariant = { λ b. IsBreaker L.plan b.fs b.caller.receipts };
}

/// A worker, with its end of the pipe and its backend. A contract sees the end and the receipts.
#[derive(Drop)]
pub struct Served<L: Planned, B> {
    caller: Caller<L>,
    taker: TakeEnd,
    backend: B,
}

impl<L: Planned, B> Model for Served<L, B> {
    ghost use Rattle.std.specs.Prelude.{List};
    ghost use Rattle.am_pipe.specs.{Taker};
    ghost use Rattle.am_shared.specs.{Receipt};
    ghost use Rattle.am_runner.specs.Parts.{IsWorker};

    ghost Value = { Taker × List Receipt };

    ghost view = { λ s. (s.taker, s.caller.receipts) };

    ghost invariant = { λ s. IsWorker L.pipe s.taker s.caller.receipts };
}

impl<L: Planned> Attached<L> {
    pub fn fs(&self) -> FsId
        ensures { result ≡ self.now.0 }
    {
        self.fs
    }
}

impl<L: Planned> Expired<L> {
    /// The caller, and the file system.
    pub fn parts(self) -> (Caller<L>, FsId)
        ensures { IsExpirer L.plan result.1 result.0.receipts }
    {
        let Expired { caller, fs } = self;
        (caller, fs)
    }
}

impl<L: Planned> Walked<L> {
    /// The caller, and the walker's number.
    pub fn parts(self) -> (Caller<L>, u32)
        ensures { IsWalker L.plan result.1 result.0.receipts }
    {
        let Walked { caller, number } = self;
        (caller, number)
    }
}

impl<L: Planned> Broke<L> {
    /// The caller, and the file system.
    pub fn parts(self) -> (Caller<L>, FsId)
        ensures { IsBreaker L.plan result.1 result.0.receipts }
    {
        let Broke { caller, fs } = self;
        (caller, fs)
    }
}

impl<L: Planned, B> Served<L, B> {
    /// The caller, the end of the pipe, and the backend.
    pub fn parts(self) -> (Caller<L>, TakeEnd, B)
        ensures { IsWorker L.pipe result.1 result.0.receipts }
    {
        let Served {
            caller,
            taker,
            backend,
        } = self;
        (caller, taker, backend)
    }
}

/// The file system to which the daemon was attached, by the answer.
fn fs_of(answer: &Answer) -> Option<FsId>
    ensures { IfSome result (λ fs. (attach : ℕ) × (mount : ℕ)
        × (answer.now ≡ answers.Attached fs attach mount)) }
{
    match answer {
        Answer::Attached { fs, .. } => Some(*fs),
        _ => None,
    }
}

/// Has the daemon attached to the autofs at the point of a run.
#[tactic(auto, using(crate::proofs::PartLemmas::attached_made))]
pub fn attach<L: Planned, R: Wait>(
    rt: &R,
    alloc: Global,
    caller: Caller<L>,
    point: &[u8],
) -> Result<Attached<L>, AllocError>
    requires none { caller.receipts ≡ [] }
    requires point { L.plan.point ≡ point.now }
{
    let mut caller = caller;
    let Ok(path) = AbsPath::read(point) else {
        return Err(AllocError);
    };
    let path = path.to_place(alloc)?;
    if caller.call(rt, alloc, Event::Attach { path }).is_err() {
        return Err(AllocError);
    }
    let Some(receipt) = caller.receipt() else {
        unreachable!()
    };
    let Some(fs) = fs_of(&receipt.answer) else {
        return Err(AllocError);
    };
    Ok(Attached { caller, fs })
}

/// Asks for expiries, behind the attachment.
#[tactic(auto, using(crate::proofs::PartLemmas::expirer_of))]
pub fn expires<L: Planned, G, R: Wait>(
    rt: &R,
    alloc: Global,
    first: Attached<L>,
    common: &Common<'_, '_, G>,
) -> Result<Expired<L>, AllocError>
    requires plan { L.plan ≡ plan_of common.now.run }
{
    let Attached { mut caller, fs } = first;
    expirer(rt, alloc, &mut caller, WalkerId(0), fs, common.run.rounds)?;
    Ok(Expired { caller, fs })
}

/// Walks, as the walker of this number.
#[tactic(auto, using(crate::proofs::PartLemmas::walker_of))]
pub fn walks<L: Planned, G, R: Wait>(
    rt: &R,
    alloc: Global,
    caller: Caller<L>,
    number: u32,
    common: &Common<'_, '_, G>,
) -> Result<Walked<L>, AllocError>
    requires none { caller.receipts ≡ [] }
    requires plan { L.plan ≡ plan_of common.now.run }
{
    let mut caller = caller;
    let path = path_of(common.run, number).ok_or(AllocError)?;
    walker(
        rt,
        alloc,
        &mut caller,
        WalkerId(number),
        &path,
        common.run.rounds,
    )?;
    Ok(Walked { caller, number })
}

/// Lets the daemon die.
#[tactic(auto, using(crate::proofs::PartLemmas::breaker_of))]
pub fn breaks<L: Planned, G, R: Wait>(
    rt: &R,
    alloc: Global,
    caller: Caller<L>,
    common: &Common<'_, '_, G>,
) -> Result<Broke<L>, AllocError>
    requires none { caller.receipts ≡ [] }
    requires plan { L.plan ≡ plan_of common.now.run }
{
    let mut caller = caller;
    let fs = common.fs;
    breaker(rt, alloc, &mut caller, fs, common.run.breaks)?;
    Ok(Broke { caller, fs })
}

/// Serves what is taken from an end of the pipe.
#[tactic(auto, using(crate::proofs::PartLemmas::serves_all))]
pub fn serves<L: Planned, G: Gate, B: Backend + Drop, R: Wait>(
    rt: &R,
    alloc: Global,
    caller: Caller<L>,
    taker: TakeEnd,
    backend: B,
    common: &Common<'_, '_, G>,
) -> Result<Served<L, B>, AllocError>
    requires none { caller.receipts ≡ [] }
    requires taker { (taker.pipe ≡ L.pipe) × (taker.got ≡ []) }
    requires keep { keeps_events L.keep ≡ true }
{
    let mut caller = caller;
    let mut taker = taker;
    let mut backend = backend;
    daemon_worker(
        rt,
        alloc,
        &mut caller,
        &mut taker,
        common.fs,
        common.gate,
        &mut backend,
    )?;
    Ok(Served {
        caller,
        taker,
        backend,
    })
}
