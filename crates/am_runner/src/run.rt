//! A run of walkers, workers and an expirer.

ghost use Rattle.std.specs.Prelude.{◌≡◌, ◌+◌, ◌<◌, ◌^◌, true, [], vec_len, All, IfOk};
ghost use Rattle.std.specs.Fn.{FnOnceReturnsAt};
ghost use Rattle.am_shared.specs.{keeps_events, opening_of};
ghost use Rattle.am_shared.specs.Sharing.{Sharing};
ghost use Rattle.am_runner.specs.Parts.{AreBreakers, AreWalkers, AreWorkers, IsExpirer, TakePart};
ghost use Rattle.am_runner.specs.Parts.{breakers, keep_of, plan_of};
ghost use Rattle.am_runner.specs.Runs.{IsRun};

use crate::asking::{Asked, ask_all};
use crate::parts::{Attached, Common, attach};
use crate::plan::{Planned, Run, keep_of};
use crate::serving::{Back, Service, start_workers, workers_back};
use crate::workers::{Backend, Gate};
use am_pipe::{Closer, Note, PutEnd, gather as gather_notes, pipe};
use am_shared::laws::packets_are_taken_left_or_unsent;
use am_shared::{Caller, Logbook, Opening, Shared, gather, share};
use std::alloc::{AllocError, Global};
use std::marker::Brand;
use std::sync::Wait;
use std::thread;
use std::thread::{Scope, Threads};

/// What a run leaves.
#[derive(Drop)]
pub struct Ran<T, B> {
    /// What was made of the shared world when all was over.
    pub found: T,
    /// The backends of all workers.
    pub backends: Vec<B>,
    /// The notes that no worker took, each with its position.
    pub left: Vec<(u64, Note)>,
}

/// How many of each kind are to take part, beside who expires.
#[derive(Clone, Copy)]
struct Wanted {
    walkers: u32,
    breakers: u32,
    workers: u32,
}

/// Who takes part: who had the daemon attached, a caller for each of the others, what workers come with, and what ends
/// their waiting.
#[derive(Drop)]
struct Crew<L: Planned, B> {
    first: Attached<L>,
    others: Vec<Caller<L>>,
    service: Service<B>,
    closer: Closer,
    wanted: Wanted,
}

/// All callers in one list, unless one is missing.
fn together<L: Planned, B: Drop>(
    alloc: Global,
    asked: Asked<L>,
    served: Back<L, B>,
    wanted: Wanted,
) -> Result<Back<L, B>, AllocError>
    requires expires { IsExpirer L.plan asked.fs asked.expirer.receipts }
    requires walks { AreWalkers L.plan 1 asked.walkers.items }
    requires breaks { AreBreakers L.plan asked.fs asked.breakers.items }
    requires serves { AreWorkers L.pipe served.takers.items served.callers.items }
    requires walkers { wanted.walkers ≡ L.plan.walkers }
    requires breakers { wanted.breakers ≡ breakers L.plan.breaks }
    ensures { IfOk result
        (λ back. TakePart L.plan L.pipe wanted.workers back.takers.items back.callers.items) }
{
    let Asked {
        expirer,
        mut walkers,
        mut breakers,
        ..
    } = asked;
    let Back {
        mut callers,
        takers,
        backends,
    } = served;
    if walkers.len() != wanted.walkers as usize {
        return Err(AllocError);
    }
    if breakers.len() != wanted.breakers as usize {
        return Err(AllocError);
    }
    if callers.len() != wanted.workers as usize {
        return Err(AllocError);
    }
    let mut all = Vec::new(alloc);
    all.push(expirer)?;
    all.append(&mut walkers)?;
    all.append(&mut breakers)?;
    all.append(&mut callers)?;
    Ok(Back {
        callers: all,
        takers,
        backends,
    })
}

/// Has all take part. The pipe is closed when nobody asks any more, which ends the workers.
fn all_back<
    's,
    E,
    L: Planned + Send + Sync + 's,
    G: Gate + Sync,
    B: Backend + Drop + Send + 's,
    R: Threads + Wait + Sync,
>(
    scope: &Scope<'s, E>,
    rt: &'s R,
    alloc: Global,
    crew: Crew<L, B>,
    common: &'s Common<'s, 's, G>,
) -> Result<Back<L, B>, AllocError>
    requires fresh { All (λ caller. caller.receipts ≡ []) crew.others.items }
    requires plan { L.plan ≡ plan_of common.now.run }
    requires walkers { crew.wanted.walkers ≡ L.plan.walkers }
    requires breakers { crew.wanted.breakers ≡ breakers L.plan.breaks }
    requires takers { All (λ taker. (taker.pipe ≡ L.pipe) × (taker.got ≡ []))
        crew.service.takers.items }
    requires keep { keeps_events L.keep ≡ true }
    ensures { IfOk result (λ back.
        TakePart L.plan L.pipe crew.wanted.workers back.takers.items back.callers.items) }
{
    let Crew {
        first,
        mut others,
        service,
        closer,
        wanted,
    } = crew;
    let Ok(working) = start_workers(scope, rt, alloc, service, &mut others, common) else {
        // Nobody serves what walkers might ask for.
        closer.close(rt);
        return Err(AllocError);
    };
    let asked = ask_all(scope, rt, alloc, first, others, common);
    closer.close(rt);
    let served = workers_back(rt, alloc, working)?;
    together(alloc, asked?, served, wanted)
}

/// How many there are who let the daemon die.
fn breakers_of(breaks: u32) -> u32
    ensures count { result ≡ breakers breaks }
    ensures small { result < 2 }
{
    if breaks > 0 { 1 } else { 0 }
}

/// What a run begins with: the logbook of so many callers, the opening, the put end of its pipe, and what workers come
/// with.
#[derive(Drop)]
struct Start<B> {
    logbook: Logbook,
    callers: u32,
    workers: u32,
    opening: Opening,
    put: PutEnd,
    service: Service<B>,
    ghost some: { 0 < callers },
    ghost fresh: { (put.sent ≡ []) × (put.takers ≡ workers) },
    ghost ends: { All (λ taker. (taker.pipe ≡ put.pipe) × (taker.got ≡ [])) service.takers.items },
}

/// Has all take part, each in a thread, and waits for them.
fn all_in_scope<
    L: Planned + Send + Sync,
    G: Gate + Sync,
    B: Backend + Drop + Send,
    R: Threads + Wait + Sync,
>(rt: &R, alloc: Global, crew: Crew<L, B>, run: Run<'_>, gate: &G) -> Result<Back<L, B>, AllocError>
    requires fresh { All (λ caller. caller.receipts ≡ []) crew.others.items }
    requires plan { L.plan ≡ plan_of run }
    requires walkers { crew.wanted.walkers ≡ L.plan.walkers }
    requires breakers { crew.wanted.breakers ≡ breakers L.plan.breaks }
    requires takers { All (λ taker. (taker.pipe ≡ L.pipe) × (taker.got ≡ []))
        crew.service.takers.items }
    requires keep { keeps_events L.keep ≡ true }
    ensures { IfOk result (λ back.
        TakePart L.plan L.pipe crew.wanted.workers back.takers.items back.callers.items) }
{
    let common = Common {
        run,
        fs: crew.first.fs(),
        gate,
    };
    let common = &common;
    thread::scope(
        thread::scope_env(),
        rt,
        |scope| -> Result<Back<L, B>, AllocError>
            requires fresh { All (λ caller. caller.receipts ≡ []) crew.others.items }
            requires plan { L.plan ≡ plan_of common.now.run }
            requires walkers { crew.wanted.walkers ≡ L.plan.walkers }
            requires breakers { crew.wanted.breakers ≡ breakers L.plan.breaks }
            requires takers { All (λ taker. (taker.pipe ≡ L.pipe) × (taker.got ≡ []))
                crew.service.takers.items }
            requires keep { keeps_events L.keep ≡ true }
            ensures { IfOk result (λ back.
                TakePart L.plan L.pipe crew.wanted.workers back.takers.items back.callers.items) }
        { all_back(scope, rt, alloc, crew, common) },
    )
}

/// Ends a run: gathers what lay under the lock, has it judged, and takes what is left in the pipe. Memory ran out too
/// where not all callers, ends and backends are back, of which there were so many.
fn end<L: Planned, B: Drop, T: Drop, F: FnOnce(&Shared) -> T, R: Wait>(
    rt: &R,
    alloc: Global,
    back: Back<L, B>,
    count: u32,
    workers: u32,
    judge: F,
) -> Result<Ran<T, B>, AllocError>
    requires take { TakePart L.plan L.pipe workers back.takers.items back.callers.items }
    requires callers { (L.callers ≡ count) × (0 < count) }
    requires takers { L.takers ≡ workers }
    requires room { L.room ≡ L.plan.capacity }
    requires keep { L.keep ≡ keep_of L.plan.watched }
    requires judge { F.IsAlwaysCallable judge }
    ensures run { IfOk result (λ ran. (s : Sharing)
        × IsRun L.opening L.plan workers ran.left.items s
        × FnOnceReturnsAt F.FnOnce judge s ran.found) }
    ensures backends { IfOk result (λ ran. vec_len ran.backends ≡ workers) }
{
    let Back {
        callers,
        takers,
        backends,
    } = back;
    if callers.len() != count as usize {
        return Err(AllocError);
    }
    if takers.len() != workers as usize {
        return Err(AllocError);
    }
    if backends.len() != workers as usize {
        return Err(AllocError);
    }
    let gathered = gather(rt, callers);
    let found = judge(&gathered.shared);
    let put = gathered.shared.into_parts().put;
    let Ok(left) = gather_notes(rt, alloc, put, takers) else {
        return Err(AllocError);
    };
    packets_are_taken_left_or_unsent();
    Ok(Ran {
        found,
        backends,
        left,
    })
}

/// Has all take part, in a world whose name knows how the run is laid out.
fn run_among<
    L: Planned + Send + Sync,
    G: Gate + Sync,
    B: Backend + Drop + Send,
    T: Drop,
    F: FnOnce(&Shared) -> T,
    R: Threads + Wait + Sync,
>(
    rt: &R,
    alloc: Global,
    start: Start<B>,
    run: Run<'_>,
    gate: &G,
    judge: F,
) -> Result<Ran<T, B>, AllocError>
    requires logbook { (L.logbook ≡ start.logbook) × (L.callers ≡ start.callers) }
    requires opening { L.opening ≡ opening_of start.opening }
    requires pipe { (L.pipe ≡ start.put.pipe) × (L.takers ≡ start.put.takers) × (L.room ≡ start.put.room) }
    requires room { start.put.room ≡ run.capacity }
    requires keep { L.keep ≡ keep_of run.watched }
    requires plan { L.plan ≡ plan_of run }
    requires judge { F.IsAlwaysCallable judge }
    ensures run { IfOk result (λ ran. (s : Sharing)
        × IsRun L.opening L.plan start.workers ran.left.items s
        × FnOnceReturnsAt F.FnOnce judge s ran.found) }
    ensures backends { IfOk result (λ ran. vec_len ran.backends ≡ start.workers) }
{
    let Start {
        logbook,
        callers: count,
        workers,
        opening,
        put,
        service,
    } = start;
    let closer = put.closer()?;
    let keep = keep_of(run.watched);
    let mut others = share::<L>(alloc, logbook, opening, put, count, keep)?;
    let first = attach(rt, alloc, others.pop().ok_or(AllocError)?, run.point)?;
    let wanted = Wanted {
        walkers: run.walkers,
        breakers: breakers_of(run.breaks),
        workers,
    };
    let crew = Crew {
        first,
        others,
        service,
        closer,
        wanted,
    };
    let back = all_in_scope(rt, alloc, crew, run, gate)?;
    end(rt, alloc, back, count, workers, judge)
}

/// Has walkers, an expirer and workers run as threads over one world, and one who lets the daemon
/// die, if that is asked for: a worker for each backend. What is made of the world when all is over
/// is handed on, and the backends come back.
///
/// It is out of memory too where a thread can't be started, or where the point or a path is none.
pub fn run_with<
    G: Gate + Sync,
    B: Backend + Drop + Send,
    T: Drop,
    F: FnOnce(&Shared) -> T,
    R: Threads + Wait + Sync,
>(
    rt: &R,
    alloc: Global,
    opening: Opening,
    run: Run<'_>,
    gate: &G,
    backends: Vec<B>,
    judge: F,
) -> Result<Ran<T, B>, AllocError>
    requires workers { 0 < vec_len backends }
    requires capacity { 0 < run.capacity }
    requires callers { run.walkers + vec_len backends + 2 < 2 ^ 32 }
    requires judge { F.IsAlwaysCallable judge }
    ensures run { IfOk result (λ ran. (s : Sharing)
        × IsRun (opening_of opening) (plan_of run.entry) (vec_len backends) ran.left.items s
        × FnOnceReturnsAt F.FnOnce judge s ran.found) }
    ensures backends { IfOk result (λ ran. vec_len ran.backends ≡ vec_len backends) }
{
    let workers = backends.len() as u32;
    let callers = run.walkers + workers + 1 + breakers_of(run.breaks);
    let (put, takers) = pipe(alloc, run.capacity, backends.len())?;
    let logbook = Logbook::new(alloc)?;
    let start = Start {
        logbook,
        callers,
        workers,
        opening,
        put,
        service: Service { takers, backends },
    };
    run_among::<Brand, G, B, T, F, R>(rt, alloc, start, run, gate, judge)
}
