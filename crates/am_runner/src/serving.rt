//! The workers of a run, each in a thread.

ghost use Rattle.std.specs.Prelude.{◌≡◌, true, [], All, IfOk};
ghost use Rattle.am_shared.specs.{keeps_events};
ghost use Rattle.am_runner.specs.Parts.{AreWorkers};

use crate::parts::{Common, Served, serves};
use crate::plan::Planned;
use crate::workers::{Backend, Gate};
use am_pipe::TakeEnd;
use am_shared::Caller;
use std::alloc::{AllocError, Global};
use std::sync::Wait;
use std::thread::{JoinHandle, Scope, Threads};

/// A thread that serves.
pub type Worker<L, B> = JoinHandle<Result<Served<L, B>, AllocError>>;

/// What workers come with: an end of the pipe and a backend for each of them.
#[derive(Drop)]
pub struct Service<B> {
    pub takers: Vec<TakeEnd>,
    pub backends: Vec<B>,
}

/// The workers that came back.
#[derive(Drop)]
pub struct Back<L: Planned, B> {
    pub callers: Vec<Caller<L>>,
    pub takers: Vec<TakeEnd>,
    pub backends: Vec<B>,
}

fn start_serving<
    's,
    E,
    L: Planned + Send + Sync + 's,
    G: Gate + Sync,
    B: Backend + Drop + Send + 's,
    R: Wait + Sync,
>(
    scope: &Scope<'s, E>,
    rt: &'s R,
    alloc: Global,
    caller: Caller<L>,
    taker: TakeEnd,
    backend: B,
    common: &'s Common<'s, 's, G>,
) -> Option<Worker<L, B>>
    requires { (caller.receipts ≡ []) × (taker.pipe ≡ L.pipe) × (taker.got ≡ [])
        × (keeps_events L.keep ≡ true) }
{
    scope
        .spawn(
            move || -> Result<Served<L, B>, AllocError>
                requires { (caller.receipts ≡ []) × (taker.pipe ≡ L.pipe) × (taker.got ≡ [])
                    × (keeps_events L.keep ≡ true) }
            { serves(rt, alloc, caller, taker, backend, common) },
        )
        .ok()
}

/// Starts a worker for each take end, with the last of these callers, which are then fewer. Those that were started
/// end once the pipe is closed.
pub fn start_workers<
    's,
    E,
    L: Planned + Send + Sync + 's,
    G: Gate + Sync,
    B: Backend + Drop + Send + 's,
    R: Wait + Sync,
>(
    scope: &Scope<'s, E>,
    rt: &'s R,
    alloc: Global,
    service: Service<B>,
    callers: &mut Vec<Caller<L>>,
    common: &'s Common<'s, 's, G>,
) -> Result<Vec<Worker<L, B>>, AllocError>
    requires callers { All (λ caller. caller.receipts ≡ []) callers.old.items }
    requires takers { All (λ taker. (taker.pipe ≡ L.pipe) × (taker.got ≡ [])) service.takers.items }
    requires keep { keeps_events L.keep ≡ true }
    ensures { All (λ caller. caller.receipts ≡ []) callers.new.items }
{
    let Service {
        takers,
        mut backends,
    } = service;
    let mut working = Vec::with_capacity(alloc, takers.len())?;
    for taker in takers {
        let Some(backend) = backends.pop() else {
            break;
        };
        let Some(caller) = callers.pop() else {
            break;
        };
        let Some(worker) = start_serving(scope, rt, alloc, caller, taker, backend, common) else {
            return Err(AllocError);
        };
        working.push_reserved(worker);
    }
    Ok(working)
}

/// Waits for all workers. Those come back that found memory.
pub fn workers_back<L: Planned, B: Drop, R: Threads>(
    rt: &R,
    alloc: Global,
    working: Vec<Worker<L, B>>,
) -> Result<Back<L, B>, AllocError>
    ensures { IfOk result (λ back. AreWorkers L.pipe back.takers.items back.callers.items) }
{
    let mut callers = Vec::with_capacity(alloc, working.len())?;
    let mut takers = Vec::with_capacity(alloc, working.len())?;
    let mut backends = Vec::with_capacity(alloc, working.len())?;
    for thread in working {
        if let Ok(served) = thread.join(rt) {
            let (caller, taker, backend) = served.parts();
            callers.push_reserved(caller);
            takers.push_reserved(taker);
            backends.push_reserved(backend);
        }
    }
    Ok(Back {
        callers,
        takers,
        backends,
    })
}
