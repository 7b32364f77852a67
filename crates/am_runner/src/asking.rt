//! Who asks the world for something, each in a thread: who expires, walkers, and who lets the daemon die.

ghost use Rattle.std.specs.Prelude.{◌≡◌, [], All, IfOk};
ghost use Rattle.am_runner.specs.Parts.{AreBreakers, AreWalkers, IsExpirer, plan_of};

use crate::parts::{Attached, Broke, Common, Expired, Walked, breaks, expires, walks};
use crate::plan::Planned;
use am_names::FsId;
use am_shared::Caller;
use std::alloc::{AllocError, Global};
use std::sync::Wait;
use std::thread::{JoinHandle, Scope, Threads};

/// The callers of all who asked.
#[derive(Drop)]
pub struct Asked<L: Planned> {
    pub expirer: Caller<L>,
    pub fs: FsId,
    pub walkers: Vec<Caller<L>>,
    pub breakers: Vec<Caller<L>>,
}

fn start_expiring<'s, E, L: Planned + Send + Sync + 's, G: Sync, R: Wait + Sync>(
    scope: &Scope<'s, E>,
    rt: &'s R,
    alloc: Global,
    first: Attached<L>,
    common: &'s Common<'s, 's, G>,
) -> Option<JoinHandle<Result<Expired<L>, AllocError>>>
    requires { L.plan ≡ plan_of common.now.run }
{
    scope
        .spawn(
            move || -> Result<Expired<L>, AllocError>
                requires { L.plan ≡ plan_of common.now.run }
            { expires(rt, alloc, first, common) },
        )
        .ok()
}

fn start_walking<'s, E, L: Planned + Send + Sync + 's, G: Sync, R: Wait + Sync>(
    scope: &Scope<'s, E>,
    rt: &'s R,
    alloc: Global,
    caller: Caller<L>,
    number: u32,
    common: &'s Common<'s, 's, G>,
) -> Option<JoinHandle<Result<Walked<L>, AllocError>>>
    requires { (caller.receipts ≡ []) × (L.plan ≡ plan_of common.now.run) }
{
    scope
        .spawn(
            move || -> Result<Walked<L>, AllocError>
                requires { (caller.receipts ≡ []) × (L.plan ≡ plan_of common.now.run) }
            { walks(rt, alloc, caller, number, common) },
        )
        .ok()
}

/// Starts who lets the daemon die, if it is to, with the last of these callers.
fn start_breaking<'s, E, L: Planned + Send + Sync + 's, G: Sync, R: Wait + Sync>(
    scope: &Scope<'s, E>,
    rt: &'s R,
    alloc: Global,
    callers: &mut Vec<Caller<L>>,
    common: &'s Common<'s, 's, G>,
) -> Option<JoinHandle<Result<Broke<L>, AllocError>>>
    requires callers { All (λ caller. caller.receipts ≡ []) callers.old.items }
    requires plan { L.plan ≡ plan_of common.now.run }
    ensures { All (λ caller. caller.receipts ≡ []) callers.new.items }
{
    if common.run.breaks == 0 {
        return None;
    }
    let caller = callers.pop()?;
    scope
        .spawn(
            move || -> Result<Broke<L>, AllocError>
                requires { (caller.receipts ≡ []) × (L.plan ≡ plan_of common.now.run) }
            { breaks(rt, alloc, caller, common) },
        )
        .ok()
}

/// Starts the walkers, from number 1 on. Behind one that can't be started none is.
fn start_walkers<'s, E, L: Planned + Send + Sync + 's, G: Sync, R: Wait + Sync>(
    scope: &Scope<'s, E>,
    rt: &'s R,
    alloc: Global,
    callers: Vec<Caller<L>>,
    common: &'s Common<'s, 's, G>,
) -> Vec<JoinHandle<Result<Walked<L>, AllocError>>>
    requires callers { All (λ caller. caller.receipts ≡ []) callers.items }
    requires plan { L.plan ≡ plan_of common.now.run }
{
    let Ok(mut walking) = Vec::with_capacity(alloc, callers.len()) else {
        return Vec::new(alloc);
    };
    let mut number = 1_u32;
    for caller in callers {
        let Some(thread) = start_walking(scope, rt, alloc, caller, number, common) else {
            break;
        };
        walking.push_reserved(thread);
        number = number.wrapping_add(1);
    }
    walking
}

/// A walker is back, behind those that are. One that is out of turn, as another before it ran out of memory, is let go.
fn keep<L: Planned>(back: &mut Vec<Caller<L>>, walked: Walked<L>) -> Result<(), AllocError>
    ensures { AreWalkers L.plan 1 back.old.items → AreWalkers L.plan 1 back.new.items }
{
    let (caller, number) = walked.parts();
    if number as usize == back.len() + 1 {
        back.push(caller)?;
    }
    Ok(())
}

/// Waits for all walkers. Those come back, by their numbers, before the first that ran out of memory.
fn walkers_back<L: Planned, R: Threads>(
    rt: &R,
    alloc: Global,
    walking: Vec<JoinHandle<Result<Walked<L>, AllocError>>>,
) -> Vec<Caller<L>>
    ensures { AreWalkers L.plan 1 result.items }
{
    let mut back = Vec::new(alloc);
    for thread in walking {
        if let Ok(walked) = thread.join(rt) {
            let _is_kept = keep(&mut back, walked);
        }
    }
    back
}

/// Waits for who lets the daemon die.
fn breakers_back<L: Planned, R: Threads>(
    rt: &R,
    alloc: Global,
    breaking: Option<JoinHandle<Result<Broke<L>, AllocError>>>,
    fs: FsId,
) -> Result<Vec<Caller<L>>, AllocError>
    ensures { IfOk result (λ back. AreBreakers L.plan fs back.items) }
{
    let mut back = Vec::with_capacity(alloc, 1)?;
    if let Some(thread) = breaking {
        let (caller, broken) = thread.join(rt)?.parts();
        if broken != fs {
            return Err(AllocError);
        }
        back.push_reserved(caller);
    }
    Ok(back)
}

/// Waits for who asks for expiries.
fn expirer_back<L: Planned, R: Threads>(
    rt: &R,
    expiring: Option<JoinHandle<Result<Expired<L>, AllocError>>>,
    fs: FsId,
) -> Result<Caller<L>, AllocError>
    ensures { IfOk result (λ caller. IsExpirer L.plan fs caller.receipts) }
{
    let (caller, expired) = expiring.ok_or(AllocError)?.join(rt)?.parts();
    if expired != fs {
        return Err(AllocError);
    }
    Ok(caller)
}

/// Starts all who ask, and waits for them. Memory ran out where one of them didn't find it, or couldn't be started;
/// then too none is left that waits for a worker.
pub fn ask_all<'s, E, L: Planned + Send + Sync + 's, G: Sync, R: Threads + Wait + Sync>(
    scope: &Scope<'s, E>,
    rt: &'s R,
    alloc: Global,
    first: Attached<L>,
    callers: Vec<Caller<L>>,
    common: &'s Common<'s, 's, G>,
) -> Result<Asked<L>, AllocError>
    requires callers { All (λ caller. caller.receipts ≡ []) callers.items }
    requires plan { L.plan ≡ plan_of common.now.run }
    ensures expires { IfOk result (λ asked. IsExpirer L.plan asked.fs asked.expirer.receipts) }
    ensures walks { IfOk result (λ asked. AreWalkers L.plan 1 asked.walkers.items) }
    ensures breaks { IfOk result (λ asked. AreBreakers L.plan asked.fs asked.breakers.items) }
{
    let fs = common.fs;
    let mut callers = callers;
    let breaking = start_breaking(scope, rt, alloc, &mut callers, common);
    let expiring = start_expiring(scope, rt, alloc, first, common);
    let walking = start_walkers(scope, rt, alloc, callers, common);
    let walkers = walkers_back(rt, alloc, walking);
    let expirer = expirer_back(rt, expiring, fs);
    let breakers = breakers_back(rt, alloc, breaking, fs)?;
    Ok(Asked {
        expirer: expirer?,
        walkers,
        breakers,
        fs,
    })
}
