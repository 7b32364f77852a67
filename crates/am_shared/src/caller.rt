//! The threads' ways to a shared world.

ghost use Rattle.std.specs.Prelude.{◌≡◌, ◌<◌, ◌-◌, [], length, vec_len, All, option_copied, slice_get};
ghost use Rattle.std.specs.Prelude.{IfOk, IfErr, OnOk, false};
ghost use Rattle.std.specs.Sync.Mutex.{mutex_guard_value};
ghost use Rattle.std.specs.Fn.{FnOnceReturnsAt};
ghost use Rattle.am_shared.specs.Accounts.{newcomer};
ghost use Rattle.am_shared.specs.Calls.{IsTaken, Receives, Sees};
ghost use Rattle.am_shared.specs.Chronicle.{caller as caller_with, keeper};
ghost use Rattle.am_shared.specs.declared.keep.Keep.TheVariants.{Nothing};
ghost use Rattle.am_shared.specs.Opening.{opening_of};
ghost use Rattle.am_shared.specs.Passes.{CallsOn, KeepsHistory, view_of};
ghost use Rattle.am_shared.specs.Sharing.{Sharing, IsSharedFrom, has_to_wait, is_held_up};

use crate::bells::Bells;
use crate::chronicle::{History, Pass, admit};
use crate::desk::{Desk, Made};
use crate::keep::Keep;
use crate::logbook::Logbook;
use crate::opened::Opened;
use crate::opening::Opening;
use crate::shared::{Shared, Taken, Uncalled};
use am_machine::{Answer, Event};
use am_names::{FsId, WalkerId};
use am_pipe::PutEnd;
use std::alloc::{AllocError, Global};
use std::marker::Model;
use std::sync::{Arc, Mutex, MutexGuard, Wait};

/// An event that a caller made: its position in the history, from 1, the event, and its answer.
#[derive(Drop)]
pub struct Receipt {
    pub position: u64,
    pub event: Event,
    pub answer: Answer,
}

/// The lock, what tells walkers that they were released, and the history that all callers share.
#[derive(Drop)]
pub struct Lock<L: Opened> {
    pub desk: Mutex<Desk<L>>,
    released: Bells,
    pub history: History,
    ghost logbook: { history.shared.table_id ≡ L.logbook },
}

/// One thread's way to a shared world. A contract sees its receipts, and what it has seen of the history.
#[derive(Drop)]
pub struct Caller<L: Opened> {
    pub(crate) lock: Arc<Lock<L>>,
    pub(crate) receipts: Vec<Receipt>,
    pub(crate) pass: Pass,
}

impl<L: Opened> Model for Caller<L> {
    ghost use Rattle.std.specs.Prelude.{◌≡◌};
    ghost use Rattle.am_shared.specs.Accounts.{Account};
    ghost use Rattle.am_shared.specs.Calls.{calls_of};
    ghost use Rattle.am_shared.specs.Matching.{Rise};
    ghost use Rattle.am_shared.specs.Passes.{CallsOn, view_of};

    ghost Value = { Account };

    ghost view = { λ c. record { receipts = c.receipts.items; seen = (view_of c.pass).seen } };

    ghost invariant = { λ c. CallsOn L.logbook c.pass
        × ((view_of c.pass).mine ≡ calls_of c.receipts.items) × Rise 0 c.receipts.items };
}

/// The passes of so many callers of a history in which nothing is.
fn admit_all(
    alloc: Global,
    history: &History,
    keeping: &mut Pass,
    callers: u32,
) -> Result<Vec<Pass>, AllocError>
    requires keeper { KeepsHistory history.now.shared.table_id keeping.old
        × (view_of keeping.old ≡ keeper 0 []) }
    ensures len { IfOk result (λ made. vec_len made ≡ callers) }
    ensures keeper { OnOk result (KeepsHistory history.now.shared.table_id keeping.new
        × (view_of keeping.new ≡ keeper callers [])) }
    ensures each { IfOk result (λ made. All (λ pass. CallsOn history.now.shared.table_id pass
        × (view_of pass ≡ caller_with [] [])) made.items) }
{
    let mut made = Vec::with_capacity(alloc, callers as usize)?;
    for _made in 0..callers {
        made.push_reserved(admit(history, keeping));
    }
    Ok(made)
}

/// Shares the initial world of an opening among so many callers, whose events will stand in the
/// logbook, and keeps of what was as much as is asked for.
pub fn share<L: Opened>(
    alloc: Global,
    logbook: Logbook,
    opening: Opening,
    put: PutEnd,
    callers: u32,
    keep: Keep,
) -> Result<Vec<Caller<L>>, AllocError>
    requires logbook { L.logbook ≡ logbook }
    requires callers { (L.callers ≡ callers) × (0 < callers) }
    requires opening { L.opening ≡ opening_of opening }
    requires put { (put.sent ≡ []) × (L.pipe ≡ put.pipe) × (L.takers ≡ put.takers) × (L.room ≡ put.room) }
    requires keep { L.keep ≡ keep }
    ensures len { IfOk result (λ made. vec_len made ≡ callers) }
    ensures each { IfOk result (λ made. All (λ caller. caller ≡ newcomer) made.items) }
{
    let Logbook {
        history,
        mut keeping,
    } = logbook;
    let shared = Shared::new(alloc, opening, put, keep)?;
    let passes = admit_all(alloc, &history, &mut keeping, callers)?;
    let lock = Arc::new(
        alloc,
        Lock {
            desk: Mutex::new(Desk::new(shared, keeping)),
            released: Bells::new(alloc)?,
            history,
        },
    )?;
    let mut made = Vec::with_capacity(alloc, callers as usize)?;
    for pass in passes {
        made.push_reserved(Caller {
            lock: Arc::try_clone(&lock)?,
            // Room ahead for who gives up before any call of his own.
            receipts: Vec::with_capacity(alloc, 1)?,
            pass,
        });
    }
    Ok(made)
}

impl<L: Opened> Lock<L> {
    /// Takes the lock once the walker has no wait that isn't acknowledged.
    fn released<R: Wait>(&self, rt: &R, walker: WalkerId) -> MutexGuard<'_, Desk<L>>
        ensures { is_held_up walker (mutex_guard_value result) ≡ false }
    {
        let desk = self.desk.lock(rt);
        self.released
            .bell(walker)
            .wait_while(rt, desk, |desk| desk.is_held_up(walker))
    }
}

impl<L: Opened> Caller<L> {
    /// The events that this caller made, in order, with their positions and answers.
    pub fn receipts(&self) -> &[Receipt]
        ensures { result.now ≡ self.now.receipts }
    {
        self.receipts.as_slice()
    }

    /// The receipt of the last event that this caller made.
    pub fn receipt(&self) -> Option<&Receipt>
        ensures { option_copied result
            ≡ slice_get self.now.receipts (length self.now.receipts - 1) }
    {
        self.receipts().last()
    }

    /// Makes an event, or takes what was kept ahead for it, and keeps its receipt. Room and copy are
    /// made before the lock is taken, and who was released is woken behind it.
    fn make<R: Wait>(
        &mut self,
        rt: &R,
        alloc: Global,
        event: Event,
        is_ahead: bool,
    ) -> Result<u64, Uncalled>
        ensures ok { IfOk result (λ position. Receives L.opening self.old self.new event position) }
        ensures err { IfErr result (λ back. (back.event ≡ event) × (self.new ≡ self.old)) }
    {
        // A receipt more than this is kept ahead.
        let receipts = if is_ahead { 1 } else { 2 };
        if self.receipts.reserve(receipts).is_err() {
            return Err(Uncalled { event });
        }
        let Ok(kept) = event.copy(alloc) else {
            return Err(Uncalled { event });
        };
        let Made {
            position,
            answer,
            released,
        } = self.lock.desk.lock(rt).apply(
            rt,
            alloc,
            event,
            is_ahead,
            &self.lock.history,
            &mut self.pass,
        )?;
        self.lock.released.ring(&released);
        self.receipts.push_reserved(Receipt {
            position,
            event: kept,
            answer,
        });
        Ok(position)
    }

    /// Lends what lies under the lock, while the lock is held: no older value than this caller has seen.
    pub fn look<T, F: FnOnce(&Shared) -> T, R: Wait>(&mut self, rt: &R, f: F) -> T
        requires { F.IsAlwaysCallable f }
        ensures receipts { self.new.receipts ≡ self.old.receipts }
        ensures lent { (s : Sharing) × IsSharedFrom L.opening s × (s.keep ≡ L.keep)
            × Sees s self.old self.new × FnOnceReturnsAt F.FnOnce f s result }
    {
        self.lock
            .desk
            .lock(rt)
            .lend(&self.lock.history, &mut self.pass, f)
    }

    /// Takes the events that are left of the history, those of all callers, each with its answer, where
    /// the world is to keep nothing, and tells how many were taken before. It takes no memory.
    pub fn take_history<R: Wait>(&mut self, rt: &R, alloc: Global) -> Taken
        requires { L.keep ≡ Nothing }
        ensures receipts { self.new.receipts ≡ self.old.receipts }
        ensures taken { IsTaken L.opening self.old self.new result }
    {
        self.lock
            .desk
            .lock(rt)
            .take_history(alloc, &self.lock.history, &mut self.pass)
    }

    /// Waits until a walker has no wait that isn't acknowledged, and lends what lies under the lock
    /// then.
    pub fn wait_release<T, F: FnOnce(&Shared) -> T, R: Wait>(
        &mut self,
        rt: &R,
        walker: WalkerId,
        f: F,
    ) -> T
        requires { F.IsAlwaysCallable f }
        ensures receipts { self.new.receipts ≡ self.old.receipts }
        ensures lent { (s : Sharing) × IsSharedFrom L.opening s × (s.keep ≡ L.keep)
            × Sees s self.old self.new × (has_to_wait walker s ≡ false) × FnOnceReturnsAt F.FnOnce f s result }
    {
        let mut desk = self.lock.released(rt, walker);
        desk.lend(&self.lock.history, &mut self.pass, f)
    }
}

impl<L: Opened> Caller<L> {
    ghost use Rattle.am_machine.specs.declared.event.Event.TheVariants.{AdminCatatonic};

    /// Makes an event, as one step under the lock, and keeps its receipt after those of the earlier
    /// events. Tells its position in the history, from 1. Out of memory, nothing was done, and the
    /// event comes back.
    pub fn call<R: Wait>(&mut self, rt: &R, alloc: Global, event: Event) -> Result<u64, Uncalled>
        ensures ok { IfOk result (λ position. Receives L.opening self.old self.new event position) }
        ensures err { IfErr result (λ back. (back.event ≡ event) × (self.new ≡ self.old)) }
    {
        self.make(rt, alloc, event, false)
    }

    /// Gives up where memory is short: a file system becomes catatonic, as by its administrator, so
    /// that nobody waits there for what isn't done. The event has room that was kept ahead for it.
    pub fn give_up<R: Wait>(&mut self, rt: &R, alloc: Global, fs: FsId) -> Result<u64, Uncalled>
        ensures ok { IfOk result
            (λ position. Receives L.opening self.old self.new (AdminCatatonic fs) position) }
        ensures err { IfErr result
            (λ back. (back.event ≡ AdminCatatonic fs) × (self.new ≡ self.old)) }
    {
        self.make(rt, alloc, Event::AdminCatatonic { fs }, true)
    }
}
