//! Open tokens, and the walkers that wait on them.

ghost use Rattle.std.specs.Prelude.{◌≡◌, ◌<◌, ◌+◌, ◌^◌, ◌↔◌, Some, length, IsTrue, IfOk, OnOk, OnErr};
ghost use Rattle.std.specs.Option.{option_map};
ghost use Rattle.am_names.specs.{RefusedAs, RefusedOnlyAs};
ghost use Rattle.am_wait.specs.Rows.{no_waits, open_on, token_of, wait_of, waiters_of, tokens_of};
ghost use Rattle.am_wait.specs.Invariant.{IsSound};
ghost use Rattle.am_wait.specs.Calls.{is_exhausted, is_full, open_refusal, waiting_on, opened, join_refusal, joined, answer_refusal, answered, fs_released, collect_refusal, status_of, collected};

use crate::held;
use crate::held::{are_same_tokens, held_of};
use crate::seating::Seating;
use crate::seats::{copy_of, set_statuses, take_wait, walkers_at};
use crate::tokens::HeldTokens;
use am_names::{Errno, FsId, Status, Token, TokenKind, Trigger, WaitRow, WalkerId};
use slab::Slab;
use std::alloc::{AllocError, Global};
use std::marker::Model;

mod again;

/// The open tokens with their waiters, and for each walker that waits, or has not collected its
/// status yet, its wait (Linux: the wait queues of an autofs).
#[derive(Debug, Drop)]
pub struct Waits {
    tokens: HeldTokens,
    seats: Seating,
    slab: Slab<WaitRow>,
    last_token: u32,
    most_waits: u32,
    most_tokens: u32,
}

impl Model for Waits {
    ghost use Rattle.am_wait.specs.Rows.{WaitRows};

    ghost Value = { WaitRows };

    ghost use Rattle.am_wait.specs.View.{rows_of, IsKept};

    ghost view = { rows_of };

    ghost invariant = { IsKept };
}

/// The wait of a walker on an open token.
fn waiting_on(token: Token, trigger: Trigger, kind: TokenKind, walker: WalkerId) -> WaitRow
    ensures { result ≡ waiting_on token trigger kind walker }
{
    WaitRow {
        walker,
        token,
        trigger,
        kind,
        status: None,
    }
}

impl Waits {
    /// Nobody waits. At most so many may wait at one time, and so many tokens be given.
    pub fn new(alloc: Global, waiters: u32, tokens: u32) -> Waits
        ensures { result ≡ no_waits waiters tokens }
    {
        Waits {
            tokens: HeldTokens::new(alloc),
            seats: Seating::new(alloc),
            slab: Slab::new(alloc),
            last_token: 0,
            most_waits: waiters,
            most_tokens: tokens,
        }
    }

    /// The same tokens and waits once more.
    pub fn copy(&self, alloc: Global) -> Result<Waits, AllocError>
        ensures { IfOk result (λ copy. copy ≡ self.now) }
    {
        Ok(Waits {
            tokens: self.tokens.copy(alloc)?,
            seats: self.seats.copy()?,
            slab: copy_of(&self.slab)?,
            last_token: self.last_token,
            most_waits: self.most_waits,
            most_tokens: self.most_tokens,
        })
    }

    /// Whether both have the same waits.
    fn has_same_waits(&self, other: &Waits) -> bool
        ensures { IsTrue result ↔ (self.now.waits ≡ other.now.waits) }
    {
        self.seats
            .are_same_waits(&self.slab, &other.seats, &other.slab)
            && other
                .seats
                .are_same_waits(&other.slab, &self.seats, &self.slab)
    }

    /// Whether both have the same tokens and waits, and give the same tokens next.
    pub fn is_same(&self, other: &Waits) -> bool
        ensures { IsTrue result ↔ (self.now ≡ other.now) }
    {
        self.last_token == other.last_token
            && self.most_waits == other.most_waits
            && self.most_tokens == other.most_tokens
            && are_same_tokens(
                &self.slab,
                self.tokens.rows(),
                &other.slab,
                other.tokens.rows(),
            )
            && self.has_same_waits(other)
    }

    /// The open token of this kind for a trigger.
    pub fn open_on(&self, kind: TokenKind, trigger: &Trigger) -> Option<Token>
        ensures { result ≡ open_on self.now.tokens kind trigger.now }
    {
        self.tokens.open_on(kind, trigger)
    }

    /// The trigger of a token; none if it isn't open.
    pub fn trigger_of(&self, token: Token) -> Option<Trigger>
        ensures { result ≡ option_map (λ row. row.trigger) (token_of self.now.tokens token) }
    {
        match held_of(self.tokens.rows(), token) {
            Some(row) => Some(row.trigger),
            None => None,
        }
    }

    /// What a token is open for, with its trigger; none if it isn't open.
    pub fn purpose_of(&self, token: Token) -> Option<(TokenKind, Trigger)>
        ensures { result ≡ option_map (λ row. (row.kind, row.trigger))
            (token_of self.now.tokens token) }
    {
        match held_of(self.tokens.rows(), token) {
            Some(row) => Some((row.kind, row.trigger)),
            None => None,
        }
    }

    /// The greatest token that was ever given; 0 for none.
    pub fn last_token(&self) -> Token
        ensures { result ≡ self.now.last_token }
    {
        Token(self.last_token)
    }

    /// How many tokens are open.
    pub fn token_count(&self) -> usize
        ensures exact { result ≡ length self.now.tokens }
        ensures bound { result < 2 ^ 63 }
    {
        self.tokens.len()
    }

    /// The wait of a walker, with what it waits for and the status with which it was released.
    pub fn wait_of(&self, walker: WalkerId) -> Option<WaitRow>
        ensures wait { result ≡ wait_of self.now.waits walker }
        ensures sound { IsSound self.now }
    {
        // The checker wants the tokens named, which `sound` speaks of.
        let _tokens = &self.tokens;
        let Some(key) = self.seats.key_of(walker) else {
            return None;
        };
        self.slab.get(key).copied()
    }

    /// The waiters of a token, in the order in which they joined; none if it isn't open.
    pub fn waiters_of(&self, alloc: Global, token: Token) -> Result<Vec<WalkerId>, AllocError>
        ensures { IfOk result (λ v. v.items ≡ waiters_of self.now.tokens token) }
    {
        match held_of(self.tokens.rows(), token) {
            Some(row) => walkers_at(alloc, &self.slab, row.keys.as_slice()),
            None => Ok(Vec::new(alloc)),
        }
    }

    /// The open tokens of a file system, in rising order.
    pub fn tokens_of(&self, alloc: Global, fs: FsId) -> Result<Vec<Token>, AllocError>
        ensures { IfOk result (λ v. v.items ≡ tokens_of self.now.tokens fs) }
    {
        held::tokens_of(alloc, self.tokens.rows(), fs)
    }

    fn is_exhausted(&self) -> bool
        ensures { result ≡ is_exhausted self.now }
    {
        self.last_token >= self.most_tokens
    }

    fn is_full(&self) -> bool
        ensures { result ≡ is_full self.now }
    {
        self.seats.len() >= self.most_waits as usize
    }

    /// Why `open` would refuse this walker, if it would.
    pub fn open_refusal(&self, walker: WalkerId) -> Option<Errno>
        ensures { result ≡ open_refusal walker self.now }
    {
        if self.wait_of(walker).is_some() {
            return Some(Errno::EINVAL);
        }
        if self.is_exhausted() {
            return Some(Errno::ENOSPC);
        }
        if self.is_full() {
            return Some(Errno::ENOSPC);
        }
        None
    }

    /// Opens the next token, on which the walker waits.
    pub fn open(
        &mut self,
        alloc: Global,
        trigger: Trigger,
        kind: TokenKind,
        walker: WalkerId,
    ) -> Result<Token, Errno>
        ensures refusal { RefusedAs (open_refusal walker self.old) result }
        ensures token { IfOk result (λ token. token ≡ self.old.last_token + 1) }
        ensures ok { OnOk result (self.new ≡ opened trigger kind walker self.old) }
        ensures err { OnErr result (self.new ≡ self.old) }
    {
        if self.wait_of(walker).is_some() {
            return Err(Errno::EINVAL);
        }
        self.reopen(alloc, trigger, kind, walker)
    }

    /// The walker waits on an open token too.
    pub fn join(&mut self, token: Token, walker: WalkerId) -> Result<(), Errno>
        ensures refusal { RefusedAs (join_refusal token walker self.old) result }
        ensures ok { OnOk result (self.new ≡ joined token walker self.old) }
        ensures err { OnErr result (self.new ≡ self.old) }
    {
        if self.wait_of(walker).is_some() {
            return Err(Errno::EINVAL);
        }
        self.rejoin(token, walker)
    }

    /// The daemon acknowledges a token: it closes, and each of its waiters has the status.
    pub fn answer(&mut self, token: Token, status: Status) -> Result<(), Errno>
        ensures refusal { RefusedOnlyAs (answer_refusal token self.old) result }
        ensures ok { OnOk result (self.new ≡ answered token status self.old) }
        ensures err { OnErr result (self.new ≡ self.old) }
    {
        let Some(row) = held_of(self.tokens.rows(), token) else {
            return Err(Errno::EINVAL);
        };
        set_statuses(&mut self.slab, row.keys.as_slice(), status);
        self.tokens.take_token(token);
        Ok(())
    }

    /// Closes all tokens of a file system, and fails those that wait on them
    /// (autofs.rst, "Catatonic mode").
    pub fn release_fs(&mut self, fs: FsId)
        ensures { self.new ≡ fs_released fs self.old }
    {
        self.seats.fail_waits_of(&mut self.slab, fs);
        self.tokens.take_tokens_of(fs);
    }

    /// The status with which the walker was released. Its wait counts no more.
    pub fn collect(&mut self, walker: WalkerId) -> Result<Status, Errno>
        ensures refusal { RefusedOnlyAs (collect_refusal walker self.old) result }
        ensures status { IfOk result (λ status. status_of walker self.old ≡ Some status) }
        ensures ok { OnOk result (self.new ≡ collected walker self.old) }
        ensures err { OnErr result (self.new ≡ self.old) }
    {
        let Some(row) = self.wait_of(walker) else {
            return Err(Errno::EINVAL);
        };
        let Some(status) = row.status else {
            return Err(Errno::NotReleased);
        };
        take_wait(&mut self.seats, &mut self.slab, walker);
        Ok(status)
    }
}
