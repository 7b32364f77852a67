//! A walker whose wait was released begins to wait again, in one step.

ghost use Rattle.std.specs.Prelude.{◌≡◌, ◌+◌, IfOk, OnOk, OnErr};
ghost use Rattle.am_names.specs.{RefusedAs};
ghost use Rattle.am_wait.specs.Rows.{wait_of};
ghost use Rattle.am_wait.specs.Calls.{is_full, collected, still_waits, reopen_refusal, reopened, rejoin_refusal, rejoined};

use crate::held::held_of;
use crate::seats::{make_room, next_key, put_wait, take_wait, waits_of_others};
use crate::waits::{Waits, waiting_on};
use am_names::{Errno, Token, TokenKind, Trigger, WalkerId};
use std::alloc::Global;

impl Waits {
    /// Whether the walker has a wait that was not released.
    fn still_waits(&self, walker: WalkerId) -> bool
        ensures { result ≡ still_waits (wait_of self.now.waits walker) }
    {
        match self.wait_of(walker) {
            Some(row) => row.status.is_none(),
            None => false,
        }
    }

    /// Whether as many wait as may, with the walker's own wait collected if it has one.
    pub fn is_full_for(&self, walker: WalkerId) -> bool
        ensures { result ≡ is_full (collected walker self.now) }
    {
        waits_of_others(&self.seats, walker) >= self.most_waits as usize
    }

    /// Why `reopen` would refuse this walker, if it would.
    pub fn reopen_refusal(&self, walker: WalkerId) -> Option<Errno>
        ensures { result ≡ reopen_refusal walker self.now }
    {
        if self.still_waits(walker) {
            Some(Errno::EINVAL)
        } else if self.is_exhausted() {
            Some(Errno::ENOSPC)
        } else if self.is_full_for(walker) {
            Some(Errno::ENOSPC)
        } else {
            None
        }
    }

    /// Opens the next token, on which the walker waits. If it had a wait that was released, that is
    /// collected with its status.
    pub fn reopen(
        &mut self,
        alloc: Global,
        trigger: Trigger,
        kind: TokenKind,
        walker: WalkerId,
    ) -> Result<Token, Errno>
        ensures refusal { RefusedAs (reopen_refusal walker self.old) result }
        ensures token { IfOk result (λ token. token ≡ self.old.last_token + 1) }
        ensures ok { OnOk result (self.new ≡ reopened trigger kind walker self.old) }
        ensures err { OnErr result (self.new ≡ self.old) }
    {
        if let Some(errno) = self.reopen_refusal(walker) {
            return Err(errno);
        }
        let number = self.last_token + 1;
        let token = Token(number);
        let wait = waiting_on(token, trigger, kind, walker);
        let key = next_key(&self.seats, &self.slab, walker);
        make_room(&mut self.seats, &mut self.slab)?;
        self.tokens.open_token(alloc, &wait, key)?;
        take_wait(&mut self.seats, &mut self.slab, walker);
        put_wait(&mut self.seats, &mut self.slab, wait);
        self.last_token = number;
        Ok(token)
    }

    /// The walker waits on an open token too. If it had a wait that was released, that is collected
    /// with its status.
    pub fn rejoin(&mut self, token: Token, walker: WalkerId) -> Result<(), Errno>
        ensures refusal { RefusedAs (rejoin_refusal token walker self.old) result }
        ensures ok { OnOk result (self.new ≡ rejoined token walker self.old) }
        ensures err { OnErr result (self.new ≡ self.old) }
    {
        if self.still_waits(walker) {
            return Err(Errno::EINVAL);
        }
        let Some(row) = held_of(self.tokens.rows(), token) else {
            return Err(Errno::EINVAL);
        };
        let wait = waiting_on(token, row.trigger, row.kind, walker);
        if self.is_full_for(walker) {
            return Err(Errno::ENOSPC);
        }
        let key = next_key(&self.seats, &self.slab, walker);
        make_room(&mut self.seats, &mut self.slab)?;
        self.tokens.add_key(token, key)?;
        take_wait(&mut self.seats, &mut self.slab, walker);
        put_wait(&mut self.seats, &mut self.slab, wait);
        Ok(())
    }
}
