//! The open tokens, found by their numbers and by their triggers.

ghost use Rattle.std.specs.Prelude.{◌≡◌, ◌<◌, ◌^◌, ◌==◌, ◌∷◌, ◌++◌, [], length, filter, not, IfOk, OnOk, OnErr};
ghost use Rattle.am_names.specs.{RiseBy};
ghost use Rattle.am_wait.specs.Held.{without_held, with_key, held_row, held_open_on};

use crate::held::{HeldToken, add_key, copies_of, held_of, take_token, take_tokens_of};
use crate::keys::Keys;
use crate::openings::{Opening, Openings};
use am_names::{FsId, Token, TokenKind, Trigger, WaitRow};
use std::alloc::{AllocError, Global};
use std::collections::VecDeque;
use std::marker::Model;

/// The open tokens, each with the keys of those that wait on it.
#[derive(Debug, Drop)]
pub struct HeldTokens {
    rows: VecDeque<HeldToken>,
    openings: Openings,
}

impl Model for HeldTokens {
    ghost use Rattle.am_wait.specs.HeldTable.{HeldTable};

    ghost Value = { HeldTable };

    ghost use Rattle.am_wait.specs.HeldView.{table_of, IsIndexed};

    ghost view = { table_of };

    // Each trigger has the list of its open tokens.
    ghost invariant = { IsIndexed };
}

impl HeldTokens {
    /// No token.
    pub fn new(alloc: Global) -> HeldTokens
        ensures { result.items ≡ [] }
    {
        HeldTokens {
            rows: VecDeque::new(alloc),
            openings: Openings::new(alloc),
        }
    }

    /// The same tokens once more.
    pub fn copy(&self, alloc: Global) -> Result<HeldTokens, AllocError>
        ensures { IfOk result (λ copy. copy.items ≡ self.now.items) }
    {
        Ok(HeldTokens {
            rows: copies_of(alloc, &self.rows)?,
            openings: self.openings.copy()?,
        })
    }

    /// The tokens, in rising order.
    pub fn rows(&self) -> &VecDeque<HeldToken>
        ensures { result.now.items ≡ self.now.items }
    {
        &self.rows
    }

    /// How many there are.
    pub fn len(&self) -> usize
        ensures exact { result ≡ length self.now.items }
        ensures bound { result < 2 ^ 63 }
    {
        self.rows.len()
    }

    /// The open token of this kind for a trigger.
    pub fn open_on(&self, kind: TokenKind, trigger: &Trigger) -> Option<Token>
        ensures { result ≡ held_open_on self.now.items kind trigger.now }
    {
        self.openings.first(kind, trigger)
    }

    /// The token on which this wait is opens, the greatest of all; this key is the first of those
    /// of its waiters.
    pub fn open_token(
        &mut self,
        alloc: Global,
        wait: &WaitRow,
        key: usize,
    ) -> Result<(), AllocError>
        ensures ok { OnOk result (self.new.items ≡ self.old.items
            ++ held_row wait.now.token wait.now.trigger wait.now.kind key ∷ []) }
        ensures err { OnErr result (self.new.items ≡ self.old.items) }
    {
        let keys = Keys::one(alloc, key)?;
        self.rows.reserve(1)?;
        self.openings.make_room(alloc, &wait.trigger)?;
        let opening = Opening {
            token: wait.token,
            kind: wait.kind,
        };
        self.openings.add(&wait.trigger, opening);
        self.rows.push_back_reserved(HeldToken {
            token: wait.token,
            trigger: wait.trigger,
            kind: wait.kind,
            keys,
        });
        Ok(())
    }

    /// The key is the last of those of a token.
    pub fn add_key(&mut self, token: Token, key: usize) -> Result<(), AllocError>
        requires rising { RiseBy (λ row. row.token) 0 self.old.items }
        ensures ok { OnOk result (self.new.items ≡ with_key token key self.old.items) }
        ensures err { OnErr result (self.new.items ≡ self.old.items) }
    {
        add_key(&mut self.rows, token, key)?;
        Ok(())
    }

    /// A token closes.
    pub fn take_token(&mut self, token: Token)
        requires rising { RiseBy (λ row. row.token) 0 self.old.items }
        ensures { self.new.items ≡ without_held token self.old.items }
    {
        let Some(row) = held_of(&self.rows, token) else {
            return;
        };
        self.openings.remove(&row.trigger, token);
        take_token(&mut self.rows, token);
    }

    /// All tokens of a file system close.
    pub fn take_tokens_of(&mut self, fs: FsId)
        ensures { self.new.items ≡ filter (λ row. not (row.trigger.fs == fs)) self.old.items }
    {
        self.openings.remove_fs(fs);
        take_tokens_of(&mut self.rows, fs);
    }
}
