//! The rows of the open tokens, each with the keys of those that wait on it.

ghost use Rattle.std.specs.Prelude.{◌≡◌, ◌<◌, ◌==◌, ◌∷◌, ◌++◌, ◌↔◌, [], nat_le, filter, position, set, get_or, not, option_copied, IsTrue, IfOk, OnOk, OnErr};
ghost use Rattle.std.specs.List.{position_or_len};
ghost use Rattle.std.specs.VecDeque.{deque_len};
ghost use Rattle.am_names.specs.{RiseBy};
ghost use Rattle.am_wait.specs.declared.held.HeldToken.{HeldToken as Held};
ghost use Rattle.am_wait.specs.Held.{held_of, without_held, joined_key, with_key, held_tokens_of, token_in, tokens_in};

use crate::keys::Keys;
use crate::seats::are_same_walkers;
use am_names::{FsId, Token, TokenKind, Trigger, WaitRow};
use slab::Slab;
use std::alloc::{AllocError, Global};
use std::collections::VecDeque;

/// An open token. The keys are those of its waiters, in the order in which they joined.
#[derive(Debug, Drop)]
pub struct HeldToken {
    pub token: Token,
    pub trigger: Trigger,
    pub kind: TokenKind,
    pub keys: Keys,
}

impl HeldToken {
    /// The same token once more.
    fn copy(&self, alloc: Global) -> Result<HeldToken, AllocError>
        ensures { IfOk result (λ row. row ≡ self.now) }
    {
        Ok(HeldToken {
            token: self.token,
            trigger: self.trigger,
            kind: self.kind,
            keys: self.keys.copy(alloc)?,
        })
    }

    /// Whether both are the same token, on which the same walkers wait. Their waits are in these
    /// slabs.
    #[tactic(auto, using(am_names::proofs::SameTriggers::equal_by_same_trigger, am_names::proofs::SameTriggers::same_trigger_itself))]
    fn is_same(&self, slab: &Slab<WaitRow>, other: &HeldToken, others: &Slab<WaitRow>) -> bool
        ensures { IsTrue result ↔ (token_in slab.now self.now ≡ token_in others.now other.now) }
    {
        self.token == other.token
            && self.kind == other.kind
            && self.trigger.is_same(&other.trigger)
            && are_same_walkers(slab, self.keys.as_slice(), others, other.keys.as_slice())
    }
}

/// Whether the tokens at this place are the same, on which the same walkers wait.
fn is_same_at(
    slab: &Slab<WaitRow>,
    tokens: &VecDeque<HeldToken>,
    others: &Slab<WaitRow>,
    other_tokens: &VecDeque<HeldToken>,
    at: usize,
) -> bool
    requires within { at < deque_len tokens.now }
    requires within_others { at < deque_len other_tokens.now }
    ensures { (d e : Held) → IsTrue result ↔ (token_in slab.now (get_or tokens.now.items at d)
        ≡ token_in others.now (get_or other_tokens.now.items at e)) }
{
    tokens[at].is_same(slab, &other_tokens[at], others)
}

/// Whether these are the same tokens, on which the same walkers wait. Their waits are in these
/// slabs.
pub fn are_same_tokens(
    slab: &Slab<WaitRow>,
    tokens: &VecDeque<HeldToken>,
    others: &Slab<WaitRow>,
    other_tokens: &VecDeque<HeldToken>,
) -> bool
    ensures { IsTrue result
        ↔ (tokens_in slab.now tokens.now.items ≡ tokens_in others.now other_tokens.now.items) }
{
    if tokens.len() != other_tokens.len() {
        return false;
    }
    for at in 0..tokens.len() {
        if !is_same_at(slab, tokens, others, other_tokens, at) {
            return false;
        }
    }
    true
}

/// The same rows once more.
pub fn copies_of(
    alloc: Global,
    tokens: &VecDeque<HeldToken>,
) -> Result<VecDeque<HeldToken>, AllocError>
    ensures { IfOk result (λ copies. copies.items ≡ tokens.now.items) }
{
    let mut copies = VecDeque::with_capacity(alloc, tokens.len())?;
    for row in tokens.iter() {
        let row = row.copy(alloc)?;
        copies.push_back(row)?;
    }
    Ok(copies)
}

/// The token is the last of those found, if it is of the file system.
fn find_token(found: &mut Vec<Token>, row: &HeldToken, fs: FsId) -> Result<(), AllocError>
    ensures { OnOk result (found.new.items
        ≡ found.old.items ++ held_tokens_of (row.now ∷ []) fs) }
{
    if row.trigger.fs == fs {
        found.push(row.token)?;
    }
    Ok(())
}

/// The open tokens of a file system, in rising order.
pub fn tokens_of(
    alloc: Global,
    tokens: &VecDeque<HeldToken>,
    fs: FsId,
) -> Result<Vec<Token>, AllocError>
    ensures { IfOk result (λ v. v.items ≡ held_tokens_of tokens.now.items fs) }
{
    let mut found = Vec::new(alloc);
    for row in tokens.iter() {
        find_token(&mut found, row, fs)?;
    }
    Ok(found)
}

/// How many rows stand before that of this token and those of greater ones.
fn tokens_below(tokens: &VecDeque<HeldToken>, token: Token) -> usize
    requires rising { RiseBy (λ row. row.token) 0 tokens.now.items }
    ensures { result ≡ position_or_len (λ row. nat_le token row.token) tokens.now.items }
{
    tokens.partition_point(|row| row.token.0 < token.0)
}

/// The row of a token, if it is open.
pub fn held_of(tokens: &VecDeque<HeldToken>, token: Token) -> Option<&HeldToken>
    requires rising { RiseBy (λ row. row.token) 0 tokens.now.items }
    ensures { option_copied result ≡ held_of tokens.now.items token }
{
    let at = tokens_below(tokens, token);
    let Some(row) = tokens.get(at) else {
        return None;
    };
    if row.token != token {
        return None;
    }
    Some(row)
}

/// Where the row of a token stands.
fn held_place(tokens: &VecDeque<HeldToken>, token: Token) -> Option<usize>
    requires rising { RiseBy (λ row. row.token) 0 tokens.now.items }
    ensures { result ≡ position (λ row. row.token == token) tokens.now.items }
{
    let at = tokens_below(tokens, token);
    let Some(row) = tokens.get(at) else {
        return None;
    };
    if row.token != token {
        return None;
    }
    Some(at)
}

/// The key is the last of those of the token at this place.
fn join_at(tokens: &mut VecDeque<HeldToken>, at: usize, key: usize) -> Result<(), AllocError>
    requires { at < deque_len tokens.old }
    ensures ok { OnOk result ((d : Held) → tokens.new.items ≡
        set tokens.old.items at (joined_key (get_or tokens.old.items at d) key)) }
    ensures err { OnErr result (tokens.new.items ≡ tokens.old.items) }
{
    let row = &mut tokens[at];
    row.keys.join(key)
}

/// The key is the last of those of a token.
pub fn add_key(tokens: &mut VecDeque<HeldToken>, token: Token, key: usize) -> Result<(), AllocError>
    requires rising { RiseBy (λ row. row.token) 0 tokens.old.items }
    ensures ok { OnOk result (tokens.new.items ≡ with_key token key tokens.old.items) }
    ensures err { OnErr result (tokens.new.items ≡ tokens.old.items) }
{
    let Some(at) = held_place(tokens, token) else {
        return Ok(());
    };
    join_at(tokens, at, key)?;
    Ok(())
}

/// A token closes.
pub fn take_token(tokens: &mut VecDeque<HeldToken>, token: Token)
    requires rising { RiseBy (λ row. row.token) 0 tokens.old.items }
    ensures { tokens.new.items ≡ without_held token tokens.old.items }
{
    let at = tokens_below(tokens, token);
    let Some(row) = tokens.get(at) else {
        return;
    };
    if row.token != token {
        return;
    }
    let _row = tokens.remove(at);
}

/// All tokens of a file system close.
pub fn take_tokens_of(tokens: &mut VecDeque<HeldToken>, fs: FsId)
    ensures { tokens.new.items ≡ filter (λ row. not (row.trigger.fs == fs)) tokens.old.items }
{
    tokens.retain(|row| row.trigger.fs != fs);
}
