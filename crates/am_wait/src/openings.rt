//! The open tokens of each trigger, found by hash.

ghost use Rattle.std.specs.Prelude.{◌≡◌, ◌==◌, [], find, filter, not, IfOk, OnOk};
ghost use Rattle.std.specs.Option.{option_map};
ghost use Rattle.am_names.specs.declared.trigger.Trigger.{Trigger as Site};
ghost use Rattle.am_wait.specs.Rows.{same_kind};
ghost use Rattle.am_wait.specs.Openings.{listed, but, HasRoom, SameLists, AddsTo, TakesFrom, TakesAllOf};

use am_names::{FsId, Name, Token, TokenKind, Trigger};
use indexmap::IndexMap;
use std::alloc::{AllocError, Global};

/// An open token of a trigger.
#[derive(Clone, Copy, Debug)]
pub struct Opening {
    pub token: Token,
    pub kind: TokenKind,
}

/// For each trigger its open tokens, in rising order.
#[derive(Debug, Drop)]
pub struct Openings {
    lists: IndexMap<Trigger, Vec<Opening>>,
}

fn same_kind(one: TokenKind, other: TokenKind) -> bool
    ensures { result ≡ same_kind one other }
{
    match (one, other) {
        (TokenKind::Missing, TokenKind::Missing) | (TokenKind::Expire, TokenKind::Expire) => true,
        (TokenKind::Missing, TokenKind::Expire) | (TokenKind::Expire, TokenKind::Missing) => false,
    }
}

/// The first of these of this kind.
fn first_of(list: &[Opening], kind: TokenKind) -> Option<Token>
    ensures { result ≡ option_map (λ opening. opening.token)
        (find (λ opening. same_kind opening.kind kind) list.now) }
{
    list.iter()
        .find(|opening| same_kind(opening.kind, kind))
        .map(|opening| opening.token)
}

/// Takes it out of a list.
fn take_out(list: &mut Vec<Opening>, token: Token)
    ensures { list.new.items ≡ but token list.old.items }
{
    list.retain(|opening| opening.token != token);
}

/// Only the lists of the triggers of other file systems stay.
fn keep_others(lists: &mut IndexMap<Trigger, Vec<Opening>>, fs: FsId)
    ensures { lists.new.entries ≡ filter (λ entry. not (entry.0.fs == fs)) lists.old.entries }
{
    lists.retain(
        |trigger: &Trigger, list: &mut Vec<Opening>| -> bool
            ensures { (result ≡ not (trigger.now.fs == fs)) × (list.new ≡ list.old) }
        { trigger.fs != fs },
    );
}

impl Openings {
    /// No token.
    pub fn new(alloc: Global) -> Openings
        ensures { (g : Site) → listed result g ≡ [] }
    {
        Openings {
            lists: IndexMap::new(alloc),
        }
    }

    /// The same lists once more.
    pub fn copy(&self) -> Result<Openings, AllocError>
        ensures { IfOk result (SameLists self.now) }
    {
        Ok(Openings {
            lists: self.lists.clone()?,
        })
    }

    /// The open tokens of a trigger.
    fn list(&self, trigger: &Trigger) -> &[Opening]
        ensures { result.now ≡ listed self.now trigger.now }
    {
        match self.lists.get(trigger) {
            Some(list) => list.as_slice(),
            None => &[],
        }
    }

    /// The first open token of this kind for a trigger.
    pub fn first(&self, kind: TokenKind, trigger: &Trigger) -> Option<Token>
        ensures { result ≡ option_map (λ opening. opening.token)
            (find (λ opening. same_kind opening.kind kind) (listed self.now trigger.now)) }
    {
        first_of(self.list(trigger), kind)
    }

    /// Begins the list of a trigger that has none.
    fn begin(&mut self, alloc: Global, trigger: &Trigger) -> Result<(), AllocError>
        requires { listed self.old trigger.now ≡ [] }
        ensures same { SameLists self.old self.new }
        ensures ok { OnOk result (HasRoom self.new trigger.now) }
    {
        // The checker wants the type of its name said too.
        let _name: Option<Name> = trigger.name;
        let mut list = Vec::new(alloc);
        list.reserve(1)?;
        self.lists.insert(*trigger, list)?;
        Ok(())
    }

    /// Makes room for one more token of the trigger.
    pub fn make_room(&mut self, alloc: Global, trigger: &Trigger) -> Result<(), AllocError>
        ensures same { SameLists self.old self.new }
        ensures ok { OnOk result (HasRoom self.new trigger.now) }
    {
        if let Some(list) = self.lists.get_mut(trigger) {
            return list.reserve(1);
        }
        self.begin(alloc, trigger)
    }

    /// Adds the last token of the trigger. There is room for it.
    pub fn add(&mut self, trigger: &Trigger, opening: Opening)
        requires { HasRoom self.old trigger.now }
        ensures { AddsTo trigger.now opening self.old self.new }
    {
        if let Some(list) = self.lists.get_mut(trigger) {
            list.push_reserved(opening);
        }
    }

    /// Takes a token out of the list of the trigger.
    fn shorten(&mut self, trigger: &Trigger, token: Token)
        ensures { TakesFrom trigger.now token self.old self.new }
    {
        if let Some(list) = self.lists.get_mut(trigger) {
            take_out(list, token);
        }
    }

    /// Gives the list of the trigger up, where it is empty.
    fn tidy(&mut self, trigger: &Trigger)
        ensures { SameLists self.old self.new }
    {
        if self.list(trigger).is_empty() {
            let _list = self.lists.swap_remove(trigger);
        }
    }

    /// Takes out a token of the trigger. It takes no memory.
    pub fn remove(&mut self, trigger: &Trigger, token: Token)
        ensures { TakesFrom trigger.now token self.old self.new }
    {
        self.shorten(trigger, token);
        self.tidy(trigger);
    }

    /// Takes out all tokens of a file system. It takes no memory.
    pub fn remove_fs(&mut self, fs: FsId)
        ensures { TakesAllOf fs self.old self.new }
    {
        keep_others(&mut self.lists, fs);
    }
}
