//! The kept form of a trigger.

ghost use Rattle.std.specs.Prelude.{◌≡◌, IsTrue, IfOk, Some};
ghost use Rattle.am_names.specs.{is_name, same_trigger, same_name};

use am_names::{FsId, Name, Trigger};
use std::alloc::{AllocError, Global};
use std::marker::Model;

/// A name in an allocation of its own length.
#[derive(Drop)]
pub(crate) struct KeptName {
    text: Vec<u8>,
}

impl Model for KeptName {
    ghost use Rattle.std.specs.Prelude.{ℕ, List, IsTrue};
    ghost use Rattle.am_names.specs.{is_name};

    ghost Value = { List ℕ };

    ghost view = { λ n. n.text.items };

    ghost invariant = { λ n. IsTrue (is_name n.text.items) };
}

impl KeptName {
    fn new(alloc: Global, name: &Name) -> Result<KeptName, AllocError>
        ensures { IfOk result (λ kept. kept ≡ name.now) }
    {
        Ok(KeptName {
            text: Vec::from_slice(alloc, name.as_bytes())?,
        })
    }

    fn as_bytes(&self) -> &[u8]
        ensures bytes { result.now ≡ self.now }
        ensures name { IsTrue (is_name result.now) }
    {
        self.text.as_slice()
    }

    /// The name, which there always is.
    fn to_name(&self) -> Option<Name>
        ensures { result ≡ Some self.now }
    {
        Name::read(self.as_bytes()).ok()
    }
}

/// What a trigger is made of.
#[derive(Drop)]
pub(crate) struct TriggerParts {
    fs: FsId,
    name: Option<KeptName>,
}

/// A trigger that is kept for long: it takes the memory of its name's bytes, where a `Trigger` has
/// room for the longest name.
#[derive(Drop)]
pub struct KeptTrigger {
    parts: Box<TriggerParts>,
}

impl Model for KeptTrigger {
    ghost use Rattle.am_names.specs.declared.trigger.Trigger.{Trigger};

    ghost Value = { Trigger };

    ghost view = { λ k. record { fs = k.parts.value.fs; name = k.parts.value.name } };
}

fn kept_name(alloc: Global, name: &Option<Name>) -> Result<Option<KeptName>, AllocError>
    ensures { IfOk result (λ kept. kept ≡ name.now) }
{
    match name {
        None => Ok(None),
        Some(name) => Ok(Some(KeptName::new(alloc, name)?)),
    }
}

fn to_name(kept: &Option<KeptName>) -> Option<Name>
    ensures { result ≡ kept.now }
{
    match kept {
        None => None,
        Some(name) => name.to_name(),
    }
}

fn is_name(kept: &Option<KeptName>, name: &Option<Name>) -> bool
    ensures { result ≡ same_name kept.now name.now }
{
    match (kept, name) {
        (None, None) => true,
        (Some(kept), Some(name)) => kept.as_bytes() == name.as_bytes(),
        (None, Some(_)) | (Some(_), None) => false,
    }
}

impl KeptTrigger {
    /// Keeps a trigger.
    pub fn new(alloc: Global, trigger: &Trigger) -> Result<KeptTrigger, AllocError>
        ensures { IfOk result (λ kept. kept ≡ trigger.now) }
    {
        let parts = TriggerParts {
            fs: trigger.fs,
            name: kept_name(alloc, &trigger.name)?,
        };
        Ok(KeptTrigger {
            parts: Box::new(alloc, parts)?,
        })
    }

    /// The trigger.
    pub fn to_trigger(&self) -> Trigger
        ensures { result ≡ self.now }
    {
        Trigger {
            fs: self.parts.fs,
            name: to_name(&self.parts.name),
        }
    }

    /// The same trigger once more.
    pub fn copy(&self, alloc: Global) -> Result<KeptTrigger, AllocError>
        ensures { IfOk result (λ kept. kept ≡ self.now) }
    {
        KeptTrigger::new(alloc, &self.to_trigger())
    }

    /// Whether it is this trigger.
    pub fn is(&self, trigger: &Trigger) -> bool
        ensures { result ≡ same_trigger self.now trigger.now }
    {
        if self.parts.fs != trigger.fs {
            return false;
        }
        is_name(&self.parts.name, &trigger.name)
    }
}

/// Keeps triggers, in their order.
pub fn keep_triggers(alloc: Global, triggers: &[Trigger]) -> Result<Vec<KeptTrigger>, AllocError>
    ensures { IfOk result (λ kept. kept.items ≡ triggers.now) }
{
    let mut kept = Vec::with_capacity(alloc, triggers.len())?;
    for trigger in triggers {
        kept.push(KeptTrigger::new(alloc, trigger)?)?;
    }
    Ok(kept)
}
