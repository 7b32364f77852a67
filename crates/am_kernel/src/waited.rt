//! What a walker waited on that walks once more, and how that wait is collected.

ghost use Rattle.std.specs.Prelude.{◌≡◌, ◌≤◌, ◌+◌, length};
ghost use Rattle.am_kernel.specs.Waited.{expired_uses, waits_collected, walks_ended, waited_on, HasNoOpenWait};

use crate::walks::Walks;
use am_expire::OrderedTriggers;
use am_names::{Seconds, TokenKind, Trigger, WaitRow, WalkerId};
use am_wait::Waits;

/// What a walker waited on that begins a walk.
#[derive(Clone, Copy)]
pub enum Waited {
    /// It was idle.
    Idle,
    /// It waited on a mount.
    OnMount,
    /// It waited on the expiry of this trigger.
    OnExpiry { trigger: Trigger },
}

/// What a walker waited on that has this wait.
pub fn waited_on(wait: &WaitRow) -> Waited
    ensures { result ≡ waited_on wait.now }
{
    match wait.kind {
        TokenKind::Missing => Waited::OnMount,
        TokenKind::Expire => Waited::OnExpiry {
            trigger: wait.trigger,
        },
    }
}

/// A wait on an expiry that is collected is a use of the trigger.
pub fn touch_expired(triggers: &mut OrderedTriggers, waited: &Waited, moment: Seconds)
    requires { 1 ≤ triggers.old.use_room }
    ensures rows { triggers.new.rows ≡ expired_uses waited.now moment triggers.old.rows }
    ensures room { triggers.old.use_room ≤ triggers.new.use_room + 1 }
{
    if let Waited::OnExpiry { trigger } = waited {
        triggers.touch_reserved(trigger, moment);
    }
}

/// What the walker waited on is collected.
pub fn collect_wait(waits: &mut Waits, waited: &Waited, walker: WalkerId)
    requires { HasNoOpenWait waited.now walker waits.old }
    ensures waits { waits.new ≡ waits_collected waited.now walker waits.old }
    ensures tokens { length waits.new.tokens ≡ length waits.old.tokens }
    ensures last { waits.new.last_token ≡ waits.old.last_token }
{
    match waited {
        Waited::Idle => {}
        Waited::OnMount | Waited::OnExpiry { .. } => {
            let _collected = waits.collect(walker);
        }
    }
}

/// The walk of a walker that waited is over.
pub fn end_walk(walks: &mut Walks, waited: &Waited, walker: WalkerId)
    ensures { walks.new.rows ≡ walks_ended waited.now walker walks.old.rows }
{
    match waited {
        Waited::Idle => {}
        Waited::OnMount | Waited::OnExpiry { .. } => walks.take(walker),
    }
}
