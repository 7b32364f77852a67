//! What is seen of walkers: the triggers that they pass, their waits, and their releases.

ghost use Rattle.std.specs.Prelude.{◌≡◌, ◌≤◌, ◌+◌, ◌∷◌, ◌++◌, [], length, OnOk, vec_len, vec_capacity};
ghost use Rattle.am_state.specs.declared.obs.Obs.TheVariants as told;
ghost use Rattle.am_kernel.specs.Observations.{passes, releases};

use am_names::{Attach, Status, Token, WalkerId};
use am_state::{KeptPacket, KeptTrigger, Obs};
use std::alloc::AllocError;

/// Tells which triggers a walk passed.
pub fn tell_passes(seen: &mut Vec<Obs>, walker: WalkerId, passed: Vec<KeptTrigger>)
    requires { vec_len seen.old + length passed.items ≤ vec_capacity seen.old }
    ensures seen { seen.new.items ≡ seen.old.items ++ passes walker passed.items }
    ensures len { vec_len seen.new ≡ vec_len seen.old + length passed.items }
    ensures capacity { vec_capacity seen.new ≡ vec_capacity seen.old }
{
    for trigger in passed {
        seen.push_reserved(Obs::Passed { walker, trigger });
    }
}

/// Tells which triggers a walk passed, that a packet is queued, and that the walker waits.
pub fn tell_queued(
    seen: &mut Vec<Obs>,
    walker: WalkerId,
    passed: Vec<KeptTrigger>,
    token: Token,
    attach: Attach,
    packet: KeptPacket,
)
    requires { vec_len seen.old + length passed.items + 2 ≤ vec_capacity seen.old }
    ensures { seen.new.items ≡
        seen.old.items ++
        (passes walker passed.items ++
        told.Queued token attach packet ∷ told.Waits walker token ∷ []) }
{
    tell_passes(seen, walker, passed);
    seen.push_reserved(Obs::Queued {
        token,
        attach,
        packet,
    });
    seen.push_reserved(Obs::Waits { walker, token });
}

/// Tells that these walkers are released with the status.
pub fn tell_releases(
    shown: &mut Vec<Obs>,
    token: Token,
    status: Status,
    walkers: &[WalkerId],
) -> Result<(), AllocError>
    ensures ok { OnOk result
        (shown.new.items ≡ shown.old.items ++ releases token status walkers.now) }
{
    for walker in walkers {
        shown.push(Obs::Released {
            walker: *walker,
            token,
            status,
        })?;
    }
    Ok(())
}
