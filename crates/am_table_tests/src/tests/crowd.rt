//! Many that wait on one token.

use am_names::{Errno, FsId, Status, Token, TokenKind, Trigger, WalkerId};
use am_wait::Waits;
use std::alloc::Global;

/// So many walkers wait.
const CROWD: u32 = 1_000;

/// All of them wait on one token, each behind those of lower numbers.
fn gather(alloc: Global, waits: &mut Waits) -> Result<Token, Errno> {
    let trigger = Trigger {
        fs: FsId(2),
        name: None,
    };
    let token = waits.open(alloc, trigger, TokenKind::Missing, WalkerId(0))?;
    for walker in 1..CROWD {
        waits.join(token, WalkerId(walker))?;
    }
    Ok(token)
}

/// Whether each of them is told Ready, the last first.
fn are_ready(waits: &mut Waits) -> bool {
    for collected in 0..CROWD {
        let last = WalkerId(CROWD - 1 - collected);
        if waits.collect(last) != Ok(Status::Ready) {
            return false;
        }
    }
    true
}

fn is_collected(alloc: Global, waits: &mut Waits) -> Result<bool, Errno> {
    let token = gather(alloc, waits)?;
    waits.answer(token, Status::Ready)?;
    Ok(are_ready(waits))
}

fn plays(alloc: Global) -> Result<bool, Errno> {
    let mut waits = Waits::new(alloc, CROWD, 1);
    let is_collected = is_collected(alloc, &mut waits);
    drop(waits);
    is_collected
}

#[test]
fn a_crowd_on_one_token_is_collected_backwards(rt: HostRuntime) {
    assert!(rt; plays(rt.alloc()) == Ok(true));
}
