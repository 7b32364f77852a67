//! How many orders scenes have. These numbers, and those of states where they are the same, come from a
//! second explorer, over a second model. That model keeps who is inside of which mount, and what was
//! mounted where, in sets: where a world tells apart in which order that came, there are more states
//! here, and as many orders.

use crate::tests::scenes::{
    ADMINISTRATOR, DEATH, EXPIRY, FAILURES, Plan, THREE_WALKERS, TWO_KEYS, TWO_NAMESPACES,
    TWO_WALKERS, stage,
};
use am_explore::{Question, Tally, Unwatched, explore};
use am_names::Errno;
use std::alloc::Global;
use std::test::Fail;

/// What no order meets: there is no such thread.
pub const UNMET: Question = Question::Waiting { thread: 99 };

/// What a search meets that sees all orders of a plan.
fn tally_of(alloc: Global, plan: Plan) -> Result<Tally, Errno> {
    let staged = stage(alloc, plan)?;
    let seen = explore(
        alloc,
        &staged.world,
        &staged.scene,
        &UNMET,
        u64::MAX,
        &mut Unwatched,
    )?;
    Ok(seen.tally)
}

#[test]
fn two_namespaces(rt: HostRuntime) -> Result<(), Fail> {
    let tally = tally_of(rt.alloc(), TWO_NAMESPACES)?;
    let all = Tally {
        orders: 67,
        states: 59,
        ends: 10,
        steps: 116,
        worlds: 4,
    };
    assert_eq!(rt; tally, all);
    Ok(())
}

#[test]
fn expiry(rt: HostRuntime) -> Result<(), Fail> {
    let tally = tally_of(rt.alloc(), EXPIRY)?;
    let all = Tally {
        orders: 65,
        states: 65,
        ends: 4,
        steps: 131,
        worlds: 3,
    };
    assert_eq!(rt; tally, all);
    Ok(())
}

#[test]
fn two_walkers(rt: HostRuntime) -> Result<(), Fail> {
    let tally = tally_of(rt.alloc(), TWO_WALKERS)?;
    let all = Tally {
        orders: 72,
        states: 52,
        ends: 3,
        steps: 106,
        worlds: 1,
    };
    assert_eq!(rt; tally, all);
    Ok(())
}

#[test]
fn three_walkers(rt: HostRuntime) -> Result<(), Fail> {
    let tally = tally_of(rt.alloc(), THREE_WALKERS)?;
    let all = Tally {
        orders: 11_070,
        states: 362,
        ends: 7,
        steps: 945,
        worlds: 1,
    };
    assert_eq!(rt; tally, all);
    Ok(())
}

#[test]
fn two_keys(rt: HostRuntime) -> Result<(), Fail> {
    let tally = tally_of(rt.alloc(), TWO_KEYS)?;
    let all = Tally {
        orders: 5_060_016,
        states: 5_174,
        ends: 48,
        steps: 16_567,
        worlds: 16,
    };
    assert_eq!(rt; tally, all);
    Ok(())
}

#[test]
fn death(rt: HostRuntime) -> Result<(), Fail> {
    let tally = tally_of(rt.alloc(), DEATH)?;
    let all = Tally {
        orders: 56_054_078,
        states: 31_555,
        ends: 826,
        steps: 101_130,
        worlds: 38,
    };
    assert_eq!(rt; tally, all);
    Ok(())
}

#[test]
fn failures(rt: HostRuntime) -> Result<(), Fail> {
    let tally = tally_of(rt.alloc(), FAILURES)?;
    let all = Tally {
        orders: 24_891_299_552,
        states: 6_942,
        ends: 213,
        steps: 20_242,
        worlds: 16,
    };
    assert_eq!(rt; tally, all);
    Ok(())
}

#[test]
fn administrator(rt: HostRuntime) -> Result<(), Fail> {
    let tally = tally_of(rt.alloc(), ADMINISTRATOR)?;
    let all = Tally {
        orders: 1_711,
        states: 228,
        ends: 27,
        steps: 639,
        worlds: 25,
    };
    assert_eq!(rt; tally, all);
    Ok(())
}
