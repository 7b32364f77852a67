//! A search in parts: the orders behind each first choice are all orders.

use crate::tests::counts::UNMET;
use crate::tests::scenes::{THREE_WALKERS, stage};
use am_explore::{Begun, Choice, Led, Scene, Unwatched, begin, choices, explore_from, lead, make};
use am_names::Errno;
use std::alloc::Global;
use std::test::Fail;

/// How many orders there are from here.
fn orders_from(alloc: Global, scene: &Scene, begun: &Begun) -> Result<u64, Errno> {
    let seen = explore_from(alloc, scene, begun, &UNMET, u64::MAX, &mut Unwatched)?;
    Ok(seen.tally.orders)
}

/// How many begin with a choice.
fn orders_behind(
    alloc: Global,
    scene: &Scene,
    begun: &Begun,
    choice: &Choice,
) -> Result<u64, Errno> {
    match make(alloc, scene, begun, choice)? {
        Some(made) => orders_from(alloc, scene, &made.begun),
        None => Ok(0),
    }
}

/// How many there are, by their first choices.
fn orders_by_first(alloc: Global, scene: &Scene, begun: &Begun) -> Result<u64, Errno> {
    let first = choices(alloc, scene, begun)?;
    let mut sum = 0u64;
    for choice in &first {
        sum = sum.saturating_add(orders_behind(alloc, scene, begun, choice)?);
    }
    Ok(sum)
}

/// How many begin with a choice, by their second ones.
fn orders_behind_two(
    alloc: Global,
    scene: &Scene,
    begun: &Begun,
    choice: &Choice,
) -> Result<u64, Errno> {
    match make(alloc, scene, begun, choice)? {
        Some(made) => orders_by_first(alloc, scene, &made.begun),
        None => Ok(0),
    }
}

/// How many there are, by their first two choices.
fn orders_by_two(alloc: Global, scene: &Scene, begun: &Begun) -> Result<u64, Errno> {
    let first = choices(alloc, scene, begun)?;
    let mut sum = 0u64;
    for choice in &first {
        sum = sum.saturating_add(orders_behind_two(alloc, scene, begun, choice)?);
    }
    Ok(sum)
}

/// How many the plan of three walkers has, by its first choices.
fn by_first(alloc: Global) -> Result<u64, Errno> {
    let staged = stage(alloc, THREE_WALKERS)?;
    let begun = begin(alloc, &staged.world, &staged.scene)?;
    orders_by_first(alloc, &staged.scene, &begun)
}

/// The same by its first two choices.
fn by_two(alloc: Global) -> Result<u64, Errno> {
    let staged = stage(alloc, THREE_WALKERS)?;
    let begun = begin(alloc, &staged.world, &staged.scene)?;
    orders_by_two(alloc, &staged.scene, &begun)
}

#[test]
fn parts_by_the_first_choice_are_the_whole(rt: HostRuntime) -> Result<(), Fail> {
    let sum = by_first(rt.alloc())?;
    assert_eq!(rt; sum, 11_070);
    Ok(())
}

#[test]
fn parts_by_two_choices_are_the_whole(rt: HostRuntime) -> Result<(), Fail> {
    let sum = by_two(rt.alloc())?;
    assert_eq!(rt; sum, 11_070);
    Ok(())
}

/// How many orders begin with the choices of these numbers; none where that leads nowhere.
fn orders_led(alloc: Global, numbers: &[u32]) -> Result<Option<u64>, Errno> {
    let staged = stage(alloc, THREE_WALKERS)?;
    let begun = begin(alloc, &staged.world, &staged.scene)?;
    match lead(alloc, &staged.scene, &begun, numbers)? {
        Led::Here { begun, .. } => Ok(Some(orders_from(alloc, &staged.scene, &begun)?)),
        Led::NoStep => Ok(Some(0)),
        Led::NoChoice { .. } => Ok(None),
    }
}

#[test]
fn numbers_lead_to_parts(rt: HostRuntime) -> Result<(), Fail> {
    let mut sum = 0u64;
    for number in 1..4 {
        sum = sum.saturating_add(orders_led(rt.alloc(), &[number])?.unwrap_or(0));
    }
    let whole = orders_led(rt.alloc(), &[])?;
    let missing = orders_led(rt.alloc(), &[4])?;
    let behind = orders_led(rt.alloc(), &[1, 9])?;
    let no_number = orders_led(rt.alloc(), &[0])?;
    assert_eq!(rt; sum, 11_070);
    assert_eq!(rt; whole, Some(11_070));
    assert_eq!(rt; missing, None);
    assert_eq!(rt; behind, None);
    assert_eq!(rt; no_number, None);
    Ok(())
}
