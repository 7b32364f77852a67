//! What can be in some order, and what can't be in any.

use crate::tests::counts::UNMET;
use crate::tests::scenes::{
    ADMINISTRATOR, EXPIRY, ONE_WALKER, Plan, Staged, TWO_NAMESPACES, stage,
};
use am_explore::{Choice, Found, Question, Sought, Unwatched, explore};
use am_names::Errno;
use am_world::{Answer, World};
use std::alloc::Global;
use std::test::Fail;

/// Whether the events of an order have these answers, one after another.
fn replays(alloc: Global, world: &mut World, choices: &[Choice], answers: &[Answer]) -> bool {
    if choices.len() != answers.len() {
        return false;
    }
    for (choice, answer) in choices.iter().zip(answers) {
        let told = world.answer(alloc, &choice.event);
        if !told.is_same(answer) {
            return false;
        }
    }
    true
}

/// How many events what was found has, if it is an order. It is made once more.
fn events_of(alloc: Global, world: &mut World, found: &Found) -> Result<Option<usize>, Errno> {
    match found {
        Found::Order { choices, answers } => {
            if replays(alloc, world, choices.as_slice(), answers.as_slice()) {
                Ok(Some(choices.len()))
            } else {
                Err(Errno::EINVAL)
            }
        }
        Found::Never => Ok(None),
        Found::Cut { .. } => Err(Errno::ENOSPC),
    }
}

/// How many events a shortest order of a plan has that meets the question, if one does.
pub fn shortest(alloc: Global, plan: Plan, question: &Question) -> Result<Option<usize>, Errno> {
    let mut staged = stage(alloc, plan)?;
    let seen = explore(
        alloc,
        &staged.world,
        &staged.scene,
        question,
        u64::MAX,
        &mut Unwatched,
    )?;
    events_of(alloc, &mut staged.world, &seen.found)
}

/// That an event of a thread, both by their indexes, has such an answer.
fn answered(thread: usize, event: usize, sought: Sought) -> Question {
    Question::Answered {
        thread,
        event,
        sought,
    }
}

#[test]
fn the_expiry_comes_to_its_end_in_some_order(rt: HostRuntime) -> Result<(), Fail> {
    let expired = Sought::Exactly {
        answer: Answer::Expired,
    };
    let events = shortest(rt.alloc(), EXPIRY, &answered(1, 1, expired))?;
    assert!(rt; events.is_some());
    Ok(())
}

#[test]
fn there_is_nothing_to_expire_in_some_order(rt: HostRuntime) -> Result<(), Fail> {
    let events = shortest(rt.alloc(), EXPIRY, &answered(1, 0, Sought::AnyRefused))?;
    assert!(rt; events.is_some());
    Ok(())
}

#[test]
fn no_order_leaves_the_walker_beside_an_expiry_waiting(rt: HostRuntime) -> Result<(), Fail> {
    let events = shortest(rt.alloc(), EXPIRY, &Question::Waiting { thread: 2 })?;
    assert_eq!(rt; events, None);
    Ok(())
}

#[test]
fn the_walker_in_the_copy_arrives_in_some_order(rt: HostRuntime) -> Result<(), Fail> {
    let events = shortest(rt.alloc(), TWO_NAMESPACES, &answered(0, 1, Sought::AnyAt))?;
    assert!(rt; events.is_some());
    Ok(())
}

#[test]
fn no_order_refuses_the_first_walker(rt: HostRuntime) -> Result<(), Fail> {
    let events = shortest(
        rt.alloc(),
        TWO_NAMESPACES,
        &answered(1, 0, Sought::AnyRefused),
    )?;
    assert_eq!(rt; events, None);
    Ok(())
}

#[test]
fn no_order_leaves_the_walker_in_the_copy_waiting(rt: HostRuntime) -> Result<(), Fail> {
    let events = shortest(rt.alloc(), TWO_NAMESPACES, &Question::Waiting { thread: 0 })?;
    assert_eq!(rt; events, None);
    Ok(())
}

#[test]
fn a_death_behind_a_reattachment_leaves_the_walker_waiting(rt: HostRuntime) -> Result<(), Fail> {
    let events = shortest(rt.alloc(), ADMINISTRATOR, &Question::Waiting { thread: 0 })?;
    assert_eq!(rt; events, Some(4));
    Ok(())
}

#[test]
fn a_walk_fails_in_some_order(rt: HostRuntime) -> Result<(), Fail> {
    let events = shortest(
        rt.alloc(),
        ADMINISTRATOR,
        &answered(0, 1, Sought::AnyFailed),
    )?;
    assert!(rt; events.is_some());
    Ok(())
}

/// How many states a search meets that looks at so many, where it was cut.
fn cut_at(alloc: Global, staged: &Staged, most: u64) -> Result<Option<u64>, Errno> {
    let seen = explore(
        alloc,
        &staged.world,
        &staged.scene,
        &UNMET,
        most,
        &mut Unwatched,
    )?;
    match &seen.found {
        Found::Cut { .. } => Ok(Some(seen.tally.states)),
        Found::Order { .. } | Found::Never => Ok(None),
    }
}

#[test]
fn a_search_is_cut_behind_so_many_states(rt: HostRuntime) -> Result<(), Fail> {
    let staged = stage(rt.alloc(), TWO_NAMESPACES)?;
    let none = cut_at(rt.alloc(), &staged, 0)?;
    let cut = cut_at(rt.alloc(), &staged, 58)?;
    let whole = cut_at(rt.alloc(), &staged, 59)?;
    assert_eq!(rt; none, Some(0));
    assert_eq!(rt; cut, Some(58));
    assert_eq!(rt; whole, None);
    Ok(())
}

/// How many events a shortest order of one walker has at whose end he has arrived.
fn arrival(alloc: Global) -> Result<Option<usize>, Errno> {
    let staged = stage(alloc, ONE_WALKER)?;
    let question = answered(0, 1, Sought::AnyAt);
    let seen = explore(
        alloc,
        &staged.world,
        &staged.scene,
        &question,
        u64::MAX,
        &mut Unwatched,
    )?;
    match &seen.found {
        Found::Order { choices, .. } => Ok(Some(choices.len())),
        Found::Never | Found::Cut { .. } => Ok(None),
    }
}

/// Where an allocation is refused, by `tools/refuse_each.sh`, a search is out of memory, and tells nothing else.
#[test]
fn out_of_memory_is_all_that_is_told(rt: HostRuntime) -> Result<(), Fail> {
    match arrival(rt.alloc()) {
        Ok(events) => assert!(rt; events.is_some(), "he arrives"),
        Err(errno) => assert_eq!(rt; errno, Errno::NoMemory),
    }
    Ok(())
}
