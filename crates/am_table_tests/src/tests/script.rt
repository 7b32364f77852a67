//! Examples that are played step by step.

use am_names::Errno;
use std::alloc::Global;
use std::process::Abort;

/// What the calls of an example are made on.
pub trait Stage: Drop {
    /// A call, and what it answers where it is done.
    type Call: Copy + 'static;

    /// What an example begins with.
    fn new(alloc: Global) -> Result<Self, Errno>;

    /// Makes the call. Whether it answers what it says, or the error by which it is refused.
    fn make(&mut self, alloc: Global, call: Self::Call) -> Result<bool, Errno>;
}

/// A step of an example.
#[derive(Clone, Copy)]
pub enum Step<C> {
    /// The call is done, and answers what it says.
    Does(C),
    /// The call is refused so.
    Refused(C, Errno),
}

/// What an example shows, and its steps. A function hands each out: what holds them all is costly to check
/// (CONTRIBUTING.md, "What a check costs").
pub struct Example<C: 'static>(pub &'static str, pub &'static [Step<C>]);

/// Makes a call, and once more where no memory was found.
fn make<S: Stage>(stage: &mut S, alloc: Global, call: S::Call) -> Result<bool, Errno> {
    match stage.make(alloc, call) {
        Err(Errno::NoMemory) => stage.make(alloc, call),
        made => made,
    }
}

/// Whether the step goes as it says.
fn goes<S: Stage>(stage: &mut S, alloc: Global, step: Step<S::Call>) -> bool {
    match step {
        Step::Does(call) => make(stage, alloc, call) == Ok(true),
        Step::Refused(call, errno) => make(stage, alloc, call) == Err(errno),
    }
}

/// Each step of the example that shows this goes as it says.
fn go<S: Stage>(
    rt: &impl Abort,
    alloc: Global,
    stage: &mut S,
    shows: &str,
    steps: &[Step<S::Call>],
) {
    let mut number = 0_usize;
    for step in steps {
        number = number.saturating_add(1);
        let goes = goes(stage, alloc, *step);
        assert!(rt; goes, "{shows}: step {number}");
    }
}

/// A stage, made once more where no memory was found.
fn made<S: Stage>(alloc: Global) -> Result<S, Errno> {
    match S::new(alloc) {
        Err(Errno::NoMemory) => S::new(alloc),
        made => made,
    }
}

/// The steps of the example go as they say, behind those with which it begins.
fn plays_from<S: Stage>(
    rt: &impl Abort,
    alloc: Global,
    beginning: Option<&'static [Step<S::Call>]>,
    example: Example<S::Call>,
) {
    let Example(shows, steps) = example;
    match made::<S>(alloc) {
        Ok(mut stage) => {
            if let Some(beginning) = beginning {
                go(rt, alloc, &mut stage, shows, beginning);
            }
            go(rt, alloc, &mut stage, shows, steps);
            // It goes by a call, which is cheaper to check.
            drop(stage);
        }
        Err(_) => panic!(rt; "{shows}: it doesn't begin"),
    }
}

/// The steps of the example go as they say, behind these.
pub fn plays_behind<S: Stage>(
    rt: &impl Abort,
    alloc: Global,
    beginning: &'static [Step<S::Call>],
    example: Example<S::Call>,
) {
    plays_from::<S>(rt, alloc, Some(beginning), example);
}

/// The steps of the example go as they say.
pub fn plays<S: Stage>(rt: &impl Abort, alloc: Global, example: Example<S::Call>) {
    plays_from::<S>(rt, alloc, None, example);
}
