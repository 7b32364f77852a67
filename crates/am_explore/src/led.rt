//! Where the first choices of an order lead.

ghost use Rattle.std.specs.Prelude.{◌≡◌, ◌++◌, [], ◌∷◌, option_copied, IfOk, OnOk};
ghost use Rattle.am_explore.specs.Leads.{IsAlong, IsLed, IsWent, numbered};
ghost use Rattle.am_explore.specs.Orders.{stand_of};

use crate::begun::{Begun, Made, choices, make};
use crate::choice::Choice;
use crate::scene::Scene;
use am_machine::Answer;
use std::alloc::{AllocError, Global};

/// Where first choices lead, which are named by their numbers among those that may come next, from 1.
#[derive(Drop)]
pub enum Led {
    /// They are an order, which leads here.
    Here {
        begun: Begun,
        choices: Vec<Choice>,
        answers: Vec<Answer>,
    },
    /// One of them is no step: no order begins so.
    NoStep,
    /// There are fewer choices than the number at this index, from 0, asks for.
    NoChoice {
        at: usize,
    },
}

/// An order, as far as it is led, and where it leads.
#[derive(Drop)]
pub struct Way {
    begun: Begun,
    choices: Vec<Choice>,
    answers: Vec<Answer>,
}

/// What came of one number.
#[derive(Clone, Copy)]
pub enum Went {
    On,
    NoStep,
    NoChoice,
}

/// What came of all numbers.
#[derive(Clone, Copy)]
pub enum Along {
    Whole,
    NoStep,
    NoChoice { at: usize },
}

/// The choice of this number, from 1.
fn numbered(choices: &[Choice], number: u32) -> Option<&Choice>
    ensures { option_copied result ≡ numbered number choices.now }
{
    if number == 0 {
        return None;
    }
    choices.get(number as usize - 1)
}

impl Way {
    /// The way goes on by a choice that was made.
    fn push(&mut self, alloc: Global, choice: &Choice, made: Made) -> Result<(), AllocError>
        ensures begun { OnOk result (self.new.begun ≡ made.begun) }
        ensures choices { OnOk result
            (self.new.choices.items ≡ self.old.choices.items ++ choice.now ∷ []) }
        ensures answers { OnOk result
            (self.new.answers.items ≡ self.old.answers.items ++ made.answer ∷ []) }
    {
        self.choices.push(choice.copy(alloc)?)?;
        self.answers.push(made.answer)?;
        self.begun = made.begun;
        Ok(())
    }

    /// The choice of this number is made, if there is one and it is a step.
    fn go(&mut self, alloc: Global, scene: &Scene, number: u32) -> Result<Went, AllocError>
        ensures { IfOk result (IsWent scene.now number self.old self.new) }
    {
        let choices = choices(alloc, scene, &self.begun)?;
        let Some(choice) = numbered(choices.as_slice(), number) else {
            return Ok(Went::NoChoice);
        };
        match make(alloc, scene, &self.begun, choice)? {
            Some(made) => {
                self.push(alloc, choice, made)?;
                Ok(Went::On)
            }
            None => Ok(Went::NoStep),
        }
    }
}

/// The way begins here, and goes along these numbers as far as they are steps.
fn go_along(
    alloc: Global,
    scene: &Scene,
    way: &mut Way,
    numbers: &[u32],
) -> Result<Along, AllocError>
    requires choices { way.old.choices.items ≡ [] }
    requires answers { way.old.answers.items ≡ [] }
    ensures { IfOk result
        (IsAlong scene.now (stand_of way.old.begun) numbers.now way.new) }
{
    for (at, number) in numbers.iter().enumerate() {
        match way.go(alloc, scene, *number)? {
            Went::On => {}
            Went::NoStep => return Ok(Along::NoStep),
            Went::NoChoice => return Ok(Along::NoChoice { at }),
        }
    }
    Ok(Along::Whole)
}

/// Where first choices lead from where a scene stands, which are named by their numbers, from 1, in the lists that
/// `choices` gives: the order that they are, and where it leads. What has begun stays as it is. Out of memory is the
/// one error.
pub fn lead(alloc: Global, scene: &Scene, start: &Begun, numbers: &[u32]) -> Result<Led, AllocError>
    ensures { IfOk result (IsLed scene.now (stand_of start.now) numbers.now) }
{
    let mut way = Way {
        begun: start.copy(alloc)?,
        choices: Vec::new(alloc),
        answers: Vec::new(alloc),
    };
    match go_along(alloc, scene, &mut way, numbers)? {
        Along::Whole => {
            let Way {
                begun,
                choices,
                answers,
            } = way;
            Ok(Led::Here {
                begun,
                choices,
                answers,
            })
        }
        Along::NoStep => Ok(Led::NoStep),
        Along::NoChoice { at } => Ok(Led::NoChoice { at }),
    }
}
