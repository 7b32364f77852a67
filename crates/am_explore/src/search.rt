//! The search of all orders, breadth first.

ghost use Rattle.std.specs.Prelude.{◌≡◌, ◌≤◌, [], length, IfOk, IfSome, IfNone, OnOk};
ghost use Rattle.am_world.specs.Capacity.{state_of};
ghost use Rattle.am_explore.specs.Findings.{IsFound, IsTallied, IsFull};
ghost use Rattle.am_explore.specs.Levels.{node_stand, Counts, Grows, IsVisited, IsLooked, IsLevel, IsOrderTo};
ghost use Rattle.am_explore.specs.declared.question.Question.{Question};
ghost use Rattle.am_explore.specs.declared.scene.Scene.{Scene};
ghost use Rattle.am_explore.specs.Orders.{Stand, IsIn, begun_at, choices_at, stand_of};

use crate::answers;
use crate::begun::{Begun, begin, choices, make};
use crate::choice::{self, Choice};
use crate::level::{Level, Node, child_of};
use crate::question::Question;
use crate::scene::Scene;
use crate::watch::Watch;
use crate::worlds::Worlds;
use am_machine::Answer;
use am_world::World;
use std::alloc::{AllocError, Global};
use std::mem;

/// What a search has found.
#[derive(Drop)]
pub enum Found {
    /// A shortest order that leads to an end which meets the question, with the answers to its events.
    Order {
        choices: Vec<Choice>,
        answers: Vec<Answer>,
    },
    /// No order to an end meets the question.
    Never,
    /// There were more states than the search was to look at. Of orders with fewer events than these all were seen, and
    /// none meets the question.
    Cut {
        below: usize,
    },
}

/// What a search has met until it ended: where it found an order, it ended there.
#[derive(Clone, Copy, Debug, PartialEq)]
pub struct Tally {
    /// How many orders lead to ends. From 2^64 - 1 on it stays so.
    pub orders: u64,
    /// States, the first among them, each once among those to which orders of one length lead.
    pub states: u64,
    /// Those of them from which there is no step.
    pub ends: u64,
    /// Choices that were tried, those that are no step among them.
    pub steps: u64,
    /// Worlds at these ends, each once, told apart by their halves.
    pub worlds: u64,
}

/// What came of a search.
#[derive(Drop)]
pub struct Seen {
    pub found: Found,
    pub tally: Tally,
}

/// What was seen of one choice.
pub enum Visited {
    /// It is no step.
    NoStep,
    /// It leads to a state of the next level.
    Reached,
    /// It leads to one state too many.
    Full,
}

/// What was seen of all choices of a state.
pub enum Looked {
    /// None is a step.
    End,
    /// Each step leads to a state of the next level.
    GoesOn,
    /// There was one state too many.
    Cut,
}

/// The next level, as far as it is known, and what was met.
#[derive(Drop)]
pub struct Ahead {
    next: Level,
    tally: Tally,
    most: u64,
    worlds: Worlds,
}

/// Makes one choice of a state, to which so many orders lead.
fn visit(
    alloc: Global,
    scene: &Scene,
    node: &Node,
    choice: &Choice,
    orders: u64,
    ahead: &mut Ahead,
) -> Result<Visited, AllocError>
    requires chosen { IsIn choice.now (choices_at scene.now (node_stand node.now)) }
    requires bound { ahead.old.tally.states ≤ ahead.old.most }
    ensures seen { IfOk result
        (λ visited. IsVisited scene.now (node_stand node.now) choice.now ahead.new visited) }
    ensures grows { OnOk result (Grows scene.now node.now
        ahead.old.next.nodes.items ahead.new.next.nodes.items) }
    ensures counts { OnOk result (Counts ahead.old ahead.new) }
{
    ahead.tally.steps = ahead.tally.steps.saturating_add(1);
    let Some(made) = make(alloc, scene, &node.begun, choice)? else {
        return Ok(Visited::NoStep);
    };
    if ahead.next.merges(&made.begun, orders) {
        return Ok(Visited::Reached);
    }
    if ahead.tally.states >= ahead.most {
        return Ok(Visited::Full);
    }
    ahead
        .next
        .push(child_of(alloc, node, choice, made)?, orders)?;
    ahead.tally.states += 1;
    Ok(Visited::Reached)
}

/// Makes all choices of a state, to which so many orders lead.
fn look(
    alloc: Global,
    scene: &Scene,
    node: &Node,
    orders: u64,
    ahead: &mut Ahead,
) -> Result<Looked, AllocError>
    requires { ahead.old.tally.states ≤ ahead.old.most }
    ensures seen { IfOk result
        (λ looked. IsLooked scene.now (node_stand node.now) ahead.new looked) }
    ensures grows { OnOk result (Grows scene.now node.now
        ahead.old.next.nodes.items ahead.new.next.nodes.items) }
    ensures counts { OnOk result (Counts ahead.old ahead.new) }
{
    let choices = choices(alloc, scene, &node.begun)?;
    let mut is_end = true;
    for choice in &choices {
        match visit(alloc, scene, node, choice, orders, ahead)? {
            Visited::NoStep => {}
            Visited::Reached => is_end = false,
            Visited::Full => return Ok(Looked::Cut),
        }
    }
    if is_end {
        ahead.count_end(alloc, node.begun.world(), orders)?;
        return Ok(Looked::End);
    }
    Ok(Looked::GoesOn)
}

/// The order that leads to a state.
fn order_to(alloc: Global, node: &Node) -> Result<Found, AllocError>
    ensures { IfOk result (λ found. IsOrderTo node.now found) }
{
    Ok(Found::Order {
        choices: choice::copies_of(alloc, node.choices.as_slice())?,
        answers: answers::copies_of(alloc, node.answers.as_slice())?,
    })
}

/// What is found where a search is cut at a state: all orders were seen that are shorter than the one that leads there.
fn cut_at(node: &Node) -> Found
    ensures { result ≡ Found.Cut (length node.now.choices.items) }
{
    Found::Cut {
        below: node.choices.len(),
    }
}

/// Makes all choices of all states of a level. What is found ends the search.
fn turn<P: Watch>(
    alloc: Global,
    scene: &Scene,
    question: &Question,
    level: &Level,
    ahead: &mut Ahead,
    watch: &mut P,
) -> Result<Option<Found>, AllocError>
    requires bound { ahead.old.tally.states ≤ ahead.old.most }
    requires empty { ahead.old.next.nodes.items ≡ [] }
    ensures found { IfOk result (λ came. IfSome came (λ found. (start : Stand) →
        IsLevel scene.now question.now start level.now.nodes.items →
        IsFound scene.now question.now start found)) }
    ensures full { IfOk result
        (λ came. IfSome came (λ found. IsFull ahead.new.most found ahead.new.tally)) }
    ensures goes_on { IfOk result (λ came. IfNone came ((start : Stand) →
        IsLevel scene.now question.now start level.now.nodes.items →
        IsLevel scene.now question.now start ahead.new.next.nodes.items)) }
    ensures counts { OnOk result (Counts ahead.old ahead.new) }
{
    for (index, node) in level.nodes.iter().enumerate() {
        let orders = level.orders_at(index);
        watch.saw(&ahead.tally);
        match look(alloc, scene, node, orders, ahead)? {
            Looked::Cut => return Ok(Some(cut_at(node))),
            Looked::GoesOn => {}
            Looked::End => {
                let met = node.begun.meets(alloc, scene, question)?;
                if met {
                    return Ok(Some(order_to(alloc, node)?));
                }
            }
        }
    }
    Ok(None)
}

impl Ahead {
    /// One more end, with this world, to which so many orders lead.
    fn count_end(&mut self, alloc: Global, world: &World, orders: u64) -> Result<(), AllocError>
        ensures states { self.new.tally.states ≡ self.old.tally.states }
        ensures next { self.new.next ≡ self.old.next }
        ensures most { self.new.most ≡ self.old.most }
    {
        self.worlds.add(alloc, world)?;
        self.tally.ends = self.tally.ends.saturating_add(1);
        self.tally.orders = self.tally.orders.saturating_add(orders);
        self.tally.worlds = self.worlds.count();
        Ok(())
    }
}

/// A search: a level, and what lies ahead of it.
#[derive(Drop)]
struct Search {
    level: Level,
    ahead: Ahead,
}

impl Search {
    /// Goes on with the next level.
    fn descend(&mut self, alloc: Global) -> Result<(), AllocError>
        ensures level { OnOk result
            (self.new.level.nodes.items ≡ self.old.ahead.next.nodes.items) }
        ensures empty { OnOk result (self.new.ahead.next.nodes.items ≡ []) }
        ensures tally { OnOk result (self.new.ahead.tally ≡ self.old.ahead.tally) }
        ensures most { OnOk result (self.new.ahead.most ≡ self.old.ahead.most) }
    {
        let empty = Level::new(alloc)?;
        self.level = mem::replace(&mut self.ahead.next, empty);
        Ok(())
    }

    /// Goes down level by level, until something is found or no state is left.
    fn run<P: Watch>(
        &mut self,
        alloc: Global,
        scene: &Scene,
        question: &Question,
        watch: &mut P,
    ) -> Result<Found, AllocError>
        requires bound { self.old.ahead.tally.states ≤ self.old.ahead.most }
        requires empty { self.old.ahead.next.nodes.items ≡ [] }
        ensures found { IfOk result (λ found. (start : Stand) →
            IsLevel scene.now question.now start self.old.level.nodes.items →
            IsFound scene.now question.now start found) }
        ensures most { OnOk result (self.new.ahead.most ≡ self.old.ahead.most) }
        ensures tally { IfOk result
            (λ found. IsTallied self.new.ahead.most found self.new.ahead.tally) }
    {
        loop {
            if let Some(found) = turn(
                alloc,
                scene,
                question,
                &self.level,
                &mut self.ahead,
                watch,
            )? {
                return Ok(found);
            }
            if self.ahead.next.nodes.is_empty() {
                return Ok(Found::Never);
            }
            self.descend(alloc)?;
        }
    }
}

/// The first state, to which one order leads, that of no event.
fn first_node(alloc: Global, start: &Begun) -> Result<Node, AllocError>
    ensures begun { IfOk result (λ node. node_stand node ≡ stand_of start.now) }
    ensures choices { IfOk result (λ node. node.choices.items ≡ []) }
    ensures answers { IfOk result (λ node. node.answers.items ≡ []) }
{
    Ok(Node {
        begun: start.copy(alloc)?,
        choices: Vec::new(alloc),
        answers: Vec::new(alloc),
    })
}

/// A search that begins here.
fn search_of(alloc: Global, start: &Begun, most: u64) -> Result<Search, AllocError>
    ensures level { IfOk result (λ search. (scene : Scene) (question : Question) →
        IsLevel scene question (stand_of start.now) search.level.nodes.items) }
    ensures empty { IfOk result (λ search. search.ahead.next.nodes.items ≡ []) }
    ensures tally { IfOk result (λ search. search.ahead.tally.states ≡ 1) }
    ensures most { IfOk result (λ search. search.ahead.most ≡ most) }
{
    let mut level = Level::new(alloc)?;
    level.push(first_node(alloc, start)?, 1)?;
    let next = Level::new(alloc)?;
    let tally = Tally {
        orders: 0,
        states: 1,
        ends: 0,
        steps: 0,
        worlds: 0,
    };
    let worlds = Worlds::new(alloc)?;
    Ok(Search {
        level,
        ahead: Ahead {
            next,
            tally,
            most,
            worlds,
        },
    })
}

/// Explores all orders from where a scene stands that has begun, as from where the first choices of an
/// order lead: a shortest order to an end that meets the question is found, or that there is none. No
/// more than so many states are looked at. Of all orders of one length, those that lead to the same
/// state, but for what was observed, and with the same answers to each thread, are followed as one. Who
/// watches is told before each state how far it is. Out of memory is the one error.
pub fn explore_from<P: Watch>(
    alloc: Global,
    scene: &Scene,
    start: &Begun,
    question: &Question,
    most: u64,
    watch: &mut P,
) -> Result<Seen, AllocError>
    ensures found { IfOk result
        (λ seen. IsFound scene.now question.now (stand_of start.now) seen.found) }
    ensures tally { IfOk result (λ seen. IsTallied most seen.found seen.tally) }
{
    if most == 0 {
        return Ok(nothing_seen());
    }
    let mut search = search_of(alloc, start, most)?;
    let found = search.run(alloc, scene, question, watch)?;
    Ok(Seen {
        found,
        tally: search.ahead.tally,
    })
}

/// What is seen where no state is to be looked at.
fn nothing_seen() -> Seen
    ensures { result ≡ (record {
      found = Found.Cut 0;
      tally = record {
        orders = 0;
        states = 0;
        ends = 0;
        steps = 0;
        worlds = 0;
      };
    }) }
{
    Seen {
        found: Found::Cut { below: 0 },
        tally: Tally {
            orders: 0,
            states: 0,
            ends: 0,
            steps: 0,
            worlds: 0,
        },
    }
}

/// Explores all orders of a scene that begins in this world, as `explore_from` does.
pub fn explore<P: Watch>(
    alloc: Global,
    world: &World,
    scene: &Scene,
    question: &Question,
    most: u64,
    watch: &mut P,
) -> Result<Seen, AllocError>
    ensures found { IfOk result (λ seen. IsFound scene.now question.now
        (begun_at scene.now (state_of world.now)) seen.found) }
    ensures tally { IfOk result (λ seen. IsTallied most seen.found seen.tally) }
{
    let start = begin(alloc, world, scene)?;
    explore_from(alloc, scene, &start, question, most, watch)
}
