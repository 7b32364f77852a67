//! The states to which the orders of one length lead.

ghost use Rattle.std.specs.Prelude.{◌≡◌, ◌++◌, [], ◌∷◌, IfOk, IfSome, OnOk};
ghost use Rattle.std.specs.Bool.{OnTrue};
ghost use Rattle.am_explore.specs.Levels.{HasLike, node_stand};
ghost use Rattle.am_explore.specs.Orders.{stand_of};

use crate::answers;
use crate::begun::{Begun, Made};
use crate::choice::{self, Choice};
use crate::standing::Progress;
use am_job::{Act, Book, Job};
use am_machine::Answer;
use am_state::{Record, RecordRow};
use am_world::World;
use std::alloc::{AllocError, Global};

/// How many lists the states of a level are found in.
const BUCKETS: usize = 4_096;

/// A state, and an order that leads to it.
#[derive(Drop)]
pub struct Node {
    pub begun: Begun,
    pub choices: Vec<Choice>,
    pub answers: Vec<Answer>,
}

/// How many orders lead to a state, and the state of the same bucket that was found before it, by its
/// index and one; 0 for none.
#[derive(Clone, Copy)]
pub struct Slot {
    orders: u64,
    before: usize,
}

/// States, each once. Beside them stands what finds them: no clause speaks of it, since what is found is
/// compared.
#[derive(Drop)]
pub struct Level {
    pub nodes: Vec<Node>,
    slots: Vec<Slot>,
    heads: Vec<usize>,
}

/// A number of an answer that few others have.
fn mark(answer: &Answer) -> u64 {
    match answer {
        Answer::Wait { token } => token.0.into(),
        Answer::Failed { errno } => 1 + u64::from(errno.number()),
        Answer::Refused { errno } => 20 + u64::from(errno.number()),
        _ => 0,
    }
}

/// One number of two.
fn mixed(sum: u64, more: u64) -> u64 {
    sum.wrapping_mul(1_000_003).wrapping_add(more)
}

/// A number of a thread that few others have.
fn mark_of(progress: &Progress) -> u64 {
    let mut sum = progress.next() as u64;
    for heard in progress.heard() {
        sum = mixed(sum, mark(&heard.answer));
    }
    sum
}

/// A number of a job that few others have.
fn mark_of_job(job: &Job) -> u64 {
    let act = match job.next() {
        None => 0,
        Some(Act::Mkdir { .. }) => 1,
        Some(Act::Mount { .. }) => 2,
        Some(Act::Umount { .. }) => 3,
        Some(Act::Rmdir { .. }) => 4,
        Some(Act::Record { .. }) => 5,
        Some(Act::Reply { .. }) => 6,
    };
    mixed(job.job().0.into(), act)
}

/// A number of a record that few others have.
fn mark_of_record(row: &RecordRow) -> u64 {
    match row.entry {
        Record::Mounting { token } => token.0.into(),
        Record::Mounted { mount } => mount.0.wrapping_add(100),
        Record::Unmounting { token, .. } => u64::from(token.0).wrapping_add(200),
    }
}

/// A number of the daemon's book that few others have.
fn mark_of_book(book: &Book) -> u64 {
    let mut sum = 0;
    for index in 0..book.len() {
        if let Some(row) = book.row(index) {
            sum = mixed(sum, mark_of_record(&row));
        }
    }
    sum
}

/// A number of a world that few others have.
pub fn mark_of_world(world: &World) -> u64 {
    let last = world.last();
    let mut sum = mixed(last.mount.0, last.token.0.into());
    sum = mixed(sum, world.mounts().len() as u64);
    for row in world.packets() {
        sum = mixed(sum, row.token.0.into());
    }
    for row in world.walks() {
        sum = mixed(sum, row.walker.0.into());
    }
    for job in world.jobs() {
        sum = mixed(sum, mark_of_job(job));
    }
    mixed(sum, mark_of_book(world.book()))
}

/// Which list a state is found in.
fn bucket_of(begun: &Begun) -> usize {
    let mut sum = mark_of_world(begun.world());
    for progress in begun.threads() {
        sum = mixed(sum, mark_of(progress));
    }
    (sum % BUCKETS as u64) as usize
}

/// What came of a choice, with the order that led there.
pub fn child_of(
    alloc: Global,
    parent: &Node,
    choice: &Choice,
    made: Made,
) -> Result<Node, AllocError>
    ensures begun { IfOk result (λ node. node.begun ≡ made.begun) }
    ensures choices { IfOk result
        (λ node. node.choices.items ≡ parent.now.choices.items ++ choice.now ∷ []) }
    ensures answers { IfOk result
        (λ node. node.answers.items ≡ parent.now.answers.items ++ made.answer ∷ []) }
{
    let mut choices = choice::copies_of(alloc, parent.choices.as_slice())?;
    choices.push(choice.copy(alloc)?)?;
    let mut answers = answers::copies_of(alloc, parent.answers.as_slice())?;
    answers.push(made.answer)?;
    Ok(Node {
        begun: made.begun,
        choices,
        answers,
    })
}

impl Level {
    /// No state.
    pub fn new(alloc: Global) -> Result<Level, AllocError>
        ensures { IfOk result (λ level. level.nodes.items ≡ []) }
    {
        Ok(Level {
            nodes: Vec::new(alloc),
            slots: Vec::new(alloc),
            heads: vec![in alloc; 0; BUCKETS]?,
        })
    }

    /// How many orders lead to the state at this index.
    pub fn orders_at(&self, index: usize) -> u64 {
        match self.slots.get(index) {
            Some(slot) => slot.orders,
            None => 0,
        }
    }

    /// The state that was found last of a bucket, by its index and one.
    fn head_of(&self, bucket: usize) -> usize {
        match self.heads.get(bucket) {
            Some(head) => *head,
            None => 0,
        }
    }

    /// The index of a state that is like this one.
    fn index_of(&self, begun: &Begun) -> Option<usize>
        ensures { IfSome result (λ index. HasLike self.now.nodes.items (stand_of begun.now)) }
    {
        let mut next = self.head_of(bucket_of(begun));
        while next > 0 {
            let index = next - 1;
            let Some(node) = self.nodes.get(index) else {
                return None;
            };
            if node.begun.is_like(begun) {
                return Some(index);
            }
            next = self.before(index).min(index);
        }
        None
    }

    /// The state of the same bucket before that at this index.
    fn before(&self, index: usize) -> usize {
        match self.slots.get(index) {
            Some(slot) => slot.before,
            None => 0,
        }
    }

    /// Whether there is a state like this one already; so many more orders lead to it then.
    pub fn merges(&mut self, begun: &Begun, orders: u64) -> bool
        ensures nodes { self.new.nodes ≡ self.old.nodes }
        ensures like { OnTrue result (HasLike self.old.nodes.items (stand_of begun.now)) }
    {
        let Some(index) = self.index_of(begun) else {
            return false;
        };
        if index < self.slots.len() {
            let slot = self.slots[index];
            self.slots[index] = Slot {
                orders: slot.orders.saturating_add(orders),
                before: slot.before,
            };
        }
        true
    }

    /// Adds a state, to which so many orders lead.
    pub fn push(&mut self, node: Node, orders: u64) -> Result<(), AllocError>
        ensures { OnOk result (self.new.nodes.items ≡ self.old.nodes.items ++ node ∷ []) }
    {
        let bucket = bucket_of(&node.begun);
        let before = self.head_of(bucket);
        self.slots.push(Slot { orders, before })?;
        self.nodes.push(node)?;
        if bucket < self.heads.len() {
            self.heads[bucket] = self.nodes.len();
        }
        Ok(())
    }
}
