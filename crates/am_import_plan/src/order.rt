//! The order in which rows are built.

ghost use Rattle.std.specs.Prelude.{◌≡◌, length, IfOk};

use crate::head::head_text;
use crate::known::Known;
use crate::planner::{PASSES, Plan, Planner};
use crate::targets::{PRIVATE, Stage, Targets};
use am_mount_lines::MountLine;
use am_script::visit::{Input, open_script};
use am_script::{ScriptFault, ScriptFaultKind};
use std::alloc::{AllocError, Global};
use std::collections::{BTreeMap, BTreeSet};

/// The longest head that is opened.
const LONGEST: usize = 1 << 61;

/// Makes a script for these lines, one namespace behind the other; its world isn't looked at again, and where the head
/// opens none the script is one without events.
pub fn plan(alloc: Global, lines: &[MountLine]) -> Result<Plan, AllocError>
    ensures { IfOk result (λ plan. length plan.seats.items ≡ length lines.now) }
{
    let targets = Targets::of(alloc, lines)?;
    let script = head_text(alloc, lines, &targets)?;
    let Some(mut planner) = begun(alloc, targets, script)? else {
        return nothing(alloc, lines);
    };
    planner.build()?;
    planner.planned(lines)
}

/// The plan of a script that isn't begun.
fn nothing(alloc: Global, lines: &[MountLine]) -> Result<Plan, AllocError>
    ensures { IfOk result (λ plan. length plan.seats.items ≡ length lines.now) }
{
    let mut seats = Vec::with_capacity(alloc, lines.len())?;
    for _row in 0..lines.len() {
        seats.push(None)?;
    }
    Ok(Plan {
        script: Vec::from_slice(alloc, b"events\n")?,
        seats,
    })
}

/// There is no world for want of memory, or as the head opens none.
fn without_world(fault: ScriptFault) -> Result<Option<Planner>, AllocError> {
    match fault.kind {
        ScriptFaultKind::NoMemory => Err(AllocError),
        _ => Ok(None),
    }
}

/// The world that a head opens, and nothing made in it. None where the head opens none.
fn begun(alloc: Global, targets: Targets, script: Vec<u8>) -> Result<Option<Planner>, AllocError> {
    if script.len() > LONGEST {
        return Ok(None);
    }
    let input = Input {
        text: script,
        broke: None,
    };
    let world = match open_script(alloc, &input) {
        Ok(Some(opened)) => opened.world,
        Ok(None) => return Ok(None),
        Err(fault) => return without_world(fault),
    };
    let Input { text, broke: _ } = input;
    let mut known = Known::new(alloc);
    known.learn(&world)?;
    Ok(Some(Planner {
        alloc,
        targets,
        world,
        known,
        script: text,
        groups: BTreeMap::new(alloc),
        given: BTreeSet::new(alloc),
        homes: BTreeMap::new(alloc),
        shows: BTreeMap::new(alloc),
        shown: BTreeSet::new(alloc),
    }))
}

impl Planner {
    /// Builds all namespaces: the first one's mounts while they are private, their states, the namespaces without an
    /// autofs, then what is of the daemon, and then the others, which are copied with it.
    fn build(&mut self) -> Result<(), AllocError> {
        let Some(first) = self.targets.spaces.first() else {
            return Ok(());
        };
        let root = first.root;
        self.take(root, 1)?;
        self.tell_ns(0, 0);
        self.build_private()?;
        for stage in [Stage::Plain, Stage::Traps, Stage::Served] {
            self.finish(0, stage)?;
            self.tell_homes(0)?;
            for space in 1..self.targets.spaces.len() {
                if self.stage_of(space) == Some(stage) {
                    self.copy_space(space)?;
                }
            }
        }
        Ok(())
    }

    fn stage_of(&self, space: usize) -> Option<Stage> {
        Some(self.targets.spaces.get(space)?.stage)
    }

    /// The number of a namespace in the world.
    pub fn ns_of(&self, space: usize) -> Option<u32> {
        self.targets.spaces.get(space)?.ns
    }

    pub fn tell_ns(&mut self, space: usize, ns: u32) {
        if let Some(space) = self.targets.spaces.get_mut(space) {
            space.ns = Some(ns);
        }
    }

    /// How many rows a namespace has.
    pub fn size_of(&self, space: usize) -> usize {
        match self.targets.spaces.get(space) {
            Some(space) => space.rows.len(),
            None => 0,
        }
    }

    /// A row of a namespace.
    pub fn row_in(&self, space: usize, place: usize) -> Option<usize> {
        self.targets.spaces.get(space)?.rows.get(place).copied()
    }

    /// Whether a row of the first namespace can be built while its parent is private: nobody in the namespace is to
    /// receive from that, and it is the first of its peer group.
    fn is_early(&self, row: usize) -> bool {
        let Some(target) = self.targets.rows.get(row) else {
            return false;
        };
        if target.is_in_trap || target.wish.master.is_some() || !self.is_open(row) {
            return false;
        }
        let is_first = match target.wish.group {
            None => true,
            Some(group) => self.targets.early.get(&group).copied() == Some(row),
        };
        let Some(parent) = target.parent else {
            return false;
        };
        match self.wish_of(parent).group {
            None => is_first,
            Some(group) => is_first && !self.targets.crowded.contains(&group),
        }
    }

    fn build_private(&mut self) -> Result<(), AllocError> {
        for _pass in 0..PASSES {
            let mut is_made = false;
            for place in 0..self.size_of(0) {
                if let Some(row) = self.row_in(0, place) {
                    if self.is_early(row) {
                        is_made = self.create(row, PRIVATE, 0)? || is_made;
                    }
                }
            }
            if !is_made {
                return Ok(());
            }
        }
        Ok(())
    }

    /// Changes the states of what is there, and makes what isn't, in turn, as long as something is made; what is of
    /// the daemon only from its stage on.
    pub fn finish(&mut self, space: usize, stage: Stage) -> Result<(), AllocError> {
        for _pass in 0..PASSES {
            let mut is_made = false;
            for place in 0..self.size_of(space) {
                if let Some(row) = self.row_in(space, place) {
                    is_made = self.settle(row)? || is_made;
                }
            }
            for place in 0..self.size_of(space) {
                if let Some(row) = self.row_in(space, place) {
                    is_made = self.build_row(space, row, stage)? || is_made;
                }
            }
            if !is_made {
                return Ok(());
            }
        }
        Ok(())
    }

    fn build_row(&mut self, space: usize, row: usize, stage: Stage) -> Result<bool, AllocError> {
        if !self.is_open(row) {
            return Ok(false);
        }
        let Some(ns) = self.ns_of(space) else {
            return Ok(false);
        };
        let Some(target) = self.targets.rows.get(row) else {
            return Ok(false);
        };
        // A bind of an autofs comes in its turn among what the daemon has mounted.
        let is_late = target.trap.is_some() && target.shows != row && stage != Stage::Served;
        if is_late || !target.is_due(stage) {
            return Ok(false);
        }
        if space == 0 && target.trap.is_some() && target.shows == row {
            return self.attach(row);
        }
        if space == 0 && self.is_on_trap(row) {
            return self.serve(row);
        }
        self.create(row, self.wish_of(row), ns)
    }

    /// What was planned for these lines.
    fn planned(&self, lines: &[MountLine]) -> Result<Plan, AllocError>
        ensures { IfOk result (λ plan. length plan.seats.items ≡ length lines.now) }
    {
        let mut seats = Vec::with_capacity(self.alloc, lines.len())?;
        for row in 0..lines.len() {
            seats.push(self.seat_of(row))?;
        }
        Ok(Plan {
            script: Vec::from_slice(self.alloc, self.script.as_slice())?,
            seats,
        })
    }
}
