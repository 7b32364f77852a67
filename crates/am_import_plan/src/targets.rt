//! The mounts that are to be built, as the lines of all namespaces tell them.

use crate::known::place_key;
use am_mount_lines::{MountLine, Trap};
use std::alloc::{AllocError, Global};
use std::collections::{BTreeMap, BTreeSet};

/// How a mount is to take part in propagation.
#[derive(Clone, Copy, PartialEq)]
pub(crate) struct Wish {
    pub group: Option<u64>,
    /// The master; of a shared mount that of its peer group.
    pub master: Option<u64>,
    pub is_unbindable: bool,
}

/// The wish of a private mount.
pub(crate) const PRIVATE: Wish = Wish {
    group: None,
    master: None,
    is_unbindable: false,
};

/// A mount that is to be built: a row.
#[derive(Drop)]
pub(crate) struct Target {
    /// Its namespace, counted from 0.
    pub space: usize,
    /// The row of the mount that it is mounted on; none for the root of a namespace.
    pub parent: Option<usize>,
    /// Where it is mounted on that: the names, each behind a slash.
    pub place: Vec<u8>,
    /// The first row that shows the same.
    pub shows: usize,
    pub wish: Wish,
    pub trap: Option<Trap>,
    /// It is an autofs, or below one.
    pub is_in_trap: bool,
    /// It is below one.
    pub is_on_trap: bool,
    /// It can't be said in a script.
    pub is_left: bool,
    /// The mount that stands for it.
    pub seat: Option<u64>,
    /// Whether it was tried to attach it, or to have the daemon mount it.
    pub is_asked: bool,
    /// How often its state was changed.
    pub tries: u8,
}

impl Target {
    /// The stage in which it is built.
    fn stage(&self) -> Stage {
        if !self.is_in_trap {
            return Stage::Plain;
        }
        if self.is_on_trap {
            return Stage::Served;
        }
        Stage::Traps
    }

    /// Whether it is built in this stage.
    pub fn is_due(&self, stage: Stage) -> bool {
        match (self.stage(), stage) {
            (Stage::Plain, _) => true,
            (Stage::Traps, Stage::Plain) => false,
            (Stage::Traps, _) => true,
            (Stage::Served, Stage::Served) => true,
            (Stage::Served, _) => false,
        }
    }
}

/// All of them, and what is looked up in them.
pub(crate) struct Targets {
    pub rows: Vec<Target>,
    /// The rows at each place of a row.
    pub places: BTreeMap<Vec<u8>, Vec<usize>>,
    /// The rows of each namespace, and its root.
    pub spaces: Vec<Space>,
    /// The first row of the first namespace of each peer group without a master.
    pub early: BTreeMap<u64, usize>,
    /// The peer groups from which more than one mount of the first namespace receives.
    pub crowded: BTreeSet<u64>,
}

// Written by hand, it is proved here once, and not in each function that lets one go.
impl Drop for Targets {
    fn drop(self) {
        let Targets {
            rows,
            places,
            spaces,
            early,
            crowded,
        } = self;
        drop(rows);
        drop(places);
        drop(spaces);
        drop(early);
        drop(crowded);
    }
}

/// The stages in which the first namespace is built.
#[derive(Clone, Copy, PartialEq)]
pub(crate) enum Stage {
    /// What is on no autofs.
    Plain,
    /// The autofs file systems.
    Traps,
    /// What the daemon has mounted on them, and all else.
    Served,
}

/// The stage for which a namespace with mounts of one stage and of another waits.
fn later(one: Stage, other: Stage) -> Stage {
    match (one, other) {
        (Stage::Plain, stage) => stage,
        (stage, Stage::Plain) => stage,
        (Stage::Traps, stage) => stage,
        (Stage::Served, _) => Stage::Served,
    }
}

/// A namespace that is to be built.
#[derive(Drop)]
pub(crate) struct Space {
    pub rows: Vec<usize>,
    pub root: usize,
    /// Behind which stage of the first namespace it is copied.
    pub stage: Stage,
    /// Its number in the world.
    pub ns: Option<u32>,
}

/// The bytes that end a word of a script.
fn is_said(path: &[u8]) -> bool {
    !path
        .iter()
        .any(|b| *b == b' ' || *b == b'\t' || *b == b'\n')
}

/// What is left of a path behind another one, if it is below that.
fn place_below<'a>(path: &'a [u8], parent: &[u8]) -> Option<&'a [u8]> {
    let place = path.strip_prefix(parent)?;
    if place.is_empty() || place.starts_with(b"/") {
        return Some(place);
    }
    None
}

/// For each line the first line that shows the same; the root of each namespace shows what the first root does.
fn shown(alloc: Global, lines: &[MountLine], roots: &[usize]) -> Result<Vec<usize>, AllocError> {
    let mut firsts: BTreeMap<Vec<u8>, usize> = BTreeMap::new(alloc);
    if let Some(first) = roots.first() {
        for root in roots {
            if let Some(line) = lines.get(*root) {
                firsts.insert(Vec::from_slice(alloc, line.shown.as_slice())?, *first)?;
            }
        }
    }
    let mut all = Vec::with_capacity(alloc, lines.len())?;
    for (index, line) in lines.iter().enumerate() {
        let first = match firsts.get(line.shown.as_slice()) {
            Some(first) => *first,
            None => {
                firsts.insert(Vec::from_slice(alloc, line.shown.as_slice())?, index)?;
                index
            }
        };
        all.push(first)?;
    }
    Ok(all)
}

/// The lines of one namespace by their numbers.
fn numbered(
    alloc: Global,
    lines: &[MountLine],
    rows: &[usize],
) -> Result<BTreeMap<u64, usize>, AllocError> {
    let mut numbers = BTreeMap::new(alloc);
    for row in rows {
        if let Some(line) = lines.get(*row) {
            numbers.insert(line.number, *row)?;
        }
    }
    Ok(numbers)
}

/// The line of the mount that a line's is mounted on.
fn parent_row(numbers: &BTreeMap<u64, usize>, line: &MountLine) -> Option<usize> {
    if line.parent == line.number {
        return None;
    }
    numbers.get(&line.parent).copied()
}

/// The first row that is mounted on none of the others.
fn root_of(lines: &[MountLine], numbers: &BTreeMap<u64, usize>, rows: &[usize]) -> Option<usize> {
    for row in rows {
        if let Some(line) = lines.get(*row) {
            if parent_row(numbers, line).is_none() {
                return Some(*row);
            }
        }
    }
    None
}

fn target_of(
    alloc: Global,
    lines: &[MountLine],
    numbers: &BTreeMap<u64, usize>,
    root: usize,
    row: usize,
    line: &MountLine,
) -> Result<Target, AllocError> {
    let parent = parent_row(numbers, line);
    let path = line.path.text();
    let above: &[u8] = match parent {
        Some(parent) => match lines.get(parent) {
            Some(line) => line.path.text(),
            None => b"",
        },
        None => b"",
    };
    let place = place_below(path, above);
    let is_loose = parent.is_none() && row != root;
    Ok(Target {
        space: 0,
        parent,
        place: Vec::from_slice(alloc, place.unwrap_or(b""))?,
        shows: row,
        wish: Wish {
            group: line.group,
            master: line.master,
            is_unbindable: line.is_unbindable,
        },
        trap: line.trap,
        is_in_trap: line.trap.is_some(),
        is_on_trap: false,
        is_left: is_loose || place.is_none() || !is_said(path),
        seat: None,
        is_asked: false,
        tries: 0,
    })
}

/// The namespace of a line; none behind the last.
fn space_at(lines: &[MountLine], index: usize) -> Option<u32> {
    Some(lines.get(index)?.space)
}

/// How far up what is said of a parent is passed on: more than any mountinfo is deep.
const DEEP: usize = 64;

impl Targets {
    /// Those of these lines, one namespace behind the other.
    pub fn of(alloc: Global, lines: &[MountLine]) -> Result<Targets, AllocError> {
        let mut targets = Targets {
            rows: Vec::with_capacity(alloc, lines.len())?,
            places: BTreeMap::new(alloc),
            spaces: Vec::new(alloc),
            early: BTreeMap::new(alloc),
            crowded: BTreeSet::new(alloc),
        };
        let mut begin = 0_usize;
        for end in 1..lines.len().saturating_add(1) {
            if space_at(lines, end) != space_at(lines, begin) {
                targets.add_space(alloc, lines, begin, end)?;
                begin = end;
            }
        }
        targets.pass_on();
        targets.find_stages();
        targets.tell_shown(alloc, lines)?;
        targets.find_places(alloc)?;
        targets.leave_others(alloc)?;
        targets.find_groups(alloc)?;
        Ok(targets)
    }

    fn add_space(
        &mut self,
        alloc: Global,
        lines: &[MountLine],
        begin: usize,
        end: usize,
    ) -> Result<(), AllocError> {
        let mut rows = Vec::new(alloc);
        for row in begin..end {
            rows.push(row)?;
        }
        let numbers = numbered(alloc, lines, rows.as_slice())?;
        let Some(root) = root_of(lines, &numbers, rows.as_slice()) else {
            return Ok(());
        };
        let space = self.spaces.len();
        for row in begin..end {
            if let Some(line) = lines.get(row) {
                let mut target = target_of(alloc, lines, &numbers, root, row, line)?;
                target.space = space;
                self.rows.push(target)?;
            }
        }
        self.spaces.push(Space {
            rows,
            root,
            stage: Stage::Plain,
            ns: None,
        })?;
        Ok(())
    }

    /// What is on a mount that can't be said can't be either; what is on an autofs is in it.
    fn pass_on(&mut self) {
        for _ in 0..DEEP {
            for row in 0..self.rows.len() {
                let (is_left, is_in_trap) = self.above(row);
                if let Some(target) = self.rows.get_mut(row) {
                    target.is_left = target.is_left || is_left;
                    target.is_in_trap = target.is_in_trap || is_in_trap;
                    target.is_on_trap = is_in_trap;
                }
            }
        }
    }

    /// A namespace is copied when the first one has what its mounts are of.
    fn find_stages(&mut self) {
        for target in &self.rows {
            if let Some(space) = self.spaces.get_mut(target.space) {
                space.stage = later(space.stage, target.stage());
            }
        }
    }

    fn above(&self, row: usize) -> (bool, bool) {
        let Some(target) = self.rows.get(row) else {
            return (false, false);
        };
        let Some(parent) = target.parent else {
            return (false, false);
        };
        match self.rows.get(parent) {
            Some(above) => (above.is_left, above.is_in_trap),
            None => (false, false),
        }
    }

    fn tell_shown(&mut self, alloc: Global, lines: &[MountLine]) -> Result<(), AllocError> {
        let mut roots = Vec::new(alloc);
        for space in &self.spaces {
            roots.push(space.root)?;
        }
        let all = shown(alloc, lines, roots.as_slice())?;
        for (row, first) in all.iter().enumerate() {
            if let Some(target) = self.rows.get_mut(row) {
                target.shows = *first;
            }
        }
        Ok(())
    }

    fn find_places(&mut self, alloc: Global) -> Result<(), AllocError> {
        for (row, target) in self.rows.iter().enumerate() {
            if let Some(parent) = target.parent {
                let key = place_key(alloc, parent as u64, target.place.as_slice())?;
                self.places
                    .entry(key)?
                    .or_insert_with(|| Vec::new(alloc))
                    .push(row)?;
            }
        }
        Ok(())
    }

    /// A mount receives only from mounts that show the same: other groups and masters are left out.
    fn leave_others(&mut self, alloc: Global) -> Result<(), AllocError> {
        let mut shows: BTreeMap<u64, usize> = BTreeMap::new(alloc);
        for target in &self.rows {
            if let Some(group) = target.wish.group {
                if !target.is_left && !shows.contains_key(&group) {
                    shows.insert(group, target.shows)?;
                }
            }
        }
        for target in self.rows.iter_mut() {
            target.wish.group = only_of(&shows, target.wish.group, target.shows);
            target.wish.master = only_of(&shows, target.wish.master, target.shows);
        }
        Ok(())
    }

    fn find_groups(&mut self, alloc: Global) -> Result<(), AllocError> {
        let mut once: BTreeSet<u64> = BTreeSet::new(alloc);
        for (row, target) in self.rows.iter().enumerate() {
            if target.space != 0 || target.is_left {
                continue;
            }
            if let Some(group) = target.wish.group {
                if target.wish.master.is_none() && !self.early.contains_key(&group) {
                    self.early.insert(group, row)?;
                }
                if once.contains(&group) {
                    self.crowded.insert(group)?;
                } else {
                    once.insert(group)?;
                }
            }
            if let Some(master) = target.wish.master {
                self.crowded.insert(master)?;
            }
        }
        Ok(())
    }
}

fn only_of(shows: &BTreeMap<u64, usize>, group: Option<u64>, shown: usize) -> Option<u64> {
    let group = group?;
    match shows.get(&group) {
        Some(first) if *first == shown => Some(group),
        _ => None,
    }
}

impl Targets {
    /// Whether something is mounted on the root of a row.
    pub fn has_cover(&self, alloc: Global, row: usize) -> Result<bool, AllocError> {
        let key = place_key(alloc, row as u64, b"")?;
        Ok(self.places.contains_key(key.as_slice()))
    }
}
