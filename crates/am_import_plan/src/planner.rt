//! A script is made event by event, and each event is tried in a world.

use crate::known::Known;
use crate::targets::{PRIVATE, Targets, Wish};
use am_group::Change;
use am_names::{AbsPath, Errno, Limits, MountId, NsId, Place};
use am_views::event_text::push_event;
use am_world::{Answer, Event, World};
use std::alloc::{AllocError, Global};
use std::collections::{BTreeMap, BTreeSet};

/// A script, and for each line, in order, the number of the mount of the script's world that is to stand for it, if one
/// is.
#[derive(Drop)]
pub struct Plan {
    pub script: Vec<u8>,
    pub seats: Vec<Option<u64>>,
}

/// What is at work.
pub(crate) struct Planner {
    pub alloc: Global,
    pub targets: Targets,
    pub world: World,
    pub known: Known,
    pub script: Vec<u8>,
    /// The peer groups of the world that stand for those of the rows.
    pub groups: BTreeMap<u64, u64>,
    pub given: BTreeSet<u64>,
    /// The namespace that was the last to have each of the rows' groups.
    pub homes: BTreeMap<u64, u32>,
    /// The file systems of the world that stand for what the rows show.
    pub shows: BTreeMap<usize, u32>,
    pub shown: BTreeSet<u32>,
}

/// The longest line of a script, without its line feed.
const LONGEST: usize = 8192;

// Written by hand, it is proved here once, and not in each function that lets one go.
impl Drop for Planner {
    fn drop(self) {
        let Planner {
            alloc: _,
            targets,
            world,
            known,
            script,
            groups,
            given,
            homes,
            shows,
            shown,
        } = self;
        drop(targets);
        drop(world);
        drop(known);
        drop(script);
        drop(groups);
        drop(given);
        drop(homes);
        drop(shows);
        drop(shown);
    }
}

/// How often all rows are gone over again, as long as something is made.
pub(crate) const PASSES: usize = 16;

/// The path of these names, if it is one.
pub(crate) fn place_of(alloc: Global, text: &[u8]) -> Result<Option<Place>, AllocError> {
    if text.is_empty() {
        return Ok(Some(Place::root(alloc)));
    }
    match AbsPath::read(text) {
        Ok(path) => Ok(Some(path.to_place(alloc)?)),
        Err(_) => Ok(None),
    }
}

impl Planner {
    /// Makes an event. None where it was refused: then nothing has changed, and it isn't in the script.
    pub fn make(&mut self, event: &Event) -> Result<Option<Answer>, AllocError> {
        let before = self.script.len();
        push_event(&mut self.script, event)?;
        if self.script.len() > before.saturating_add(LONGEST) {
            self.script.truncate(before);
            return Ok(None);
        }
        self.script.push(b'\n')?;
        let answer = self.world.step(self.alloc, event);
        match &answer {
            Answer::Refused {
                errno: Errno::NoMemory,
            } => return Err(AllocError),
            Answer::Refused { .. } => {
                self.script.truncate(before);
                return Ok(None);
            }
            Answer::Gone { mounts } => self.known.forget(mounts)?,
            _ => (),
        }
        self.known.learn(&self.world)?;
        Ok(Some(answer))
    }

    /// Changes the state of the mount to which a path leads.
    pub fn change(&mut self, ns: u32, path: &[u8], change: Change) -> Result<bool, AllocError> {
        let Some(path) = place_of(self.alloc, path)? else {
            return Ok(false);
        };
        let made = self.make(&Event::Change {
            ns: NsId(ns),
            path,
            change,
        })?;
        Ok(made.is_some())
    }

    /// Mounts a new file system, and tells its mount.
    pub fn mount(&mut self, ns: u32, path: &[u8]) -> Result<Option<u64>, AllocError> {
        let Some(path) = place_of(self.alloc, path)? else {
            return Ok(None);
        };
        match self.make(&Event::Mount { ns: NsId(ns), path })? {
            Some(answer) => Ok(mount_in(&answer)),
            None => Ok(None),
        }
    }

    /// Binds one mount to another place, and tells the new one.
    pub fn bind(&mut self, ns: u32, from: &[u8], to: &[u8]) -> Result<Option<u64>, AllocError> {
        let Some(from) = place_of(self.alloc, from)? else {
            return Ok(None);
        };
        let Some(to) = place_of(self.alloc, to)? else {
            return Ok(None);
        };
        let bind = Event::Bind {
            ns: NsId(ns),
            from,
            to,
        };
        match self.make(&bind)? {
            Some(answer) => Ok(mount_in(&answer)),
            None => Ok(None),
        }
    }

    pub fn umount(&mut self, ns: u32, path: &[u8]) -> Result<bool, AllocError> {
        let Some(path) = place_of(self.alloc, path)? else {
            return Ok(false);
        };
        let made = self.make(&Event::Umount { ns: NsId(ns), path })?;
        Ok(made.is_some())
    }

    /// How a mount of the world takes part in propagation.
    pub fn state(&self, mount: u64) -> Wish {
        let Some(member) = self.world.member(MountId(mount)) else {
            return PRIVATE;
        };
        let master = match member.group() {
            Some(group) => self.world.master_of_group(group),
            None => member.master(),
        };
        Wish {
            group: member.group().map(|group| group.0),
            master: master.map(|group| group.0),
            is_unbindable: member.is_unbindable(),
        }
    }

    /// The namespace and the path of a mount, if the path leads to it.
    pub fn site(&self, mount: u64) -> Result<Option<Site>, AllocError> {
        if !self.known.is_reached(mount)? {
            return Ok(None);
        }
        let Some(seen) = self.known.mount(mount) else {
            return Ok(None);
        };
        Ok(Some(Site {
            ns: seen.ns,
            path: Vec::from_slice(self.alloc, seen.path.as_slice())?,
        }))
    }

    /// The mount that stands for a row.
    pub fn seat_of(&self, row: usize) -> Option<u64> {
        self.targets.rows.get(row)?.seat
    }

    /// How a row is to take part in propagation.
    pub fn wish_of(&self, row: usize) -> Wish {
        match self.targets.rows.get(row) {
            Some(target) => target.wish,
            None => PRIVATE,
        }
    }
}

/// Where a mount is reached.
#[derive(Drop)]
pub(crate) struct Site {
    pub ns: u32,
    pub path: Vec<u8>,
}

/// The mount that an event has made, if it was to make one.
fn mount_in(answer: &Answer) -> Option<u64> {
    match answer {
        Answer::Mount { mount } => Some(mount.0),
        _ => None,
    }
}
