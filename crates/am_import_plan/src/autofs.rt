//! What is of the daemon: autofs file systems, and what is mounted on their triggers.

use crate::planner::{Planner, place_of};
use am_names::{JobId, NsId, PipeState, Seconds, Token, WalkerId};
use am_world::{Answer, Event};
use std::alloc::AllocError;

/// Who walks, so that the daemon is notified.
const WALKER: WalkerId = WalkerId(1);

/// The most acts that a job has.
const ACTS: usize = 8;

/// The mount of the autofs that was attached.
fn attached_by(answer: &Answer) -> Option<u64> {
    match answer {
        Answer::Attached { mount, .. } => Some(mount.0),
        _ => None,
    }
}

/// The token on which a walk waits.
fn waits_on(answer: &Answer) -> Option<Token> {
    match answer {
        Answer::Wait { token } => Some(*token),
        _ => None,
    }
}

/// The mount that an act has made, if it was that.
fn mounted_by(answer: &Answer) -> Option<u64> {
    match answer {
        Answer::DidMount { mount } => Some(mount.0),
        _ => None,
    }
}

impl Planner {
    /// Whether a row is mounted on an autofs where the daemon mounts.
    pub fn is_on_trap(&self, row: usize) -> bool {
        let Some(target) = self.targets.rows.get(row) else {
            return false;
        };
        let Some(parent) = target.parent else {
            return false;
        };
        match self.targets.rows.get(parent) {
            Some(above) => above.trap.is_some() && above.shows == parent,
            None => false,
        }
    }

    /// Whether it wasn't asked for before.
    fn ask(&mut self, row: usize) -> bool {
        let Some(target) = self.targets.rows.get_mut(row) else {
            return false;
        };
        let was_asked = target.is_asked;
        target.is_asked = true;
        !was_asked
    }

    /// Attaches the autofs of a row.
    pub fn attach(&mut self, row: usize) -> Result<bool, AllocError> {
        if !self.ask(row) {
            return Ok(false);
        }
        let Some(path) = self.path_for(row)? else {
            return Ok(false);
        };
        let Some(path) = place_of(self.alloc, path.as_slice())? else {
            return Ok(false);
        };
        let before = self.known.count();
        let Some(answer) = self.make(&Event::Attach { path })? else {
            return Ok(false);
        };
        let Some(mount) = attached_by(&answer) else {
            return Ok(false);
        };
        self.take(row, mount)?;
        self.take_new(self.wish_of(row), mount, before)?;
        Ok(true)
    }

    /// Has the daemon mount what a row is on its trigger, by a walk there.
    pub fn serve(&mut self, row: usize) -> Result<bool, AllocError> {
        if !self.ask(row) {
            return Ok(false);
        }
        let Some(path) = self.path_for(row)? else {
            return Ok(false);
        };
        let Some(path) = place_of(self.alloc, path.as_slice())? else {
            return Ok(false);
        };
        let before = self.known.count();
        let walk = Event::Walk {
            walker: WALKER,
            ns: NsId(0),
            path,
            now: Seconds(0),
            pipe: PipeState::Room,
        };
        let Some(answer) = self.make(&walk)? else {
            return Ok(false);
        };
        let served = match waits_on(&answer) {
            Some(token) => self.serve_token(token)?,
            None => None,
        };
        self.make(&Event::Resume {
            walker: WALKER,
            now: Seconds(0),
            pipe: PipeState::Room,
        })?;
        self.make(&Event::Leave { walker: WALKER })?;
        let Some(mount) = served else {
            return Ok(false);
        };
        self.take(row, mount)?;
        self.take_new(self.wish_of(row), mount, before)?;
        Ok(true)
    }

    /// The daemon takes a packet up, and does its job. Tells what it has mounted.
    fn serve_token(&mut self, token: Token) -> Result<Option<u64>, AllocError> {
        self.make(&Event::Deliver { token, bytes: None })?;
        let job = JobId(token.0);
        let mut served = None;
        for _act in 0..ACTS {
            let Some(answer) = self.make(&Event::Act { job, failure: None })? else {
                break;
            };
            if let Some(mount) = mounted_by(&answer) {
                served = Some(mount);
            }
        }
        Ok(served)
    }
}
