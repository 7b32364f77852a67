//! A walk along a path is followed to where it stops.

ghost use Rattle.std.specs.Prelude.{◌≡◌, [], None, Some, Ok, IfOk};
ghost use Rattle.am_names.specs.{RefusedAs};
ghost use Rattle.am_trigger.specs.{failing};
ghost use Rattle.am_walk.specs.View.{scene_in, walked_of, left_of, settled_at};
ghost use Rattle.am_walk.specs.Laws.{IsOrderly, RestsAt};
ghost use Rattle.am_walk.specs.Scene.{with_traps, without_traps};
ghost use Rattle.am_walk.specs.Walks.{onward, ended, walk_of, position_of, fault_of};

use crate::scene::{View, has_names};
use crate::stop::{Next, Stop, Walk};
use am_names::{AbsPath, Errno, MountId, Name, NsId, Place, Position, Seconds, Trigger};
use am_propagate::Subtree;
use am_trigger::{Failures, Lasting, Triggers};
use am_wait::Waits;
use std::alloc::{AllocError, Global};

/// Where a walk stands, and the triggers that it passed on its way.
#[derive(Drop)]
pub struct Walking {
    pub mount: MountId,
    pub place: Place,
    pub passed: Vec<Trigger>,
}

impl Walking {
    /// At the root of a mount, nothing passed.
    fn from(alloc: Global, root: MountId) -> Walking
        ensures mount { result.mount ≡ root }
        ensures place { result.place ≡ [] }
        ensures passed { result.passed.items ≡ [] }
    {
        Walking {
            mount: root,
            place: Place::root(alloc),
            passed: Vec::new(alloc),
        }
    }

    /// The walk has come to the end of its path.
    fn arrived(self) -> Walk
        ensures { walked_of result ≡ ended (left_of None self) }
    {
        Walk {
            stop: Stop::Arrive(Position {
                mount: self.mount,
                place: self.place,
            }),
            passed: self.passed,
        }
    }

    /// The walk has stopped.
    fn stopped(self, stop: Stop) -> Walk
        ensures { walked_of result ≡ ended (left_of (Some stop) self) }
    {
        Walk {
            stop,
            passed: self.passed,
        }
    }
}

impl View<'_> {
    /// Follows a walk to where it comes to rest at its place, or stops.
    fn settle(&self, alloc: Global, at: &mut Walking) -> Result<Option<Stop>, AllocError>
        ensures { IfOk result (λ stop. left_of stop at.new ≡
            settled_at (scene_in self.now) at.old) }
    {
        for _step in 0..self.tree.rows().len() + 1 {
            match self.next_at(at.mount, &at.place) {
                Next::Rests => return Ok(None),
                Next::Halts(stop) => return Ok(Some(stop)),
                Next::Enters(mount) => at.mount = mount,
                Next::Passes(mount, trigger) => {
                    at.passed.push(trigger)?;
                    at.mount = mount;
                }
            }
            at.place = Place::root(alloc);
        }
        Ok(None)
    }

    /// Follows a walk one name further.
    fn step(&self, alloc: Global, at: &mut Walking, name: &Name) -> Result<Option<Stop>, AllocError>
        ensures { IfOk result (λ stop. left_of stop at.new ≡
            onward (scene_in self.now) name.now (left_of None at.old)) }
    {
        if !has_names(self.autofs_at(at.mount), &at.place) {
            return Ok(Some(Stop::Refuse(Errno::ENOENT)));
        }
        at.place.push(name)?;
        self.settle(alloc, at)
    }

    /// A walk from the root of a namespace along a path.
    pub fn walk(&self, alloc: Global, ns: NsId, path: &AbsPath<'_>) -> Result<Walk, AllocError>
        ensures { IfOk result (λ walk. walked_of walk ≡ walk_of (scene_in self.now) ns path.now) }
    {
        let Some(root) = self.tree.root_of(ns) else {
            return Ok(Walk {
                stop: Stop::Refuse(Errno::ENOENT),
                passed: Vec::new(alloc),
            });
        };
        let mut at = Walking::from(alloc, root);
        if let Some(stop) = self.settle(alloc, &mut at)? {
            return Ok(at.stopped(stop));
        }
        let mut rest = path.copy();
        while let Some((name, others)) = rest.split_first() {
            if let Some(stop) = self.step(alloc, &mut at, &name)? {
                return Ok(at.stopped(stop));
            }
            rest = others;
        }
        Ok(at.arrived())
    }
}

/// The walk of a walker from the root of a namespace along a path, and the triggers that it
/// passes. It changes nothing: to wait, to notify the daemon and to enter is the caller's. The
/// moment and how long failures last are in seconds.
pub fn resolve<'a>(
    alloc: Global,
    subtree: &'a Subtree,
    triggers: &'a Triggers,
    waits: &'a Waits,
    failures: &'a Failures,
    ns: NsId,
    path: &AbsPath<'_>,
    moment: Seconds,
    negative: Seconds,
) -> Result<Walk, AllocError>
    ensures walk { IfOk result (λ walk. walked_of walk ≡
        walk_of (with_traps subtree.now triggers.now.rows waits.now
        (failing moment negative failures.now.rows)) ns path.now) }
    ensures orderly { IfOk result (λ walk. IsOrderly waits.now.tokens (walked_of walk)) }
    ensures rests { IfOk result (λ walk. RestsAt (with_traps subtree.now triggers.now.rows
        waits.now (failing moment negative failures.now.rows)) walk.stop) }
{
    let view = View {
        tree: subtree.tree(),
        triggers,
        waits: Some(waits),
        lasting: Some(Lasting {
            failures,
            moment,
            negative,
        }),
    };
    view.walk(alloc, ns, path)
}

/// The position at the end of an administrator's path, which is followed with the traps off.
pub fn position<'a>(
    alloc: Global,
    subtree: &'a Subtree,
    triggers: &'a Triggers,
    ns: NsId,
    path: &AbsPath<'_>,
) -> Result<Position, Errno>
    ensures refusal { RefusedAs (fault_of (position_of
        (without_traps subtree.now triggers.now.rows) ns path.now)) result }
    ensures ok { IfOk result (λ at. position_of (without_traps subtree.now triggers.now.rows) ns
        path.now ≡ Ok at) }
{
    let view = View {
        tree: subtree.tree(),
        triggers,
        waits: None,
        lasting: None,
    };
    let Walk {
        stop,
        passed: _passed,
    } = view.walk(alloc, ns, path)?;
    match stop {
        Stop::Arrive(at) => Ok(at),
        Stop::Block(_) | Stop::Missing(_) => Err(Errno::ENOENT),
        Stop::Refuse(errno) => Err(errno),
    }
}
