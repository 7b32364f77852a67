//! What a worker has to do outside the world: its act, and the path that this is about.

ghost use Rattle.std.specs.Prelude.{◌≡◌, true, Any, Some, IfNone, IfOk, IfSome, option_copied};
ghost use Rattle.am_job.specs.declared.act.Act.TheVariants as acts;
ghost use Rattle.am_shared.specs.{keeps_events};
ghost use Rattle.am_runner.specs.Tasks.{IsNextIn, IsNowhere, IsTaskOf, path_at as path_of_name, point_at};

use am_job::Act;
use am_machine::{Answer, Entry as HistoryEntry, Event};
use am_map::Entry;
use am_names::{FsId, JobId, Place, Trigger};
use am_shared::Shared;
use std::alloc::{AllocError, Global};

/// What an act asks of a backend.
#[derive(Drop)]
pub enum Task {
    Mount {
        trigger: Trigger,
        path: Place,
        entry: Entry,
    },
    Umount {
        trigger: Trigger,
        path: Place,
    },
    /// A mount or an unmount on a file system to which the daemon was never attached.
    Nowhere,
    /// Nothing.
    Other,
}

/// Where the daemon was attached to a file system, if it was so here.
fn point_at(entry: &HistoryEntry, fs: FsId) -> Option<&Place>
    ensures { option_copied result ≡ point_at fs entry.now }
{
    match (&entry.event, &entry.answer) {
        (Event::Attach { path }, Answer::Attached { fs: theirs, .. }) if *theirs == fs => {
            Some(path)
        }
        _ => None,
    }
}

/// Where the daemon was attached to a file system, by the history of its world.
fn point_of(history: &[HistoryEntry], fs: FsId) -> Option<&Place>
    ensures some { IfSome result
        (λ point. Any (λ e. point_at fs e ≡ Some point.now) history.now) }
    ensures none { IfNone result (IsNowhere history.now fs) }
{
    for entry in history {
        if let Some(point) = point_at(entry, fs) {
            return Some(point);
        }
    }
    None
}

/// The path of a trigger of a file system to which the daemon was attached there.
fn path_at(alloc: Global, point: &Place, trigger: &Trigger) -> Result<Place, AllocError>
    ensures { IfOk result (λ path. path ≡ path_of_name point.now trigger.now.name) }
{
    let mut path = point.copy(alloc)?;
    if let Some(name) = &trigger.name {
        path.push(name)?;
    }
    Ok(path)
}

/// The task of a mount.
fn mount_in(
    alloc: Global,
    history: &[HistoryEntry],
    trigger: &Trigger,
    entry: &Entry,
) -> Result<Task, AllocError>
    ensures { IfOk result (IsTaskOf history.now (acts.Mount trigger.now entry.now)) }
{
    let Some(point) = point_of(history, trigger.fs) else {
        return Ok(Task::Nowhere);
    };
    Ok(Task::Mount {
        trigger: *trigger,
        path: path_at(alloc, point, trigger)?,
        entry: entry.copy(alloc)?,
    })
}

/// The task of an unmount.
fn umount_in(alloc: Global, history: &[HistoryEntry], trigger: &Trigger) -> Result<Task, AllocError>
    ensures { IfOk result (IsTaskOf history.now (acts.Umount trigger.now)) }
{
    let Some(point) = point_of(history, trigger.fs) else {
        return Ok(Task::Nowhere);
    };
    Ok(Task::Umount {
        trigger: *trigger,
        path: path_at(alloc, point, trigger)?,
    })
}

/// The task of an act.
fn task_of(alloc: Global, history: &[HistoryEntry], act: &Act) -> Result<Task, AllocError>
    ensures { IfOk result (IsTaskOf history.now act.now) }
{
    match act {
        Act::Mount { trigger, entry } => mount_in(alloc, history, trigger, entry),
        Act::Umount { trigger } => umount_in(alloc, history, trigger),
        _ => Ok(Task::Other),
    }
}

/// The task of a job that comes next, where all events are kept; none where there is no such job any
/// more.
pub fn next_in(alloc: Global, shared: &Shared, job: JobId) -> Result<Option<Task>, AllocError>
    ensures { IfOk result (λ found. keeps_events shared.now.keep ≡ true → IsNextIn shared.now job found) }
{
    match shared.world().next_act(job) {
        Some(act) => Ok(Some(task_of(alloc, shared.history(), act)?)),
        None => Ok(None),
    }
}
