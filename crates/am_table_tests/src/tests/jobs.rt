//! Every plan of a job, act by act, and what comes of them.

use crate::tests::acts::{Comes, Deed, Said};
use crate::tests::script::{Example, Stage, Step, plays};
use crate::tests::trap::Trap;
use am_job::Job;
use am_map::Entry;
use am_names::{Attach, Errno, FailNo, JobId, MountId, Name, Status, TokenKind};
use std::alloc::{AllocError, Global};

/// A call, and what it answers.
#[derive(Clone, Copy)]
enum Call {
    /// Packets come for this trigger.
    On(Trap),
    /// A packet comes: the mount that the book has for its trigger, and whether the map has an
    /// entry.
    Asks(TokenKind, Option<u64>, bool),
    /// The next act, and what comes of it.
    Does(Deed, Comes),
    /// This comes of the next act, whatever it is.
    Done(Comes),
    /// No act is left.
    Ends,
    /// Whether all that is left is to acknowledge.
    IsReply(bool),
    /// The packet's token, and its attachment.
    Tells(u32, u32),
}

fn entry(alloc: Global) -> Result<Entry, AllocError> {
    Ok(Entry {
        options: None,
        host: Vec::from_slice(alloc, b"srv")?,
        path: Vec::from_slice(alloc, b"/home")?,
    })
}

fn begun(
    alloc: Global,
    trap: Trap,
    kind: TokenKind,
    mounted: Option<u64>,
    has_entry: bool,
) -> Result<Job, Errno> {
    let trigger = trap.trigger()?;
    // The checker wants the type of its name said too, here and below.
    let _name: Option<Name> = trigger.name;
    let mounted = match mounted {
        Some(mount) => Some(MountId(mount)),
        None => None,
    };
    let entry = match has_entry {
        true => Some(entry(alloc)?),
        false => None,
    };
    Ok(Job::new(JobId(5), Attach(1), trigger, kind, mounted, entry))
}

/// The next act does this, and so does its copy.
fn is_next(alloc: Global, job: &Job, deed: Deed) -> Result<bool, Errno> {
    let trigger = job.trigger();
    let _name: Option<Name> = trigger.name;
    let Some(act) = job.next() else {
        return Ok(false);
    };
    let copy = act.copy(alloc)?;
    Ok(deed.is(act, &trigger) && deed.is(&copy, &trigger))
}

fn does(alloc: Global, job: &mut Job, deed: Deed, comes: Comes) -> Result<bool, Errno> {
    let is_next = is_next(alloc, job, deed)?;
    job.done(comes.outcome());
    Ok(is_next)
}

fn done(job: &mut Job, comes: Comes) -> Result<bool, Errno> {
    job.done(comes.outcome());
    Ok(true)
}

fn tells(job: &Job, token: u32, attach: u32) -> bool {
    job.job() == JobId(token) && job.attach() == Attach(attach)
}

fn make(alloc: Global, job: &mut Job, call: Call) -> Result<bool, Errno> {
    match call {
        Call::On(_) | Call::Asks(..) => Ok(false),
        Call::Does(deed, comes) => does(alloc, job, deed, comes),
        Call::Done(comes) => done(job, comes),
        Call::Ends => Ok(job.next().is_none()),
        Call::IsReply(expected) => Ok(job.is_reply() == expected),
        Call::Tells(token, attach) => Ok(tells(job, token, attach)),
    }
}

/// The job of the last packet that came, of this trigger.
#[derive(Drop)]
struct Work {
    trap: Trap,
    job: Option<Job>,
}

impl Stage for Work {
    type Call = Call;

    fn new(_alloc: Global) -> Result<Work, Errno> {
        Ok(Work {
            trap: Trap(2, b""),
            job: None,
        })
    }

    fn make(&mut self, alloc: Global, call: Call) -> Result<bool, Errno> {
        if let Call::On(trap) = call {
            self.trap = trap;
            return Ok(true);
        }
        if let Call::Asks(kind, mounted, has_entry) = call {
            self.job = Some(begun(alloc, self.trap, kind, mounted, has_entry)?);
            return Ok(true);
        }
        match &mut self.job {
            Some(job) => make(alloc, job, call),
            None => Ok(false),
        }
    }
}

const MADE: Comes = Comes::Made;

const DONE: Comes = Comes::Done;

const FAILED: Comes = Comes::Failed(FailNo::ENOENT);

const MISSING: TokenKind = TokenKind::Missing;

const EXPIRE: TokenKind = TokenKind::Expire;

const MOUNT: Deed = Deed::Mount(b"/home");

const RECORD_NONE: Deed = Deed::Records(Said::Nothing);

const READY: Deed = Deed::Replies(Status::Ready);

const FAIL: Deed = Deed::Replies(Status::Fail(FailNo::ENOENT));

static INDIRECT: [Step<Call>; 42] = [
    Step::Does(Call::On(Trap(2, b"home"))),
    // The mount comes.
    Step::Does(Call::Asks(MISSING, None, true)),
    Step::Does(Call::Does(Deed::Mkdir, DONE)),
    Step::Does(Call::Does(MOUNT, MADE)),
    Step::Does(Call::Does(Deed::Records(Said::Mounted(7)), DONE)),
    Step::Does(Call::Does(READY, DONE)),
    Step::Does(Call::Ends),
    // It fails.
    Step::Does(Call::Asks(MISSING, None, true)),
    Step::Does(Call::Does(Deed::Mkdir, DONE)),
    Step::Does(Call::Does(MOUNT, FAILED)),
    Step::Does(Call::Does(Deed::Rmdir, DONE)),
    Step::Does(Call::Does(RECORD_NONE, DONE)),
    Step::Does(Call::Does(FAIL, DONE)),
    Step::Does(Call::Ends),
    // Whatever comes of the other acts, the job goes on.
    Step::Does(Call::Asks(MISSING, None, true)),
    Step::Does(Call::Does(Deed::Mkdir, FAILED)),
    Step::Does(Call::Does(MOUNT, DONE)),
    Step::Does(Call::Does(Deed::Rmdir, FAILED)),
    Step::Does(Call::Does(RECORD_NONE, FAILED)),
    Step::Does(Call::Does(FAIL, FAILED)),
    Step::Does(Call::Ends),
    // There is nothing to mount.
    Step::Does(Call::Asks(MISSING, None, false)),
    Step::Does(Call::Does(RECORD_NONE, DONE)),
    Step::Does(Call::Does(FAIL, DONE)),
    Step::Does(Call::Ends),
    // It is mounted already.
    Step::Does(Call::Asks(MISSING, Some(4), true)),
    Step::Does(Call::Does(READY, DONE)),
    Step::Does(Call::Ends),
    // The unmount comes, and fails.
    Step::Does(Call::Asks(EXPIRE, Some(4), true)),
    Step::Does(Call::Does(Deed::Umount, DONE)),
    Step::Does(Call::Does(Deed::Rmdir, DONE)),
    Step::Does(Call::Does(RECORD_NONE, DONE)),
    Step::Does(Call::Does(READY, DONE)),
    Step::Does(Call::Ends),
    Step::Does(Call::Asks(EXPIRE, Some(4), true)),
    Step::Does(Call::Does(Deed::Umount, FAILED)),
    Step::Does(Call::Does(Deed::Records(Said::Mounted(4)), DONE)),
    Step::Does(Call::Does(FAIL, DONE)),
    Step::Does(Call::Ends),
    // There is nothing to unmount.
    Step::Does(Call::Asks(EXPIRE, None, true)),
    Step::Does(Call::Does(FAIL, DONE)),
    Step::Does(Call::Ends),
];

fn indirect() -> Example<Call> {
    Example("plans of an indirect trigger", &INDIRECT)
}

static DIRECT: [Step<Call>; 33] = [
    Step::Does(Call::On(Trap(2, b""))),
    Step::Does(Call::Asks(MISSING, None, true)),
    Step::Does(Call::Does(MOUNT, MADE)),
    Step::Does(Call::Does(Deed::Records(Said::Mounted(7)), DONE)),
    Step::Does(Call::Does(READY, DONE)),
    Step::Does(Call::Ends),
    Step::Does(Call::Asks(MISSING, None, true)),
    Step::Does(Call::Does(MOUNT, FAILED)),
    Step::Does(Call::Does(RECORD_NONE, DONE)),
    Step::Does(Call::Does(FAIL, DONE)),
    Step::Does(Call::Ends),
    Step::Does(Call::Asks(MISSING, None, false)),
    Step::Does(Call::Does(RECORD_NONE, DONE)),
    Step::Does(Call::Does(FAIL, DONE)),
    Step::Does(Call::Ends),
    Step::Does(Call::Asks(MISSING, Some(4), false)),
    Step::Does(Call::Does(READY, DONE)),
    Step::Does(Call::Ends),
    Step::Does(Call::Asks(EXPIRE, Some(4), false)),
    Step::Does(Call::Does(Deed::Umount, DONE)),
    Step::Does(Call::Does(RECORD_NONE, DONE)),
    Step::Does(Call::Does(READY, DONE)),
    Step::Does(Call::Ends),
    Step::Does(Call::Asks(EXPIRE, Some(4), false)),
    Step::Does(Call::Does(Deed::Umount, MADE)),
    Step::Does(Call::Does(RECORD_NONE, DONE)),
    Step::Does(Call::Does(READY, DONE)),
    Step::Does(Call::Ends),
    Step::Does(Call::Asks(EXPIRE, Some(4), false)),
    Step::Does(Call::Does(Deed::Umount, FAILED)),
    Step::Does(Call::Does(Deed::Records(Said::Mounted(4)), DONE)),
    Step::Does(Call::Does(FAIL, DONE)),
    Step::Does(Call::Ends),
];

fn direct() -> Example<Call> {
    Example("plans of a direct trigger", &DIRECT)
}

/// The reply has the number of the mount or the unmount that failed. What other acts come to
/// changes no number.
static NUMBERS: [Step<Call>; 35] = [
    Step::Does(Call::On(Trap(2, b"home"))),
    Step::Does(Call::Asks(MISSING, None, true)),
    Step::Does(Call::Does(Deed::Mkdir, Comes::Failed(FailNo::EEXIST))),
    Step::Does(Call::Does(MOUNT, Comes::Failed(FailNo::EPERM))),
    Step::Does(Call::Does(Deed::Rmdir, Comes::Failed(FailNo::EBUSY))),
    Step::Does(Call::Does(RECORD_NONE, Comes::Failed(FailNo::EAGAIN))),
    Step::Does(Call::Does(Deed::Replies(Status::Fail(FailNo::EPERM)), DONE)),
    Step::Does(Call::Ends),
    Step::Does(Call::Asks(EXPIRE, Some(4), true)),
    Step::Does(Call::Does(Deed::Umount, Comes::Failed(FailNo::EBUSY))),
    Step::Does(Call::Does(
        Deed::Records(Said::Mounted(4)),
        Comes::Failed(FailNo::EPERM),
    )),
    Step::Does(Call::Does(Deed::Replies(Status::Fail(FailNo::EBUSY)), DONE)),
    Step::Does(Call::Ends),
    // A directory that can't be removed leaves the unmount done.
    Step::Does(Call::Asks(EXPIRE, Some(4), true)),
    Step::Does(Call::Does(Deed::Umount, DONE)),
    Step::Does(Call::Does(Deed::Rmdir, Comes::Failed(FailNo::EPERM))),
    Step::Does(Call::Does(RECORD_NONE, DONE)),
    Step::Does(Call::Does(READY, DONE)),
    Step::Does(Call::Ends),
    Step::Does(Call::On(Trap(2, b""))),
    Step::Does(Call::Asks(MISSING, None, true)),
    Step::Does(Call::Does(MOUNT, Comes::Failed(FailNo::ENOSPC))),
    Step::Does(Call::Does(RECORD_NONE, DONE)),
    Step::Does(Call::Does(Deed::Replies(Status::Fail(FailNo::ENOSPC)), DONE)),
    Step::Does(Call::Ends),
    Step::Does(Call::Asks(EXPIRE, Some(4), false)),
    Step::Does(Call::Does(Deed::Umount, Comes::Failed(FailNo::ENAMETOOLONG))),
    Step::Does(Call::Does(Deed::Records(Said::Mounted(4)), DONE)),
    Step::Does(Call::Does(Deed::Replies(Status::Fail(FailNo::ENAMETOOLONG)), DONE)),
    Step::Does(Call::Ends),
    // A mount that is told to be done, without its number, has failed with ENOENT.
    Step::Does(Call::Asks(MISSING, None, true)),
    Step::Does(Call::Does(MOUNT, DONE)),
    Step::Does(Call::Does(RECORD_NONE, DONE)),
    Step::Does(Call::Does(FAIL, DONE)),
    Step::Does(Call::Ends),
];

fn numbers() -> Example<Call> {
    Example("a reply has the number of a failure", &NUMBERS)
}

static A_PACKET: [Step<Call>; 13] = [
    Step::Does(Call::On(Trap(2, b""))),
    Step::Does(Call::Asks(EXPIRE, Some(4), false)),
    Step::Does(Call::Tells(5, 1)),
    Step::Does(Call::IsReply(false)),
    Step::Does(Call::Done(FAILED)),
    Step::Does(Call::Done(DONE)),
    Step::Does(Call::IsReply(true)),
    Step::Does(Call::Done(FAILED)),
    Step::Does(Call::Ends),
    Step::Does(Call::IsReply(false)),
    Step::Does(Call::Done(DONE)),
    Step::Does(Call::Ends),
    Step::Does(Call::Tells(5, 1)),
];

fn a_packet() -> Example<Call> {
    Example("a job tells its packet", &A_PACKET)
}

#[test]
fn plans(rt: HostRuntime) {
    let alloc = rt.alloc();
    plays::<Work>(&rt, alloc, indirect());
    plays::<Work>(&rt, alloc, direct());
    plays::<Work>(&rt, alloc, numbers());
    plays::<Work>(&rt, alloc, a_packet());
}
