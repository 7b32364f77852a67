//! The daemon's jobs go on, act by act.

ghost use Rattle.std.specs.Prelude.{◌≡◌};
ghost use Rattle.am_kernel.specs.{mkdir_refusal, rmdir_refusal, answer_refusal};
ghost use Rattle.am_daemon.specs.{finished};
ghost use Rattle.am_machine.specs.{mkdir_by, mount_act, umount_act, rmdir_by, record_act, reply_by, act_outcome};
ghost use Rattle.am_world.specs.Machine.{whole_state, daemon_of, Yields};
ghost use Rattle.am_world.specs.declared.acts.ActKind.TheVariants as act_kind;
ghost use Rattle.am_world.specs.Acts.{act_kind_of, next_act_of, row_for, as_made, as_removed, is_no_memory, IsNext, IsLean};

use crate::machine::Machine;
use am_daemon::Daemon;
use am_job::{Act, Outcome};
use am_machine::Answer;
use am_names::{Attach, Errno, FailNo, JobId, Status, Token, Trigger};
use am_state::{KeptTrigger, Obs, Record};
use std::alloc::Global;

/// An act without what it mounts.
#[derive(Clone, Copy)]
pub enum ActKind {
    Mkdir {
        trigger: Trigger,
    },
    Mount {
        trigger: Trigger,
    },
    Umount {
        trigger: Trigger,
    },
    Rmdir {
        trigger: Trigger,
    },
    Record {
        trigger: Trigger,
        entry: Option<Record>,
    },
    Reply {
        status: Status,
    },
}

/// The next act of a job, and the attachment that it carries.
#[derive(Clone, Copy)]
pub struct NextAct {
    pub job: JobId,
    pub attach: Attach,
    pub act_kind: ActKind,
}

/// The act without what it mounts.
fn act_kind_of(act: &Act) -> ActKind
    ensures { result ≡ act_kind_of act.now }
{
    match act {
        Act::Mkdir { trigger } => ActKind::Mkdir { trigger: *trigger },
        Act::Mount { trigger, .. } => ActKind::Mount { trigger: *trigger },
        Act::Umount { trigger } => ActKind::Umount { trigger: *trigger },
        Act::Rmdir { trigger } => ActKind::Rmdir { trigger: *trigger },
        Act::Record { trigger, entry } => ActKind::Record {
            trigger: *trigger,
            entry: *entry,
        },
        Act::Reply { status } => ActKind::Reply { status: *status },
    }
}

/// What comes next of a job.
fn next_act_of(daemon: &Daemon, job: JobId) -> Option<NextAct>
    ensures { result ≡ next_act_of job (daemon_of daemon.now) }
{
    let row = daemon.job(job)?;
    let act = row.next()?;
    Some(NextAct {
        job,
        attach: row.attach(),
        act_kind: act_kind_of(act),
    })
}

/// This has come of the next act of a job, which writes nothing into the book.
fn finish(daemon: &mut Daemon, job: JobId, outcome: Outcome)
    requires { IsLean job (daemon_of daemon.old) }
    ensures { daemon_of daemon.new ≡ finished job outcome (daemon_of daemon.old) }
{
    // There is the job, and the act takes no memory.
    let _done = daemon.finish_act(job, outcome);
}

/// A directory that is there already counts as made.
fn as_made(came: Result<(), Errno>) -> Result<(), Errno>
    ensures { result ≡ as_made came }
{
    match came {
        Ok(()) | Err(Errno::EEXIST) => Ok(()),
        Err(errno) => Err(errno),
    }
}

/// A directory that has gone, or on which something is mounted, counts as removed.
fn as_removed(came: Result<(), Errno>) -> Result<(), Errno>
    ensures { result ≡ as_removed came }
{
    match came {
        Ok(()) | Err(Errno::ENOENT | Errno::EBUSY) => Ok(()),
        Err(errno) => Err(errno),
    }
}

/// Whether memory ran out.
fn is_no_memory(errno: Errno) -> bool
    ensures { result ≡ is_no_memory errno }
{
    matches!(errno, Errno::NoMemory)
}

impl Machine {
    /// The job makes its directory.
    fn make_directory(&mut self, coming: &NextAct, trigger: &Trigger) -> Result<Answer, Errno>
        requires { IsNext coming.now (act_kind.Mkdir trigger.now) (daemon_of self.old.daemon) }
        ensures { Yields (mkdir_by (mkdir_refusal self.old.kernel coming.now.attach trigger.now)
            (whole_state self.old) (row_for (daemon_of self.old.daemon) coming.now.job) trigger.now)
            (whole_state self.old) result (whole_state self.new) }
    {
        let came = as_made(self.kernel.mkdir(coming.attach, *trigger));
        match came {
            Ok(()) => {
                finish(&mut self.daemon, coming.job, Outcome::Done);
                Ok(Answer::DidMkdir)
            }
            Err(errno) => Err(errno),
        }
    }

    /// The job mounts on its trigger, or tells that its program failed.
    fn mount_on(
        &mut self,
        alloc: Global,
        coming: &NextAct,
        trigger: &Trigger,
        failure: Option<FailNo>,
    ) -> Result<Answer, Errno>
        requires { IsNext coming.now (act_kind.Mount trigger.now) (daemon_of self.old.daemon) }
        ensures { Yields (mount_act (whole_state self.old)
            (row_for (daemon_of self.old.daemon) coming.now.job) trigger.now failure)
            (whole_state self.old) result (whole_state self.new) }
    {
        if !self.kernel.is_current(trigger.fs, coming.attach) {
            return Err(Errno::EPERM);
        }
        if let Some(no) = failure {
            finish(&mut self.daemon, coming.job, Outcome::Failed(no));
            return Ok(Answer::FailedMount);
        }
        match self
            .kernel
            .mount_on(alloc, coming.attach, trigger, &mut self.trace)
        {
            Ok(mount) => {
                finish(&mut self.daemon, coming.job, Outcome::Made { mount });
                Ok(Answer::DidMount { mount })
            }
            Err(errno) => {
                if is_no_memory(errno) {
                    return Err(errno);
                }
                finish(
                    &mut self.daemon,
                    coming.job,
                    Outcome::Failed(FailNo::ENOENT),
                );
                Ok(Answer::FailedMount)
            }
        }
    }

    /// The job unmounts from its trigger, or tells that its program failed.
    fn umount_from(
        &mut self,
        alloc: Global,
        coming: &NextAct,
        trigger: &Trigger,
        failure: Option<FailNo>,
    ) -> Result<Answer, Errno>
        requires { IsNext coming.now (act_kind.Umount trigger.now) (daemon_of self.old.daemon) }
        ensures { Yields (umount_act (whole_state self.old)
            (row_for (daemon_of self.old.daemon) coming.now.job) trigger.now failure)
            (whole_state self.old) result (whole_state self.new) }
    {
        if !self.kernel.is_current(trigger.fs, coming.attach) {
            return Err(Errno::EPERM);
        }
        if let Some(no) = failure {
            finish(&mut self.daemon, coming.job, Outcome::Failed(no));
            return Ok(Answer::FailedUmount);
        }
        match self
            .kernel
            .umount_from(alloc, coming.attach, trigger, &mut self.trace)
        {
            Ok(_gone) => {
                finish(&mut self.daemon, coming.job, Outcome::Done);
                Ok(Answer::DidUmount)
            }
            Err(errno) => {
                if is_no_memory(errno) {
                    return Err(errno);
                }
                finish(
                    &mut self.daemon,
                    coming.job,
                    Outcome::Failed(FailNo::ENOENT),
                );
                Ok(Answer::FailedUmount)
            }
        }
    }

    /// The job removes its directory.
    fn remove_directory(
        &mut self,
        alloc: Global,
        coming: &NextAct,
        trigger: &Trigger,
    ) -> Result<Answer, Errno>
        requires { IsNext coming.now (act_kind.Rmdir trigger.now) (daemon_of self.old.daemon) }
        ensures { Yields (rmdir_by (rmdir_refusal self.old.kernel coming.now.attach trigger.now)
            (whole_state self.old) (row_for (daemon_of self.old.daemon) coming.now.job) trigger.now)
            (whole_state self.old) result (whole_state self.new) }
    {
        let came = as_removed(self.kernel.rmdir(alloc, coming.attach, trigger));
        match came {
            Ok(()) => {
                finish(&mut self.daemon, coming.job, Outcome::Done);
                Ok(Answer::DidRmdir)
            }
            Err(errno) => Err(errno),
        }
    }

    /// The job writes into the daemon's book.
    fn write_down(
        &mut self,
        alloc: Global,
        coming: &NextAct,
        trigger: &Trigger,
        entry: Option<Record>,
    ) -> Result<Answer, Errno>
        requires { IsNext coming.now (act_kind.Record trigger.now entry)
            (daemon_of self.old.daemon) }
        ensures { Yields (record_act (whole_state self.old)
            (row_for (daemon_of self.old.daemon) coming.now.job) trigger.now entry)
            (whole_state self.old) result (whole_state self.new) }
    {
        let trigger = KeptTrigger::new(alloc, trigger)?;
        self.trace.reserve(1)?;
        self.daemon.finish_act(coming.job, Outcome::Done)?;
        self.trace.push_reserved(Obs::Recorded { trigger, entry });
        Ok(Answer::DidRecord)
    }

    /// The job acknowledges its packet, and ends.
    fn reply(&mut self, alloc: Global, coming: &NextAct, status: Status) -> Result<Answer, Errno>
        requires { IsNext coming.now (act_kind.Reply status) (daemon_of self.old.daemon) }
        ensures { Yields (reply_by (answer_refusal self.old.kernel coming.now.attach coming.now.job)
            (whole_state self.old) (row_for (daemon_of self.old.daemon) coming.now.job) status)
            (whole_state self.old) result (whole_state self.new) }
    {
        let job = coming.job;
        let token = Token(job.0);
        let mut shown = self.kernel.answering_seen(alloc, token, status)?;
        self.trace.reserve(shown.len())?;
        self.kernel.answer(coming.attach, token, status)?;
        // There is room for it.
        self.trace.append(&mut shown)?;
        finish(&mut self.daemon, coming.job, Outcome::Done);
        Ok(Answer::DidReply)
    }

    /// The daemon makes the next act of a job, which fails with this error if it is a mount or an
    /// unmount.
    pub fn act(
        &mut self,
        alloc: Global,
        job: JobId,
        failure: Option<FailNo>,
    ) -> Result<Answer, Errno>
        ensures { Yields (act_outcome (whole_state self.old) job failure)
            (whole_state self.old) result (whole_state self.new) }
    {
        let Some(coming) = next_act_of(&self.daemon, job) else {
            return Err(Errno::EINVAL);
        };
        match &coming.act_kind {
            ActKind::Mkdir { trigger } => self.make_directory(&coming, trigger),
            ActKind::Mount { trigger } => self.mount_on(alloc, &coming, trigger, failure),
            ActKind::Umount { trigger } => self.umount_from(alloc, &coming, trigger, failure),
            ActKind::Rmdir { trigger } => self.remove_directory(alloc, &coming, trigger),
            ActKind::Record { trigger, entry } => self.write_down(alloc, &coming, trigger, *entry),
            ActKind::Reply { status } => self.reply(alloc, &coming, *status),
        }
    }
}
