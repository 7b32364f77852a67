//! Answers: what an event came to.

ghost use Rattle.std.specs.Prelude.{◌≡◌, ◌↔◌, IsTrue};
ghost use Rattle.am_machine.specs.declared.answer.Answer.TheVariants as answers;

use am_group::MountState;
use am_names::{Attach, Errno, FsId, JobId, MountId, MountIds, NsId, Position, Token};
use am_state::Record;

/// The answer to one event.
#[derive(Drop)]
pub enum Answer {
    /// The autofs is mounted, and the daemon is attached to it.
    Attached {
        fs: FsId,
        attach: Attach,
        mount: MountId,
    },
    /// The new mount itself, without its copies.
    Mount {
        mount: MountId,
    },
    /// These mounts have gone, in rising order.
    Gone {
        mounts: MountIds,
    },
    /// It is done, and there is nothing more to tell.
    Done,
    /// How the mount takes part in propagation.
    Kind {
        kind: MountState,
    },
    /// The new namespace.
    Namespace {
        ns: NsId,
    },
    /// The walk has arrived there.
    At {
        position: Position,
    },
    /// The walker waits on this token.
    Wait {
        token: Token,
    },
    /// What the walker asked to expire has expired.
    Expired,
    /// The daemon has taken the packet up as this job.
    Job {
        job: JobId,
    },
    DidMkdir,
    DidMount {
        mount: MountId,
    },
    DidUmount,
    DidRmdir,
    DidRecord,
    DidReply,
    FailedMount,
    FailedUmount,
    /// The daemon is attached again, by this attachment.
    Reattached {
        attach: Attach,
    },
    /// What the book says.
    Record {
        entry: Option<Record>,
    },
    /// Nothing has changed.
    Refused {
        errno: Errno,
    },
    /// The wait is collected or the file system is catatonic, and the walk can't go on.
    Failed {
        errno: Errno,
    },
}

impl Answer {
    /// Whether both are the same answer.
    pub fn is_same(&self, other: &Answer) -> bool
        ensures { IsTrue result ↔ (self.now ≡ other.now) }
    {
        match self {
            Answer::Attached { fs, attach, mount } => is_attached(*fs, *attach, *mount, other),
            Answer::Mount { mount } => is_mount(*mount, other),
            Answer::Gone { mounts } => is_gone(mounts, other),
            Answer::Done => is_done(other),
            Answer::Kind { kind } => is_kind(*kind, other),
            Answer::Namespace { ns } => is_namespace(*ns, other),
            Answer::At { position } => is_at(position, other),
            Answer::Wait { token } => is_wait(*token, other),
            Answer::Expired => is_expired(other),
            Answer::Job { job } => is_job(*job, other),
            Answer::DidMkdir => is_did_mkdir(other),
            Answer::DidMount { mount } => is_did_mount(*mount, other),
            Answer::DidUmount => is_did_umount(other),
            Answer::DidRmdir => is_did_rmdir(other),
            Answer::DidRecord => is_did_record(other),
            Answer::DidReply => is_did_reply(other),
            Answer::FailedMount => is_failed_mount(other),
            Answer::FailedUmount => is_failed_umount(other),
            Answer::Reattached { attach } => is_reattached(*attach, other),
            Answer::Record { entry } => is_record(entry, other),
            Answer::Refused { errno } => is_refused(*errno, other),
            Answer::Failed { errno } => is_failed(*errno, other),
        }
    }
}

fn is_attached(fs: FsId, attach: Attach, mount: MountId, answer: &Answer) -> bool
    ensures { IsTrue result ↔ (answers.Attached fs attach mount ≡ answer.now) }
{
    match answer {
        Answer::Attached {
            fs: same_fs,
            attach: same_attach,
            mount: same_mount,
        } => fs == *same_fs && attach == *same_attach && mount == *same_mount,
        _ => false,
    }
}

fn is_mount(mount: MountId, answer: &Answer) -> bool
    ensures { IsTrue result ↔ (answers.Mount mount ≡ answer.now) }
{
    match answer {
        Answer::Mount { mount: same_mount } => mount == *same_mount,
        _ => false,
    }
}

fn is_gone(mounts: &MountIds, answer: &Answer) -> bool
    ensures { IsTrue result ↔ (answers.Gone mounts.now ≡ answer.now) }
{
    match answer {
        Answer::Gone {
            mounts: same_mounts,
        } => mounts.is_same(same_mounts),
        _ => false,
    }
}

fn is_done(answer: &Answer) -> bool
    ensures { IsTrue result ↔ (answers.Done ≡ answer.now) }
{
    match answer {
        Answer::Done => true,
        _ => false,
    }
}

fn is_kind(kind: MountState, answer: &Answer) -> bool
    ensures { IsTrue result ↔ (answers.Kind kind ≡ answer.now) }
{
    match answer {
        Answer::Kind { kind: same_kind } => kind == *same_kind,
        _ => false,
    }
}

fn is_namespace(ns: NsId, answer: &Answer) -> bool
    ensures { IsTrue result ↔ (answers.Namespace ns ≡ answer.now) }
{
    match answer {
        Answer::Namespace { ns: same_ns } => ns == *same_ns,
        _ => false,
    }
}

fn is_at(position: &Position, answer: &Answer) -> bool
    ensures { IsTrue result ↔ (answers.At position.now ≡ answer.now) }
{
    match answer {
        Answer::At {
            position: same_position,
        } => position.is_same(same_position),
        _ => false,
    }
}

fn is_wait(token: Token, answer: &Answer) -> bool
    ensures { IsTrue result ↔ (answers.Wait token ≡ answer.now) }
{
    match answer {
        Answer::Wait { token: same_token } => token == *same_token,
        _ => false,
    }
}

fn is_expired(answer: &Answer) -> bool
    ensures { IsTrue result ↔ (answers.Expired ≡ answer.now) }
{
    match answer {
        Answer::Expired => true,
        _ => false,
    }
}

fn is_job(job: JobId, answer: &Answer) -> bool
    ensures { IsTrue result ↔ (answers.Job job ≡ answer.now) }
{
    match answer {
        Answer::Job { job: same_job } => job == *same_job,
        _ => false,
    }
}

fn is_did_mkdir(answer: &Answer) -> bool
    ensures { IsTrue result ↔ (answers.DidMkdir ≡ answer.now) }
{
    match answer {
        Answer::DidMkdir => true,
        _ => false,
    }
}

fn is_did_mount(mount: MountId, answer: &Answer) -> bool
    ensures { IsTrue result ↔ (answers.DidMount mount ≡ answer.now) }
{
    match answer {
        Answer::DidMount { mount: same_mount } => mount == *same_mount,
        _ => false,
    }
}

fn is_did_umount(answer: &Answer) -> bool
    ensures { IsTrue result ↔ (answers.DidUmount ≡ answer.now) }
{
    match answer {
        Answer::DidUmount => true,
        _ => false,
    }
}

fn is_did_rmdir(answer: &Answer) -> bool
    ensures { IsTrue result ↔ (answers.DidRmdir ≡ answer.now) }
{
    match answer {
        Answer::DidRmdir => true,
        _ => false,
    }
}

fn is_did_record(answer: &Answer) -> bool
    ensures { IsTrue result ↔ (answers.DidRecord ≡ answer.now) }
{
    match answer {
        Answer::DidRecord => true,
        _ => false,
    }
}

fn is_did_reply(answer: &Answer) -> bool
    ensures { IsTrue result ↔ (answers.DidReply ≡ answer.now) }
{
    match answer {
        Answer::DidReply => true,
        _ => false,
    }
}

fn is_failed_mount(answer: &Answer) -> bool
    ensures { IsTrue result ↔ (answers.FailedMount ≡ answer.now) }
{
    match answer {
        Answer::FailedMount => true,
        _ => false,
    }
}

fn is_failed_umount(answer: &Answer) -> bool
    ensures { IsTrue result ↔ (answers.FailedUmount ≡ answer.now) }
{
    match answer {
        Answer::FailedUmount => true,
        _ => false,
    }
}

fn is_reattached(attach: Attach, answer: &Answer) -> bool
    ensures { IsTrue result ↔ (answers.Reattached attach ≡ answer.now) }
{
    match answer {
        Answer::Reattached {
            attach: same_attach,
        } => attach == *same_attach,
        _ => false,
    }
}

fn is_record(entry: &Option<Record>, answer: &Answer) -> bool
    ensures { IsTrue result ↔ (answers.Record entry.now ≡ answer.now) }
{
    match answer {
        Answer::Record { entry: same_entry } => entry == same_entry,
        _ => false,
    }
}

fn is_refused(errno: Errno, answer: &Answer) -> bool
    ensures { IsTrue result ↔ (answers.Refused errno ≡ answer.now) }
{
    match answer {
        Answer::Refused { errno: same_errno } => errno == *same_errno,
        _ => false,
    }
}

fn is_failed(errno: Errno, answer: &Answer) -> bool
    ensures { IsTrue result ↔ (answers.Failed errno ≡ answer.now) }
{
    match answer {
        Answer::Failed { errno: same_errno } => errno == *same_errno,
        _ => false,
    }
}
