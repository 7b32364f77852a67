//! Events: what happens to a world.

ghost use Rattle.std.specs.Prelude.{◌≡◌, ◌↔◌, IsTrue, IfOk};
ghost use Rattle.am_machine.specs.declared.event.Event.TheVariants as events;

use crate::packet_bytes::PacketBytes;
use am_group::Change;
use am_names::{
    Attach, FailNo, FsId, JobId, NsId, PipeState, Place, Seconds, Status, Token, Trigger, WalkerId,
};
use am_propagate::CopyForm;
use am_state::KeptTrigger;
use std::alloc::{AllocError, Global};

/// One event. The moment is handed in with those that have one, and may go back.
#[derive(Drop)]
pub enum Event {
    /// An autofs is mounted at a point of the master, and the daemon attaches to it.
    Attach {
        path: Place,
    },
    /// The administrator mounts a new plain file system.
    Mount {
        ns: NsId,
        path: Place,
    },
    /// The administrator mounts at one path what another has mounted.
    Bind {
        ns: NsId,
        from: Place,
        to: Place,
    },
    /// The administrator unmounts the mount to which a path leads.
    Umount {
        ns: NsId,
        path: Place,
    },
    /// The administrator changes how a mount takes part in propagation.
    Change {
        ns: NsId,
        path: Place,
        change: Change,
    },
    /// The administrator reads how a mount takes part in propagation.
    Kind {
        ns: NsId,
        path: Place,
    },
    /// A namespace is copied, in full or reduced.
    CopyNamespace {
        ns: NsId,
        form: CopyForm,
    },
    /// A namespace is dropped.
    DropNamespace {
        ns: NsId,
    },
    /// An idle walker begins a walk in a namespace. The pipe is that of any autofs whose daemon is
    /// to be notified.
    Walk {
        walker: WalkerId,
        ns: NsId,
        path: Place,
        now: Seconds,
        pipe: PipeState,
    },
    /// A walker that waits goes on, if its token is acknowledged.
    Resume {
        walker: WalkerId,
        now: Seconds,
        pipe: PipeState,
    },
    /// A walker leaves the mount that it is inside of.
    Leave {
        walker: WalkerId,
    },
    /// An idle walker asks for an expiry, of what is due or of anything.
    Expire {
        walker: WalkerId,
        fs: FsId,
        now: Seconds,
        immediate: bool,
        pipe: PipeState,
    },
    /// The daemon takes a packet from the pipe: the queued one of this token, or these bytes.
    Deliver {
        token: Token,
        bytes: Option<PacketBytes>,
    },
    /// The daemon makes the next act of a job. A mount or an unmount fails with the error that is told
    /// here, if one is.
    Act {
        job: JobId,
        failure: Option<FailNo>,
    },
    /// The daemon acknowledges a token without a job.
    Repeat {
        attach: Attach,
        token: Token,
        status: Status,
    },
    /// The daemon ends an attachment.
    Catatonic {
        attach: Attach,
        fs: FsId,
    },
    /// The administrator ends the attachment of an autofs.
    AdminCatatonic {
        fs: FsId,
    },
    /// The daemon sets the timeout of an autofs, in seconds.
    Timeout {
        attach: Attach,
        fs: FsId,
        timeout: u32,
    },
    /// The daemon dies.
    Die,
    /// The daemon attaches again to a catatonic autofs.
    Reattach {
        fs: FsId,
    },
    /// The daemon's book is read.
    Record {
        trigger: KeptTrigger,
    },
}

impl Event {
    /// The same event once more.
    pub fn copy(&self, alloc: Global) -> Result<Event, AllocError>
        ensures { IfOk result (λ event. event ≡ self.now) }
    {
        Ok(match self {
            Event::Attach { path } => Event::Attach {
                path: path.copy(alloc)?,
            },
            Event::Mount { ns, path } => Event::Mount {
                ns: *ns,
                path: path.copy(alloc)?,
            },
            Event::Bind { ns, from, to } => Event::Bind {
                ns: *ns,
                from: from.copy(alloc)?,
                to: to.copy(alloc)?,
            },
            Event::Umount { ns, path } => Event::Umount {
                ns: *ns,
                path: path.copy(alloc)?,
            },
            Event::Change { ns, path, change } => Event::Change {
                ns: *ns,
                path: path.copy(alloc)?,
                change: *change,
            },
            Event::Kind { ns, path } => Event::Kind {
                ns: *ns,
                path: path.copy(alloc)?,
            },
            Event::CopyNamespace { ns, form } => Event::CopyNamespace {
                ns: *ns,
                form: *form,
            },
            Event::DropNamespace { ns } => Event::DropNamespace { ns: *ns },
            Event::Walk {
                walker,
                ns,
                path,
                now,
                pipe,
            } => Event::Walk {
                walker: *walker,
                ns: *ns,
                path: path.copy(alloc)?,
                now: *now,
                pipe: *pipe,
            },
            Event::Resume { walker, now, pipe } => Event::Resume {
                walker: *walker,
                now: *now,
                pipe: *pipe,
            },
            Event::Leave { walker } => Event::Leave { walker: *walker },
            Event::Expire {
                walker,
                fs,
                now,
                immediate,
                pipe,
            } => Event::Expire {
                walker: *walker,
                fs: *fs,
                now: *now,
                immediate: *immediate,
                pipe: *pipe,
            },
            Event::Deliver { token, bytes } => Event::Deliver {
                token: *token,
                bytes: copy_bytes(alloc, bytes)?,
            },
            Event::Act { job, failure } => Event::Act {
                job: *job,
                failure: *failure,
            },
            Event::Repeat {
                attach,
                token,
                status,
            } => Event::Repeat {
                attach: *attach,
                token: *token,
                status: *status,
            },
            Event::Catatonic { attach, fs } => Event::Catatonic {
                attach: *attach,
                fs: *fs,
            },
            Event::AdminCatatonic { fs } => Event::AdminCatatonic { fs: *fs },
            Event::Timeout {
                attach,
                fs,
                timeout,
            } => Event::Timeout {
                attach: *attach,
                fs: *fs,
                timeout: *timeout,
            },
            Event::Die => Event::Die,
            Event::Reattach { fs } => Event::Reattach { fs: *fs },
            Event::Record { trigger } => Event::Record {
                trigger: KeptTrigger::new(alloc, &trigger.to_trigger())?,
            },
        })
    }

    /// Whether both are the same event.
    pub fn is_same(&self, other: &Event) -> bool
        ensures { IsTrue result ↔ (self.now ≡ other.now) }
    {
        match self {
            Event::Attach { path } => is_attach(path, other),
            Event::Mount { ns, path } => is_mount(*ns, path, other),
            Event::Bind { ns, from, to } => is_bind(*ns, from, to, other),
            Event::Umount { ns, path } => is_umount(*ns, path, other),
            Event::Change { ns, path, change } => is_change(*ns, path, *change, other),
            Event::Kind { ns, path } => is_kind(*ns, path, other),
            Event::CopyNamespace { ns, form } => is_copy_namespace(*ns, *form, other),
            Event::DropNamespace { ns } => is_drop_namespace(*ns, other),
            Event::Walk {
                walker,
                ns,
                path,
                now,
                pipe,
            } => is_walk(*walker, *ns, path, *now, *pipe, other),
            Event::Resume { walker, now, pipe } => is_resume(*walker, *now, *pipe, other),
            Event::Leave { walker } => is_leave(*walker, other),
            Event::Expire {
                walker,
                fs,
                now,
                immediate,
                pipe,
            } => is_expire(*walker, *fs, *now, *immediate, *pipe, other),
            Event::Deliver { token, bytes } => is_deliver(*token, bytes, other),
            Event::Act { job, failure } => is_act(*job, *failure, other),
            Event::Repeat {
                attach,
                token,
                status,
            } => is_repeat(*attach, *token, *status, other),
            Event::Catatonic { attach, fs } => is_catatonic(*attach, *fs, other),
            Event::AdminCatatonic { fs } => is_admin_catatonic(*fs, other),
            Event::Timeout {
                attach,
                fs,
                timeout,
            } => is_timeout(*attach, *fs, *timeout, other),
            Event::Die => is_die(other),
            Event::Reattach { fs } => is_reattach(*fs, other),
            Event::Record { trigger } => is_record(trigger, other),
        }
    }
}

fn is_attach(path: &Place, event: &Event) -> bool
    ensures { IsTrue result ↔ (events.Attach path.now ≡ event.now) }
{
    match event {
        Event::Attach { path: same_path } => path.is_same(same_path),
        _ => false,
    }
}

fn is_mount(ns: NsId, path: &Place, event: &Event) -> bool
    ensures { IsTrue result ↔ (events.Mount ns path.now ≡ event.now) }
{
    match event {
        Event::Mount {
            ns: same_ns,
            path: same_path,
        } => ns == *same_ns && path.is_same(same_path),
        _ => false,
    }
}

fn is_bind(ns: NsId, from: &Place, to: &Place, event: &Event) -> bool
    ensures { IsTrue result ↔ (events.Bind ns from.now to.now ≡ event.now) }
{
    match event {
        Event::Bind {
            ns: same_ns,
            from: same_from,
            to: same_to,
        } => ns == *same_ns && from.is_same(same_from) && to.is_same(same_to),
        _ => false,
    }
}

fn is_umount(ns: NsId, path: &Place, event: &Event) -> bool
    ensures { IsTrue result ↔ (events.Umount ns path.now ≡ event.now) }
{
    match event {
        Event::Umount {
            ns: same_ns,
            path: same_path,
        } => ns == *same_ns && path.is_same(same_path),
        _ => false,
    }
}

fn is_change(ns: NsId, path: &Place, change: Change, event: &Event) -> bool
    ensures { IsTrue result ↔ (events.Change ns path.now change ≡ event.now) }
{
    match event {
        Event::Change {
            ns: same_ns,
            path: same_path,
            change: same_change,
        } => ns == *same_ns && path.is_same(same_path) && change == *same_change,
        _ => false,
    }
}

fn is_kind(ns: NsId, path: &Place, event: &Event) -> bool
    ensures { IsTrue result ↔ (events.Kind ns path.now ≡ event.now) }
{
    match event {
        Event::Kind {
            ns: same_ns,
            path: same_path,
        } => ns == *same_ns && path.is_same(same_path),
        _ => false,
    }
}

fn is_copy_namespace(ns: NsId, form: CopyForm, event: &Event) -> bool
    ensures { IsTrue result ↔ (events.CopyNamespace ns form ≡ event.now) }
{
    match event {
        Event::CopyNamespace {
            ns: same_ns,
            form: same_form,
        } => ns == *same_ns && form == *same_form,
        _ => false,
    }
}

fn is_drop_namespace(ns: NsId, event: &Event) -> bool
    ensures { IsTrue result ↔ (events.DropNamespace ns ≡ event.now) }
{
    match event {
        Event::DropNamespace { ns: same_ns } => ns == *same_ns,
        _ => false,
    }
}

fn is_walk(
    walker: WalkerId,
    ns: NsId,
    path: &Place,
    now: Seconds,
    pipe: PipeState,
    event: &Event,
) -> bool
    ensures { IsTrue result ↔ (events.Walk walker ns path.now now pipe ≡ event.now) }
{
    match event {
        Event::Walk {
            walker: same_walker,
            ns: same_ns,
            path: same_path,
            now: same_now,
            pipe: same_pipe,
        } => walker == *same_walker
            && ns == *same_ns
            && path.is_same(same_path)
            && now == *same_now
            && pipe == *same_pipe,
        _ => false,
    }
}

fn is_resume(walker: WalkerId, now: Seconds, pipe: PipeState, event: &Event) -> bool
    ensures { IsTrue result ↔ (events.Resume walker now pipe ≡ event.now) }
{
    match event {
        Event::Resume {
            walker: same_walker,
            now: same_now,
            pipe: same_pipe,
        } => walker == *same_walker && now == *same_now && pipe == *same_pipe,
        _ => false,
    }
}

fn is_leave(walker: WalkerId, event: &Event) -> bool
    ensures { IsTrue result ↔ (events.Leave walker ≡ event.now) }
{
    match event {
        Event::Leave {
            walker: same_walker,
        } => walker == *same_walker,
        _ => false,
    }
}

fn is_expire(
    walker: WalkerId,
    fs: FsId,
    now: Seconds,
    immediate: bool,
    pipe: PipeState,
    event: &Event,
) -> bool
    ensures { IsTrue result ↔ (events.Expire walker fs now immediate pipe ≡ event.now) }
{
    match event {
        Event::Expire {
            walker: same_walker,
            fs: same_fs,
            now: same_now,
            immediate: same_immediate,
            pipe: same_pipe,
        } => walker == *same_walker
            && fs == *same_fs
            && now == *same_now
            && immediate == *same_immediate
            && pipe == *same_pipe,
        _ => false,
    }
}

fn copy_bytes(alloc: Global, bytes: &Option<PacketBytes>) -> Result<Option<PacketBytes>, AllocError>
    ensures { IfOk result (λ copy. copy ≡ bytes.now) }
{
    match bytes {
        None => Ok(None),
        Some(bytes) => Ok(Some(bytes.copy(alloc)?)),
    }
}

fn are_bytes(bytes: &Option<PacketBytes>, same: &Option<PacketBytes>) -> bool
    ensures { IsTrue result ↔ (bytes.now ≡ same.now) }
{
    match (bytes, same) {
        (None, None) => true,
        (Some(bytes), Some(same)) => bytes.is_same(same),
        (None, Some(_)) | (Some(_), None) => false,
    }
}

fn is_deliver(token: Token, bytes: &Option<PacketBytes>, event: &Event) -> bool
    ensures { IsTrue result ↔ (events.Deliver token bytes.now ≡ event.now) }
{
    match event {
        Event::Deliver {
            token: same_token,
            bytes: same_bytes,
        } => token == *same_token && are_bytes(bytes, same_bytes),
        _ => false,
    }
}

fn is_act(job: JobId, failure: Option<FailNo>, event: &Event) -> bool
    ensures { IsTrue result ↔ (events.Act job failure ≡ event.now) }
{
    match event {
        Event::Act {
            job: same_job,
            failure: same_failure,
        } => job == *same_job && failure == *same_failure,
        _ => false,
    }
}

fn is_repeat(attach: Attach, token: Token, status: Status, event: &Event) -> bool
    ensures { IsTrue result ↔ (events.Repeat attach token status ≡ event.now) }
{
    match event {
        Event::Repeat {
            attach: same_attach,
            token: same_token,
            status: same_status,
        } => attach == *same_attach && token == *same_token && status == *same_status,
        _ => false,
    }
}

fn is_catatonic(attach: Attach, fs: FsId, event: &Event) -> bool
    ensures { IsTrue result ↔ (events.Catatonic attach fs ≡ event.now) }
{
    match event {
        Event::Catatonic {
            attach: same_attach,
            fs: same_fs,
        } => attach == *same_attach && fs == *same_fs,
        _ => false,
    }
}

fn is_admin_catatonic(fs: FsId, event: &Event) -> bool
    ensures { IsTrue result ↔ (events.AdminCatatonic fs ≡ event.now) }
{
    match event {
        Event::AdminCatatonic { fs: same_fs } => fs == *same_fs,
        _ => false,
    }
}

fn is_timeout(attach: Attach, fs: FsId, timeout: u32, event: &Event) -> bool
    ensures { IsTrue result ↔ (events.Timeout attach fs timeout ≡ event.now) }
{
    match event {
        Event::Timeout {
            attach: same_attach,
            fs: same_fs,
            timeout: same_timeout,
        } => attach == *same_attach && fs == *same_fs && timeout == *same_timeout,
        _ => false,
    }
}

fn is_die(event: &Event) -> bool
    ensures { IsTrue result ↔ (events.Die ≡ event.now) }
{
    match event {
        Event::Die => true,
        _ => false,
    }
}

fn is_reattach(fs: FsId, event: &Event) -> bool
    ensures { IsTrue result ↔ (events.Reattach fs ≡ event.now) }
{
    match event {
        Event::Reattach { fs: same_fs } => fs == *same_fs,
        _ => false,
    }
}

fn is_record(trigger: &KeptTrigger, event: &Event) -> bool
    ensures { IsTrue result ↔ (events.Record trigger.now ≡ event.now) }
{
    match event {
        Event::Record {
            trigger: same_trigger,
        } => trigger.to_trigger().is_same(&same_trigger.to_trigger()),
        _ => false,
    }
}
