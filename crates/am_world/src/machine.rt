//! The two halves of a world, and what they make of each event.

ghost use Rattle.std.specs.Prelude.{◌≡◌, IfOk};
ghost use Rattle.am_machine.specs.{outcome_of};
ghost use Rattle.am_world.specs.Machine.{whole_state, Yields};

use am_daemon::Daemon;
use am_kernel::Kernel;
use am_machine::{Answer, Event};
use am_names::Errno;
use am_state::Obs;
use std::alloc::{AllocError, Global};

/// The kernel's half and the daemon's, and what was observed.
#[derive(Drop)]
pub struct Machine {
    pub kernel: Kernel,
    pub daemon: Daemon,
    pub trace: Vec<Obs>,
}

/// The same observations once more.
fn copies_of(alloc: Global, trace: &[Obs]) -> Result<Vec<Obs>, AllocError>
    ensures { IfOk result (λ copies. copies.items ≡ trace.now) }
{
    let mut copies = Vec::with_capacity(alloc, trace.len())?;
    for obs in trace {
        copies.push(obs.copy(alloc)?)?;
    }
    Ok(copies)
}

impl Machine {
    /// The same halves once more, with the same observations.
    pub fn copy(&self, alloc: Global) -> Result<Machine, AllocError>
        ensures { IfOk result (λ copy. whole_state copy ≡ whole_state self.now) }
    {
        // The kernel comes last, so that no early return lets it go.
        let trace = copies_of(alloc, self.trace.as_slice())?;
        let daemon = self.daemon.copy(alloc)?;
        let kernel = self.kernel.copy(alloc)?;
        Ok(Machine {
            kernel,
            daemon,
            trace,
        })
    }

    /// What becomes of an event.
    pub fn handle(&mut self, alloc: Global, event: &Event) -> Result<Answer, Errno>
        ensures { Yields (outcome_of (whole_state self.old) event.now)
            (whole_state self.old) result (whole_state self.new) }
    {
        match event {
            Event::Attach { path } => self.attach(alloc, path),
            Event::Mount { ns, path } => self.mount(alloc, *ns, path),
            Event::Bind { ns, from, to } => self.bind(alloc, *ns, from, to),
            Event::Umount { ns, path } => self.umount(alloc, *ns, path),
            Event::Change { ns, path, change } => self.change(alloc, *ns, path, *change),
            Event::Kind { ns, path } => self.kind(alloc, *ns, path),
            Event::CopyNamespace { ns, form } => self.copy_namespace(alloc, *ns, *form),
            Event::DropNamespace { ns } => self.drop_namespace(alloc, *ns),
            Event::Walk {
                walker,
                ns,
                path,
                now,
                pipe,
            } => self.walk(alloc, *walker, *ns, path, *now, *pipe),
            Event::Resume { walker, now, pipe } => self.resume(alloc, *walker, *now, *pipe),
            Event::Leave { walker } => self.leave(*walker),
            Event::Expire {
                walker,
                fs,
                now,
                immediate,
                pipe,
            } => self.expire(alloc, *walker, *fs, *now, *immediate, *pipe),
            Event::Deliver { token, bytes } => self.deliver(alloc, *token, bytes),
            Event::Act { job, failure } => self.act(alloc, *job, *failure),
            Event::Repeat {
                attach,
                token,
                status: _,
            } => Err(self.repeat(*attach, *token)),
            Event::Catatonic { attach, fs } => self.catatonic(alloc, *attach, *fs),
            Event::AdminCatatonic { fs } => self.admin_catatonic(alloc, *fs),
            Event::Timeout {
                attach,
                fs,
                timeout,
            } => self.set_timeout(*attach, *fs, *timeout),
            Event::Die => self.die(),
            Event::Reattach { fs } => self.reattach(alloc, *fs),
            Event::Record { trigger } => self.read_book(&trigger.to_trigger()),
        }
    }
}
