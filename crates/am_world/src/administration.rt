//! What the administrator does.

ghost use Rattle.am_machine.specs.{attach_outcome, mount_outcome, bind_outcome, umount_outcome, change_outcome, kind_outcome, copy_outcome, drop_outcome};
ghost use Rattle.am_world.specs.Machine.{whole_state, Yields};

use crate::machine::Machine;
use am_group::Change;
use am_machine::Answer;
use am_names::{Errno, MountIds, NsId, Place};
use am_propagate::CopyForm;
use std::alloc::Global;

impl Machine {
    /// An autofs is mounted at a point of the master, and the daemon attaches to it.
    pub fn attach(&mut self, alloc: Global, path: &Place) -> Result<Answer, Errno>
        ensures { Yields (attach_outcome (whole_state self.old) path.now)
            (whole_state self.old) result (whole_state self.new) }
    {
        let Some(point) = self.daemon.point(path) else {
            return Err(Errno::ENOENT);
        };
        if self.daemon.is_attached(path) {
            return Err(Errno::EEXIST);
        }
        let timeout = self.daemon.timeout(point.entry);
        let place = path.copy(alloc)?;
        self.daemon.reserve_attach()?;
        let made = self.kernel.attach_autofs(
            alloc,
            &path.path(),
            point.direct,
            timeout,
            &mut self.trace,
        )?;
        self.daemon.attached_reserved(made.fs, made.attach, place);
        Ok(Answer::Attached {
            fs: made.fs,
            attach: made.attach,
            mount: made.mount,
        })
    }

    /// A new plain file system is mounted.
    pub fn mount(&mut self, alloc: Global, ns: NsId, path: &Place) -> Result<Answer, Errno>
        ensures { Yields (mount_outcome (whole_state self.old) ns path.now)
            (whole_state self.old) result (whole_state self.new) }
    {
        let mount = self
            .kernel
            .mount_plain(alloc, ns, &path.path(), &mut self.trace)?;
        Ok(Answer::Mount { mount })
    }

    /// What another has mounted is mounted at one path more.
    pub fn bind(
        &mut self,
        alloc: Global,
        ns: NsId,
        from: &Place,
        to: &Place,
    ) -> Result<Answer, Errno>
        ensures { Yields (bind_outcome (whole_state self.old) ns from.now to.now)
            (whole_state self.old) result (whole_state self.new) }
    {
        let mount = self
            .kernel
            .bind(alloc, ns, &from.path(), &to.path(), &mut self.trace)?;
        Ok(Answer::Mount { mount })
    }

    /// A mount goes, and what was mounted with it.
    pub fn umount(&mut self, alloc: Global, ns: NsId, path: &Place) -> Result<Answer, Errno>
        ensures { Yields (umount_outcome (whole_state self.old) ns path.now)
            (whole_state self.old) result (whole_state self.new) }
    {
        let gone = self
            .kernel
            .umount_plain(alloc, ns, &path.path(), &mut self.trace)?;
        Ok(Answer::Gone {
            mounts: MountIds::of(gone),
        })
    }

    /// A mount takes part in propagation in another way.
    pub fn change(
        &mut self,
        alloc: Global,
        ns: NsId,
        path: &Place,
        change: Change,
    ) -> Result<Answer, Errno>
        ensures { Yields (change_outcome (whole_state self.old) ns path.now change)
            (whole_state self.old) result (whole_state self.new) }
    {
        self.kernel.change(alloc, ns, &path.path(), change)?;
        Ok(Answer::Done)
    }

    /// How a mount takes part in propagation.
    pub fn kind(&self, alloc: Global, ns: NsId, path: &Place) -> Result<Answer, Errno>
        ensures { Yields (kind_outcome (whole_state self.now) ns path.now)
            (whole_state self.now) result (whole_state self.now) }
    {
        let kind = self.kernel.kind(alloc, ns, &path.path())?;
        Ok(Answer::Kind { kind })
    }

    /// A namespace is copied, in full or reduced.
    pub fn copy_namespace(
        &mut self,
        alloc: Global,
        ns: NsId,
        form: CopyForm,
    ) -> Result<Answer, Errno>
        ensures { Yields (copy_outcome (whole_state self.old) ns form)
            (whole_state self.old) result (whole_state self.new) }
    {
        let ns = self.kernel.ns_copy(alloc, ns, form, &mut self.trace)?;
        Ok(Answer::Namespace { ns })
    }

    /// A namespace is dropped.
    pub fn drop_namespace(&mut self, alloc: Global, ns: NsId) -> Result<Answer, Errno>
        ensures { Yields (drop_outcome (whole_state self.old) ns)
            (whole_state self.old) result (whole_state self.new) }
    {
        let gone = self.kernel.ns_drop(alloc, ns, &mut self.trace)?;
        Ok(Answer::Gone {
            mounts: MountIds::of(gone),
        })
    }
}
