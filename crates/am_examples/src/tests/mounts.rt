//! For the author of a mount layer: what propagates, and where to.

use am_group::Change;
use am_names::{AbsPath, Errno, FsId, MountId, NsId, Position};
use am_propagate::{CopyForm, InUse, Subtree};
use std::alloc::Global;
use std::test::Fail;

/// The one mount that a process is inside of.
#[derive(Drop)]
struct Inside {
    mount: MountId,
}

impl InUse for Inside {
    ghost use Rattle.std.specs.Prelude.{◌==◌};

    ghost uses = { λ inside mount. inside.mount == mount };

    fn in_use(&self, mount: MountId) -> bool {
        self.mount == mount
    }
}

/// Namespace 0 with its root, mount 1, and namespace 1 with a copy of it, mount 2. The two are peers:
/// what is mounted on one arrives on the other.
fn two_namespaces(alloc: Global) -> Result<Subtree, Errno> {
    let mut subtree = Subtree::new(alloc, 1_000)?;
    subtree.change(Change::MakeShared, MountId(1))?;
    subtree.copy_namespace(alloc, NsId(0), CopyForm::Full)?;
    Ok(subtree)
}

/// Mounts file system 2 at `/srv` in namespace 0, and tells all mounts that came.
fn mount_srv(alloc: Global, subtree: &mut Subtree) -> Result<Vec<MountId>, Errno> {
    let at = Position {
        mount: MountId(1),
        place: AbsPath::read(b"/srv")?.to_place(alloc)?,
    };
    subtree.mount(alloc, &at, FsId(2))
}

/// Unmounts a mount while a process is inside another, and tells all mounts that went.
fn umount(
    alloc: Global,
    subtree: &mut Subtree,
    mount: u64,
    inside: u64,
) -> Result<Vec<MountId>, Errno> {
    let inside = Inside {
        mount: MountId(inside),
    };
    subtree.umount(alloc, MountId(mount), &inside)
}

#[test]
fn a_mount_arrives_in_both_namespaces(rt: HostRuntime) -> Result<(), Fail> {
    let mut subtree = two_namespaces(rt.alloc())?;
    let came = mount_srv(rt.alloc(), &mut subtree)?;
    assert!(rt; came.as_slice() == [MountId(3), MountId(4)].as_slice());
    Ok(())
}

#[test]
fn a_copy_in_use_keeps_the_mount(rt: HostRuntime) -> Result<(), Fail> {
    let mut subtree = two_namespaces(rt.alloc())?;
    mount_srv(rt.alloc(), &mut subtree)?;
    let refused = umount(rt.alloc(), &mut subtree, 3, 4);
    assert!(rt; matches!(refused, Err(Errno::EBUSY)));
    let gone = umount(rt.alloc(), &mut subtree, 3, 1)?;
    assert!(rt; gone.as_slice() == [MountId(3), MountId(4)].as_slice());
    Ok(())
}
