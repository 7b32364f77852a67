//! Mounts in rising order, of which there is mostly one.

ghost use Rattle.std.specs.Prelude.{◌≡◌, ◌≤◌, ◌++◌, ◌∷◌, [], OnOk, IfOk};
ghost use Rattle.std.specs.List.Sorted.{IsStrictlyIncreasing};
ghost use Rattle.am_mount.specs.Few.{mounts_in, HasRoomIn, but};

use am_names::MountId;
use am_ordered::Rows;
use std::alloc::{AllocError, Global};

/// Mounts in rising order. One alone takes no memory of its own, and neither does none.
#[derive(Drop)]
pub enum Few {
    /// No mount.
    Empty,
    /// One mount.
    One(MountId),
    /// Two or more, or those that are left of them.
    Many(Box<Rows<MountId>>),
}

/// The mount, and room for another.
fn one_of_two(mount: MountId, alloc: Global) -> Result<Rows<MountId>, AllocError>
    ensures { IfOk result (λ mounts. (mounts.rows ≡ mount ∷ []) × (1 ≤ mounts.room)) }
{
    let mut mounts = Rows::new(alloc);
    mounts.reserve(2)?;
    mounts.push_reserved(mount);
    Ok(mounts)
}

/// Takes the mount out of a list that rises, in which it is found by halves.
fn take_out_by_halves(mounts: &mut Rows<MountId>, mount: MountId)
    requires { IsStrictlyIncreasing mounts.old.rows }
    ensures { mounts.new.rows ≡ but mount mounts.old.rows }
{
    let number = mount.0;
    let found = mounts
        .as_slice()
        .binary_search_by_key(&number, |other| other.0);
    if let Ok(at) = found {
        mounts.take_out(at);
    }
}

/// Takes the mount out of a list that rises, at whose end the newest stands.
pub fn take_out(mounts: &mut Rows<MountId>, mount: MountId)
    requires { IsStrictlyIncreasing mounts.old.rows }
    ensures { mounts.new.rows ≡ but mount mounts.old.rows }
{
    if mounts.as_slice().last().copied() == Some(mount) {
        let _newest = mounts.pop();
        return;
    }
    take_out_by_halves(mounts, mount);
}

impl Few {
    /// The mounts.
    pub fn as_slice(&self) -> &[MountId]
        ensures { result.now ≡ mounts_in self.now }
    {
        match self {
            Few::Empty => &[],
            Few::One(mount) => std::slice::from_ref(mount),
            Few::Many(mounts) => mounts.as_slice(),
        }
    }

    /// Makes room for one more mount.
    pub fn make_room(&mut self, alloc: Global) -> Result<(), AllocError>
        ensures same { mounts_in self.new ≡ mounts_in self.old }
        ensures ok { OnOk result (HasRoomIn self.new) }
    {
        match self {
            Few::Empty => Ok(()),
            Few::One(mount) => {
                let mounts = one_of_two(*mount, alloc)?;
                *self = Few::Many(Box::new(alloc, mounts)?);
                Ok(())
            }
            Few::Many(mounts) => mounts.reserve(1),
        }
    }

    /// A mount behind the others, for which there is room.
    pub fn push_reserved(&mut self, mount: MountId)
        requires { HasRoomIn self.old }
        ensures { mounts_in self.new ≡ mounts_in self.old ++ mount ∷ [] }
    {
        match self {
            Few::Many(mounts) => mounts.push_reserved(mount),
            _ => *self = Few::One(mount),
        }
    }

    /// Takes the mount out of those that rise.
    pub fn take_out(&mut self, mount: MountId)
        requires { IsStrictlyIncreasing (mounts_in self.old) }
        ensures { mounts_in self.new ≡ but mount (mounts_in self.old) }
    {
        match self {
            Few::Empty => {}
            Few::One(one) => {
                if *one == mount {
                    *self = Few::Empty;
                }
            }
            Few::Many(mounts) => take_out(mounts, mount),
        }
    }
}
