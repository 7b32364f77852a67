//! What is looked up of mounts while they are printed.

ghost use Rattle.std.specs.Prelude.{IfOk};
ghost use Rattle.am_mountinfo.specs.Tables.{AreTables};

use crate::attachments::Attachments;
use crate::paths::Paths;
use crate::peers::Peers;
use crate::residents::Residents;
use am_world::World;
use std::alloc::{AllocError, Global};

/// Gathered before anything is printed, so that no memory is wanted behind it.
#[derive(Drop)]
pub struct Tables<'a> {
    pub paths: Paths,
    pub peers: Peers,
    pub residents: Residents<'a>,
    pub attachments: Attachments,
}

impl<'a> Tables<'a> {
    /// Those of a world.
    pub fn of(alloc: Global, world: &'a World) -> Result<Tables<'a>, AllocError>
        ensures { IfOk result (λ tables. AreTables tables world.now.kernel) }
    {
        Ok(Tables {
            paths: Paths::of(alloc, world.mounts())?,
            peers: Peers::of(alloc, world)?,
            residents: Residents::of(alloc, world.mounts())?,
            attachments: Attachments::of(alloc, world.attached())?,
        })
    }
}
