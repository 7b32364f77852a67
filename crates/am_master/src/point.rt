//! Where an autofs is mounted.

ghost use Rattle.std.specs.Prelude.{◌≡◌, ◌↔◌, IsTrue, IfOk};

use am_names::Place;
use std::alloc::{AllocError, Global};

/// The mount point of a line (auto.master(5), "FORMAT").
#[derive(Debug, Drop)]
pub enum Point {
    /// `/-`: each path of the direct map is a mount point of its own.
    Direct,
    /// The path of an indirect map, never the root.
    Indirect(Place),
}

impl Point {
    /// The same point once more.
    pub fn copy(&self, alloc: Global) -> Result<Point, AllocError>
        ensures { IfOk result (λ point. point ≡ self.now) }
    {
        match self {
            Point::Direct => Ok(Point::Direct),
            Point::Indirect(path) => Ok(Point::Indirect(path.copy(alloc)?)),
        }
    }

    /// Whether both are the same point.
    pub fn is_same(&self, other: &Point) -> bool
        ensures { IsTrue result ↔ (self.now ≡ other.now) }
    {
        match (self, other) {
            (Point::Direct, Point::Direct) => true,
            (Point::Indirect(path), Point::Indirect(other)) => path.is_same(other),
            (Point::Direct, Point::Indirect(_)) | (Point::Indirect(_), Point::Direct) => false,
        }
    }
}
