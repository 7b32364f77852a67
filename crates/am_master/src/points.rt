//! The mount points of the lines that have been read, each of which may stand on one line only.

ghost use Rattle.std.specs.Prelude.{◌≡◌, ◌++◌, [], false, IfOk, OnOk, OnErr};
ghost use Rattle.std.specs.Str.{bytes_eq};
ghost use Rattle.std.specs.List.{list_any};
ghost use Rattle.std.specs.Map.{lookup};
ghost use Rattle.am_master.specs.Places.{IsNamed, is_placed, placed_at};

use crate::point::Point;
use indexmap::IndexMap;
use std::alloc::{AllocError, Global};
use std::marker::Model;

/// The places of lines, each under the canonical text of its indirect point.
#[derive(Debug, Drop)]
pub(crate) struct Points {
    places: IndexMap<Vec<u8>, usize>,
}

impl Model for Points {
    ghost use Rattle.std.specs.Prelude.{List, map};
    ghost use Rattle.am_master.specs.Places.{Placed};

    ghost Value = { List Placed };

    ghost view = { λ p. map (λ e. (e.0.items, e.1)) p.places.entries };
}

impl Points {
    /// No points.
    pub(crate) fn new(alloc: Global) -> Points
        ensures { result ≡ [] }
    {
        Points {
            places: IndexMap::new(alloc),
        }
    }

    /// The same points once more.
    #[tactic(auto, using(crate::proofs::CopyLemmas::same_points))]
    pub(crate) fn copy(&self) -> Result<Points, AllocError>
        ensures { IfOk result (λ copy. copy ≡ self.now) }
    {
        Ok(Points {
            places: self.places.clone()?,
        })
    }

    /// Whether a point has this text.
    pub(crate) fn has(&self, text: &[u8]) -> bool
        ensures { result ≡ list_any (λ p. bytes_eq text.now p.0) self.now }
    {
        self.places.contains_key(text)
    }

    /// The place of the line whose point has this text.
    pub(crate) fn line_at(&self, text: &[u8]) -> Option<usize>
        ensures { result ≡ lookup (bytes_eq text.now) self.now }
    {
        self.places.get(text).copied()
    }

    /// Adds a new point, of the line at this place. Nothing changes where memory runs out.
    pub(crate) fn add(&mut self, alloc: Global, point: &Point, at: usize) -> Result<(), AllocError>
        requires { is_placed self.old point.now ≡ false }
        ensures ok { OnOk result (self.new ≡ self.old ++ placed_at at point.now) }
        ensures named { OnOk result (IsNamed point.now) }
        ensures err { OnErr result (self.new ≡ self.old) }
    {
        if let Point::Indirect(path) = point {
            let text = Vec::from_slice(alloc, path.text())?;
            self.places.insert(text, at)?;
        }
        Ok(())
    }
}
