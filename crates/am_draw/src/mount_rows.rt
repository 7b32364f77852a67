//! Rows of mounts in which one is found.

ghost use Rattle.std.specs.Prelude.{◌≡◌, option_copied};
ghost use Rattle.std.specs.Bool.{OnTrue};
ghost use Rattle.am_mount.specs.{IsRising, mount_row};
ghost use Rattle.am_draw.specs.Trees.{tree_rows};

use am_names::{MountId, MountRow};
use am_world::World;
use std::marker::Model;

/// Rows that were copied before an event, and whether they rise by number.
#[derive(Drop)]
pub struct RowsBefore<'a> {
    rows: &'a [MountRow],
    rising: bool,
}

impl<'a> Model for RowsBefore<'a> {
    ghost use Rattle.std.specs.Prelude.{List};
    ghost use Rattle.std.specs.Bool.{OnTrue};
    ghost use Rattle.am_names.specs.{MountRow};
    ghost use Rattle.am_mount.specs.{IsRising};

    ghost Value = { List MountRow };

    ghost view = { λ r. r.rows.now };

    ghost invariant = { λ r. OnTrue r.rising (IsRising r.rows.now) };
}

/// Whether rows rise by number, as those of a world do.
fn are_rising(rows: &[MountRow]) -> bool
    ensures { OnTrue result (IsRising rows.now) }
{
    let mut low = 0;
    for row in rows {
        if row.mount.0 < low || row.mount.0 == u64::MAX {
            return false;
        }
        low = row.mount.0 + 1;
    }
    true
}

/// The mount's row. The rows rise by number, so that halves of them are left out at a time.
fn row_by_halves(rows: &[MountRow], mount: MountId) -> Option<&MountRow>
    requires { IsRising rows.now }
    ensures { option_copied result ≡ mount_row rows.now mount }
{
    let number = mount.0;
    match rows.binary_search_by_key(&number, |row| row.mount.0) {
        Ok(at) => Some(&rows[at]),
        Err(_) => None,
    }
}

fn row_among(rows: &[MountRow], mount: MountId) -> Option<&MountRow>
    ensures { option_copied result ≡ mount_row rows.now mount }
{
    rows.iter().find(|row| row.mount == mount)
}

impl<'a> RowsBefore<'a> {
    /// The rows that were copied.
    pub fn of(rows: &'a [MountRow]) -> RowsBefore<'a>
        ensures { result ≡ rows.now }
    {
        RowsBefore {
            rows,
            rising: are_rising(rows),
        }
    }

    /// The row of a mount.
    fn row(&self, mount: MountId) -> Option<&'a MountRow>
        ensures { option_copied result ≡ mount_row self.now mount }
    {
        if self.rising {
            return row_by_halves(self.rows, mount);
        }
        row_among(self.rows, mount)
    }
}

/// The rows of mounts: copies of those before an event, or those of the world behind it.
#[derive(Drop)]
pub enum MountRows<'a> {
    Before(RowsBefore<'a>),
    Behind(&'a World),
}

/// The row of a mount, which is found by halves.
pub(crate) fn row_of<'a>(rows: &MountRows<'a>, mount: MountId) -> Option<&'a MountRow>
    ensures { option_copied result ≡ mount_row (tree_rows rows.now) mount }
{
    match rows {
        MountRows::Before(rows) => rows.row(mount),
        MountRows::Behind(world) => world.mount_row(mount),
    }
}
