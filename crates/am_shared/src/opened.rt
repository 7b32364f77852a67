//! What a shared world began with.

use std::marker::Brand;

/// One shared world, which began with this opening, with the put end of this pipe, which has so many
/// take ends and room for so many notes, and with this history, which so many callers share, and what
/// it keeps. Proofs alone speak of it: the call of `share` picks what it is handed.
pub trait Opened {
    ghost use Rattle.std.specs.Prelude.{ℕ};
    ghost use Rattle.atomic_table.specs.Seated.{TableId};
    ghost use Rattle.am_machine.specs.{Setup};
    ghost use Rattle.am_shared.specs.declared.keep.Keep.{Keep};

    ghost opening: { Setup };

    ghost pipe: { TableId };

    ghost takers: { ℕ };

    ghost room: { ℕ };

    ghost logbook: { TableId };

    ghost callers: { ℕ };

    ghost keep: { Keep };
}

impl Opened for Brand {
    ghost use Rattle.std.specs.Prelude.{[]};
    ghost use Rattle.am_shared.specs.declared.keep.Keep.TheVariants.{All};
    ghost use Rattle.am_shared.specs.Opening.{no_table};

    ghost opening = { record {
      limits = record { mounts = 0; waiters = 0; tokens = 0; negative = 0 };
      master = [];
      maps = [];
    } };

    ghost pipe = { no_table };

    ghost takers = { 0 };

    ghost room = { 0 };

    ghost logbook = { no_table };

    ghost callers = { 0 };

    ghost keep = { All };
}
