//! The numbers of a pipe that its ends share: how many notes were taken, whether it is closed, and how
//! many notes were put.

use atomic_table::{Play, Seat, Split, Table, TableRule};
use std::alloc::Global;

/// The numbers of one pipe. The first counts the takes that are over, the second is 1 once the pipe is
/// closed, and the third counts the puts that are over.
pub type Meter = Table<(), MeterView, (), Counts, Global>;

/// An end's right to read and count on a meter.
pub type MeterSeat = Seat<(), MeterView>;

/// What an end knows of the numbers: how many takes and how many puts it counted, how often it looked,
/// how many puts and how many takes it found over then, and whether it found the pipe closed. The put
/// end looks at the takes; a take end looks at the puts, and then at the takes. Proofs alone speak of
/// it, and no value of it is made.
pub struct MeterView {
    pub took: u64,
    pub put: u64,
    pub looks: u64,
    pub seen: u64,
    pub freed: u64,
    pub over: bool,
}

/// The first number is that of all takes that the ends counted, and the third that of all puts.
pub struct Counts;

impl TableRule<(), MeterView, ()> for Counts {
    ghost use Rattle.am_pipe.specs.Meter.{IsMeter, fresh_view};

    ghost holds = { λ _ s. IsMeter s };

    ghost first = { λ _. fresh_view };
}

/// A seat for one end more.
pub struct Seats;

impl Split<MeterView> for Seats {
    ghost use Rattle.am_pipe.specs.Meter.{fresh_view};

    ghost left = { λ v. v };

    ghost right = { λ v. fresh_view };
}

/// The put end reads the first number: how many takes are over.
pub struct ReadsCount;

impl Play<(), MeterView> for ReadsCount {
    ghost use Rattle.std.specs.Prelude.{◌≡◌};
    ghost use Rattle.am_pipe.specs.Meter.{looked};

    ghost then = { λ st me n me'. (st.word ≡ 0) × (me'.0 ≡ looked me.0 n) };
}

/// A take end counts a take, on the first number.
pub struct CountsTake;

impl Play<(), MeterView> for CountsTake {
    ghost use Rattle.std.specs.Prelude.{◌≡◌};
    ghost use Rattle.am_pipe.specs.Meter.{freed_one};

    ghost then = { λ st me n me'. (st.word ≡ 0) × (me'.0 ≡ freed_one me.0) };
}

/// The put end counts a put, on the third number.
pub struct CountsPut;

impl Play<(), MeterView> for CountsPut {
    ghost use Rattle.std.specs.Prelude.{◌≡◌};
    ghost use Rattle.am_pipe.specs.Meter.{put_one};

    ghost then = { λ st me n me'. (st.word ≡ 2) × (me'.0 ≡ put_one me.0) };
}

/// A take end reads the third number: how many puts are over. Of takes it has read none yet then.
pub struct ReadsPuts;

impl Play<(), MeterView> for ReadsPuts {
    ghost use Rattle.std.specs.Prelude.{◌≡◌};
    ghost use Rattle.am_pipe.specs.Meter.{asked};

    ghost then = { λ st me n me'. (st.word ≡ 2) × (me'.0 ≡ asked me.0 n) };
}

/// Then it reads the first number: how many takes are over.
pub struct ReadsTakes;

impl Play<(), MeterView> for ReadsTakes {
    ghost use Rattle.std.specs.Prelude.{◌≡◌};
    ghost use Rattle.am_pipe.specs.Meter.{told};

    ghost then = { λ st me n me'. (st.word ≡ 0) × (me'.0 ≡ told me.0 n) };
}

/// A take end reads the second number: whether the pipe is closed.
pub struct ReadsEnd;

impl Play<(), MeterView> for ReadsEnd {
    ghost use Rattle.std.specs.Prelude.{◌≡◌};
    ghost use Rattle.am_pipe.specs.Meter.{ended};

    ghost then = { λ st me n me'. (st.word ≡ 1) × (me'.0 ≡ ended me.0 n) };
}

/// The pipe is closed: the second number becomes 1.
pub struct Closes;

impl Play<(), MeterView> for Closes {
    ghost use Rattle.std.specs.Prelude.{◌≡◌};

    ghost then = { λ st me n me'. (st.word ≡ 1) × (st.first ≡ 1) };
}
