//! Which events of a script are drawn, and how wide the picture is.

ghost use Rattle.std.specs.Prelude.{◌≡◌, ◌+◌, ◌-◌, ◌<◌, ◌≤◌, ◌^◌};
ghost use Rattle.am_draw.specs.Parts.{most_rows, most_lanes, part_of, is_drawn, is_past, rows_shown, rows_a_title, titles_among, titles_before, has_titles, tall, row_y, wide};

use am_names::Seconds;

/// The most rows of a picture.
pub const MOST_ROWS: u64 = 1_000_000;

/// The most lanes of walkers, and of tokens.
pub const MOST_LANES: u64 = 1_000_000;

/// Each so many rows the titles of the columns stand once more.
const ROWS_A_TITLE: u64 = 40;

/// How large the picture of a whole script is.
#[derive(Clone, Copy)]
pub struct Size {
    /// How many events there are.
    pub events: u64,
    /// How many lanes of walkers.
    pub walkers: u64,
    /// How many lanes of tokens.
    pub tokens: u64,
    /// How many lanes of file systems that are catatonic.
    pub systems: u64,
    /// How many lanes of the daemon: one if it dies.
    pub daemon: u64,
    /// How many lanes of failures that last.
    pub failures: u64,
    /// For how many seconds a failure lasts.
    pub negative: Seconds,
}

/// Which of the events are drawn.
#[derive(Clone, Copy)]
pub struct Part {
    /// So many events before them aren't.
    pub skipped: u64,
    /// At most `MOST_ROWS`.
    pub rows: u64,
    /// Of all of them.
    pub size: Size,
}

/// Of the events those from one number to another are drawn, but at most so many.
pub fn part_of(first: u64, last: u64, size: Size) -> Part
    ensures part { result ≡ part_of first last size }
    ensures rows { result.rows ≤ most_rows }
{
    let skipped = first.saturating_sub(1);
    let rows = last.min(size.events).saturating_sub(skipped);
    Part {
        skipped,
        rows: rows.min(MOST_ROWS),
        size,
    }
}

/// Room for so many lanes, but for no less than this, and at most for `MOST_LANES`.
pub(crate) fn wide(least: u64, lanes: u64) -> u64
    requires { least ≤ most_lanes }
    ensures wide { result ≡ wide least lanes }
    ensures least { least ≤ result }
    ensures most { result ≤ most_lanes }
{
    if lanes < least {
        return least;
    }
    if MOST_LANES < lanes {
        return MOST_LANES;
    }
    lanes
}

/// How often the titles stand among so many rows, before which so many events are skipped.
fn titles_among(skipped: u64, rows: u64) -> u64
    ensures titles { result ≡ titles_among skipped rows }
    ensures few { result ≤ 1 + rows }
{
    skipped.min(1) + rows.saturating_sub(1) / ROWS_A_TITLE
}

/// How often they stand above the row of the event with this number.
pub(crate) fn titles_before(skipped: u64, number: u64) -> u64
    ensures titles { result ≡ titles_before skipped number }
    ensures few { result ≤ 1 + (number - skipped) }
{
    titles_among(skipped, number.saturating_sub(skipped))
}

/// How many rows' heights so many rows take.
pub(crate) fn tall(skipped: u64, rows: u64) -> u64
    requires { rows ≤ most_rows }
    ensures tall { result ≡ tall skipped rows }
    ensures most { result ≤ 2000001 }
{
    rows + titles_among(skipped, rows)
}

impl Part {
    /// Whether the titles stand at the top of this event's row.
    pub fn has_titles(&self, number: u64) -> bool
        ensures { result ≡ has_titles self.now.skipped number }
    {
        1 < number && number.saturating_sub(self.skipped).saturating_sub(1) % ROWS_A_TITLE == 0
    }

    /// Whether the event with this number is drawn.
    pub fn is_drawn(&self, number: u64) -> bool
        ensures { result ≡ is_drawn self.now number }
    {
        !self.is_past(number) && self.skipped < number
    }

    /// Whether the event with this number comes after those that are drawn.
    pub fn is_past(&self, number: u64) -> bool
        ensures { result ≡ is_past self.now number }
    {
        self.rows < number.saturating_sub(self.skipped)
    }

    /// How many rows are drawn of so many events that have come.
    pub fn rows_shown(&self, events: u64) -> u64
        ensures shown { result ≡ rows_shown self.now events }
        ensures most { result ≤ self.now.rows }
        ensures fits { self.now.skipped + result < 2 ^ 64 }
    {
        let come = events.saturating_sub(self.skipped);
        if self.rows < come {
            return self.rows;
        }
        come
    }

    /// The top of the event's row, in pixels.
    pub fn row_y(&self, number: u64) -> u64
        requires { number - self.now.skipped ≤ most_rows }
        ensures { result ≡ row_y self.now number }
    {
        let before = number.saturating_sub(self.skipped).saturating_sub(1);
        118 + 26 * (before + titles_before(self.skipped, number))
    }
}
