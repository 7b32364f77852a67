//! Who tells how far a search is.

ghost use Rattle.std.specs.Prelude.{◌≡◌};
ghost use Rattle.am_cli.specs.Telling.{Tells, tally_told};

use crate::telling::tell_tally;
use am_explore::{Tally, Watch};
use std::io::{IsTerminal, Write};
use std::time::{Clock, Duration, Instant};

/// Tells on a terminal, each second, how far a search is, and nowhere else.
#[derive(Drop)]
pub struct Reporter<'a, C: Clock, E: Write> {
    clock: &'a C,
    errors: E,
    /// When it told last, or began; none where it tells nothing.
    last: Option<Instant>,
}

impl<'a, C: Clock, E: Write + IsTerminal> Reporter<'a, C, E> {
    /// One that tells, if this is a terminal.
    pub fn new(clock: &'a C, errors: E) -> Reporter<'a, C, E> {
        let last = if errors.is_terminal() {
            Instant::now(clock).ok()
        } else {
            None
        };
        Reporter {
            clock,
            errors,
            last,
        }
    }
}

impl<C: Clock, E: Write> Reporter<'_, C, E> {
    /// Whether a second has passed since it told last.
    fn is_due(&mut self) -> bool
        ensures { self.new.errors ≡ self.old.errors }
    {
        let Some(last) = self.last else {
            return false;
        };
        let Ok(now) = Instant::now(self.clock) else {
            return false;
        };
        if now.duration_since(last) < Duration::from_secs(1) {
            return false;
        }
        self.last = Some(now);
        true
    }
}

impl<C: Clock, E: Write> Watch for Reporter<'_, C, E> {
    fn saw(&mut self, tally: &Tally)
        ensures { Tells (E.contents self.old.errors) (E.contents self.new.errors)
            (tally_told tally.now) }
    {
        if self.is_due() {
            tell_tally(&mut self.errors, tally);
        }
    }
}
