//! What a shared world keeps of what was.

ghost use Rattle.std.specs.Prelude.{◌≡◌};
ghost use Rattle.am_shared.specs.Keeping.{keeps_seen};

/// What a shared world keeps. What it doesn't keep is as much a part of what contracts speak of.
#[derive(Clone, Copy)]
pub enum Keep {
    /// All that was observed, and all events with their answers.
    All,
    /// All events with their answers, and what was observed of the last one.
    Events,
    /// What was observed of the last event, and the events with their answers until they are taken.
    Nothing,
}

impl Keep {
    /// Whether all that was observed is kept.
    pub fn has_seen(self) -> bool
        ensures { result ≡ keeps_seen self }
    {
        matches!(self, Keep::All)
    }
}
