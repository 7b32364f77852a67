//! What the queue of a pipe holds, and what each end knows of it.

use crate::note::Note;
use crossbeam_queue::RuledArrayQueue;
use crossbeam_queue::protocol::{Join, Lesson, Outcome, Protocol, Split};
use std::collections::LinkedList;

/// The queue: notes with their positions.
pub type Queue = RuledArrayQueue<(u64, Note), EndView, InOrder>;

/// What an end knows: whether it puts, how many take ends were made, how many of these it stands
/// for, what it put and what it took. Proofs alone speak of it, and no value of it is made.
pub struct EndView {
    pub puts: bool,
    pub made: u64,
    pub parts: u64,
    pub sent: LinkedList<Note>,
    pub got: LinkedList<(u64, Note)>,
}

/// The queue holds what was put, in order, without what was taken.
pub struct InOrder;

impl Protocol<(u64, Note), EndView> for InOrder {
    ghost use Rattle.std.specs.Prelude.{true, []};
    ghost use Rattle.am_pipe.specs.Rule.{end_view, IsPipe};

    ghost holds = { IsPipe };

    ghost first = { end_view true 0 0 [] [] };
}

/// A take end is made, or is given up to the put end.
pub struct Ends;

impl Split<EndView> for Ends {
    ghost use Rattle.std.specs.Prelude.{false, [], ◌+◌};
    ghost use Rattle.am_pipe.specs.Rule.{end_view};

    ghost left = { λ v. end_view v.puts (v.made + 1) v.parts v.sent v.got };

    ghost right = { λ v. end_view false 0 1 [] [] };
}

impl Join<EndView> for Ends {
    ghost use Rattle.std.specs.Prelude.{false, [], ◌+◌, ◌++◌};
    ghost use Rattle.am_pipe.specs.Rule.{end_view};

    ghost both = { λ v w. end_view v.puts v.made (v.parts + w.parts) v.sent (v.got ++ w.got) };

    ghost spent = { end_view false 0 0 [] [] };
}

/// The put end puts a note.
pub struct Put;

impl Outcome<(u64, Note), EndView> for Put {
    ghost use Rattle.am_pipe.specs.Rule.{Puts};

    ghost then = { Puts };
}

impl Lesson<(u64, Note), EndView> for Put {
    ghost use Rattle.am_pipe.specs.Rule.{HoldsRest};

    ghost fact = { HoldsRest };
}

/// A take end takes a note.
pub struct Take;

impl Outcome<(u64, Note), EndView> for Take {
    ghost use Rattle.am_pipe.specs.Rule.{Takes};

    ghost then = { Takes };
}

impl Lesson<(u64, Note), EndView> for Take {
    ghost use Rattle.std.specs.Prelude.{⊤};

    ghost fact = { λ v items. ⊤ };
}

/// The put end takes a note, once it stands for all take ends.
pub struct Whole;

impl Outcome<(u64, Note), EndView> for Whole {
    ghost use Rattle.am_pipe.specs.Rule.{Takes};

    ghost then = { Takes };
}

impl Lesson<(u64, Note), EndView> for Whole {
    ghost use Rattle.am_pipe.specs.Rule.{KnowsAll};

    ghost fact = { KnowsAll };
}
