//! What is true of the words of each line.

ghost use Rattle.std.specs.Prelude.{◌≡◌, ◌-◌, ◌∷◌, ◌++◌, ℕ, List, true, codes, drop};
ghost use Rattle.std.specs.List.{All, list_all};
ghost use Rattle.am_lines.specs.{lines_from};
ghost use Rattle.am_diagnosis.specs.Columns.{IsColumn};
ghost use Rattle.am_diagnosis.specs.Events.{event_misfit, IsEvent};
ghost use Rattle.am_diagnosis.specs.Heads.{part_misfit, IsPart};
ghost use Rattle.am_diagnosis.specs.Maps.{entry_parameters, served_parameters, IsEntry, IsServed, is_within, joined_in, section_text};
ghost use Rattle.am_diagnosis.specs.Misfits.{ReadsJust, TellsMisfits, misfit_of};

/// The words of a line have no misfit just where they are an event's; else they have theirs at the
/// first word with which no event's line begins any more, and what is expected there is what lines of
/// events can go on with.
pub fn events_begin_before_their_misfit()
    ensures read { ReadsJust IsEvent event_misfit }
    ensures told { TellsMisfits IsEvent event_misfit 0 }
{}

/// The same of the lines of a head outside of its sections.
pub fn parts_begin_before_their_misfit()
    ensures read { ReadsJust IsPart part_misfit }
    ensures told { TellsMisfits IsPart part_misfit 0 }
{}

/// The same of the words behind the key of a map's line, the first of which is the line's second.
pub fn entries_begin_before_their_misfit()
    ensures read { ReadsJust IsEntry (misfit_of 1 entry_parameters) }
    ensures told { TellsMisfits IsEntry (misfit_of 1 entry_parameters) 1 }
{}

/// The same of the words behind the mount point of a master map's line.
pub fn served_points_begin_before_their_misfit()
    ensures read { ReadsJust IsServed (misfit_of 1 served_parameters) }
    ensures told { TellsMisfits IsServed (misfit_of 1 served_parameters) 1 }
{}

/// The lines that are read of a section's text are joined of its lines in the script, from that of
/// their number on.
pub fn lines_of_sections_join_as_in_the_script()
    ensures { (lines below : List (List ℕ)) → list_all is_within lines ≡ true →
        All (λ line. line.bytes ≡ joined_in (drop (line.number - 1) lines ++ codes "end" ∷ below))
        (lines_from 1 (section_text lines)) }
{}

/// A word of a line begins at one byte alone.
pub fn words_have_one_column()
    ensures { (line : List ℕ) (place byte other : ℕ) → IsColumn line place byte →
        IsColumn line place other → byte ≡ other }
{}
