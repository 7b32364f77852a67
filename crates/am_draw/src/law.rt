//! What is true of the lanes of each picture.

ghost use Rattle.am_draw.specs.Changes.{NobodyLosesABar};
ghost use Rattle.am_draw.specs.Worlds.{BarsTellTheWorld};

/// In a picture that is as wide as its events come to, each has the bar that was seen to begin and not to
/// end, and each failure one while it lasts, in one lane, and no other has one.
pub fn nobody_loses_a_bar()
    ensures { NobodyLosesABar }
{}

/// In a picture of a world's events, a walker has a bar just where it waits on a token that isn't
/// acknowledged, or is inside a mount, a token just where it is open, and a failure just where it
/// lasts, as the world behind each event has it.
pub fn bars_tell_the_world()
    ensures { BarsTellTheWorld }
{}
