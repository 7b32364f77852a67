//! What is true of lanes, whatever changes in them.

ghost use Rattle.am_lanes.specs.Changes.{BarsAreTold, NobodyLosesALane};

/// Nobody takes the lane of one who has a bar.
pub fn nobody_loses_a_lane()
    ensures { NobodyLosesALane }
{}

/// Each has the bar that was told of it, in one lane, and no other has one.
pub fn bars_are_told()
    ensures { BarsAreTold }
{}
