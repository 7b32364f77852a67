//! What is true of every run and of every step, said of the definitions alone.

ghost use Rattle.am_machine.specs.Agreement.{RunsAgree};
ghost use Rattle.am_machine.specs.InStep.{RunsAreInStep, RunsAreNeverBusy, RunsRefuseInStep};
ghost use Rattle.am_machine.specs.Safety.{RunsAreLawful, RunsFitTheirTraces};
ghost use Rattle.am_machine.specs.StepLaws.{StepsAreLawful, RefusalsChangeNothing, MomentsRise, StepsAddNoReceivers, StepsUnmountNothingInUse, StepsTellUses, RunsGoOn};

/// The trace of every run from an initial world is lawful.
pub fn runs_are_lawful()
    ensures { RunsAreLawful }
{}

/// After every run from an initial world kernel and daemon are what the trace tells of them.
pub fn runs_fit_their_traces()
    ensures { RunsFitTheirTraces }
{}

/// After every run from an initial world kernel and daemon agree.
pub fn runs_agree()
    ensures { RunsAgree }
{}

/// After every run from an initial world the daemon is ready for what the kernel tells it, and knows
/// what it is asked about.
pub fn runs_are_in_step()
    ensures { RunsAreInStep }
{}

/// After every run from an initial world the daemon is not busy on what a packet in a pipe asks for.
pub fn runs_are_never_busy()
    ensures { RunsAreNeverBusy }
{}

/// After every run from an initial world some tests of an event never fail.
pub fn runs_refuse_in_step()
    ensures { RunsRefuseInStep }
{}

/// A step keeps what the world began with, adds what was seen to the trace, and queues one packet at
/// most.
pub fn steps_are_lawful()
    ensures { StepsAreLawful }
{}

/// An event that is refused changes nothing, and nothing is seen of it.
pub fn refusals_change_nothing()
    ensures { RefusalsChangeNothing }
{}

/// The latest moment never goes back.
pub fn moments_rise()
    ensures { MomentsRise }
{}

/// The law of receivers: no step of a run makes one of two mounts that stood before it receive from
/// the other, unless it did already.
pub fn steps_add_no_receivers()
    ensures { StepsAddNoReceivers }
{}

/// No step of a run takes a mount that a walker is inside of, or on which one that stays is mounted.
pub fn steps_unmount_nothing_in_use()
    ensures { StepsUnmountNothingInUse }
{}

/// The last use of a trigger changes only where a walk is seen to pass it, or the daemon is seen to be
/// asked for it, or a walker collects the status of its wait on it.
pub fn steps_tell_uses()
    ensures { StepsTellUses }
{}

/// A run goes on by a step.
pub fn runs_go_on()
    ensures { RunsGoOn }
{}
