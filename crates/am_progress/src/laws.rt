//! What can always be done next, said of the definitions alone.

ghost use Rattle.am_progress.specs.Acts.{JobsHaveFiveActs, NextActsAreNeverRefused};
ghost use Rattle.am_progress.specs.Comings.{MountsComeAndGo};
ghost use Rattle.am_progress.specs.Expiries.{ExpiriesLeaveTrapOrMount};
ghost use Rattle.am_progress.specs.ExpiriesAmong.{ExpiriesEndAmongOthers};
ghost use Rattle.am_progress.specs.Others.{JobsStay, OpenTokensCloseAmongOthers, ServiceLasts};
ghost use Rattle.am_progress.specs.Packets.{QueuedPacketsCanBeDelivered};
ghost use Rattle.am_progress.specs.Tokens.{OpenTokensCanBeClosed};
ghost use Rattle.am_progress.specs.Walkers.{WaitingWalkersCanGoOn};

/// A packet in the pipe of a file system that the daemon serves can be delivered.
pub fn queued_packets_can_be_delivered()
    ensures { QueuedPacketsCanBeDelivered }
{}

/// The next act of a job whose attachment the daemon holds is done or fails, and is never refused.
pub fn next_acts_are_never_refused()
    ensures { NextActsAreNeverRefused }
{}

/// A job has five acts at most.
pub fn jobs_have_five_acts()
    ensures { JobsHaveFiveActs }
{}

/// An open token of a file system that the daemon serves can be closed by six events of the daemon
/// at most.
pub fn open_tokens_can_be_closed()
    ensures { OpenTokensCanBeClosed }
{}

/// A walker that waits can be brought on, by the daemon or by the administrator.
pub fn waiting_walkers_can_go_on()
    ensures { WaitingWalkersCanGoOn }
{}

/// An expiry that fails leaves what it found, and one that comes leaves a trigger at which a walk
/// notifies again.
pub fn expiries_leave_trap_or_mount()
    ensures { ExpiriesLeaveTrapOrMount }
{}

/// No step but an act of the job itself changes what a job has left.
pub fn jobs_keep_what_they_have_left()
    ensures { JobsStay }
{}

/// The daemon serves a file system until it is seen to become catatonic, or the daemon to die.
pub fn service_lasts_until_its_end_is_seen()
    ensures { ServiceLasts }
{}

/// An open token of a file system that the daemon serves can be closed by six events of the daemon
/// at most, whatever others do between them while the daemon serves it.
pub fn open_tokens_can_be_closed_among_others()
    ensures { OpenTokensCloseAmongOthers }
{}

/// What is missing can be mounted, so that who waits on it passes, and what expires can be unmounted.
pub fn mounts_come_and_go()
    ensures { MountsComeAndGo }
{}

/// An expiry leaves the trap or the mount, whatever others do between the acts of its job while the daemon
/// serves the file system.
pub fn expiries_leave_trap_or_mount_among_others()
    ensures { ExpiriesEndAmongOthers }
{}
