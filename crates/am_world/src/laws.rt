//! Laws: what is true of every trace, of every run and of every step, and what can always be done
//! next.

ghost use Rattle.am_world.specs.{OutcomesReadNoTrace};

pub use am_laws::trace_holds;
pub use am_machine::laws::{
    moments_rise, refusals_change_nothing, runs_agree, runs_are_in_step, runs_are_lawful,
    runs_are_never_busy, runs_fit_their_traces, runs_go_on, runs_refuse_in_step,
    steps_add_no_receivers, steps_are_lawful, steps_tell_uses, steps_unmount_nothing_in_use,
};
pub use am_progress::laws::{
    expiries_leave_trap_or_mount, expiries_leave_trap_or_mount_among_others, jobs_have_five_acts,
    jobs_keep_what_they_have_left, mounts_come_and_go, next_acts_are_never_refused,
    open_tokens_can_be_closed, open_tokens_can_be_closed_among_others,
    queued_packets_can_be_delivered, service_lasts_until_its_end_is_seen,
    waiting_walkers_can_go_on,
};

/// No outcome reads the trace: in worlds whose halves are equal an event has the same answer, shows
/// the same, and leaves equal halves, whatever was observed before.
pub fn outcomes_read_no_trace()
    ensures { OutcomesReadNoTrace }
{}
