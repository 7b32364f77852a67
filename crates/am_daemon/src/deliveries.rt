//! The daemon takes packets from the pipe.

ghost use Rattle.std.specs.Prelude.{◌≡◌, ◌≤◌, ◌⊎◌, ◌∷◌, ◌++◌, ◌==◌, [], false, find, IsTrue, None, IfOk, OnOk, OnErr};
ghost use Rattle.am_names.specs.{RefusedAs};
ghost use Rattle.am_job.specs.{IsRecorded, plan_of, AcknowledgesLast, RecordsFirst, is_reply};
ghost use Rattle.am_daemon.specs.State.{job_plan, rows_of};
ghost use Rattle.am_daemon.specs.Faults.{FaultsAs};
ghost use Rattle.am_daemon.specs.Packets.{trigger_of, mounted_for, plan_of_packet, pending_of, is_pending};
ghost use Rattle.am_daemon.specs.Deliveries.{is_busy, delivery_fault, told, job_for, taken_up, IsDelivered};

use crate::daemon::Daemon;
use crate::fault::DaemonFault;
use crate::job_table::JobTable;
use crate::packets::{is_pending, mounted_in, pending, trigger_of};
use am_job::{Book, Job};
use am_names::{Attach, Errno, JobId, MountId};
use am_state::Record;
use am_wire::{Packet, read};
use std::alloc::{AllocError, Global};

/// Writes down of a trigger what is to be said of it while the job goes on; a job that only
/// acknowledges leaves the book as it is. There is room for it.
fn tell(book: &mut Book, job: &Job, pending: Option<Record>)
    requires { 1 ≤ book.old.room }
    ensures rows { book.new.rows ≡ told (plan_of job.now) job.now.trigger pending book.old.rows }
    ensures map { is_reply (plan_of job.now) ≡ false →
        IsRecorded job.now.trigger pending book.old.rows book.new.rows }
{
    if job.is_reply() {
        return;
    }
    match pending {
        Some(entry) => book.put_reserved(job.trigger(), entry),
        None => book.remove(&job.trigger()),
    }
}

/// A job begins, the last, and the book says so.
fn begin(
    book: &mut Book,
    jobs: &mut JobTable,
    job: Job,
    pending: Option<Record>,
) -> Result<(), Errno>
    requires fresh { find (λ row. row.token == job.token) jobs.old.rows ≡ None }
    ensures refusal { RefusedAs None result }
    ensures ok { OnOk result (book.new.rows
        ≡ told (plan_of job) job.trigger pending book.old.rows) }
    ensures map { OnOk result (is_reply (plan_of job) ≡ false →
        IsRecorded job.trigger pending book.old.rows book.new.rows) }
    ensures last { OnOk result (jobs.new.rows ≡ jobs.old.rows ++ job ∷ []) }
    ensures err { OnErr result (book.new.rows ≡ book.old.rows) }
    ensures same { OnErr result (jobs.new.rows ≡ jobs.old.rows) }
{
    book.reserve(1)?;
    jobs.reserve()?;
    tell(book, &job, pending);
    jobs.push_reserved(job);
    Ok(())
}

impl Daemon {
    /// Whether the trigger is being mounted or unmounted, or a job of this token has not ended.
    fn is_busy(&self, packet: &Packet) -> bool
        ensures { result ≡ is_busy (rows_of self.now) packet.now }
    {
        if is_pending(&self.record(&trigger_of(packet))) {
            return true;
        }
        self.job(JobId(packet.token.0)).is_some()
    }

    /// The first test that a packet fails.
    fn delivery_fault(&self, attach: Attach, packet: &Packet) -> Option<DaemonFault>
        ensures { result ≡ delivery_fault attach packet.now (rows_of self.now) }
    {
        if !self.knows(packet.dev) {
            return Some(DaemonFault::UnknownFs);
        }
        if !self.holds(packet.dev, attach) {
            return Some(DaemonFault::OldAttach);
        }
        if self.is_busy(packet) {
            return Some(DaemonFault::Busy);
        }
        None
    }

    /// What the book says to be mounted on the trigger of a packet.
    fn mounted_for(&self, packet: &Packet) -> Option<MountId>
        ensures { result ≡ mounted_for (rows_of self.now) packet.now }
    {
        mounted_in(&self.record(&trigger_of(packet)))
    }

    /// The job of a packet, with its plan.
    fn job_for(&self, alloc: Global, attach: Attach, packet: &Packet) -> Result<Job, AllocError>
        ensures { IfOk result (λ job. job_plan job ≡ job_for attach packet.now (rows_of self.now)) }
    {
        let trigger = trigger_of(packet);
        let entry = self.entry_of(alloc, &trigger)?;
        Ok(Job::new(
            JobId(packet.token.0),
            attach,
            trigger,
            packet.kind.token_kind(),
            self.mounted_for(packet),
            entry,
        ))
    }

    /// What the book is to say of the trigger while the job of a packet goes on.
    fn pending_of(&self, packet: &Packet) -> Option<Record>
        ensures { result ≡ pending_of (rows_of self.now) packet.now }
    {
        pending(
            packet.kind.token_kind(),
            packet.token,
            self.mounted_for(packet),
        )
    }

    /// Takes a packet up that came under this attachment: a job of its token begins.
    pub fn take_up(
        &mut self,
        alloc: Global,
        attach: Attach,
        packet: &Packet,
    ) -> Result<JobId, DaemonFault>
        ensures fault { FaultsAs (delivery_fault attach packet.now (rows_of self.old)) result }
        ensures job { IfOk result (λ job. job ≡ packet.now.token) }
        ensures ok { OnOk result (rows_of self.new
            ≡ taken_up attach packet.now (rows_of self.old)) }
        ensures pending { OnOk result
            (is_reply (plan_of_packet (rows_of self.old) packet.now) ≡ false →
            IsRecorded (trigger_of packet.now) (pending_of (rows_of self.old) packet.now)
            self.old.book self.new.book) }
        ensures acknowledges { OnOk result
            (AcknowledgesLast (plan_of_packet (rows_of self.old) packet.now)) }
        ensures records { OnOk result
            (IsTrue (is_reply (plan_of_packet (rows_of self.old) packet.now))
            ⊎ RecordsFirst (plan_of_packet (rows_of self.old) packet.now)) }
        ensures err { OnErr result (rows_of self.new ≡ rows_of self.old) }
    {
        if let Some(fault) = self.delivery_fault(attach, packet) {
            return Err(fault);
        }
        let job = self.job_for(alloc, attach, packet)?;
        let pending = self.pending_of(packet);
        if let Err(_) = begin(&mut self.book, &mut self.jobs, job, pending) {
            return Err(DaemonFault::NoMemory);
        }
        Ok(JobId(packet.token.0))
    }

    /// Takes the bytes of a packet from the pipe, under this attachment.
    pub fn deliver(
        &mut self,
        alloc: Global,
        attach: Attach,
        bytes: &[u8],
    ) -> Result<JobId, DaemonFault>
        ensures { IsDelivered attach bytes.now (rows_of self.old) result (rows_of self.new) }
    {
        match read(bytes) {
            Ok(packet) => self.take_up(alloc, attach, &packet.to_packet()),
            Err(fault) => Err(DaemonFault::Wire(fault)),
        }
    }
}
