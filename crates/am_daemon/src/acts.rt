//! The daemon's jobs go on, act by act.

ghost use Rattle.std.specs.Prelude.{◌≡◌, false, IsOk, IfSome, OnOk, OnErr, None, Some};
ghost use Rattle.std.specs.Option.{option_map, option_copied};
ghost use Rattle.am_names.specs.{RefusedAs, RefusedOnlyAs};
ghost use Rattle.am_job.specs.{IsRecorded};
ghost use Rattle.am_daemon.specs.State.{job_plan, rows_of};
ghost use Rattle.am_daemon.specs.Deliveries.{job_of};
ghost use Rattle.am_daemon.specs.Acts.{next_act_of, writes, writing_of, takes_memory, finish_refusal, book_after, finished, OthersStay};

use crate::daemon::Daemon;
use am_job::{Act, Book, Job, Outcome};
use am_names::{Errno, JobId, Trigger};
use am_state::Record;

/// What an act writes into the book.
#[derive(Clone, Copy)]
pub struct Writing {
    pub trigger: Trigger,
    /// None to forget the trigger.
    pub entry: Option<Record>,
}

/// What an act writes into the book.
fn writes(act: Option<&Act>) -> Option<Writing>
    ensures { result ≡ writes (option_copied act.entry) }
{
    match act {
        Some(Act::Record { trigger, entry }) => Some(Writing {
            trigger: *trigger,
            entry: *entry,
        }),
        _ => None,
    }
}

/// Writes it down.
fn write_down(book: &mut Book, writing: &Writing) -> Result<(), Errno>
    ensures refusal { RefusedAs None result }
    ensures lean { takes_memory (Some writing.now) ≡ false → IsOk result }
    ensures ok { OnOk result (book.new.rows ≡ book_after (Some writing.now) book.old.rows) }
    ensures map { OnOk result
        (IsRecorded writing.now.trigger writing.now.entry book.old.rows book.new.rows) }
    ensures err { OnErr result (book.new.rows ≡ book.old.rows) }
{
    match writing.entry {
        Some(entry) => book.put(writing.trigger, entry),
        None => {
            book.remove(&writing.trigger);
            Ok(())
        }
    }
}

impl Daemon {
    /// A job that has not ended.
    pub fn job(&self, job: JobId) -> Option<&Job>
        ensures { option_map job_plan (option_copied result) ≡ job_of (rows_of self.now).jobs job }
    {
        self.jobs.get(job)
    }

    /// The act of a job that comes next; none where there is no such job.
    pub fn next_act(&self, job: JobId) -> Option<&Act>
        ensures { option_copied result ≡ next_act_of job (rows_of self.now) }
    {
        self.job(job)?.next()
    }

    /// What the next act of a job writes into the book.
    fn writing(&self, job: JobId) -> Option<Writing>
        ensures { result ≡ writing_of job (rows_of self.now) }
    {
        writes(self.next_act(job))
    }

    /// Why the next act of a job isn't to be done.
    fn finish_refusal(&self, job: JobId) -> Option<Errno>
        ensures { result ≡ finish_refusal job (rows_of self.now) }
    {
        let Some(row) = self.job(job) else {
            return Some(Errno::EINVAL);
        };
        if writes(row.next()).is_none() || self.holds(row.trigger().fs, row.attach()) {
            return None;
        }
        Some(Errno::EPERM)
    }

    /// The next act of a job is done, and this came of it. What it writes is in the book now; where
    /// no act is left the job has ended.
    pub fn finish_act(&mut self, job: JobId, outcome: Outcome) -> Result<(), Errno>
        ensures refusal { RefusedAs (finish_refusal job (rows_of self.old)) result }
        ensures lean { takes_memory (writing_of job (rows_of self.old)) ≡ false →
            RefusedOnlyAs (finish_refusal job (rows_of self.old)) result }
        ensures ok { OnOk result (rows_of self.new ≡ finished job outcome (rows_of self.old)) }
        ensures map { OnOk result (IfSome (writing_of job (rows_of self.old)) (λ w.
            IsRecorded w.trigger w.entry self.old.book self.new.book)) }
        ensures others { OnOk result
            (OthersStay job (rows_of self.old).jobs (rows_of self.new).jobs) }
        ensures err { OnErr result (rows_of self.new ≡ rows_of self.old) }
    {
        if let Some(errno) = self.finish_refusal(job) {
            return Err(errno);
        }
        if let Some(writing) = self.writing(job) {
            write_down(&mut self.book, &writing)?;
        }
        self.jobs.go_on(job, outcome);
        Ok(())
    }
}
