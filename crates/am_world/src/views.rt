//! What a world has, lent to those who look at it.

ghost use Rattle.std.specs.Prelude.{◌≡◌, length, slice_get, IfOk, Some};
ghost use Rattle.std.specs.Option.{option_map, option_copied};
ghost use Rattle.am_daemon.specs.{job_plan, known_row, rows_of, job_of};
ghost use Rattle.am_expire.specs.{mount_of_walker};
ghost use Rattle.am_group.specs.{member_row, master_of_group};
ghost use Rattle.am_job.specs.{record_of};
ghost use Rattle.am_kernel.specs.{kind_at, kind_refusal};
ghost use Rattle.am_mount.specs.{mount_row};
ghost use Rattle.am_names.specs.{RefusedAs};
ghost use Rattle.am_trigger.specs.{autofs_of};
ghost use Rattle.am_wait.specs.{token_of, tokens_of, wait_of, waiters_of};
ghost use Rattle.am_world.specs.LastGiven.{IsLast};

use crate::world::World;
use am_daemon::Known;
use am_expire::Uses;
use am_group::MountState;
use am_job::{Book, Job};
use am_kernel::{Attached, WalkRow};
use am_names::{
    AbsPath, Attach, Errno, FsId, GroupId, JobId, MemberRow, MountId, MountRow, NsId, Seconds,
    Token, Trigger, WaitRow, WalkerId,
};
use am_state::{HeldRow, QueuedRow, Record};
use am_trigger::{Autofs, Failures, Triggers};
use std::alloc::{AllocError, Global};

/// The greatest number of each sort that was ever given; 0 for none.
#[derive(Clone, Copy)]
pub struct Last {
    pub mount: MountId,
    pub ns: NsId,
    pub group: GroupId,
    pub fs: FsId,
    pub attach: Attach,
    pub token: Token,
}

impl World {
    /// The state of the mount to which a path leads, as an event `kind` tells it.
    pub fn kind_at(&self, alloc: Global, ns: NsId, path: &AbsPath<'_>) -> Result<MountState, Errno>
        ensures refusal { RefusedAs (kind_refusal self.now.kernel ns path.now) result }
        ensures ok { IfOk result (λ kind. kind_at self.now.kernel ns path.now ≡ Some kind) }
    {
        self.machine.kernel.kind(alloc, ns, path)
    }

    /// The mounts of all namespaces, in rising order of number.
    pub fn mounts(&self) -> &[MountRow]
        ensures { result.now ≡ self.now.kernel.table.rows }
    {
        self.machine.kernel.subtree().tree().rows()
    }

    /// The row of a mount, if it is there.
    pub fn mount_row(&self, mount: MountId) -> Option<&MountRow>
        ensures { option_copied result ≡ mount_row self.now.kernel.table.rows mount }
    {
        self.machine.kernel.subtree().tree().row(mount)
    }

    /// How a mount takes part in propagation.
    pub fn member(&self, mount: MountId) -> Option<MemberRow>
        ensures { result ≡ member_row self.now.kernel.table.groups.members mount }
    {
        self.machine.kernel.subtree().groups().member(mount)
    }

    /// How all mounts take part in propagation, in rising order of number.
    pub fn members(&self) -> &[MemberRow]
        ensures { result.now ≡ self.now.kernel.table.groups.members }
    {
        self.machine.kernel.subtree().groups().members()
    }

    /// The master of a peer group.
    pub fn master_of_group(&self, group: GroupId) -> Option<GroupId>
        ensures { result ≡ master_of_group self.now.kernel.table.groups group }
    {
        self.machine
            .kernel
            .subtree()
            .groups()
            .master_of_group(group)
    }

    /// The autofs of this number.
    pub fn autofs(&self, fs: FsId) -> Option<Autofs>
        ensures { result ≡ autofs_of self.now.kernel.triggers fs }
    {
        self.machine.kernel.triggers().autofs(fs)
    }

    /// The directories that the daemon made, and the last uses.
    pub fn triggers(&self) -> &Triggers
        ensures { result.now.rows ≡ self.now.kernel.triggers }
    {
        self.machine.kernel.triggers()
    }

    /// What failed last at each trigger.
    pub fn failures(&self) -> &Failures
        ensures { result.now.rows ≡ self.now.kernel.failures }
    {
        self.machine.kernel.failures()
    }

    /// The latest moment of all walks, resumes and expiries that weren't refused.
    pub fn latest(&self) -> Seconds
        ensures { result ≡ self.now.kernel.latest }
    {
        self.machine.kernel.latest()
    }

    /// The greatest number of each sort that was ever given.
    pub fn last(&self) -> Last
        ensures { IsLast self.now.kernel result }
    {
        let kernel = &self.machine.kernel;
        let subtree = kernel.subtree();
        Last {
            mount: subtree.last_mount(),
            ns: subtree.last_ns(),
            group: subtree.groups().last_group(),
            fs: kernel.last_fs(),
            attach: kernel.last_attach(),
            token: kernel.waits().last_token(),
        }
    }

    /// The timeout and the latest attachment of each autofs, in order of attaching.
    pub fn attached(&self) -> &[Attached]
        ensures { result.now ≡ self.now.kernel.attached }
    {
        self.machine.kernel.attached()
    }

    /// The open tokens of a file system, in rising order.
    pub fn tokens_of(&self, alloc: Global, fs: FsId) -> Result<Vec<Token>, AllocError>
        ensures { IfOk result (λ v. v.items ≡ tokens_of self.now.kernel.waits.tokens fs) }
    {
        self.machine.kernel.waits().tokens_of(alloc, fs)
    }

    /// The trigger of a token; none if it isn't open.
    pub fn trigger_of(&self, token: Token) -> Option<Trigger>
        ensures { result ≡
            option_map (λ row. row.trigger) (token_of self.now.kernel.waits.tokens token) }
    {
        self.machine.kernel.waits().trigger_of(token)
    }

    /// The waiters of a token, in the order in which they joined; none if it isn't open.
    pub fn waiters_of(&self, alloc: Global, token: Token) -> Result<Vec<WalkerId>, AllocError>
        ensures { IfOk result (λ v. v.items ≡ waiters_of self.now.kernel.waits.tokens token) }
    {
        self.machine.kernel.waits().waiters_of(alloc, token)
    }

    /// The wait of a walker, with what it waits for and the status with which it was released.
    pub fn wait_of(&self, walker: WalkerId) -> Option<WaitRow>
        ensures { result ≡ wait_of self.now.kernel.waits.waits walker }
    {
        self.machine.kernel.waits().wait_of(walker)
    }

    /// The walk that each waiting walker began, in order of waiting.
    pub fn walks(&self) -> &[WalkRow]
        ensures { result.now ≡ self.now.kernel.walks }
    {
        self.machine.kernel.walks()
    }

    /// The walkers that are inside mounts, in order of entering.
    pub fn uses(&self) -> &Uses
        ensures { result.now ≡ self.now.kernel.uses }
    {
        self.machine.kernel.uses()
    }

    /// The mount that a walker is inside of.
    pub fn mount_of_walker(&self, walker: WalkerId) -> Option<MountId>
        ensures { result ≡ mount_of_walker self.now.kernel.uses walker }
    {
        self.machine.kernel.uses().mount_of_walker(walker)
    }

    /// The packets in the pipes, in order.
    pub fn packets(&self) -> &[QueuedRow]
        ensures { result.now ≡ self.now.kernel.queue }
    {
        self.machine.kernel.packets()
    }

    /// The daemon's book, in order of making.
    pub fn book(&self) -> &Book
        ensures { result.now.rows ≡ self.now.daemon.book }
    {
        self.machine.daemon.book()
    }

    /// The daemon's jobs that have not ended, in order of delivery.
    pub fn jobs(&self) -> &[Job]
        ensures { result.now ≡ self.now.daemon.jobs }
    {
        self.machine.daemon.jobs()
    }

    /// What the daemon's book says of a trigger.
    pub fn record(&self, trigger: &Trigger) -> Option<Record>
        ensures { result ≡ record_of self.now.daemon.book trigger.now }
    {
        self.machine.daemon.record(trigger)
    }

    /// How many attachments the daemon holds.
    pub fn held_count(&self) -> usize
        ensures { result ≡ length self.now.daemon.held }
    {
        self.machine.daemon.held_count()
    }

    /// The attachment at this index that the daemon holds, in order of attaching.
    pub fn held_at(&self, index: usize) -> Option<HeldRow>
        ensures { result ≡ slice_get self.now.daemon.held index }
    {
        self.machine.daemon.held_at(index)
    }

    /// To how many file systems the daemon was ever attached.
    pub fn known_count(&self) -> usize
        ensures { result ≡ length self.now.daemon.known }
    {
        self.machine.daemon.known_count()
    }

    /// The file system at this index to which the daemon was ever attached, in order of attaching, and where.
    pub fn known_at(&self, index: usize) -> Option<Known<'_>>
        ensures { option_map known_row result ≡ slice_get self.now.daemon.known index }
    {
        self.machine.daemon.known_at(index)
    }

    /// A job that has not ended.
    pub fn job(&self, job: JobId) -> Option<&Job>
        ensures { option_map job_plan (option_copied result) ≡
            job_of (rows_of self.now.daemon).jobs job }
    {
        self.machine.daemon.job(job)
    }
}
