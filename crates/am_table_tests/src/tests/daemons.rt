//! A daemon's calls of which no event is made: packets for it that no kernel sends, in the order of
//! their tests, and bytes that are none. What events come to is in scripts.

use crate::tests::script::{Example, Stage, Step, plays};
use am_daemon::{Daemon, DaemonFault};
use am_job::{Act, Outcome};
use am_map::{Map, MapKind};
use am_master::Master;
use am_names::{AbsPath, Attach, Errno, FsId, JobId, Token};
use am_wire::{Packet, PacketName, PacketType, WireFault, write};
use std::alloc::Global;

/// A packet: its kind, its file system, its name and its token.
#[derive(Clone, Copy)]
struct Mail(PacketType, u32, &'static [u8], u32);

impl Mail {
    fn packet(self) -> Result<Packet, Errno> {
        if self.2.len() > 255 {
            return Err(Errno::ENAMETOOLONG);
        }
        Ok(Packet {
            kind: self.0,
            token: Token(self.3),
            dev: FsId(self.1),
            ino: 1,
            uid: 1000,
            gid: 100,
            pid: 7,
            tgid: 7,
            name: PacketName::new(self.2),
        })
    }
}

/// A call, and what it answers. The fault of a packet is its number, 0 where a job begins.
#[derive(Clone, Copy)]
enum Call {
    /// A file system is attached under an attachment, at a path.
    Attaches(u32, u32, &'static [u8]),
    /// A packet comes under an attachment.
    Takes(u32, Mail, u8),
    /// Its bytes come.
    Delivers(u32, Mail, u8),
    /// Bytes come that are no packet.
    DeliversBytes(u32, &'static [u8], WireFault),
    FaultNumber(DaemonFault, u8),
    /// The job's next act mounts `srv` with this path, and without options.
    MountIds(u32, &'static [u8]),
    /// The daemon holds this attachment of the file system, and no other.
    Holds(u32, u32),
    /// It holds none, and knows the file system or doesn't.
    HoldsNone(u32, bool),
    /// The path is served by the line at this place, which is of an indirect map with this timeout.
    Serves(&'static [u8], usize, u32),
    /// The job's next act is done.
    Finishes(u32),
    Dies,
    /// It goes on as a copy of itself.
    Copies,
}

static MASTER: &[u8] = b"/auto auto.home\n/net auto.home --timeout=60\n";

fn map(alloc: Global) -> Result<Map, Errno> {
    match Map::read(alloc, b"home srv:/home\n* srv:/any/&\n", MapKind::Indirect) {
        Ok(map) => Ok(map),
        Err(_) => Err(Errno::NoMemory),
    }
}

/// `/auto` and `/net` are indirect.
fn daemon(alloc: Global) -> Result<Daemon, Errno> {
    let maps = vec![in alloc; map(alloc)?, map(alloc)?]?;
    match Master::read(alloc, MASTER) {
        Ok(master) => Ok(Daemon::new(alloc, master, maps)),
        Err(_) => Err(Errno::NoMemory),
    }
}

fn attaches(
    alloc: Global,
    daemon: &mut Daemon,
    fs: u32,
    attach: u32,
    path: &[u8],
) -> Result<bool, Errno> {
    let place = AbsPath::read(path)?.to_place(alloc)?;
    daemon.attached(alloc, FsId(fs), Attach(attach), &place)?;
    Ok(true)
}

/// The job of this token has begun, or this fault was told.
fn is_told(begun: &Result<JobId, DaemonFault>, token: u32, fault: u8) -> Result<bool, Errno> {
    match begun {
        Ok(job) => Ok(fault == 0 && job.0 == token),
        Err(DaemonFault::NoMemory) => Err(Errno::NoMemory),
        Err(told) => Ok(told.number() == fault),
    }
}

fn takes(
    alloc: Global,
    daemon: &mut Daemon,
    attach: u32,
    mail: Mail,
    fault: u8,
) -> Result<bool, Errno> {
    let packet = mail.packet()?;
    let begun = daemon.take_up(alloc, Attach(attach), &packet);
    is_told(&begun, mail.3, fault)
}

fn bytes_of(packet: &Packet) -> [u8; 304] {
    let mut bytes = [0; 304];
    write(packet, &mut bytes);
    bytes
}

fn delivers(
    alloc: Global,
    daemon: &mut Daemon,
    attach: u32,
    mail: Mail,
    fault: u8,
) -> Result<bool, Errno> {
    let bytes = bytes_of(&mail.packet()?);
    let begun = daemon.deliver(alloc, Attach(attach), bytes.as_slice());
    is_told(&begun, mail.3, fault)
}

fn delivers_bytes(
    alloc: Global,
    daemon: &mut Daemon,
    attach: u32,
    bytes: &[u8],
    fault: WireFault,
) -> bool {
    let told = daemon.deliver(alloc, Attach(attach), bytes);
    told == Err(DaemonFault::Wire(fault))
}

fn is_mount(act: &Act, path: &[u8]) -> bool {
    match act {
        Act::Mount { entry, .. } => {
            entry.options.is_none()
                && entry.host.as_slice() == b"srv".as_slice()
                && entry.path.as_slice() == path
        }
        _ => false,
    }
}

fn mounts(alloc: Global, daemon: &Daemon, job: u32, path: &[u8]) -> Result<bool, Errno> {
    match daemon.next_act(JobId(job)) {
        Some(act) => Ok(is_mount(act, path) && is_mount(&act.copy(alloc)?, path)),
        None => Ok(false),
    }
}

fn holds(daemon: &Daemon, fs: u32, attach: u32) -> bool {
    daemon.holds(FsId(fs), Attach(attach))
        && !daemon.holds(FsId(fs), Attach(0))
        && daemon.attach_held(FsId(fs)) == Some(Attach(attach))
}

fn holds_none(daemon: &Daemon, fs: u32, is_known: bool) -> bool {
    daemon.attach_held(FsId(fs)).is_none() && daemon.knows(FsId(fs)) == is_known
}

fn serves(
    alloc: Global,
    daemon: &Daemon,
    path: &[u8],
    entry: usize,
    timeout: u32,
) -> Result<bool, Errno> {
    let place = AbsPath::read(path)?.to_place(alloc)?;
    Ok(match daemon.point(&place) {
        Some(point) => {
            point.entry == entry && !point.direct && daemon.timeout(point.entry) == timeout
        }
        None => false,
    })
}

fn go_on_as_copy(alloc: Global, daemon: &mut Daemon) -> Result<bool, Errno> {
    let copy = daemon.copy(alloc)?;
    let is_same = copy.is_same(daemon);
    *daemon = copy;
    Ok(is_same)
}

fn makes(alloc: Global, daemon: &mut Daemon, call: Call) -> Result<bool, Errno> {
    match call {
        Call::Attaches(fs, attach, path) => attaches(alloc, daemon, fs, attach, path),
        Call::Takes(attach, mail, fault) => takes(alloc, daemon, attach, mail, fault),
        Call::Delivers(attach, mail, fault) => delivers(alloc, daemon, attach, mail, fault),
        Call::DeliversBytes(attach, bytes, fault) => {
            Ok(delivers_bytes(alloc, daemon, attach, bytes, fault))
        }
        Call::FaultNumber(fault, number) => Ok(fault.number() == number),
        Call::MountIds(job, path) => mounts(alloc, daemon, job, path),
        Call::Holds(fs, attach) => Ok(holds(daemon, fs, attach)),
        Call::HoldsNone(fs, is_known) => Ok(holds_none(daemon, fs, is_known)),
        Call::Serves(path, entry, timeout) => serves(alloc, daemon, path, entry, timeout),
        Call::Finishes(job) => {
            daemon.finish_act(JobId(job), Outcome::Done)?;
            Ok(true)
        }
        Call::Dies => {
            daemon.die();
            Ok(true)
        }
        Call::Copies => go_on_as_copy(alloc, daemon),
    }
}

#[derive(Drop)]
struct Half(Daemon);

impl Stage for Half {
    type Call = Call;

    fn new(alloc: Global) -> Result<Half, Errno> {
        Ok(Half(daemon(alloc)?))
    }

    fn make(&mut self, alloc: Global, call: Call) -> Result<bool, Errno> {
        makes(alloc, &mut self.0, call)
    }
}

/// Faults by their numbers.
const NONE: u8 = 0;

const UNKNOWN_FS: u8 = 2;

const OLD_ATTACH: u8 = 3;

const BUSY: u8 = 4;

const MISSING: PacketType = PacketType::MissingIndirect;

const EXPIRE: PacketType = PacketType::ExpireIndirect;

static TESTS_IN_ORDER: [Step<Call>; 26] = [
    // Each packet fails one test less than the one before. File system 2 isn't known, attachment 9
    // isn't held, and token 5 has a job.
    Step::Does(Call::Attaches(3, 2, b"/net")),
    Step::Does(Call::Takes(2, Mail(MISSING, 3, b"one", 5), NONE)),
    Step::Does(Call::Takes(9, Mail(MISSING, 2, b"one", 5), UNKNOWN_FS)),
    Step::Does(Call::Delivers(9, Mail(MISSING, 2, b"one", 5), UNKNOWN_FS)),
    // Another file system's attachment is none of this one.
    Step::Does(Call::Takes(2, Mail(MISSING, 2, b"two", 6), UNKNOWN_FS)),
    Step::Does(Call::HoldsNone(2, false)),
    Step::Does(Call::Attaches(2, 1, b"/auto")),
    Step::Does(Call::Takes(9, Mail(MISSING, 3, b"one", 5), OLD_ATTACH)),
    Step::Does(Call::Delivers(9, Mail(MISSING, 3, b"one", 5), OLD_ATTACH)),
    Step::Does(Call::Takes(1, Mail(MISSING, 3, b"two", 6), OLD_ATTACH)),
    Step::Does(Call::Takes(2, Mail(MISSING, 2, b"two", 6), OLD_ATTACH)),
    Step::Does(Call::Takes(2, Mail(MISSING, 3, b"one", 5), BUSY)),
    Step::Does(Call::Delivers(2, Mail(MISSING, 3, b"one", 5), BUSY)),
    // The record is in the way with another token, and the job with another trigger.
    Step::Does(Call::Takes(2, Mail(MISSING, 3, b"one", 6), BUSY)),
    Step::Does(Call::Takes(2, Mail(EXPIRE, 3, b"one", 6), BUSY)),
    Step::Does(Call::Takes(2, Mail(MISSING, 3, b"two", 5), BUSY)),
    Step::Does(Call::Takes(1, Mail(MISSING, 2, b"one", 5), BUSY)),
    // Nothing has changed, and a copy is the same.
    Step::Does(Call::Copies),
    Step::Does(Call::Takes(2, Mail(MISSING, 3, b"two", 6), NONE)),
    Step::Does(Call::Takes(1, Mail(MISSING, 2, b"one", 7), NONE)),
    Step::Does(Call::Holds(3, 2)),
    Step::Does(Call::Holds(2, 1)),
    Step::Does(Call::Dies),
    Step::Does(Call::Copies),
    Step::Does(Call::HoldsNone(3, true)),
    Step::Does(Call::Takes(2, Mail(MISSING, 3, b"new", 8), OLD_ATTACH)),
];

fn tests_in_order() -> Example<Call> {
    Example("each packet tests in order", &TESTS_IN_ORDER)
}

/// A file system that is attached once more: the older attachment and the older path are let go.
static ATTACHED_AGAIN: [Step<Call>; 14] = [
    Step::Does(Call::Copies),
    Step::Does(Call::Serves(b"/auto", 0, 300)),
    Step::Does(Call::Serves(b"/net", 1, 60)),
    Step::Does(Call::Attaches(2, 1, b"/auto")),
    Step::Does(Call::Takes(1, Mail(MISSING, 2, b"one", 5), NONE)),
    Step::Does(Call::Attaches(2, 9, b"/net")),
    Step::Does(Call::Holds(2, 9)),
    Step::Does(Call::Takes(1, Mail(MISSING, 2, b"two", 6), OLD_ATTACH)),
    Step::Does(Call::Takes(9, Mail(MISSING, 2, b"two", 6), NONE)),
    Step::Does(Call::Copies),
    Step::Refused(Call::Attaches(3, 2, b"/net"), Errno::EEXIST),
    Step::Does(Call::Attaches(3, 2, b"/auto")),
    Step::Does(Call::Holds(2, 9)),
    Step::Does(Call::Holds(3, 2)),
];

fn attached_again() -> Example<Call> {
    Example("a file system that is attached once more", &ATTACHED_AGAIN)
}

/// The entry of a key, and that of the wildcard, which has the key in its path.
static ENTRIES: [Step<Call>; 10] = [
    Step::Does(Call::Attaches(2, 1, b"/auto")),
    Step::Does(Call::Takes(1, Mail(MISSING, 2, b"home", 5), NONE)),
    Step::Does(Call::Takes(1, Mail(MISSING, 2, b"work", 6), NONE)),
    Step::Does(Call::Finishes(5)),
    Step::Does(Call::Copies),
    Step::Does(Call::Finishes(6)),
    Step::Does(Call::MountIds(5, b"/home")),
    Step::Does(Call::MountIds(6, b"/any/work")),
    Step::Refused(Call::Finishes(7), Errno::EINVAL),
    Step::Does(Call::MountIds(6, b"/any/work")),
];

fn entries() -> Example<Call> {
    Example("the entries of acts", &ENTRIES)
}

/// Bytes are tested before anything else.
static NO_PACKETS: [Step<Call>; 4] = [
    Step::Does(Call::DeliversBytes(9, &[0; 299], WireFault::Length)),
    Step::Does(Call::DeliversBytes(9, &[0; 304], WireFault::Version)),
    Step::Does(Call::FaultNumber(DaemonFault::Wire(WireFault::Version), 1)),
    Step::Does(Call::FaultNumber(DaemonFault::NoMemory, 5)),
];

fn no_packets() -> Example<Call> {
    Example("bytes that are no packet", &NO_PACKETS)
}

#[test]
fn packets(rt: HostRuntime) {
    let alloc = rt.alloc();
    plays::<Half>(&rt, alloc, tests_in_order());
    plays::<Half>(&rt, alloc, attached_again());
    plays::<Half>(&rt, alloc, entries());
    plays::<Half>(&rt, alloc, no_packets());
}
