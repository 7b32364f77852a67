//! For the author of a daemon with threads: walkers, a worker with a backend of one's own, and an end.

use am_map::{Map, MapKind};
use am_master::Master;
use am_names::{FailNo, Limits, Place, Seconds, Trigger};
use am_runner::{Backend, Errand, Gate, Run, run_with};
use am_shared::{Opening, Shared};
use am_world::laws::trace_holds;
use std::alloc::{AllocError, Global};
use std::test::Fail;

const LIMITS: Limits = Limits {
    mounts: 1_000_000,
    waiters: 1_024,
    tokens: u32::MAX,
    negative: Seconds(0),
};

/// What the worlds of these tests begin with: an autofs at `/home`, of a map of two keys.
fn homes(alloc: Global) -> Result<Opening, AllocError> {
    let master = Master::read(alloc, b"/home auto.home").map_err(|_fault| AllocError)?;
    let text = b"alice srv:/home/alice\nbob srv:/home/bob";
    let map = Map::read(alloc, text, MapKind::Indirect).map_err(|_fault| AllocError)?;
    let maps = vec![in alloc; map]?;
    Opening::new(LIMITS, master, maps).ok_or(AllocError)
}

/// Nothing is held up.
struct Open;

impl Gate for Open {
    fn pass(&self, _call: u32) {}
}

/// A backend that mounts nothing, and counts what it was asked for.
#[derive(Drop)]
struct Counts {
    mounts: u32,
    elsewhere: u32,
}

impl Backend for Counts {
    /// A daemon calls mount(2) here, with the path and with what the entry of the map says. The lock of the world is
    /// free meanwhile, so this may take as long as it likes.
    fn mount(&mut self, errand: &Errand<'_>) -> Result<(), FailNo> {
        let Errand { path, entry, .. } = *errand;
        if path.text().starts_with(b"/home/") {
            self.mounts = self.mounts.saturating_add(1);
        } else {
            self.elsewhere = self.elsewhere.saturating_add(1);
        }
        if entry.host.as_slice() == b"srv".as_slice() {
            Ok(())
        } else {
            Err(FailNo::ENOENT)
        }
    }

    /// And umount(2) here.
    fn umount(&mut self, _trigger: &Trigger, _path: &Place) -> Result<(), FailNo> {
        Ok(())
    }
}

/// When all is over nobody's trace breaks a law, and no note waits for room in the pipe.
fn ends_well(shared: &Shared) -> bool {
    trace_holds(shared.world().trace()) && shared.unsent() == 0
}

/// Two walkers go home and leave again, three times each, while an expirer asks for an immediate expiry as often, and
/// one worker serves.
#[test]
fn two_walkers_go_home(rt: HostRuntime) -> Result<(), Fail> {
    let alloc = rt.alloc();
    let opening = homes(alloc)?;
    let paths: [&[u8]; 2] = [b"/home/alice", b"/home/bob"];
    let run = Run {
        point: b"/home",
        paths: &paths,
        walkers: 2,
        rounds: 3,
        breaks: 0,
        capacity: 16,
        watched: true,
    };
    let mut backends = Vec::new(alloc);
    backends.push(Counts {
        mounts: 0,
        elsewhere: 0,
    })?;
    let ran = run_with(&rt, alloc, opening, run, &Open, backends, |shared| {
        ends_well(shared)
    })?;
    assert!(rt; ran.found, "it ends well");
    assert!(rt; ran.left.is_empty(), "each note was taken");
    assert_eq!(rt; ran.backends.len(), 1);
    // Each key is mounted once, and again where it expired meanwhile.
    assert!(rt; ran.backends[0].mounts >= 2, "both were mounted");
    assert_eq!(rt; ran.backends[0].elsewhere, 0);
    Ok(())
}
