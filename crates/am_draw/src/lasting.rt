//! What lasts from one event to the next.

ghost use Rattle.std.specs.Prelude.{◌≡◌, length, OnOk};
ghost use Rattle.am_draw.specs.Lasting.{token_look, lasts_of, nothing_lasts, with_walker, with_token, with_catatonic, with_reattached, with_dead, with_living, changed, seen_behind, with_sighted, acted, with_ended, fresh_in, with_begun, turned, behind, with_token_lane, with_walker_lane, with_system_lane, with_daemon_lane, roomed, roomed_for, seen_added, with_failing_lane, turned_added, added};

use crate::failing::{Failing, add_lane, empty_lanes, end_failures, fresh, take_lane};
use am_lanes::{Ending, Holder, Lanes, Look};
use am_names::{FsId, Seconds, Token, WalkerId};
use am_wire::PacketType;
use am_world::{Event, Obs, World};
use std::alloc::{AllocError, Global};

/// There is one daemon, and this is its number.
const THE_DAEMON: u32 = 0;

/// The lanes of what lasts.
#[derive(Drop)]
pub struct Lasting {
    pub tokens: Lanes,
    pub walkers: Lanes,
    /// Of file systems that are catatonic.
    pub systems: Lanes,
    /// Of the daemon once it has died.
    pub daemon: Lanes,
    /// Of failures that last.
    pub failures: Vec<Option<Failing>>,
    /// For how many seconds a failure lasts.
    pub negative: Seconds,
}

/// How an open token looks.
fn token_look(kind: PacketType, fs: FsId) -> Look
    ensures { result ≡ token_look kind fs }
{
    match kind {
        PacketType::MissingIndirect => Look::Missing { fs },
        PacketType::ExpireIndirect => Look::Expire { fs },
        PacketType::MissingDirect => Look::Missing { fs },
        PacketType::ExpireDirect => Look::Expire { fs },
    }
}

impl Lasting {
    /// There is no lane, and a failure lasts for so many seconds.
    pub fn new(alloc: Global, negative: Seconds) -> Lasting
        ensures { lasts_of result ≡ nothing_lasts 0 0 0 0 0 negative }
    {
        Lasting {
            tokens: Lanes::new(alloc),
            walkers: Lanes::new(alloc),
            systems: Lanes::new(alloc),
            daemon: Lanes::new(alloc),
            failures: Vec::new(alloc),
            negative,
        }
    }

    /// Nobody holds a lane any more.
    pub fn clear(&mut self)
        ensures { lasts_of self.new ≡ nothing_lasts (length self.old.tokens) (length self.old.walkers)
            (length self.old.systems) (length self.old.daemon) (length self.old.failures.items)
            self.old.negative }
    {
        self.tokens.clear();
        self.walkers.clear();
        self.systems.clear();
        self.daemon.clear();
        empty_lanes(&mut self.failures);
    }

    /// Makes the indexes of lanes for which there was no memory.
    pub fn mend(&mut self, alloc: Global) -> Result<(), AllocError>
        ensures { lasts_of self.new ≡ lasts_of self.old }
    {
        self.tokens.mend(alloc)?;
        self.walkers.mend(alloc)?;
        self.systems.mend(alloc)?;
        self.daemon.mend(alloc)
    }

    fn place_walker(&mut self, number: u64, walker: WalkerId, look: Look)
        ensures { lasts_of self.new ≡ with_walker number walker look (lasts_of self.old) }
    {
        let holder = Holder {
            number: walker.0,
            look,
            since: number,
        };
        self.walkers.place(holder);
    }

    fn place_token(&mut self, number: u64, token: Token, look: Look)
        ensures { lasts_of self.new ≡ with_token number token look (lasts_of self.old) }
    {
        let holder = Holder {
            number: token.0,
            look,
            since: number,
        };
        self.tokens.place(holder);
    }

    fn make_catatonic(&mut self, number: u64, fs: FsId)
        ensures { lasts_of self.new ≡ with_catatonic number fs (lasts_of self.old) }
    {
        self.tokens.end_bars(&Ending::In { fs });
        let holder = Holder {
            number: fs.0,
            look: Look::Catatonic,
            since: number,
        };
        self.systems.place(holder);
    }

    fn reattach(&mut self, fs: FsId)
        ensures { lasts_of self.new ≡ with_reattached fs (lasts_of self.old) }
    {
        self.systems.end_bars(&Ending::Of { number: fs.0 });
    }

    fn bury(&mut self, number: u64)
        ensures { lasts_of self.new ≡ with_dead number (lasts_of self.old) }
    {
        let holder = Holder {
            number: THE_DAEMON,
            look: Look::Dead,
            since: number,
        };
        self.daemon.place(holder);
    }

    fn revive(&mut self)
        ensures { lasts_of self.new ≡ with_living (lasts_of self.old) }
    {
        self.daemon.end_bars(&Ending::Of { number: THE_DAEMON });
    }

    /// What is seen of the event with this number has changed who holds which lane.
    pub fn change(&mut self, number: u64, obs: &Obs)
        ensures { lasts_of self.new ≡ changed number (lasts_of self.old) obs.now }
    {
        match obs {
            Obs::Queued { token, packet, .. } => {
                let look = token_look(packet.kind(), packet.dev());
                self.place_token(number, *token, look)
            }
            Obs::Waits { walker, .. } => self.place_walker(number, *walker, Look::Waits),
            Obs::Answered { token, .. } => self.tokens.end_bars(&Ending::Of { number: token.0 }),
            Obs::Catatonic { fs } => self.make_catatonic(number, *fs),
            Obs::Released { walker, .. } => self.place_walker(number, *walker, Look::Idle),
            Obs::Entered { walker, .. } => self.place_walker(number, *walker, Look::Inside),
            Obs::Left { walker, .. } => self.place_walker(number, *walker, Look::Idle),
            Obs::Reattached { fs, .. } => self.reattach(*fs),
            Obs::Died => self.bury(number),
            _ => (),
        }
    }

    /// So it is behind all that is seen.
    fn change_by(&mut self, number: u64, seen: &[Obs])
        ensures { lasts_of self.new ≡ seen_behind number (lasts_of self.old) seen.now }
    {
        for obs in seen {
            self.change(number, obs);
        }
    }

    fn sight_walker(&mut self, number: u64, walker: WalkerId)
        ensures { lasts_of self.new ≡ with_sighted number walker (lasts_of self.old) }
    {
        let holder = Holder {
            number: walker.0,
            look: Look::Idle,
            since: number,
        };
        self.walkers.sight(holder);
    }

    /// A walker that does something has a lane, and a daemon that attaches lives.
    pub fn act(&mut self, number: u64, event: &Event)
        ensures { lasts_of self.new ≡ acted number (lasts_of self.old) event.now }
    {
        match event {
            Event::Walk { walker, .. } => self.sight_walker(number, *walker),
            Event::Resume { walker, .. } => self.sight_walker(number, *walker),
            Event::Leave { walker } => self.sight_walker(number, *walker),
            Event::Expire { walker, .. } => self.sight_walker(number, *walker),
            Event::Attach { .. } => self.revive(),
            Event::Reattach { .. } => self.revive(),
            _ => (),
        }
    }

    /// The failures end that last no longer in this world.
    pub fn end_failures(&mut self, world: &World)
        ensures { lasts_of self.new ≡ with_ended world.now.kernel (lasts_of self.old) }
    {
        end_failures(&mut self.failures, world, self.negative);
    }

    /// The failure that begins to last with the event of this number, if one does.
    pub fn fresh(&self, number: u64, world: &World) -> Option<Failing>
        ensures { result ≡ fresh_in number world.now.kernel (lasts_of self.now) }
    {
        fresh(world, self.negative, number, self.failures.as_slice())
    }

    /// It has a lane from here on.
    pub fn begin(&mut self, fresh: &Option<Failing>)
        ensures { lasts_of self.new ≡ with_begun fresh.now (lasts_of self.old) }
    {
        if let Some(held) = fresh {
            take_lane(&mut self.failures, *held);
        }
    }

    fn turn(&mut self, number: u64, world: &World)
        ensures { lasts_of self.new ≡ turned number world.now.kernel (lasts_of self.old) }
    {
        self.end_failures(world);
        let fresh = self.fresh(number, world);
        self.begin(&fresh);
    }

    /// So it is behind an event of which this is seen, and which leaves this world.
    pub fn pass(&mut self, number: u64, event: &Event, seen: &[Obs], world: &World)
        ensures { lasts_of self.new
            ≡ behind number (lasts_of self.old) event.now seen.now world.now.kernel }
    {
        self.act(number, event);
        self.change_by(number, seen);
        self.turn(number, world);
    }

    fn add_token(&mut self, token: Token) -> Result<(), AllocError>
        ensures { OnOk result (lasts_of self.new ≡ with_token_lane token (lasts_of self.old)) }
    {
        self.tokens.add_lane(token.0)
    }

    fn add_walker(&mut self, walker: WalkerId) -> Result<(), AllocError>
        ensures { OnOk result (lasts_of self.new ≡ with_walker_lane walker (lasts_of self.old)) }
    {
        self.walkers.add_lane(walker.0)
    }

    fn add_system(&mut self, fs: FsId) -> Result<(), AllocError>
        ensures { OnOk result (lasts_of self.new ≡ with_system_lane fs (lasts_of self.old)) }
    {
        self.systems.add_lane(fs.0)
    }

    fn add_daemon(&mut self) -> Result<(), AllocError>
        ensures { OnOk result (lasts_of self.new ≡ with_daemon_lane (lasts_of self.old)) }
    {
        self.daemon.add_lane(THE_DAEMON)
    }

    fn make_room(&mut self, obs: &Obs) -> Result<(), AllocError>
        ensures { OnOk result (lasts_of self.new ≡ roomed (lasts_of self.old) obs.now) }
    {
        match obs {
            Obs::Queued { token, .. } => self.add_token(*token),
            Obs::Waits { walker, .. } => self.add_walker(*walker),
            Obs::Catatonic { fs } => self.add_system(*fs),
            Obs::Released { walker, .. } => self.add_walker(*walker),
            Obs::Entered { walker, .. } => self.add_walker(*walker),
            Obs::Left { walker, .. } => self.add_walker(*walker),
            Obs::Died => self.add_daemon(),
            _ => Ok(()),
        }
    }

    fn make_room_for(&mut self, event: &Event) -> Result<(), AllocError>
        ensures { OnOk result (lasts_of self.new ≡ roomed_for (lasts_of self.old) event.now) }
    {
        match event {
            Event::Walk { walker, .. } => self.add_walker(*walker),
            Event::Resume { walker, .. } => self.add_walker(*walker),
            Event::Leave { walker } => self.add_walker(*walker),
            Event::Expire { walker, .. } => self.add_walker(*walker),
            _ => Ok(()),
        }
    }

    fn add_by(&mut self, number: u64, seen: &[Obs]) -> Result<(), AllocError>
        ensures { OnOk result (lasts_of self.new ≡ seen_added number (lasts_of self.old) seen.now) }
    {
        for obs in seen {
            self.make_room(obs)?;
            self.change(number, obs);
        }
        Ok(())
    }

    fn add_failing(&mut self, fresh: &Option<Failing>) -> Result<(), AllocError>
        ensures { OnOk result (lasts_of self.new ≡ with_failing_lane fresh.now (lasts_of self.old)) }
    {
        match fresh {
            None => Ok(()),
            Some(_) => add_lane(&mut self.failures),
        }
    }

    fn add_turn(&mut self, number: u64, world: &World) -> Result<(), AllocError>
        ensures { OnOk result
            (lasts_of self.new ≡ turned_added number world.now.kernel (lasts_of self.old)) }
    {
        self.end_failures(world);
        let fresh = self.fresh(number, world);
        self.add_failing(&fresh)?;
        self.begin(&fresh);
        Ok(())
    }

    /// So it is behind an event of which this is seen, and which leaves this world, where a lane is
    /// added for whoever may take none.
    pub fn add(
        &mut self,
        number: u64,
        event: &Event,
        seen: &[Obs],
        world: &World,
    ) -> Result<(), AllocError>
        ensures { OnOk result (lasts_of self.new
            ≡ added number (lasts_of self.old) event.now seen.now world.now.kernel) }
    {
        self.make_room_for(event)?;
        self.act(number, event);
        self.add_by(number, seen)?;
        self.add_turn(number, world)
    }
}
