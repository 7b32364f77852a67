//! What a walk meets at a place (autofs.rst, "Mount Traps").

ghost use Rattle.std.specs.Prelude.{◌≡◌, Some};
ghost use Rattle.am_mount.specs.{top_of};
ghost use Rattle.am_trigger.specs.{trigger_in};
ghost use Rattle.am_walk.specs.View.{scene_in};
ghost use Rattle.am_walk.specs.Meet.{at_directory, at_trap, at_trigger, at_plain, next_at};

use crate::scene::View;
use crate::stop::{Next, Stop};
use am_names::{Errno, MountId, Place, TokenKind, Trigger};
use am_trigger::Autofs;
use am_wait::Waits;

impl View<'_> {
    /// The top at a place.
    fn top(&self, mount: MountId, place: &Place) -> Option<MountId>
        ensures { result ≡ top_of self.now.tree.now mount place.now }
    {
        self.tree.top(mount, place.text())
    }

    /// The directory itself, if it is made, or the direct root itself.
    fn at_directory(&self, row: &Autofs, trigger: &Trigger) -> Next
        ensures { result ≡ at_directory (scene_in self.now) row.now trigger.now }
    {
        if row.direct || self.triggers.made(trigger) {
            return Next::Rests;
        }
        Next::Halts(Stop::Refuse(Errno::ENOENT))
    }

    /// What a walk meets at a trigger, the first that holds.
    fn at_trap(
        &self,
        waits: &Waits,
        row: &Autofs,
        trigger: Trigger,
        mount: MountId,
        place: &Place,
    ) -> Next
        requires { trigger_in row.now place.now ≡ Some trigger }
        ensures { result ≡ at_trap waits.now.tokens (scene_in self.now) row.now trigger mount
            place.now }
    {
        if let Some(token) = waits.open_on(TokenKind::Expire, &trigger) {
            return Next::Halts(Stop::Block(token));
        }
        if let Some(token) = waits.open_on(TokenKind::Missing, &trigger) {
            return Next::Halts(Stop::Block(token));
        }
        if let Some(mount) = self.top(mount, place) {
            return Next::Passes(mount, trigger);
        }
        if row.catatonic {
            return self.at_directory(row, &trigger);
        }
        // A trigger has the same place at every mount of its file system.
        if self.top(row.location, place).is_some() {
            return Next::Halts(Stop::Refuse(Errno::ELOOP));
        }
        if let Some(no) = self.error(&trigger) {
            return Next::Halts(Stop::Refuse(no.errno()));
        }
        Next::Halts(Stop::Missing(trigger))
    }

    /// What a walk meets at a trigger, with the traps on or off.
    fn at_trigger(&self, row: &Autofs, trigger: Trigger, mount: MountId, place: &Place) -> Next
        requires { trigger_in row.now place.now ≡ Some trigger }
        ensures { result ≡ at_trigger (scene_in self.now).tokens
            (scene_in self.now) row.now trigger mount place.now }
    {
        if let Some(waits) = self.waits {
            return self.at_trap(waits, row, trigger, mount, place);
        }
        if let Some(mount) = self.top(mount, place) {
            return Next::Enters(mount);
        }
        self.at_directory(row, &trigger)
    }

    fn at_plain(&self, mount: MountId, place: &Place) -> Next
        ensures { result ≡ at_plain (scene_in self.now) mount place.now }
    {
        match self.top(mount, place) {
            Some(mount) => Next::Enters(mount),
            None => Next::Rests,
        }
    }

    /// What a walk meets at a place of a mount.
    pub fn next_at(&self, mount: MountId, place: &Place) -> Next
        ensures { result ≡ next_at (scene_in self.now) mount place.now }
    {
        let Some(row) = self.autofs_at(mount) else {
            return self.at_plain(mount, place);
        };
        match row.trigger_in(place) {
            Some(trigger) => self.at_trigger(&row, trigger, mount, place),
            None => self.at_plain(mount, place),
        }
    }
}
