//! The states of mounts are changed until they are as the rows tell them.

use crate::planner::Planner;
use crate::targets::Wish;
use am_group::Change;
use std::alloc::AllocError;

/// How often the state of one mount is changed.
const TRIES: u8 = 4;

impl Planner {
    /// The peer group of the world that stands for one of the rows.
    pub fn group_for(&self, group: Option<u64>) -> Option<u64> {
        self.groups.get(&group?).copied()
    }

    /// Whether a mount takes part in propagation as it is wished.
    pub fn is_right(&self, wish: Wish, mount: u64) -> bool {
        let state = self.state(mount);
        match (wish.group, wish.master) {
            (Some(group), _) => match self.groups.get(&group) {
                Some(known) => state.group == Some(*known),
                None => self.is_fresh(wish, state),
            },
            (None, Some(_)) => {
                let master = self.group_for(wish.master);
                state.group.is_none() && master.is_some() && state.master == master
            }
            (None, None) => {
                state.group.is_none()
                    && state.master.is_none()
                    && state.is_unbindable == wish.is_unbindable
            }
        }
    }

    /// Whether the peer group of a mount can stand for one that none stands for yet.
    fn is_fresh(&self, wish: Wish, state: Wish) -> bool {
        let Some(group) = state.group else {
            return false;
        };
        if self.given.contains(&group) {
            return false;
        }
        match wish.master {
            None => state.master.is_none(),
            Some(_) => {
                let master = self.group_for(wish.master);
                master.is_some() && state.master == master
            }
        }
    }

    /// A mount is as it is wished: its peer group stands for that of the wish.
    pub fn give_group(&mut self, wish: Wish, mount: u64) -> Result<(), AllocError> {
        let Some(group) = wish.group else {
            return Ok(());
        };
        if self.groups.contains_key(&group) {
            return Ok(());
        }
        if let Some(own) = self.state(mount).group {
            self.groups.insert(group, own)?;
            self.given.insert(own)?;
        }
        Ok(())
    }

    /// Whether changes can make a mount as it is wished.
    pub fn can_be(&self, wish: Wish, mount: u64) -> bool {
        if self.is_right(wish, mount) {
            return true;
        }
        if self.group_for(wish.group).is_some() {
            return false;
        }
        if wish.master.is_none() {
            return true;
        }
        let state = self.state(mount);
        let master = self.group_for(wish.master);
        master.is_some()
            && (state.group == master || state.group.is_none() && state.master == master)
    }

    /// Changes a mount until it is as it is wished, and tells whether it is.
    pub fn make_right(&mut self, wish: Wish, mount: u64) -> Result<bool, AllocError> {
        if !self.is_right(wish, mount) {
            if !self.can_be(wish, mount) {
                return Ok(false);
            }
            let Some(site) = self.site(mount)? else {
                return Ok(false);
            };
            self.change_to(wish, mount, site.ns, site.path.as_slice())?;
        }
        if !self.is_right(wish, mount) {
            return Ok(false);
        }
        self.give_group(wish, mount)?;
        Ok(true)
    }

    fn change_to(
        &mut self,
        wish: Wish,
        mount: u64,
        ns: u32,
        path: &[u8],
    ) -> Result<(), AllocError> {
        if wish.master.is_some() {
            if self.state(mount).group.is_some() {
                self.change(ns, path, Change::MakeSlave)?;
            }
            let master = self.group_for(wish.master);
            if wish.group.is_some() && self.state(mount).master == master {
                self.change(ns, path, Change::MakeShared)?;
            }
            return Ok(());
        }
        if wish.is_unbindable {
            self.change(ns, path, Change::MakeUnbindable)?;
            return Ok(());
        }
        let state = self.state(mount);
        if state.group.is_some() || state.master.is_some() || state.is_unbindable {
            self.change(ns, path, Change::MakePrivate)?;
        }
        if wish.group.is_some() {
            self.change(ns, path, Change::MakeShared)?;
        }
        Ok(())
    }

    /// Makes the mount of a row as the row tells it, if that wasn't tried too often. Tells whether it has changed.
    pub fn settle(&mut self, row: usize) -> Result<bool, AllocError> {
        let wish = self.wish_of(row);
        let Some(target) = self.targets.rows.get_mut(row) else {
            return Ok(false);
        };
        let Some(mount) = target.seat else {
            return Ok(false);
        };
        let tries = target.tries;
        if self.is_right(wish, mount) {
            self.give_group(wish, mount)?;
            return Ok(false);
        }
        if tries >= TRIES {
            return Ok(false);
        }
        if let Some(target) = self.targets.rows.get_mut(row) {
            target.tries = tries.saturating_add(1);
        }
        self.make_right(wish, mount)
    }
}
