//! Namespaces behind the first: each is copied from one that is there, and changed.

use crate::planner::{PASSES, Planner};
use crate::targets::Stage;
use am_group::Change;
use am_names::NsId;
use am_propagate::CopyForm;
use am_world::{Answer, Event};
use itoa::Buffer;
use std::alloc::{AllocError, Global};
use std::collections::{BTreeMap, BTreeSet};

/// Where what is bound later on is kept meanwhile.
const STAGE: &[u8] = b"/.import";

/// The namespace that was made.
fn namespace_in(answer: &Answer) -> Option<u32> {
    match answer {
        Answer::Namespace { ns } => Some(ns.0),
        _ => None,
    }
}

impl Planner {
    /// Builds a namespace.
    pub fn copy_space(&mut self, space: usize) -> Result<(), AllocError> {
        let Some(ns) = self.copied(space)? else {
            return Ok(());
        };
        self.tell_ns(space, ns);
        let Some(root) = self.root_row(space) else {
            return Ok(());
        };
        let Some(mount) = self.known.root(ns) else {
            return Ok(());
        };
        self.take(root, mount)?;
        self.match_rows(space)?;
        self.settle(root)?;
        self.keep_sources(space, ns)?;
        self.settle_rows(space)?;
        self.clear_ways(space)?;
        self.finish(space, Stage::Served)?;
        self.clear_others(ns)?;
        self.finish(space, Stage::Served)?;
        self.tell_homes(space)
    }

    fn root_row(&self, space: usize) -> Option<usize> {
        Some(self.targets.spaces.get(space)?.root)
    }

    /// Copies the namespace of which most groups are wanted: in full where a mount is to be in a group that is there
    /// already, and else reduced, which makes slaves of all that are shared.
    fn copied(&mut self, space: usize) -> Result<Option<u32>, AllocError> {
        let best = self.nearest(space)?;
        let form = if self.is_peer(space) {
            CopyForm::Full
        } else {
            CopyForm::Reduced
        };
        match self.make(&Event::CopyNamespace {
            ns: NsId(best),
            form,
        })? {
            Some(answer) => Ok(namespace_in(&answer)),
            None => Ok(None),
        }
    }

    /// The namespace that was the last to have most of the groups that are wanted.
    fn nearest(&self, space: usize) -> Result<u32, AllocError> {
        let mut counts: BTreeMap<u32, usize> = BTreeMap::new(self.alloc);
        for place in 0..self.size_of(space) {
            if let Some(row) = self.row_in(space, place) {
                let wish = self.wish_of(row);
                self.count_home(&mut counts, wish.group)?;
                self.count_home(&mut counts, wish.master)?;
            }
        }
        let mut best = 0;
        let mut most = 0;
        for (ns, count) in &counts {
            if *count > most {
                most = *count;
                best = *ns;
            }
        }
        Ok(best)
    }

    fn count_home(
        &self,
        counts: &mut BTreeMap<u32, usize>,
        group: Option<u64>,
    ) -> Result<(), AllocError> {
        let Some(group) = group else {
            return Ok(());
        };
        if let Some(ns) = self.homes.get(&group) {
            let count = counts.entry(*ns)?.or_insert(0);
            *count = count.saturating_add(1);
        }
        Ok(())
    }

    /// Whether a mount of a namespace is to be in a group that is there already.
    fn is_peer(&self, space: usize) -> bool {
        for place in 0..self.size_of(space) {
            if let Some(row) = self.row_in(space, place) {
                if self.group_for(self.wish_of(row).group).is_some() {
                    return true;
                }
            }
        }
        false
    }

    /// A namespace has the groups of its rows.
    pub fn tell_homes(&mut self, space: usize) -> Result<(), AllocError> {
        let Some(ns) = self.ns_of(space) else {
            return Ok(());
        };
        for place in 0..self.size_of(space) {
            if let Some(row) = self.row_in(space, place) {
                if let Some(group) = self.wish_of(row).group {
                    self.homes.insert(group, ns)?;
                }
            }
        }
        Ok(())
    }

    /// Mounts that were copied stand for the rows at their places.
    fn match_rows(&mut self, space: usize) -> Result<(), AllocError> {
        for _pass in 0..PASSES {
            let mut is_found = false;
            for place in 0..self.size_of(space) {
                if let Some(row) = self.row_in(space, place) {
                    is_found = self.match_row(row)? || is_found;
                }
            }
            if !is_found {
                return Ok(());
            }
        }
        Ok(())
    }

    fn match_row(&mut self, row: usize) -> Result<bool, AllocError> {
        if !self.is_open(row) {
            return Ok(false);
        }
        let Some(mount) = self.top_for(row)? else {
            return Ok(false);
        };
        if self.known.row_of(mount).is_some()
            || !self.fits(row, mount)
            || !self.may_be(row, mount)
        {
            return Ok(false);
        }
        self.take(row, mount)?;
        Ok(true)
    }

    /// The top at the place of a row.
    fn top_for(&self, row: usize) -> Result<Option<u64>, AllocError> {
        let Some(target) = self.targets.rows.get(row) else {
            return Ok(None);
        };
        let Some(parent) = target.parent else {
            return Ok(None);
        };
        match self.seat_of(parent) {
            Some(seat) => self.known.top(seat, target.place.as_slice()),
            None => Ok(None),
        }
    }

    /// Whether a mount can come to be as a row is, once the groups above are there.
    fn may_be(&self, row: usize, mount: u64) -> bool {
        let wish = self.wish_of(row);
        let state = self.state(mount);
        if let Some(group) = self.group_for(wish.group) {
            return state.group == Some(group);
        }
        match self.group_for(wish.master) {
            Some(master) => {
                self.is_right(wish, mount)
                    || state.group == Some(master)
                    || state.group.is_none() && state.master == Some(master)
            }
            None => true,
        }
    }

    fn settle_rows(&mut self, space: usize) -> Result<(), AllocError> {
        for place in 0..self.size_of(space) {
            if let Some(row) = self.row_in(space, place) {
                self.settle(row)?;
            }
        }
        Ok(())
    }

    /// Binds aside what missing rows are to be bound from, before anything is removed.
    fn keep_sources(&mut self, space: usize, ns: u32) -> Result<(), AllocError> {
        let mut kept = BTreeSet::new(self.alloc);
        for place in 0..self.size_of(space) {
            if let Some(row) = self.row_in(space, place) {
                if self.is_wanting(row) {
                    self.keep_source(row, ns, &mut kept)?;
                }
            }
        }
        Ok(())
    }

    /// Whether a row has no mount, and what it shows is there.
    fn is_wanting(&self, row: usize) -> bool {
        let Some(target) = self.targets.rows.get(row) else {
            return false;
        };
        target.seat.is_none() && !target.is_left && self.shows.contains_key(&target.shows)
    }

    /// Binds the mount aside from which a row is to be bound, unless it is one of these, which are there already.
    fn keep_source(
        &mut self,
        row: usize,
        ns: u32,
        kept: &mut BTreeSet<u64>,
    ) -> Result<(), AllocError> {
        let Some(source) = self.source(row, self.wish_of(row), ns)? else {
            return Ok(());
        };
        if kept.contains(&source) {
            return Ok(());
        }
        let Some(site) = self.site(source)? else {
            return Ok(());
        };
        kept.insert(source)?;
        let aside = aside(self.alloc, kept.len())?;
        if let Some(other) = self.bind(ns, site.path.as_slice(), aside.as_slice())? {
            kept.insert(other)?;
        }
        Ok(())
    }

    /// Removes what is in the way of rows: at their places, or on the way there.
    fn clear_ways(&mut self, space: usize) -> Result<(), AllocError> {
        for place in 0..self.size_of(space) {
            if let Some(row) = self.row_in(space, place) {
                if self.is_open(row) {
                    self.clear_way(row)?;
                }
            }
        }
        Ok(())
    }

    fn clear_way(&mut self, row: usize) -> Result<(), AllocError> {
        let Some(path) = self.path_for(row)? else {
            return Ok(());
        };
        let Some(target) = self.targets.rows.get(row) else {
            return Ok(());
        };
        let Some(parent) = target.parent else {
            return Ok(());
        };
        let Some(seat) = self.seat_of(parent) else {
            return Ok(());
        };
        let front = path.len().saturating_sub(target.place.len());
        let place = Vec::from_slice(self.alloc, path.get(front..).unwrap_or(b""))?;
        for end in 0..place.len().saturating_add(1) {
            if end == place.len() || place.get(end).copied() == Some(b'/') {
                let part = place.get(..end).unwrap_or(b"");
                if let Some(mount) = self.known.top(seat, part)? {
                    if self.known.row_of(mount).is_none() {
                        self.clear(mount)?;
                    }
                }
            }
        }
        Ok(())
    }

    /// Removes a mount, and what is on it, on its own.
    fn clear(&mut self, mount: u64) -> Result<(), AllocError> {
        let all = self.known.tree(mount)?;
        self.make_private(all.as_slice())?;
        for gone in all.iter().rev() {
            if let Some(site) = self.site(*gone)? {
                self.umount(site.ns, site.path.as_slice())?;
            }
        }
        Ok(())
    }

    fn make_private(&mut self, mounts: &[u64]) -> Result<(), AllocError> {
        for mount in mounts {
            let state = self.state(*mount);
            if state.group.is_some() || state.master.is_some() {
                if let Some(site) = self.site(*mount)? {
                    self.change(site.ns, site.path.as_slice(), Change::MakePrivate)?;
                }
            }
        }
        Ok(())
    }

    /// Removes all mounts of a namespace that stand for no row.
    fn clear_others(&mut self, ns: u32) -> Result<(), AllocError> {
        for index in 0..self.known.count() {
            let mount = index + 1;
            let is_other = match self.known.mount(mount) {
                Some(seen) => seen.ns == ns && seen.row.is_none(),
                None => false,
            };
            if is_other {
                self.clear(mount)?;
            }
        }
        Ok(())
    }
}

/// A path for what is kept: the number tells it from the others.
fn aside(alloc: Global, number: usize) -> Result<Vec<u8>, AllocError> {
    let mut digits = Buffer::new();
    let mut path = Vec::from_slice(alloc, STAGE)?;
    path.push(b'/')?;
    path.extend_from_slice(digits.format(number).as_bytes())?;
    Ok(path)
}
