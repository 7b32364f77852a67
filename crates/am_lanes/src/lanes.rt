//! The table of lanes.

ghost use Rattle.std.specs.Prelude.{◌≡◌, ◌<◌, ◌+◌, ◌^◌, ℕ, true, [], ◌∷◌, ◌++◌, length, map, replicate, set, get_or, Some, None, option_map, IfOk, IfSome, OnOk, OnErr};
ghost use Rattle.std.specs.List.{position, list_any};
ghost use Rattle.am_lanes.specs.Bars.{is_of, is_free, may_take, or_last, lane_of, free_lane, own_or_free, lane_for, placed, sighted, with_lane, ended, ended_lane, IsNextEnding};
ghost use Rattle.am_lanes.specs.Inside.{from_on, IsOnce, IsIndexOf};

use crate::holder::{Ending, Holder, ended, ends_lane, is_free, is_of, push_nobody};
use crate::index::Index;
use std::alloc::{AllocError, Global};
use std::marker::Model;

/// Lanes of one kind, as of walkers. No two have the same holder. Of a table with an index a look-up
/// takes no longer where there are more lanes, but for a logarithm; one without looks at all of them.
#[derive(Drop)]
pub struct Lanes {
    holders: Vec<Option<Holder>>,
    /// None once memory ran out for it, until `mend` makes it anew.
    index: Option<Index>,
}

impl Model for Lanes {
    ghost use Rattle.std.specs.Prelude.{List, Option};
    ghost use Rattle.am_lanes.specs.declared.holder.Holder.{Holder};

    ghost Value = { List (Option Holder) };

    ghost use Rattle.am_lanes.specs.View.{AreKept};

    ghost view = { λ t. t.holders.items };

    ghost invariant = { AreKept };
}

/// The first lane that is this number's.
fn position_of(holders: &[Option<Holder>], number: u32) -> Option<usize>
    ensures { result ≡ position (λ lane. is_of number lane) holders.now }
{
    holders.iter().position(|lane| is_of(lane, number))
}

/// The first lane that is free.
fn position_free(holders: &[Option<Holder>]) -> Option<usize>
    ensures { result ≡ position (λ lane. is_free lane) holders.now }
{
    holders.iter().position(|lane| is_free(lane))
}

/// The first lane from this one on whose bar ends.
fn position_ending(holders: &[Option<Holder>], ending: &Ending, from: usize) -> Option<usize>
    ensures { IsNextEnding ending.now from holders.now result }
{
    for lane in from..holders.len() {
        if ends_lane(ending, &holders[lane]) {
            return Some(lane);
        }
    }
    None
}

fn empty_lanes(holders: &mut Vec<Option<Holder>>)
    ensures { holders.new.items ≡ map (λ lane. None) holders.old.items }
{
    for lane in holders.iter_mut() {
        *lane = None;
    }
}

/// The lane, unless it is before this one.
fn from_on(lane: Option<usize>, from: usize) -> Option<usize>
    ensures { result ≡ from_on from lane }
{
    let lane = lane?;
    if from <= lane {
        return Some(lane);
    }
    None
}

/// An index of these lanes.
fn index_of(alloc: Global, holders: &[Option<Holder>]) -> Result<Index, AllocError>
    requires { IsOnce holders.now }
    ensures { IfOk result (IsIndexOf holders.now) }
{
    let mut index = Index::new(alloc);
    for (lane, holder) in holders.iter().enumerate() {
        index.add(lane)?;
        if let Some(new) = holder {
            index.change(lane, &None, new)?;
        }
    }
    Ok(index)
}

impl Lanes {
    /// There is no lane.
    pub fn new(alloc: Global) -> Lanes
        ensures { result ≡ [] }
    {
        Lanes {
            holders: Vec::new(alloc),
            index: None,
        }
    }

    /// How many lanes there are.
    pub fn len(&self) -> usize
        ensures { result ≡ length self.now }
    {
        self.holders.len()
    }

    /// Who holds the lane.
    pub fn holder(&self, lane: usize) -> Option<Holder>
        ensures { result ≡ get_or self.now lane None }
    {
        if lane < self.holders.len() {
            return self.holders[lane];
        }
        None
    }

    /// Makes an index, if there is none.
    pub fn mend(&mut self, alloc: Global) -> Result<(), AllocError>
        ensures { self.new ≡ self.old }
    {
        if self.index.is_none() {
            self.index = Some(index_of(alloc, &self.holders)?);
        }
        Ok(())
    }

    /// Nobody holds a lane any more.
    pub fn clear(&mut self)
        ensures { self.new ≡ replicate (length self.old) None }
    {
        self.index = None;
        empty_lanes(&mut self.holders);
    }

    fn own_lane(&self, number: u32) -> Option<usize>
        ensures { result ≡ position (λ lane. is_of number lane) self.now }
    {
        match &self.index {
            Some(index) => index.lane_of(number),
            None => position_of(&self.holders, number),
        }
    }

    fn first_free(&self) -> Option<usize>
        ensures { result ≡ position (λ lane. is_free lane) self.now }
    {
        match &self.index {
            Some(index) => index.first_free(),
            None => position_free(&self.holders),
        }
    }

    /// The first lane from this one on whose bar ends.
    pub fn next_ending(&self, ending: &Ending, from: usize) -> Option<usize>
        ensures next { IsNextEnding ending.now from self.now result }
        ensures fits { IfSome result (λ lane. lane + 1 < 2 ^ 64) }
    {
        let Some(index) = &self.index else {
            return position_ending(&self.holders, ending, from);
        };
        match ending {
            Ending::Of { number } => from_on(index.lane_of(*number), from),
            Ending::In { fs } => index.next_in(fs.0, from),
            Ending::All => position_ending(&self.holders, ending, from),
        }
    }

    fn or_last(&self, lane: Option<usize>) -> usize
        ensures { result ≡ or_last self.now lane }
    {
        match lane {
            None => self.holders.len().saturating_sub(1),
            Some(lane) => lane,
        }
    }

    /// The lane that who has the number is drawn in.
    pub fn lane_of(&self, number: u32) -> usize
        ensures { result ≡ lane_of number self.now }
    {
        self.or_last(self.own_lane(number))
    }

    fn free_lane(&self) -> usize
        ensures { result ≡ free_lane self.now }
    {
        self.or_last(self.first_free())
    }

    fn lane_for(&self, number: u32) -> usize
        ensures { result ≡ lane_for number self.now }
    {
        match self.own_lane(number) {
            None => self.free_lane(),
            Some(lane) => lane,
        }
    }

    fn put(&mut self, lane: usize, holder: Holder)
        requires { (l : ℕ) → is_of holder.number (get_or self.now l None) ≡ true → l ≡ lane }
        ensures { self.new ≡ set self.old lane (Some holder) }
    {
        if self.holders.len() <= lane {
            return;
        }
        let old = self.holder(lane);
        self.holders[lane] = Some(holder);
        if let Some(index) = &mut self.index {
            if index.change(lane, &old, &holder).is_err() {
                self.index = None;
            }
        }
    }

    /// It stands in its lane from here on.
    pub fn place(&mut self, holder: Holder)
        ensures { self.new ≡ placed holder self.old }
    {
        // The invariant is known where a field is used.
        let _ = &self.holders;
        let lane = self.lane_for(holder.number);
        self.put(lane, holder);
    }

    fn has_lane(&self, number: u32) -> bool
        ensures { result ≡ list_any (λ lane. is_of number lane) self.now }
    {
        self.own_lane(number).is_some()
    }

    /// One that has no lane takes one.
    pub fn sight(&mut self, holder: Holder)
        ensures { self.new ≡ sighted holder self.old }
    {
        if !self.has_lane(holder.number) {
            self.place(holder);
        }
    }

    fn has_free(&self) -> bool
        ensures { result ≡ list_any (λ lane. is_free lane) self.now }
    {
        self.first_free().is_some()
    }

    fn finds_lane(&self, number: u32) -> bool
        ensures { result ≡ list_any (λ lane. may_take number lane) self.now }
    {
        let has_lane = self.has_lane(number);
        has_lane || self.has_free()
    }

    fn push_lane(&mut self) -> Result<(), AllocError>
        ensures ok { OnOk result (self.new ≡ self.old ++ None ∷ []) }
        ensures err { OnErr result (self.new ≡ self.old) }
    {
        let lane = self.holders.len();
        push_nobody(&mut self.holders)?;
        if let Some(index) = &mut self.index {
            if index.add(lane).is_err() {
                self.index = None;
            }
        }
        Ok(())
    }

    /// Where who has the number may take no lane, one is added.
    pub fn add_lane(&mut self, number: u32) -> Result<(), AllocError>
        ensures ok { OnOk result (self.new ≡ with_lane number self.old) }
        ensures err { OnErr result (self.new ≡ self.old) }
    {
        if !self.finds_lane(number) {
            self.push_lane()?;
        }
        Ok(())
    }

    /// The bar in the lane ends.
    fn end_bar(&mut self, lane: usize)
        ensures { self.new ≡ set self.old lane (option_map ended (get_or self.old lane None)) }
    {
        // The invariant is known where a field is used.
        let _ = &self.holders;
        if let Some(holder) = self.holder(lane) {
            self.put(lane, ended(holder));
        }
    }

    /// The bars end that end so.
    pub fn end_bars(&mut self, ending: &Ending)
        ensures { self.new ≡ map (ended_lane ending.now) self.old }
    {
        let mut from = 0;
        while let Some(lane) = self.next_ending(ending, from) {
            self.end_bar(lane);
            from = lane + 1;
        }
    }
}
