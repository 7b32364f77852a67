//! The head of a script as far as it is read.

ghost use Rattle.std.specs.Prelude.{◌≡◌, ◌≤◌, ◌^◌, [], true, false, drop, None, Ok, IfOk, IfErr, IfNone, IfSome};
ghost use Rattle.am_master.specs.{master_read, StandWithin};
ghost use Rattle.am_script.specs.declared.fault.ScriptFaultKind.TheVariants.{NoMemory};
ghost use Rattle.am_script.specs.Fault.{IsFaultOr, fault_at};
ghost use Rattle.am_script.specs.Head.{is_limits, is_negative, master_in};
ghost use Rattle.am_script.specs.Heading.{may_open, is_start, is_early};
ghost use Rattle.am_lines.specs.{words_of};

use crate::event_word::is_word;
use crate::fault::{ScriptFault, ScriptFaultKind, fault_at};
use crate::limits::{default_limits, read_limits, read_negative};
use crate::line::{is_long, is_skipped};
use crate::maps::read_maps;
use crate::section::{Section, fault_in, is_end, is_only};
use am_lines::next_word;
use am_master::{Master, MasterFaultKind};
use am_names::Limits;
use am_world::World;
use std::alloc::Global;
use std::marker::Model;

/// How far the head has come.
#[derive(Clone, Copy)]
pub enum Stage {
    /// Only lines that are skipped have come.
    Start,
    /// Behind the limits.
    Limited,
    /// Behind how long failures last.
    Lasting,
    /// Behind the master section, or behind a map section.
    Mastered,
}

/// What the lines so far have said.
#[derive(Drop)]
pub struct Heading {
    stage: Stage,
    /// The section that the lines are in.
    within: Option<Section>,
    limits: Limits,
    master: Option<Master>,
    /// The number of the master section's first line.
    master_first: u64,
    /// The map sections, in their order.
    maps: Vec<Section>,
}

impl Model for Heading {
    ghost use Rattle.am_script.specs.Heading.{HeadSoFar};

    ghost Value = { HeadSoFar };

    ghost use Rattle.am_script.specs.View.{view_of, IsSound};

    ghost view = { view_of };

    ghost invariant = { IsSound };
}

impl Heading {
    ghost use Rattle.am_script.specs.Heading.{no_lines, after_line, in_section, between_sections, after_lone_line, after_later_line, opened, closed, after_limits, after_negative, taken_as, first_open, HeadFault, StopsAt};
    ghost use Rattle.am_script.specs.Limits.{limits_read, negative_read};
    ghost use Rattle.am_script.specs.Maps.{opening_read};
    ghost use Rattle.am_machine.specs.{setup_of, initial_state_of};
    ghost use Rattle.am_world.specs.Capacity.{state_of};

    /// Nothing is read yet.
    pub fn new(alloc: Global) -> Heading
        ensures { result ≡ no_lines }
    {
        Heading {
            stage: Stage::Start,
            within: None,
            limits: default_limits(),
            master: None,
            master_first: 0,
            maps: Vec::new(alloc),
        }
    }

    /// Takes the line with this number, and answers whether the events begin behind it.
    pub fn take_line(
        &mut self,
        alloc: Global,
        number: u64,
        line: &[u8],
    ) -> Result<bool, ScriptFault>
        requires { number ≤ 2 ^ 62 }
        ensures ok { IfOk result (λ begins. after_line self.old number line.now
            ≡ taken_as begins self.new) }
        ensures err { IfErr result (StopsAt number (after_line self.old number line.now)) }
    {
        if is_long(line) {
            return Err(fault_at(number, ScriptFaultKind::LongLine));
        }
        match self.within.take() {
            Some(section) => self.take_within(alloc, section, number, line),
            None => self.take_outside(alloc, number, line),
        }
    }

    /// Takes a line of the open section.
    fn take_within(
        &mut self,
        alloc: Global,
        mut section: Section,
        number: u64,
        line: &[u8],
    ) -> Result<bool, ScriptFault>
        requires { self.old.within ≡ None }
        ensures ok { IfOk result (λ begins. in_section self.old section line.now
            ≡ taken_as begins self.new) }
        ensures err { IfErr result (StopsAt number (in_section self.old section line.now)) }
    {
        if is_end(line) {
            return self.close(alloc, section, number);
        }
        match section.push_line(line) {
            Ok(()) => {
                self.within = Some(section);
                Ok(false)
            }
            Err(_) => Err(fault_at(number, ScriptFaultKind::NoMemory)),
        }
    }

    /// The section ends with the line of this number.
    fn close(&mut self, alloc: Global, section: Section, number: u64) -> Result<bool, ScriptFault>
        requires { self.old.within ≡ None }
        ensures ok { IfOk result (λ begins. closed self.old section ≡ taken_as begins self.new) }
        ensures err { IfErr result (StopsAt number (closed self.old section)) }
    {
        self.stage = Stage::Mastered;
        if section.is_map() {
            return match self.maps.push(section) {
                Ok(()) => Ok(false),
                Err(_) => Err(fault_at(number, ScriptFaultKind::NoMemory)),
            };
        }
        match read_master(alloc, &section, number) {
            Ok(master) => {
                self.master_first = section.first();
                self.master = Some(master);
                Ok(false)
            }
            Err(fault) => Err(fault),
        }
    }

    /// Takes a line outside of sections.
    fn take_outside(&mut self, alloc: Global, number: u64, line: &[u8]) -> Result<bool, ScriptFault>
        requires number { number ≤ 2 ^ 62 }
        requires outside { self.old.within ≡ None }
        ensures ok { IfOk result (λ begins. between_sections self.old number (words_of line.now)
            ≡ taken_as begins self.new) }
        ensures err { IfErr result (StopsAt number (between_sections self.old number
            (words_of line.now))) }
    {
        if is_skipped(line) {
            return Ok(false);
        }
        match Section::open(alloc, number, line) {
            Ok(Some(section)) => self.open_section(section),
            Ok(None) => self.take_alone(number, line),
            Err(_) => Err(fault_at(number, ScriptFaultKind::NoMemory)),
        }
    }

    /// A section begins, if it may.
    fn open_section(&mut self, section: Section) -> Result<bool, ScriptFault>
        ensures ok { IfOk result (λ begins. opened self.old section ≡ taken_as begins self.new) }
        ensures err { IfErr result (λ fault. opened self.old section ≡ HeadFault fault) }
    {
        if !may_open(&self.stage, &section) {
            return Err(fault_at(section.first(), ScriptFaultKind::BadSection));
        }
        self.within = Some(section);
        Ok(false)
    }

    /// Takes a line that opens no section.
    fn take_alone(&mut self, number: u64, line: &[u8]) -> Result<bool, ScriptFault>
        ensures ok { IfOk result (λ begins. after_lone_line self.old number (words_of line.now)
            ≡ taken_as begins self.new) }
        ensures err { IfErr result (λ fault. after_lone_line self.old number (words_of line.now)
            ≡ HeadFault fault) }
    {
        if is_start(&self.stage) {
            if let Some(words) = behind_limits(line) {
                return self.take_limits(number, words);
            }
        }
        self.take_later(number, line)
    }

    /// Takes a line that tells how long failures last, or begins the events.
    fn take_later(&mut self, number: u64, line: &[u8]) -> Result<bool, ScriptFault>
        ensures ok { IfOk result (λ begins. after_later_line self.old number (words_of line.now)
            ≡ taken_as begins self.new) }
        ensures err { IfErr result (λ fault. after_later_line self.old number (words_of line.now)
            ≡ HeadFault fault) }
    {
        if is_early(&self.stage) {
            if let Some(words) = behind_negative(line) {
                return self.take_negative(number, words);
            }
        }
        if is_only(b"events", line) {
            return Ok(true);
        }
        Err(fault_at(number, ScriptFaultKind::BadSection))
    }

    /// Takes the words behind `limits`.
    fn take_limits(&mut self, number: u64, words: &[u8]) -> Result<bool, ScriptFault>
        ensures ok { IfOk result (λ begins. after_limits self.old number
            (limits_read (words_of words.now)) ≡ taken_as begins self.new) }
        ensures err { IfErr result (λ fault. after_limits self.old number
            (limits_read (words_of words.now)) ≡ HeadFault fault) }
    {
        match read_limits(words) {
            Some(limits) => {
                self.limits = limits;
                self.stage = Stage::Limited;
                Ok(false)
            }
            None => Err(fault_at(number, ScriptFaultKind::BadLimits)),
        }
    }

    /// Takes the words behind `negative`.
    fn take_negative(&mut self, number: u64, words: &[u8]) -> Result<bool, ScriptFault>
        ensures ok { IfOk result (λ begins. after_negative self.old number
            (negative_read (words_of words.now)) ≡ taken_as begins self.new) }
        ensures err { IfErr result (λ fault. after_negative self.old number
            (negative_read (words_of words.now)) ≡ HeadFault fault) }
    {
        match read_negative(words) {
            Some(seconds) => {
                self.limits.negative = seconds;
                self.stage = Stage::Lasting;
                Ok(false)
            }
            None => Err(fault_at(number, ScriptFaultKind::BadLimits)),
        }
    }

    /// The world that begins behind the line with this number.
    pub fn begin(self, alloc: Global, number: u64) -> Result<World, ScriptFault>
        ensures opening { IfOk result (λ world. opening_read self.said ≡ Ok
            (setup_of (state_of world))) }
        ensures world { IfOk result (λ world. state_of world ≡ initial_state_of
            (setup_of (state_of world))) }
        ensures err { IfErr result (λ fault. IsFaultOr number fault (opening_read self.said)) }
    {
        let Heading {
            stage: _,
            within: _,
            limits,
            master,
            master_first,
            maps,
        } = self;
        let master = match master {
            Some(master) => master,
            None => empty_master(alloc, number)?,
        };
        let maps = read_maps(alloc, &maps, master_first, master.entries(), number)?;
        match World::new(alloc, limits, master, maps) {
            Ok(world) => Ok(world),
            Err(_) => Err(fault_at(number, ScriptFaultKind::NoMemory)),
        }
    }

    /// The first line of the section that the lines are in, if they are in one.
    pub fn section(&self) -> Option<u64>
        ensures { result ≡ first_open self.now.within }
    {
        match &self.within {
            Some(section) => Some(section.first()),
            None => None,
        }
    }
}

/// Whether the section may stand there: a second master section may not, and nor may one behind a
/// map section.
fn may_open(stage: &Stage, section: &Section) -> bool
    ensures { result ≡ may_open stage.now section.now }
{
    match stage {
        Stage::Mastered => section.is_map(),
        Stage::Start | Stage::Limited | Stage::Lasting => true,
    }
}

fn is_start(stage: &Stage) -> bool
    ensures { result ≡ is_start stage.now }
{
    match stage {
        Stage::Start => true,
        Stage::Limited | Stage::Lasting | Stage::Mastered => false,
    }
}

/// Whether how long failures last may still be told.
fn is_early(stage: &Stage) -> bool
    ensures { result ≡ is_early stage.now }
{
    match stage {
        Stage::Start | Stage::Limited => true,
        Stage::Lasting | Stage::Mastered => false,
    }
}

/// What stands behind the word `limits`, if that is the first.
fn behind_limits(line: &[u8]) -> Option<&[u8]>
    ensures none { IfNone result (is_limits (words_of line.now) ≡ false) }
    ensures first { IfSome result (λ words. is_limits (words_of line.now) ≡ true) }
    ensures others { IfSome result (λ words. words_of words.now ≡ drop 1 (words_of line.now)) }
{
    let (word, words) = next_word(line)?;
    if !is_word(word, b"limits") {
        return None;
    }
    Some(words)
}

/// What stands behind the word `negative`, if that is the first.
fn behind_negative(line: &[u8]) -> Option<&[u8]>
    ensures none { IfNone result (is_negative (words_of line.now) ≡ false) }
    ensures first { IfSome result (λ words. is_negative (words_of line.now) ≡ true) }
    ensures others { IfSome result (λ words. words_of words.now ≡ drop 1 (words_of line.now)) }
{
    let (word, words) = next_word(line)?;
    if !is_word(word, b"negative") {
        return None;
    }
    Some(words)
}

/// The master map of a section. Out of memory is told at the line `number`.
fn read_master(alloc: Global, section: &Section, number: u64) -> Result<Master, ScriptFault>
    ensures ok { IfOk result (λ master. master_in section.now.first (master_read section.now.text)
        ≡ Ok master) }
    ensures lines { IfOk result (StandWithin (2 ^ 63)) }
    ensures err { IfErr result (λ fault. IsFaultOr number fault
        (master_in section.now.first (master_read section.now.text))) }
{
    match Master::read(alloc, section.text()) {
        Ok(master) => Ok(master),
        Err(fault) => match fault.kind {
            MasterFaultKind::NoMemory => Err(fault_at(number, ScriptFaultKind::NoMemory)),
            kind => Err(fault_in(
                section.first(),
                fault.line,
                ScriptFaultKind::BadMaster { kind },
            )),
        },
    }
}

/// The master map of a script that has no master section.
fn empty_master(alloc: Global, number: u64) -> Result<Master, ScriptFault>
    ensures ok { IfOk result (λ master. master ≡ []) }
    ensures err { IfErr result (λ fault. fault ≡ fault_at number NoMemory) }
{
    match Master::read(alloc, b"") {
        Ok(master) => Ok(master),
        Err(_) => Err(fault_at(number, ScriptFaultKind::NoMemory)),
    }
}
