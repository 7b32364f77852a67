//! What the lines of a scene have said so far.

ghost use Rattle.std.specs.Prelude.{◌≡◌, ◌+◌, ◌≤◌, ◌^◌, Option, None, Ok, Err, length, option_copied, IfOk, IfErr, OnOk};
ghost use Rattle.am_lines.specs.{words_of};
ghost use Rattle.am_script.specs.{ScriptFaultKind};
ghost use Rattle.am_script.specs.Lines.{lines_in};
ghost use Rattle.am_world.specs.Capacity.{state_of};
ghost use Rattle.am_script.specs.Events.{event_read};
ghost use Rattle.am_scenes.specs.declared.fault.SceneFaultKind.TheVariants.{NoMemory};

use crate::asked::{Asked, Claim};
use crate::fault::{SceneFault, SceneFaultKind, fault_at, kind_of_script};
use crate::line::{is_long, is_only, is_skipped, is_word, only_word, split_line};
use crate::question_words::{read_no_line, read_question, thread_named};
use crate::service_words::read_service;
use crate::thread_name::ThreadName;
use crate::told::Told;
use am_explore::{Question, Scene, Service, Thread};
use am_lines::next_word;
use am_machine::Event;
use am_script::ScriptFaultKind;
use am_script::event_line::read_event;
use am_world::World;
use std::alloc::Global;
use std::marker::Model;

/// A thread that has no `end` yet.
#[derive(Drop)]
pub struct OpenThread {
    /// The number of its first line.
    line: u64,
    events: Vec<Event>,
}

impl Model for OpenThread {
    ghost use Rattle.am_scenes.specs.SoFar.{Unended};

    ghost Value = { Unended };

    ghost view = { λ t. record { line = t.line; events = t.events.items } };
}

/// What the lines so far have said.
#[derive(Drop)]
pub struct Gathered {
    names: Vec<ThreadName>,
    /// The threads that have their `end`.
    threads: Vec<Thread>,
    /// The thread that the lines are in.
    within: Option<OpenThread>,
    service: Option<Service>,
    asked: Vec<Asked>,
}

impl Model for Gathered {
    ghost use Rattle.am_scenes.specs.SoFar.{SceneSoFar};

    ghost Value = { SceneSoFar };

    ghost use Rattle.am_scenes.specs.View.{view_of};

    ghost view = { view_of };
}

impl Gathered {
    ghost use Rattle.am_scenes.specs.Reading.{Stops, StopsIn, so_far_of};
    ghost use Rattle.am_scenes.specs.SceneLines.{after_line, always_asked, by_word, event_behind, has_asked, if_early, in_thread, outside, question_asked, scene_ends, scene_from, served, thread_begun, thread_ended, with_question};
    ghost use Rattle.am_scenes.specs.SoFar.{nothing_said};
    ghost use Rattle.am_scenes.specs.Asking.{asks_of};

    /// Nothing is said yet.
    pub fn new(alloc: Global) -> Gathered
        ensures { result ≡ nothing_said }
    {
        Gathered {
            names: Vec::new(alloc),
            threads: Vec::new(alloc),
            within: None,
            service: None,
            asked: Vec::new(alloc),
        }
    }

    /// Takes all lines that are left, behind so many, up to their end or to where reading broke off.
    pub fn take_all(
        &mut self,
        alloc: Global,
        rest: Option<&[u8]>,
        line: u64,
        broke: Option<ScriptFaultKind>,
    ) -> Result<(), SceneFault>
        requires { line + length (lines_in (option_copied rest)) ≤ 2 ^ 63 }
        ensures ok { OnOk result (scene_from broke self.old line
            (lines_in (option_copied rest.entry)) ≡ Ok self.new) }
        ensures outside { OnOk result (self.new.within ≡ None) }
        ensures err { IfErr result (StopsIn line (lines_in (option_copied rest.entry))
            (scene_from broke self.old line (lines_in (option_copied rest.entry)))) }
    {
        let last = self.take_lines(alloc, rest, line)?;
        self.end(broke, last)
    }

    /// Takes these lines, behind so many, and answers how many there are then.
    fn take_lines(
        &mut self,
        alloc: Global,
        rest: Option<&[u8]>,
        line: u64,
    ) -> Result<u64, SceneFault>
        requires { line + length (lines_in (option_copied rest)) ≤ 2 ^ 63 }
        ensures ok { IfOk result (λ last. (broke : Option ScriptFaultKind) →
            scene_from broke self.old line (lines_in (option_copied rest.entry))
            ≡ scene_ends broke self.new last) }
        ensures err { IfErr result (λ fault. (broke : Option ScriptFaultKind) →
            StopsIn line (lines_in (option_copied rest.entry))
            (scene_from broke self.old line (lines_in (option_copied rest.entry))) fault) }
    {
        let mut rest = rest;
        let mut number = line;
        while let Some(here) = rest {
            let (text, after) = split_line(here);
            number += 1;
            match self.take_line(alloc, number, text) {
                Ok(()) => rest = after,
                Err(kind) => return Err(fault_at(number, kind)),
            }
        }
        Ok(number)
    }

    /// The lines end, behind so many, or reading broke off there.
    fn end(&self, broke: Option<ScriptFaultKind>, before: u64) -> Result<(), SceneFault>
        ensures ok { OnOk result (scene_ends broke self.now before ≡ Ok self.now) }
        ensures outside { OnOk result (self.now.within ≡ None) }
        ensures err { IfErr result (λ fault. scene_ends broke self.now before ≡ Err fault) }
    {
        if let Some(kind) = broke {
            return Err(fault_at(before, kind_of_script(kind)));
        }
        match &self.within {
            None => Ok(()),
            Some(thread) => Err(fault_at(thread.line, SceneFaultKind::NoEnd)),
        }
    }

    /// The scene that the lines say, in the world that its events go on from.
    pub fn told(self, world: World) -> Told
        requires { self.within ≡ None }
        ensures scene { so_far_of result ≡ self }
        ensures world { state_of result.world ≡ state_of world }
    {
        let Gathered {
            names,
            threads,
            within: _,
            service,
            asked,
        } = self;
        Told {
            world,
            scene: Scene {
                threads,
                daemon: service,
            },
            names,
            asked,
        }
    }

    /// Takes the line of this number.
    fn take_line(&mut self, alloc: Global, number: u64, line: &[u8]) -> Result<(), SceneFaultKind>
        ensures ok { OnOk result (after_line self.old number line.now ≡ Ok self.new) }
        ensures err { IfErr result (Stops (after_line self.old number line.now)) }
    {
        if is_long(line) {
            return Err(SceneFaultKind::Script {
                kind: ScriptFaultKind::LongLine,
            });
        }
        if is_skipped(line) {
            return Ok(());
        }
        match self.within.take() {
            Some(thread) => self.take_within(alloc, thread, line),
            None => self.take_outside(alloc, number, line),
        }
    }

    /// Takes a line of this thread.
    fn take_within(
        &mut self,
        alloc: Global,
        thread: OpenThread,
        line: &[u8],
    ) -> Result<(), SceneFaultKind>
        ensures ok { OnOk result (in_thread self.old thread (words_of line.now) ≡ Ok self.new) }
        ensures err { IfErr result (Stops (in_thread self.old thread (words_of line.now))) }
    {
        if is_only(b"end", line) {
            return self.end_thread(thread);
        }
        self.take_event(alloc, thread, line)
    }

    /// The thread has its `end`.
    fn end_thread(&mut self, thread: OpenThread) -> Result<(), SceneFaultKind>
        ensures ok { OnOk result (self.new ≡ thread_ended self.old thread) }
        ensures err { IfErr result (λ kind. kind ≡ NoMemory) }
    {
        let OpenThread { line: _, events } = thread;
        self.threads.push(Thread { events })?;
        self.within = None;
        Ok(())
    }

    /// Takes a line of this thread that is an event, or none.
    fn take_event(
        &mut self,
        alloc: Global,
        thread: OpenThread,
        line: &[u8],
    ) -> Result<(), SceneFaultKind>
        ensures ok { OnOk result (event_behind self.old thread (event_read (words_of line.now))
            ≡ Ok self.new) }
        ensures err { IfErr result (Stops (event_behind self.old thread
            (event_read (words_of line.now)))) }
    {
        let Some(event) = read_event(alloc, line)? else {
            return Err(SceneFaultKind::BadThreadEvent);
        };
        let mut thread = thread;
        thread.events.push(event)?;
        self.within = Some(thread);
        Ok(())
    }

    /// Takes a line outside of threads.
    fn take_outside(
        &mut self,
        alloc: Global,
        number: u64,
        line: &[u8],
    ) -> Result<(), SceneFaultKind>
        requires { self.old.within ≡ None }
        ensures ok { OnOk result (outside self.old number (words_of line.now) ≡ Ok self.new) }
        ensures err { IfErr result (Stops (outside self.old number (words_of line.now))) }
    {
        match next_word(line) {
            None => Ok(()),
            Some((word, words)) => self.take_by_word(alloc, number, word, words),
        }
    }

    /// Takes a line outside of threads, by its first word and those behind it.
    fn take_by_word(
        &mut self,
        alloc: Global,
        number: u64,
        word: &[u8],
        words: &[u8],
    ) -> Result<(), SceneFaultKind>
        ensures ok { OnOk result (by_word self.old number word.now (words_of words.now)
            ≡ Ok self.new) }
        ensures err { IfErr result (Stops (by_word self.old number word.now
            (words_of words.now))) }
    {
        match word {
            _ if is_word(word, b"thread") => self.begin_thread(alloc, number, words),
            _ if is_word(word, b"serve") => self.take_service(alloc, words),
            _ if is_word(word, b"sometimes") => self.ask(alloc, number, Claim::Sometimes, words),
            _ if is_word(word, b"never") => self.ask(alloc, number, Claim::Never, words),
            _ if is_word(word, b"always") => self.ask_always(alloc, number, words),
            _ => Err(SceneFaultKind::BadLine),
        }
    }

    /// Whether something is asked.
    fn has_asked(&self) -> bool
        ensures { result ≡ has_asked self.now }
    {
        !self.asked.is_empty()
    }

    /// Takes the words behind `thread`.
    fn begin_thread(
        &mut self,
        alloc: Global,
        number: u64,
        words: &[u8],
    ) -> Result<(), SceneFaultKind>
        ensures ok { OnOk result (if_early self.old (thread_begun self.old number
            (words_of words.now)) ≡ Ok self.new) }
        ensures err { IfErr result (Stops (if_early self.old (thread_begun self.old number
            (words_of words.now)))) }
    {
        if self.has_asked() {
            return Err(SceneFaultKind::LateLine);
        }
        let Some(name) = only_word(words) else {
            return Err(SceneFaultKind::BadThread);
        };
        if let Some(_) = thread_named(self.names.as_slice(), name) {
            return Err(SceneFaultKind::ThreadTwice);
        }
        self.names.push(ThreadName::of(alloc, name)?)?;
        self.within = Some(OpenThread {
            line: number,
            events: Vec::new(alloc),
        });
        Ok(())
    }

    /// Takes the words behind `serve`.
    fn take_service(&mut self, alloc: Global, words: &[u8]) -> Result<(), SceneFaultKind>
        ensures ok { OnOk result (if_early self.old (served self.old (words_of words.now))
            ≡ Ok self.new) }
        ensures err { IfErr result (Stops (if_early self.old (served self.old
            (words_of words.now)))) }
    {
        if self.has_asked() {
            return Err(SceneFaultKind::LateLine);
        }
        if self.service.is_some() {
            return Err(SceneFaultKind::ServiceTwice);
        }
        let Some(service) = read_service(alloc, words)? else {
            return Err(SceneFaultKind::BadService);
        };
        self.service = Some(service);
        Ok(())
    }

    /// Takes the words behind `sometimes` or `never`.
    fn ask(
        &mut self,
        alloc: Global,
        number: u64,
        claim: Claim,
        words: &[u8],
    ) -> Result<(), SceneFaultKind>
        ensures ok { OnOk result (question_asked self.old number claim (words_of words.now)
            ≡ Ok self.new) }
        ensures err { IfErr result (Stops (question_asked self.old number claim
            (words_of words.now))) }
    {
        let names = self.names.as_slice();
        let threads = self.threads.as_slice();
        let question = read_question(alloc, names, threads, words)?;
        self.push_question(number, claim, question)
    }

    /// Takes the words behind `always`: never does an order end without such a line.
    fn ask_always(&mut self, alloc: Global, number: u64, words: &[u8]) -> Result<(), SceneFaultKind>
        ensures ok { OnOk result (always_asked self.old number (words_of words.now)
            ≡ Ok self.new) }
        ensures err { IfErr result (Stops (always_asked self.old number (words_of words.now))) }
    {
        let question = read_no_line(alloc, words)?;
        self.push_question(number, Claim::Never, question)
    }

    /// One question more.
    fn push_question(
        &mut self,
        number: u64,
        claim: Claim,
        question: Question,
    ) -> Result<(), SceneFaultKind>
        ensures ok { OnOk result (with_question self.old number claim (Ok (asks_of question))
            ≡ Ok self.new) }
        ensures err { IfErr result (λ kind. kind ≡ NoMemory) }
    {
        self.asked.push(Asked {
            line: number,
            claim,
            question,
        })?;
        Ok(())
    }
}
