//! The command line.

ghost use Rattle.std.specs.Prelude.{◌≡◌, ◌≤◌, ℕ, map, IfErr, IfOk, None, Option, Some};
ghost use Rattle.clap.specs.Words.{first_of, found_of, kind_of, rows_of, subcommand_rows_of};
ghost use Rattle.am_cli.specs.Args.{fault_number, IsInRange, IsNumberUpTo, RefusedFor};
ghost use Rattle.am_cli.specs.Choices.{prefix_of};
ghost use Rattle.am_cli.specs.CommandLine.{AnswersBy, Asks, AsksBy, AsksByNone, AsksFor, AsksForNone, AsksNothing, IsAsked, IsNumber, IsNumberIn, IsRefused, IsRefusedBy, flag_of, flagged};
ghost use Rattle.am_cli.specs.Topics.{topic_named};
ghost use Rattle.am_cli.specs.declared.topics.Topic.TheVariants as topics;

use crate::choices::read_prefix;
use crate::commands::command;
use crate::topics::{Topic, topic_named, topic_of};
use clap::error::ErrorKind;
use clap::{ArgMatches, Error as ClapError};
use std::alloc::Global;
use thiserror::Error;

/// What the program is asked to do.
#[derive(Drop)]
pub enum Args {
    /// Plays the script on standard input.
    Script,
    /// Prints the trace of the script on standard input.
    Trace {
        /// Without the numbers of lines.
        plain: bool,
    },
    /// Draws a picture of the script on standard input.
    Draw {
        /// The number of the first event that is drawn, from 1.
        first: u32,
        /// The number of the last one, from 1.
        last: u32,
    },
    /// Prints the world that the script on standard input leaves.
    World {
        /// Only the mounts of this namespace, if one is named.
        namespace: Option<u32>,
    },
    /// Serves the session on standard input.
    Serve,
    /// Explores all orders of the scene on standard input.
    Explore {
        /// How many states one search looks at, at most.
        most: u32,
        /// The numbers of the choices with which orders begin, from 1.
        prefix: Vec<u32>,
    },
    /// Judges the trace on standard input.
    Judge,
    /// Makes a script of the mountinfo on standard input.
    Import,
    /// Lets so many threads walk, each so many rounds, and so many serve them.
    Threads {
        /// 1 to 16.
        walkers: u32,
        /// 1 to 16.
        workers: u32,
        /// 1 to 1000.
        rounds: u32,
    },
    /// Tells what a command does, or the program.
    Help {
        topic: Option<Topic>,
    },
    /// Tells the version of the program.
    Version,
}

/// Why a command line is none; the numbers are the exit statuses.
#[derive(Clone, Copy, Debug, PartialEq, Eq, Error)]
pub enum ArgsFault {
    #[error("NoMemory")]
    NoMemory = 1,
    /// Not a command that there is.
    #[error("Usage")]
    Usage = 2,
}

impl ArgsFault {
    /// The exit status.
    pub fn number(self) -> u8
        ensures { result ≡ fault_number self }
    {
        self as u8
    }
}

/// The number of an option, where it is in its range.
fn number(given: &ArgMatches<'_>, id: &str, most: u32) -> Result<u32, ArgsFault>
    ensures range { IfOk result (λ number. (1 ≤ number) × (number ≤ most)) }
    ensures read { IfOk result (IsNumber (rows_of (found_of given.now)) id.now) }
    ensures refused { IfErr result (λ _. (number : ℕ) → IsNumber (rows_of (found_of given.now)) id.now number
        → 1 ≤ number → number ≤ most → ⊥) }
{
    let Some(number) = given.get_one::<u32>(id) else {
        return Err(ArgsFault::Usage);
    };
    if number < 1 {
        return Err(ArgsFault::Usage);
    }
    if most < number {
        return Err(ArgsFault::Usage);
    }
    Ok(number)
}

/// The number of an option that may be left out.
fn number_in(given: &ArgMatches<'_>, id: &str) -> Result<Option<u32>, ArgsFault>
    ensures range { IfOk result (IsNumberUpTo 4294967295) }
    ensures read { IfOk result (IsNumberIn (rows_of (found_of given.now)) id.now) }
    ensures refused { IfErr result (λ _. (number : Option ℕ) → IsNumberIn (rows_of (found_of given.now)) id.now number
        → IsNumberUpTo 4294967295 number → ⊥) }
{
    if given.get_str(id).is_none() {
        return Ok(None);
    }
    match given.get_one::<u32>(id) {
        Some(number) => Ok(Some(number)),
        None => Err(ArgsFault::Usage),
    }
}

fn threads(given: &ArgMatches<'_>) -> Result<Args, ArgsFault>
    ensures range { IfOk result IsInRange }
    ensures asks { IfOk result (AsksFor topics.Threads (rows_of (found_of given.now))) }
    ensures refused { IfErr result (λ _. AsksForNone topics.Threads (rows_of (found_of given.now))) }
{
    Ok(Args::Threads {
        walkers: number(given, "walkers", 16)?,
        workers: number(given, "workers", 16)?,
        rounds: number(given, "rounds", 1_000)?,
    })
}

/// Whether an option that has no value stands there.
fn flag(given: &ArgMatches<'_>, id: &str) -> Result<bool, ArgsFault>
    ensures read { IfOk result (λ stands. flagged (first_of id.now (rows_of (found_of given.now))) ≡ Some stands) }
    ensures refused { IfErr result (λ _. flagged (first_of id.now (rows_of (found_of given.now))) ≡ None) }
{
    let Some(word) = given.get_str(id) else {
        return Err(ArgsFault::Usage);
    };
    match flag_of(word) {
        Some(stands) => Ok(stands),
        None => Err(ArgsFault::Usage),
    }
}

/// Whether it does, by the word that `clap` has for that.
fn flag_of(word: &str) -> Option<bool>
    ensures { result ≡ flag_of word.now }
{
    if word == "true" {
        return Some(true);
    }
    if word == "false" {
        return Some(false);
    }
    None
}

fn trace(given: &ArgMatches<'_>) -> Result<Args, ArgsFault>
    ensures range { IfOk result IsInRange }
    ensures asks { IfOk result (AsksFor topics.Trace (rows_of (found_of given.now))) }
    ensures refused { IfErr result (λ _. AsksForNone topics.Trace (rows_of (found_of given.now))) }
{
    Ok(Args::Trace {
        plain: flag(given, "plain")?,
    })
}

fn draw(given: &ArgMatches<'_>) -> Result<Args, ArgsFault>
    ensures range { IfOk result IsInRange }
    ensures asks { IfOk result (AsksFor topics.Draw (rows_of (found_of given.now))) }
    ensures refused { IfErr result (λ _. AsksForNone topics.Draw (rows_of (found_of given.now))) }
{
    Ok(Args::Draw {
        first: number(given, "from", u32::MAX)?,
        last: number(given, "to", u32::MAX)?,
    })
}

fn world(given: &ArgMatches<'_>) -> Result<Args, ArgsFault>
    ensures range { IfOk result IsInRange }
    ensures asks { IfOk result (AsksFor topics.World (rows_of (found_of given.now))) }
    ensures refused { IfErr result (λ _. AsksForNone topics.World (rows_of (found_of given.now))) }
{
    Ok(Args::World {
        namespace: number_in(given, "namespace")?,
    })
}

/// The choices that an option names, which may be left out.
fn choices_in(alloc: Global, given: &ArgMatches<'_>, id: &str) -> Result<Vec<u32>, ArgsFault>
    ensures read { IfOk result (λ choices.
        prefix_of (first_of id.now (rows_of (found_of given.now))) ≡ Some choices.items) }
    ensures refused { IfErr result
        (RefusedFor (prefix_of (first_of id.now (rows_of (found_of given.now))) ≡ None)) }
{
    match given.get_str(id) {
        Some(word) => read_prefix(alloc, word.as_bytes()),
        None => Ok(Vec::new(alloc)),
    }
}

fn explore(alloc: Global, given: &ArgMatches<'_>) -> Result<Args, ArgsFault>
    ensures range { IfOk result IsInRange }
    ensures asks { IfOk result (AsksFor topics.Explore (rows_of (found_of given.now))) }
    ensures refused { IfErr result
        (RefusedFor (AsksForNone topics.Explore (rows_of (found_of given.now)))) }
{
    let most = number(given, "most", u32::MAX)?;
    match choices_in(alloc, given, "prefix") {
        Ok(prefix) => Ok(Args::Explore { most, prefix }),
        Err(fault) => Err(fault),
    }
}

fn help(given: &ArgMatches<'_>) -> Result<Args, ArgsFault>
    ensures range { IfOk result IsInRange }
    ensures asks { IfOk result (AsksFor topics.Help (rows_of (found_of given.now))) }
    ensures refused { IfErr result (λ _. AsksForNone topics.Help (rows_of (found_of given.now))) }
{
    let Some(name) = given.get_str("command") else {
        return Ok(Args::Help { topic: None });
    };
    match topic_named(name) {
        Some(topic) => Ok(Args::Help { topic: Some(topic) }),
        None => Err(ArgsFault::Usage),
    }
}

/// What a command asks for.
fn asked(alloc: Global, topic: Topic, given: &ArgMatches<'_>) -> Result<Args, ArgsFault>
    ensures range { IfOk result IsInRange }
    ensures asks { IfOk result (AsksFor topic (rows_of (found_of given.now))) }
    ensures refused { IfErr result (RefusedFor (AsksForNone topic (rows_of (found_of given.now)))) }
{
    match topic {
        Topic::Script => Ok(Args::Script),
        Topic::Trace => trace(given),
        Topic::Draw => draw(given),
        Topic::World => world(given),
        Topic::Serve => Ok(Args::Serve),
        Topic::Explore => explore(alloc, given),
        Topic::Judge => Ok(Args::Judge),
        Topic::Import => Ok(Args::Import),
        Topic::Threads => threads(given),
        Topic::Help => help(given),
    }
}

/// What the command of this name asks for.
fn asked_by(alloc: Global, name: &str, given: &ArgMatches<'_>) -> Result<Args, ArgsFault>
    ensures range { IfOk result IsInRange }
    ensures asks { IfOk result (AsksBy (topic_named name.now) (rows_of (found_of given.now))) }
    ensures refused { IfErr result
        (RefusedFor (AsksByNone (topic_named name.now) (rows_of (found_of given.now)))) }
{
    match topic_named(name) {
        Some(topic) => asked(alloc, topic, given),
        None => Err(ArgsFault::Usage),
    }
}

/// What the command that was named asks for.
fn asked_in(alloc: Global, matches: &ArgMatches<'_>) -> Result<Args, ArgsFault>
    ensures range { IfOk result IsInRange }
    ensures asks { IfOk result (Asks (subcommand_rows_of matches.now)) }
    ensures refused { IfErr result (RefusedFor (AsksNothing (subcommand_rows_of matches.now))) }
{
    match matches.subcommand() {
        Some((name, given)) => asked_by(alloc, name, given),
        None => Err(ArgsFault::Usage),
    }
}

/// What words ask for of which `clap` makes no command: help or the version, if that is why.
fn answered(error: &ClapError, words: &[&str]) -> Result<Args, ArgsFault>
    ensures range { IfOk result IsInRange }
    ensures read { IfOk result (AnswersBy (kind_of error.now) (map (λ word. word.now) words.now)) }
    ensures refused { IfErr result (IsRefusedBy (kind_of error.now)) }
{
    match error.kind() {
        ErrorKind::DisplayHelp => Ok(Args::Help {
            topic: topic_of(words),
        }),
        ErrorKind::DisplayVersion => Ok(Args::Version),
        ErrorKind::OutOfMemory => Err(ArgsFault::NoMemory),
        _ => Err(ArgsFault::Usage),
    }
}

/// Reads the words of a command line, of which the first is the program's name.
pub fn read_args(alloc: Global, words: &[&str]) -> Result<Args, ArgsFault>
    ensures range { IfOk result IsInRange }
    ensures read { IfOk result (IsAsked (map (λ word. word.now) words.now)) }
    ensures refused { IfErr result (IsRefused (map (λ word. word.now) words.now)) }
{
    let Ok(command) = command(alloc) else {
        return Err(ArgsFault::NoMemory);
    };
    match command.try_get_matches_from(words) {
        Ok(matches) => asked_in(alloc, &matches),
        Err(error) => answered(&error, words),
    }
}
