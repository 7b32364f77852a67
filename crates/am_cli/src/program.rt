//! What the program does with its words and streams.

ghost use Rattle.std.specs.Prelude.{◌≡◌, ◌<◌, ◌≤◌, ℕ, List, map, string_bytes, Option, IfOk};
ghost use Rattle.std.specs.List.{flat_map};
ghost use Rattle.am_runner.specs.{IsTally};
ghost use Rattle.clap.specs.Words.{Text};
ghost use Rattle.am_recall.specs.declared.recalled.Recalled.{Recalled};
ghost use Rattle.am_cli.specs.Program.{Exits, ExitsWith, SaysWhole, status_of_findings, status_of_verdict, style_of, TellsRefusal};
ghost use Rattle.am_cli.specs.Args.{fault_number, IsInRange};
ghost use Rattle.am_cli.specs.declared.args.Args.TheVariants as asks;

use crate::args::{Args, ArgsFault, read_args};
use crate::help::{help_text, version};
use crate::hints::hint_for;
use crate::telling::{
    tell_explore, tell_fault, tell_import, tell_judge, tell_script, tell_usage, tell_word,
    write_parts,
};
use crate::topics::Topic;
use am_draw::draw_script;
use am_explore::Watch;
use am_findings::{Verdict as Findings, explore_scene};
use am_import::import;
use am_mountinfo::world_script;
use am_names::NsId;
use am_recall::Recalling;
use am_runner::{Tally, run_threads};
use am_script::run_script;
use am_serve::serve;
use am_traces::{Verdict, judge_trace};
use am_views::{TraceStyle, trace_script};
use itoa::Buffer;
use std::alloc::{AllocError, Global};
use std::env;
use std::io::{self, Read, Write};
use std::sync::Wait;
use std::thread::Threads;

/// Runs the program and answers its exit status: 0 done, 1 a fault, a trace that breaks a law, or a question that comes
/// out otherwise than asked, 2 a bad command line, 3 where none does, and a search was cut. A fault is told on the last
/// stream, as far as that takes it; the status tells it too. Below the fault of a script or a scene stands what the
/// reader recalls of it. Who watches is told how far a search of `explore` is.
pub fn run_program<T: Threads + Wait + Sync, R: Read, W: Write, E: Write, P: Watch>(
    rt: &T,
    alloc: Global,
    words: &[&str],
    reader: &mut Recalling<R>,
    writer: &mut W,
    errors: &mut E,
    watch: &mut P,
) -> u8
    ensures { ExitsWith (map (λ word. word.now) words.now) reader.new.recalled (R.remaining reader.old.reader)
        (R.remaining reader.new.reader) (W.contents writer.old) (W.contents writer.new)
        (E.contents errors.old) (E.contents errors.new) result }
{
    match read_args(alloc, words) {
        Ok(args) => run_asked(rt, alloc, args, reader, writer, errors, watch),
        Err(fault) => refuse(alloc, words, fault, errors),
    }
}

/// Does what is asked for.
fn run_asked<T: Threads + Wait + Sync, R: Read, W: Write, E: Write, P: Watch>(
    rt: &T,
    alloc: Global,
    args: Args,
    reader: &mut Recalling<R>,
    writer: &mut W,
    errors: &mut E,
    watch: &mut P,
) -> u8
    requires { IsInRange args }
    ensures { Exits args reader.new.recalled
        (R.remaining reader.old.reader) (R.remaining reader.new.reader)
        (W.contents writer.old) (W.contents writer.new) (E.contents errors.old)
        (E.contents errors.new) result }
{
    match args {
        Args::Script => play(alloc, reader, writer, errors),
        Args::Trace { plain } => trace(alloc, plain, reader, writer, errors),
        Args::Draw { first, last } => draw(alloc, first, last, reader, writer, errors),
        Args::Serve => serve_lines(alloc, &mut reader.reader, writer, errors),
        Args::Explore { most, prefix } => {
            explore_orders(alloc, most, &prefix, reader, writer, errors, watch)
        }
        Args::Judge => judge(alloc, &mut reader.reader, writer, errors),
        Args::Import => import_mounts(alloc, &mut reader.reader, writer, errors),
        Args::World { namespace } => show(alloc, reader, writer, errors, namespace),
        Args::Threads {
            walkers,
            workers,
            rounds,
        } => run_crowd(rt, alloc, walkers, workers, rounds, writer, errors),
        Args::Help { topic } => show_help(topic, writer, errors),
        Args::Version => show_version(writer, errors),
    }
}

/// Writes a text whole, or tells that it isn't written so.
fn say<W: Write, E: Write>(writer: &mut W, errors: &mut E, parts: &[&[u8]]) -> u8
    ensures { SaysWhole (flat_map (λ part. part.now) parts.now) (W.contents writer.old) (W.contents writer.new)
        (E.contents errors.old) (E.contents errors.new) result }
{
    if write_parts(writer, parts) {
        return 0;
    }
    tell_word(errors, "WriteFailed");
    1
}

/// Writes what a command does, or the program.
fn show_help<W: Write, E: Write>(topic: Option<Topic>, writer: &mut W, errors: &mut E) -> u8
    ensures { (recalled : Recalled) (input : Option (List ℕ)) → Exits (asks.Help topic) recalled input input
        (W.contents writer.old)
        (W.contents writer.new) (E.contents errors.old) (E.contents errors.new) result }
{
    say(writer, errors, &[help_text(topic)])
}

/// Writes the version of the program.
fn show_version<W: Write, E: Write>(writer: &mut W, errors: &mut E) -> u8
    ensures { (recalled : Recalled) (input : Option (List ℕ)) → Exits asks.Version recalled input input
        (W.contents writer.old)
        (W.contents writer.new) (E.contents errors.old) (E.contents errors.new) result }
{
    say(
        writer,
        errors,
        &[b"automount_cli ", version().as_bytes(), b"\n"],
    )
}

/// Plays the script that the reader gives.
fn play<R: Read, W: Write, E: Write>(
    alloc: Global,
    reader: &mut Recalling<R>,
    writer: &mut W,
    errors: &mut E,
) -> u8
    ensures { Exits asks.Script reader.new.recalled
        (R.remaining reader.old.reader) (R.remaining reader.new.reader)
        (W.contents writer.old) (W.contents writer.new) (E.contents errors.old)
        (E.contents errors.new) result }
{
    match run_script(alloc, reader, writer) {
        Ok(_) => 0,
        Err(fault) => {
            tell_fault(alloc, &reader.recalled, fault, errors);
            1
        }
    }
}

/// How a trace is printed that is to be plain, or not.
fn style_of(plain: bool) -> TraceStyle
    ensures { result ≡ style_of plain }
{
    if plain {
        TraceStyle::Plain
    } else {
        TraceStyle::WithNumbers
    }
}

/// Prints the trace of the script that the reader gives.
fn trace<R: Read, W: Write, E: Write>(
    alloc: Global,
    plain: bool,
    reader: &mut Recalling<R>,
    writer: &mut W,
    errors: &mut E,
) -> u8
    ensures { Exits (asks.Trace plain) reader.new.recalled
        (R.remaining reader.old.reader) (R.remaining reader.new.reader)
        (W.contents writer.old) (W.contents writer.new) (E.contents errors.old)
        (E.contents errors.new) result }
{
    match trace_script(alloc, style_of(plain), reader, writer) {
        Ok(_traced) => 0,
        Err(fault) => {
            tell_fault(alloc, &reader.recalled, fault, errors);
            1
        }
    }
}

/// Draws the script that the reader gives, from one event to another.
fn draw<R: Read, W: Write, E: Write>(
    alloc: Global,
    first: u32,
    last: u32,
    reader: &mut Recalling<R>,
    writer: &mut W,
    errors: &mut E,
) -> u8
    ensures { Exits (asks.Draw first last) reader.new.recalled
        (R.remaining reader.old.reader) (R.remaining reader.new.reader)
        (W.contents writer.old) (W.contents writer.new) (E.contents errors.old)
        (E.contents errors.new) result }
{
    match draw_script(alloc, reader, writer, u64::from(first), u64::from(last)) {
        Ok(_drawn) => 0,
        Err(fault) => {
            tell_fault(alloc, &reader.recalled, fault, errors);
            1
        }
    }
}

/// The namespace of this number.
fn named(namespace: Option<u32>) -> Option<NsId>
    ensures { result ≡ namespace }
{
    match namespace {
        Some(ns) => Some(NsId(ns)),
        None => None,
    }
}

/// Prints the world that the script leaves which the reader gives; of one namespace alone, if it is
/// named.
fn show<R: Read, W: Write, E: Write>(
    alloc: Global,
    reader: &mut Recalling<R>,
    writer: &mut W,
    errors: &mut E,
    namespace: Option<u32>,
) -> u8
    ensures { Exits (asks.World namespace) reader.new.recalled
        (R.remaining reader.old.reader) (R.remaining reader.new.reader)
        (W.contents writer.old) (W.contents writer.new) (E.contents errors.old)
        (E.contents errors.new) result }
{
    match world_script(alloc, reader, writer, named(namespace)) {
        Ok(_shown) => 0,
        Err(fault) => {
            tell_fault(alloc, &reader.recalled, fault, errors);
            1
        }
    }
}

/// Serves the session of which the reader gives the lines.
fn serve_lines<R: Read, W: Write, E: Write>(
    alloc: Global,
    reader: &mut R,
    writer: &mut W,
    errors: &mut E,
) -> u8
    ensures { (recalled : Recalled) → Exits asks.Serve recalled (R.remaining reader.old) (R.remaining reader.new)
        (W.contents writer.old) (W.contents writer.new) (E.contents errors.old)
        (E.contents errors.new) result }
{
    match serve(alloc, reader, writer) {
        Ok(()) => 0,
        Err(fault) => {
            tell_script(errors, fault, b"");
            1
        }
    }
}

/// The exit status of how the questions of a scene come out.
fn status_of_findings(findings: Findings) -> u8
    ensures { result ≡ status_of_findings findings }
{
    match findings {
        Findings::AsAsked => 0,
        Findings::NotAsAsked => 1,
        Findings::NotAllSeen => 3,
    }
}

/// Explores the orders of the scene that the reader gives which begin with these choices; each search looks at so many
/// states at most.
fn explore_orders<R: Read, W: Write, E: Write, P: Watch>(
    alloc: Global,
    most: u32,
    prefix: &Vec<u32>,
    reader: &mut Recalling<R>,
    writer: &mut W,
    errors: &mut E,
    watch: &mut P,
) -> u8
    ensures { Exits (asks.Explore most prefix.now) reader.new.recalled
        (R.remaining reader.old.reader) (R.remaining reader.new.reader)
        (W.contents writer.old) (W.contents writer.new) (E.contents errors.old)
        (E.contents errors.new) result }
{
    let most = u64::from(most);
    match explore_scene(alloc, most, prefix.as_slice(), reader, writer, watch) {
        Ok(findings) => status_of_findings(findings),
        Err(fault) => {
            tell_explore(alloc, &reader.recalled, fault, errors);
            1
        }
    }
}

fn status_of(verdict: Verdict) -> u8
    ensures { result ≡ status_of_verdict verdict }
{
    match verdict {
        Verdict::Lawful => 0,
        Verdict::Broken { .. } => 1,
    }
}

/// Judges the trace that the reader gives.
fn judge<R: Read, W: Write, E: Write>(
    alloc: Global,
    reader: &mut R,
    writer: &mut W,
    errors: &mut E,
) -> u8
    ensures { (recalled : Recalled) → Exits asks.Judge recalled (R.remaining reader.old) (R.remaining reader.new)
        (W.contents writer.old) (W.contents writer.new) (E.contents errors.old)
        (E.contents errors.new) result }
{
    match judge_trace(alloc, reader, writer) {
        Ok(verdict) => status_of(verdict),
        Err(fault) => {
            tell_judge(errors, fault);
            1
        }
    }
}

/// Imports the mountinfo that the reader gives.
fn import_mounts<R: Read, W: Write, E: Write>(
    alloc: Global,
    reader: &mut R,
    writer: &mut W,
    errors: &mut E,
) -> u8
    ensures { (recalled : Recalled) → Exits asks.Import recalled (R.remaining reader.old) (R.remaining reader.new)
        (W.contents writer.old) (W.contents writer.new) (E.contents errors.old)
        (E.contents errors.new) result }
{
    match import(alloc, reader, writer) {
        Ok(()) => 0,
        Err(fault) => {
            tell_import(errors, fault);
            1
        }
    }
}

/// Runs walkers and workers as threads, and tells how many rounds they made.
fn run_crowd<T: Threads + Wait + Sync, W: Write, E: Write>(
    rt: &T,
    alloc: Global,
    walkers: u32,
    workers: u32,
    rounds: u32,
    writer: &mut W,
    errors: &mut E,
) -> u8
    requires workers { (0 < workers) × (workers ≤ 16) }
    requires walkers { walkers ≤ 16 }
    ensures { (recalled : Recalled) (input : Option (List ℕ)) → Exits
        (asks.Threads walkers workers rounds) recalled input
        input (W.contents writer.old) (W.contents writer.new) (E.contents errors.old)
        (E.contents errors.new) result }
{
    match run_threads(rt, alloc, walkers, workers, rounds) {
        Ok(tally) => tell(writer, errors, tally),
        Err(_) => {
            tell_word(errors, "NoMemory");
            1
        }
    }
}

/// Writes how many rounds were made.
fn tell<W: Write, E: Write>(writer: &mut W, errors: &mut E, tally: Tally) -> u8
    ensures { (walkers workers rounds : ℕ) (recalled : Recalled) (input : Option (List ℕ))
        → IsTally walkers workers rounds tally
        → Exits (asks.Threads walkers workers rounds) recalled input input (W.contents writer.old)
        (W.contents writer.new) (E.contents errors.old) (E.contents errors.new) result }
{
    let mut digits = Buffer::new();
    say(
        writer,
        errors,
        &[b"rounds ", digits.format(tally.rounds).as_bytes(), b"\n"],
    )
}

/// Tells that the command line is none, or that there is no memory for it.
fn tell_refusal<E: Write>(alloc: Global, words: &[&str], fault: ArgsFault, errors: &mut E)
    ensures { TellsRefusal (map (λ word. word.now) words.now) fault (E.contents errors.old)
        (E.contents errors.new) }
{
    match fault {
        ArgsFault::NoMemory => tell_word(errors, "NoMemory"),
        ArgsFault::Usage => tell_usage(errors, hint_for(alloc, words)),
    }
}

/// Refuses the command line.
fn refuse<E: Write>(alloc: Global, words: &[&str], fault: ArgsFault, errors: &mut E) -> u8
    ensures status { result ≡ fault_number fault }
    ensures told { TellsRefusal (map (λ word. word.now) words.now) fault (E.contents errors.old)
        (E.contents errors.new) }
{
    tell_refusal(alloc, words, fault, errors);
    fault.number()
}

/// Runs the program with the words of its process.
pub fn run_words<T: Threads + Wait + Sync, R: Read, W: Write, E: Write, P: Watch>(
    rt: &T,
    alloc: Global,
    words: io::Result<env::Args>,
    reader: &mut Recalling<R>,
    writer: &mut W,
    errors: &mut E,
    watch: &mut P,
) -> u8
    ensures { (words : List Text) × ExitsWith words reader.new.recalled (R.remaining reader.old.reader)
        (R.remaining reader.new.reader) (W.contents writer.old) (W.contents writer.new)
        (E.contents errors.old) (E.contents errors.new) result }
{
    match read_words(alloc, words) {
        Ok(words) => run_lent(rt, alloc, &words, reader, writer, errors, watch),
        Err(fault) => refuse(alloc, &[], fault, errors),
    }
}

/// The words of the process. A word that isn't UTF-8 is no command.
fn read_words(alloc: Global, words: io::Result<env::Args>) -> Result<Vec<String>, ArgsFault> {
    match words {
        Ok(words) => collected(alloc, words),
        Err(error) => Err(words_fault(&error)),
    }
}

fn collected(alloc: Global, words: env::Args) -> Result<Vec<String>, ArgsFault> {
    match words.collect(alloc) {
        Ok(words) => Ok(words),
        Err(_) => Err(ArgsFault::NoMemory),
    }
}

fn words_fault(error: &io::Error) -> ArgsFault {
    if error.kind() == io::ErrorKind::OutOfMemory {
        return ArgsFault::NoMemory;
    }
    ArgsFault::Usage
}

fn run_lent<T: Threads + Wait + Sync, R: Read, W: Write, E: Write, P: Watch>(
    rt: &T,
    alloc: Global,
    words: &[String],
    reader: &mut Recalling<R>,
    writer: &mut W,
    errors: &mut E,
    watch: &mut P,
) -> u8
    ensures { ExitsWith (map (λ word. string_bytes word) words.now) reader.new.recalled (R.remaining reader.old.reader)
        (R.remaining reader.new.reader) (W.contents writer.old) (W.contents writer.new)
        (E.contents errors.old) (E.contents errors.new) result }
{
    match lend(alloc, words) {
        Ok(words) => run_program(rt, alloc, words.as_slice(), reader, writer, errors, watch),
        Err(_) => refuse(alloc, &[], ArgsFault::NoMemory, errors),
    }
}

fn lend<'a>(alloc: Global, words: &'a [String]) -> Result<Vec<&'a str>, AllocError>
    ensures { IfOk result (λ lent. map (λ word. word.now) lent.items ≡ map
        (λ word. string_bytes word) words.now) }
{
    let mut lent = Vec::new(alloc);
    for word in words {
        lent.push(word.as_str())?;
    }
    Ok(lent)
}
