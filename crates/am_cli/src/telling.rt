//! What is told on standard error, and texts that are written whole.

ghost use Rattle.std.specs.Prelude.{◌≡◌, true, false};
ghost use Rattle.std.specs.List.{flat_map};
ghost use Rattle.std.specs.Io.KnownBytes.{Appends};
ghost use Rattle.am_cli.specs.Hints.{hint_told, usage_told};
ghost use Rattle.am_cli.specs.Telling.{choice_told, import_told, IsCut, judge_told, line_told, mount_words, place_told, scene_told, scene_word, script_told, tally_told, Tells, TellsExplore, TellsFault, TellsScene, trace_words, word_told};

use crate::help::usage;
use crate::hints::Hint;
use am_explain::{help, scene_help};
use am_explore::Tally;
use am_findings::ExploreFault;
use am_import::ImportFault;
use am_mount_lines::Expected as MountExpected;
use am_recall::Recalled;
use am_scenes::{SceneFault, SceneFaultKind};
use am_script::ScriptFault;
use am_script::output::write_bytes;
use am_serve::kind_word;
use am_traces::{Expected as TraceExpected, JudgeFault};
use itoa::Buffer;
use std::alloc::Global;
use std::io::Write;

/// Writes a text, and answers whether it is taken whole.
fn write_part<W: Write>(writer: &mut W, part: &[u8]) -> bool
    ensures whole { result ≡ true → Appends (W.contents writer.old) (W.contents writer.new) part.now }
    ensures cut { result ≡ false → IsCut (W.contents writer.old) (W.contents writer.new) part.now }
{
    let taken = write_bytes(writer, part);
    taken == part.len()
}

/// Writes texts one behind the other, up to the first that isn't taken whole, and answers whether all were.
pub(crate) fn write_parts<W: Write>(writer: &mut W, parts: &[&[u8]]) -> bool
    ensures whole { result ≡ true → Appends (W.contents writer.old) (W.contents writer.new)
        (flat_map (λ part. part.now) parts.now) }
    ensures cut { result ≡ false → IsCut (W.contents writer.old) (W.contents writer.new)
        (flat_map (λ part. part.now) parts.now) }
{
    for part in parts {
        if !write_part(writer, part) {
            return false;
        }
    }
    true
}

/// Tells texts one behind the other, as far as they are taken.
fn tell<E: Write>(errors: &mut E, parts: &[&[u8]])
    ensures { Tells (E.contents errors.old) (E.contents errors.new)
        (flat_map (λ part. part.now) parts.now) }
{
    let _ = write_parts(errors, parts);
}

/// Tells a fault that has no place.
pub(crate) fn tell_word<E: Write>(errors: &mut E, word: &str)
    ensures { Tells (E.contents errors.old) (E.contents errors.new) (word_told word.now) }
{
    tell(errors, &[b"fault: ", word.as_bytes(), b"\n"]);
}

/// Tells a fault at a line, and this below it.
fn tell_line<E: Write>(errors: &mut E, line: u64, word: &str, below: &[u8])
    ensures { Tells (E.contents errors.old) (E.contents errors.new)
        (line_told line word.now below.now) }
{
    let mut digits = Buffer::new();
    tell(
        errors,
        &[
            b"fault: line ",
            digits.format(line).as_bytes(),
            b": ",
            word.as_bytes(),
            b"\n",
            below,
        ],
    );
}

/// Tells what was expected at a place.
fn tell_place<E: Write>(errors: &mut E, line: usize, column: usize, expected: &str)
    ensures { Tells (E.contents errors.old) (E.contents errors.new)
        (place_told line column expected.now) }
{
    let mut line_digits = Buffer::new();
    let mut column_digits = Buffer::new();
    tell(
        errors,
        &[
            b"fault: line ",
            line_digits.format(line).as_bytes(),
            b", column ",
            column_digits.format(column).as_bytes(),
            b": ",
            expected.as_bytes(),
            b" expected\n",
        ],
    );
}

fn trace_words(expected: TraceExpected) -> &'static str
    ensures { result.now ≡ trace_words expected }
{
    match expected {
        TraceExpected::Observation => "an observation behind two blanks",
        TraceExpected::Number => "a number",
        TraceExpected::Token => "a token",
        TraceExpected::Attach => "an attachment",
        TraceExpected::Fs => "a file system",
        TraceExpected::Mount => "a mount",
        TraceExpected::Status => "ready or a failure",
        TraceExpected::PacketType => "the type of a packet",
        TraceExpected::PacketNumber => "a number of the packet",
        TraceExpected::PacketName => "the name in the packet",
        TraceExpected::Key => "direct or a name",
        TraceExpected::Entry => "an entry of the book",
        TraceExpected::End => "the end of the line",
    }
}

fn mount_words(expected: MountExpected) -> &'static str
    ensures { result.now ≡ mount_words expected }
{
    match expected {
        MountExpected::Number => "the number of a mount",
        MountExpected::Parent => "the number of the mount that it is mounted on",
        MountExpected::Device => "a device",
        MountExpected::Root => "the folder of the device that is shown",
        MountExpected::Path => "the path of the mount",
        MountExpected::Options => "the options of the mount",
        MountExpected::Group => "the number of a peer group",
        MountExpected::Dash => "- behind the optional fields",
        MountExpected::Kind => "the type of the file system",
    }
}

/// Tells why a script isn't played to its end, and this below it.
pub(crate) fn tell_script<E: Write>(errors: &mut E, fault: ScriptFault, below: &[u8])
    ensures { Tells (E.contents errors.old) (E.contents errors.new) (script_told fault below.now) }
{
    tell_line(errors, fault.line, kind_word(fault.kind), below);
}

/// Tells why a script isn't played to its end, of which this is recalled: below the fault stands where
/// its line isn't as expected, if that is known.
pub(crate) fn tell_fault<E: Write>(
    alloc: Global,
    recalled: &Recalled,
    fault: ScriptFault,
    errors: &mut E,
)
    ensures { TellsFault recalled.now fault (E.contents errors.old) (E.contents errors.new) }
{
    let below = help(alloc, recalled, fault);
    tell_script(errors, fault, &below);
}

fn scene_word(kind: SceneFaultKind) -> &'static str
    ensures { result.now ≡ scene_word kind }
{
    match kind {
        SceneFaultKind::Script { kind } => kind_word(kind),
        SceneFaultKind::NoEvents => "NoEvents",
        SceneFaultKind::BadLine => "BadLine",
        SceneFaultKind::LateLine => "LateLine",
        SceneFaultKind::BadThread => "BadThread",
        SceneFaultKind::ThreadTwice => "ThreadTwice",
        SceneFaultKind::NoEnd => "NoEnd",
        SceneFaultKind::BadThreadEvent => "BadThreadEvent",
        SceneFaultKind::BadService => "BadService",
        SceneFaultKind::ServiceTwice => "ServiceTwice",
        SceneFaultKind::BadQuestion => "BadQuestion",
        SceneFaultKind::NoSuchThread => "NoSuchThread",
        SceneFaultKind::NoSuchEvent => "NoSuchEvent",
        SceneFaultKind::BadAnswer => "BadAnswer",
        SceneFaultKind::NoMemory => "NoMemory",
    }
}

/// Tells why a text is no scene, and this below it.
fn tell_scene_line<E: Write>(errors: &mut E, fault: SceneFault, below: &[u8])
    ensures { Tells (E.contents errors.old) (E.contents errors.new) (scene_told fault below.now) }
{
    tell_line(errors, fault.line, scene_word(fault.kind), below);
}

/// Tells why a text is no scene, of which this is recalled: below the fault stands where its line isn't
/// as expected, if that is known.
fn tell_scene<E: Write>(alloc: Global, recalled: &Recalled, fault: SceneFault, errors: &mut E)
    ensures { TellsScene recalled.now fault (E.contents errors.old) (E.contents errors.new) }
{
    let below = scene_help(alloc, recalled, fault);
    tell_scene_line(errors, fault, &below);
}

/// Tells that there is no choice of the number at this place of a prefix.
fn tell_choice<E: Write>(errors: &mut E, place: usize)
    ensures { Tells (E.contents errors.old) (E.contents errors.new) (choice_told place) }
{
    let mut digits = Buffer::new();
    tell(
        errors,
        &[
            b"fault: prefix ",
            digits.format(place).as_bytes(),
            b": NoSuchChoice\n",
        ],
    );
}

/// Tells how far a search is.
pub(crate) fn tell_tally<E: Write>(errors: &mut E, tally: &Tally)
    ensures { Tells (E.contents errors.old) (E.contents errors.new) (tally_told tally.now) }
{
    let mut states = Buffer::new();
    let mut orders = Buffer::new();
    let mut ends = Buffer::new();
    tell(
        errors,
        &[
            b"explore: states ",
            states.format(tally.states).as_bytes(),
            b", orders ",
            orders.format(tally.orders).as_bytes(),
            b", ends ",
            ends.format(tally.ends).as_bytes(),
            b"\n",
        ],
    );
}

/// Tells why a scene isn't explored, of whose text this is recalled, or what was found isn't written.
pub(crate) fn tell_explore<E: Write>(
    alloc: Global,
    recalled: &Recalled,
    fault: ExploreFault,
    errors: &mut E,
)
    ensures { TellsExplore recalled.now fault (E.contents errors.old) (E.contents errors.new) }
{
    match fault {
        ExploreFault::Scene { fault } => tell_scene(alloc, recalled, fault, errors),
        ExploreFault::NoSuchChoice { place } => tell_choice(errors, place),
        ExploreFault::NoMemory => tell_word(errors, "NoMemory"),
        ExploreFault::WriteFailed => tell_word(errors, "WriteFailed"),
    }
}

/// Tells why a verdict isn't written.
pub(crate) fn tell_judge<E: Write>(errors: &mut E, fault: JudgeFault)
    ensures { Tells (E.contents errors.old) (E.contents errors.new) (judge_told fault) }
{
    match fault {
        JudgeFault::BadLine {
            line,
            column,
            expected,
        } => tell_place(errors, line, column, trace_words(expected)),
        JudgeFault::NoMemory => tell_word(errors, "NoMemory"),
        JudgeFault::ReadFailed => tell_word(errors, "ReadFailed"),
        JudgeFault::WriteFailed => tell_word(errors, "WriteFailed"),
    }
}

/// Tells why a script isn't made of a mountinfo, or not written.
pub(crate) fn tell_import<E: Write>(errors: &mut E, fault: ImportFault)
    ensures { Tells (E.contents errors.old) (E.contents errors.new) (import_told fault) }
{
    match fault {
        ImportFault::BadLine {
            line,
            column,
            expected,
        } => tell_place(errors, line, column, mount_words(expected)),
        ImportFault::NoMemory => tell_word(errors, "NoMemory"),
        ImportFault::ReadFailed => tell_word(errors, "ReadFailed"),
        ImportFault::NotPlayed => tell_word(errors, "NotPlayed"),
        ImportFault::WriteFailed => tell_word(errors, "WriteFailed"),
    }
}

/// Tells that the command line is none, that this may be meant, and what command lines there are.
fn tell_hint<E: Write>(errors: &mut E, hint: Hint)
    ensures { Tells (E.contents errors.old) (E.contents errors.new) (hint_told hint) }
{
    match hint {
        Hint::Near { topic } => tell(
            errors,
            &[
                b"fault: Usage\ndid you mean '",
                topic.name().as_bytes(),
                b"'?\n",
                usage(),
            ],
        ),
        Hint::Input { topic } => tell(
            errors,
            &[
                b"fault: Usage\nthe ",
                topic.input().as_bytes(),
                b" is read from standard input: automount_cli ",
                topic.name().as_bytes(),
                b" < FILE\n",
                usage(),
            ],
        ),
    }
}

/// Tells that the command line is none, what may be meant, and what command lines there are.
pub(crate) fn tell_usage<E: Write>(errors: &mut E, hint: Option<Hint>)
    ensures { Tells (E.contents errors.old) (E.contents errors.new) (usage_told hint) }
{
    match hint {
        Some(hint) => tell_hint(errors, hint),
        None => tell(errors, &[b"fault: Usage\n", usage()]),
    }
}
