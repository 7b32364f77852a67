//! The world after a script is printed.

ghost use Rattle.std.specs.Prelude.{◌≡◌, ◌+◌, ◌≤◌, ◌^◌, false, option_copied, IfOk, IfErr, None, OnOk};
ghost use Rattle.std.specs.Io.KnownBytes.{Appends};
ghost use Rattle.std.specs.List.{list_any};
ghost use Rattle.am_daemon.specs.{rows_of};
ghost use Rattle.am_mount.specs.{is_in};
ghost use Rattle.am_script.specs.{lines_in, size_in, Puts, events_from};
ghost use Rattle.am_mountinfo.specs.Mountinfo.{namespace_text, namespaces_text};
ghost use Rattle.am_mountinfo.specs.Printed.{part_text};
ghost use Rattle.am_mountinfo.specs.Tables.{AreTables};
ghost use Rattle.am_mountinfo.specs.WorldText.{IsText, IsWritten, IsCut, is_nowhere, NotWritten, EventsPlayed, IsPlayed, NotPlayed, WorldShown, ShowStops, ShowsInput, StopsShowing, last_line, ran_out};
ghost use Rattle.am_world.specs.Capacity.{state_of};

use crate::mount_line::put_mounts;
use crate::namespaces::namespaces;
use crate::notes::{Open, opens, put_daemon, put_kernel, put_opens};
use crate::tables::Tables;
use am_names::{Errno, MountRow, NsId};
use am_script::answer_line::{is_refused, put_number, put_word};
use am_script::output::Output;
use am_script::visit::{Found, Opened, close, next_event, open_script, read_all};
use am_script::{ScriptFault, ScriptFaultKind, Summary};
use am_views::one_more;
use am_world::{Answer, Event, World};
use std::alloc::{AllocError, Global};
use std::io::{Read, Write};

/// Reads a script to its end, plays it on a world of its own, and writes the mounts of each
/// namespace as they are then, and behind them, in comments, what else there is; or only the mounts
/// of one namespace. It has the faults of `run_script`, but that an event is one, too, for which there is
/// no memory: the world behind it isn't that of the script; and so is a namespace that isn't there when the script has
/// ended. Nothing is written before that.
pub fn world_script<R: Read, W: Write>(
    alloc: Global,
    reader: &mut R,
    writer: &mut W,
    only: Option<NsId>,
) -> Result<Summary, ScriptFault>
    ensures ok { IfOk result (ShowsInput only (R.remaining reader.old) (R.remaining reader.new)
        (W.contents writer.old) (W.contents writer.new)) }
    ensures err { IfErr result (StopsShowing only (R.remaining reader.old) (R.remaining reader.new)
        (W.contents writer.old) (W.contents writer.new)) }
{
    let input = read_all(alloc, reader);
    match open_script(alloc, &input) {
        Ok(None) => Ok(Summary {
            lines: 0,
            refused: 0,
        }),
        Ok(Some(opened)) => show_opened(alloc, opened, only, writer),
        Err(fault) => Err(fault),
    }
}

/// Writes a world as it is: the mounts of each namespace, and behind them, in comments, what else there
/// is; or only the mounts of one namespace, which has to be there. Its faults have line 0.
pub fn write_world<W: Write>(
    alloc: Global,
    world: &World,
    only: Option<NsId>,
    writer: &mut W,
) -> Result<(), ScriptFault>
    ensures ok { OnOk result (IsWritten only (state_of world.now) (W.contents writer.old)
        (W.contents writer.new)) }
    ensures err { IfErr result (NotWritten only (state_of world.now) 0 (W.contents writer.old)
        (W.contents writer.new)) }
{
    let played = Played {
        summary: Summary {
            lines: 0,
            refused: 0,
        },
        line: 0,
    };
    match show_world(alloc, world, played, only, writer) {
        Ok(_) => Ok(()),
        Err(fault) => Err(fault),
    }
}

/// Plays the events behind a head, and prints the world behind them.
fn show_opened<W: Write>(
    alloc: Global,
    opened: Opened<'_>,
    only: Option<NsId>,
    writer: &mut W,
) -> Result<Summary, ScriptFault>
    requires { opened.line + size_in (option_copied opened.rest) ≤ 2 ^ 63 }
    ensures whole { OnOk result (opened.entry.broke ≡ None) }
    ensures ok { IfOk result (WorldShown only (state_of opened.entry.world)
        (events_from opened.entry.broke opened.entry.line
        (lines_in (option_copied opened.entry.rest))) (W.contents writer.old)
        (W.contents writer.new)) }
    ensures err { IfErr result (ShowStops only (state_of opened.entry.world) opened.entry.line
        (events_from opened.entry.broke opened.entry.line
        (lines_in (option_copied opened.entry.rest))) (W.contents writer.old)
        (W.contents writer.new)) }
{
    let Opened {
        mut world,
        rest,
        line,
        broke,
    } = opened;
    // The world goes by a call, which is cheaper to check.
    match play_events(alloc, &mut world, rest, line, broke) {
        Ok(played) => {
            let shown = show_world(alloc, &world, played, only, writer);
            drop(world);
            shown
        }
        Err(fault) => {
            drop(world);
            Err(fault)
        }
    }
}

/// How the events went, and the line of the last, or of `events` where there is none.
#[derive(Clone, Copy)]
pub struct Played {
    pub summary: Summary,
    pub line: u64,
}

/// Plays the events of these lines, of which the first is behind the line with this number, up to one for
/// which there is no memory.
pub fn play_events(
    alloc: Global,
    world: &mut World,
    rest: Option<&[u8]>,
    line: u64,
    broke: Option<ScriptFaultKind>,
) -> Result<Played, ScriptFault>
    requires { line + size_in (option_copied rest) ≤ 2 ^ 63 }
    ensures whole { OnOk result (broke ≡ None) }
    ensures ok { IfOk result (λ played. EventsPlayed (state_of world.old)
        (events_from broke line (lines_in (option_copied rest.entry)))
        (state_of world.new) played.summary) }
    ensures last { IfOk result (λ played. played.line ≡ last_line line
        (events_from broke line (lines_in (option_copied rest.entry))).events) }
    ensures err { IfErr result (NotPlayed (events_from broke line
        (lines_in (option_copied rest.entry)))) }
{
    let mut summary = Summary {
        lines: 0,
        refused: 0,
    };
    let mut rest = rest;
    let mut number = line;
    loop {
        match next_event(alloc, rest, number, broke) {
            Ok(None) => {
                return Ok(Played {
                    summary,
                    line: number,
                });
            }
            Ok(Some(found)) => {
                let line = found.line;
                let Ok(behind) = play_found(alloc, world, found) else {
                    return Err(ScriptFault {
                        line,
                        kind: ScriptFaultKind::NoMemory,
                    });
                };
                summary = one_more(summary, behind.refused);
                rest = behind.rest;
                number = behind.line;
            }
            Err(fault) => return Err(fault),
        }
    }
}

/// What is behind an event that was played.
#[derive(Drop)]
struct Behind<'a> {
    refused: bool,
    line: u64,
    rest: Option<&'a [u8]>,
}

/// Makes the step of an event that was found, if there is memory for it.
fn play_found<'a>(
    alloc: Global,
    world: &mut World,
    found: Found<'a>,
) -> Result<Behind<'a>, AllocError>
    ensures played { IfOk result (λ behind. IsPlayed (state_of world.old) found.entry.event
        (state_of world.new) behind.refused) }
    ensures line { IfOk result (λ behind. behind.line ≡ found.entry.line) }
    ensures rest { IfOk result (λ behind. option_copied behind.rest
        ≡ option_copied found.entry.rest) }
{
    let refused = play_event(alloc, world, &found.event)?;
    Ok(Behind {
        refused,
        line: found.line,
        rest: found.rest,
    })
}

/// Makes the step of an event, and answers whether it was refused; or there is no memory for it.
fn play_event(alloc: Global, world: &mut World, event: &Event) -> Result<bool, AllocError>
    ensures { IfOk result (IsPlayed (state_of world.old) event.now (state_of world.new)) }
{
    let answer = world.answer(alloc, event);
    if ran_out(&answer) {
        return Err(AllocError);
    }
    Ok(is_refused(&answer))
}

/// Whether an event found no memory.
fn ran_out(answer: &Answer) -> bool
    ensures { result ≡ ran_out answer.now }
{
    match answer {
        Answer::Refused { errno } => matches!(errno, Errno::NoMemory),
        _ => false,
    }
}

/// What is printed of a world.
#[derive(Drop)]
enum Part {
    /// The mounts of one namespace.
    One { ns: NsId },
    /// Those of all namespaces, in this order, and what is open among what else there is.
    All { order: Vec<u32>, opens: Vec<Open> },
}

/// All that is gathered.
#[derive(Drop)]
struct View<'a> {
    tables: Tables<'a>,
    part: Part,
}

/// Prints a world, behind the events of its script.
fn show_world<W: Write>(
    alloc: Global,
    world: &World,
    played: Played,
    only: Option<NsId>,
    writer: &mut W,
) -> Result<Summary, ScriptFault>
    ensures same { IfOk result (λ summary. summary ≡ played.summary) }
    ensures ok { OnOk result (IsWritten only (state_of world.now) (W.contents writer.old)
        (W.contents writer.new)) }
    ensures err { IfErr result (NotWritten only (state_of world.now) played.line
        (W.contents writer.old) (W.contents writer.new)) }
{
    match gather(alloc, world, &only) {
        Ok(view) => print(world, &view, played, writer),
        Err(_) => {
            if is_nowhere(world, &only) {
                return Err(ScriptFault {
                    line: played.line,
                    kind: ScriptFaultKind::NoSuchNamespace,
                });
            }
            Err(ScriptFault {
                line: played.line,
                kind: ScriptFaultKind::NoMemory,
            })
        }
    }
}

/// Whether a mount is in the namespace.
fn has_mounts(mounts: &[MountRow], ns: NsId) -> bool
    ensures { result ≡ list_any (is_in ns) mounts.now }
{
    mounts.iter().any(|row| row.ns == ns)
}

/// Whether one namespace alone is asked for, and there is no mount in it.
fn is_nowhere(world: &World, only: &Option<NsId>) -> bool
    ensures { result ≡ is_nowhere only.now world.now.kernel.table.rows }
{
    match only {
        None => false,
        Some(ns) => !has_mounts(world.mounts(), *ns),
    }
}

/// All that is printed, if the namespace is there and there is memory for it.
fn gather<'a>(alloc: Global, world: &'a World, only: &Option<NsId>) -> Result<View<'a>, AllocError>
    ensures tables { IfOk result (λ view. AreTables view.tables world.now.kernel) }
    ensures text { IfOk result (λ view. IsText only.now (state_of world.now)
        (part_text world.now.kernel (rows_of world.now.daemon) view.part)) }
{
    if is_nowhere(world, only) {
        return Err(AllocError);
    }
    let tables = Tables::of(alloc, world)?;
    let part = part_of(alloc, world, only)?;
    Ok(View { tables, part })
}

fn part_of(alloc: Global, world: &World, only: &Option<NsId>) -> Result<Part, AllocError>
    requires { is_nowhere only.now world.now.kernel.table.rows ≡ false }
    ensures { IfOk result (λ part. IsText only.now (state_of world.now)
        (part_text world.now.kernel (rows_of world.now.daemon) part)) }
{
    match only {
        Some(ns) => Ok(Part::One { ns: *ns }),
        None => Ok(Part::All {
            order: namespaces(alloc, world.mounts())?,
            opens: opens(alloc, world)?,
        }),
    }
}

/// Prints what was gathered. All of it is told at one line.
fn print<W: Write>(
    world: &World,
    view: &View<'_>,
    played: Played,
    writer: &mut W,
) -> Result<Summary, ScriptFault>
    requires { AreTables view.now.tables world.now.kernel }
    ensures same { IfOk result (λ summary. summary ≡ played.summary) }
    ensures ok { OnOk result (Appends (W.contents writer.old) (W.contents writer.new)
        (part_text world.now.kernel (rows_of world.now.daemon) view.now.part)) }
    ensures err { IfErr result (IsCut played.line (part_text world.now.kernel
        (rows_of world.now.daemon) view.now.part) (W.contents writer.old) (W.contents writer.new)) }
{
    let mut output = Output::new();
    output.begin(played.line, writer);
    put_part(&mut output, world, view, writer);
    close(&mut output, Ok(played.summary), writer)
}

#[tactic(auto, using(am_views::proofs::FourPieces::puts_four))]
fn put_part<W: Write>(output: &mut Output, world: &World, view: &View<'_>, writer: &mut W)
    requires { AreTables view.now.tables world.now.kernel }
    ensures { Puts output.old output.new (part_text world.now.kernel
        (rows_of world.now.daemon) view.now.part) (W.contents writer.old) (W.contents writer.new) }
{
    match &view.part {
        Part::One { ns } => put_mounts(output, world, &view.tables, *ns, writer),
        Part::All { order, opens } => {
            put_namespaces(output, world, &view.tables, order, writer);
            put_opens(output, world, opens, writer);
            put_kernel(output, world, writer);
            put_daemon(output, world, writer);
        }
    }
}

#[tactic(auto, using(am_script::proofs::Pieces::puts_none))]
fn put_namespaces<W: Write>(
    output: &mut Output,
    world: &World,
    tables: &Tables<'_>,
    order: &[u32],
    writer: &mut W,
)
    requires { AreTables tables.now world.now.kernel }
    ensures { Puts output.old output.new (namespaces_text world.now.kernel order.now)
        (W.contents writer.old) (W.contents writer.new) }
{
    for ns in order {
        put_namespace(output, world, tables, *ns, writer);
    }
}

#[tactic(auto, using(am_script::proofs::Pieces::puts_three))]
fn put_namespace<W: Write>(
    output: &mut Output,
    world: &World,
    tables: &Tables<'_>,
    ns: u32,
    writer: &mut W,
)
    requires { AreTables tables.now world.now.kernel }
    ensures { Puts output.old output.new (namespace_text world.now.kernel ns)
        (W.contents writer.old) (W.contents writer.new) }
{
    put_number(output, b"# namespace ", u64::from(ns), writer);
    put_word(output, b"\n", writer);
    put_mounts(output, world, tables, NsId(ns), writer);
}
