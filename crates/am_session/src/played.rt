//! A world that is played event by event.

ghost use Rattle.std.specs.Prelude.{◌≡◌, ◌⊎◌, ◌+◌, ◌<◌, ◌≤◌, ◌^◌, ◌++◌, [], ◌∷◌, option_copied, vec_len, None, Some, IfOk, IfErr, OnOk};
ghost use Rattle.am_daemon.specs.{next_act_of, rows_of};
ghost use Rattle.am_script.specs.{LineAnswered, NoNext, answer_line, events_from, fault_at, lines_in, lines_of, only_fault, size_in};
ghost use Rattle.am_script.specs.declared.fault.ScriptFaultKind.TheVariants.{WriteFailed};
ghost use Rattle.am_views.specs.ObsText.{obs_line, obs_lines};
ghost use Rattle.am_wait.specs.{wait_of};
ghost use Rattle.am_world.specs.Capacity.{state_of};
ghost use Rattle.am_session.specs.Sessions.{HandsOn, HasEvent, IsAnswer, IsKind, IsNew, IsNotKept, IsShown, IsText, Plays, Takes, awaited, event_said, no_event, one_event, seen_last};

use am_group::MountState;
use am_lines::cut_at_line_feed;
use am_mountinfo::write_world;
use am_names::{AbsPath, Errno, JobId, NsId, Token, WaitRow, WalkerId};
use am_script::answer_line::{is_refused, push_answer};
use am_script::visit::{Input, Opened, next_event, open_script};
use am_script::{ScriptFault, ScriptFaultKind, Summary};
use am_views::push_observation;
use am_world::{Act, Answer, Obs, World};
use std::alloc::{AllocError, Global};

/// The longest head, in bytes: 16 TiB.
const MOST: usize = 17_592_186_044_416;

/// A world, and what was answered last. The world keeps what was observed of that event alone.
#[derive(Drop)]
pub struct Session {
    pub world: World,
    pub answer: Option<Answer>,
}

/// Begins the world of a head, which ends with the line `events`.
pub fn begin(alloc: Global, head: &[u8]) -> Result<Session, ScriptFault>
    ensures { IsNew head.now result }
{
    let input = copied(alloc, head)?;
    let session = begin_input(alloc, &input);
    drop(input);
    session
}

fn copied(alloc: Global, head: &[u8]) -> Result<Input, ScriptFault>
    ensures text { IfOk result (λ input. input.text.items ≡ head.now) }
    ensures whole { IfOk result (λ input. input.broke ≡ None) }
    ensures short { IfOk result (λ input. vec_len input.text < 2 ^ 62) }
    ensures err { IfErr result (IsNotKept head.now) }
{
    if head.len() > MOST {
        return Err(ScriptFault {
            line: 1,
            kind: ScriptFaultKind::ReadFailed,
        });
    }
    let mut text = Vec::new(alloc);
    match text.extend_from_slice(head) {
        Ok(()) => Ok(Input { text, broke: None }),
        Err(_) => Err(ScriptFault {
            line: 1,
            kind: ScriptFaultKind::NoMemory,
        }),
    }
}

fn begin_input(alloc: Global, input: &Input) -> Result<Session, ScriptFault>
    requires short { vec_len input.now.text < 2 ^ 62 }
    requires whole { input.now.broke ≡ None }
    ensures { IsNew input.now.text.items result }
{
    match open_script(alloc, input) {
        Ok(Some(opened)) => begin_opened(alloc, opened),
        Ok(None) => Err(ScriptFault {
            line: 0,
            kind: ScriptFaultKind::BadSection,
        }),
        Err(fault) => Err(fault),
    }
}

/// Nothing but lines that are skipped may stand behind the line `events`.
fn begin_opened(alloc: Global, opened: Opened<'_>) -> Result<Session, ScriptFault>
    requires { opened.line + size_in (option_copied opened.rest) ≤ 2 ^ 63 }
    ensures world { IfOk result (λ session. session.world ≡ opened.entry.world) }
    ensures answer { IfOk result (λ session. session.answer ≡ None) }
    ensures told { OnOk result (events_from opened.entry.broke opened.entry.line
        (lines_in (option_copied opened.entry.rest)) ≡ only_fault None) }
    ensures err { IfErr result (λ fault. NoNext (events_from opened.entry.broke opened.entry.line
        (lines_in (option_copied opened.entry.rest))) fault
        ⊎ HasEvent (events_from opened.entry.broke opened.entry.line
        (lines_in (option_copied opened.entry.rest))) fault) }
{
    let Opened {
        world,
        rest,
        line,
        broke,
    } = opened;
    match next_event(alloc, rest, line, broke) {
        Ok(None) => Ok(Session {
            world,
            answer: None,
        }),
        Ok(Some(found)) => {
            let line = found.line;
            drop(found);
            drop(world);
            Err(ScriptFault {
                line,
                kind: ScriptFaultKind::BadEvent,
            })
        }
        Err(fault) => {
            drop(world);
            Err(fault)
        }
    }
}

/// The answer to the event of a line, which the world makes; none where the line is skipped.
fn answer_event(
    alloc: Global,
    world: &mut World,
    line: &[u8],
) -> Result<Option<Answer>, ScriptFaultKind>
    ensures answered { LineAnswered (state_of world.old) (event_said (lines_of line.now))
        (state_of world.new) result }
    ensures handed { HandsOn world.old result world.new }
{
    let (line, behind) = cut_at_line_feed(line);
    match behind {
        Some(_rest) => Err(ScriptFaultKind::BadEvent),
        None => answer_line(alloc, world, line),
    }
}

/// So for a text that is one line.
fn answer_line(
    alloc: Global,
    world: &mut World,
    line: &[u8],
) -> Result<Option<Answer>, ScriptFaultKind>
    requires { lines_of line.now ≡ line.now ∷ [] }
    ensures answered { LineAnswered (state_of world.old) (event_said (lines_of line.now))
        (state_of world.new) result }
    ensures handed { HandsOn world.old result world.new }
{
    let found = match next_event(alloc, Some(line), 0, None) {
        Ok(None) => return Ok(None),
        Ok(Some(found)) => Some(found),
        Err(
            ScriptFault {
                kind: ScriptFaultKind::NoMemory,
                ..
            },
        ) => None,
        Err(fault) => return Err(fault.kind),
    };
    // Nobody can ask any more what was observed before.
    world.let_go(alloc);
    match found {
        Some(found) => {
            let answer = world.step(alloc, &found.event);
            drop(found);
            Ok(Some(answer))
        }
        // The event finds no memory before its step: it is refused, as a step refuses it.
        None => Ok(Some(Answer::Refused {
            errno: Errno::NoMemory,
        })),
    }
}

/// Plays the event of a line, and keeps its answer. It answers whether the line has an event.
pub fn take_line(alloc: Global, session: &mut Session, line: &[u8]) -> Result<bool, ScriptFaultKind>
    ensures { Takes line.now session.old session.new result }
{
    match answer_event(alloc, &mut session.world, line) {
        Ok(None) => Ok(false),
        Ok(Some(answer)) => {
            session.answer = Some(answer);
            Ok(true)
        }
        Err(kind) => Err(kind),
    }
}

/// No event is answered.
pub fn no_event() -> Summary
    ensures { result ≡ no_event }
{
    Summary {
        lines: 0,
        refused: 0,
    }
}

fn one_event(answer: &Answer) -> Summary
    ensures { result ≡ one_event answer.now }
{
    Summary {
        lines: 1,
        refused: if is_refused(answer) { 1 } else { 0 },
    }
}

/// There is no memory for what is written.
fn unwritten(line: u64) -> ScriptFault
    ensures { result ≡ fault_at line WriteFailed }
{
    ScriptFault {
        line,
        kind: ScriptFaultKind::WriteFailed,
    }
}

fn write_answer(answer: &Answer, written: &mut Vec<u8>) -> Result<Summary, ScriptFault>
    requires { written.old.items ≡ [] }
    ensures { IsText 1 (answer_line answer.now) (one_event answer.now) written.new.items result }
{
    match push_answer(written, answer) {
        Ok(()) => Ok(one_event(answer)),
        Err(_) => {
            written.clear();
            Err(unwritten(1))
        }
    }
}

/// Plays the event of a line, and writes the line of its answer.
pub fn play_line(
    alloc: Global,
    session: &mut Session,
    line: &[u8],
    written: &mut Vec<u8>,
) -> Result<Summary, ScriptFault>
    requires { written.old.items ≡ [] }
    ensures { Plays line.now session.old session.new written.new.items result }
{
    match answer_event(alloc, &mut session.world, line) {
        Ok(None) => Ok(no_event()),
        Ok(Some(answer)) => {
            let went = write_answer(&answer, written);
            session.answer = Some(answer);
            went
        }
        Err(kind) => Err(ScriptFault { line: 1, kind }),
    }
}

/// Writes the line of what was answered last, if anything was.
pub fn tell_answer(session: &Session, written: &mut Vec<u8>) -> Result<Summary, ScriptFault>
    requires { written.old.items ≡ [] }
    ensures { IsAnswer session.now.answer written.new.items result }
{
    match &session.answer {
        Some(answer) => write_answer(answer, written),
        None => Ok(no_event()),
    }
}

/// Writes what the last event showed, as a trace has it.
pub fn tell_seen(session: &Session, written: &mut Vec<u8>) -> Result<Summary, ScriptFault>
    requires { written.old.items ≡ [] }
    ensures { IsText 0 (obs_lines (seen_last session.now)) no_event written.new.items result }
{
    match push_seen(written, session.world.trace()) {
        Ok(()) => Ok(no_event()),
        Err(_) => {
            written.clear();
            Err(unwritten(0))
        }
    }
}

fn push_seen(text: &mut Vec<u8>, seen: &[Obs]) -> Result<(), AllocError>
    requires { text.old.items ≡ [] }
    ensures { OnOk result (text.new.items ≡ obs_lines seen.now) }
{
    for obs in seen {
        push_line(text, obs)?;
    }
    Ok(())
}

fn push_line(text: &mut Vec<u8>, obs: &Obs) -> Result<(), AllocError>
    ensures { OnOk result (text.new.items ≡ text.old.items ++ obs_line obs.now) }
{
    text.extend_from_slice(b"  ")?;
    push_observation(text, obs)?;
    text.extend_from_slice(b"\n")
}

/// Writes the world as it is.
pub fn tell_world(
    alloc: Global,
    session: &Session,
    only: Option<NsId>,
    written: &mut Vec<u8>,
) -> Result<Summary, ScriptFault>
    requires { written.old.items ≡ [] }
    ensures { IsShown only (state_of session.now.world) written.new.items result }
{
    match write_world(alloc, &session.world, only, written) {
        Ok(()) => Ok(no_event()),
        Err(fault) => Err(fault),
    }
}

/// The act that a job makes next; none where there is no such job.
pub fn next_act(session: &Session, job: JobId) -> Option<&Act>
    ensures { option_copied result ≡ next_act_of job (rows_of session.now.world.daemon) }
{
    session.world.next_act(job)
}

/// The state of the mount to which a path leads, as an event `kind` tells it. None comes.
pub fn kind_at(
    alloc: Global,
    session: &Session,
    ns: NsId,
    path: &AbsPath<'_>,
) -> Result<MountState, Errno>
    ensures { IsKind (state_of session.now.world) ns path.now result }
{
    session.world.kind_at(alloc, ns, path)
}

/// The token on which a walker waits that isn't acknowledged.
pub fn token_awaited(session: &Session, walker: WalkerId) -> Option<Token>
    ensures { result ≡ awaited (wait_of session.now.world.kernel.waits.waits walker) }
{
    match session.world.wait_of(walker) {
        Some(wait) => awaited(&wait),
        None => None,
    }
}

/// The token of a wait, unless that is acknowledged.
fn awaited(wait: &WaitRow) -> Option<Token>
    ensures { result ≡ awaited (Some wait.now) }
{
    match wait.status {
        None => Some(wait.token),
        Some(_) => None,
    }
}
