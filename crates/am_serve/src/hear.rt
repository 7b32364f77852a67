//! What a line makes of a session.

ghost use Rattle.std.specs.Prelude.{◌≡◌, ◌+◌, ◌<◌, ◌≤◌, ◌^◌, ◌++◌, List, ℕ, false, true, None, IfErr, IfOk};
ghost use Rattle.am_script.specs.{fault_at, is_long};
ghost use Rattle.am_script.specs.declared.fault.ScriptFaultKind.TheVariants.{NoMemory};
ghost use Rattle.am_session.specs.{IsBegun, Session};
ghost use Rattle.am_serve.specs.Hearing.{FindsNoEvent, Heard, Hears, HeardInHead, HeardLine, KindTold, PlaysLine, fresh, next_fault, question_told};
ghost use Rattle.am_serve.specs.Openings.{Follows, HeardIfHead, IsNoOpening};
ghost use Rattle.am_serve.specs.declared.complaints.Complaint.TheVariants.{OfScript};
ghost use Rattle.am_serve.specs.declared.request.Request.TheVariants.{Long};
ghost use Rattle.am_serve.specs.declared.stands.Stand.TheVariants.{Gathering, Playing};
ghost use Rattle.am_serve.specs.declared.telling.Telling.TheVariants.{Nothing};

use crate::complaints::Complaint;
use crate::head::Head;
use crate::request::{Question, Request, request_of};
use crate::stands::{Serving, Stand};
use crate::telling::Telling;
use am_diagnosis::{Expected, Slip};
use am_names::{AbsPath, NsId};
use am_script::{ScriptFault, ScriptFaultKind};
use am_session::{Session, begin, kind_at, slip_of, take_line};
use std::alloc::Global;
use std::mem;

/// A fault of the line behind so many.
pub(crate) fn next_fault(lines: u64, complaint: Complaint, slip: Option<Slip>) -> Telling
    requires { lines < 2 ^ 62 }
    ensures { result ≡ next_fault lines complaint slip }
{
    Telling::Fault {
        line: lines + 1,
        complaint,
        slip,
    }
}

pub(crate) fn no_room(lines: u64) -> Telling
    requires { lines < 2 ^ 62 }
    ensures { result ≡ next_fault lines (OfScript NoMemory) None }
{
    next_fault(
        lines,
        Complaint::OfScript {
            kind: ScriptFaultKind::NoMemory,
        },
        None,
    )
}

/// What is told of a line that is too long.
pub(crate) fn hear_long(serving: &Serving) -> Telling
    requires { serving.now.lines < 2 ^ 62 }
    ensures long { (line : List ℕ) → Heard Long serving.now line serving.now result }
    ensures hears { (line : List ℕ) → is_long line ≡ true → Hears serving.now line serving.now result }
{
    next_fault(
        serving.lines,
        Complaint::OfScript {
            kind: ScriptFaultKind::LongLine,
        },
        Some(Slip {
            column: 8193,
            expected: Expected::End,
        }),
    )
}

fn question_told(stand: &Stand, lines: u64, question: Question) -> Telling
    requires { lines < 2 ^ 62 }
    ensures { result ≡ question_told stand.now lines question }
{
    match stand {
        Stand::Gathering { .. } => next_fault(lines, Complaint::NoWorld, None),
        Stand::Playing { .. } => Telling::Asked { question },
    }
}

fn kind_told(alloc: Global, stand: &Stand, lines: u64, ns: NsId, path: &AbsPath<'_>) -> Telling
    requires { lines < 2 ^ 62 }
    ensures { KindTold stand.now lines ns path.now result }
{
    match stand {
        Stand::Gathering { .. } => next_fault(lines, Complaint::NoWorld, None),
        Stand::Playing { session } => Telling::Kind {
            came: kind_at(alloc, session, ns, path),
        },
    }
}

/// What is wrong with a head.
#[derive(Clone, Copy)]
pub(crate) struct Bad {
    pub fault: ScriptFault,
    pub slip: Option<Slip>,
}

/// There is no memory for the last line of a head.
fn lost(lines: u64) -> Bad
    requires { lines < 2 ^ 62 }
    ensures { result ≡ record { fault = fault_at (lines + 1) NoMemory; slip = None } }
{
    Bad {
        fault: ScriptFault {
            line: lines + 1,
            kind: ScriptFaultKind::NoMemory,
        },
        slip: None,
    }
}

/// Begins the world of a head of so many lines, which ends with this one, or tells what is wrong.
fn open_head(alloc: Global, head: &mut Head, lines: u64, line: &[u8]) -> Result<Session, Bad>
    requires { lines < 2 ^ 62 }
    ensures ok { IfOk result (IsBegun (head.old.text ++ line.now)) }
    ensures err { IfErr result (IsNoOpening head.old lines line.now) }
{
    if let Err(_) = head.push_last(line) {
        return Err(lost(lines));
    }
    match begin(alloc, head.text()) {
        Ok(session) => Ok(session),
        Err(fault) => {
            let slip = slip_of(alloc, head.text(), fault);
            Err(Bad { fault, slip })
        }
    }
}

/// What comes of that for a session of which so many lines were taken.
fn follow(
    alloc: Global,
    opened: Result<Session, Bad>,
    stand: &mut Stand,
    lines: &mut u64,
) -> Telling
    requires { lines.old < 2 ^ 62 }
    ensures follows { Follows opened lines.old stand.new lines.new result }
    ensures counted { lines.new ≤ lines.old + 1 }
{
    match opened {
        Ok(session) => {
            // What was there goes by a call, which is cheaper to check.
            drop(mem::replace(stand, Stand::Playing { session }));
            *lines += 1;
            Telling::Nothing
        }
        Err(bad) => {
            let head = Head::new(alloc);
            drop(mem::replace(stand, Stand::Gathering { head }));
            *lines = 0;
            Telling::Fault {
                line: bad.fault.line,
                complaint: Complaint::OfScript {
                    kind: bad.fault.kind,
                },
                slip: bad.slip,
            }
        }
    }
}

/// Takes a line of a head that doesn't end it.
fn gather(head: &mut Head, lines: &mut u64, line: &[u8]) -> Telling
    requires { lines.old < 2 ^ 62 }
    ensures heard { HeardInHead false head.old lines.old line.now
        (record { stand = Gathering head.new; lines = lines.new }) result }
    ensures counted { lines.new ≤ lines.old + 1 }
{
    match head.push_line(line) {
        Ok(()) => {
            *lines += 1;
            Telling::Nothing
        }
        Err(_) => no_room(*lines),
    }
}

/// Where a line of events isn't as expected, which doesn't count.
fn no_event(alloc: Global, lines: u64, line: &[u8], kind: ScriptFaultKind) -> Telling
    requires { lines < 2 ^ 62 }
    ensures { (next : Session) → FindsNoEvent next lines line.now kind
        (record { stand = Playing next; lines = lines }) result }
{
    let slip = slip_of(alloc, line, ScriptFault { line: 1, kind });
    next_fault(lines, Complaint::OfScript { kind }, slip)
}

/// Plays a line of events.
fn play(alloc: Global, session: &mut Session, lines: &mut u64, line: &[u8]) -> Telling
    requires { lines.old < 2 ^ 62 }
    ensures plays { PlaysLine session.old lines.old line.now
        (record { stand = Playing session.new; lines = lines.new }) result }
    ensures counted { lines.new ≤ lines.old + 1 }
{
    match take_line(alloc, session, line) {
        Ok(true) => {
            *lines += 1;
            Telling::Answer
        }
        Ok(false) => {
            *lines += 1;
            Telling::Nothing
        }
        Err(kind) => no_event(alloc, *lines, line, kind),
    }
}

/// Takes a line of a head. A function pays at entry for the size of its locals: a line of events isn't
/// to pay for a world.
fn take_in_head(alloc: Global, stand: &mut Stand, lines: &mut u64, line: &[u8]) -> Telling
    requires { lines.old < 2 ^ 62 }
    ensures heard { HeardIfHead stand.old lines.old line.now
        (record { stand = stand.new; lines = lines.new }) result }
    ensures counted { lines.new ≤ lines.old + 1 }
{
    let Stand::Gathering { head } = stand else {
        return Telling::Nothing;
    };
    if !head.ends(line) {
        return gather(head, lines, line);
    }
    let opened = open_head(alloc, head, *lines, line);
    follow(alloc, opened, stand, lines)
}

/// Takes a line of a script.
fn take(alloc: Global, stand: &mut Stand, lines: &mut u64, line: &[u8]) -> Telling
    requires { lines.old < 2 ^ 62 }
    ensures heard { HeardLine stand.old lines.old line.now
        (record { stand = stand.new; lines = lines.new }) result }
    ensures counted { lines.new ≤ lines.old + 1 }
{
    match stand {
        Stand::Gathering { .. } => take_in_head(alloc, stand, lines, line),
        Stand::Playing { session } => play(alloc, session, lines, line),
    }
}

/// Lets a new head begin.
fn reset(alloc: Global, serving: &mut Serving) -> Telling
    ensures new { serving.new ≡ fresh }
    ensures told { result ≡ Nothing }
{
    drop(mem::replace(serving, Serving::new(alloc)));
    Telling::Nothing
}

/// Takes a line, and answers what is told of it.
pub(crate) fn hear(alloc: Global, serving: &mut Serving, line: &[u8]) -> Telling
    requires { serving.old.lines < 2 ^ 62 }
    ensures heard { Hears serving.old line.now serving.new result }
    ensures counted { serving.new.lines ≤ serving.old.lines + 1 }
{
    match request_of(serving.stand.is_within(), line) {
        Request::Long => hear_long(serving),
        Request::Reset => reset(alloc, serving),
        Request::Asks { question } => question_told(&serving.stand, serving.lines, question),
        Request::AsksKind { ns, path } => {
            kind_told(alloc, &serving.stand, serving.lines, ns, &path)
        }
        Request::Unknown => next_fault(serving.lines, Complaint::BadQuestion, None),
        Request::Plain => take(alloc, &mut serving.stand, &mut serving.lines, line),
    }
}
