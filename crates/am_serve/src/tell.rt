//! What is told is written.

ghost use Rattle.std.specs.Prelude.{◌≡◌, ◌<◌, ◌^◌, Err, IfErr, IsOk, OnOk};
ghost use Rattle.std.specs.Io.KnownBytes.{Appends};
ghost use Rattle.am_mountinfo.specs.{IsCut};
ghost use Rattle.am_script.specs.{Puts};
ghost use Rattle.am_serve.specs.Replies.{IsSaid, IsUnsaid, closed};
ghost use Rattle.am_serve.specs.declared.telling.Telling.TheVariants.{Asked};
ghost use Rattle.am_serve.specs.Tellings.{IsLawful, IsTold, IsWorldText, TellsWorld, plain_text};

use crate::complaints::Complaint;
use crate::request::Question;
use crate::stands::{Serving, Stand};
use crate::telling::Telling;
use crate::text::put_told;
use am_mountinfo::write_world;
use am_names::NsId;
use am_script::answer_line::put_word;
use am_script::output::Output;
use am_script::visit::close;
use am_script::{ScriptFault, ScriptFaultKind, Summary};
use am_session::{Session, no_event};
use std::alloc::Global;
use std::io::Write;

/// Puts out what is told, and the line that ends a reply.
#[tactic(auto, using(am_script::proofs::Pieces::puts_two))]
fn put_reply<W: Write>(output: &mut Output, serving: &Serving, telling: Telling, writer: &mut W)
    ensures { Puts output.old output.new (closed (plain_text telling serving.now))
        (W.contents writer.old) (W.contents writer.new) }
{
    put_told(output, serving, telling, writer);
    put_word(output, b".\n", writer);
}

fn ended(went: Result<Summary, ScriptFault>) -> Result<(), ScriptFault>
    ensures ok { OnOk result (IsOk went) }
    ensures err { IfErr result (λ fault. went ≡ Err fault) }
{
    match went {
        Ok(_) => Ok(()),
        Err(fault) => Err(fault),
    }
}

/// Writes what is told, but of a world nothing, and the line that ends a reply.
fn send<W: Write>(
    serving: &Serving,
    telling: Telling,
    number: u64,
    writer: &mut W,
) -> Result<(), ScriptFault>
    ensures ok { OnOk result (Appends (W.contents writer.old) (W.contents writer.new)
        (closed (plain_text telling serving.now))) }
    ensures err { IfErr result (IsCut number (closed (plain_text telling serving.now))
        (W.contents writer.old) (W.contents writer.new)) }
{
    let mut output = Output::new();
    output.begin(number, writer);
    put_reply(&mut output, serving, telling, writer);
    ended(close(&mut output, Ok(no_event()), writer))
}

/// Makes known that all that was observed is lawful.
fn know_lawful(stand: &Stand)
    ensures { IsLawful stand.now }
{
    match stand {
        Stand::Gathering { .. } => {}
        Stand::Playing { session } => {
            session.world.trace();
        }
    }
}

/// Writes a world, and the line that ends a reply.
fn send_world<W: Write>(
    alloc: Global,
    serving: &Serving,
    session: &Session,
    only: Option<NsId>,
    number: u64,
    writer: &mut W,
) -> Result<(), ScriptFault>
    requires { serving.now.lines < 2 ^ 62 }
    ensures ok { OnOk result (IsSaid (IsWorldText only serving.now.lines session.now) (W.contents writer.old)
        (W.contents writer.new)) }
    ensures err { IfErr result (IsUnsaid (IsWorldText only serving.now.lines session.now) number
        (W.contents writer.old) (W.contents writer.new)) }
{
    match write_world(alloc, &session.world, only, writer) {
        Ok(()) => send(serving, Telling::Nothing, number, writer),
        Err(fault) => match fault.kind {
            ScriptFaultKind::WriteFailed => Err(ScriptFault {
                line: number,
                kind: ScriptFaultKind::WriteFailed,
            }),
            kind => send(
                serving,
                Telling::Fault {
                    line: serving.lines + 1,
                    complaint: Complaint::OfScript { kind },
                    slip: None,
                },
                number,
                writer,
            ),
        },
    }
}

fn send_world_in<W: Write>(
    alloc: Global,
    serving: &Serving,
    only: Option<NsId>,
    number: u64,
    writer: &mut W,
) -> Result<(), ScriptFault>
    requires { serving.now.lines < 2 ^ 62 }
    ensures ok { OnOk result (IsSaid (TellsWorld only serving.now.lines serving.now.stand) (W.contents writer.old)
        (W.contents writer.new)) }
    ensures err { IfErr result (IsUnsaid (TellsWorld only serving.now.lines serving.now.stand) number
        (W.contents writer.old) (W.contents writer.new)) }
{
    match &serving.stand {
        Stand::Gathering { .. } => send(serving, Telling::Nothing, number, writer),
        Stand::Playing { session } => send_world(alloc, serving, session, only, number, writer),
    }
}

fn tell_asked<W: Write>(
    alloc: Global,
    serving: &Serving,
    question: Question,
    number: u64,
    writer: &mut W,
) -> Result<(), ScriptFault>
    requires { serving.now.lines < 2 ^ 62 }
    ensures ok { OnOk result (IsSaid (IsTold (Asked question) serving.now) (W.contents writer.old)
        (W.contents writer.new)) }
    ensures err { IfErr result (IsUnsaid (IsTold (Asked question) serving.now) number
        (W.contents writer.old) (W.contents writer.new)) }
{
    know_lawful(&serving.stand);
    match question {
        Question::World { only } => send_world_in(alloc, serving, only, number, writer),
        _ => send(serving, Telling::Asked { question }, number, writer),
    }
}

/// Writes what is told, and the line that ends a reply. Of what isn't written whole the fault has this
/// number.
pub(crate) fn tell<W: Write>(
    alloc: Global,
    serving: &Serving,
    telling: Telling,
    number: u64,
    writer: &mut W,
) -> Result<(), ScriptFault>
    requires { serving.now.lines < 2 ^ 62 }
    ensures ok { OnOk result (IsSaid (IsTold telling serving.now) (W.contents writer.old)
        (W.contents writer.new)) }
    ensures err { IfErr result (IsUnsaid (IsTold telling serving.now) number (W.contents writer.old)
        (W.contents writer.new)) }
{
    match telling {
        Telling::Asked { question } => tell_asked(alloc, serving, question, number, writer),
        _ => send(serving, telling, number, writer),
    }
}
