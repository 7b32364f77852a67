//! What is told, as text.

ghost use Rattle.std.specs.Prelude.{◌≡◌, ◌++◌, None, Some, codes, option_copied};
ghost use Rattle.am_diagnosis.specs.Expectations.{expected_words};
ghost use Rattle.am_script.specs.{Puts, answer_line};
ghost use Rattle.am_session.specs.{kind_answer};
ghost use Rattle.am_views.specs.ObsText.{obs_line, obs_lines};
ghost use Rattle.am_serve.specs.Tellings.{answer_in, answer_text, asked_text, fault_text, next_text, plain_text, question_text, waiting_text};
ghost use Rattle.am_serve.specs.Words.{complaint_word};

use crate::complaints::Complaint;
use crate::request::Question;
use crate::stands::{Serving, Stand};
use crate::telling::Telling;
use am_diagnosis::{Expected, Slip};
use am_group::MountState;
use am_names::{Errno, Token};
use am_script::answer_line::{put_answer, put_number, put_word};
use am_script::output::Output;
use am_session::{Session, next_act, token_awaited};
use am_views::obs_text::put_obs;
use am_world::{Act, Answer, Obs};
use std::io::Write;

/// Puts out that there is a fault at a line.
#[tactic(auto, using(am_views::proofs::FourPieces::puts_four))]
fn put_plain_fault<W: Write>(output: &mut Output, line: u64, word: &str, writer: &mut W)
    ensures { Puts output.old output.new (fault_text line word.now None) (W.contents writer.old)
        (W.contents writer.new) }
{
    put_number(output, b"fault ", line, writer);
    put_word(output, b" ", writer);
    put_word(output, word.as_bytes(), writer);
    put_word(output, b"\n", writer);
}

/// Puts out what was expected.
#[tactic(auto, using(am_script::proofs::Pieces::puts_three))]
fn put_expected<W: Write>(output: &mut Output, expected: Expected, writer: &mut W)
    ensures { Puts output.old output.new
        (codes " expected " ++ (expected_words expected ++ codes "\n")) (W.contents writer.old)
        (W.contents writer.new) }
{
    put_word(output, b" expected ", writer);
    put_word(output, expected.words().as_bytes(), writer);
    put_word(output, b"\n", writer);
}

/// Puts out that there is a fault at a place.
#[tactic(auto, using(am_mountinfo::proofs::MorePieces::puts_five))]
fn put_placed_fault<W: Write>(
    output: &mut Output,
    line: u64,
    word: &str,
    slip: Slip,
    writer: &mut W,
)
    ensures { Puts output.old output.new (fault_text line word.now (Some slip))
        (W.contents writer.old) (W.contents writer.new) }
{
    put_number(output, b"fault ", line, writer);
    put_number(output, b":", slip.column as u64, writer);
    put_word(output, b" ", writer);
    put_word(output, word.as_bytes(), writer);
    put_expected(output, slip.expected, writer);
}

fn put_fault<W: Write>(
    output: &mut Output,
    line: u64,
    word: &str,
    slip: Option<Slip>,
    writer: &mut W,
)
    ensures { Puts output.old output.new (fault_text line word.now slip) (W.contents writer.old)
        (W.contents writer.new) }
{
    match slip {
        None => put_plain_fault(output, line, word, writer),
        Some(slip) => put_placed_fault(output, line, word, slip, writer),
    }
}

fn put_last<W: Write>(output: &mut Output, answer: &Option<Answer>, writer: &mut W)
    ensures { Puts output.old output.new (answer_text answer.now) (W.contents writer.old)
        (W.contents writer.new) }
{
    match answer {
        None => put_word(output, b"", writer),
        Some(answer) => put_answer(output, answer, writer),
    }
}

/// Puts out the line of the last answer.
fn put_answer_in<W: Write>(output: &mut Output, stand: &Stand, writer: &mut W)
    ensures { Puts output.old output.new (answer_in stand.now) (W.contents writer.old)
        (W.contents writer.new) }
{
    match stand {
        Stand::Gathering { .. } => put_word(output, b"", writer),
        Stand::Playing { session } => put_last(output, &session.answer, writer),
    }
}

#[tactic(auto, using(am_script::proofs::Pieces::puts_three))]
fn put_seen_line<W: Write>(output: &mut Output, obs: &Obs, writer: &mut W)
    ensures { Puts output.old output.new (obs_line obs.now) (W.contents writer.old)
        (W.contents writer.new) }
{
    put_word(output, b"  ", writer);
    put_obs(output, obs, writer);
    put_word(output, b"\n", writer);
}

/// Puts out the lines of what was observed.
#[tactic(auto, using(am_script::proofs::Pieces::puts_none))]
fn put_seen<W: Write>(output: &mut Output, seen: &[Obs], writer: &mut W)
    ensures { Puts output.old output.new (obs_lines seen.now) (W.contents writer.old)
        (W.contents writer.new) }
{
    for obs in seen {
        put_seen_line(output, obs, writer);
    }
}

fn put_act<W: Write>(output: &mut Output, act: &Act, writer: &mut W)
    ensures { Puts output.old output.new (next_text (Some act.now)) (W.contents writer.old)
        (W.contents writer.new) }
{
    match act {
        Act::Mkdir { .. } => put_word(output, b"next mkdir\n", writer),
        Act::Mount { .. } => put_word(output, b"next mount\n", writer),
        Act::Umount { .. } => put_word(output, b"next umount\n", writer),
        Act::Rmdir { .. } => put_word(output, b"next rmdir\n", writer),
        Act::Record { .. } => put_word(output, b"next record\n", writer),
        Act::Reply { .. } => put_word(output, b"next reply\n", writer),
    }
}

fn put_next<W: Write>(output: &mut Output, act: Option<&Act>, writer: &mut W)
    ensures { Puts output.old output.new (next_text (option_copied act.entry))
        (W.contents writer.old) (W.contents writer.new) }
{
    match act {
        None => put_word(output, b"none\n", writer),
        Some(act) => put_act(output, act, writer),
    }
}

#[tactic(auto, using(am_script::proofs::Pieces::puts_two))]
fn put_waiting<W: Write>(output: &mut Output, token: Option<Token>, writer: &mut W)
    ensures { Puts output.old output.new (waiting_text token) (W.contents writer.old)
        (W.contents writer.new) }
{
    match token {
        None => put_word(output, b"no\n", writer),
        Some(token) => {
            put_number(output, b"waiting ", u64::from(token.0), writer);
            put_word(output, b"\n", writer);
        }
    }
}

/// Puts out what is answered to a question; of a world nothing.
fn put_question<W: Write>(
    output: &mut Output,
    question: Question,
    session: &Session,
    writer: &mut W,
)
    ensures { Puts output.old output.new (question_text question session.now)
        (W.contents writer.old) (W.contents writer.new) }
{
    match question {
        Question::Trace => put_seen(output, session.world.trace(), writer),
        Question::World { .. } => put_word(output, b"", writer),
        Question::Next { job } => put_next(output, next_act(session, job), writer),
        Question::Waiting { walker } => {
            put_waiting(output, token_awaited(session, walker), writer)
        }
        Question::Lawful => put_word(output, b"yes\n", writer),
    }
}

fn put_asked<W: Write>(output: &mut Output, question: Question, stand: &Stand, writer: &mut W)
    ensures { Puts output.old output.new (asked_text question stand.now) (W.contents writer.old)
        (W.contents writer.new) }
{
    match stand {
        Stand::Gathering { .. } => put_word(output, b"", writer),
        Stand::Playing { session } => put_question(output, question, session, writer),
    }
}

fn put_complaint<W: Write>(
    output: &mut Output,
    line: u64,
    complaint: Complaint,
    slip: Option<Slip>,
    writer: &mut W,
)
    ensures { Puts output.old output.new (fault_text line (complaint_word complaint) slip)
        (W.contents writer.old) (W.contents writer.new) }
{
    put_fault(output, line, complaint.word(), slip, writer);
}

/// Puts out the line of the answer to an event `kind`.
fn put_kind<W: Write>(output: &mut Output, came: Result<MountState, Errno>, writer: &mut W)
    ensures { Puts output.old output.new (answer_line (kind_answer came)) (W.contents writer.old)
        (W.contents writer.new) }
{
    let answer = match came {
        Ok(kind) => Answer::Kind { kind },
        Err(errno) => Answer::Refused { errno },
    };
    put_answer(output, &answer, writer);
}

/// Puts out what is told; of a world nothing.
pub(crate) fn put_told<W: Write>(
    output: &mut Output,
    serving: &Serving,
    telling: Telling,
    writer: &mut W,
)
    ensures { Puts output.old output.new (plain_text telling serving.now) (W.contents writer.old)
        (W.contents writer.new) }
{
    match telling {
        Telling::Nothing => put_word(output, b"", writer),
        Telling::Answer => put_answer_in(output, &serving.stand, writer),
        Telling::Asked { question } => put_asked(output, question, &serving.stand, writer),
        Telling::Kind { came } => put_kind(output, came, writer),
        Telling::Fault {
            line,
            complaint,
            slip,
        } => put_complaint(output, line, complaint, slip, writer),
    }
}
