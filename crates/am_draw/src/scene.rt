//! What begins a row: what is said at the sides.

ghost use Rattle.std.specs.Prelude.{◌≡◌, IfOk};
ghost use Rattle.am_script.specs.{is_refused, Puts};
ghost use Rattle.am_views.specs.{event_text};
ghost use Rattle.am_draw.specs.Errors.{answer_words, went_of};
ghost use Rattle.am_draw.specs.Rows.{line_title, row_opening, scene, sides_of};
ghost use Rattle.am_draw.specs.Sides.{sides_said};

use crate::marks::{put_number_label, put_words_label};
use crate::went::{Went, answer_class, push_error, went_of};
use crate::words::put_xml;
use am_script::answer_line::{is_refused, push_answer, put_number, put_word};
use am_script::output::Output;
use am_views::push_event;
use am_world::{Answer, Event};
use std::alloc::{AllocError, Global};
use std::io::Write;

/// What is said of an event: its number, its line, its answer, how it went, and whether it was
/// refused.
#[derive(Drop)]
pub struct Said {
    pub number: u64,
    pub event: Vec<u8>,
    pub answer: Vec<u8>,
    pub went: Went,
    pub refused: bool,
}

/// The text of an event.
fn event_words(alloc: Global, event: &Event) -> Result<Vec<u8>, AllocError>
    ensures { IfOk result (λ text. text.items ≡ event_text event.now) }
{
    let mut text = Vec::new(alloc);
    push_event(&mut text, event)?;
    Ok(text)
}

/// The text of an answer, with the word of its error.
fn answer_words(alloc: Global, answer: &Answer) -> Result<Vec<u8>, AllocError>
    ensures { IfOk result (λ text. text.items ≡ answer_words answer.now) }
{
    let mut text = Vec::new(alloc);
    push_answer(&mut text, answer)?;
    // The line feed stands last.
    text.pop();
    push_error(&mut text, answer)?;
    Ok(text)
}

/// What is said of an event.
pub(crate) fn say(
    alloc: Global,
    number: u64,
    event: &Event,
    answer: &Answer,
) -> Result<Said, AllocError>
    ensures number { IfOk result (λ said. said.number ≡ number) }
    ensures sides { IfOk result (λ said. sides_said said ≡ sides_of number event.now answer.now) }
    ensures refused { IfOk result (λ said. said.refused ≡ is_refused answer.now) }
{
    let text = event_words(alloc, event)?;
    let told = answer_words(alloc, answer)?;
    Ok(Said {
        number,
        event: text,
        answer: told,
        went: went_of(answer),
        refused: is_refused(answer),
    })
}

/// Puts out what begins the row whose top is at y.
#[tactic(auto, using(am_script::proofs::Pieces::puts_two))]
pub(crate) fn put_scene<W: Write>(output: &mut Output, y: u64, said: &Said, writer: &mut W)
    ensures { Puts output.old output.new (scene y (sides_said said.now).words) (W.contents writer.old)
        (W.contents writer.new) }
{
    put_row_opening(output, y, writer);
    put_labels(output, said, writer);
}

#[tactic(auto, using(am_script::proofs::Pieces::puts_two))]
fn put_row_opening<W: Write>(output: &mut Output, y: u64, writer: &mut W)
    ensures { Puts output.old output.new (row_opening y) (W.contents writer.old)
        (W.contents writer.new) }
{
    put_number(output, b"<g transform='translate(0 ", y, writer);
    put_word(output, b")'>\n", writer);
}

#[tactic(auto, using(am_script::proofs::Pieces::puts_three))]
fn put_line_title<W: Write>(output: &mut Output, line: &[u8], writer: &mut W)
    ensures { Puts output.old output.new (line_title line.now) (W.contents writer.old)
        (W.contents writer.new) }
{
    put_word(output, b"<title>", writer);
    put_xml(output, line, writer);
    put_word(output, b"</title>\n", writer);
}

#[tactic(auto, using(am_views::proofs::FourPieces::puts_four))]
fn put_labels<W: Write>(output: &mut Output, said: &Said, writer: &mut W)
    ensures { Puts output.old output.new (sides_said said.now).words (W.contents writer.old)
        (W.contents writer.new) }
{
    put_line_title(output, &said.event, writer);
    put_number_label(output, b"m n", 36, 17, b"", said.number, writer);
    put_words_label(output, b"m", 46, 11, 17, &said.event, writer);
    put_words_label(
        output,
        answer_class(said.went),
        58,
        22,
        17,
        &said.answer,
        writer,
    );
}
