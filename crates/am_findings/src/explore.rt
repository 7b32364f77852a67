//! A scene is read, explored and answered.

ghost use Rattle.std.specs.Prelude.{◌≡◌, IfOk, IfErr, OnOk};
ghost use Rattle.am_explore.specs.{IsLed};
ghost use Rattle.am_findings.specs.Explored.{Answers, ExploresInput, IsAnswered, IsCountAdded, IsMissed, IsNotWritten, IsPart, IsSearched, IsWritten, StopsExploring, WereAnswered, choices_left, first_of, nobody_asks, start_of, unseen};

use crate::finding::{push_count, push_finding};
use crate::verdict::{Verdict, verdict_on};
use am_explore::{
    Begun, Choice, Found, Led, Question, Scene, Seen, Tally, Watch, begin, choices, explore_from,
    lead,
};
use am_scenes::{Asked, SceneFault, Told, read_scene};
use am_script::output::write_bytes;
use am_script::visit::read_all;
use std::alloc::{AllocError, Global};
use std::io::{Read, Write};
use thiserror::Error;

/// Why no findings are written, or not all of them.
#[derive(Clone, Copy, Debug, PartialEq, Error)]
pub enum ExploreFault {
    /// The text is no scene, or it wasn't read to its end.
    #[error("{fault}")]
    Scene { fault: SceneFault },
    /// Where the numbers before it lead, there are fewer choices than the number at this place of the prefix, from 1.
    #[error("prefix {place}: NoSuchChoice")]
    NoSuchChoice { place: usize },
    /// Out of memory for the search, or for what is written.
    #[error("NoMemory")]
    NoMemory,
    /// The writer didn't take all.
    #[error("WriteFailed")]
    WriteFailed,
}

/// Those orders of a scene that are searched.
#[derive(Drop)]
pub enum Part {
    /// Those that begin with these choices, which lead here.
    Behind { first: Vec<Choice>, begun: Begun },
    /// None: what would come first is no step.
    Nothing,
}

/// What was found of a scene, and how its questions come out.
#[derive(Drop)]
struct Findings {
    verdict: Verdict,
    text: Vec<u8>,
}

impl Part {
    /// The choices that come first.
    fn first(&self) -> &[Choice]
        ensures { result.now ≡ first_of self.now }
    {
        match self {
            Part::Behind { first, begun: _ } => first.as_slice(),
            Part::Nothing => &[],
        }
    }

    /// How many choices there are where these lead.
    fn choices_left(&self, alloc: Global, told: &Told) -> Result<usize, AllocError>
        ensures { IfOk result (λ count. count ≡ choices_left told.now self.now) }
    {
        match self {
            Part::Behind { first: _, begun } => Ok(choices(alloc, &told.scene, begun)?.len()),
            Part::Nothing => Ok(0),
        }
    }

    /// Explores them for a question.
    fn search<P: Watch>(
        &self,
        alloc: Global,
        told: &Told,
        question: &Question,
        most: u64,
        watch: &mut P,
    ) -> Result<Seen, AllocError>
        ensures { IfOk result (Answers told.now self.now most question.now) }
    {
        match self {
            Part::Behind { first: _, begun } => {
                explore_from(alloc, &told.scene, begun, question, most, watch)
            }
            Part::Nothing => Ok(unseen()),
        }
    }
}

/// What is seen where there is no order.
fn unseen() -> Seen
    ensures { result ≡ unseen }
{
    Seen {
        found: Found::Never,
        tally: Tally {
            orders: 0,
            states: 0,
            ends: 0,
            steps: 0,
            worlds: 0,
        },
    }
}

/// Where the choices of these numbers lead from where the scene begins.
fn led_by(alloc: Global, told: &Told, prefix: &[u32]) -> Result<Led, AllocError>
    ensures { IfOk result (IsLed told.now.scene (start_of told.now) prefix.now) }
{
    let start = begin(alloc, &told.world, &told.scene)?;
    lead(alloc, &told.scene, &start, prefix)
}

/// The orders that begin with the choices of these numbers.
fn part_behind(alloc: Global, told: &Told, prefix: &[u32]) -> Result<Part, ExploreFault>
    ensures part { IfOk result (IsPart told.now prefix.now) }
    ensures missed { IfErr result (IsMissed told.now prefix.now) }
{
    match led_by(alloc, told, prefix) {
        Ok(
            Led::Here {
                begun,
                choices,
                answers: _,
            },
        ) => Ok(Part::Behind {
            first: choices,
            begun,
        }),
        Ok(Led::NoStep) => Ok(Part::Nothing),
        Ok(Led::NoChoice { at }) => Err(ExploreFault::NoSuchChoice { place: at + 1 }),
        Err(_) => Err(ExploreFault::NoMemory),
    }
}

/// A question that no end meets: of a thread that there isn't.
fn nobody_asks(scene: &Scene) -> Question
    ensures { result ≡ nobody_asks scene.now }
{
    Question::Waiting {
        thread: scene.threads.len(),
    }
}

/// Explores these orders for a question, and adds what was found.
fn answer_one<P: Watch>(
    alloc: Global,
    told: &Told,
    part: &Part,
    asked: &Asked,
    most: u64,
    text: &mut Vec<u8>,
    watch: &mut P,
) -> Result<Verdict, AllocError>
    ensures { IfOk result (IsAnswered told.now part.now most asked.now text.old.items text.new.items) }
{
    let seen = part.search(alloc, told, &asked.question, most, watch)?;
    push_finding(text, asked, part.first(), &seen.found)?;
    Ok(verdict_on(asked.claim, &seen.found))
}

/// Does so for all questions of the scene, in their order.
fn answer_all<P: Watch>(
    alloc: Global,
    told: &Told,
    part: &Part,
    questions: &[Asked],
    most: u64,
    text: &mut Vec<u8>,
    watch: &mut P,
) -> Result<Verdict, AllocError>
    ensures { IfOk result (WereAnswered told.now part.now most questions.now text.old.items
        text.new.items) }
{
    let mut verdict = Verdict::AsAsked;
    for asked in questions {
        let one = answer_one(alloc, told, part, asked, most, text, watch)?;
        verdict = verdict.joined(one);
    }
    Ok(verdict)
}

/// Adds what a search of all these orders has met.
fn count_all<P: Watch>(
    alloc: Global,
    told: &Told,
    part: &Part,
    most: u64,
    text: &mut Vec<u8>,
    watch: &mut P,
) -> Result<(), AllocError>
    ensures { OnOk result (IsCountAdded told.now part.now most text.old.items text.new.items) }
{
    let question = nobody_asks(&told.scene);
    let seen = part.search(alloc, told, &question, most, watch)?;
    let left = part.choices_left(alloc, told)?;
    push_count(text, left, &seen)
}

/// All that is found of these orders.
fn find_all<P: Watch>(
    alloc: Global,
    told: &Told,
    part: &Part,
    most: u64,
    watch: &mut P,
) -> Result<Findings, AllocError>
    ensures { IfOk result (λ findings. IsSearched told.now part.now most findings.verdict
        findings.text.items) }
{
    let mut text = Vec::new(alloc);
    let questions = told.asked.as_slice();
    let verdict = answer_all(alloc, told, part, questions, most, &mut text, watch)?;
    count_all(alloc, told, part, most, &mut text, watch)?;
    Ok(Findings { verdict, text })
}

/// Writes all that is found of the orders that begin with the choices of these numbers.
fn tell<W: Write, P: Watch>(
    alloc: Global,
    told: &Told,
    most: u64,
    prefix: &[u32],
    writer: &mut W,
    watch: &mut P,
) -> Result<Verdict, ExploreFault>
    ensures ok { IfOk result (IsWritten told.now prefix.now most (W.contents writer.old)
        (W.contents writer.new)) }
    ensures err { IfErr result (IsNotWritten told.now prefix.now most (W.contents writer.old)
        (W.contents writer.new)) }
{
    let part = match part_behind(alloc, told, prefix) {
        Ok(part) => part,
        Err(fault) => return Err(fault),
    };
    let Ok(findings) = find_all(alloc, told, &part, most, watch) else {
        return Err(ExploreFault::NoMemory);
    };
    if write_bytes(writer, findings.text.as_slice()) < findings.text.len() {
        return Err(ExploreFault::WriteFailed);
    }
    Ok(findings.verdict)
}

/// Reads a scene to its end, explores those of its orders that begin with the choices of these numbers, from 1, for
/// each of its questions, in their order, over no more than so many states each, and writes what was found: an order as
/// the lines of its events, the first ones among them. Where the text is no scene, there is no such choice, or memory
/// runs out, nothing is written, and where the writer fails a beginning. Who watches is told how far each search is.
pub fn explore_scene<R: Read, W: Write, P: Watch>(
    alloc: Global,
    most: u64,
    prefix: &[u32],
    reader: &mut R,
    writer: &mut W,
    watch: &mut P,
) -> Result<Verdict, ExploreFault>
    ensures ok { IfOk result (ExploresInput most prefix.now (R.remaining reader.old)
        (R.remaining reader.new) (W.contents writer.old) (W.contents writer.new)) }
    ensures err { IfErr result (StopsExploring most prefix.now (R.remaining reader.old)
        (R.remaining reader.new) (W.contents writer.old) (W.contents writer.new)) }
{
    let input = read_all(alloc, reader);
    match read_scene(alloc, &input) {
        Ok(told) => tell(alloc, &told, most, prefix, writer, watch),
        Err(fault) => Err(ExploreFault::Scene { fault }),
    }
}
