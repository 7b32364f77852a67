//! Whether a trace is lawful, and which law it breaks.

ghost use Rattle.std.specs.Prelude.{◌≡◌, ◌≢◌, ℕ, List, length, IfNone, IfSome};
ghost use Rattle.am_laws.specs.{law_number};
ghost use Rattle.am_laws.specs.declared.law.Law.{Law};
ghost use Rattle.am_c.specs.Buffer.{with_front};
ghost use Rattle.am_c.specs.Traces.{IsSentenceOf, Judges, expected_number, fault_number, judged_as, unread_as};

use crate::buffer::put_front;
use am_laws::Law;
use am_traces::{Expected, TraceFault, Verdict, judge};
use std::alloc::Global;

/// What is found of a text that is to be a trace.
#[repr(C)]
#[derive(Clone, Copy)]
pub struct AmJudged {
    /// The line of the fault, or else of the first observation that breaks a law, from 1; 0 where
    /// there is neither, or where it is out of memory.
    pub line: u64,
    /// The byte of the line at which it doesn't go on as expected, from 1; else 0.
    pub column: u64,
    /// The number of what was expected there; else 0.
    pub expected: u32,
    /// 1 where the text is a trace that is lawful, else 0.
    pub lawful: u32,
    /// The number of the law that is broken first; else 0.
    pub law: u32,
}

/// Reads a trace, and tells whether it is lawful, and else where it breaks a law, and which. 0 where the text is a trace; else the number of
/// its fault.
#[unsafe(no_mangle)]
pub extern "C" fn am_trace_holds(alloc: Global, text: &[u8], judged: &mut AmJudged) -> u8
    ensures { Judges text.now judged.new result }
{
    match judge(alloc, text) {
        Ok(verdict) => {
            *judged = judged_as(verdict);
            0
        }
        Err(fault) => {
            *judged = unread_as(fault);
            fault_number(fault)
        }
    }
}

fn judged_as(verdict: Verdict) -> AmJudged
    ensures { result ≡ judged_as verdict }
{
    match verdict {
        Verdict::Lawful => AmJudged {
            line: 0,
            column: 0,
            expected: 0,
            lawful: 1,
            law: 0,
        },
        Verdict::Broken { line, law } => AmJudged {
            line: line as u64,
            column: 0,
            expected: 0,
            lawful: 0,
            law: u32::from(law.number()),
        },
    }
}

fn unread_as(fault: TraceFault) -> AmJudged
    ensures { result ≡ unread_as fault }
{
    match fault {
        TraceFault::BadLine {
            line,
            column,
            expected,
        } => AmJudged {
            line: line as u64,
            column: column as u64,
            expected: u32::from(expected_number(expected)),
            lawful: 0,
            law: 0,
        },
        TraceFault::NoMemory => AmJudged {
            line: 0,
            column: 0,
            expected: 0,
            lawful: 0,
            law: 0,
        },
    }
}

fn fault_number(fault: TraceFault) -> u8
    ensures { result ≡ fault_number fault }
{
    match fault {
        TraceFault::BadLine { .. } => 1,
        TraceFault::NoMemory => 2,
    }
}

fn expected_number(expected: Expected) -> u8
    ensures { result ≡ expected_number expected }
{
    match expected {
        Expected::Observation => 1,
        Expected::Number => 2,
        Expected::Token => 3,
        Expected::Attach => 4,
        Expected::Fs => 5,
        Expected::Mount => 6,
        Expected::Status => 7,
        Expected::PacketType => 8,
        Expected::PacketNumber => 9,
        Expected::PacketName => 10,
        Expected::Key => 11,
        Expected::Entry => 12,
        Expected::End => 13,
    }
}

/// What the law of a number asks, in a sentence, as far as there is room. Returns how many bytes it
/// has, 0 where no law has this number.
#[unsafe(no_mangle)]
pub extern "C" fn am_law_sentence(number: u32, out: &mut [u8]) -> usize
    ensures { (sentence : List ℕ) × IsSentenceOf number sentence
        × (out.new ≡ with_front sentence out.old) × (result ≡ length sentence) }
{
    let sentence = sentence_of(number);
    put_front(sentence, out);
    sentence.len()
}

fn sentence_of(number: u32) -> &'static [u8]
    ensures { IsSentenceOf number result.now }
{
    match law_numbered(number) {
        Some(law) => law.sentence().as_bytes(),
        None => b"",
    }
}

fn law_numbered(number: u32) -> Option<Law>
    ensures some { IfSome result (λ law. law_number law ≡ number) }
    ensures none { IfNone result ((law : Law) → law_number law ≢ number) }
{
    match number {
        1 => Some(Law::QueuedOnce),
        2 => Some(Law::WaitsOnOpen),
        3 => Some(Law::DeliveredFromQueue),
        4 => Some(Law::DeliveredOnce),
        5 => Some(Law::AnsweredWhileOpen),
        6 => Some(Law::AnsweredAfterDelivery),
        7 => Some(Law::AnswerReleasesAll),
        8 => Some(Law::CatatonicReleasesAll),
        9 => Some(Law::ReleasedByCause),
        10 => Some(Law::PassesNoExpiry),
        11 => Some(Law::UnmountsUnused),
        _ => None,
    }
}
