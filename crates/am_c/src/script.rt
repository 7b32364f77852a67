//! Scripts: their answers, traces, pictures and worlds.

ghost use Rattle.std.specs.Prelude.{◌≡◌, ℕ, List, length, Some};
ghost use Rattle.am_draw.specs.{DrawsInput, StopsDrawing};
ghost use Rattle.am_mountinfo.specs.{ShowsInput, StopsShowing};
ghost use Rattle.am_script.specs.{PlaysInput, StopsInput, answers_alone};
ghost use Rattle.am_views.specs.{traced};
ghost use Rattle.am_views.specs.declared.trace.TraceStyle.TheVariants.{WithNumbers};
ghost use Rattle.am_c.specs.Buffer.{with_front};
ghost use Rattle.am_c.specs.Scripts.{AreWordsOf, Fills, IsPlaced, IsTold, detail_number, fault_number, namespace_where, played_of};

use crate::buffer::put_front;
use crate::place::{column_of, expected_of};
use am_diagnosis::{Expected, Slip};
use am_draw::draw_script;
use am_mountinfo::world_script;
use am_names::NsId;
use am_script::{ScriptFault, ScriptFaultKind, Summary, run_script};
use am_session::slip_of;
use am_views::{TraceStyle, trace_script};
use std::alloc::Global;

/// How a script went.
#[repr(C)]
#[derive(Clone, Copy)]
pub struct AmPlayed {
    /// How many bytes were written, also where there is less room.
    pub bytes: u64,
    /// How many events were answered, where the script has no fault; else 0.
    pub lines: u64,
    /// How many of these answers say that nothing was done.
    pub refused: u64,
    /// The line of the fault, from 1; 0 where there is none.
    pub line: u64,
    /// The byte of that line at which it isn't as expected, from 1; else 0.
    pub column: u64,
    /// The number of the fault; 0 where there is none.
    pub fault: u32,
    /// What is wrong with the line of a map or of a master map, where that is the fault; else 0.
    pub detail: u32,
    /// The number of what was expected at that byte; else 0.
    pub expected: u32,
}

/// Plays a script, and puts the lines of its answers at the front of `out`. 0, or the number of its
/// fault; the answers to all lines above the fault are written.
#[unsafe(no_mangle)]
pub extern "C" fn am_play(alloc: Global, script: &[u8], out: &mut [u8], played: &mut AmPlayed) -> u8
    ensures { Fills (PlaysInput answers_alone) (StopsInput answers_alone) script.now out.old
        out.new played.new result }
{
    let mut reader = script;
    let mut writer = Vec::new(alloc);
    let went = run_script(alloc, &mut reader, &mut writer);
    *played = tell(alloc, script, &writer, went, out);
    drop(writer);
    fault_number(went)
}

/// So for the trace of a script.
#[unsafe(no_mangle)]
pub extern "C" fn am_trace(
    alloc: Global,
    script: &[u8],
    out: &mut [u8],
    played: &mut AmPlayed,
) -> u8
    ensures { Fills (PlaysInput (traced WithNumbers)) (StopsInput (traced WithNumbers)) script.now
        out.old out.new played.new result }
{
    let mut reader = script;
    let mut writer = Vec::new(alloc);
    let went = trace_script(alloc, TraceStyle::WithNumbers, &mut reader, &mut writer);
    *played = tell(alloc, script, &writer, went, out);
    drop(writer);
    fault_number(went)
}

/// So for the picture of a script's events from one number to another; numbers begin with 1.
#[unsafe(no_mangle)]
pub extern "C" fn am_draw(
    alloc: Global,
    script: &[u8],
    first: u64,
    last: u64,
    out: &mut [u8],
    played: &mut AmPlayed,
) -> u8
    ensures { Fills (DrawsInput first last) (StopsDrawing first last) script.now out.old out.new
        played.new result }
{
    let mut reader = script;
    let mut writer = Vec::new(alloc);
    let went = draw_script(alloc, &mut reader, &mut writer, first, last);
    *played = tell(alloc, script, &writer, went, out);
    drop(writer);
    fault_number(went)
}

/// So for the world that a script leaves; where it isn't of all namespaces, only for the mounts of
/// one.
#[unsafe(no_mangle)]
pub extern "C" fn am_world(
    alloc: Global,
    script: &[u8],
    all: bool,
    namespace: u32,
    out: &mut [u8],
    played: &mut AmPlayed,
) -> u8
    ensures { Fills (ShowsInput (namespace_where all namespace))
        (StopsShowing (namespace_where all namespace)) script.now out.old out.new played.new result }
{
    let mut reader = script;
    let mut writer = Vec::new(alloc);
    let only = namespace_where(all, namespace);
    let went = world_script(alloc, &mut reader, &mut writer, only);
    *played = tell(alloc, script, &writer, went, out);
    drop(writer);
    fault_number(went)
}

/// The namespace that is asked for alone, if there is one.
pub(crate) fn namespace_where(all: bool, namespace: u32) -> Option<NsId>
    ensures { result ≡ namespace_where all namespace }
{
    if all { None } else { Some(NsId(namespace)) }
}

/// Puts what was written at the front of a buffer, and tells how the text went.
pub(crate) fn tell(
    alloc: Global,
    text: &[u8],
    written: &Vec<u8>,
    went: Result<Summary, ScriptFault>,
    out: &mut [u8],
) -> AmPlayed
    ensures buffer { out.new ≡ with_front written.now.items out.old }
    ensures told { IsTold text.now (length written.now.items) went result }
{
    put_front(written, out);
    tell_of(alloc, text, written.len() as u64, went)
}

/// How a text went of which so many bytes were written.
pub(crate) fn tell_of(
    alloc: Global,
    text: &[u8],
    bytes: u64,
    went: Result<Summary, ScriptFault>,
) -> AmPlayed
    ensures { IsTold text.now bytes went result }
{
    played_of(bytes, went, placed(alloc, text, went))
}

/// Where the line of the fault isn't as expected, if there is a fault.
fn placed(alloc: Global, text: &[u8], went: Result<Summary, ScriptFault>) -> Option<Slip>
    ensures { IsPlaced text.now went result }
{
    match went {
        Ok(_summary) => None,
        Err(fault) => slip_of(alloc, text, fault),
    }
}

fn played_of(bytes: u64, went: Result<Summary, ScriptFault>, slip: Option<Slip>) -> AmPlayed
    ensures { result ≡ played_of bytes went slip }
{
    match went {
        Ok(summary) => AmPlayed {
            bytes,
            lines: summary.lines,
            refused: summary.refused,
            line: 0,
            column: 0,
            fault: 0,
            detail: 0,
            expected: 0,
        },
        Err(fault) => AmPlayed {
            bytes,
            lines: 0,
            refused: 0,
            line: fault.line,
            column: column_of(slip),
            fault: u32::from(fault.kind.number()),
            detail: u32::from(detail_number(fault.kind)),
            expected: expected_of(slip),
        },
    }
}

pub(crate) fn fault_number(went: Result<Summary, ScriptFault>) -> u8
    ensures { result ≡ fault_number went }
{
    match went {
        Ok(_summary) => 0,
        Err(fault) => fault.kind.number(),
    }
}

fn detail_number(kind: ScriptFaultKind) -> u8
    ensures { result ≡ detail_number kind }
{
    match kind {
        ScriptFaultKind::BadMaster { kind } => kind.number(),
        ScriptFaultKind::BadMap { kind } => kind.number(),
        _ => 0,
    }
}

/// What the number of an expectation stands for, in words, as far as there is room. Returns how many
/// bytes they have, 0 where no expectation has this number.
#[unsafe(no_mangle)]
pub extern "C" fn am_expected_words(number: u32, out: &mut [u8]) -> usize
    ensures { (words : List ℕ) × AreWordsOf number words × (out.new ≡ with_front words out.old)
        × (result ≡ length words) }
{
    let words = expected_words(number);
    put_front(words, out);
    words.len()
}

fn expected_words(number: u32) -> &'static [u8]
    ensures { AreWordsOf number result.now }
{
    match Expected::numbered(number) {
        Some(expected) => expected.words().as_bytes(),
        None => b"",
    }
}
