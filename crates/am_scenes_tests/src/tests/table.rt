//! Tables that are played row by row, and scenes that are read.

use am_names::Errno;
use am_scenes::{SceneFault, SceneFaultKind, Told, read_scene};
use am_script::ScriptFaultKind;
use am_script::visit::Input;
use std::alloc::{AllocError, Global};
use std::process::Abort;

/// A row of a table: what goes in, and what is expected out.
pub trait Row {
    /// Whether what is expected comes out. The one error is that memory has run out.
    fn holds(&self, alloc: Global) -> Result<bool, Errno>;
}

/// Plays a row, and once more where no memory was found.
fn holds<R: Row>(row: &R, alloc: Global) -> bool {
    match row.holds(alloc) {
        Err(Errno::NoMemory) => row.holds(alloc) == Ok(true),
        held => held == Ok(true),
    }
}

/// Each row of the table of this name holds.
pub fn hold<R: Row>(rt: &impl Abort, alloc: Global, name: &str, rows: &[R]) {
    let mut number = 0_usize;
    for row in rows {
        number = number.saturating_add(1);
        let holds = holds(row, alloc);
        assert!(rt; holds, "{name}: row {number}");
    }
}

/// Eight lines: an autofs at /auto, with the key ada.
pub const HEAD: &[u8] =
    b"master\n/auto auto.home\nend\nmap auto.home\nada srv:/home/ada\nend\nevents\nattach /auto\n";

/// The most bytes of a scene of these tests.
const MOST: usize = 1_000_000;

/// A head and a text behind it, as they are read; where reading broke off, with why.
fn input_of(
    alloc: Global,
    head: &[u8],
    text: &[u8],
    broke: Option<ScriptFaultKind>,
) -> Result<Input, AllocError> {
    let mut whole = Vec::new(alloc);
    whole.extend_from_slice(head)?;
    whole.extend_from_slice(text)?;
    Ok(Input { text: whole, broke })
}

fn read_input(alloc: Global, input: &Input) -> Result<Result<Told, SceneFault>, Errno> {
    if input.text.len() > MOST {
        return Err(Errno::EINVAL);
    }
    match read_scene(alloc, input) {
        Err(fault) if fault.kind == SceneFaultKind::NoMemory => Err(Errno::NoMemory),
        read => Ok(read),
    }
}

/// What a text behind this head is read as, or its fault, or memory has run out.
pub fn read(
    alloc: Global,
    head: &[u8],
    text: &[u8],
    broke: Option<ScriptFaultKind>,
) -> Result<Result<Told, SceneFault>, Errno> {
    let input = input_of(alloc, head, text, broke)?;
    let read = read_input(alloc, &input);
    drop(input);
    read
}

/// The fault of a text of at most `MOST` bytes, if it has one.
fn fault_in(alloc: Global, input: &Input) -> Option<SceneFault> {
    if input.text.len() > MOST {
        return None;
    }
    match read_scene(alloc, input) {
        Ok(told) => {
            drop(told);
            None
        }
        Err(fault) => Some(fault),
    }
}

/// The fault of a text behind `HEAD`, behind which reading broke off for want of memory.
pub fn fault_without_memory(alloc: Global, text: &[u8]) -> Result<Option<SceneFault>, AllocError> {
    let input = input_of(alloc, HEAD, text, Some(ScriptFaultKind::NoMemory))?;
    let fault = fault_in(alloc, &input);
    drop(input);
    Ok(fault)
}

/// The fault of a text behind this head, if it has one.
pub fn fault_of(
    alloc: Global,
    head: &[u8],
    text: &[u8],
    broke: Option<ScriptFaultKind>,
) -> Result<Option<SceneFault>, Errno> {
    match read(alloc, head, text, broke)? {
        Ok(_) => Ok(None),
        Err(fault) => Ok(Some(fault)),
    }
}

/// The scene that a good text behind `HEAD` is read as.
pub fn good(alloc: Global, text: &[u8]) -> Result<Told, Errno> {
    match read(alloc, HEAD, text, None)? {
        Ok(told) => Ok(told),
        Err(_) => Err(Errno::EINVAL),
    }
}
