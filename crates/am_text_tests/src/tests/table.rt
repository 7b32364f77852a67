//! Tables that are played row by row.

use am_names::Errno;
use std::alloc::{AllocError, Global};
use std::process::Abort;

/// A row of a table: what goes in, and what is expected out.
pub trait Row {
    /// Whether what is expected comes out. The one error is that memory has run out.
    fn holds(&self, alloc: Global) -> Result<bool, Errno>;
}

/// Plays a row, and once more where no memory was found.
fn holds<R: Row>(row: &R, alloc: Global) -> bool {
    match row.holds(alloc) {
        Err(Errno::NoMemory) => row.holds(alloc) == Ok(true),
        held => held == Ok(true),
    }
}

/// Each row of the table of this name holds.
pub fn hold<R: Row>(rt: &impl Abort, alloc: Global, name: &str, rows: &[R]) {
    let mut number = 0_usize;
    for row in rows {
        number = number.saturating_add(1);
        let holds = holds(row, alloc);
        assert!(rt; holds, "{name}: row {number}");
    }
}

/// Texts, one behind the other.
pub fn joined(alloc: Global, texts: [&[u8]; 3]) -> Result<Vec<u8>, AllocError> {
    let mut whole = Vec::new(alloc);
    for text in texts {
        whole.extend_from_slice(text)?;
    }
    Ok(whole)
}

/// A text, so many letters `x`, and a text.
pub fn stretched(
    alloc: Global,
    before: &[u8],
    count: usize,
    behind: &[u8],
) -> Result<Vec<u8>, AllocError> {
    let mut whole = Vec::new(alloc);
    whole.extend_from_slice(before)?;
    for _ in 0..count {
        whole.push(b'x')?;
    }
    whole.extend_from_slice(behind)?;
    Ok(whole)
}

/// Adds the digits of a number at these decimal places.
pub fn push_digits(text: &mut Vec<u8>, number: u32, places: &[u32]) -> Result<(), AllocError> {
    for place in places {
        let digit = (number.checked_div(*place).unwrap_or(0) % 10) as u8;
        text.push(b'0' + digit)?;
    }
    Ok(())
}
