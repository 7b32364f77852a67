//! Rows side by side, call by call.

use am_ordered::Rows;
use std::alloc::{AllocError, Global};

/// One call, with what it answers.
enum Call {
    Push(u32),
    Append(&'static [u32]),
    Insert(usize, u32),
    Set(usize, u32),
    Pop(Option<u32>),
    TakeOut(usize),
    TakeRange(usize, usize),
    KeepEven,
    /// They go on as a copy of themselves.
    Copy,
}

fn append(alloc: Global, rows: &mut Rows<u32>, more: &[u32]) -> Result<bool, AllocError> {
    let more = Vec::from_slice(alloc, more)?;
    rows.reserve(more.len())?;
    rows.append_reserved(more);
    Ok(true)
}

fn insert(rows: &mut Rows<u32>, at: usize, row: u32) -> Result<bool, AllocError> {
    if at > rows.len() {
        return Ok(false);
    }
    rows.reserve(1)?;
    rows.insert_reserved(at, row);
    Ok(true)
}

fn set(rows: &mut Rows<u32>, at: usize, row: u32) -> bool {
    if at >= rows.len() {
        return false;
    }
    rows.set(at, row);
    true
}

fn take_out(rows: &mut Rows<u32>, at: usize) -> bool {
    if at >= rows.len() {
        return false;
    }
    rows.take_out(at);
    true
}

fn take_range(rows: &mut Rows<u32>, at: usize, count: usize) -> bool {
    if at > rows.len() || count > rows.len() - at {
        return false;
    }
    rows.take_range(at, count);
    true
}

fn go_on_as_copy(alloc: Global, rows: &mut Rows<u32>) -> Result<bool, AllocError> {
    let copy = rows.copy(alloc)?;
    *rows = copy;
    Ok(true)
}

fn answers(alloc: Global, rows: &mut Rows<u32>, call: &Call) -> Result<bool, AllocError> {
    match call {
        Call::Push(row) => {
            rows.reserve(1)?;
            rows.push_reserved(*row);
            Ok(true)
        }
        Call::Append(more) => append(alloc, rows, more),
        Call::Insert(at, row) => insert(rows, *at, *row),
        Call::Set(at, row) => Ok(set(rows, *at, *row)),
        Call::Pop(row) => Ok(rows.pop() == *row),
        Call::TakeOut(at) => Ok(take_out(rows, *at)),
        Call::TakeRange(at, count) => Ok(take_range(rows, *at, *count)),
        Call::Copy => go_on_as_copy(alloc, rows),
        Call::KeepEven => {
            rows.retain(|row| *row % 2 == 0);
            Ok(true)
        }
    }
}

fn are(rows: &Rows<u32>, left: &[u32]) -> bool {
    rows.as_slice() == left
}

/// The first rows go one after another, then others near to both ends, and then some in one piece.
static CALLS: [(Call, &[u32]); 36] = [
    (Call::Copy, &[]),
    (Call::Push(1), &[1]),
    (Call::Append(&[2, 3, 4, 5, 6]), &[1, 2, 3, 4, 5, 6]),
    (Call::TakeOut(0), &[2, 3, 4, 5, 6]),
    (Call::TakeOut(0), &[3, 4, 5, 6]),
    (Call::Copy, &[3, 4, 5, 6]),
    (Call::TakeOut(1), &[3, 5, 6]),
    (Call::Insert(0, 7), &[7, 3, 5, 6]),
    (Call::Insert(4, 8), &[7, 3, 5, 6, 8]),
    (Call::Insert(2, 9), &[7, 3, 9, 5, 6, 8]),
    (Call::TakeOut(4), &[7, 3, 9, 5, 8]),
    (Call::Set(0, 10), &[10, 3, 9, 5, 8]),
    (Call::Set(4, 11), &[10, 3, 9, 5, 11]),
    (Call::Pop(Some(11)), &[10, 3, 9, 5]),
    (Call::TakeOut(0), &[3, 9, 5]),
    (Call::Append(&[]), &[3, 9, 5]),
    (Call::Append(&[12, 14]), &[3, 9, 5, 12, 14]),
    (Call::KeepEven, &[12, 14]),
    (Call::Pop(Some(14)), &[12]),
    (Call::TakeOut(0), &[]),
    (Call::Pop(None), &[]),
    (Call::KeepEven, &[]),
    (Call::Push(15), &[15]),
    (
        Call::Append(&[16, 17, 18, 19, 20, 21, 22, 23, 24]),
        &[15, 16, 17, 18, 19, 20, 21, 22, 23, 24],
    ),
    (Call::TakeRange(1, 2), &[15, 18, 19, 20, 21, 22, 23, 24]),
    (Call::TakeRange(0, 1), &[18, 19, 20, 21, 22, 23, 24]),
    (Call::Copy, &[18, 19, 20, 21, 22, 23, 24]),
    (Call::TakeRange(4, 2), &[18, 19, 20, 21, 24]),
    (Call::TakeRange(2, 0), &[18, 19, 20, 21, 24]),
    (Call::TakeRange(5, 0), &[18, 19, 20, 21, 24]),
    (Call::TakeRange(3, 2), &[18, 19, 20]),
    (Call::Append(&[25, 26]), &[18, 19, 20, 25, 26]),
    (Call::TakeRange(1, 2), &[18, 25, 26]),
    (Call::TakeRange(0, 3), &[]),
    (Call::TakeRange(0, 0), &[]),
    (Call::Push(27), &[27]),
];

fn all_answer(alloc: Global, rows: &mut Rows<u32>) -> Result<bool, AllocError> {
    for (call, left) in CALLS.iter() {
        if !answers(alloc, rows, call)? || !are(rows, left) {
            return Ok(false);
        }
    }
    Ok(true)
}

fn plays(alloc: Global) -> Result<bool, AllocError> {
    let mut rows = Rows::new(alloc);
    let all_answer = all_answer(alloc, &mut rows);
    drop(rows);
    all_answer
}

#[test]
fn rows_stay_side_by_side(rt: HostRuntime) {
    let played = plays(rt.alloc());
    assert!(rt; matches!(played, Ok(true)));
}
