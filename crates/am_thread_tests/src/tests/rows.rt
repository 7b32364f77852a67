//! A pipe in one thread, call by call.

use crate::tests::ends::{Ends, ends_of, is_note, left_in, note};
use std::process::Abort;
use std::sync::Wait;
use std::test::*;

/// A call, and what it answers. A note is told by its token.
#[derive(Clone, Copy)]
enum Call {
    Put(u32),
    /// The pipe is full, and the note comes back.
    Full(u32),
    /// The position that is taken, and the note.
    Take(u64, u32),
    /// There is nothing to take.
    Nothing,
}

static ONE_PLACE: [Call; 7] = [
    Call::Put(10),
    Call::Full(20),
    Call::Take(1, 10),
    Call::Nothing,
    Call::Put(20),
    Call::Take(2, 20),
    Call::Put(30),
];

fn puts<R: Wait>(rt: &R, ends: &mut Ends, token: u32) -> bool {
    ends.put(rt, token).is_ok()
}

fn gets_back<R: Wait>(rt: &R, ends: &mut Ends, token: u32) -> bool {
    match ends.put(rt, token) {
        Ok(()) => false,
        Err(back) => back == note(token),
    }
}

fn takes<R: Wait>(rt: &R, ends: &mut Ends, position: u64, token: u32) -> bool {
    match ends.take(rt) {
        Some(found) => is_note(&found, position, token),
        None => false,
    }
}

fn makes<R: Wait>(rt: &R, ends: &mut Ends, call: Call) -> bool {
    match call {
        Call::Put(token) => puts(rt, ends, token),
        Call::Full(token) => gets_back(rt, ends, token),
        Call::Take(position, token) => takes(rt, ends, position, token),
        Call::Nothing => ends.take(rt).is_none(),
    }
}

fn plays<R: Wait + Abort>(rt: &R, ends: &mut Ends, calls: &[Call]) {
    for call in calls {
        assert!(rt; makes(rt, ends, *call), "a call");
    }
}

#[test]
fn one_place(rt: HostRuntime) -> Result<(), Fail> {
    let mut ends = ends_of(rt.alloc(), 1, 1)?;
    plays(&rt, &mut ends, &ONE_PLACE);
    let left = left_in(&rt, rt.alloc(), ends)?;
    assert_eq!(rt; left.len(), 1);
    assert!(rt; is_note(&left[0], 3, 30), "what is left");
    Ok(())
}
