//! For the author of a daemon with threads: a pipe, in one thread.

use am_names::{Attach, Token};
use am_pipe::{Note, PutEnd, TakeEnd, pipe};
use std::sync::Wait;
use std::test::Fail;

/// How many notes go through the pipe.
const NOTES: u32 = 50;

fn note(token: u32) -> Note {
    let [low, ..] = token.to_le_bytes();
    Note {
        token: Token(token),
        attach: Attach(1),
        bytes: [low; 304],
    }
}

/// The note of this token comes, at the position behind it.
fn takes<R: Wait>(rt: &R, taker: &mut TakeEnd, token: u32) -> bool {
    match taker.take(rt) {
        Some((position, found)) => position == u64::from(token) + 1 && found == note(token),
        None => false,
    }
}

/// A pipe that is full gives the note back. One is taken, and then there is room.
fn goes_on<R: Wait>(rt: &R, put: &mut PutEnd, taker: &mut TakeEnd, token: u32) -> bool {
    match put.put(rt, note(token)) {
        Ok(()) => return false,
        Err(back) => {
            if back != note(token) {
                return false;
            }
        }
    }
    takes(rt, taker, token.saturating_sub(2)) && put.put(rt, note(token)).is_ok()
}

/// Notes go in order through a pipe of two places, which is full each time.
fn goes_through<R: Wait>(rt: &R, put: &mut PutEnd, taker: &mut TakeEnd) -> bool {
    for token in 0..NOTES {
        let goes = if token < 2 {
            put.put(rt, note(token)).is_ok()
        } else {
            goes_on(rt, put, taker, token)
        };
        if !goes {
            return false;
        }
    }
    takes(rt, taker, NOTES - 2) && takes(rt, taker, NOTES - 1) && taker.take(rt).is_none()
}

#[test]
fn many_notes_go_through_two_places(rt: HostRuntime) -> Result<(), Fail> {
    let (mut put, mut takers) = pipe(rt.alloc(), 2, 1)?;
    let taker = takers.first_mut().ok_or("a take end")?;
    assert!(rt; goes_through(&rt, &mut put, taker), "in order");
    Ok(())
}

/// What is left of a pipe that is closed is taken, and then there is nothing to wait for.
fn ends<R: Wait>(rt: &R, put: &mut PutEnd, taker: &mut TakeEnd) -> bool {
    let late = match taker.wait(rt) {
        Some((_, found)) => found == note(1),
        None => false,
    };
    late && taker.wait(rt).is_none()
        && put.put(rt, note(2)).is_ok()
        && taker.wait(rt).is_some()
        && taker.wait(rt).is_none()
}

#[test]
fn a_closed_pipe_is_emptied(rt: HostRuntime) -> Result<(), Fail> {
    let (mut put, mut takers) = pipe(rt.alloc(), 2, 1)?;
    let taker = takers.first_mut().ok_or("a take end")?;
    let closer = put.closer()?;
    assert!(rt; put.put(&rt, note(1)).is_ok());
    closer.close(&rt);
    assert!(rt; ends(&rt, &mut put, taker), "until nothing is left");
    Ok(())
}
