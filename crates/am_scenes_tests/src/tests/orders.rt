//! What every order of a scene comes to, as its questions ask.

use crate::tests::table::{Row, good, hold};
use am_explore::{Found, Unwatched, explore};
use am_names::Errno;
use am_scenes::{Asked, Claim, Told};
use std::alloc::Global;

/// The most states that are looked at.
const MOST: u64 = 100_000;

/// A text behind the eight lines of `HEAD`, each question of which comes out as asked.
struct Text(&'static [u8]);

/// Whether a question comes out as asked.
fn is_as_asked(alloc: Global, told: &Told, asked: &Asked) -> Result<bool, Errno> {
    let mut watch = Unwatched;
    let seen = explore(
        alloc,
        &told.world,
        &told.scene,
        &asked.question,
        MOST,
        &mut watch,
    )?;
    let as_asked = match (&seen.found, asked.claim) {
        (Found::Order { .. }, Claim::Sometimes) => true,
        (Found::Never, Claim::Never) => true,
        _ => false,
    };
    drop(seen);
    Ok(as_asked)
}

fn are_as_asked(alloc: Global, told: &Told) -> Result<bool, Errno> {
    for asked in told.asked.as_slice() {
        if !is_as_asked(alloc, told, asked)? {
            return Ok(false);
        }
    }
    Ok(true)
}

impl Row for Text {
    fn holds(&self, alloc: Global) -> Result<bool, Errno> {
        let told = good(alloc, self.0)?;
        let holds = are_as_asked(alloc, &told);
        drop(told);
        holds
    }
}

static ORDERS: [Text; 6] = [
    // Nobody serves: whoever comes, waits.
    Text(
        b"thread ann\nwalk 1 0 /auto/ada 5 room\nresume 1 6 room\nend\nsometimes ann 1 wait 1\nnever ann 1 at *\nsometimes ann waiting\n",
    ),
    // The example of docs/FORMATS.md, "Scenes".
    Text(
        b"thread ann\nwalk 1 0 /auto/ada 5 room\nresume 1 6 room\nend\nthread bob\nwalk 2 0 /auto/ada 5 room\nresume 2 6 room\nend\nserve daemon fail 1\nsometimes ann 1 wait *\nsometimes bob 2 fail 1\nsometimes ann 2 at *\nnever ann waiting\nnever bob 1 err *\n",
    ),
    // What the way has done is there when the threads go on.
    Text(
        b"walk 1 0 /auto/ada 5 room\nthread bob\nwalk 2 0 /auto/ada 5 room\nend\nnever bob 1 wait 2\nsometimes bob 1 wait 1\n",
    ),
    // Each form of an answer, of what comes in every order, and of what comes in none.
    Text(
        b"thread eve\nleave 9\nend\nthread ann\nwalk 1 0 /auto/ada 5 room\nresume 1 6 room\nleave 1\nend\nserve daemon\nsometimes eve 1 err *\nsometimes eve 1 err 5\nnever eve 1 err 1\nnever eve 1 fail 5\nsometimes ann 1 wait 1\nsometimes ann 2 at 3 //\nnever ann 2 at 2 /\nnever ann 2 at 3 /ada\nnever ann 2 fail *\nsometimes ann 3 *\nnever ann 3 err *\nnever eve waiting\n",
    ),
    // What the worlds show that orders end in: the daemon mounts the key, or fails.
    Text(
        b"thread ann\nwalk 1 0 /auto/ada 5 room\nresume 1 6 room\nend\nserve daemon fail 2\nalways 1 1 0:1 / / rw - plain none rw\nalways # namespace 0\nsometimes # made fs 2 name ada\nnever # namespace 1\nsometimes 3 2 * / /auto/ada rw - plain none rw\nsometimes # fail 2 at * fs 2 name ada\nnever 3 2 * / /auto/bob rw - plain none rw\nnever 1 1 0:1\nnever 4 *\n",
    ),
    Text(
        b"thread ann\nmount 0 /a\nend\nthread bob\nmount 0 /a/b\nend\nalways # namespace 0\nalways * 1 * / /a rw - plain none rw\nsometimes 3 1 * / /a rw - plain none rw\nsometimes 4 1 * / /a rw - plain none rw\n",
    ),
];

#[test]
fn questions_come_out_as_asked(rt: HostRuntime) {
    hold(&rt, rt.alloc(), "orders", &ORDERS);
}
