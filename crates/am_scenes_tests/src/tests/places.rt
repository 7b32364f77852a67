//! What is told below the fault of a text.

use crate::tests::table::{HEAD, Row, fault_of, hold};
use am_explain::scene_help;
use am_names::Errno;
use am_recall::Recalled;
use am_scenes::SceneFault;
use std::alloc::Global;

/// A text behind the eight lines of `HEAD`, and what is told below its fault.
struct Text(&'static [u8], &'static [u8]);

/// What is recalled of the text behind `HEAD`, when its reader is at the end.
fn recalled_of(alloc: Global, text: &[u8]) -> Recalled {
    let mut recalled = Recalled::new(alloc);
    recalled.take_piece(HEAD);
    recalled.take_piece(text);
    recalled.take_piece(b"");
    recalled
}

/// Whether this is told below the fault. Where memory runs out, nothing is.
fn is_told(alloc: Global, text: &[u8], fault: SceneFault, told: &[u8]) -> Result<bool, Errno> {
    let recalled = recalled_of(alloc, text);
    let help = scene_help(alloc, &recalled, fault);
    drop(recalled);
    if help.is_empty() {
        return Err(Errno::NoMemory);
    }
    Ok(help.as_slice() == told)
}

impl Row for Text {
    fn holds(&self, alloc: Global) -> Result<bool, Errno> {
        match fault_of(alloc, HEAD, self.0, None)? {
            Some(fault) => is_told(alloc, self.0, fault, self.1),
            None => Ok(false),
        }
    }
}

static PLACES: [Text; 25] = [
    Text(
        b"thread a\nend\nleave 1\n",
        b"  leave 1\n  ^ column 1: expected thread, serve, sometimes, never or always\n",
    ),
    Text(
        b"thread a\nleave 1\nend\nnever a waiting\n thread b\nend\n",
        b"   thread b\n   ^ column 2: expected sometimes, never or always, as above\n",
    ),
    Text(
        b"thread \nend\n",
        b"  thread \n         ^ column 8: expected the name of the thread\n",
    ),
    Text(
        b"thread a b c\nend\n",
        b"  thread a b c\n           ^ column 10: expected the end of the line\n",
    ),
    Text(
        b"thread a\nleave 1\nend\nthread  a\nend\n",
        b"  thread  a\n          ^ column 9: expected a name that no thread above has\n",
    ),
    Text(
        b"leave 1\nthread a\nleave 2\n",
        b"  thread a\n  ^ column 1: expected a line that is just end, below this one\n",
    ),
    Text(
        b"thread a\nleave x\nend\n",
        b"  leave x\n        ^ column 7: expected a walker, a number below 2^32\n",
    ),
    Text(
        b"thread a\nthread b\nend\n",
        b"  thread b\n  ^ column 1: expected the word of an event\n",
    ),
    Text(b"serve\n", b"  serve\n       ^ column 6: expected daemon\n"),
    Text(
        b"serve nobody fail 1\n",
        b"  serve nobody fail 1\n        ^ column 7: expected daemon\n",
    ),
    Text(
        b"serve daemon fail 1 ok 1\n",
        b"  serve daemon fail 1 ok 1\n                      ^ column 21: expected fail or the end of the line\n",
    ),
    Text(
        b"serve daemon fail 1 fail\n",
        b"  serve daemon fail 1 fail\n                          ^ column 25: expected the number of an error, 1 to 9\n",
    ),
    Text(
        b"serve daemon fail 10 fail\n",
        b"  serve daemon fail 10 fail\n                    ^ column 19: expected the number of an error, 1 to 9\n",
    ),
    Text(
        b"serve daemon\nserve daemon\n",
        b"  serve daemon\n  ^ column 1: expected thread, sometimes, never or always: how the daemon serves stands above\n",
    ),
    Text(
        b"sometimes\n",
        b"  sometimes\n           ^ column 10: expected the name of a thread\n",
    ),
    Text(
        b"thread a\nleave 1\nend\nnever a\n",
        b"  never a\n         ^ column 8: expected the number of an event, or waiting\n",
    ),
    Text(
        b"always\n",
        b"  always\n        ^ column 7: expected a line of a world: a number, # or * first\n",
    ),
    Text(
        b"thread a\nleave 1\nend\nalways a 1 *\n",
        b"  always a 1 *\n         ^ column 8: expected a line of a world: a number, # or * first\n",
    ),
    Text(
        b"thread a\nleave 1\nend\nsometimes b waiting\n",
        b"  sometimes b waiting\n            ^ column 11: expected the name of a thread above, or a line of a world\n",
    ),
    Text(
        b"thread a\nleave 1\nend\nnever a waiting x\n",
        b"  never a waiting x\n                  ^ column 17: expected the end of the line\n",
    ),
    Text(
        b"thread a\nleave 1\nend\nnever a 2 *\n",
        b"  never a 2 *\n          ^ column 9: expected the number of an event of the thread, or waiting alone\n",
    ),
    Text(
        b"thread a\nleave 1\nend\nnever a 1\n",
        b"  never a 1\n           ^ column 10: expected an answer: wait, at, err or fail with its words or *, or * alone\n",
    ),
    Text(
        b"thread a\nleave 1\nend\nnever a 1 ok\n",
        b"  never a 1 ok\n            ^ column 11: expected an answer: wait, at, err or fail with its words or *, or * alone\n",
    ),
    Text(
        b"leave x\nthread a\nend\n",
        b"  leave x\n        ^ column 7: expected a walker, a number below 2^32\n",
    ),
    Text(
        b"thread a\nleave 1\nend\r\n",
        b"  end?\n  ^ column 1: expected the word of an event\n  the line ends in a carriage return: lines of a script end in a line feed alone\n",
    ),
];

#[test]
fn faults_are_told_with_their_places(rt: HostRuntime) {
    hold(&rt, rt.alloc(), "places of faults", &PLACES);
}
