//! What tokens are open for, and how many are.

use crate::tests::script::{Example, Stage, Step, plays};
use crate::tests::trap::Trap;
use am_names::{Errno, FailNo, FsId, Name, Status, Token, TokenKind, Trigger, WalkerId};
use am_wait::Waits;
use std::alloc::Global;

/// A call, and what it answers.
#[derive(Clone, Copy)]
enum Call {
    /// The walker, what it waits for, and its token.
    Opens(u32, TokenKind, Trap, u32),
    /// The token, and the walker.
    Joins(u32, u32),
    Answers(u32, Status),
    /// All that wait on a file system are released.
    Releases(u32),
    Collects(u32, Status),
    /// What the token is open for.
    IsFor(u32, TokenKind, Trap),
    IsNotOpen(u32),
    /// So many tokens are open.
    AreOpen(usize),
}

fn opens(
    alloc: Global,
    waits: &mut Waits,
    walker: u32,
    kind: TokenKind,
    trap: Trap,
    token: u32,
) -> Result<bool, Errno> {
    let trigger = trap.trigger()?;
    // The checker wants the type of its name said too, here and below.
    let _name: Option<Name> = trigger.name;
    Ok(waits.open(alloc, trigger, kind, WalkerId(walker))? == Token(token))
}

fn is_purpose(purpose: Option<(TokenKind, Trigger)>, kind: TokenKind, trap: Trap) -> bool {
    match purpose {
        Some((of, trigger)) => of == kind && trap.is(&trigger),
        None => false,
    }
}

fn make(alloc: Global, waits: &mut Waits, call: Call) -> Result<bool, Errno> {
    match call {
        Call::Opens(walker, kind, trap, token) => opens(alloc, waits, walker, kind, trap, token),
        Call::Joins(token, walker) => {
            waits.join(Token(token), WalkerId(walker))?;
            Ok(true)
        }
        Call::Answers(token, status) => {
            waits.answer(Token(token), status)?;
            Ok(true)
        }
        Call::Releases(fs) => {
            waits.release_fs(FsId(fs));
            Ok(true)
        }
        Call::Collects(walker, status) => Ok(waits.collect(WalkerId(walker))? == status),
        Call::IsFor(token, kind, trap) => {
            Ok(is_purpose(waits.purpose_of(Token(token)), kind, trap))
        }
        Call::IsNotOpen(token) => Ok(waits.purpose_of(Token(token)).is_none()),
        Call::AreOpen(count) => Ok(waits.token_count() == count),
    }
}

#[derive(Drop)]
struct Slate(Waits);

impl Stage for Slate {
    type Call = Call;

    /// Tokens have numbers up to 3.
    fn new(alloc: Global) -> Result<Slate, Errno> {
        Ok(Slate(Waits::new(alloc, 9, 3)))
    }

    fn make(&mut self, alloc: Global, call: Call) -> Result<bool, Errno> {
        make(alloc, &mut self.0, call)
    }
}

const HOME: Trap = Trap(2, b"home");

const ROOT: Trap = Trap(3, b"");

const MISSING: TokenKind = TokenKind::Missing;

const EXPIRE: TokenKind = TokenKind::Expire;

const EPERM: Status = Status::Fail(FailNo::EPERM);

static PURPOSES: [Step<Call>; 35] = [
    Step::Does(Call::AreOpen(0)),
    Step::Does(Call::IsNotOpen(0)),
    Step::Does(Call::IsNotOpen(1)),
    Step::Does(Call::Opens(7, MISSING, HOME, 1)),
    Step::Does(Call::Opens(8, EXPIRE, ROOT, 2)),
    Step::Does(Call::AreOpen(2)),
    Step::Does(Call::IsFor(1, MISSING, HOME)),
    Step::Does(Call::IsFor(2, EXPIRE, ROOT)),
    Step::Does(Call::IsNotOpen(3)),
    // A walker more is no token more.
    Step::Does(Call::Joins(1, 9)),
    Step::Does(Call::AreOpen(2)),
    Step::Does(Call::IsFor(1, MISSING, HOME)),
    // A token that is acknowledged is closed, though its walkers haven't been told.
    Step::Does(Call::Answers(1, EPERM)),
    Step::Does(Call::AreOpen(1)),
    Step::Does(Call::IsNotOpen(1)),
    Step::Does(Call::IsFor(2, EXPIRE, ROOT)),
    Step::Refused(Call::Answers(1, EPERM), Errno::EINVAL),
    Step::Does(Call::Collects(9, EPERM)),
    Step::Does(Call::Collects(7, EPERM)),
    Step::Does(Call::AreOpen(1)),
    // Its trigger may have another, of another kind.
    Step::Does(Call::Opens(7, EXPIRE, HOME, 3)),
    Step::Does(Call::IsFor(3, EXPIRE, HOME)),
    Step::Does(Call::IsNotOpen(1)),
    Step::Does(Call::AreOpen(2)),
    // One that can't be opened isn't.
    Step::Refused(Call::Opens(9, MISSING, Trap(2, b"work"), 4), Errno::ENOSPC),
    Step::Does(Call::IsNotOpen(4)),
    Step::Does(Call::AreOpen(2)),
    // Those of one file system close together.
    Step::Does(Call::Releases(2)),
    Step::Does(Call::IsNotOpen(3)),
    Step::Does(Call::IsFor(2, EXPIRE, ROOT)),
    Step::Does(Call::AreOpen(1)),
    Step::Does(Call::Collects(7, Status::Fail(FailNo::ENOENT))),
    Step::Does(Call::Answers(2, Status::Ready)),
    Step::Does(Call::AreOpen(0)),
    Step::Does(Call::IsNotOpen(2)),
];

fn purposes() -> Example<Call> {
    Example("what tokens are open for", &PURPOSES)
}

#[test]
fn tokens(rt: HostRuntime) {
    let alloc = rt.alloc();
    plays::<Slate>(&rt, alloc, purposes());
}
