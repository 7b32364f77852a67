//! One history for all callers. It exists in proofs alone: a pass has no bytes.

ghost use Rattle.std.specs.Prelude.{◌≡◌, ℕ, ◌+◌, ◌<◌, ◌≤◌, true, false, [], ◌∷◌, ◌++◌, length, IfOk};
ghost use mathlib.Core.List.{IsPrefix};
ghost use Rattle.am_shared.specs.Passes.{CallsOn, IsOn, KeepsHistory, view_of};
ghost use Rattle.am_shared.specs.Chronicle.{AreIn, Learned, keeper, caller, taken_in, weigh, weigh_to};

use am_machine::Entry;
use atomic_table::{Join, Play, Seat, Split, Table, TableRule};
use std::alloc::{AllocError, Global};
use std::collections::LinkedList;

/// The history that callers share, of which the program keeps no word.
pub type History = Table<Entry, Known, (), OneHistory, Global>;

/// What a caller, or who keeps the history, knows of it.
pub type Pass = Seat<Entry, Known>;

/// Whether a pass keeps the history, of how many callers, and all of it; for how many callers it
/// stands, the calls that they made, each with its position, and what they saw. No value of it is
/// made.
pub struct Known {
    pub keeps: bool,
    pub made: u64,
    pub all: LinkedList<Entry>,
    pub parts: u64,
    pub mine: LinkedList<(u64, Entry)>,
    pub seen: LinkedList<Entry>,
}

/// There is one history, and what each pass knows of it is so.
pub struct OneHistory;

impl TableRule<Entry, Known, ()> for OneHistory {
    ghost use Rattle.std.specs.Prelude.{[]};
    ghost use Rattle.am_shared.specs.Chronicle.{IsHistory, keeper};

    ghost holds = { λ _ s. IsHistory s };

    ghost first = { λ _. keeper 0 [] };
}

/// A caller comes.
pub struct Comes;

impl Split<Known> for Comes {
    ghost use Rattle.std.specs.Prelude.{[]};
    ghost use Rattle.am_shared.specs.Chronicle.{caller, with_caller};

    ghost left = { with_caller };

    ghost right = { λ v. caller [] [] };
}

/// A caller's pass goes to the keeper.
pub struct Hands;

impl Split<Known> for Hands {
    ghost use Rattle.am_shared.specs.Chronicle.{spent};

    ghost left = { λ v. spent };

    ghost right = { λ v. v };
}

impl Join<Known> for Hands {
    ghost use Rattle.am_shared.specs.Chronicle.{spent, taken_in};

    ghost both = { taken_in };

    ghost spent = { spent };
}

/// It comes back.
pub struct Rests;

impl Split<Known> for Rests {
    ghost use Rattle.am_shared.specs.Chronicle.{given_back, rested};

    ghost left = { rested };

    ghost right = { given_back };
}

/// What the keeper learns of the pass that it has taken in.
pub struct Learns;

impl Play<Entry, Known> for Learns {
    ghost use Rattle.std.specs.Prelude.{◌≡◌};
    ghost use Rattle.am_shared.specs.Chronicle.{Learned};

    ghost then = { λ st me n me'. (me' ≡ me) × Learned me.0 };
}

/// An entry comes to the history.
pub struct Records;

impl Play<Entry, Known> for Records {
    ghost use Rattle.std.specs.Prelude.{◌≡◌};
    ghost use Rattle.am_shared.specs.Chronicle.{IfSaid, recorded};

    ghost then = { λ st me n me'. IfSaid st.said (λ e. me' ≡ (recorded me.0 e, me.1)) };
}

/// A history in which nothing is, and the pass that keeps it.
pub fn open(alloc: Global) -> Result<(History, Pass), AllocError>
    ensures { IfOk result (λ made. KeepsHistory made.0.shared.table_id made.1 × (view_of made.1 ≡ keeper 0 [])) }
{
    History::of_words(alloc, &[0], &())
}

/// The pass of one caller more.
pub fn admit(history: &History, keeping: &mut Pass) -> Pass
    requires keeper { KeepsHistory history.now.shared.table_id keeping.old × ((view_of keeping.old).all ≡ []) }
    ensures keeper { KeepsHistory history.now.shared.table_id keeping.new
        × (view_of keeping.new ≡ keeper ((view_of keeping.old).made + 1) []) }
    ensures caller { CallsOn history.now.shared.table_id result × (view_of result ≡ caller [] []) }
{
    history.shared.split_seat::<Comes>(keeping)
}

/// The keeper takes a caller's pass in, and learns of it.
fn take_in(history: &History, keeping: &mut Pass, calling: Pass)
    requires keeper { IsOn history.now.shared.table_id keeping.old × ((view_of keeping.old).keeps ≡ true) }
    requires caller { CallsOn history.now.shared.table_id calling }
    ensures keeper { IsOn history.now.shared.table_id keeping.new
        × (view_of keeping.new ≡ taken_in (view_of keeping.old) (view_of calling)) }
    ensures learned { Learned (view_of keeping.new) }
{
    history.shared.join_seat::<Hands>(keeping, calling);
    history.shared.load::<Learns>(keeping, 0);
}

/// A caller sees the history, which has all calls that it made, and begins with what it saw.
pub fn meet(history: &History, keeping: &mut Pass, calling: &mut Pass)
    requires keeper { KeepsHistory history.now.shared.table_id keeping.old }
    requires caller { CallsOn history.now.shared.table_id calling.old }
    ensures keeper { KeepsHistory history.now.shared.table_id keeping.new
        × (view_of keeping.new ≡ view_of keeping.old) }
    ensures caller { CallsOn history.now.shared.table_id calling.new
        × (view_of calling.new ≡ caller (view_of calling.old).mine (view_of keeping.old).all) }
    ensures calls { AreIn (view_of keeping.old).all (view_of calling.old).mine }
    ensures seen { IsPrefix (view_of calling.old).seen (view_of keeping.old).all }
{
    let whole = history.shared.split_seat::<Hands>(calling);
    take_in(history, keeping, whole);
    *calling = history.shared.split_seat::<Rests>(keeping);
}

/// A caller's entry comes to the history, at its end.
pub fn record(history: &History, keeping: &mut Pass, calling: &mut Pass, entry: &Entry)
    requires keeper { KeepsHistory history.now.shared.table_id keeping.old }
    requires caller { CallsOn history.now.shared.table_id calling.old }
    ensures keeper { KeepsHistory history.now.shared.table_id keeping.new
        × (view_of keeping.new ≡ keeper (view_of keeping.old).made
        ((view_of keeping.old).all ++ entry.now ∷ [])) }
    ensures caller { CallsOn history.now.shared.table_id calling.new
        × (view_of calling.new ≡ caller
        ((view_of calling.old).mine ++ (length (view_of keeping.old).all + 1, entry.now) ∷ [])
        ((view_of keeping.old).all ++ entry.now ∷ [])) }
    ensures calls { AreIn (view_of keeping.old).all (view_of calling.old).mine }
    ensures seen { IsPrefix (view_of calling.old).seen (view_of keeping.old).all }
{
    let whole = history.shared.split_seat::<Hands>(calling);
    take_in(history, keeping, whole);
    history
        .shared
        .compare_exchange_with::<Records>(keeping, 0, 0, 0, entry);
    *calling = history.shared.split_seat::<Rests>(keeping);
}

/// A caller's pass is handed in for good.
pub fn hand_in(history: &History, keeping: &mut Pass, calling: Pass)
    requires keeper { IsOn history.now.shared.table_id keeping.old × ((view_of keeping.old).keeps ≡ true) }
    requires caller { CallsOn history.now.shared.table_id calling }
    ensures keeper { IsOn history.now.shared.table_id keeping.new
        × (view_of keeping.new ≡ taken_in (view_of keeping.old) (view_of calling)) }
    ensures few { (view_of keeping.new).parts ≤ (view_of keeping.new).made }
    ensures calls { AreIn (view_of keeping.new).all (view_of keeping.new).mine }
    ensures once { (view_of keeping.new).parts ≡ (view_of keeping.new).made → (h : ℕ → ℕ)
        → weigh h (view_of keeping.new).mine ≡ weigh_to h (length (view_of keeping.new).all) }
{
    take_in(history, keeping, calling);
}

/// Who keeps the history stands for all callers, and yet there is one more: that can't be.
pub fn not_all(history: &History, keeping: &mut Pass, calling: &mut Pass)
    requires keeper { IsOn history.now.shared.table_id keeping.old
        × ((view_of keeping.old).keeps ≡ true) }
    requires all { (view_of keeping.old).parts ≡ (view_of keeping.old).made }
    requires caller { CallsOn history.now.shared.table_id calling.old }
    ensures { ⊥ }
{
    let whole = history.shared.split_seat::<Hands>(calling);
    take_in(history, keeping, whole);
}
