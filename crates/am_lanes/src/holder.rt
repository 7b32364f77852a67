//! Who holds a lane, and what bar stands in it.

ghost use Rattle.std.specs.Prelude.{◌≡◌, [], ◌∷◌, ◌++◌, None, OnOk, OnErr};
ghost use Rattle.am_lanes.specs.Bars.{is_of, has_ended, is_free, may_take, is_in, ends, ended, ends_lane};
ghost use Rattle.am_lanes.specs.Inside.{fs_of};

use am_names::FsId;
use std::alloc::AllocError;

/// How the bar of who holds a lane looks.
#[derive(Clone, Copy)]
pub enum Look {
    /// An open token of a mount that is missing in this file system.
    Missing { fs: FsId },
    /// An open token of an expiry in this file system.
    Expire { fs: FsId },
    /// A token that isn't open any more: there is no bar.
    Ended,
    /// A walker that waits.
    Waits,
    /// A walker that is inside of a mount.
    Inside,
    /// A walker that does neither: there is no bar.
    Idle,
    /// A file system that is catatonic.
    Catatonic,
    /// A daemon that is dead.
    Dead,
}

/// Who holds a lane: a token, a walker, a file system or the daemon, by its number.
#[derive(Clone, Copy)]
pub struct Holder {
    pub number: u32,
    pub look: Look,
    /// The number of the event behind which it looks so, from 1.
    pub since: u64,
}

/// Which bars end.
#[derive(Clone, Copy)]
pub enum Ending {
    /// That of who has this number.
    Of { number: u32 },
    /// Those of the tokens of a file system.
    In { fs: FsId },
    /// All of them.
    All,
}

pub(crate) fn is_of(lane: &Option<Holder>, number: u32) -> bool
    ensures { result ≡ is_of number lane.now }
{
    match lane {
        None => false,
        Some(holder) => holder.number == number,
    }
}

pub(crate) fn has_ended(look: Look) -> bool
    ensures { result ≡ has_ended look }
{
    match look {
        Look::Ended => true,
        Look::Idle => true,
        _ => false,
    }
}

pub(crate) fn is_free(lane: &Option<Holder>) -> bool
    ensures { result ≡ is_free lane.now }
{
    match lane {
        None => true,
        Some(holder) => has_ended(holder.look),
    }
}

/// The file system in which the token is open.
pub(crate) fn fs_of(look: Look) -> Option<u32>
    ensures { result ≡ fs_of look }
{
    match look {
        Look::Missing { fs } => Some(fs.0),
        Look::Expire { fs } => Some(fs.0),
        _ => None,
    }
}

fn is_in(look: Look, fs: FsId) -> bool
    ensures { result ≡ is_in fs look }
{
    match look {
        Look::Missing { fs: own } => own == fs,
        Look::Expire { fs: own } => own == fs,
        _ => false,
    }
}

/// Whether the bar of this holder ends.
pub fn ends(ending: &Ending, holder: &Holder) -> bool
    ensures { result ≡ ends ending.now holder.now }
{
    match ending {
        Ending::Of { number } => holder.number == *number,
        Ending::In { fs } => is_in(holder.look, *fs),
        Ending::All => true,
    }
}

/// Whether the bar in this lane ends.
pub(crate) fn ends_lane(ending: &Ending, lane: &Option<Holder>) -> bool
    ensures { result ≡ ends_lane ending.now lane.now }
{
    match lane {
        None => false,
        Some(holder) => ends(ending, holder),
    }
}

/// The holder, whose bar has ended.
pub(crate) fn ended(holder: Holder) -> Holder
    ensures { result ≡ ended holder }
{
    Holder {
        look: Look::Ended,
        ..holder
    }
}

/// There is one lane more, which nobody holds.
pub(crate) fn push_nobody(lanes: &mut Vec<Option<Holder>>) -> Result<(), AllocError>
    ensures ok { OnOk result (lanes.new.items ≡ lanes.old.items ++ None ∷ []) }
    ensures err { OnErr result (lanes.new.items ≡ lanes.old.items) }
{
    // The checker learns of a type inside of another by its name.
    let _look: Option<Look> = None;
    lanes.push(None)?;
    Ok(())
}
