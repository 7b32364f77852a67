//! The file system of each latest attachment.

ghost use Rattle.std.specs.Prelude.{◌≡◌, ◌==◌, ◌++◌, ◌∷◌, [], not, filter, IsSome};
ghost use Rattle.am_kernel.specs.Rising.{RiseByAttach};
ghost use Rattle.am_kernel.specs.Holders.{holder_of};

use am_names::{Attach, FsId};
use std::collections::VecDeque;

/// The latest attachment of a file system.
#[derive(Clone, Copy, Debug)]
pub struct Holder {
    pub attach: Attach,
    pub fs: FsId,
}

/// The file system whose latest attachment this is.
pub(crate) fn holder_of(holders: &VecDeque<Holder>, attach: Attach) -> Option<FsId>
    requires { RiseByAttach holders.now.items }
    ensures { result ≡ holder_of holders.now.items attach }
{
    let number = attach.0;
    match holders.binary_search_by_key(&number, |holder| holder.attach.0) {
        Ok(at) => Some(holders[at].fs),
        Err(_) => None,
    }
}

/// One that is there goes, and a new one goes last. Those on its shorter side move, and no memory
/// is taken.
pub(crate) fn renew(holders: &mut VecDeque<Holder>, old: Attach, new: Holder)
    requires rising { RiseByAttach holders.old.items }
    requires held { IsSome (holder_of holders.old.items old) }
    ensures { holders.new.items
        ≡ filter (λ holder. not (holder.attach == old)) holders.old.items ++ new ∷ [] }
{
    let number = old.0;
    if let Ok(at) = holders.binary_search_by_key(&number, |holder| holder.attach.0) {
        let _old = holders.remove(at);
        holders.push_back_reserved(new);
    }
}
