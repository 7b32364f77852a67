//! The words that all crates share: names and paths, numbers, errors, rows.
//! Reading takes no memory; what is kept for long is a compact copy.
#![tactic(auto)]

pub mod among;
pub mod buckets;
pub mod errno;
pub mod fail_no;
pub mod limits;
pub mod membership;
pub mod mount_ids;
pub mod name;
pub mod number;
pub mod path;
pub mod place;
pub mod row;
pub mod text;
pub mod trigger;
pub mod waiters;

pub use among::{are_ordered, is_among, is_found};
pub use buckets::bucket;
pub use errno::Errno;
pub use fail_no::FailNo;
pub use limits::Limits;
pub use membership::Membership;
pub use mount_ids::MountIds;
pub use name::Name;
pub use number::{Attach, FsId, GroupId, JobId, MountId, NsId, Seconds, Token, WalkerId};
pub use path::AbsPath;
pub use place::Place;
pub use row::{GroupRow, MemberRow, MountRow, OpenToken, Position, TokenKind, WaitRow};
pub use text::split_first_name;
pub use trigger::{PipeState, Status, Trigger};
pub use waiters::Waiters;
