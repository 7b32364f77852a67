//! The daemon's acts as tables hold them, and what comes of them.

use am_job::{Act, Outcome};
use am_names::{FailNo, MountId, Status, Token, Trigger};
use am_state::Record;

/// What the book says of a trigger.
#[derive(Clone, Copy)]
pub enum Said {
    Nothing,
    Mounting(u32),
    Mounted(u64),
    Unmounting(u32, u64),
}

impl Said {
    pub fn entry(self) -> Option<Record> {
        match self {
            Said::Nothing => None,
            Said::Mounting(token) => Some(Record::Mounting {
                token: Token(token),
            }),
            Said::Mounted(mount) => Some(Record::Mounted {
                mount: MountId(mount),
            }),
            Said::Unmounting(token, mount) => Some(Record::Unmounting {
                token: Token(token),
                mount: MountId(mount),
            }),
        }
    }
}

/// What comes of an act; a mount has the number 7.
#[derive(Clone, Copy)]
pub enum Comes {
    Done,
    Made,
    Failed(FailNo),
}

impl Comes {
    pub fn outcome(self) -> Outcome {
        match self {
            Comes::Done => Outcome::Done,
            Comes::Made => Outcome::Made { mount: MountId(7) },
            Comes::Failed(no) => Outcome::Failed(no),
        }
    }
}

/// What an act does.
#[derive(Clone, Copy)]
pub enum Deed {
    Mkdir,
    /// Mounts `srv` with this path, and without options.
    Mount(&'static [u8]),
    Umount,
    Rmdir,
    Records(Said),
    Replies(Status),
}

fn is_plain(act: &Act, trigger: &Trigger, deed: Deed) -> bool {
    match (act, deed) {
        (Act::Mkdir { trigger: other }, Deed::Mkdir) => trigger.is_same(other),
        (Act::Rmdir { trigger: other }, Deed::Rmdir) => trigger.is_same(other),
        (Act::Umount { trigger: other }, Deed::Umount) => trigger.is_same(other),
        _ => false,
    }
}

fn is_mount(act: &Act, trigger: &Trigger, path: &[u8]) -> bool {
    match act {
        Act::Mount {
            trigger: other,
            entry,
        } => {
            trigger.is_same(other)
                && entry.options.is_none()
                && entry.host.as_slice() == b"srv".as_slice()
                && entry.path.as_slice() == path
        }
        _ => false,
    }
}

fn is_record(act: &Act, trigger: &Trigger, said: Said) -> bool {
    match act {
        Act::Record {
            trigger: other,
            entry,
        } => trigger.is_same(other) && *entry == said.entry(),
        _ => false,
    }
}

fn is_reply(act: &Act, expected: Status) -> bool {
    match act {
        Act::Reply { status } => *status == expected,
        _ => false,
    }
}

impl Deed {
    /// The act does this, on this trigger.
    pub fn is(self, act: &Act, trigger: &Trigger) -> bool {
        match self {
            Deed::Mkdir | Deed::Umount | Deed::Rmdir => is_plain(act, trigger, self),
            Deed::Mount(path) => is_mount(act, trigger, path),
            Deed::Records(said) => is_record(act, trigger, said),
            Deed::Replies(status) => is_reply(act, status),
        }
    }
}
