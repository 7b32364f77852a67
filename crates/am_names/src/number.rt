//! The numbers of things, each with a type of its own. Clauses see the number.

use std::marker::Model;

/// A mount. The numbers rise from 1 and none is used again.
#[derive(Clone, Copy, Debug, PartialEq, Eq, PartialOrd)]
pub struct MountId(pub u64);

impl Model for MountId {
    ghost use Rattle.std.specs.Prelude.{ℕ};

    ghost Value = { ℕ };

    ghost view = { λ n. n.0 };

    ghost inverse = { λ n. record { 0 = n } };
}

/// A peer group (sharedsubtree.rst, 5a). The numbers rise from 1.
#[derive(Clone, Copy, Debug, PartialEq, Eq, PartialOrd)]
pub struct GroupId(pub u64);

impl Model for GroupId {
    ghost use Rattle.std.specs.Prelude.{ℕ};

    ghost Value = { ℕ };

    ghost view = { λ n. n.0 };

    ghost inverse = { λ n. record { 0 = n } };
}

/// A mount namespace. The numbers rise from 0.
#[derive(Clone, Copy, Debug, PartialEq)]
pub struct NsId(pub u32);

impl Model for NsId {
    ghost use Rattle.std.specs.Prelude.{ℕ};

    ghost Value = { ℕ };

    ghost view = { λ n. n.0 };

    ghost inverse = { λ n. record { 0 = n } };
}

/// A file system. The numbers rise from 1.
#[derive(Clone, Copy, Debug, PartialEq, Eq, Hash)]
pub struct FsId(pub u32);

impl Model for FsId {
    ghost use Rattle.std.specs.Prelude.{ℕ};

    ghost Value = { ℕ };

    ghost view = { λ n. n.0 };

    ghost inverse = { λ n. record { 0 = n } };
}

/// A `wait_queue_token` (auto_fs.h). The numbers rise from 1 over all file systems.
#[derive(Clone, Copy, Debug, PartialEq, Eq)]
pub struct Token(pub u32);

impl Model for Token {
    ghost use Rattle.std.specs.Prelude.{ℕ};

    ghost Value = { ℕ };

    ghost view = { λ n. n.0 };

    ghost inverse = { λ n. record { 0 = n } };
}

/// An attachment of the daemon to an autofs: what the pipe and the daemon's process group
/// are in Linux. The numbers rise from 1.
#[derive(Clone, Copy, Debug, PartialEq)]
pub struct Attach(pub u32);

impl Model for Attach {
    ghost use Rattle.std.specs.Prelude.{ℕ};

    ghost Value = { ℕ };

    ghost view = { λ n. n.0 };

    ghost inverse = { λ n. record { 0 = n } };
}

/// A process that walks paths.
#[derive(Clone, Copy, Debug, PartialEq, PartialOrd)]
pub struct WalkerId(pub u32);

impl Model for WalkerId {
    ghost use Rattle.std.specs.Prelude.{ℕ};

    ghost Value = { ℕ };

    ghost view = { λ n. n.0 };

    ghost inverse = { λ n. record { 0 = n } };
}

/// What the daemon does for a packet: it has the number of the packet's token.
#[derive(Clone, Copy, Debug, PartialEq)]
pub struct JobId(pub u32);

impl Model for JobId {
    ghost use Rattle.std.specs.Prelude.{ℕ};

    ghost Value = { ℕ };

    ghost view = { λ n. n.0 };

    ghost inverse = { λ n. record { 0 = n } };
}

/// A moment, in whole seconds.
#[derive(Clone, Copy, Debug, PartialEq, PartialOrd)]
pub struct Seconds(pub u64);

impl Model for Seconds {
    ghost use Rattle.std.specs.Prelude.{ℕ};

    ghost Value = { ℕ };

    ghost view = { λ n. n.0 };

    ghost inverse = { λ n. record { 0 = n } };
}
