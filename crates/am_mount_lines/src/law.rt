//! What is true of each text.

ghost use Rattle.std.specs.Prelude.{◌≡◌, ℕ, List, Some};
ghost use Rattle.std.specs.List.{flat_map};
ghost use Rattle.am_mount_lines.specs.Escapes.{escaped, plain_of};

/// What is escaped reads back.
pub fn escapes_read_back()
    ensures { (text : List ℕ) → plain_of (flat_map escaped text) ≡ Some text }
{}
