//! The two kinds of maps.

/// How the keys of a map are read (autofs(5), "SUN FORMAT").
#[derive(Clone, Copy, PartialEq)]
pub enum MapKind {
    /// A key is a name, or `*`.
    Indirect,
    /// A key is an absolute path.
    Direct,
}
