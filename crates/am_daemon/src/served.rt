//! What serves a path.

/// A line of the master map that serves a path, at which an autofs may be attached
/// (auto.master(5), "FORMAT").
#[derive(Clone, Copy, PartialEq, Eq)]
pub struct Point {
    /// The place of the line in the master map, from 0.
    pub entry: usize,
    /// A key of a direct map serves the path, and not an indirect map.
    pub direct: bool,
}
