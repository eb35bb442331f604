//! How far the lines of a collection are indented.

/// The columns of a level's indentation, if none are set.
pub const DEFAULT_INDENT: i32 = 2;
