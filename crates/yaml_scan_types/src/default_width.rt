//! The width of lines.

/// The column after which a line may be broken, if none is set.
pub const DEFAULT_WIDTH: i32 = 80;
