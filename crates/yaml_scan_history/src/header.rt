//! What a block scalar's header says of the breaks at its end.

/// What happens to the breaks at the end.
#[derive(Clone, Copy)]
pub enum Chomp {
    /// None stays.
    Strip,
    /// The last text line's stays.
    Clip,
    /// All stay.
    Keep,
}
