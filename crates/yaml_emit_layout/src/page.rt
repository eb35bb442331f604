//! Where a scalar is, and its style.

use crate::settings::LineBreak;

/// Where a scalar is.
#[derive(Clone, Copy)]
pub struct Page {
    /// After this column a line may be broken.
    pub width: u64,
    /// Columns before the scalar's lines but the first.
    pub indentation: u64,
    /// Characters above U+007F may be as they are.
    pub unicode: bool,
    /// Lines may be broken: the scalar is no simple key.
    pub cuts: bool,
    pub line_break: LineBreak,
}

/// How a scalar is written.
#[derive(Clone, Copy)]
pub enum Style {
    Plain,
    Single,
    Double,
    Literal,
    Folded,
}

/// The styles that a value allows.
#[derive(Clone, Copy)]
pub struct Allowed {
    /// Plain outside flow collections.
    pub plain: bool,
    /// Plain inside flow collections.
    pub flow_plain: bool,
    /// Single quoted.
    pub single: bool,
    /// Literal and folded.
    pub block: bool,
}

/// What becomes of the breaks at a block scalar's end.
#[derive(Clone, Copy)]
pub enum Chomp {
    /// None is there.
    Strip,
    /// One is there.
    Clip,
    /// More are there, or one alone.
    Keep,
}

/// What was seen in the characters of a value.
#[derive(Clone, Copy)]
pub struct Seen {
    /// A character for double quotes alone.
    pub special: bool,
    /// A break with a space after it.
    pub broken: bool,
    /// A character that is not for plain scalars.
    pub not_plain: bool,
    /// A character that is not for plain scalars in flow collections.
    pub not_flow: bool,
}
