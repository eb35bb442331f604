//! What an emitter expects, and its open collections.

use crate::problem::Problem;

/// What comes next in an open collection.
#[derive(Clone, Copy, PartialEq, Eq, Debug)]
pub enum Phase {
    /// An item or the end; whether none has come.
    Items(bool),
    /// A key or the end; whether none has come.
    Keys(bool),
    /// A value; whether its key was simple.
    Value(bool),
}

/// An open collection: what comes next in it, whether it is flow, and its indentation in columns.
#[derive(Clone, Copy, PartialEq, Eq, Debug)]
pub struct Level {
    pub phase: Phase,
    pub flow: bool,
    pub indent: u64,
}

/// What an emitter expects.
#[derive(Clone, Copy, PartialEq, Eq, Debug)]
pub enum Expected {
    StreamStart,
    /// A document or the stream's end; whether none went before, and whether the last ended implicitly.
    Documents(bool, bool),
    /// A node, or the end of the innermost collection.
    Node,
    DocumentEnd,
    End,
    /// Nothing: an event was refused.
    Refused(Problem),
}

/// The part of a node in its collection.
#[derive(Clone, Copy)]
pub enum Part {
    Item,
    Key,
    SimpleKey,
    Value,
}

/// Where a node is: the indentation round it (none round a root), whether that is flow, and its part there.
#[derive(Clone, Copy)]
pub struct NodePosition {
    pub around: Option<u64>,
    pub flow: bool,
    pub part: Part,
}
