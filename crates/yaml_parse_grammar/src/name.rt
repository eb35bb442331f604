//! Names of what may come.

use crate::problem::ParseProblem;
use yaml_parse_model::yaml_mark_t;

/// The two parts of a pair.
#[derive(Clone, Copy)]
pub enum Side {
    Key,
    Value,
}

/// Which nodes may come (YAML 1.1, 4.2.2).
#[derive(Clone, Copy)]
pub enum Wants {
    /// Nodes that may be inside brackets.
    Flow,
    /// Block nodes too; as a part of a pair of a block mapping also a sequence that isn't indented.
    Block(Option<Side>),
}

/// The two flow collections.
#[derive(Clone, Copy)]
pub enum Brackets {
    Sequence,
    Mapping,
}

/// A place where a node may be, or be left out.
#[derive(Clone, Copy)]
pub enum Site {
    /// After `---`.
    Root,
    /// After a `-`.
    Entry,
    /// After a `-` of a sequence that isn't indented, which is that part of a pair.
    IndentlessEntry(Side),
    /// That part of a pair of a block mapping.
    BlockPair(Side),
    /// That part of a pair inside those brackets.
    FlowPair(Brackets, Side),
}

/// What a state does at a token.
#[derive(Clone, Copy)]
pub enum Choice {
    /// The token is wrong here. The mark is where the open collection begins; without one the context is the token.
    Refuse(ParseProblem, Option<yaml_mark_t>),
    /// The token is taken.
    Take,
    /// The state is done, and the token is for the next one.
    Leave,
    /// A document begins at the token, which is its root's first.
    Open,
}
