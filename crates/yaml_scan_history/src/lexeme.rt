//! Lexemes with what earlier ones decide of them.

use crate::kind::Kind;
use yaml_scan_model::yaml_mark_t;

/// Where a lexeme is, and what the lexemes before it decide.
#[derive(Clone, Copy)]
pub struct Lexeme {
    pub kind: Kind,
    /// Its token's marks.
    pub start: yaml_mark_t,
    pub end: yaml_mark_t,
    /// The place that is reached after it, with the blanks and breaks that it consumes.
    pub reached: yaml_mark_t,
    /// How many brackets are open before it.
    pub depth: usize,
    /// The margin of the innermost block level that it is in: the first column right of it; 0 where none is open.
    pub level: u64,
    /// It was saved as a candidate: a simple key may begin with it.
    pub saved: bool,
    /// Its `:` must come.
    pub required: bool,
    /// The blanks after a plain scalar hold a break.
    pub broke: bool,
}

/// The level that opens before a lexeme.
#[derive(Clone, Copy)]
pub enum Opens {
    Nothing,
    Sequence,
    Mapping,
}

/// A lexeme as it is spelled out in tokens.
#[derive(Clone, Copy)]
pub struct Entry {
    pub lexeme: Lexeme,
    /// How many block levels it closes.
    pub ends: usize,
    /// The level that it opens.
    pub opens: Opens,
    /// Its `:` has come.
    pub key: bool,
}
