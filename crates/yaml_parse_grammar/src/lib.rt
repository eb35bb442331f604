//! The grammar of token lists: derivation trees, their tokens and events, and the machine that finds them.
#![tactic(auto)]

mod name;
mod problem;

pub use name::{Brackets, Choice, Side, Site, Wants};
pub use problem::{ParseFault, ParseProblem};
