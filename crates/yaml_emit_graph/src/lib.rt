//! The events of a document that the calls built: a walk over its nodes, which of them have an anchor, and which number.
#![tactic(auto)]

mod graph;
mod held;
mod numbers;
mod walk;

pub use graph::Events;
pub use held::next_held;
pub use numbers::{Walked, number_of, walk_nodes};
pub use walk::{Open, Turn, Walkable, place_of};
