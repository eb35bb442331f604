//! The emitter: events to text, each laid out as it comes.
#![tactic(auto)]

mod alphas;
mod before;
mod content;
mod depth;
mod directives;
mod documents;
mod emitter;
mod given;
mod indent;
mod judge;
mod level;
mod names;
mod nodes;
mod openings;
mod prefixes;
mod scalars;
mod starts;
mod table;
mod tag;

pub use emitter::{Core, yaml_emitter_stand_t};
