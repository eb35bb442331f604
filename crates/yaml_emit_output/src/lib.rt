//! An output: a text in UTF-8 that is laid out with no limit, and what an output of a limit and an encoding has of it.
#![tactic(auto)]

mod draft;
mod output;
mod place;
mod utf16;

pub use draft::Draft;
pub use output::Output;
pub use utf16::split_first;
