//! The scanner: decoded text to lexemes, in libyaml's way: simple keys, indentation levels, and its faults with both places.
#![tactic(auto)]

mod fault;
mod indicators;
mod keys;
mod laws;
mod levels;
mod lexeme;
mod owned;
mod place;
mod resting;
mod row;
mod scanner;
mod text;
mod texts;
mod tokens;
mod word;

pub use fault::Fault;
pub use lexeme::{Lexeme, Note, Span};
pub use owned::next_token;
pub use place::{Locator, mark_in};
pub use scanner::Scanner;
