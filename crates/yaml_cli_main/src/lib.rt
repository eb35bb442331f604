//! The program except for its `main`: the runs by the engine that `yaml_round` has.
#![tactic(auto)]

mod comment;
mod differences;
mod engine;
mod program;
mod way;

pub use program::yaml_main;
pub use yaml_cli_program::{WRONG_WORDS, file_path};
