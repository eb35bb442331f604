//! The program except for its engine: its arguments and what they ask for, the runs over files and
//! streams, and reports where one fails.
#![tactic(auto)]

mod compare;
mod difference;
mod engine;
mod fault;
mod file;
mod judge;
mod options;
mod order;
mod program;
mod report;
mod table;
mod version;
mod words;
mod writing;

pub use engine::{AllParted, Cause, Compared, Difference, Ended, Engine, Met, Parted, Side};
pub use fault::INPUT_LIMIT;
pub use order::{Judging, Manner, Measure, Question, Task, WRONG_WORDS};
pub use program::main_by;
pub use yaml_cli_files::{Format, RepeatedKey, Source, Step, file_path, place_of_byte, push_step};
