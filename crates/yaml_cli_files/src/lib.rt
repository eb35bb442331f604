//! Files, and places in them: folders, patterns for the names of files, and files that are written in place; the lines that report
//! a fault, with the source line and a caret under it, and what helps; findings; the path to a place in the documents.
#![tactic(auto)]

mod chars;
mod excerpt;
mod finding;
mod folder;
mod glob;
mod hint;
mod in_place;
mod names;
mod parting;
mod path;
mod place;
mod repeated;
mod rows;
mod shown;
mod telling;

pub use chars::Source;
pub use finding::{Finding, Format, push_finding};
pub use folder::{Choice, Folder, Found, read_again};
pub use glob::{Glob, NO_ROOM, WrongGlob};
pub use in_place::{Unreplaced, replace};
pub use names::{UNNAMED, file_path};
pub use parting::{Line, Span, parted, push_line};
pub use path::{Step, push_step};
pub use place::place_of_byte;
pub use repeated::{RepeatedKey, push_repeated};
pub use rows::row_of;
pub use shown::{At, Shown};
pub use telling::push_fault;
