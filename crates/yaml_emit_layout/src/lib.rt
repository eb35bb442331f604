//! The layouts that an emitter writes, canonical and pretty, and the lists of events that it takes.
//!
//! Definitions, the types that they speak of, and laws: `specs/` says what is written, `proofs/` that laying out one event
//! after another gives it.
#![tactic(auto)]

mod cursor;
mod laws;
mod level;
mod page;
mod problem;
mod settings;
mod split;

pub use cursor::{Cursor, Status};
pub use laws::{quoted_spells, utf8_encodes};
pub use level::{Expected, Level, NodePosition, Part, Phase};
pub use page::{Allowed, Chomp, Page, Seen, Style};
pub use problem::{Problem, problem_text};
pub use settings::{Encoding, LineBreak, RequestedSettings, Settings, settled};
pub use split::SplitTag;
