//! What the engine reads: an input's tokens as its parser takes them, its events, normalized, and the lines that describe them.
#![tactic(auto)]

mod adapter;
mod escapes;
mod event_line;
mod normalize;
mod reading;
mod refusal;
mod scanned;
mod side;
mod text;

pub use adapter::yaml_adapter_t;
pub use event_line::{yaml_push_event_line, yaml_push_event_line_ref};
pub use normalize::normalized;
pub use reading::{Reading, let_go, read_out, reading_of};
pub use side::yaml_side_t;
pub use text::{ReadText, let_text_go, read_text};
