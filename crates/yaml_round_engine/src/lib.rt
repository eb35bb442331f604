//! What the engine's calls are made of: the events of an input laid out as a text, documents loaded and dumped, and inputs compared.
#![tactic(auto)]

mod beginning;
mod cause;
mod check;
mod compare;
mod content;
mod difference;
mod documents;
mod dump;
mod front;
mod known;
mod lines;
mod reload;
mod seen;
mod styles;
mod text;
mod trail;
mod writing;

pub use beginning::Beginning;
pub use cause::yaml_cause_t;
pub use check::load_out;
pub use compare::same_inputs;
pub use difference::{yaml_difference_t, yaml_step_t};
pub use documents::same_documents;
pub use front::Front;
pub use lines::lines_of;
pub use reload::{documents_of, let_documents_go, next_document, written_documents};
pub use seen::place_behind;
pub use styles::OpeningPosition;
pub use text::{in_pretty_form, written};
pub use trail::Trail;
pub use writing::Form;
pub use yaml_round_reading::{
    ReadText, Reading, let_go, let_text_go, read_text, reading_of, yaml_adapter_t, yaml_side_t,
};
