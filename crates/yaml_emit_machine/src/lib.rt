//! An emitter over what it holds: what a call takes, which fault it has, the events of a dump.
#![tactic(auto)]

mod emitter;
mod fault;
mod held;
mod law;
mod name;
mod release;

pub use emitter::{
    answer, directives, dump_document, first_fault, into_output, is_closed, is_fresh, is_opened,
    let_go, new_emitter, outer, output, requested_settings, resumed, set_closed, set_opened,
    set_requested_settings, stand, take_event, take_soon, yaml_emitter_t,
};
pub use law::{streams_are_laid, streams_pass};
pub use name::yaml_emitter_state_t;
pub use yaml_emit_core::yaml_emitter_stand_t;
pub use yaml_emit_layout::{Cursor, Encoding, Expected, Level, Phase, RequestedSettings};
// What its calls name, so that the member needs no other crate: each further one is read again by every check of the member.
pub use yaml_parse_model::{
    EventRef, yaml_document_delete, yaml_document_t, yaml_event_body_t, yaml_event_t,
};
pub use yaml_scan_model::{
    yaml_break_t, yaml_encoding_t, yaml_fault_t, yaml_memory_fault, yaml_origin_t,
    yaml_tag_directive_t,
};
