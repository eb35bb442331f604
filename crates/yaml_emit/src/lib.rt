//! Events and documents to text: libyaml's emitter and dumper.
#![tactic(auto)]

mod dump;
mod emitter;
mod resume;

pub use dump::{yaml_emitter_close, yaml_emitter_dump, yaml_emitter_open};
pub use emitter::{
    yaml_emitter_delete, yaml_emitter_emit, yaml_emitter_emit_ref, yaml_emitter_emit_soon,
    yaml_emitter_fault, yaml_emitter_flush, yaml_emitter_fresh, yaml_emitter_initialize,
    yaml_emitter_into_output, yaml_emitter_opened, yaml_emitter_output, yaml_emitter_set_break,
    yaml_emitter_set_canonical, yaml_emitter_set_encoding, yaml_emitter_set_indent,
    yaml_emitter_set_unicode, yaml_emitter_set_width,
};
pub use resume::{
    yaml_emitter_directives, yaml_emitter_outer, yaml_emitter_resume, yaml_emitter_stand,
};
pub use yaml_emit_machine::{
    Cursor, Encoding, EventRef, Expected, Level, Phase, RequestedSettings, streams_pass,
    yaml_emitter_stand_t, yaml_emitter_state_t, yaml_emitter_t,
};
