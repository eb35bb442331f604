//! What all members name: libyaml's enums, directives, marks, faults and tokens, and its macros for byte classes.
#![tactic(auto)]

mod breaks;
mod class;
mod default_width;
mod directive;
mod event_name;
mod fault;
mod indent;
mod memory;
mod name;
mod record;
mod state;
mod token;

pub use breaks::has_break;
pub use class::{
    AS_DIGIT, AS_HEX_AT, IS_ALPHA, IS_ASCII, IS_BLANK, IS_BLANKZ, IS_BOM, IS_BREAK, IS_BREAKZ,
    IS_CRLF, IS_DIGIT, IS_HEX_AT, IS_PRINTABLE, IS_SPACE, IS_TAB, IS_Z, WIDTH,
};
pub use default_width::DEFAULT_WIDTH;
pub use directive::{yaml_tag_directive_t, yaml_version_directive_t};
pub use event_name::{
    yaml_break_t, yaml_event_type_t, yaml_mapping_style_t, yaml_node_type_t, yaml_sequence_style_t,
};
pub use fault::{yaml_fault_t, yaml_origin_t};
pub use indent::DEFAULT_INDENT;
pub use memory::yaml_memory_fault;
pub use name::{yaml_encoding_t, yaml_error_type_t, yaml_scalar_style_t, yaml_token_type_t};
pub use record::{yaml_mark_t, yaml_simple_key_t};
pub use state::yaml_parser_state_t;
pub use token::{yaml_token_body_t, yaml_token_delete, yaml_token_t};
