//! What all other crates are built on: marks, tokens, faults, the byte classes, the scanner's problems, and tokens as a parser takes them.
#![tactic(auto)]

mod character;
pub mod fault;
mod kind;
pub mod name;
mod problem;
pub mod record;
pub mod token;
mod tokens;

pub use character::starts;
pub use fault::{yaml_fault_t, yaml_origin_t};
pub use kind::Kind;
pub use name::{
    yaml_break_t, yaml_encoding_t, yaml_error_type_t, yaml_event_type_t, yaml_mapping_style_t,
    yaml_node_type_t, yaml_scalar_style_t, yaml_sequence_style_t, yaml_token_type_t,
};
pub use problem::{Context, Problem, ScanFault};
pub use record::{yaml_mark_t, yaml_simple_key_t, yaml_tag_directive_t, yaml_version_directive_t};
pub use token::{yaml_token_body_t, yaml_token_t};
pub use tokens::Tokens;
pub use yaml_scan_types::{
    DEFAULT_INDENT, DEFAULT_WIDTH, yaml_memory_fault, yaml_parser_state_t, yaml_token_delete,
};
