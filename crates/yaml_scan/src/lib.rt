//! Decoding, tokens and their faults: libyaml's reader and scanner.
#![tactic(auto)]

mod known;
mod laws;
mod reading;
mod session;

pub use laws::{settled_is_told, tokens_look_back};
pub use session::{
    yaml_parser_end, yaml_parser_fault, yaml_parser_has_token, yaml_parser_peek, yaml_parser_scan,
    yaml_parser_skip, yaml_parser_t,
};
pub use yaml_scan_decode::{yaml_decode, yaml_text_t};
pub use yaml_scan_model::{
    yaml_break_t, yaml_encoding_t, yaml_error_type_t, yaml_event_type_t, yaml_fault_t,
    yaml_mapping_style_t, yaml_mark_t, yaml_memory_fault, yaml_node_type_t, yaml_origin_t,
    yaml_scalar_style_t, yaml_sequence_style_t, yaml_simple_key_t, yaml_tag_directive_t,
    yaml_token_body_t, yaml_token_delete, yaml_token_t, yaml_token_type_t,
    yaml_version_directive_t,
};
pub use yaml_scan_types::{
    AS_DIGIT, AS_HEX_AT, IS_ALPHA, IS_ASCII, IS_BLANK, IS_BLANKZ, IS_BOM, IS_BREAK, IS_BREAKZ,
    IS_CRLF, IS_DIGIT, IS_HEX_AT, IS_PRINTABLE, IS_SPACE, IS_TAB, IS_Z, WIDTH,
};
