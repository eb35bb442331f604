//! The enums, re-exported.

pub use yaml_scan_types::{
    yaml_break_t, yaml_encoding_t, yaml_error_type_t, yaml_event_type_t, yaml_mapping_style_t,
    yaml_node_type_t, yaml_scalar_style_t, yaml_sequence_style_t, yaml_token_type_t,
};
