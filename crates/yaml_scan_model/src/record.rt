//! The plain records, passed on.

pub use yaml_scan_types::{
    yaml_mark_t, yaml_simple_key_t, yaml_tag_directive_t, yaml_version_directive_t,
};
