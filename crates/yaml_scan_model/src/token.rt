//! Tokens, passed on.

pub use yaml_scan_types::{yaml_token_body_t, yaml_token_t};
