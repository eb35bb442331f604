//! Faults, re-exported.

pub use yaml_scan_types::{yaml_fault_t, yaml_origin_t};
