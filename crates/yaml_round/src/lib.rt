//! The engine: it reads a YAML text whole and writes it again in canonical or pretty form, over slices or over devices.
#![tactic(auto)]

mod check;
mod check_keys;
mod diff;
mod differences;
mod engine;
mod normalize;
mod reload;
mod run;
mod same;

pub use check::yaml_check;
pub use check_keys::yaml_check_keys;
pub use diff::{yaml_diff, yaml_diff_documents};
pub use differences::{yaml_differences, yaml_differences_t};
pub use engine::{yaml_events, yaml_reformat};
pub use normalize::yaml_normalize;
pub use reload::yaml_reload;
pub use run::yaml_run;
pub use same::yaml_same;
pub use yaml_round_device::{
    DEFAULT_LIMIT, yaml_command_t, yaml_device_fault_t, yaml_fault_line, yaml_form_t, yaml_input_t,
    yaml_output_encoding_t, yaml_output_t, yaml_read_all, yaml_run_fault_t, yaml_settings_t,
    yaml_std_input_t, yaml_std_output_t, yaml_write_all,
};
pub use yaml_round_documents::{
    yaml_document_difference_t, yaml_document_get_node, yaml_document_t, yaml_node_body_t,
    yaml_node_cause_t, yaml_node_difference_t, yaml_node_match_t, yaml_node_t, yaml_same_key_t,
};
pub use yaml_round_engine::{
    yaml_adapter_t, yaml_cause_t, yaml_difference_t, yaml_side_t, yaml_step_t,
};
pub use yaml_scan_model::{
    DEFAULT_INDENT, DEFAULT_WIDTH, yaml_break_t, yaml_encoding_t, yaml_error_type_t,
    yaml_event_type_t, yaml_fault_t, yaml_mark_t, yaml_memory_fault, yaml_origin_t,
};
