//! What is round the engine: its settings, the devices of a run, the reading of an input to its end, the writing of
//! a text, and the line that reports a fault.
#![tactic(auto)]

mod device;
mod fault_line;
mod form;
mod line;
mod putting;
mod read_all;
mod reading;
mod run_fault;
mod settings;
mod std_device;
mod trying;
mod write_all;

pub use device::{yaml_device_fault_t, yaml_input_t, yaml_output_t};
pub use fault_line::yaml_fault_line;
pub use form::{yaml_command_t, yaml_form_t, yaml_output_encoding_t};
pub use line::{headline, line_of};
pub use putting::put_all;
pub use read_all::yaml_read_all;
pub use reading::{Cause, read_to_end, told};
pub use run_fault::yaml_run_fault_t;
pub use settings::{DEFAULT_LIMIT, yaml_settings_t};
pub use std_device::{yaml_std_input_t, yaml_std_output_t};
pub use trying::{flush_tried_again, read_tried_again, write_tried_again};
pub use write_all::yaml_write_all;
