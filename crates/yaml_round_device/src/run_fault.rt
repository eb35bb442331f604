//! Why a run over devices was refused.

use yaml_scan_types::yaml_fault_t;

/// Why a run, or the reading of an input, was refused.
#[derive(Clone, Copy, PartialEq, Eq, Debug)]
pub enum yaml_run_fault_t {
    /// The input has failed. Nothing was written.
    Read,
    /// The input has more bytes than the limit. Nothing was written.
    TooLong,
    /// The input was refused, or memory was. Nothing was written.
    Yaml(yaml_fault_t),
    /// The output has failed. It has received the text's first `written` bytes.
    Write { written: u64 },
}
