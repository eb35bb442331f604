//! Why a key can't be looked up.

ghost use Rattle.yaml_cli_lookup.specs.Errors.{IsErrorOf};

use yaml_scan::{yaml_error_type_t, yaml_fault_t};

/// Why a key can't be looked up.
#[derive(Clone, Copy)]
pub enum LookupError {
    /// The first document isn't read to its end: the fault that is met first, with its places.
    Unreadable(yaml_fault_t),
    /// There is no document, or its root isn't a mapping.
    NotAMapping,
    /// Memory was refused while the first document was read: the fault names the layer.
    OutOfMemory(yaml_fault_t),
    /// Memory was refused for the copy of the value.
    CopyRefused,
}

/// The error that a load's fault is.
pub(crate) fn error_of(fault: yaml_fault_t) -> LookupError
    ensures { IsErrorOf fault result }
{
    match fault.kind {
        yaml_error_type_t::YAML_MEMORY_ERROR => LookupError::OutOfMemory(fault),
        _ => LookupError::Unreadable(fault),
    }
}
