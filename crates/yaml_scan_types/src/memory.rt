//! The fault of a growth that was refused.

ghost use Rattle.std.specs.Prelude.{◌≡◌};
ghost use Rattle.yaml_scan_types.specs.Faults.{fault_of, memory_fault};

use crate::{yaml_error_type_t, yaml_fault_t, yaml_mark_t, yaml_origin_t};

/// The fault of a growth that was refused, in that layer.
pub fn yaml_memory_fault(origin: yaml_origin_t) -> yaml_fault_t
    ensures { fault_of result ≡ memory_fault origin }
{
    let zero = yaml_mark_t {
        index: 0,
        line: 0,
        column: 0,
    };
    yaml_fault_t {
        kind: yaml_error_type_t::YAML_MEMORY_ERROR,
        problem: "out of memory",
        offset: 0,
        value: 0,
        problem_mark: zero,
        context: None,
        context_mark: zero,
        origin,
    }
}
