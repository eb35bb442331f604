//! The line that reports a fault.

ghost use Rattle.std.specs.Prelude.{◌≡◌, IfOk, IfErr};
ghost use Rattle.yaml_scan_types.specs.Faults.{fault_of, memory_fault};
ghost use Rattle.yaml_round_device.specs.FaultLine.{fault_line};

use crate::line_of;
use std::alloc::Global;
use yaml_scan_types::{yaml_fault_t, yaml_memory_fault, yaml_origin_t};

/// The line that reports a fault, without its end: `K error`, K the kind's word; for all kinds but out of memory then the
/// context and its place, where there is one, the problem, and for kinds 3 to 5 the problem's place, for kind 2 the
/// byte's. Lines and columns count from 1, bytes from 0. A refused growth is a fault of memory, origin `Writer`.
pub fn yaml_fault_line(alloc: Global, fault: &yaml_fault_t) -> Result<Vec<u8>, yaml_fault_t>
    ensures text { IfOk result (λ text. text.items ≡ fault_line (fault_of fault.now)) }
    ensures memory { IfErr result (λ refusal. fault_of refusal ≡ memory_fault
        yaml_origin_t.Writer) }
{
    match line_of(alloc, fault) {
        Ok(line) => Ok(line.into_bytes()),
        Err(_) => Err(yaml_memory_fault(yaml_origin_t::Writer)),
    }
}
