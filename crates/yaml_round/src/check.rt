//! Whether an input loads.

ghost use Rattle.yaml_scan_model.specs.scan_types.Faults.{Answers, load_layers};
ghost use Rattle.yaml_round_engine.specs.Checking.{IsChecked};

use std::alloc::Global;
use yaml_round_engine::load_out;
use yaml_scan_model::{yaml_encoding_t, yaml_fault_t};

/// Whether the input's documents load, as `yaml_reload` loads them: accepted exactly where they do, refused with the same
/// fault otherwise (kinds 2 to 5), or when out of memory (kind 1). No text is made and no document: the names of a document's
/// anchors are held to its end.
pub fn yaml_check(alloc: Global, input: &[u8], from: yaml_encoding_t) -> Result<(), yaml_fault_t>
    ensures { Answers load_layers (λ done. done) (IsChecked from input.now) result }
{
    match load_out(alloc, input, from) {
        Ok(()) => Ok(()),
        Err(fault) => Err(fault),
    }
}
