//! Documents loaded and written again.

ghost use Rattle.yaml_scan_model.specs.scan_types.Faults.{Answers};
ghost use Rattle.yaml_round_engine.specs.Layers.{reload_layers};
ghost use Rattle.yaml_round_engine.specs.Answers.{bytes_of};
ghost use Rattle.yaml_round_engine.specs.Reload.{IsReloaded};

use std::alloc::Global;
use yaml_round_device::yaml_settings_t;
use yaml_round_engine::{documents_of, let_documents_go, written_documents};
use yaml_scan_model::{yaml_encoding_t, yaml_fault_t};

/// The input's documents, loaded and written in canonical form: nodes with two visits or more have anchors by number, tags
/// are written, and no document's end is explicit. `settings.canonical` isn't looked at. Also refused, with kind 5, where
/// an alias names no node before it; a repeated anchor names the later node. All documents are loaded before one is
/// written, so a fault of the input comes first.
pub fn yaml_reload(
    alloc: Global,
    input: &[u8],
    from: yaml_encoding_t,
    settings: &yaml_settings_t,
) -> Result<Vec<u8>, yaml_fault_t>
    ensures { Answers reload_layers bytes_of (IsReloaded from settings.now input.now) result }
{
    match documents_of(alloc, input, from) {
        Err(fault) => Err(fault),
        Ok(mut documents) => {
            let answer = written_documents(alloc, settings, &mut documents);
            let_documents_go(documents);
            answer
        }
    }
}
