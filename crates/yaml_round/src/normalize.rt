//! The normal form that people read.

ghost use Rattle.yaml_scan_model.specs.scan_types.Faults.{Answers};
ghost use Rattle.yaml_round_engine.specs.Layers.{reformat_layers};
ghost use Rattle.yaml_round_engine.specs.Answers.{bytes_of};
ghost use Rattle.yaml_round_engine.specs.Readable.{IsReadableAnswer};

use std::alloc::Global;
use yaml_round_device::yaml_settings_t;
use yaml_round_engine::{Form, OpeningPosition, written};
use yaml_scan_model::{yaml_encoding_t, yaml_fault_t};

/// The text in the normal form that people read: the pretty layout of the input's content, with styles that this alone
/// decides. It reads back. Inputs have the same normal form under the same settings exactly where
/// they have the same content, and it is its own normal form. `settings.canonical` isn't looked at.
///
/// Refusals: a fault of the input (kinds 2, 3 and 4), which comes before a limit; `write error` (kind 6) where the text
/// has more than `settings.limit` bytes; `indentation is too deep` (kind 7); out of memory (kind 1).
pub fn yaml_normalize(
    alloc: Global,
    input: &[u8],
    from: yaml_encoding_t,
    settings: &yaml_settings_t,
) -> Result<Vec<u8>, yaml_fault_t>
    ensures { Answers reformat_layers bytes_of
        (IsReadableAnswer from settings.now input.now) result }
{
    let mut form = Form::Readable(OpeningPosition::Before);
    match written(alloc, input, from, settings, &mut form) {
        Err(fault) => Err(fault),
        Ok(text) => Ok(text),
    }
}
