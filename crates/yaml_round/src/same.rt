//! The comparison of two inputs.

ghost use Rattle.yaml_round_engine.specs.Answers.{IsSame};

use std::alloc::Global;
use yaml_round_engine::{Trail, same_inputs, yaml_side_t};
use yaml_scan_model::{yaml_encoding_t, yaml_fault_t};

/// Whether two inputs have the same content: their documents' versions, directives, nodes, anchors, tags and values, and of
/// untagged scalars whether they are plain; styles, marks and comments aside. A refused first input is answered first, by
/// its side and its fault (kinds 1 to 4); the second is reported only where the first is accepted.
pub fn yaml_same(
    alloc: Global,
    a: &[u8],
    a_encoding: yaml_encoding_t,
    b: &[u8],
    b_encoding: yaml_encoding_t,
) -> Result<bool, (yaml_side_t, yaml_fault_t)>
    ensures { IsSame a_encoding a.now b_encoding b.now result }
{
    let mut trail = Trail::new(alloc);
    // Arms that change nothing: the edits of this call change one each.
    match same_inputs(alloc, a, a_encoding, b, b_encoding, &mut trail, false) {
        Ok(same) => Ok(same),
        Err((side, fault)) => Err((side, fault)),
    }
}
