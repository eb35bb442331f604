//! Where two inputs differ.

ghost use Rattle.yaml_round_engine.specs.Differences.{IsDiff};
ghost use Rattle.yaml_round_engine.specs.Loaded.{IsDocumentsDiff};

use std::alloc::Global;
use yaml_round_engine::{
    Front, Trail, documents_of, let_documents_go, place_behind, same_documents, same_inputs,
    yaml_difference_t, yaml_side_t,
};
use yaml_scan_model::{yaml_encoding_t, yaml_fault_t, yaml_memory_fault, yaml_origin_t};

/// The first place at which the contents of two inputs differ: before it both have the same
/// content, event by event, and their next events differ. `None` exactly where `yaml_same` returns
/// true. Refusals are those of `yaml_same`, with kinds 1 to 4 and the side: the first input's fault
/// first, also where the contents differ before a fault.
pub fn yaml_diff(
    alloc: Global,
    a: &[u8],
    a_encoding: yaml_encoding_t,
    b: &[u8],
    b_encoding: yaml_encoding_t,
) -> Result<Option<yaml_difference_t>, (yaml_side_t, yaml_fault_t)>
    ensures { IsDiff a_encoding a.now b_encoding b.now result }
{
    let mut trail = Trail::new(alloc);
    match same_inputs(alloc, a, a_encoding, b, b_encoding, &mut trail, true) {
        Ok(true) => Ok(None),
        Ok(false) => Ok(Some(trail.place)),
        Err(refusal) => Err(refusal),
    }
}

/// The first place at which the loaded documents of two inputs differ; `None` exactly where they
/// agree, as `yaml_reload` compares them: version and directives, and under each number the same
/// kind, tag and value, and the same numbers of what it holds, so that names of anchors and
/// untagged quoting don't count, but sharing and cycles do. Before the place both dumps are the
/// same, event by event; a node that is met again has an anchor in its dump. Its marks and kinds
/// are those of the inputs' events. Refusals are those of `yaml_reload`, with kinds 1 to 5 and the
/// side: the first input's fault first.
pub fn yaml_diff_documents(
    alloc: Global,
    a: &[u8],
    a_encoding: yaml_encoding_t,
    b: &[u8],
    b_encoding: yaml_encoding_t,
) -> Result<Option<yaml_difference_t>, (yaml_side_t, yaml_fault_t)>
    ensures { IsDocumentsDiff a_encoding a.now b_encoding b.now result }
{
    match documents_of(alloc, a, a_encoding) {
        Err(fault) => Err((yaml_side_t::First, fault)),
        Ok(mut first) => match documents_of(alloc, b, b_encoding) {
            Err(fault) => {
                let_documents_go(first);
                Err((yaml_side_t::Second, fault))
            }
            Ok(mut second) => {
                let mut front = Front::new(alloc);
                let answer = same_documents(alloc, &mut first, &mut second, &mut front);
                let_documents_go(first);
                let_documents_go(second);
                match answer {
                    Err(_) => Err((yaml_side_t::First, yaml_memory_fault(yaml_origin_t::Loader))),
                    Ok(true) => Ok(None),
                    Ok(false) => match place_behind(alloc, a, a_encoding, b, b_encoding, front) {
                        Err(fault) => Err(fault),
                        Ok(place) => Ok(Some(place)),
                    },
                }
            }
        },
    }
}
