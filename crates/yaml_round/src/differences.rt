//! Every place where two inputs differ.

ghost use Rattle.std.specs.Prelude.{◌≡◌, ◌↔◌, [], None, true, false, IfOk};
ghost use Rattle.yaml_round.specs.AllDifferences.{AreAlike, AreDifferences, ArePlaces, IsComparison, TellsNothing};

use crate::diff::yaml_diff;
use std::alloc::Global;
use std::collections::VecDeque;
use yaml_round_documents::{
    yaml_document_difference_t, yaml_document_t, yaml_node_match_t, yaml_stream_differences,
    yaml_stream_differences_t,
};
use yaml_round_engine::{documents_of, let_documents_go, yaml_difference_t, yaml_side_t};
use yaml_scan_model::{yaml_encoding_t, yaml_fault_t, yaml_memory_fault, yaml_origin_t};

/// Documents of two inputs, and in what the inputs differ.
#[derive(Drop)]
pub struct yaml_differences_t {
    /// The documents of the first input; none are kept where the contents are equal.
    pub first: VecDeque<yaml_document_t>,
    /// Those of the second one.
    pub second: VecDeque<yaml_document_t>,
    /// Of the documents that both have, the pairs of nodes that are compared.
    pub pairs: Vec<Vec<yaml_node_match_t>>,
    /// In what the documents differ.
    pub told: Vec<yaml_document_difference_t>,
    /// The first place where the contents part, where these are compared.
    pub content: Option<yaml_difference_t>,
}

// The documents of two inputs, compared.
fn compared(
    alloc: Global,
    first: VecDeque<yaml_document_t>,
    second: VecDeque<yaml_document_t>,
) -> Result<yaml_differences_t, (yaml_side_t, yaml_fault_t)>
    ensures { IsComparison first.items second.items result }
{
    match yaml_stream_differences(alloc, &first, &second) {
        Ok(yaml_stream_differences_t { pairs, told }) => Ok(yaml_differences_t {
            first,
            second,
            pairs,
            told,
            content: None,
        }),
        Err(_) => {
            let_documents_go(first);
            let_documents_go(second);
            Err((yaml_side_t::First, yaml_memory_fault(yaml_origin_t::Loader)))
        }
    }
}

// The documents of two inputs, and in what they differ.
fn document_differences(
    alloc: Global,
    a: &[u8],
    a_encoding: yaml_encoding_t,
    b: &[u8],
    b_encoding: yaml_encoding_t,
) -> Result<yaml_differences_t, (yaml_side_t, yaml_fault_t)>
    ensures { AreDifferences a_encoding a.now b_encoding b.now true result }
{
    match documents_of(alloc, a, a_encoding) {
        Err(fault) => Err((yaml_side_t::First, fault)),
        Ok(first) => match documents_of(alloc, b, b_encoding) {
            Err(fault) => {
                let_documents_go(first);
                Err((yaml_side_t::Second, fault))
            }
            Ok(second) => compared(alloc, first, second),
        },
    }
}

// The same, with the place where the contents part.
#[tactic(auto, using(crate::proofs::Differing::with_place))]
fn parted(
    alloc: Global,
    a: &[u8],
    a_encoding: yaml_encoding_t,
    b: &[u8],
    b_encoding: yaml_encoding_t,
    place: yaml_difference_t,
) -> Result<yaml_differences_t, (yaml_side_t, yaml_fault_t)>
    ensures { ArePlaces a_encoding a.now b_encoding b.now place result }
{
    match document_differences(alloc, a, a_encoding, b, b_encoding) {
        Err(refusal) => Err(refusal),
        Ok(differences) => {
            let yaml_differences_t {
                first,
                second,
                pairs,
                told,
                content: _,
            } = differences;
            Ok(yaml_differences_t {
                first,
                second,
                pairs,
                told,
                content: Some(place),
            })
        }
    }
}

// Nothing differs.
fn none_differ(alloc: Global) -> yaml_differences_t
    ensures nothing { TellsNothing result }
    ensures content { result.content ≡ None }
{
    yaml_differences_t {
        first: VecDeque::new(alloc),
        second: VecDeque::new(alloc),
        pairs: Vec::new(alloc),
        told: Vec::new(alloc),
        content: None,
    }
}

// Where the contents of two inputs part, and in what their documents differ.
#[tactic(auto, using(crate::proofs::Differing::none_parted, crate::proofs::Differing::all_parted))]
fn content_differences(
    alloc: Global,
    a: &[u8],
    a_encoding: yaml_encoding_t,
    b: &[u8],
    b_encoding: yaml_encoding_t,
) -> Result<yaml_differences_t, (yaml_side_t, yaml_fault_t)>
    ensures { AreDifferences a_encoding a.now b_encoding b.now false result }
{
    match yaml_diff(alloc, a, a_encoding, b, b_encoding) {
        Err(refusal) => Err(refusal),
        Ok(None) => Ok(none_differ(alloc)),
        Ok(Some(place)) => parted(alloc, a, a_encoding, b, b_encoding, place),
    }
}

// Where two inputs differ.
fn differences_of(
    alloc: Global,
    a: &[u8],
    a_encoding: yaml_encoding_t,
    b: &[u8],
    b_encoding: yaml_encoding_t,
    documents: bool,
) -> Result<yaml_differences_t, (yaml_side_t, yaml_fault_t)>
    ensures { AreDifferences a_encoding a.now b_encoding b.now documents result }
{
    if documents {
        document_differences(alloc, a, a_encoding, b, b_encoding)
    } else {
        content_differences(alloc, a, a_encoding, b, b_encoding)
    }
}

/// Every place where two inputs differ, by their contents or by their `documents` alone. Nothing is
/// listed, of documents or of contents, exactly where these are equal.
///
/// Documents are those that `yaml_reload` loads. The k-th are compared as `yaml_document_differences` compares them, and each that
/// one input has alone is listed. Refusals are those of `yaml_diff_documents`.
///
/// Contents differ where documents do, and in what documents don't keep: quotes, anchors, directives. `content` is what `yaml_diff`
/// answers, and refusals are those of `yaml_diff`. Where the contents part, the documents are loaded and compared, and may be
/// refused, as above; where they are equal, no document is loaded.
#[tactic(auto, using(crate::proofs::Differing::none_told))]
pub fn yaml_differences(
    alloc: Global,
    a: &[u8],
    a_encoding: yaml_encoding_t,
    b: &[u8],
    b_encoding: yaml_encoding_t,
    documents: bool,
) -> Result<yaml_differences_t, (yaml_side_t, yaml_fault_t)>
    ensures differ { AreDifferences a_encoding a.now b_encoding b.now documents result }
    ensures none { IfOk result (λ d. ((d.told.items ≡ []) × (d.content ≡ None))
        ↔ AreAlike a_encoding a.now b_encoding b.now documents) }
{
    // Arms that change nothing: the edits of this call change one each.
    match differences_of(alloc, a, a_encoding, b, b_encoding, documents) {
        Ok(differences) => Ok(differences),
        Err(refusal) => Err(refusal),
    }
}
