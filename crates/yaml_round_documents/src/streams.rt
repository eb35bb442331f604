//! The places at which the documents of two streams differ.

ghost use Rattle.std.specs.Prelude.{◌≡◌, ◌↔◌, ◌≤◌, ◌++◌, [], map, drop, IfOk, OnOk, length};
ghost use Rattle.yaml_round_documents.specs.Streams.{AreEqualStreams, AreStreamDifferences, TellsDocument, TellsTo, in_document, told_alone_from};

use crate::difference::{
    yaml_document_differences, yaml_node_cause_t, yaml_node_difference_t, yaml_node_differences_t,
};
use crate::walk::yaml_node_match_t;
use std::alloc::{AllocError, Global};
use std::collections::VecDeque;
use yaml_parse_model::yaml_document_t;

/// A difference of two documents.
#[derive(Clone, Copy, PartialEq, Eq, Debug)]
pub struct yaml_document_difference_t {
    /// The number of the documents, from 0.
    pub document: usize,
    /// The difference. Where one stream has the document alone, its numbers are 0.
    pub difference: yaml_node_difference_t,
}

/// In what the documents of two streams differ, and of each two the pairs that are compared.
#[derive(Drop)]
pub struct yaml_stream_differences_t {
    pub pairs: Vec<Vec<yaml_node_match_t>>,
    pub told: Vec<yaml_document_difference_t>,
}

// Tells the differences of a document.
#[tactic(auto, using(crate::proofs::Streaming::put_start, crate::proofs::Streaming::put_next, crate::proofs::Streaming::put_all))]
fn put_differences(
    told: &mut Vec<yaml_document_difference_t>,
    document: usize,
    differences: &[yaml_node_difference_t],
) -> Result<(), AllocError>
    ensures { OnOk result (told.new.items ≡ told.old.items
        ++ map (in_document document) differences.now) }
{
    for at in 0..differences.len() {
        told.push(yaml_document_difference_t {
            document,
            difference: differences[at],
        })?;
    }
    Ok(())
}

// Compares two documents.
fn tell_differences(
    alloc: Global,
    stream: &mut yaml_stream_differences_t,
    document: usize,
    first: &yaml_document_t,
    second: &yaml_document_t,
) -> Result<(), AllocError>
    ensures { OnOk result (TellsDocument document first.now.nodes second.now.nodes stream.old
        stream.new) }
{
    let yaml_node_differences_t { pairs, told } = yaml_document_differences(alloc, first, second)?;
    put_differences(&mut stream.told, document, &told)?;
    stream.pairs.push(pairs)?;
    Ok(())
}

// Tells the documents from a place on, which one stream has alone.
#[tactic(auto, using(crate::proofs::Streaming::rest_next, crate::proofs::Streaming::rest_all))]
fn tell_rest(
    told: &mut Vec<yaml_document_difference_t>,
    from: usize,
    documents: &VecDeque<yaml_document_t>,
    cause: yaml_node_cause_t,
) -> Result<(), AllocError>
    ensures { OnOk result (told.new.items ≡ told.old.items
        ++ told_alone_from cause from (drop from documents.now.items)) }
{
    for at in from..documents.len() {
        told.push(yaml_document_difference_t {
            document: at,
            difference: yaml_node_difference_t {
                pair: 0,
                first: 0,
                second: 0,
                cause,
                place: 0,
            },
        })?;
    }
    Ok(())
}

// Compares the documents that both have at one place.
#[tactic(auto, using(crate::proofs::Streaming::none_common))]
fn tell_common(
    alloc: Global,
    stream: &mut yaml_stream_differences_t,
    first: &VecDeque<yaml_document_t>,
    second: &VecDeque<yaml_document_t>,
    common: usize,
) -> Result<(), AllocError>
    requires first { common ≤ length first.now.items }
    requires second { common ≤ length second.now.items }
    ensures { OnOk result (TellsTo first.now.items second.now.items common stream.old
        stream.new) }
{
    for at in 0..common {
        tell_differences(alloc, stream, at, &first[at], &second[at])?;
    }
    Ok(())
}

// The differences of two streams.
#[tactic(auto, using(crate::proofs::Streaming::least))]
fn stream_differences(
    alloc: Global,
    first: &VecDeque<yaml_document_t>,
    second: &VecDeque<yaml_document_t>,
) -> Result<yaml_stream_differences_t, AllocError>
    ensures { IfOk result (λ d. AreStreamDifferences 0 first.now.items second.now.items
        d.pairs.items d.told.items) }
{
    let common = first.len().min(second.len());
    let mut stream = yaml_stream_differences_t {
        pairs: Vec::new(alloc),
        told: Vec::new(alloc),
    };
    tell_common(alloc, &mut stream, first, second, common)?;
    tell_rest(
        &mut stream.told,
        common,
        first,
        yaml_node_cause_t::OnlyFirst,
    )?;
    tell_rest(
        &mut stream.told,
        common,
        second,
        yaml_node_cause_t::OnlySecond,
    )?;
    Ok(stream)
}

/// Every place where the documents of two streams differ: the k-th are compared as
/// `yaml_document_differences` compares them, and those that one stream has alone are listed. The
/// list is empty exactly where the streams have as many documents, and these are equal. Directives
/// aren't compared.
#[tactic(auto, using(crate::proofs::Streaming::stream_equal))]
pub fn yaml_stream_differences(
    alloc: Global,
    first: &VecDeque<yaml_document_t>,
    second: &VecDeque<yaml_document_t>,
) -> Result<yaml_stream_differences_t, AllocError>
    ensures differences { IfOk result (λ d. AreStreamDifferences 0 first.now.items
        second.now.items d.pairs.items d.told.items) }
    ensures equal { IfOk result (λ d. (d.told.items ≡ []) ↔ AreEqualStreams first.now.items
        second.now.items) }
{
    match stream_differences(alloc, first, second) {
        Ok(differences) => Ok(differences),
        Err(refusal) => Err(refusal),
    }
}
