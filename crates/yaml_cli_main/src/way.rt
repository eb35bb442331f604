//! The way to nodes that are compared.

use std::alloc::{AllocError, Global};
use yaml_cli_program::{Step, push_step};
use yaml_round::{yaml_document_get_node, yaml_document_t, yaml_node_body_t, yaml_node_match_t};

/// What a node is, if there is one of that number.
pub(crate) fn body_of(document: &yaml_document_t, id: i32) -> Option<&yaml_node_body_t> {
    Some(&yaml_document_get_node(document, id)?.body)
}

// The step to the value of a pair, by its key.
fn step_by(document: &yaml_document_t, key: i32, place: u64) -> Step<'_> {
    match body_of(document, key) {
        Some(yaml_node_body_t::Scalar { value, .. }) => Step::Named(value.as_slice()),
        _ => Step::Value(place),
    }
}

/// Adds the step to what a node holds at a place.
pub(crate) fn push_held(
    path: &mut String,
    document: &yaml_document_t,
    holder: i32,
    place: usize,
) -> Result<(), AllocError> {
    let number = place as u64;
    let step = match body_of(document, holder) {
        Some(yaml_node_body_t::Mapping { pairs, .. }) => match pairs.get(place) {
            Some(pair) => step_by(document, pair.key, number),
            None => Step::Value(number),
        },
        _ => Step::Item(number),
    };
    push_step(path, step)
}

// The pairs from one outwards, without that of the roots.
fn way_from(
    alloc: Global,
    pairs: &[yaml_node_match_t],
    at: usize,
) -> Result<Vec<yaml_node_match_t>, AllocError> {
    let mut way = Vec::new(alloc);
    let mut number = at;
    for _ in 0..pairs.len() {
        match pairs.get(number) {
            Some(pair) if number > 0 => {
                way.push(*pair)?;
                number = pair.holder;
            }
            _ => break,
        }
    }
    Ok(way)
}

/// Adds the steps to the pair of a number, in the first document.
pub(crate) fn push_way(
    alloc: Global,
    path: &mut String,
    first: &yaml_document_t,
    pairs: &[yaml_node_match_t],
    at: usize,
) -> Result<(), AllocError> {
    let way = way_from(alloc, pairs, at)?;
    for pair in way.iter().rev() {
        let holder = pairs.get(pair.holder).map_or(0, |holder| holder.first);
        push_held(path, first, holder, pair.place)?;
    }
    Ok(())
}
