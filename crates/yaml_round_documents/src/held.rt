//! What a node holds.

ghost use Rattle.std.specs.Prelude.{◌≡◌, ◌++◌, [], map, IfOk, OnOk};
ghost use Rattle.yaml_emit_graph.specs.Graph.{body_of_id, number_at};
ghost use Rattle.yaml_round_documents.specs.Pairs.{held_values, key_labels, places_from};

use crate::shape::{narrowed, rank_of};
use std::alloc::{AllocError, Global};
use yaml_parse_model::{
    yaml_document_get_node, yaml_document_t, yaml_node_body_t, yaml_node_pair_t,
};

/// Of what a node holds the labels by which it is matched, and the numbers of the nodes: items, or
/// the values of pairs.
#[derive(Drop)]
pub struct Held {
    pub labels: Vec<u32>,
    pub values: Vec<i32>,
}

// The places of items.
#[tactic(auto, using(crate::proofs::Holding::places_next, crate::proofs::Holding::all_places))]
fn place_labels(alloc: Global, items: &[i32]) -> Result<Vec<u32>, AllocError>
    ensures { IfOk result (λ labels. labels.items ≡ places_from 0 items.now) }
{
    let mut labels = Vec::new(alloc);
    for at in 0..items.len() {
        labels.push(narrowed(at)?)?;
    }
    Ok(labels)
}

// The items of a sequence.
fn held_items(alloc: Global, items: &[i32]) -> Result<Held, AllocError>
    ensures labels { IfOk result (λ h. h.labels.items ≡ places_from 0 items.now) }
    ensures values { IfOk result (λ h. h.values.items ≡ items.now) }
{
    let labels = place_labels(alloc, items)?;
    let values = Vec::from_slice(alloc, items)?;
    Ok(Held { labels, values })
}

// The labels of the keys of pairs.
#[tactic(auto, using(crate::proofs::Holding::mapped_next, crate::proofs::Holding::all_mapped))]
fn label_keys(
    alloc: Global,
    labels: &[u32],
    pairs: &[yaml_node_pair_t],
) -> Result<Vec<u32>, AllocError>
    ensures { IfOk result (λ keys. keys.items
        ≡ map (λ p. number_at labels.now p.key) pairs.now) }
{
    let mut keys = Vec::new(alloc);
    for at in 0..pairs.len() {
        keys.push(rank_of(labels, pairs[at].key))?;
    }
    Ok(keys)
}

// The values of pairs.
#[tactic(auto, using(crate::proofs::Holding::mapped_next, crate::proofs::Holding::all_mapped))]
fn values_of(alloc: Global, pairs: &[yaml_node_pair_t]) -> Result<Vec<i32>, AllocError>
    ensures { IfOk result (λ values. values.items ≡ map (λ p. p.value) pairs.now) }
{
    let mut values = Vec::new(alloc);
    for at in 0..pairs.len() {
        values.push(pairs[at].value)?;
    }
    Ok(values)
}

// The pairs of a mapping.
fn held_pairs(alloc: Global, labels: &[u32], pairs: &[yaml_node_pair_t]) -> Result<Held, AllocError>
    ensures labels { IfOk result (λ h. h.labels.items
        ≡ map (λ p. number_at labels.now p.key) pairs.now) }
    ensures values { IfOk result (λ h. h.values.items ≡ map (λ p. p.value) pairs.now) }
{
    let keys = label_keys(alloc, labels, pairs)?;
    let values = values_of(alloc, pairs)?;
    Ok(Held {
        labels: keys,
        values,
    })
}

// Nothing is held.
fn none_held(alloc: Global) -> Held
    ensures labels { result.labels.items ≡ [] }
    ensures values { result.values.items ≡ [] }
{
    Held {
        labels: Vec::new(alloc),
        values: Vec::new(alloc),
    }
}

/// What a node holds, by the labels of its document's nodes.
pub fn held_of(
    alloc: Global,
    document: &yaml_document_t,
    labels: &[u32],
    id: i32,
) -> Result<Held, AllocError>
    ensures labels { IfOk result (λ h. h.labels.items
        ≡ key_labels (number_at labels.now) (body_of_id document.now.nodes id)) }
    ensures values { IfOk result (λ h. h.values.items
        ≡ held_values (body_of_id document.now.nodes id)) }
{
    match yaml_document_get_node(document, id) {
        None => Ok(none_held(alloc)),
        Some(node) => match &node.body {
            yaml_node_body_t::Sequence { items, .. } => held_items(alloc, items),
            yaml_node_body_t::Mapping { pairs, .. } => held_pairs(alloc, labels, pairs),
            yaml_node_body_t::No => Ok(none_held(alloc)),
            yaml_node_body_t::Scalar { .. } => Ok(none_held(alloc)),
        },
    }
}
