//! The numbers that the nodes of a document hold, for the walk.

ghost use Rattle.std.specs.Prelude.{◌≡◌};
ghost use Rattle.yaml_emit_graph.specs.Graph.{pair_ids};
ghost use Rattle.yaml_emit_graph.specs.Walk.{NextHeld, half_of};

use crate::walk::{Open, Walkable};
use yaml_parse_model::{
    yaml_document_get_node, yaml_document_t, yaml_node_body_t, yaml_node_pair_t,
};

/// The number at an index, if there are as many.
pub fn next_held(held: &[i32], index: usize) -> Option<i32>
    ensures { NextHeld held.now index result }
{
    held.get(index).copied()
}

// What pairs hold at a place, the key of each before its value.
#[tactic(auto, using(crate::proofs::Walking::pair_comes, crate::proofs::Walking::pair_none))]
fn next_in_pairs(pairs: &[yaml_node_pair_t], index: usize) -> Option<i32>
    ensures { NextHeld (pair_ids pairs.now) index result }
{
    if index / 2 < pairs.len() {
        let pair = pairs[index / 2];
        Some(half_of(pair, index % 2))
    } else {
        None
    }
}

fn half_of(pair: yaml_node_pair_t, half: usize) -> i32
    ensures { result ≡ half_of pair half }
{
    if half == 0 { pair.key } else { pair.value }
}

impl Walkable for yaml_document_t {
    ghost nodes = { λ d. d.nodes };

    fn count(&self) -> usize {
        self.node_count()
    }

    fn is_collection(&self, id: i32) -> bool {
        match yaml_document_get_node(self, id) {
            None => false,
            Some(node) => matches!(
                node.body,
                yaml_node_body_t::Sequence { .. } | yaml_node_body_t::Mapping { .. }
            ),
        }
    }

    fn next_child(&self, from: Open) -> Option<i32> {
        match yaml_document_get_node(self, from.node) {
            None => None,
            Some(node) => match &node.body {
                yaml_node_body_t::Sequence { items, .. } => next_held(items, from.index),
                yaml_node_body_t::Mapping { pairs, .. } => next_in_pairs(pairs, from.index),
                _ => None,
            },
        }
    }
}
