//! What records say of nodes.

ghost use Rattle.std.specs.Prelude.{◌≡◌, option_map};
ghost use Rattle.yaml_emit_graph.specs.Graph.{place_at};
ghost use Rattle.yaml_round_answers.specs.Graphs.{part, held_by, holds, is_node, are_nodes, record_in};

use crate::graph_record::{yaml_c_graph, yaml_c_node};
use yaml_emit_graph::place_of;

/// That many items of a list from a place on, where they lie within it.
#[tactic(auto, unfolding(crate::specs::Graphs::part))]
pub(crate) fn part_of<X>(list: &[X], first: u64, count: u64) -> Option<&[X]>
    ensures { option_map (λ t. t.now) result ≡ part list.now first count }
{
    list.get(first as usize..)?.get(..count as usize)
}

/// Whether a record is that of a collection.
#[tactic(auto, unfolding(crate::specs::Graphs::holds))]
pub(crate) fn holds_nodes(node: yaml_c_node) -> bool
    ensures { result ≡ holds node.kind }
{
    node.kind == 2 || node.kind == 3
}

/// What a record holds.
#[tactic(auto, unfolding(crate::specs::Graphs::held_by))]
pub(crate) fn held_by(list: &[i32], node: yaml_c_node) -> &[i32]
    ensures { result.now ≡ held_by list.now node }
{
    if !holds_nodes(node) {
        return &[];
    }
    part_of(list, node.first, node.count).unwrap_or(&[])
}

// Whether a record means a node.
#[tactic(auto, unfolding(crate::specs::Graphs::is_node))]
fn is_node(list: &[i32], node: yaml_c_node) -> bool
    ensures { result ≡ is_node list.now node }
{
    match node.kind {
        0 | 1 => true,
        2 | 3 => part_of(list, node.first, node.count).is_some(),
        _ => false,
    }
}

/// Whether each record means a node.
pub fn is_graph(graph: &yaml_c_graph) -> bool
    ensures { result ≡ are_nodes graph.now.held.now graph.now.nodes.now }
{
    graph.nodes.iter().all(|node| is_node(graph.held, *node))
}

/// The record of the node under a number, if it names one.
pub(crate) fn record_at(graph: &yaml_c_graph, id: i32) -> Option<yaml_c_node>
    ensures { result ≡ record_in graph.now.nodes.now (place_at id) }
{
    graph.nodes.get(place_of(id)?).copied()
}
