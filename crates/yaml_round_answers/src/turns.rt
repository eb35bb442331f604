//! The turns of a dump as records.

ghost use Rattle.std.specs.Prelude.{◌≡◌, IfOk};
ghost use Rattle.yaml_round_answers.specs.Graphs.{kind_at};
ghost use Rattle.yaml_round_answers.specs.Turns.{opening_kind, closing_kind, turn_by, turns_by};

use crate::graph::record_at;
use crate::graph_record::{yaml_c_graph, yaml_c_turn};
use std::alloc::{AllocError, Global};
use yaml_emit_graph::{Turn, Walked, number_of, walk_nodes};

// The kind of the node under a number; 0 where it names none.
fn kind_at(graph: &yaml_c_graph, id: i32) -> i32
    ensures { result ≡ kind_at graph.now id }
{
    record_at(graph, id).map_or(0, |node| node.kind)
}

// The kind of the event with which a node of a kind begins: one without a kind is an empty scalar.
#[tactic(auto, unfolding(crate::specs::Turns::opening_kind))]
fn opening_kind(kind: i32) -> i32
    ensures { result ≡ opening_kind kind }
{
    match kind {
        2 => 7,
        3 => 9,
        _ => 6,
    }
}

// The kind of the event with which a collection of a kind ends.
#[tactic(auto, unfolding(crate::specs::Turns::closing_kind))]
fn closing_kind(kind: i32) -> i32
    ensures { result ≡ closing_kind kind }
{
    match kind {
        2 => 8,
        _ => 10,
    }
}

// A turn's record.
fn turn_by(graph: &yaml_c_graph, numbers: &[u64], turn: Turn) -> yaml_c_turn
    ensures { result ≡ turn_by graph.now numbers.now turn }
{
    match turn {
        Turn::First(node) => yaml_c_turn {
            kind: opening_kind(kind_at(graph, node)),
            node,
            number: number_of(numbers, node),
        },
        Turn::Again(node) => yaml_c_turn {
            kind: 5,
            node,
            number: number_of(numbers, node),
        },
        Turn::Leave(node) => yaml_c_turn {
            kind: closing_kind(kind_at(graph, node)),
            node,
            number: 0,
        },
    }
}

/// The turns of a dump of the nodes that the records show.
pub fn turns_of(alloc: Global, graph: &yaml_c_graph) -> Result<Vec<yaml_c_turn>, AllocError>
    ensures { IfOk result (λ v. v.items ≡ turns_by graph.now) }
{
    let Walked { turns, numbers } = walk_nodes(alloc, graph)?;
    turns
        .iter()
        .map(|turn| turn_by(graph, &numbers, *turn))
        .collect(alloc)
}
