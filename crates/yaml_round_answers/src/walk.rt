//! The numbers that records of nodes hold, for the walk.

ghost use Rattle.yaml_round_answers.specs.Graphs.{stand_ins};

use crate::graph::{held_by, holds_nodes, record_at};
use crate::graph_record::yaml_c_graph;
use yaml_emit_graph::{Open, Walkable, next_held};

impl Walkable for yaml_c_graph {
    ghost nodes = { stand_ins };

    fn count(&self) -> usize {
        self.nodes.len()
    }

    fn is_collection(&self, id: i32) -> bool {
        match record_at(self, id) {
            None => false,
            Some(node) => holds_nodes(node),
        }
    }

    fn next_child(&self, from: Open) -> Option<i32> {
        match record_at(self, from.node) {
            None => None,
            Some(node) => next_held(held_by(self.held, node), from.index),
        }
    }
}
