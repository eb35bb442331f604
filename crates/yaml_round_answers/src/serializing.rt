//! The turns of a dump, as records.

ghost use Rattle.std.specs.Prelude.{◌≡◌, ◌⊎◌, [], pos};
ghost use Rattle.yaml_round_answers.specs.Told.{AnswersMeant};
ghost use Rattle.yaml_round_answers.specs.Serializes.{graph_meant, Serializes};

use crate::answer::{handed_out, misused, refused, said, yaml_c_answer};
use crate::graph::is_graph;
use crate::graph_record::{yaml_c_graph, yaml_c_turn};
use crate::turns::turns_of;
use std::alloc::Global;
use yaml_parse::{yaml_memory_fault, yaml_origin_t};

/// The turns of a dump. The list is the caller's to free, where it has any item.
#[repr(C)]
#[derive(Drop)]
pub struct yaml_c_turns {
    pub turns: &'static [yaml_c_turn],
}

const _: () = prove!(size_of::<yaml_c_turns>() == 16);

/// The turns of a dump of the nodes that the records show, where each record means a node.
pub fn serialized_by(alloc: Global, graph: &yaml_c_graph, turns: &mut yaml_c_turns) -> yaml_c_answer
    ensures told { AnswersMeant (graph_meant graph.now) (Serializes turns.new.turns.now) result }
    ensures none { (result.kind ≡ pos 0) ⊎ (turns.new.turns.now ≡ []) }
{
    if !is_graph(graph) {
        turns.turns = &[];
        return misused();
    }
    match turns_of(alloc, graph) {
        Ok(told) => {
            turns.turns = handed_out(told);
            said(0)
        }
        Err(_) => {
            turns.turns = &[];
            refused(alloc, &yaml_memory_fault(yaml_origin_t::Emitter), 0)
        }
    }
}
