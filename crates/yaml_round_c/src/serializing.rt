//! The turns of a dump whose document is given as records.

ghost use Rattle.std.specs.Prelude.{◌≡◌, ◌⊎◌, [], pos};
ghost use Rattle.yaml_round_answers.specs.Told.{AnswersMeant, IsExact};
ghost use Rattle.yaml_round_answers.specs.Serializes.{graph_meant, Serializes};

use std::alloc::Global;
use yaml_round_answers::{serialized_by, yaml_c_answer, yaml_c_graph, yaml_c_turns};

/// The turns of a dump: for each event between the document's start and its end what it is, of which node it is, and the number of that
/// node's anchor. Of each document that the records show they are those of its dump. All records are looked at first, so that -1 comes
/// exactly where a kind means nothing, or what a collection holds doesn't lie within the list.
#[unsafe(no_mangle)]
pub extern "C" fn yaml_c_serialize(
    alloc: Global,
    graph: &yaml_c_graph,
    turns: &mut yaml_c_turns,
    answer: &mut yaml_c_answer,
) -> i32
    ensures told { AnswersMeant (graph_meant graph.now) (Serializes turns.new.turns.now)
        answer.new }
    ensures none { (result ≡ pos 0) ⊎ (turns.new.turns.now ≡ []) }
    ensures exact { IsExact (graph_meant graph.now) result }
    ensures kind { result ≡ answer.new.kind }
{
    *answer = serialized_by(alloc, graph, turns);
    answer.kind
}
