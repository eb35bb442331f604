//! Which node of a document each of its events is of, where these are given as records.

ghost use Rattle.std.specs.Prelude.{◌≡◌};
ghost use Rattle.yaml_round_answers.specs.Told.{AnswersMeant, IsExact};
ghost use Rattle.yaml_round_answers.specs.Composes.{steps_meant, Composes, NoSpotUnmeant};

use std::alloc::Global;
use yaml_round_answers::{composed_by, yaml_c_answer, yaml_c_spots, yaml_c_step};

/// For each event between a document's start and its end the node that it begins, stands for or ends, and the collection that takes
/// it: what the loader does with all events that the records show. An alias that no node before it has the name of is refused, with the
/// records of the events before it. -1 comes exactly where a kind means nothing, or a name doesn't lie within the bytes.
#[unsafe(no_mangle)]
pub extern "C" fn yaml_c_compose(
    alloc: Global,
    steps: &[yaml_c_step],
    bytes: &[u8],
    spots: &mut yaml_c_spots,
    answer: &mut yaml_c_answer,
) -> i32
    ensures told { AnswersMeant (steps_meant bytes.now steps.now) (Composes spots.new.spots.now)
        answer.new }
    ensures none { NoSpotUnmeant (steps_meant bytes.now steps.now) spots.new.spots.now }
    ensures exact { IsExact (steps_meant bytes.now steps.now) result }
    ensures kind { result ≡ answer.new.kind }
{
    *answer = composed_by(alloc, steps, bytes, spots);
    answer.kind
}
