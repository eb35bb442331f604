//! The text of events that are given as records, piece by piece.

ghost use Rattle.std.specs.Prelude.{◌≡◌, ◌⊎◌, pos};
ghost use Rattle.yaml_round_answers.specs.Told.{AnswersMeant, IsExact};
ghost use Rattle.yaml_round_answers.specs.OnwardAnswers.{onward_meant, EmitsOn};

use std::alloc::Global;
use yaml_round_answers::{onward_by, yaml_c_answer, yaml_c_parsed, yaml_c_settings, yaml_c_stand};

/// The text that the events add after a checkpoint: what an emitter writes for those that are
/// there, or its fault without any text. The events that wait at the checkpoint have to be given
/// again before the new ones. After the call `behind` is the emitter's checkpoint then; with a
/// fault it is left as it is. All records are validated before an event is given, and the
/// checkpoint too, so that -1 comes exactly where a number means nothing, a span that is looked at
/// lies outside, or a text of an event isn't UTF-8.
#[unsafe(no_mangle)]
pub extern "C" fn yaml_c_emit_on(
    alloc: Global,
    given: &yaml_c_parsed,
    settings: &yaml_c_settings,
    stand: &yaml_c_stand,
    behind: &mut yaml_c_stand,
    answer: &mut yaml_c_answer,
) -> i32
    ensures told { AnswersMeant (onward_meant given.now settings.now stand.now)
        (EmitsOn behind.old behind.new) answer.new }
    ensures left { (result ≡ pos 0) ⊎ (behind.new ≡ behind.old) }
    ensures exact { IsExact (onward_meant given.now settings.now stand.now) result }
    ensures kind { result ≡ answer.new.kind }
{
    *answer = onward_by(alloc, given, settings, stand, behind);
    answer.kind
}
