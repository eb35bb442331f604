//! The text of events that are given as records.

ghost use Rattle.std.specs.Prelude.{◌≡◌};
ghost use Rattle.yaml_round_answers.specs.Told.{AnswersMeant, IsExact};
ghost use Rattle.yaml_round_answers.specs.Emitting.{emit_meant, Emits};

use std::alloc::Global;
use yaml_round_answers::{
    answered_by, yaml_c_answer, yaml_c_directive, yaml_c_event, yaml_c_settings,
};

/// The text of the events that the records mean, one after another: what an emitter writes for them, or its fault without any
/// text. All records are looked at before an event is given, so that -1 comes exactly where a number means nothing, a span
/// that is looked at lies outside, or a text isn't UTF-8.
#[unsafe(no_mangle)]
pub extern "C" fn yaml_c_emit(
    alloc: Global,
    events: &[yaml_c_event],
    directives: &[yaml_c_directive],
    bytes: &[u8],
    settings: &yaml_c_settings,
    answer: &mut yaml_c_answer,
) -> i32
    ensures told { AnswersMeant (emit_meant bytes.now directives.now events.now settings.now) Emits
        answer.new }
    ensures exact { IsExact (emit_meant bytes.now directives.now events.now settings.now) result }
    ensures kind { result ≡ answer.new.kind }
{
    *answer = answered_by(alloc, events, directives, bytes, settings);
    answer.kind
}
