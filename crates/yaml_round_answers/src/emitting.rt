//! The text of events that are given as records.

ghost use Rattle.yaml_round_answers.specs.Told.{AnswersMeant};
ghost use Rattle.yaml_round_answers.specs.Emitting.{emit_meant, Emits};

use crate::answer::{answer_told, misused, yaml_c_answer};
use crate::emitter::{asked_of, emitted};
use crate::meaning::are_meant;
use crate::record::{yaml_c_directive, yaml_c_event, yaml_c_settings};
use std::alloc::Global;

/// What an emitter under the settings makes of the events, where all that is given means something.
pub fn answered_by(
    alloc: Global,
    events: &[yaml_c_event],
    directives: &[yaml_c_directive],
    bytes: &[u8],
    settings: &yaml_c_settings,
) -> yaml_c_answer
    ensures { AnswersMeant (emit_meant bytes.now directives.now events.now settings.now) Emits
        result }
{
    let Some(asked) = asked_of(settings) else {
        return misused();
    };
    if !are_meant(bytes, directives, events) {
        return misused();
    }
    answer_told(alloc, emitted(alloc, bytes, directives, events, &asked))
}
