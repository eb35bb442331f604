//! The text of events that are given as records, piece by piece.

ghost use Rattle.std.specs.Prelude.{◌≡◌, ◌⊎◌, pos};
ghost use Rattle.yaml_round_answers.specs.Told.{AnswersMeant};
ghost use Rattle.yaml_round_answers.specs.OnwardAnswers.{onward_meant, EmitsOn};

use crate::answer::{misused, refused, text_answer, yaml_c_answer};
use crate::emitter::asked_of;
use crate::meaning::are_meant;
use crate::onward::emitted_on;
use crate::parsing::yaml_c_parsed;
use crate::record::yaml_c_settings;
use crate::standing::{is_stand, yaml_c_stand};
use std::alloc::Global;

/// What an emitter under the settings adds for the events, from another one's checkpoint, where all arguments have a meaning.
pub fn onward_by(
    alloc: Global,
    given: &yaml_c_parsed,
    settings: &yaml_c_settings,
    stand: &yaml_c_stand,
    behind: &mut yaml_c_stand,
) -> yaml_c_answer
    ensures told { AnswersMeant (onward_meant given.now settings.now stand.now)
        (EmitsOn behind.old behind.new) result }
    ensures left { (result.kind ≡ pos 0) ⊎ (behind.new ≡ behind.old) }
{
    let Some(asked) = asked_of(settings) else {
        return misused();
    };
    if !is_stand(stand) {
        return misused();
    }
    if !are_meant(given.bytes, given.directives, given.events) {
        return misused();
    }
    match emitted_on(
        alloc,
        given.bytes,
        given.directives,
        given.events,
        &asked,
        stand,
    ) {
        Ok(onward) => {
            *behind = onward.stand;
            text_answer(onward.text, 0)
        }
        Err(fault) => refused(alloc, &fault, 0),
    }
}
