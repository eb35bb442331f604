//! The normal form that people read, and whether an input loads.

ghost use Rattle.yaml_round_answers.specs.Numbers.{encoding_meant};
ghost use Rattle.yaml_round_answers.specs.Told.{AnswersMeant, call_meant};
ghost use Rattle.yaml_round_answers.specs.Normalizes.{Normalizes, Checks};

use crate::answer::{answer_told, misused, refused, said, yaml_c_answer};
use crate::number::encoding_of;
use crate::record::yaml_c_settings;
use crate::settings::call_of;
use std::alloc::Global;
use yaml_round::{yaml_check, yaml_encoding_t, yaml_normalize};

/// What normalizing answers, where its numbers mean something.
pub fn normalized_by(
    alloc: Global,
    input: &[u8],
    from: i32,
    settings: &yaml_c_settings,
) -> yaml_c_answer
    ensures { AnswersMeant (call_meant from settings.now) (Normalizes input.now) result }
{
    match call_of(from, settings) {
        Some((from, settings)) => answer_told(alloc, yaml_normalize(alloc, input, from, &settings)),
        None => misused(),
    }
}

fn check_answer(alloc: Global, input: &[u8], from: yaml_encoding_t) -> yaml_c_answer
    ensures { Checks input.now from result }
{
    match yaml_check(alloc, input, from) {
        Ok(()) => said(0),
        Err(fault) => refused(alloc, &fault, 0),
    }
}

/// What a check answers, where its number means something.
pub fn checked_by(alloc: Global, input: &[u8], from: i32) -> yaml_c_answer
    ensures { AnswersMeant (encoding_meant from) (Checks input.now) result }
{
    match encoding_of(from) {
        Some(from) => check_answer(alloc, input, from),
        None => misused(),
    }
}
