//! The engine's calls.

ghost use Rattle.yaml_round_answers.specs.Numbers.{encoding_meant};
ghost use Rattle.yaml_round_answers.specs.Told.{AnswersMeant, both, call_meant, TellsForms, TellsSides, Reformats, Reloads, Compares, Lists};

use crate::answer::{answer_told, misused, refused, said, text_answer, yaml_c_answer};
use crate::number::encoding_of;
use crate::record::yaml_c_settings;
use crate::settings::{both_of, call_of};
use std::alloc::Global;
use yaml_round::{
    yaml_events, yaml_fault_t, yaml_form_t, yaml_reformat, yaml_reload, yaml_same, yaml_side_t,
};

// What a rewriting gives.
fn form_told(alloc: Global, answer: Result<(Vec<u8>, yaml_form_t), yaml_fault_t>) -> yaml_c_answer
    ensures { TellsForms answer result }
{
    match answer {
        Ok((text, form)) => text_answer(text, form as i32),
        Err(fault) => refused(alloc, &fault, 0),
    }
}

/// What a rewriting answers, where its numbers mean something.
pub fn reformatted_by(
    alloc: Global,
    input: &[u8],
    from: i32,
    settings: &yaml_c_settings,
) -> yaml_c_answer
    ensures { AnswersMeant (call_meant from settings.now) (Reformats input.now) result }
{
    match call_of(from, settings) {
        Some((from, settings)) => form_told(alloc, yaml_reformat(alloc, input, from, &settings)),
        None => misused(),
    }
}

/// What a reload answers, where its numbers mean something.
pub fn reloaded_by(
    alloc: Global,
    input: &[u8],
    from: i32,
    settings: &yaml_c_settings,
) -> yaml_c_answer
    ensures { AnswersMeant (call_meant from settings.now) (Reloads input.now) result }
{
    match call_of(from, settings) {
        Some((from, settings)) => answer_told(alloc, yaml_reload(alloc, input, from, &settings)),
        None => misused(),
    }
}

// What a comparison gives.
fn same_told(alloc: Global, answer: Result<bool, (yaml_side_t, yaml_fault_t)>) -> yaml_c_answer
    ensures { TellsSides answer result }
{
    match answer {
        Ok(same) => said(same as i32),
        Err((yaml_side_t::First, fault)) => refused(alloc, &fault, 0),
        Err((yaml_side_t::Second, fault)) => refused(alloc, &fault, 1),
    }
}

/// What a comparison answers, where its numbers mean something.
pub fn compared_by(
    alloc: Global,
    first: &[u8],
    first_from: i32,
    second: &[u8],
    second_from: i32,
) -> yaml_c_answer
    ensures { AnswersMeant (both (encoding_meant first_from) (encoding_meant second_from))
        (Compares first.now second.now) result }
{
    match both_of(first_from, second_from) {
        Some((a, b)) => same_told(alloc, yaml_same(alloc, first, a, second, b)),
        None => misused(),
    }
}

/// What a listing of events answers, where its number means something.
pub fn listed_by(alloc: Global, input: &[u8], from: i32) -> yaml_c_answer
    ensures { AnswersMeant (encoding_meant from) (Lists input.now) result }
{
    match encoding_of(from) {
        Some(from) => answer_told(alloc, yaml_events(alloc, input, from)),
        None => misused(),
    }
}
