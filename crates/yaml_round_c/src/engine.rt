//! The engine's calls.

ghost use Rattle.std.specs.Prelude.{◌≡◌};
ghost use Rattle.yaml_round_answers.specs.Numbers.{encoding_meant};
ghost use Rattle.yaml_round_answers.specs.Told.{AnswersMeant, IsExact, both, call_meant, Reformats, Reloads, Compares, Lists};

use std::alloc::Global;
use yaml_round_answers::{
    compared_by, listed_by, reformatted_by, reloaded_by, yaml_c_answer, yaml_c_settings,
};

/// The text again, in canonical or pretty form: what `yaml_reformat` answers.
#[unsafe(no_mangle)]
pub extern "C" fn yaml_c_reformat(
    alloc: Global,
    input: &[u8],
    from: i32,
    settings: &yaml_c_settings,
    answer: &mut yaml_c_answer,
) -> i32
    ensures told { AnswersMeant (call_meant from settings.now) (Reformats input.now) answer.new }
    ensures exact { IsExact (call_meant from settings.now) result }
    ensures kind { result ≡ answer.new.kind }
{
    *answer = reformatted_by(alloc, input, from, settings);
    answer.kind
}

/// The loaded documents, in canonical form: what `yaml_reload` answers.
#[unsafe(no_mangle)]
pub extern "C" fn yaml_c_reload(
    alloc: Global,
    input: &[u8],
    from: i32,
    settings: &yaml_c_settings,
    answer: &mut yaml_c_answer,
) -> i32
    ensures told { AnswersMeant (call_meant from settings.now) (Reloads input.now) answer.new }
    ensures exact { IsExact (call_meant from settings.now) result }
    ensures kind { result ≡ answer.new.kind }
{
    *answer = reloaded_by(alloc, input, from, settings);
    answer.kind
}

/// Whether two texts have the same content: what `yaml_same` answers.
#[unsafe(no_mangle)]
pub extern "C" fn yaml_c_same(
    alloc: Global,
    first: &[u8],
    first_from: i32,
    second: &[u8],
    second_from: i32,
    answer: &mut yaml_c_answer,
) -> i32
    ensures told { AnswersMeant (both (encoding_meant first_from) (encoding_meant second_from))
        (Compares first.now second.now) answer.new }
    ensures exact { IsExact (both (encoding_meant first_from) (encoding_meant second_from)) result }
    ensures kind { result ≡ answer.new.kind }
{
    *answer = compared_by(alloc, first, first_from, second, second_from);
    answer.kind
}

/// A line for each event: what `yaml_events` answers.
#[unsafe(no_mangle)]
pub extern "C" fn yaml_c_events(
    alloc: Global,
    input: &[u8],
    from: i32,
    answer: &mut yaml_c_answer,
) -> i32
    ensures told { AnswersMeant (encoding_meant from) (Lists input.now) answer.new }
    ensures exact { IsExact (encoding_meant from) result }
    ensures kind { result ≡ answer.new.kind }
{
    *answer = listed_by(alloc, input, from);
    answer.kind
}
