//! The normal form that people read, and whether an input loads.

ghost use Rattle.std.specs.Prelude.{◌≡◌};
ghost use Rattle.yaml_round_answers.specs.Numbers.{encoding_meant};
ghost use Rattle.yaml_round_answers.specs.Told.{AnswersMeant, IsExact, call_meant};
ghost use Rattle.yaml_round_answers.specs.Normalizes.{Normalizes, Checks};

use std::alloc::Global;
use yaml_round_answers::{checked_by, normalized_by, yaml_c_answer, yaml_c_settings};

/// The text in the normal form that people read: what `yaml_normalize` answers. `canonical` isn't looked at.
#[unsafe(no_mangle)]
pub extern "C" fn yaml_c_normalize(
    alloc: Global,
    input: &[u8],
    from: i32,
    settings: &yaml_c_settings,
    answer: &mut yaml_c_answer,
) -> i32
    ensures told { AnswersMeant (call_meant from settings.now) (Normalizes input.now) answer.new }
    ensures exact { IsExact (call_meant from settings.now) result }
    ensures kind { result ≡ answer.new.kind }
{
    *answer = normalized_by(alloc, input, from, settings);
    answer.kind
}

/// Whether the documents load: what `yaml_check` answers. No text is made.
#[unsafe(no_mangle)]
pub extern "C" fn yaml_c_check(
    alloc: Global,
    input: &[u8],
    from: i32,
    answer: &mut yaml_c_answer,
) -> i32
    ensures told { AnswersMeant (encoding_meant from) (Checks input.now) answer.new }
    ensures exact { IsExact (encoding_meant from) result }
    ensures kind { result ≡ answer.new.kind }
{
    *answer = checked_by(alloc, input, from);
    answer.kind
}
