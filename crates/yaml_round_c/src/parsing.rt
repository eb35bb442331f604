//! The events of an input, as records.

ghost use Rattle.std.specs.Prelude.{◌≡◌, ◌⊎◌, pos};
ghost use Rattle.yaml_round_answers.specs.Numbers.{encoding_meant};
ghost use Rattle.yaml_round_answers.specs.Told.{AnswersMeant, IsExact};
ghost use Rattle.yaml_round_answers.specs.Parses.{HasNothing, Parses, Fronts, NothingUnmeant};

use std::alloc::Global;
use yaml_round_answers::{given_by, yaml_c_answer, yaml_c_parsed};

/// The events of the input, as records over one block of bytes. Where it is refused there are none.
#[unsafe(no_mangle)]
pub extern "C" fn yaml_c_parse(
    alloc: Global,
    input: &[u8],
    from: i32,
    blocks: &mut yaml_c_parsed,
    answer: &mut yaml_c_answer,
) -> i32
    ensures told { AnswersMeant (encoding_meant from) (Parses input.now blocks.new) answer.new }
    ensures none { (result ≡ pos 0) ⊎ HasNothing blocks.new }
    ensures exact { IsExact (encoding_meant from) result }
    ensures kind { result ≡ answer.new.kind }
{
    *answer = given_by(alloc, input, from, true, blocks);
    answer.kind
}

/// The events of the input before its end or its fault, as records over one block of bytes.
#[unsafe(no_mangle)]
pub extern "C" fn yaml_c_front(
    alloc: Global,
    input: &[u8],
    from: i32,
    blocks: &mut yaml_c_parsed,
    answer: &mut yaml_c_answer,
) -> i32
    ensures told { AnswersMeant (encoding_meant from) (Fronts input.now blocks.new) answer.new }
    ensures none { NothingUnmeant (encoding_meant from) blocks.new }
    ensures exact { IsExact (encoding_meant from) result }
    ensures kind { result ≡ answer.new.kind }
{
    *answer = given_by(alloc, input, from, false, blocks);
    answer.kind
}
