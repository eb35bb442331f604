//! The text of an input, and its tokens as records.

ghost use Rattle.std.specs.Prelude.{◌≡◌};
ghost use Rattle.yaml_round_answers.specs.Numbers.{encoding_meant};
ghost use Rattle.yaml_round_answers.specs.Told.{AnswersMeant, IsExact};
ghost use Rattle.yaml_round_answers.specs.Decodes.{Decodes};
ghost use Rattle.yaml_round_answers.specs.Scans.{Scans, NoTokenUnmeant};

use std::alloc::Global;
use yaml_round_answers::{decoded_by, scanned_by, yaml_c_answer, yaml_c_scanned};

/// The text that the input's bytes spell, in UTF-8, without a byte order mark that showed the
/// encoding.
#[unsafe(no_mangle)]
pub extern "C" fn yaml_c_decode(
    alloc: Global,
    input: &[u8],
    from: i32,
    answer: &mut yaml_c_answer,
) -> i32
    ensures told { AnswersMeant (encoding_meant from) (Decodes input.now) answer.new }
    ensures exact { IsExact (encoding_meant from) result }
    ensures kind { result ≡ answer.new.kind }
{
    *answer = decoded_by(alloc, input, from);
    answer.kind
}

/// The tokens of the input before its end or its fault, as records over one block of bytes.
#[unsafe(no_mangle)]
pub extern "C" fn yaml_c_scan(
    alloc: Global,
    input: &[u8],
    from: i32,
    blocks: &mut yaml_c_scanned,
    answer: &mut yaml_c_answer,
) -> i32
    ensures told { AnswersMeant (encoding_meant from) (Scans input.now blocks.new) answer.new }
    ensures none { NoTokenUnmeant (encoding_meant from) blocks.new }
    ensures exact { IsExact (encoding_meant from) result }
    ensures kind { result ≡ answer.new.kind }
{
    *answer = scanned_by(alloc, input, from, blocks);
    answer.kind
}
