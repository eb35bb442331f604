//! The text of an input.

ghost use Rattle.std.specs.Prelude.{◌≡◌};
ghost use Rattle.yaml_parse.specs.scan_types.Faults.{Answers};
ghost use Rattle.yaml_round_answers.specs.Leading.{bytes_of};
ghost use Rattle.yaml_round_answers.specs.Numbers.{encoding_meant};
ghost use Rattle.yaml_round_answers.specs.Told.{AnswersMeant};
ghost use Rattle.yaml_round_answers.specs.Decodes.{decode_layers, IsDecoded, Decodes};

use crate::answer::{answer_told, misused, yaml_c_answer};
use crate::number::encoding_of;
use std::alloc::Global;
use yaml_round::{yaml_encoding_t, yaml_fault_t};
use yaml_scan::{yaml_decode, yaml_memory_fault, yaml_origin_t};

// The text that the bytes spell, in a block of its own.
fn text_of(alloc: Global, input: &[u8], from: yaml_encoding_t) -> Result<Vec<u8>, yaml_fault_t>
    ensures { Answers decode_layers bytes_of (IsDecoded from input.now) result }
{
    match yaml_decode(alloc, input, from) {
        Ok(text) => match Vec::from_slice(alloc, text.as_slice()) {
            Ok(copy) => Ok(copy),
            Err(_) => Err(yaml_memory_fault(yaml_origin_t::Reader)),
        },
        Err(fault) => Err(fault),
    }
}

/// What a decoding answers, where its number means something.
pub fn decoded_by(alloc: Global, input: &[u8], from: i32) -> yaml_c_answer
    ensures { AnswersMeant (encoding_meant from) (Decodes input.now) result }
{
    match encoding_of(from) {
        Some(from) => answer_told(alloc, text_of(alloc, input, from)),
        None => misused(),
    }
}
