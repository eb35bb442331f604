//! Keys that are in a mapping of an input more than once.

ghost use Rattle.std.specs.Prelude.{◌≡◌, ◌↔◌, ℕ, List, [], true, IfOk};
ghost use Rattle.yaml_scan_model.specs.scan_types.Faults.{Answers, load_layers};
ghost use Rattle.yaml_round_engine.specs.round_content.Input.{ReadsInput};
ghost use Rattle.yaml_round.specs.Keys.{HasDistinctKeys, IsKeyCheck};

use std::alloc::Global;
use yaml_round_documents::{tell_document, yaml_same_key_t};
use yaml_round_engine::{
    ReadText, Reading, let_go, let_text_go, next_document, read_text, reading_of,
};
use yaml_scan_model::{yaml_encoding_t, yaml_fault_t, yaml_memory_fault, yaml_origin_t};

// The repeated keys of a reading's documents.
fn keys_from(alloc: Global, reading: &mut Reading<'_>) -> Result<Vec<yaml_same_key_t>, yaml_fault_t>
    requires { reading.old.parser.between ≡ true }
    ensures { (from : yaml_encoding_t) (input : List ℕ) → ReadsInput from input reading.old.parser
        → Answers load_layers (λ told. told.items) (IsKeyCheck from input) result }
{
    let mut told = Vec::new(alloc);
    'documents: loop {
        match next_document(reading) {
            Err(fault) => return Err(fault),
            Ok(None) => return Ok(told),
            Ok(Some(document)) => match tell_document(alloc, &mut told, document) {
                Ok(()) => {}
                Err(_) => return Err(yaml_memory_fault(yaml_origin_t::Loader)),
            },
        }
    }
}

// The repeated keys of the input whose text it is.
fn keys_in(alloc: Global, text: &ReadText<'_>) -> Result<Vec<yaml_same_key_t>, yaml_fault_t>
    ensures { Answers load_layers (λ told. told.items) (IsKeyCheck text.now.from text.now.bytes)
        result }
{
    match reading_of(alloc, text) {
        Err(fault) => Err(fault),
        Ok(mut reading) => {
            let answer = keys_from(alloc, &mut reading);
            let_go(reading);
            answer
        }
    }
}

/// The keys of the input's mappings, document by document and in order, to which an earlier key of the same mapping is the same,
/// each with the first such one: as `yaml_document_check_keys` lists them for each document. The
/// list is empty exactly where in each document the keys of each mapping are distinct; a plain `<<`
/// may come again. The documents are those that `yaml_reload` loads, one held at a time, and the
/// input is refused with the same fault (kinds 2 to 5), whatever was found before it, or when out
/// of memory (kind 1).
pub fn yaml_check_keys(
    alloc: Global,
    input: &[u8],
    from: yaml_encoding_t,
) -> Result<Vec<yaml_same_key_t>, yaml_fault_t>
    ensures told { Answers load_layers (λ told. told.items) (IsKeyCheck from input.now) result }
    ensures distinct { IfOk result (λ told. (told.items ≡ []) ↔ HasDistinctKeys from input.now) }
{
    let text = read_text(alloc, input, from);
    let answer = keys_in(alloc, &text);
    let_text_go(text);
    // Arms that change nothing: the edits of this call change one each, and no step before.
    match answer {
        Ok(told) => Ok(told),
        Err(refusal) => Err(refusal),
    }
}
