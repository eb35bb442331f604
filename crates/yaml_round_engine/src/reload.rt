//! Documents loaded and written again.

ghost use Rattle.std.specs.Prelude.{◌≡◌, ℕ, List, true, false, All};
ghost use Rattle.yaml_round_content.specs.Input.{ReadsInput};
ghost use Rattle.yaml_scan_types.specs.Faults.{Answers, load_layers, emit_layers};
ghost use Rattle.yaml_round_engine.specs.Answers.{bytes_of};
ghost use Rattle.yaml_round_engine.specs.Reload.{LoadsNext, IsLoaded, HasRoot, IsWithinStream, DumpsAll, DumpsStream, IsEachDump};

use crate::writing::{emitter_under, finished};
use std::alloc::Global;
use std::collections::VecDeque;
use yaml_emit::{yaml_emitter_close, yaml_emitter_dump, yaml_emitter_open, yaml_emitter_t};
use yaml_parse::{
    yaml_document_set_end_implicit, yaml_document_t, yaml_encoding_t, yaml_fault_t,
    yaml_memory_fault, yaml_origin_t,
};
use yaml_round_device::yaml_settings_t;
use yaml_round_reading::{Reading, let_go, read_text, reading_of};

/// The next document, whose end is made implicit; nothing after the last.
#[tactic(auto, using(crate::proofs::Reloading::loaded_document, crate::proofs::Reloading::loaded_last, crate::proofs::Reloading::load_refused))]
pub fn next_document(reading: &mut Reading<'_>) -> Result<Option<yaml_document_t>, yaml_fault_t>
    requires { reading.old.parser.between ≡ true }
    ensures next { LoadsNext reading.old.parser result reading.new.parser }
    ensures between { reading.new.parser.between ≡ true }
{
    match reading.load() {
        Err(fault) => Err(fault),
        Ok(mut document) => {
            if document.node_count() == 0 {
                Ok(None)
            } else {
                yaml_document_set_end_implicit(&mut document, true);
                Ok(Some(document))
            }
        }
    }
}

// The documents of a reading.
fn documents_from(
    alloc: Global,
    reading: &mut Reading<'_>,
) -> Result<VecDeque<yaml_document_t>, yaml_fault_t>
    requires { reading.old.parser.between ≡ true }
    ensures { (from : yaml_encoding_t) (input : List ℕ) → ReadsInput from input reading.old.parser
        → Answers load_layers (λ ds. ds.items) (IsLoaded from input) result }
{
    let mut documents = VecDeque::new(alloc);
    'documents: loop {
        match next_document(reading) {
            Err(fault) => return Err(fault),
            Ok(None) => return Ok(documents),
            Ok(Some(document)) => match documents.push_back(document) {
                Ok(()) => {}
                Err(_) => return Err(yaml_memory_fault(yaml_origin_t::Loader)),
            },
        }
    }
}

/// The documents of the input.
pub fn documents_of(
    alloc: Global,
    input: &[u8],
    from: yaml_encoding_t,
) -> Result<VecDeque<yaml_document_t>, yaml_fault_t>
    ensures { Answers load_layers (λ ds. ds.items) (IsLoaded from input.now) result }
{
    let text = read_text(alloc, input, from);
    let mut reading = reading_of(alloc, &text)?;
    let answer = documents_from(alloc, &mut reading);
    let_go(reading);
    answer
}

/// Drops loaded documents. It is a call, so that no owner's proof writes out the drop of all that a document holds.
pub fn let_documents_go(documents: VecDeque<yaml_document_t>) {
    drop(documents);
}

// Writes the documents. True where all were taken; else the emitter keeps its fault.
fn dump_all(emitter: &mut yaml_emitter_t, documents: &mut VecDeque<yaml_document_t>) -> bool
    requires stands { IsWithinStream emitter.old }
    requires rooted { All HasRoot documents.old.items }
    ensures { DumpsAll emitter.old documents.old.items result emitter.new }
{
    'documents: loop {
        match documents.pop_front() {
            None => return true,
            Some(document) => match yaml_emitter_dump(emitter, document) {
                Ok(()) => {}
                Err(_) => return false,
            },
        }
    }
}

// Writes the documents as a stream. The emitter keeps its fault.
#[tactic(auto, using(crate::proofs::Reloading::stream_refused, crate::proofs::Reloading::stream_stopped, crate::proofs::Reloading::stands_by, crate::proofs::Reloading::stream_ended))]
fn dump_stream(emitter: &mut yaml_emitter_t, documents: &mut VecDeque<yaml_document_t>)
    requires opened { emitter.old.opened ≡ false }
    requires closed { emitter.old.closed ≡ false }
    requires rooted { All HasRoot documents.old.items }
    ensures { DumpsStream emitter.old documents.old.items emitter.new }
{
    match yaml_emitter_open(emitter) {
        Err(_) => {}
        Ok(()) => {
            if dump_all(emitter, documents) {
                let _ = yaml_emitter_close(emitter);
            }
        }
    }
}

/// The documents' text in canonical form.
pub fn written_documents(
    alloc: Global,
    settings: &yaml_settings_t,
    documents: &mut VecDeque<yaml_document_t>,
) -> Result<Vec<u8>, yaml_fault_t>
    requires { All HasRoot documents.old.items }
    ensures { Answers emit_layers bytes_of (IsEachDump settings.now documents.old.items) result }
{
    let mut emitter = emitter_under(alloc, settings, true)?;
    dump_stream(&mut emitter, documents);
    finished(emitter)
}
