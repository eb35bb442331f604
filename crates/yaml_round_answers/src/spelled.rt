//! The text that the places of an input's events, tokens and faults refer to.

ghost use Rattle.std.specs.Prelude.{◌≡◌, IfSome};
ghost use Rattle.yaml_scan.specs.DecodedText.{text_bytes};
ghost use Rattle.yaml_round_answers.specs.Spelled.{is_memory, is_starved, spelled_text};

use std::alloc::Global;
use yaml_round::{yaml_encoding_t, yaml_fault_t};
use yaml_scan::{yaml_decode, yaml_error_type_t, yaml_text_t};

fn is_memory(kind: yaml_error_type_t) -> bool
    ensures { result ≡ is_memory kind }
{
    matches!(kind, yaml_error_type_t::YAML_MEMORY_ERROR)
}

/// Whether memory was refused before the end.
pub(crate) fn is_starved(end: &Result<(), yaml_fault_t>) -> bool
    ensures { result ≡ is_starved end.now }
{
    match end {
        Ok(()) => false,
        Err(fault) => is_memory(fault.kind),
    }
}

/// The text that an input's bytes spell, and an empty one where they spell none. None when out of memory.
pub(crate) fn spelled_text<'a>(
    alloc: Global,
    input: &'a [u8],
    from: yaml_encoding_t,
) -> Option<yaml_text_t<'a>>
    ensures { IfSome result (λ t. text_bytes t ≡ spelled_text from input.now) }
{
    match yaml_decode(alloc, input, from) {
        Ok(text) => Some(text),
        Err(fault) => {
            if is_memory(fault.kind) {
                None
            } else {
                Some(yaml_text_t::Borrowed(b""))
            }
        }
    }
}
