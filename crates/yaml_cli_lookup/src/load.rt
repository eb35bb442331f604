//! The first document of an input, and a value in it.

ghost use Rattle.std.specs.Prelude.{◌≡◌, true, is_some, option_map, IfOk, IfErr};
ghost use Rattle.yaml_scan.specs.scan_types.Faults.{Answers, load_layers};
ghost use Rattle.yaml_cli_lookup.specs.declared.error.LookupError.TheVariants.{CopyRefused};
ghost use Rattle.yaml_cli_lookup.specs.Input.{IsFirstDocument};
ghost use Rattle.yaml_cli_lookup.specs.Lookup.{IsFirstMapping, IsDue, IsDueOf, IsValueFound, bytes_of};

use crate::error::{LookupError, error_of};
use crate::value::{has_mapping, value_of};
use std::alloc::Global;
use yaml_parse::{
    yaml_document_delete, yaml_document_t, yaml_parser_delete, yaml_parser_initialize,
    yaml_parser_load,
};
use yaml_round_reading::yaml_adapter_t;
use yaml_scan::{yaml_encoding_t, yaml_fault_t};

// The first document, or one without nodes where there is none.
fn first_document(
    alloc: Global,
    input: &[u8],
    encoding: yaml_encoding_t,
) -> Result<yaml_document_t, yaml_fault_t>
    ensures { Answers load_layers (λ d. d) (IsFirstDocument encoding input.now) result }
{
    match yaml_parser_initialize(alloc, yaml_adapter_t::new(alloc, input, encoding)) {
        Err(fault) => Err(fault),
        Ok(mut parser) => {
            let answer = yaml_parser_load(&mut parser);
            yaml_parser_delete(parser);
            answer
        }
    }
}

/// The first document of the input, whose root is a mapping. No document after it is loaded.
pub fn load_mapping(
    alloc: Global,
    input: &[u8],
    encoding: yaml_encoding_t,
) -> Result<yaml_document_t, LookupError>
    ensures ok { IfOk result (IsFirstMapping (IsFirstDocument encoding input.now)) }
    ensures err { IfErr result (IsDue (IsFirstDocument encoding input.now)) }
{
    match first_document(alloc, input, encoding) {
        Err(fault) => Err(error_of(fault)),
        Ok(document) => {
            if has_mapping(&document) {
                Ok(document)
            } else {
                yaml_document_delete(document);
                Err(LookupError::NotAMapping)
            }
        }
    }
}

// A copy of the value, where there is one.
fn copied(alloc: Global, value: Option<&[u8]>) -> Result<Option<Vec<u8>>, LookupError>
    ensures ok { IfOk result (λ copy. bytes_of copy ≡ option_map (λ t. t.now) value.entry) }
    ensures err { IfErr result (λ e. (e ≡ CopyRefused)
        × (is_some (option_map (λ t. t.now) value.entry) ≡ true)) }
{
    match value {
        None => Ok(None),
        Some(value) => match Vec::from_slice(alloc, value) {
            Ok(copy) => Ok(Some(copy)),
            Err(_) => Err(LookupError::CopyRefused),
        },
    }
}

/// The value of a key in the root mapping of the input's first document, or `None` where no pair gives it one.
pub fn lookup(
    alloc: Global,
    input: &[u8],
    encoding: yaml_encoding_t,
    key: &[u8],
) -> Result<Option<Vec<u8>>, LookupError>
    ensures ok { IfOk result (IsValueFound (IsFirstDocument encoding input.now) key.now) }
    ensures err { IfErr result (IsDueOf (IsFirstDocument encoding input.now) key.now) }
{
    match load_mapping(alloc, input, encoding) {
        Err(error) => Err(error),
        Ok(document) => {
            let found = copied(alloc, value_of(&document, key));
            yaml_document_delete(document);
            found
        }
    }
}
