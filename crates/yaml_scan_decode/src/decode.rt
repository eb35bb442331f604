//! The text that a stream's bytes spell.

ghost use Rattle.std.specs.Prelude.{◌≡◌, ◌≤◌, length, Some, Ok, false, IfOk, IfErr, ◌⊎◌};
ghost use Rattle.yaml_scan_model.specs.declared.name.yaml_encoding_t.TheVariants.{YAML_UTF8_ENCODING};
ghost use Rattle.yaml_scan_model.specs.declared.fault.yaml_origin_t.TheVariants.{Reader};
ghost use Rattle.yaml_scan_types.specs.Faults.{fault_of, memory_fault};
ghost use Rattle.yaml_scan_decode.specs.Encodings.{encoding_of};
ghost use Rattle.yaml_scan_decode.specs.Characters.{encoding_by};
ghost use Rattle.yaml_scan_decode.specs.Decoding.{characters, in_utf8, decoded_text};
ghost use Rattle.yaml_scan_decode.specs.Spelling.{Spells, SpellsNothing};
ghost use Rattle.yaml_scan_decode.specs.DecodedText.{text_bytes, is_borrowed, is_utf8, decoding_fault, fault_in};

use crate::{
    ByteOrder, DecodeError, check_utf8, decode_utf16, removed_mark_length, stream_encoding,
};
use std::alloc::Global;
use yaml_scan_model::{yaml_encoding_t, yaml_fault_t, yaml_memory_fault, yaml_origin_t};

/// A decoded text, in UTF-8.
#[derive(Drop)]
pub enum yaml_text_t<'a> {
    /// A part of the input, which was UTF-8.
    Borrowed(&'a [u8]),
    /// A text of its own, where the input was UTF-16.
    Owned(Vec<u8>),
}

impl<'a> yaml_text_t<'a> {
    /// The bytes of the text.
    pub fn as_slice(&self) -> &[u8]
        ensures { result.now ≡ text_bytes self.now }
    {
        match self {
            yaml_text_t::Borrowed(bytes) => bytes,
            yaml_text_t::Owned(bytes) => bytes.as_slice(),
        }
    }
}

fn decode_units<'a>(
    alloc: Global,
    input: &'a [u8],
    start: usize,
    order: ByteOrder,
) -> Result<yaml_text_t<'a>, yaml_fault_t>
    requires { start ≤ length input.now }
    ensures text { IfOk result (λ t. in_utf8 (characters (length input.now) (encoding_by order)
        input.now start) ≡ Ok (text_bytes t)) }
    ensures held { IfOk result (λ t. is_borrowed t ≡ false) }
    ensures fault { IfErr result (λ f. (fault_of f ≡ memory_fault Reader)
        ⊎ (fault_in (characters (length input.now) (encoding_by order) input.now start)
        ≡ Some (fault_of f))) }
{
    match decode_utf16(alloc, input, start, order) {
        Ok(text) => Ok(yaml_text_t::Owned(text)),
        Err(DecodeError::Memory) => Err(yaml_memory_fault(yaml_origin_t::Reader)),
        Err(DecodeError::Offends(offence)) => Err(offence.located()),
    }
}

/// The text that the bytes of a stream spell, in UTF-8 (YAML 1.1, 5.1 and 5.2). With `YAML_ANY_ENCODING` a leading
/// byte order mark shows the encoding, UTF-8 where there is none, and is removed; with a set encoding nothing is.
/// UTF-8 is passed by reference as it is and takes no memory; UTF-16 is written anew.
///
/// Errors: kind 2 where the bytes spell no text, for the first character that they don't spell or that a stream may
/// not hold, with its byte, counted with a removed mark; kind 1 where a growth was refused, for UTF-16 alone.
pub fn yaml_decode<'a>(
    alloc: Global,
    input: &'a [u8],
    encoding: yaml_encoding_t,
) -> Result<yaml_text_t<'a>, yaml_fault_t>
    ensures text { IfOk result (λ t. decoded_text encoding input.now ≡ Ok (text_bytes t)) }
    ensures fault { IfErr result (λ f. (fault_of f ≡ memory_fault Reader)
        ⊎ (decoding_fault encoding input.now ≡ Some (fault_of f))) }

    // UTF-8 is passed by reference as it is, and takes no memory.
    ensures held { IfOk result (λ t. is_borrowed t ≡ is_utf8 (encoding_of encoding input.now)) }
    ensures no_memory { encoding_of encoding input.now ≡ YAML_UTF8_ENCODING
        → IfErr result (λ f. decoding_fault encoding input.now ≡ Some (fault_of f)) }

    // In the words of spelling: the text is the one that the bytes spell, and where they are refused they spell none.
    ensures spelled { IfOk result (λ t. Spells encoding input.now (text_bytes t)) }
    ensures unspelled { IfErr result (λ f. (fault_of f ≡ memory_fault Reader)
        ⊎ SpellsNothing encoding input.now) }
{
    let start = removed_mark_length(input, encoding);
    match stream_encoding(input, encoding) {
        yaml_encoding_t::YAML_UTF16LE_ENCODING => {
            decode_units(alloc, input, start, ByteOrder::LowFirst)
        }
        yaml_encoding_t::YAML_UTF16BE_ENCODING => {
            decode_units(alloc, input, start, ByteOrder::HighFirst)
        }
        _ => match check_utf8(input, start) {
            Ok(()) => Ok(yaml_text_t::Borrowed(&input[start..])),
            Err(offence) => Err(offence.located()),
        },
    }
}
