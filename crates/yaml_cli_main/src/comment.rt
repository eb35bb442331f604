//! The first comment of a text: a `#` that is in no token, or in the head of a block scalar.

use std::alloc::Global;
use yaml_cli_program::{Source, place_of_byte};
use yaml_round::{yaml_encoding_t, yaml_fault_t, yaml_mark_t};
use yaml_scan::{yaml_decode, yaml_parser_scan, yaml_parser_t, yaml_token_t, yaml_token_type_t};

// The first `#` of a text from one byte up to another one.
fn hash_between(text: &[u8], from: u64, to: u64) -> Option<u64> {
    let part = text.get(from as usize..to as usize).unwrap_or(b"");
    let at = part.iter().position(|byte| *byte == b'#')?;
    Some(from.saturating_add(at as u64))
}

// The `#` of a comment in the head of a block scalar, whose text is handed in from its indicator on.
fn hash_in_head(scalar: &[u8]) -> Option<u64> {
    if !matches!(scalar, [b'|' | b'>', ..]) {
        return None;
    }
    for (at, byte) in scalar.iter().enumerate() {
        match byte {
            b'|' | b'>' | b'+' | b'-' | b'0'..=b'9' | b' ' | b'\t' => {}
            b'#' => return Some(at as u64),
            _ => return None,
        }
    }
    None
}

// The first `#` of a comment before a token, or in it; the token before ends at that byte.
fn hash_before(text: &[u8], end: u64, token: &yaml_token_t) -> Option<u64> {
    let start = token.start_mark.index;
    let found = hash_between(text, end, start);
    if found.is_some() || token.type_() != yaml_token_type_t::YAML_SCALAR_TOKEN {
        return found;
    }
    let at = hash_in_head(text.get(start as usize..).unwrap_or(b""))?;
    Some(start.saturating_add(at))
}

// The first `#` of a comment in the tokens that come.
fn hash_from(session: &mut yaml_parser_t<'_>, text: &[u8]) -> Result<Option<u64>, yaml_fault_t> {
    let mut end = 0u64;
    for _ in 0..u64::MAX {
        let token = yaml_parser_scan(session)?;
        let hash = hash_before(text, end, &token);
        if hash.is_some() || token.type_() == yaml_token_type_t::YAML_NO_TOKEN {
            return Ok(hash);
        }
        end = end.max(token.end_mark.index);
    }
    Ok(None)
}

// The byte at which the first comment of a text begins.
fn first_hash(alloc: Global, text: &[u8]) -> Result<Option<u64>, yaml_fault_t> {
    let mut session = yaml_parser_t::new(alloc, text, yaml_encoding_t::YAML_UTF8_ENCODING);
    let answer = hash_from(&mut session, text);
    drop(session);
    answer
}

/// The place of the first comment of an input, where it has one, or the fault of its bytes or tokens.
pub(crate) fn first_comment(
    alloc: Global,
    from: yaml_encoding_t,
    input: &[u8],
) -> Result<Option<yaml_mark_t>, yaml_fault_t> {
    let text = yaml_decode(alloc, input, from)?;
    let source = Source {
        name: "",
        input: text.as_slice(),
        from: yaml_encoding_t::YAML_UTF8_ENCODING,
    };
    let hash = first_hash(alloc, source.input)?;
    Ok(hash.map(|at| place_of_byte(source, at)))
}
