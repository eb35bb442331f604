//! The tokens of an input, one after another.

ghost use Rattle.std.specs.Prelude.{◌≡◌, [], ◌++◌, length, pos, IfOk};
ghost use Rattle.yaml_scan.specs.scan_types.Tokens.{token_of};
ghost use Rattle.yaml_scan.specs.Session.{HasFirst};
ghost use Rattle.yaml_round_answers.specs.Records.{mark_told};
ghost use Rattle.yaml_round_answers.specs.TokensListed.{ListsTokens, EndsListed, ListsNext, MakesRecord, Adds, plain, record_at, with_value, with_both};

use crate::listing::push_text;
use crate::number::{encoding_number, scalar_style_number};
use crate::record::mark_told;
use crate::token_record::{plain, yaml_c_token};
use std::alloc::{AllocError, Global};
use yaml_scan::{
    yaml_fault_t, yaml_memory_fault, yaml_origin_t, yaml_parser_has_token, yaml_parser_peek,
    yaml_parser_scan, yaml_parser_t, yaml_token_body_t, yaml_token_t,
};

/// Records, and the bytes of their texts.
#[derive(Drop)]
pub struct TokenListing {
    pub tokens: Vec<yaml_c_token>,
    pub bytes: Vec<u8>,
}

// A record with a text.
fn named(bytes: &mut Vec<u8>, base: yaml_c_token, text: &[u8]) -> Result<yaml_c_token, AllocError>
    ensures put { IfOk result (λ _. bytes.new.items ≡ bytes.old.items ++ text.now) }
    ensures is { IfOk result (λ r. r ≡ with_value (length bytes.old.items) text.now base) }
{
    Ok(yaml_c_token {
        value: push_text(bytes, text)?,
        ..base
    })
}

// A record with two texts.
fn named_twice(
    bytes: &mut Vec<u8>,
    base: yaml_c_token,
    handle: &[u8],
    text: &[u8],
) -> Result<yaml_c_token, AllocError>
    ensures put { IfOk result (λ _. bytes.new.items ≡ bytes.old.items ++ (handle.now ++ text.now)) }
    ensures is { IfOk result (λ r. r ≡ with_both (length bytes.old.items) handle.now text.now
        base) }
{
    Ok(yaml_c_token {
        handle: push_text(bytes, handle)?,
        value: push_text(bytes, text)?,
        ..base
    })
}

// A record of a token's kind and marks, with nothing else.
fn base_of(token: &yaml_token_t) -> yaml_c_token
    ensures { result ≡ plain (record_at 0 (token_of token.now)).kind
        (mark_told (token_of token.now).start_mark) (mark_told (token_of token.now).end_mark) }
{
    plain(
        token.type_() as i32,
        mark_told(token.start_mark),
        mark_told(token.end_mark),
    )
}

// The record of a token, whose texts are put after the others.
fn record_of(bytes: &mut Vec<u8>, token: &yaml_token_t) -> Result<yaml_c_token, AllocError>
    ensures { IfOk result (MakesRecord bytes.old.items (token_of token.now) bytes.new.items) }
{
    let base = base_of(token);
    match &token.body {
        yaml_token_body_t::StreamStart { encoding } => Ok(yaml_c_token {
            encoding: encoding_number(*encoding),
            ..base
        }),
        yaml_token_body_t::VersionDirective { major, minor } => Ok(yaml_c_token {
            major: *major,
            minor: *minor,
            ..base
        }),
        yaml_token_body_t::Alias { value } | yaml_token_body_t::Anchor { value } => {
            named(bytes, base, value)
        }
        yaml_token_body_t::TagDirective {
            handle,
            prefix: text,
        }
        | yaml_token_body_t::Tag {
            handle,
            suffix: text,
        } => named_twice(bytes, base, handle, text),
        yaml_token_body_t::Scalar { value, style } => {
            let style = scalar_style_number(*style);
            named(bytes, yaml_c_token { style, ..base }, value)
        }
        _ => Ok(base),
    }
}

impl TokenListing {
    /// A listing of nothing.
    #[tactic(auto, unfolding(crate::specs::TokensListed::records_from, crate::specs::TokensListed::all_texts))]
    pub fn new(alloc: Global) -> TokenListing
        ensures { ListsTokens [] result }
    {
        TokenListing {
            tokens: Vec::new(alloc),
            bytes: Vec::new(alloc),
        }
    }

    /// Pushes a token after the others.
    pub fn push(&mut self, token: &yaml_token_t) -> Result<(), AllocError>
        ensures { IfOk result (λ _. Adds self.old (token_of token.now) self.new) }
    {
        let record = record_of(&mut self.bytes, token)?;
        self.tokens.push(record)?;
        Ok(())
    }
}

// Lists the token that comes next.
fn list_next(session: &mut yaml_parser_t, listing: &mut TokenListing) -> Result<(), yaml_fault_t>
    requires { HasFirst session.old.remaining.tokens }
    ensures { ListsNext session.old.remaining listing.old result session.new.remaining listing.new }
{
    match yaml_parser_scan(session) {
        Ok(token) => {
            if listing.push(&token).is_err() {
                return Err(yaml_memory_fault(yaml_origin_t::Scanner));
            }
            Ok(())
        }
        Err(fault) => Err(fault),
    }
}

/// Lists the tokens of a session, before its end or of the fault that ends them, which is the answer. Where memory was
/// refused, what is listed means nothing. Each is peeked at before it is taken, so that the end is
/// found.
pub fn list_tokens(
    session: &mut yaml_parser_t,
    listing: &mut TokenListing,
) -> Result<(), yaml_fault_t>
    requires { ListsTokens [] listing.old }
    ensures { EndsListed session.old.remaining result listing.new }
{
    'tokens: loop {
        match yaml_parser_peek(session) {
            Ok(_) => {}
            Err(fault) => return Err(fault),
        }
        if !yaml_parser_has_token(session) {
            return Ok(());
        }
        match list_next(session, listing) {
            Ok(()) => {}
            Err(fault) => return Err(fault),
        }
    }
}
