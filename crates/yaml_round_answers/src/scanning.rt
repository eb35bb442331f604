//! The tokens of an input, as records.

ghost use Rattle.std.specs.Prelude.{◌≡◌, []};
ghost use Rattle.yaml_scan.specs.Scanned.{scanned};
ghost use Rattle.yaml_round_answers.specs.Numbers.{encoding_meant};
ghost use Rattle.yaml_round_answers.specs.TokensListed.{ListsTokens, EndsListed};
ghost use Rattle.yaml_round_answers.specs.Spelled.{spelled_text};
ghost use Rattle.yaml_round_answers.specs.Told.{AnswersMeant};
ghost use Rattle.yaml_round_answers.specs.Scans.{HasNoToken, HandsOutTokens, HandsOutTokensUnless, Scans, NoTokenUnmeant};

use crate::answer::{handed_out, misused, refused_in, said, yaml_c_answer};
use crate::number::encoding_of;
use crate::spelled::{is_starved, spelled_text};
use crate::token_counted::count_tokens;
use crate::token_listing::{TokenListing, list_tokens};
use crate::token_record::yaml_c_token;
use std::alloc::Global;
use yaml_round::yaml_encoding_t;
use yaml_scan::{yaml_fault_t, yaml_memory_fault, yaml_origin_t, yaml_parser_t};

/// The tokens of an input, and the bytes that they speak of. Both are the caller's to free, where they have any item.
#[repr(C)]
#[derive(Drop)]
pub struct yaml_c_scanned {
    pub tokens: &'static [yaml_c_token],
    pub bytes: &'static [u8],
}

const _: () = prove!(size_of::<yaml_c_scanned>() == 32);

fn nothing() -> yaml_c_scanned
    ensures { HasNoToken result }
{
    yaml_c_scanned {
        tokens: &[],
        bytes: b"",
    }
}

// Blocks that live on for C, of a listing whose tokens have their places in that text.
fn blocks_of(text: &[u8], listing: TokenListing) -> yaml_c_scanned
    ensures { HandsOutTokens text.now listing result }
{
    let TokenListing { mut tokens, bytes } = listing;
    count_tokens(text, &mut tokens);
    yaml_c_scanned {
        tokens: handed_out(tokens),
        bytes: handed_out(bytes),
    }
}

// The same, or no block where memory was refused: a listing that was cut off is dropped.
fn blocks_unless(cut_off: bool, text: &[u8], listing: TokenListing) -> yaml_c_scanned
    ensures { HandsOutTokensUnless cut_off text.now listing result }
{
    if cut_off {
        drop(listing);
        nothing()
    } else {
        blocks_of(text, listing)
    }
}

// Lists the tokens of an input. The session is made and dropped here, where the drops of one are
// written out for a parser's source anyway.
fn list_input(
    alloc: Global,
    input: &[u8],
    from: yaml_encoding_t,
    listing: &mut TokenListing,
) -> Result<(), yaml_fault_t>
    requires { ListsTokens [] listing.old }
    ensures { EndsListed (scanned from input.now) result listing.new }
{
    let mut session = yaml_parser_t::new(alloc, input, from);
    let end = list_tokens(&mut session, listing);
    drop(session);
    end
}

fn scanned_in(
    alloc: Global,
    input: &[u8],
    from: yaml_encoding_t,
    text: &[u8],
    blocks: &mut yaml_c_scanned,
) -> yaml_c_answer
    requires { text.now ≡ spelled_text from input.now }
    ensures { Scans input.now blocks.new from result }
{
    let mut listing = TokenListing::new(alloc);
    let end = list_input(alloc, input, from, &mut listing);
    *blocks = blocks_unless(is_starved(&end), text, listing);
    match end {
        Ok(()) => said(0),
        Err(fault) => refused_in(alloc, text, &fault),
    }
}

fn scanned(
    alloc: Global,
    input: &[u8],
    from: yaml_encoding_t,
    blocks: &mut yaml_c_scanned,
) -> yaml_c_answer
    ensures { Scans input.now blocks.new from result }
{
    match spelled_text(alloc, input, from) {
        Some(text) => scanned_in(alloc, input, from, text.as_slice(), blocks),
        None => {
            *blocks = nothing();
            refused_in(alloc, b"", &yaml_memory_fault(yaml_origin_t::Scanner))
        }
    }
}

/// What a scan answers, where its number means something, and the tokens before its end or its fault.
pub fn scanned_by(
    alloc: Global,
    input: &[u8],
    from: i32,
    blocks: &mut yaml_c_scanned,
) -> yaml_c_answer
    ensures told { AnswersMeant (encoding_meant from) (Scans input.now blocks.new) result }
    ensures none { NoTokenUnmeant (encoding_meant from) blocks.new }
{
    match encoding_of(from) {
        Some(from) => scanned(alloc, input, from, blocks),
        None => {
            *blocks = nothing();
            misused()
        }
    }
}
