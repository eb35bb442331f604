//! The events of an input, as records.

ghost use Rattle.std.specs.Prelude.{◌≡◌};
ghost use Rattle.yaml_round_answers.specs.Numbers.{encoding_meant};
ghost use Rattle.yaml_round_answers.specs.Told.{AnswersMeant};
ghost use Rattle.yaml_round_answers.specs.Parses.{HasNothing, HandsOut, HandsOutUnless, EndsFront, is_cut_off, Gives, GivesNone, GivesNoneMeant};
ghost use Rattle.yaml_round_answers.specs.Spelled.{spelled_text};
ghost use Rattle.yaml_round_answers.specs.Listing.{Collects, StartsEmpty};

use crate::answer::{handed_out, misused, refused_in, said, yaml_c_answer};
use crate::counted::count_events;
use crate::listing::Listing;
use crate::number::encoding_of;
use crate::record::{yaml_c_directive, yaml_c_event};
use crate::spelled::{is_starved, spelled_text};
use std::alloc::Global;
use yaml_parse::{yaml_found_t, yaml_memory_fault, yaml_origin_t};
use yaml_round::{yaml_encoding_t, yaml_fault_t};
use yaml_round_reading::{ReadText, Reading, let_go, let_text_go, read_text, reading_of};

/// The events of an input, and the bytes and directives that they speak of. All three are the caller's to free, where they
/// have any item.
#[repr(C)]
#[derive(Drop)]
pub struct yaml_c_parsed {
    pub events: &'static [yaml_c_event],
    pub directives: &'static [yaml_c_directive],
    pub bytes: &'static [u8],
}

const _: () = prove!(size_of::<yaml_c_parsed>() == 48);

// Records of the events to their end, in a listing of nothing. The fault that ends them is the answer.
fn collect(reading: &mut Reading<'_>, listing: &mut Listing) -> Result<(), yaml_fault_t>
    requires { StartsEmpty listing.old }
    ensures { Collects reading.old.parser result listing.new }
{
    'events: loop {
        match reading.find() {
            yaml_found_t::Refused => return Err(reading.fault()),
            yaml_found_t::End => return Ok(()),
            yaml_found_t::Event => {
                let (start, end) = reading.marks();
                if listing.push(reading.event(), start, end).is_err() {
                    return Err(yaml_memory_fault(yaml_origin_t::Parser));
                }
            }
        }
    }
}

// Records of the events of the input whose text it is.
fn listed_in(alloc: Global, text: &ReadText<'_>, listing: &mut Listing) -> Result<(), yaml_fault_t>
    requires { StartsEmpty listing.old }
    ensures { EndsFront text.now.from text.now.bytes result listing.new }
{
    match reading_of(alloc, text) {
        Err(fault) => Err(fault),
        Ok(mut reading) => {
            let end = collect(&mut reading, listing);
            let_go(reading);
            end
        }
    }
}

// One function owns the text of both calls.
fn fronted(
    alloc: Global,
    input: &[u8],
    from: yaml_encoding_t,
    listing: &mut Listing,
) -> Result<(), yaml_fault_t>
    requires { StartsEmpty listing.old }
    ensures { EndsFront from input.now result listing.new }
{
    let text = read_text(alloc, input, from);
    let end = listed_in(alloc, &text, listing);
    let_text_go(text);
    end
}

fn nothing() -> yaml_c_parsed
    ensures { HasNothing result }
{
    yaml_c_parsed {
        events: &[],
        directives: &[],
        bytes: b"",
    }
}

// Blocks that live on for C, of a listing whose events have their places in that text.
fn blocks_of(text: &[u8], listing: Listing) -> yaml_c_parsed
    ensures { HandsOut text.now listing result }
{
    let Listing {
        mut events,
        directives,
        bytes,
    } = listing;
    count_events(text, &mut events);
    yaml_c_parsed {
        events: handed_out(events),
        directives: handed_out(directives),
        bytes: handed_out(bytes),
    }
}

// The same, or no block where memory was refused: a listing that was cut off is dropped.
fn blocks_unless(cut_off: bool, text: &[u8], listing: Listing) -> yaml_c_parsed
    ensures { HandsOutUnless cut_off text.now listing result }
{
    if cut_off {
        drop(listing);
        nothing()
    } else {
        blocks_of(text, listing)
    }
}

// Whether the events that were listed are not to be handed out: all are asked for, and a fault ended them, or memory was refused.
fn is_cut_off(whole: bool, end: &Result<(), yaml_fault_t>) -> bool
    ensures { result ≡ is_cut_off whole end.now }
{
    if whole { end.is_err() } else { is_starved(end) }
}

// The events of an input whose text it is: all of them, or those before its fault too.
fn given_in(
    alloc: Global,
    input: &[u8],
    from: yaml_encoding_t,
    text: &[u8],
    whole: bool,
    blocks: &mut yaml_c_parsed,
) -> yaml_c_answer
    requires { text.now ≡ spelled_text from input.now }
    ensures told { Gives whole input.now blocks.new from result }
    ensures none { GivesNone whole blocks.new result }
{
    let mut listing = Listing::new(alloc);
    let end = fronted(alloc, input, from, &mut listing);
    *blocks = blocks_unless(is_cut_off(whole, &end), text, listing);
    match end {
        Ok(()) => said(0),
        Err(fault) => refused_in(alloc, text, &fault),
    }
}

fn given(
    alloc: Global,
    input: &[u8],
    from: yaml_encoding_t,
    whole: bool,
    blocks: &mut yaml_c_parsed,
) -> yaml_c_answer
    ensures told { Gives whole input.now blocks.new from result }
    ensures none { GivesNone whole blocks.new result }
{
    match spelled_text(alloc, input, from) {
        Some(text) => given_in(alloc, input, from, text.as_slice(), whole, blocks),
        None => {
            *blocks = nothing();
            refused_in(alloc, b"", &yaml_memory_fault(yaml_origin_t::Parser))
        }
    }
}

/// What a parse answers, where its number means something: `whole` asks for all events, or none where a fault ends them, and else those
/// before the end or the fault are handed out.
pub fn given_by(
    alloc: Global,
    input: &[u8],
    from: i32,
    whole: bool,
    blocks: &mut yaml_c_parsed,
) -> yaml_c_answer
    ensures told { AnswersMeant (encoding_meant from) (Gives whole input.now blocks.new) result }
    ensures none { GivesNoneMeant whole (encoding_meant from) blocks.new result }
{
    match encoding_of(from) {
        Some(from) => given(alloc, input, from, whole, blocks),
        None => {
            *blocks = nothing();
            misused()
        }
    }
}
