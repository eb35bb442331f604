//! The URIs of tags and prefixes, with their escapes.

ghost use Rattle.std.specs.Prelude.{◌≡◌, ◌<◌, ◌≤◌, ◌+◌, ◌++◌, true, false, length, IfOk};
ghost use Rattle.yaml_scan_types.specs.Ascii as ascii;
ghost use Rattle.yaml_scan_types.specs.Marks.{byte};
ghost use Rattle.yaml_scan_history.specs.Uris as uris;
ghost use Rattle.yaml_scan_text.specs.NamesRead as spec;
ghost use Rattle.yaml_scan_text.specs.Refused.{Keeps};

use crate::class::uri_run;
use crate::quoted::hex_digit;
use crate::refusal::{Refusal, wrong_at};
use crate::text::byte;
use std::alloc::AllocError;
use yaml_scan_model::{Context, Problem};

/// A URI: where it ends, and whether it was spelled out, as it is where it has escapes.
#[derive(Clone, Copy, Drop)]
pub struct Uri {
    pub end: usize,
    pub joined: bool,
}

/// The URI that is there: a part of the text, or spelled out after the arena where it has escapes.
pub fn uri_at(
    arena: &mut Vec<u8>,
    text: &[u8],
    from: usize,
    context: Context,
    wide: bool,
) -> Result<Uri, Refusal>
    requires { from ≤ length text.now }
    ensures value { spec.ReadsUri text.now from arena.old.items arena.new.items result
        (uris.uri_at context wide text.now from) }
    ensures kept { Keeps arena.old.items arena.new.items }
{
    let end = uri_run(text, from, wide);
    if byte(text, end) != b'%' {
        return Ok(Uri { end, joined: false });
    }
    spell_uri(arena, text, from, end, context, wide)
}

/// The same, of one byte at least.
pub fn some_uri(
    arena: &mut Vec<u8>,
    text: &[u8],
    from: usize,
    context: Context,
    wide: bool,
) -> Result<Uri, Refusal>
    requires { from ≤ length text.now }
    ensures value { spec.ReadsUri text.now from arena.old.items arena.new.items result
        (uris.some_uri_at context wide text.now from) }
    ensures kept { Keeps arena.old.items arena.new.items }
{
    let uri = uri_at(arena, text, from, context, wide)?;
    if uri.end == from {
        return Err(Refusal::Wrong(wrong_at(Problem::NoTagUri, context, from)));
    }
    Ok(uri)
}

/// The URI that starts there, whose first escape is at the other place.
fn spell_uri(
    arena: &mut Vec<u8>,
    text: &[u8],
    from: usize,
    first: usize,
    context: Context,
    wide: bool,
) -> Result<Uri, Refusal>
    requires run { uris.IsKept wide text.now from first }
    requires inside { first ≤ length text.now }
    requires mark { byte text.now first ≡ ascii.percent }
    ensures value { spec.ReadsUri text.now from arena.old.items arena.new.items result
        (uris.uri_at context wide text.now from) }
    ensures kept { Keeps arena.old.items arena.new.items }
{
    arena.extend_from_slice(&text[from..first])?;
    let mut at = first;
    let mut due = 0;
    'escapes: while byte(text, at) == b'%' {
        due = put_octet(arena, text, at, due, context)?;
        at = put_kept(arena, text, at + 3, due, wide)?;
    }
    if due > 0 {
        return Err(Refusal::Wrong(wrong_at(Problem::NoEscapedOctet, context, at)));
    }
    Ok(Uri {
        end: at,
        joined: true,
    })
}

/// Appends the bytes there that the URI holds as they are, unless escapes are due, and answers the place after.
fn put_kept(
    arena: &mut Vec<u8>,
    text: &[u8],
    from: usize,
    due: usize,
    wide: bool,
) -> Result<usize, AllocError>
    requires { from ≤ length text.now }
    ensures value { IfOk result (λ q. spec.IsKeptBehind wide due text.now from arena.old.items
        arena.new.items q) }
    ensures kept { Keeps arena.old.items arena.new.items }
{
    if due > 0 {
        return Ok(from);
    }
    let end = uri_run(text, from, wide);
    arena.extend_from_slice(&text[from..end])?;
    Ok(end)
}

/// Appends the octet that the escape there spells, where that many are due with it, and answers how many are due after.
fn put_octet(
    arena: &mut Vec<u8>,
    text: &[u8],
    at: usize,
    due: usize,
    context: Context,
) -> Result<usize, Refusal>
    requires { byte text.now at ≡ ascii.percent }
    ensures value { spec.PutsOctet context at arena.old.items arena.new.items result
        (uris.octet_spot due at (uris.octet_at text.now at)) }
    ensures kept { Keeps arena.old.items arena.new.items }
{
    match octet_behind(text, at, due) {
        Err(problem) => Err(Refusal::Wrong(wrong_at(problem, context, at))),
        Ok(octet) => {
            arena.push(octet.byte)?;
            Ok(octet.due)
        }
    }
}

/// A byte that an escape spells, and how many escapes are due after it.
#[derive(Clone, Copy)]
struct Octet {
    byte: u8,
    due: usize,
}

/// The octet that the escape there spells, where that many are due with it.
fn octet_behind(text: &[u8], at: usize, due: usize) -> Result<Octet, Problem>
    requires { byte text.now at ≡ ascii.percent }
    ensures { spec.SpellsOctet at result (uris.octet_spot due at (uris.octet_at text.now at)) }
{
    let Some(byte) = octet_at(text, at) else {
        return Err(Problem::NoEscapedOctet);
    };
    let due = due_behind(byte, due)?;
    Ok(Octet { byte, due })
}

/// The number that the two digits spell after the `%` there.
#[tactic(auto, unfolding(yaml_scan_history::specs::Uris::octet_at))]
fn octet_at(text: &[u8], at: usize) -> Option<u8>
    requires { byte text.now at ≡ ascii.percent }
    ensures { result ≡ uris.octet_at text.now at }
{
    let high = hex_digit(byte(text, at + 1))?;
    let low = hex_digit(byte(text, at + 2))?;
    Some(high * 16 + low)
}

/// How many escapes are due after an octet, where that many are due with it: those of the rest of its character.
#[tactic(auto, unfolding(yaml_scan_history::specs::Uris::due_behind))]
fn due_behind(octet: u8, due: usize) -> Result<usize, Problem>
    ensures { result ≡ uris.due_behind octet due }
{
    if due > 0 {
        if octet < 0x80 || octet > 0xBF {
            return Err(Problem::WrongTrailingOctet);
        }
        return Ok(due - 1);
    }
    match octet {
        0..=0x7F => Ok(0),
        0xC0..=0xDF => Ok(1),
        0xE0..=0xEF => Ok(2),
        0xF0..=0xF7 => Ok(3),
        _ => Err(Problem::WrongLeadingOctet),
    }
}
