//! The calls `emit_limits` and `emit_pieces`: the line's events again, under other limits or in pieces.

use super::pieces::{Pieces, written};
use crate::engine::is_full;
use crate::lines::{Part, Reply, Settings, settings_of};
use serde_json::Value;

fn is_same(got: &Pieces, whole: &Pieces) -> bool {
    got.fault == whole.fault && got.text == whole.text
}

// Whether that is the front of the whole text that fits the limit, with the fault of a full output where that isn't all.
fn is_front(got: &Pieces, whole: &Pieces, limit: usize) -> bool {
    let text = whole.text.as_slice();
    if limit < text.len() {
        return got.text.as_slice() == &text[..limit] && is_full(got.fault);
    }
    is_same(got, whole)
}

// The first limit, up to two after the text's end, that isn't right; none where the events are refused.
fn wrong_limit(reply: &mut Reply, line: &Value, whole: &Pieces) -> Option<u64> {
    let Settings { asked, limit } = whole.settings;
    if whole.fault.is_some() {
        return None;
    }
    for number in 0..whole.text.len().saturating_add(2) {
        let limit = limit.min(number as u64);
        let got = written(reply, line, Settings { asked, limit }, usize::MAX);
        if !is_front(&got, whole, number) {
            return Some(number as u64);
        }
    }
    None
}

// How many sizes of pieces are right before one isn't.
fn wrong_size(reply: &mut Reply, line: &Value, whole: &Pieces) -> Option<u64> {
    for size in 1..reply.list(line, "/events").len() {
        if !is_same(&written(reply, line, whole.settings, size), whole) {
            return Some((size - 1) as u64);
        }
    }
    None
}

/// The text, or the fault, of the line's events; else how many limits or sizes of pieces are right before one isn't. Under any
/// lesser limit an emitter is to write the front that fits, and to answer that its output is full; the line's own limit isn't to
/// be passed then. Pieces of 1, 2 and more events, each given to an emitter that continues where
/// the one before it stopped, must have the same text and fault.
pub fn emit_again(reply: &mut Reply, line: &Value, call: &str) {
    let settings = settings_of(reply, line);
    let whole = written(reply, line, settings, usize::MAX);
    let wrong = match call {
        "emit_limits" => wrong_limit(reply, line, &whole),
        _ => wrong_size(reply, line, &whole),
    };
    match wrong {
        Some(number) => reply.field("answer", Part::Count(number)),
        None => {
            reply.field_bytes("answer", whole.text.as_slice());
            reply.done(whole.fault);
        }
    }
}
