//! The calls that lines name.

use crate::difference::{compare, list_differences};
use crate::lines::{ENCODINGS, Reply, tokens};
use crate::reading::{next_tokens, parse_input, parse_tokens, scan};
use crate::writing::{emit_again, emit_line};
use crate::{checks, engine, making, program, run};
use serde_json::Value;
use yaml_scan::yaml_encoding_t;

/// An input, and how it is encoded.
#[derive(Clone, Copy)]
pub struct Input<'a> {
    pub text: &'a [u8],
    pub from: yaml_encoding_t,
}

// What a call answers on the line's input, which this function owns. A line of `emit` needs no events, and if its input is refused it
// needn't have settings.
fn answer_input(reply: &mut Reply, line: &Value, call: &str) {
    let from = reply.choice(line, "/from", &ENCODINGS);
    let text = reply.input(line, "/input");
    let text = text.as_slice();
    let input = &Input { text, from };
    match call {
        "loads" => engine::loads(reply, input),
        "keys" => engine::keys(reply, input),
        "line" => engine::fault_line(reply, input),
        "lookup" => engine::look_up(reply, line, input),
        "least_limit" => engine::least_limit(reply, line, input),
        "same" | "diff" | "diff_documents" => compare(reply, line, call, input),
        "differences" => list_differences(reply, line, input),
        "run" => run::run(reply, line, input),
        "scan" | "scan_calls" => scan(reply, line, input),
        "next_tokens" => next_tokens(reply, line, input),
        "parse" | "load" | "parse_calls" => parse_input(reply, line, "answer", input),
        "emit" => {
            parse_input(reply, line, "events", input);
            emit_line(reply, line, call);
        }
        _ => engine::make(reply, line, call, input),
    }
}

/// What the call that the line names answers; the reply keeps the fault where it only refuses.
pub fn answer(rt: &HostRuntime, reply: &mut Reply, line: &Value) {
    let call = reply.text(line, "/call");
    reply.again = match call {
        "scan" => Some("scan"),
        "parse" | "parse_tokens" | "emit" => Some("parse"),
        "load" | "load_tokens" => Some("load"),
        _ => None,
    };
    match call {
        "parse_tokens" | "load_tokens" => parse_tokens(reply, line),
        "parse_calls" if line.get("tokens").is_some() => parse_tokens(reply, line),
        "emit_events" | "emit_calls" | "dump" => emit_line(reply, line, call),
        "emit_limits" | "emit_pieces" => emit_again(reply, line, call),
        "make_document" => making::make_document(reply, line),
        "make_events" => making::make_events(reply, line),
        "main" => program::run(rt, reply, line),
        "read_all" => run::read_all(reply, line),
        "told" => engine::told(reply, line),
        "tokens" => tokens(reply, line),
        "check" => checks::answer(reply, line),
        _ => answer_input(reply, line, call),
    }
}
