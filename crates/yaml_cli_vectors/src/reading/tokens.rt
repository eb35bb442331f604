//! What a session over the line's input answers, and a source of a parser's tokens.

use super::{Found, call_at, put_refused};
use crate::call::Input;
use crate::lines::{Part, Reply, show_token};
use serde_json::Value;
use yaml_parse::yaml_token_source_t;
use yaml_round_reading::yaml_adapter_t;
use yaml_scan::{
    yaml_parser_fault, yaml_parser_has_token, yaml_parser_peek, yaml_parser_scan, yaml_parser_skip,
    yaml_parser_t, yaml_token_t, yaml_token_type_t,
};

// Puts the token, and drops it, or the fault. Whether there may be more.
fn put_token(reply: &mut Reply, line: &Value, found: Found<yaml_token_t>) -> bool {
    match found {
        Ok(token) => {
            let more = reply.again.is_none() || token.type_() != yaml_token_type_t::YAML_NO_TOKEN;
            if more {
                show_token(reply, &token);
            }
            drop(token);
            more
        }
        Err(fault) => put_refused(reply, line, fault),
    }
}

// Drops the token that was passed by reference, and puts whether there is one.
fn put_skipped(reply: &mut Reply, session: &mut yaml_parser_t<'_>) {
    let known = yaml_parser_has_token(session);
    if known {
        yaml_parser_skip(session);
    }
    reply.put(Part::Flag(known));
}

// What the call of that number answers: a token that is given, or that is passed by reference, which `skip` drops; whether one is
// known; the fault that the session keeps. Whether there may be more.
fn put_call(reply: &mut Reply, line: &Value, number: u64, session: &mut yaml_parser_t<'_>) -> bool {
    match call_at(reply, line, number) {
        Some("scan") => return put_token(reply, line, yaml_parser_scan(session)),
        Some("peek") => match yaml_parser_peek(session) {
            Ok(token) => show_token(reply, token),
            Err(fault) => reply.put_fault(line, &fault),
        },
        Some("skip") => put_skipped(reply, session),
        Some("has") => reply.put(Part::Flag(yaml_parser_has_token(session))),
        Some("fault") => reply.put_told(line, yaml_parser_fault(session)),
        Some(_) => reply.miss("calls"),
        None => return false,
    }
    true
}

/// What that many calls of the input's source answer, as a parser makes them: a token, the empty one after the end, or a fault.
pub fn next_tokens(reply: &mut Reply, line: &Value, input: &Input<'_>) {
    reply.field("answer", Part::List);
    let mut adapter = yaml_adapter_t::new(reply.alloc, input.text, input.from);
    for _ in 0..reply.count(line, "/calls") {
        put_token(reply, line, adapter.next_token());
    }
    drop(adapter);
    reply.put(Part::EndList);
}

/// The tokens of the input, and the fault after them where there is one; or what the line's calls answer.
pub fn scan(reply: &mut Reply, line: &Value, input: &Input<'_>) {
    reply.field("answer", Part::List);
    let mut session = yaml_parser_t::new(reply.alloc, input.text, input.from);
    for number in 0..u64::MAX {
        if !put_call(reply, line, number, &mut session) {
            break;
        }
    }
    drop(session);
    reply.put(Part::EndList);
}
