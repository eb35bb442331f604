//! What parsers of an input, or of listed tokens, answer.

use super::{Found, call_at, put_refused};
use crate::call::Input;
use crate::lines::{Part, Reply, own_fault, read_token, show_document, show_event};
use serde_json::Value;
use yaml_parse::{
    yaml_document_delete, yaml_document_get_root_node, yaml_document_t, yaml_event_body_t,
    yaml_event_t, yaml_event_type_t, yaml_fault_t, yaml_found_t, yaml_memory_fault, yaml_origin_t,
    yaml_parser_between, yaml_parser_delete, yaml_parser_initialize, yaml_parser_load,
    yaml_parser_parse, yaml_parser_parse_into, yaml_parser_prefix, yaml_parser_t,
    yaml_parser_t_prefix, yaml_token_source_t,
};
use yaml_parse_states::{yaml_token_list_t, yaml_token_utf8};
use yaml_round_reading::yaml_adapter_t;

// Puts the event, unless all are asked for and it is the empty one after the last, or the fault. The event is kept anyway: to drop
// each by itself is harder to prove. Whether there may be more.
fn put_event(reply: &mut Reply, line: &Value, found: Found<yaml_event_t>) -> bool {
    match found {
        Ok(event) => {
            let more = reply.again.is_none() || event.type_() != yaml_event_type_t::YAML_NO_EVENT;
            if more {
                show_event(reply, &event);
            }
            reply.keep(event);
            more
        }
        Err(fault) => put_refused(reply, line, fault),
    }
}

// Puts the document, unless all are asked for and it is the one without a root after the last, or the fault. Whether there may be more.
fn put_document(reply: &mut Reply, line: &Value, found: Found<yaml_document_t>) -> bool {
    match found {
        Ok(document) => {
            let more = reply.again.is_none() || yaml_document_get_root_node(&document).is_some();
            if more {
                show_document(reply, &document);
            }
            yaml_document_delete(document);
            more
        }
        Err(fault) => put_refused(reply, line, fault),
    }
}

// Puts the next event, which is parsed into slots, or the fault.
fn put_slot<S: yaml_token_source_t>(
    reply: &mut Reply,
    line: &Value,
    parser: &mut yaml_parser_t<S>,
) {
    let mut event = yaml_event_t::unplaced(yaml_event_body_t::No);
    let mut fault = yaml_memory_fault(yaml_origin_t::Parser);
    match yaml_parser_parse_into(parser, &mut event, &mut fault) {
        yaml_found_t::Event => show_event(reply, &event),
        yaml_found_t::Refused => reply.put_fault(line, &fault),
        yaml_found_t::End => reply.put(Part::Word("end")),
    }
    reply.keep(event);
}

// Puts what a parser's own fields say of a fault.
fn put_prefix(reply: &mut Reply, line: &Value, prefix: &yaml_parser_t_prefix) {
    let fault = yaml_fault_t {
        kind: prefix.kind,
        problem: prefix.problem,
        offset: prefix.offset,
        value: prefix.value,
        problem_mark: prefix.problem_mark,
        context: prefix.context,
        context_mark: prefix.context_mark,
        origin: prefix.origin,
    };
    reply.put_fault(line, &fault);
}

// What the call of that number answers: an event by its value, or in a slot; a document; whether the parser is between documents;
// the fault that its fields report. Whether there may be more.
fn put_call<S: yaml_token_source_t>(
    reply: &mut Reply,
    line: &Value,
    number: u64,
    parser: &mut yaml_parser_t<S>,
) -> bool {
    let is_between = yaml_parser_between(parser);
    match call_at(reply, line, number) {
        Some("parse") => return put_event(reply, line, yaml_parser_parse(parser)),
        Some("load") if is_between => return put_document(reply, line, yaml_parser_load(parser)),
        Some("load") => reply.put(Part::Word("not between")),
        Some("into") => put_slot(reply, line, parser),
        Some("between") => reply.put(Part::Flag(is_between)),
        Some("prefix") => put_prefix(reply, line, yaml_parser_prefix(parser)),
        Some(_) => reply.miss("calls"),
        None => return false,
    }
    reply.again.is_none()
}

// Puts in that field what a parser of the source's tokens answers. One function owns the parser of all that is asked of one, since an
// owner of a parser is expensive to prove.
fn parse<S: yaml_token_source_t>(reply: &mut Reply, line: &Value, name: &str, source: S) {
    reply.field(name, Part::List);
    match yaml_parser_initialize(reply.alloc, source) {
        Ok(mut parser) => {
            for number in 0..u64::MAX {
                if !put_call(reply, line, number, &mut parser) {
                    break;
                }
            }
            yaml_parser_delete(parser);
        }
        Err(fault) => reply.done(Some(fault)),
    }
    reply.put(Part::EndList);
}

/// What a parser of the input gives, which reads it as it goes.
pub fn parse_input(reply: &mut Reply, line: &Value, name: &str, input: &Input<'_>) {
    let source = yaml_adapter_t::new(reply.alloc, input.text, input.from);
    parse(reply, line, name, source);
}

// The tokens that the line lists, whose texts are to be UTF-8, and after them its own fault where it has one.
fn list_of(reply: &mut Reply, line: &Value) -> yaml_token_list_t {
    let mut list = yaml_token_list_t::new(reply.alloc);
    for listed in reply.list(line, "/tokens") {
        let token = read_token(reply, listed);
        if yaml_token_utf8(&token) {
            reply.room(list.push(token));
        } else {
            reply.miss("tokens");
        }
    }
    match line.get("own") {
        Some(own) if own.is_object() => list.end(own_fault(reply, own)),
        _ => {}
    }
    list
}

/// What a parser of the tokens that the line lists gives.
pub fn parse_tokens(reply: &mut Reply, line: &Value) {
    let source = list_of(reply, line);
    parse(reply, line, "answer", source);
}
