//! Tokens, as the lines write them: kind, start mark, end mark, and what the token carries.

use crate::lines::words::{ENCODINGS, SCALARS, word_at, word_of};
use crate::lines::{Part, Reply};
use serde_json::Value;
use yaml_scan::{yaml_token_body_t as Body, yaml_token_t};

// The words of `yaml_token_type_t`.
const KINDS: &'static str =
    "NO STREAM-START STREAM-END VERSION-DIRECTIVE TAG-DIRECTIVE DOCUMENT-START DOCUMENT-END \
    BLOCK-SEQUENCE-START BLOCK-MAPPING-START BLOCK-END FLOW-SEQUENCE-START FLOW-SEQUENCE-END FLOW-MAPPING-START \
    FLOW-MAPPING-END BLOCK-ENTRY FLOW-ENTRY KEY VALUE ALIAS ANCHOR TAG SCALAR";

fn put_two(reply: &mut Reply, first: &Vec<u8>, second: &Vec<u8>) {
    reply.put_bytes(first.as_slice());
    reply.put_bytes(second.as_slice());
}

// What the token carries.
fn put_carried(reply: &mut Reply, body: &Body) {
    match body {
        Body::StreamStart { encoding } => reply.put(Part::Word(word_of(&ENCODINGS, *encoding))),
        Body::VersionDirective { major, minor } => {
            reply.put_all(&[Part::Number(*major), Part::Number(*minor)]);
        }
        Body::TagDirective { handle, prefix } => put_two(reply, handle, prefix),
        Body::Tag { handle, suffix } => put_two(reply, handle, suffix),
        Body::Alias { value } | Body::Anchor { value } => reply.put_bytes(value.as_slice()),
        Body::Scalar { value, style } => {
            reply.put_bytes(value.as_slice());
            reply.put(Part::Word(word_of(&SCALARS, *style)));
        }
        _ => {}
    }
}

/// Puts the token as the lines write it.
pub fn show_token(reply: &mut Reply, token: &yaml_token_t) {
    let kind = word_at(KINDS, token.type_() as usize);
    reply.put_all(&[Part::List, Part::Word(kind)]);
    reply.put_all(&[Part::Mark(token.start_mark), Part::Mark(token.end_mark)]);
    put_carried(reply, &token.body);
    reply.put(Part::EndList);
}

// The body of a token that carries nothing.
fn plain_body(reply: &mut Reply, kind: &str) -> Body {
    match kind {
        "STREAM-END" => Body::StreamEnd,
        "DOCUMENT-START" => Body::DocumentStart,
        "DOCUMENT-END" => Body::DocumentEnd,
        "BLOCK-SEQUENCE-START" => Body::BlockSequenceStart,
        "BLOCK-MAPPING-START" => Body::BlockMappingStart,
        "BLOCK-END" => Body::BlockEnd,
        "FLOW-SEQUENCE-START" => Body::FlowSequenceStart,
        "FLOW-SEQUENCE-END" => Body::FlowSequenceEnd,
        "FLOW-MAPPING-START" => Body::FlowMappingStart,
        "FLOW-MAPPING-END" => Body::FlowMappingEnd,
        "BLOCK-ENTRY" => Body::BlockEntry,
        "FLOW-ENTRY" => Body::FlowEntry,
        "KEY" => Body::Key,
        "VALUE" => Body::Value,
        _ => {
            reply.miss("token");
            Body::No
        }
    }
}

fn body(reply: &mut Reply, token: &Value) -> Body {
    match reply.text(token, "/0") {
        "STREAM-START" => Body::StreamStart {
            encoding: reply.choice(token, "/3", &ENCODINGS),
        },
        "VERSION-DIRECTIVE" => Body::VersionDirective {
            major: reply.number(token, "/3"),
            minor: reply.number(token, "/4"),
        },
        "TAG-DIRECTIVE" => Body::TagDirective {
            handle: reply.bytes(token, "/3"),
            prefix: reply.bytes(token, "/4"),
        },
        "ALIAS" => Body::Alias {
            value: reply.bytes(token, "/3"),
        },
        "ANCHOR" => Body::Anchor {
            value: reply.bytes(token, "/3"),
        },
        "TAG" => Body::Tag {
            handle: reply.bytes(token, "/3"),
            suffix: reply.bytes(token, "/4"),
        },
        "SCALAR" => Body::Scalar {
            value: reply.bytes(token, "/3"),
            style: reply.choice(token, "/4", &SCALARS),
        },
        kind => plain_body(reply, kind),
    }
}

/// The token that the lines write so.
pub fn read_token(reply: &mut Reply, token: &Value) -> yaml_token_t {
    yaml_token_t {
        body: body(reply, token),
        start_mark: reply.mark(token, "/1"),
        end_mark: reply.mark(token, "/2"),
    }
}

/// The call `tokens`: the line's tokens, read and written again.
pub fn tokens(reply: &mut Reply, line: &Value) {
    reply.field("answer", Part::List);
    for listed in reply.list(line, "/tokens") {
        let token = read_token(reply, listed);
        show_token(reply, &token);
        drop(token);
    }
    reply.put(Part::EndList);
}
