//! Events, as the lines write them: the event's line, start mark, end mark, and what the event carries besides.

use crate::lines::words::{ENCODINGS, MAPPINGS, SEQUENCES, word_of};
use crate::lines::{Part, Reply};
use yaml_parse::{
    yaml_event_body_t as Body, yaml_event_t, yaml_tag_directive_t, yaml_version_directive_t,
};
use yaml_round_reading::yaml_push_event_line;

// The line of the event, without its end.
fn put_event_line(reply: &mut Reply, event: &yaml_event_t) {
    let mut line = Vec::new(reply.alloc);
    let pushed = yaml_push_event_line(&mut line, event);
    let told = line.as_slice();
    reply.put_utf8(told.strip_suffix(b"\n".as_slice()).unwrap_or(told));
    reply.room(pushed);
}

/// Two numbers, as a list.
pub fn put_numbers(reply: &mut Reply, first: i32, second: i32) {
    reply.put_all(&[Part::List, Part::Number(first)]);
    reply.put_all(&[Part::Number(second), Part::EndList]);
}

/// A version: major and minor, or null.
pub fn show_version(reply: &mut Reply, version: Option<yaml_version_directive_t>) {
    match version {
        Some(version) => put_numbers(reply, version.major, version.minor),
        None => reply.put(Part::Null),
    }
}

/// Tag directives: of each the handle as it is and the prefix in hexadecimal digits.
pub fn show_directives(reply: &mut Reply, directives: &[yaml_tag_directive_t]) {
    reply.put(Part::List);
    for directive in directives {
        reply.put(Part::List);
        reply.put_utf8(directive.handle.as_slice());
        reply.put_bytes(directive.prefix.as_slice());
        reply.put(Part::EndList);
    }
    reply.put(Part::EndList);
}

fn put_start(reply: &mut Reply, implicit: bool, style: &'static str) {
    reply.put_all(&[Part::Flag(implicit), Part::Word(style)]);
}

// What the event has that its line doesn't show: for a scalar whether its tag may be left out in plain style, and in
// every other.
fn put_carried(reply: &mut Reply, body: &Body) {
    match body {
        Body::StreamStart { encoding } => reply.put(Part::Word(word_of(&ENCODINGS, *encoding))),
        Body::DocumentStart {
            version_directive,
            tag_directives,
            ..
        } => {
            show_version(reply, *version_directive);
            show_directives(reply, tag_directives.as_slice());
        }
        Body::Scalar {
            plain_implicit: first,
            quoted_implicit: second,
            ..
        } => reply.put_all(&[Part::Flag(*first), Part::Flag(*second)]),
        Body::SequenceStart {
            implicit,
            style,
            ..
        } => put_start(reply, *implicit, word_of(&SEQUENCES, *style)),
        Body::MappingStart {
            implicit,
            style,
            ..
        } => put_start(reply, *implicit, word_of(&MAPPINGS, *style)),
        _ => {}
    }
}

/// Puts the event as the lines write it.
pub fn show_event(reply: &mut Reply, event: &yaml_event_t) {
    reply.put(Part::List);
    put_event_line(reply, event);
    reply.put_all(&[Part::Mark(event.start_mark), Part::Mark(event.end_mark)]);
    put_carried(reply, &event.body);
    reply.put(Part::EndList);
}
