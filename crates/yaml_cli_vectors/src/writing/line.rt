//! The calls `dump`, `emit_events`, `emit_calls` and `emit`. One function owns the emitter of all four, since an owner of an emitter is
//! expensive to prove.

use super::emit_calls::{put_calls, put_dump};
use super::emit_events::put_events;
use super::emitter::{emitter_under, flush};
use crate::lines::{Reply, settings_of};
use serde_json::Value;
use std::mem;
use yaml_emit::{yaml_emitter_delete, yaml_emitter_emit_ref, yaml_emitter_output, yaml_emitter_t};
use yaml_parse::{yaml_event_type_t, yaml_event_utf8};

// What the emitter writes of the events that a parser gave, whose texts are UTF-8, each where it is held, up to the empty one.
// What is refused of them is answered by the flush.
fn put_kept(reply: &mut Reply, emitter: &mut yaml_emitter_t) {
    let mut kept = mem::replace(&mut reply.kept, Vec::new(reply.alloc));
    for event in kept.as_mut_slice() {
        if !yaml_event_utf8(event) {
            reply.miss("events");
            break;
        }
        if event.type_() != yaml_event_type_t::YAML_NO_EVENT {
            yaml_emitter_emit_ref(emitter, event.body.borrowed());
        }
    }
    reply.done(flush(emitter));
    reply.field_bytes("answer", yaml_emitter_output(emitter));
}

/// What an emitter under the line's settings answers on what it is given: the line's document, events or calls; or the events that
/// a parser gave.
pub fn emit_line(reply: &mut Reply, line: &Value, call: &str) {
    let settings = settings_of(reply, line);
    match emitter_under(reply.alloc, &settings.asked, settings.limit) {
        Ok(mut emitter) => {
            match call {
                "dump" => put_dump(reply, line, &mut emitter),
                "emit_events" => put_events(reply, line, &mut emitter),
                "emit_calls" => put_calls(reply, line, &mut emitter),
                _ => put_kept(reply, &mut emitter),
            }
            yaml_emitter_delete(emitter);
        }
        Err(fault) => reply.done(Some(fault)),
    }
}
