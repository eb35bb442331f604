//! The call `check`, what the other calls can't say: that an output stops for its own reason. A stopped one meets every clause.

use crate::lines::{Part, Reply};
use serde_json::Value;
use yaml_emit::{
    Cursor, Encoding, Expected, Level, Phase, RequestedSettings, yaml_emitter_delete,
    yaml_emitter_emit, yaml_emitter_output, yaml_emitter_resume, yaml_emitter_stand_t,
    yaml_emitter_t,
};
use yaml_parse::{yaml_event_body_t, yaml_event_t};
use yaml_scan::yaml_sequence_style_t;

// Gives the start of a flow sequence; returns the number of the kind of the fault, 0 where there is none.
fn give_start(emitter: &mut yaml_emitter_t) -> u64 {
    let event = yaml_event_t::unplaced(yaml_event_body_t::SequenceStart {
        anchor: None,
        tag: None,
        implicit: true,
        style: yaml_sequence_style_t::YAML_FLOW_SEQUENCE_STYLE,
    });
    let given = yaml_emitter_emit(emitter, event);
    given.err().map_or(0, |fault| fault.kind as u64)
}

// Gives the starts of sequences to an emitter of three bytes at most, in a flow sequence of that indentation: that many are right, and
// the next one stops the output with the fault of that kind, as does each after it. What is put then isn't there.
fn put_stop(reply: &mut Reply, name: &str, indent: u64, right: u64, wanted: u64) {
    let alloc = reply.alloc;
    let asked = RequestedSettings::new();
    let stand = yaml_emitter_stand_t {
        encoding: Encoding::Utf8,
        place: Expected::Node,
        innermost: Some(Level {
            phase: Phase::Items(true),
            flow: true,
            indent,
        }),
        cursor: Cursor {
            column: 0,
            white: true,
            bare: false,
            kept: false,
        },
        waiting: 0,
    };
    match yaml_emitter_resume(alloc, asked, 3, stand, Vec::new(alloc), Vec::new(alloc)) {
        Err(_) => reply.miss("stop"),
        Ok(mut emitter) => {
            let mut is_right = true;
            for number in 0..right.saturating_add(2) {
                let told = if number < right { 0 } else { wanted };
                is_right = is_right & (give_start(&mut emitter) == told);
            }
            let front = b"[[[".starts_with(yaml_emitter_output(&emitter));
            yaml_emitter_delete(emitter);
            reply.field(name, Part::Flag(is_right & front));
        }
    }
}

/// Whether what the line names is right, thing by thing: an object, in which every name is a thing that was asked.
pub fn answer(reply: &mut Reply, line: &Value) {
    reply.field("answer", Part::Object);
    match reply.text(line, "/of") {
        "an output stops" => {
            put_stop(reply, "full", 0, 5, 6);
            put_stop(reply, "deep", i32::MAX as u64, 2, 7);
        }
        _ => reply.miss("/of"),
    }
    reply.put(Part::EndObject);
}
