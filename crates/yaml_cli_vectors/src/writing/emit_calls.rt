//! The calls `emit_calls`, calls of an emitter one after another, and `dump`.

use super::emitter::{flush, give, turn};
use crate::lines::{Part, Reply, document_of};
use serde_json::Value;
use yaml_emit::{yaml_emitter_dump, yaml_emitter_opened, yaml_emitter_output, yaml_emitter_t};
use yaml_scan::yaml_fault_t;

// Dumps the document that the fields describe; returns its fault.
fn dumped(reply: &mut Reply, fields: &Value, emitter: &mut yaml_emitter_t) -> Option<yaml_fault_t> {
    match document_of(reply, fields) {
        Ok(document) => yaml_emitter_dump(emitter, document).err(),
        Err(fault) => {
            reply.refuse_text(Some(fault));
            None
        }
    }
}

// Whether the output is a front of those bytes. How much of a text has been written at a refusal is open.
fn put_front(reply: &mut Reply, whole: &Value, text: &[u8]) {
    let whole = reply.bytes(whole, "");
    reply.put(Part::Flag(whole.as_slice().starts_with(text)));
}

// What the call answers: whether the stream is opened; the output, or whether it is a front of a text; null or the fault where an
// event or a document is given, the stream is turned (opened, or closed where it was opened) or flushed.
fn put_call(reply: &mut Reply, line: &Value, call: &Value, emitter: &mut yaml_emitter_t) {
    let given = call.get(1).unwrap_or(call);
    let fault = match reply.text(call, "/0") {
        "opened" => return reply.put(Part::Flag(yaml_emitter_opened(emitter))),
        "output" => return reply.put_bytes(yaml_emitter_output(emitter)),
        "front" => return put_front(reply, given, yaml_emitter_output(emitter)),
        "emit" => give(reply, given, emitter),
        "dump" => dumped(reply, given, emitter),
        "turn" => turn(emitter),
        "flush" => flush(emitter),
        _ => return reply.miss("calls"),
    };
    reply.put_told(line, fault.as_ref());
}

/// What the line's calls answer.
pub fn put_calls(reply: &mut Reply, line: &Value, emitter: &mut yaml_emitter_t) {
    reply.field("answer", Part::List);
    for call in reply.list(line, "/calls") {
        put_call(reply, line, call, emitter);
    }
    reply.put(Part::EndList);
}

/// What open, dump and close write of the line's document. After a fault each call answers it again.
pub fn put_dump(reply: &mut Reply, line: &Value, emitter: &mut yaml_emitter_t) {
    reply.done(turn(emitter));
    let fields = reply.value(line, "/document");
    let fault = dumped(reply, fields, emitter);
    reply.done(fault);
    reply.done(turn(emitter));
    reply.field_bytes("answer", yaml_emitter_output(emitter));
}
