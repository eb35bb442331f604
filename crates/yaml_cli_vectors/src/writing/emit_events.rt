//! The call `emit_events`.

use super::emitter::{flush, give};
use super::flushed::put_flushes;
use crate::lines::{Part, Reply};
use serde_json::Value;
use yaml_emit::{yaml_emitter_output, yaml_emitter_t};
use yaml_scan::{yaml_error_type_t, yaml_fault_t};

// The calls so far.
#[derive(Clone, Copy, Default)]
struct Course {
    // The first fault.
    fault: Option<yaml_fault_t>,
    // How many calls there were before it.
    number: u64,
    // Whether a call after it answered something else, or wrote.
    lost: bool,
    // How many bytes the text had then.
    size: usize,
    // Whether the last event is the stream's end.
    whole: bool,
}

impl Course {
    // Takes what a call answered, and how many bytes the text has then.
    fn take(&mut self, answer: Option<yaml_fault_t>, size: usize) {
        if self.fault.is_some() {
            self.lost = self.lost || answer != self.fault || size != self.size;
            return;
        }
        self.fault = answer;
        self.size = size;
        self.number = self.number.wrapping_add(u64::from(answer.is_none()));
    }
}

// Gives the events, with the flushes in mid-stream that the line has, until a fault comes, and puts what each of these showed.
fn give_all(reply: &mut Reply, line: &Value, emitter: &mut yaml_emitter_t, course: &mut Course) {
    for listed in reply.list(line, "/events") {
        course.whole = reply.text(listed, "/0") == "STREAM-END";
        let fault = give(reply, listed, emitter);
        course.take(fault, yaml_emitter_output(emitter).len());
        if course.fault.is_none() {
            put_flushes(reply, line, course.number, emitter);
        }
    }
    let fault = flush(emitter);
    course.take(fault, yaml_emitter_output(emitter).len());
}

// What became of the events, after a last flush: the text, and whether the events end the stream; or the fault, and where it came:
// the number of the refused call where the event is refused, else the output. No line wants `kept`: a call after the fault answered
// something else, or wrote.
fn put_course(reply: &mut Reply, text: &[u8], course: &Course) {
    if course.lost {
        reply.field("kept", Part::Flag(false));
    }
    reply.fault = course.fault;
    match course.fault {
        None => {
            reply.field_bytes("answer", text);
            reply.field("whole", Part::Flag(course.whole));
        }
        Some(fault) if fault.kind == yaml_error_type_t::YAML_EMITTER_ERROR => {
            reply.field("call_number", Part::Count(course.number));
        }
        Some(_) => reply.field_bytes("output", text),
    }
}

/// What the emitter answers on the line's events: the text, and whether the events end the stream; or the fault, with the
/// refused call's number or the output; and what flushes in mid-stream show. A call after a fault is to answer it again
/// and to write nothing.
pub fn put_events(reply: &mut Reply, line: &Value, emitter: &mut yaml_emitter_t) {
    let mut course = Course::default();
    reply.field("flushed", Part::List);
    give_all(reply, line, emitter, &mut course);
    reply.put(Part::EndList);
    put_course(reply, yaml_emitter_output(emitter), &course);
}
