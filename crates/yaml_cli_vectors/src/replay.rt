//! A line, replayed by the call that it names.

use crate::call::answer;
use crate::engine::field_line;
use crate::lines::{MEMORY, Reply, first_wrong};
use crate::tally::Tally;
use serde_json::{Error, Value};
use std::str;

// Why a text isn't JSON.
fn json_error(error: &Error) -> &'static str {
    if error.is_memory() { MEMORY } else { "no JSON" }
}

// Counts the line by what its call answered, an object of JSON. Where a field differs, the whole answer is reported; what
// the line calls and expects is in the line.
fn judge_text(rt: &HostRuntime, tally: &mut Tally, line: &Value, text: &[u8]) {
    match Value::from_slice(rt.alloc(), text) {
        Ok(got) => match first_wrong(line, &got) {
            None => tally.passed = tally.passed.wrapping_add(1),
            Some(name) => {
                let answered = str::from_utf8(text).unwrap_or("");
                tally.tell(rt, name, " is another in ", answered);
            }
        },
        Err(error) => tally.tell(rt, json_error(&error), "", ""),
    }
}

// What the call answers on the line, and after that its fault, or only that where it fails; and the line that reports the fault
// where the vector asks for that.
fn put_answer(rt: &HostRuntime, reply: &mut Reply, line: &Value) {
    answer(rt, reply, line);
    if let Some(fault) = reply.fault {
        if reply.is_refused {
            *reply = Reply::new(reply.alloc);
        }
        reply.put_name("fault");
        reply.put_fault(line, &fault);
        if line.get("fault_line").is_some() {
            field_line(reply, "fault_line", &fault);
        }
    }
}

/// Makes the call that the line names, and compares.
pub fn replay(rt: &HostRuntime, tally: &mut Tally, line: &str) {
    match Value::from_str(rt.alloc(), line) {
        Ok(line) => {
            let mut reply = Reply::new(rt.alloc());
            put_answer(rt, &mut reply, &line);
            match reply.finish() {
                Ok(text) => judge_text(rt, tally, &line, text.as_slice()),
                Err((what, of)) => tally.tell(rt, what, of, ""),
            }
        }
        Err(error) => tally.tell(rt, json_error(&error), "", ""),
    }
}
