//! What flushes in mid-stream show.

use super::emitter::flush;
use crate::lines::{Part, Reply};
use serde_json::Value;
use yaml_emit::{yaml_emitter_output, yaml_emitter_t};

// Whether the text is the front and, after it, only what is between nodes: blanks, breaks, and the
// indicators that separate nodes or open a collection; in UTF-16 their other byte.
fn is_close(text: &[u8], front: &[u8]) -> bool {
    let rest = text.strip_prefix(front);
    rest.is_some_and(|rest| rest.iter().all(|byte| b"\0 \r\n,:?-[{".contains(byte)))
}

// Whether the text is what the line expects of a flush: those bytes at least and a front of the
// line's answer, where it says so, else those bytes except for what is between nodes. How much of
// that a flush shows is open: in canonical form what separates two nodes is written with the
// second, and a collection's opener with the collection.
fn is_wanted(reply: &mut Reply, line: &Value, wanted: &Value, text: &[u8]) -> bool {
    let want = reply.bytes(wanted, "/1");
    if wanted.get(2).is_some() {
        let whole = reply.bytes(line, "/answer");
        text.starts_with(want.as_slice()) && whole.starts_with(text)
    } else {
        is_close(text, want.as_slice()) || is_close(want.as_slice(), text)
    }
}

fn put_wanted(reply: &mut Reply, wanted: &Value) {
    for told in reply.list(wanted, "").get(1..).unwrap_or(&[]) {
        let told = reply.text(told, "");
        reply.put_utf8(told.as_bytes());
    }
}

/// Flushes after that many events where the line has a flush there, and puts the number of events and that as the line wants it, or as
/// it is.
pub fn put_flushes(reply: &mut Reply, line: &Value, count: u64, emitter: &mut yaml_emitter_t) {
    for wanted in reply.list(line, "/flushed") {
        if reply.count(wanted, "/0") == count {
            let fault = flush(emitter);
            let text = yaml_emitter_output(emitter);
            reply.put_all(&[Part::List, Part::Count(count)]);
            if is_wanted(reply, line, wanted, text) && fault.is_none() {
                put_wanted(reply, wanted);
            } else {
                reply.put_bytes(text);
            }
            reply.put(Part::EndList);
        }
    }
}
