//! The call `main`: a run of the whole program, over streams that do what the line says.

use crate::lines::{Part, Reply, Stream};
use serde_json::Value;
use yaml_cli_main::yaml_main;

// What is there, or whether anything is where the line asks for that.
fn put_text(reply: &mut Reply, line: &Value, name: &'static str, text: &[u8], is_utf8: bool) {
    match line.get(name) {
        Some(Value::Bool(_)) => reply.field(name, Part::Flag(!text.is_empty())),
        _ if is_utf8 => reply.field_utf8(name, text),
        _ => reply.field_bytes(name, text),
    }
}

/// The status that the program exits with for the line's arguments, what it writes, and what it
/// reports. One function owns the streams, and asks all there is to ask after the run.
pub fn run(rt: &HostRuntime, reply: &mut Reply, line: &Value) {
    let mut words = Vec::new(reply.alloc);
    for listed in reply.list(line, "/words") {
        let word = reply.text(listed, "");
        reply.room(words.push(word));
    }
    let bytes = reply.input(line, "/input");
    let mut input = Stream::of(reply, line, "/reads", bytes);
    let mut output = Stream::of(reply, line, "/writes", Vec::new(reply.alloc));
    output.flush_fails = reply.flag(line, "/unflushed");
    let mut errors = Stream::of(reply, line, "/tells", Vec::new(reply.alloc));
    let status = yaml_main(rt, words.as_slice(), &mut input, &mut output, &mut errors);
    reply.field("status", Part::Count(u64::from(status)));
    put_text(reply, line, "output", output.bytes.get_ref(), false);
    put_text(reply, line, "errors", errors.bytes.get_ref(), true);
}
