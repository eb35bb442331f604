//! What the calls that read answer on a line: scan, scan_calls, next_tokens, parse, parse_calls, load and emit, of an input or of
//! listed tokens.

mod parser;
mod tokens;

use crate::lines::Reply;
pub use parser::{parse_input, parse_tokens};
use serde_json::Value;
pub use tokens::{next_tokens, scan};
use yaml_scan::yaml_fault_t;

// What is found, or the fault.
type Found<T> = Result<T, yaml_fault_t>;

// The call of a session or a parser that comes after that many.
fn call_at<'a>(reply: &mut Reply, line: &'a Value, number: u64) -> Option<&'a str> {
    if reply.again.is_some() {
        return reply.again;
    }
    let call = reply.list(line, "/calls").get(number as usize)?;
    Some(reply.text(call, ""))
}

// Puts the fault; where one call is made again and again it is after all that was answered, or alone where events are parsed.
// Whether there may be more.
fn put_refused(reply: &mut Reply, line: &Value, fault: yaml_fault_t) -> bool {
    match reply.again {
        None => reply.put_fault(line, &fault),
        Some("parse") => reply.done(Some(fault)),
        Some(_) => reply.fault = Some(fault),
    }
    reply.again.is_none()
}
